//! The pieces of a logical line (C99 6.4): white space, lexemes, longest first, and bytes that are neither.
ghost use Rattle.std.specs.Prelude.{◌≡◌, ◌+◌, ◌<◌, ◌≤◌, false, map, length};
ghost use Rattle.css_lexemes.specs.declared.lexeme_class.LexemeClass.TheVariants as classes;
ghost use Rattle.css_lexemes.specs.LineKinds.{first_word};
ghost use Rattle.css_lexemes.specs.Lexemes.{goes_on, begins_number, punctuators};
ghost use Rattle.css_lexemes.specs.Longest.{class_at, tail_length, more_of, closed_length, longest_of, lexeme_length, shape_at, size_at};

use crate::characters::{is_decimal, is_letter, is_white, is_word_byte};
use crate::lexeme_class::LexemeClass;
use crate::line_kind::word_in_front;

/// What a piece of a logical line is.
#[derive(Clone, Copy, PartialEq, Eq, Debug)]
pub enum Shape {
    /// One byte of white space.
    Blank,
    /// A lexeme: no longer front of the line is one.
    Lexeme(LexemeClass),
    /// One byte that is no white space, and with which no lexeme begins.
    Stray,
}

/// The piece that a line begins with.
#[derive(Clone, Copy)]
pub struct FirstPiece {
    pub shape: Shape,
    pub size: usize,
}

/// The punctuators (C99 6.4.6 without digraphs, `#` and `##`).
const PUNCTUATORS: [&[u8]; 46] = [
    b"[", b"]", b"(", b")", b"{", b"}", b".", b"->", b"++", b"--", b"&", b"*", b"+", b"-", b"~",
    b"!", b"/", b"%", b"<<", b">>", b"<", b">", b"<=", b">=", b"==", b"!=", b"^", b"|", b"&&",
    b"||", b"?", b":", b";", b"...", b"=", b"*=", b"/=", b"%=", b"+=", b"-=", b"<<=", b">>=",
    b"&=", b"^=", b"|=", b",",
];

/// Whether a byte is the letter of an exponent and may have a sign behind it, in a preprocessing number.
fn may_follow(before: u8, byte: u8) -> bool
    ensures { result ≡ goes_on before byte }
{
    is_word_byte(byte)
        || byte == b'.'
        || ((byte == b'+' || byte == b'-')
            && (before == b'e' || before == b'E' || before == b'p' || before == b'P'))
}

/// How many bytes of a text go on a preprocessing number that ends in `first` so far.
fn length_of_tail(first: u8, text: &[u8]) -> usize
    ensures value { result ≡ tail_length first text.now }
    ensures within { result ≤ length text.now }
{
    let mut before = first;
    let mut end = 0;
    while end < text.len() && may_follow(before, text[end]) {
        before = text[end];
        end += 1;
    }
    end
}

/// The length of what is left of a constant up to its quote, 0 where the line ends first.
fn length_to_quote(quote: u8, text: &[u8]) -> usize
    ensures value { result ≡ closed_length quote false text.now }
    ensures within { result ≤ length text.now }
{
    let mut escaped = false;
    let mut end = 0;
    while end < text.len() && text[end] != b'\n' {
        let byte = text[end];
        end += 1;
        if byte == quote && !escaped {
            return end;
        }
        escaped = byte == b'\\' && !escaped;
    }
    0
}

/// The length of the constant whose quote stands in front of a text, 0 where the line ends first.
fn length_of_constant(quote: u8, text: &[u8]) -> usize
    ensures { result ≡ more_of 1 (closed_length quote false text.now) }
{
    let rest = length_to_quote(quote, text);
    if rest == 0 { 0 } else { 1 + rest }
}

/// The length of the longest of some spellings that a text begins with, 0 where it begins with none.
fn longest_in_front(spellings: &[&[u8]], text: &[u8]) -> usize
    ensures { result ≡ longest_of (map (λ s. s.now) spellings.now) text.now }
{
    let mut longest = 0;
    for spelling in spellings {
        if text.starts_with(spelling) {
            longest = longest.max(spelling.len());
        }
    }
    longest
}

/// The length of the longest punctuator that a text begins with, 0 where it begins with none.
fn length_of_punctuator(text: &[u8]) -> usize
    ensures { result ≡ longest_of punctuators text.now }
{
    longest_in_front(&PUNCTUATORS, text)
}

/// Whether a text begins as a preprocessing number does.
fn begins_a_number(text: &[u8]) -> bool
    requires { 0 < length text.now }
    ensures { result ≡ begins_number text.now }
{
    is_decimal(text[0]) || (text[0] == b'.' && text.len() >= 2 && is_decimal(text[1]))
}

/// The class of a lexeme that a text may begin with.
fn class_in_front(text: &[u8]) -> LexemeClass
    requires { 0 < length text.now }
    ensures { result ≡ class_at text.now }
{
    if is_letter(text[0]) {
        LexemeClass::Identifier
    } else if begins_a_number(text) {
        LexemeClass::Number
    } else if text[0] == b'\'' {
        LexemeClass::Character
    } else if text[0] == b'"' {
        LexemeClass::Text
    } else {
        LexemeClass::Punctuator
    }
}

/// The length of the longest lexeme that a text begins with, which can only be of this class.
fn length_in_front(class: LexemeClass, text: &[u8]) -> usize
    requires some { 0 < length text.now }
    requires class { class ≡ class_at text.now }
    ensures { result ≡ lexeme_length text.now }
{
    match class {
        LexemeClass::Identifier => 1 + word_in_front(&text[1..]).len(),
        LexemeClass::Number => 1 + length_of_tail(text[0], &text[1..]),
        LexemeClass::Character => length_of_constant(b'\'', &text[1..]),
        LexemeClass::Text => length_of_constant(b'"', &text[1..]),
        LexemeClass::Punctuator => length_of_punctuator(text),
    }
}

/// The piece that a line begins with.
pub fn first_piece(text: &[u8]) -> FirstPiece
    requires { 0 < length text.now }
    ensures shape { result.shape ≡ shape_at text.now }
    ensures size { result.size ≡ size_at text.now }
{
    if is_white(text[0]) {
        return FirstPiece {
            shape: Shape::Blank,
            size: 1,
        };
    }
    let class = class_in_front(text);
    let size = length_in_front(class, text);
    if size == 0 {
        FirstPiece {
            shape: Shape::Stray,
            size: 1,
        }
    } else {
        FirstPiece {
            shape: Shape::Lexeme(class),
            size,
        }
    }
}
