//! The bytes of a text behind translation phase 3 (C99 5.1.1.2): comments are spaces.
ghost use Rattle.std.specs.Prelude.{◌≡◌, ◌≢◌, ◌≤◌, ◌<◌, ◌-◌, ◌++◌, ◌∷◌, [], true, false, length, codes, IfOk};
ghost use Rattle.css_lexemes.specs.Source.{begins_with, bytes_of};
ghost use Rattle.css_lexemes.specs.Comments.{length_before, comment_length, constant_rest, constant_length, constant_behind, uncommented, passes_over, front_behind};
ghost use Rattle.css_lexemes.specs.Fronts.{IsKnown};

use crate::characters::is_quotation_mark;
use crate::line_kind::kind_of_line;
use crate::source::SourceByte;
use css_base::NoMemory;
use std::alloc::Global;

/// Whether a text begins with two bytes.
fn begins_with_pair(text: &[SourceByte], first: u8, second: u8) -> bool
    ensures value { result ≡ begins_with (first ∷ second ∷ []) (bytes_of text.now) }
{
    text.len() >= 2 && text[0].byte == first && text[1].byte == second
}

/// How many bytes stand in front of the first place at which two bytes stand; all of them where they stand nowhere.
fn length_before_pair(text: &[SourceByte], first: u8, second: u8) -> usize
    ensures value { result ≡ length_before (first ∷ second ∷ []) (bytes_of text.now) }
    ensures within { result ≤ length text.now }
{
    let mut end = 0;
    while end < text.len() && !begins_with_pair(&text[end..], first, second) {
        end += 1;
    }
    end
}

/// How many bytes stand in front of the first newline; all of them where there is none.
fn length_before_newline(text: &[SourceByte]) -> usize
    ensures value { result ≡ length_before (codes "\n") (bytes_of text.now) }
    ensures within { result ≤ length text.now }
{
    let mut end = 0;
    while end < text.len() && text[end].byte != b'\n' {
        end += 1;
    }
    end
}

/// The length of the comment that a text begins with, 0 where it begins with none.
fn comment_at(text: &[SourceByte]) -> usize
    ensures value { result ≡ comment_length (bytes_of text.now) }
    ensures within { result ≤ length text.now }
{
    if begins_with_pair(text, b'/', b'*') {
        text.len()
            .min(4 + length_before_pair(&text[2..], b'*', b'/'))
    } else if begins_with_pair(text, b'/', b'/') {
        length_before_newline(text)
    } else {
        0
    }
}

/// The length of what is left of a constant that ends with this quote, and of the line where the constant isn't ended.
fn length_of_rest(quote: u8, text: &[SourceByte]) -> usize
    ensures value { result ≡ constant_rest quote false (bytes_of text.now) }
    ensures within { result ≤ length text.now }
{
    let mut escaped = false;
    let mut end = 0;
    while end < text.len() && text[end].byte != b'\n' {
        let byte = text[end].byte;
        end += 1;
        if byte == quote && !escaped {
            return end;
        }
        escaped = byte == b'\\' && !escaped;
    }
    end
}

/// Whether a text begins with a quote.
fn begins_with_quote(text: &[SourceByte]) -> bool
    ensures none { result ≡ false → constant_length (bytes_of text.now) ≡ 0 }
    ensures some { result ≡ true → 0 < length text.now }
{
    !text.is_empty() && is_quotation_mark(text[0].byte)
}

/// The length of the string or character constant that a text begins with, 0 where it begins with none.
fn constant_at(text: &[SourceByte]) -> usize
    ensures { result ≡ constant_length (bytes_of text.now) }
{
    if text.is_empty() || !is_quotation_mark(text[0].byte) {
        return 0;
    }
    1 + length_of_rest(text[0].byte, &text[1..])
}

/// The bytes that are shown, and those of the logical line so far. Once the line shows a quote it is known whether it is
/// passed over.
#[derive(Drop)]
struct Shown {
    bytes: Vec<SourceByte>,
    front: Vec<u8>,
    passed_over: Option<bool>,
    ghost known: { IsKnown front.items passed_over },
}

impl Shown {
    /// Whether the line is passed over unread, if a quote stands next.
    fn is_unread(&self) -> bool
        ensures { result ≡ passes_over self.now.front.items }
    {
        match self.passed_over {
            Some(unread) => unread,
            None => kind_of_line(self.front.as_slice()).is_unread(),
        }
    }

    /// The length of the constant that a text behind the line so far begins with, 0 where it begins with none.
    fn constant_next(&self, text: &[SourceByte]) -> usize
        ensures { result ≡ constant_behind self.now.front.items (bytes_of text.now) }
    {
        if !begins_with_quote(text) {
            return 0;
        }
        if self.is_unread() {
            return 0;
        }
        constant_at(text)
    }

    /// Whether the line is known to be passed over behind one more byte.
    fn known_behind(&self, byte: u8) -> Option<bool>
        ensures { IsKnown (self.now.front.items ++ byte ∷ []) result }
    {
        if let Some(unread) = self.passed_over {
            return Some(unread);
        }
        if is_quotation_mark(byte) {
            return Some(self.is_unread());
        }
        None
    }

    /// Shows one more byte.
    fn push(&mut self, source: SourceByte) -> Result<(), NoMemory>
        ensures bytes { IfOk result (λ _. self.new.bytes.items ≡ self.old.bytes.items ++ source ∷ []) }
        ensures front { IfOk result (λ _. self.new.front.items ≡ front_behind self.old.front.items source.byte) }
    {
        self.bytes.push(source)?;
        if source.byte == b'\n' {
            self.front.clear();
            self.passed_over = None;
        } else {
            let known = self.known_behind(source.byte);
            self.front.push(source.byte)?;
            self.passed_over = known;
        }
        Ok(())
    }

    /// How many of the next bytes belong to a constant, behind the first byte of a text: one fewer, or, where none did, as
    /// many as the constant has that the text begins with.
    fn kept_behind(&self, kept: usize, text: &[SourceByte]) -> usize
        ensures inside { 0 < kept → result ≡ kept - 1 }
        ensures outside { kept ≡ 0 → result ≡ constant_behind self.now.front.items (bytes_of text.now) - 1 }
    {
        if kept > 0 {
            kept - 1
        } else {
            self.constant_next(text).saturating_sub(1)
        }
    }
}

/// The length of the comment that a text begins with where none of its bytes belong to a constant; else 0.
fn hidden_at(kept: usize, text: &[SourceByte]) -> usize
    ensures inside { 0 < kept → result ≡ 0 }
    ensures outside { kept ≡ 0 → result ≡ comment_length (bytes_of text.now) }
    ensures within { result ≤ length text.now }
{
    if kept > 0 { 0 } else { comment_at(text) }
}

/// The bytes of a text with a space in place of each comment.
pub(crate) fn without_comments(
    alloc: Global,
    source: &[SourceByte],
) -> Result<Vec<SourceByte>, NoMemory>
    ensures { IfOk result (λ bytes. bytes.items ≡ uncommented [] 0 0 source.now) }
{
    let mut shown = Shown {
        bytes: Vec::new(alloc),
        front: Vec::new(alloc),
        passed_over: None,
    };
    let mut kept = 0;
    let mut place = 0;
    while place < source.len() {
        let rest = &source[place..];
        let hidden = hidden_at(kept, rest);
        if hidden > 0 {
            shown.push(SourceByte {
                byte: b' ',
                place: source[place].place,
            })?;
            place += hidden;
        } else {
            kept = shown.kept_behind(kept, rest);
            shown.push(source[place])?;
            place += 1;
        }
    }
    Ok(shown.bytes)
}
