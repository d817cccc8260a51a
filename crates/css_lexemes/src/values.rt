//! What a lexeme stands for: integer constants (C99 6.4.4.1), character constants (C99 6.4.4.4) and strings (C99 6.4.5).
ghost use Rattle.std.specs.Prelude.{◌≡◌, ◌≤◌, ◌<◌, ◌+◌, ◌*◌, ◌^◌, ◌||◌, length, map, codes, option_map, IfOk, IfSome, MatchOption, IsTrue};
ghost use Rattle.css_base.specs.Tokens.{kind_of};
ghost use Rattle.css_lexemes.specs.Source.{begins_with};
ghost use Rattle.css_lexemes.specs.Values as definitions;

use crate::characters::is_decimal;
use crate::lexeme_class::LexemeClass;
use css_base::{Bytes, IntType, NoMemory, TokenKind};
use std::alloc::Global;

/// A suffix of an integer constant: whether it has a `u`, and how many ranks from `int` on it leaves out.
#[derive(Clone, Copy)]
pub(crate) struct Suffix {
    pub(crate) unsigned: bool,
    pub(crate) ranks: u32,
}

/// A type that a constant may have, with its rank from `int` on and its greatest value.
#[derive(Clone, Copy)]
pub(crate) struct Candidate {
    pub(crate) kind: IntType,
    pub(crate) unsigned: bool,
    pub(crate) rank: u32,
    pub(crate) greatest: u64,
}

/// An escape: its value, and how many bytes it has behind the backslash.
#[derive(Clone, Copy)]
pub(crate) struct Escape {
    pub(crate) value: u8,
    pub(crate) size: usize,
}

/// The suffixes (C99 6.4.4.1), each with its spelling.
const SUFFIXES: [(&[u8], Suffix); 23] = [
    (
        b"",
        Suffix {
            unsigned: false,
            ranks: 0,
        },
    ),
    (
        b"u",
        Suffix {
            unsigned: true,
            ranks: 0,
        },
    ),
    (
        b"U",
        Suffix {
            unsigned: true,
            ranks: 0,
        },
    ),
    (
        b"l",
        Suffix {
            unsigned: false,
            ranks: 1,
        },
    ),
    (
        b"L",
        Suffix {
            unsigned: false,
            ranks: 1,
        },
    ),
    (
        b"ll",
        Suffix {
            unsigned: false,
            ranks: 2,
        },
    ),
    (
        b"LL",
        Suffix {
            unsigned: false,
            ranks: 2,
        },
    ),
    (
        b"ul",
        Suffix {
            unsigned: true,
            ranks: 1,
        },
    ),
    (
        b"uL",
        Suffix {
            unsigned: true,
            ranks: 1,
        },
    ),
    (
        b"Ul",
        Suffix {
            unsigned: true,
            ranks: 1,
        },
    ),
    (
        b"UL",
        Suffix {
            unsigned: true,
            ranks: 1,
        },
    ),
    (
        b"lu",
        Suffix {
            unsigned: true,
            ranks: 1,
        },
    ),
    (
        b"lU",
        Suffix {
            unsigned: true,
            ranks: 1,
        },
    ),
    (
        b"Lu",
        Suffix {
            unsigned: true,
            ranks: 1,
        },
    ),
    (
        b"LU",
        Suffix {
            unsigned: true,
            ranks: 1,
        },
    ),
    (
        b"ull",
        Suffix {
            unsigned: true,
            ranks: 2,
        },
    ),
    (
        b"uLL",
        Suffix {
            unsigned: true,
            ranks: 2,
        },
    ),
    (
        b"Ull",
        Suffix {
            unsigned: true,
            ranks: 2,
        },
    ),
    (
        b"ULL",
        Suffix {
            unsigned: true,
            ranks: 2,
        },
    ),
    (
        b"llu",
        Suffix {
            unsigned: true,
            ranks: 2,
        },
    ),
    (
        b"llU",
        Suffix {
            unsigned: true,
            ranks: 2,
        },
    ),
    (
        b"LLu",
        Suffix {
            unsigned: true,
            ranks: 2,
        },
    ),
    (
        b"LLU",
        Suffix {
            unsigned: true,
            ranks: 2,
        },
    ),
];

/// The types of constants in the order of C99 6.4.4.1.
const CANDIDATES: [Candidate; 6] = [
    Candidate {
        kind: IntType::Int,
        unsigned: false,
        rank: 0,
        greatest: 2_147_483_647,
    },
    Candidate {
        kind: IntType::UInt,
        unsigned: true,
        rank: 0,
        greatest: 4_294_967_295,
    },
    Candidate {
        kind: IntType::Long,
        unsigned: false,
        rank: 1,
        greatest: 2_147_483_647,
    },
    Candidate {
        kind: IntType::ULong,
        unsigned: true,
        rank: 1,
        greatest: 4_294_967_295,
    },
    Candidate {
        kind: IntType::LongLong,
        unsigned: false,
        rank: 2,
        greatest: 9_223_372_036_854_775_807,
    },
    Candidate {
        kind: IntType::ULongLong,
        unsigned: true,
        rank: 2,
        greatest: 18_446_744_073_709_551_615,
    },
];

/// The simple escapes: the byte behind the backslash, and the value.
const SIMPLE_ESCAPES: [(u8, u8); 11] = [
    (b'\'', b'\''),
    (b'"', b'"'),
    (b'?', b'?'),
    (b'\\', b'\\'),
    (b'a', 7),
    (b'b', 8),
    (b'f', 12),
    (b'n', 10),
    (b'r', 13),
    (b't', 9),
    (b'v', 11),
];

/// The value of a digit: `0` to `9`, `A` to `F` or `a` to `f`.
fn value_of_digit(byte: u8) -> u8
    ensures { result ≡ definitions.digit_value byte }
{
    if b'a' <= byte {
        byte - 87
    } else if b'A' <= byte {
        byte - 55
    } else {
        byte.saturating_sub(48)
    }
}

/// Whether a byte is a digit of a base of at most 16.
fn is_digit_of(base: u8, byte: u8) -> bool
    ensures { result ≡ definitions.is_digit_in base byte }
{
    (is_decimal(byte) || (b'A' <= byte && byte <= b'F') || (b'a' <= byte && byte <= b'f'))
        && value_of_digit(byte) < base
}

/// The digits of a base that a text begins with.
fn digits_in_front(base: u8, text: &[u8]) -> &[u8]
    ensures value { result.now ≡ definitions.digits_in base text.now }
    ensures within { length result.now ≤ length text.now }
{
    let mut end = 0;
    while end < text.len() && is_digit_of(base, text[end]) {
        end += 1;
    }
    &text[..end]
}

/// A value with one more digit behind it, if it has at most 64 bits.
fn with_digit(base: u8, value: u64, digit: u8) -> Option<u64>
    ensures { MatchOption result (2 ^ 64 ≤ base * value + definitions.digit_value digit) (λ v. v ≡ base * value + definitions.digit_value digit) }
{
    let product = u64::from(base).checked_mul(value)?;
    product.checked_add(u64::from(value_of_digit(digit)))
}

/// The value of digits in a base, if it has at most 64 bits.
fn value_of(base: u8, digits: &[u8]) -> Option<u64>
    requires { 0 < base }
    ensures { MatchOption result (2 ^ 64 ≤ definitions.value_in base digits.now) (λ v. v ≡ definitions.value_in base digits.now) }
{
    let mut value = 0;
    for digit in digits {
        let Some(more) = with_digit(base, value, *digit) else {
            return None;
        };
        value = more;
    }
    Some(value)
}

/// What stands beside a spelling in a table, if it is there.
fn find_spelling(table: &[(&[u8], Suffix)], spelling: &[u8]) -> Option<Suffix>
    ensures { result ≡ definitions.suffix_in (map (λ s. (s.0.now, s.1)) table.now) spelling.now }
{
    for entry in table {
        if entry.0 == spelling {
            return Some(entry.1);
        }
    }
    None
}

/// The suffix of this spelling, if there is one.
fn suffix_of(spelling: &[u8]) -> Option<Suffix>
    ensures { result ≡ definitions.suffix_in definitions.suffixes spelling.now }
{
    find_spelling(&SUFFIXES, spelling)
}

/// Whether a constant of this value with this suffix may have a type.
fn may_be(decimal: bool, suffix: Suffix, value: u64, candidate: &Candidate) -> bool
    ensures { result ≡ definitions.fits decimal suffix value candidate.now }
{
    suffix.ranks <= candidate.rank
        && value <= candidate.greatest
        && (if candidate.unsigned {
            suffix.unsigned || !decimal
        } else {
            !suffix.unsigned
        })
}

/// The first of some types that a constant of this value with this suffix may have.
fn first_type(
    decimal: bool,
    suffix: Suffix,
    value: u64,
    candidates: &[Candidate],
) -> Option<IntType>
    ensures { result ≡ definitions.first_type decimal suffix value candidates.now }
{
    for candidate in candidates {
        if may_be(decimal, suffix, value, candidate) {
            return Some(candidate.kind);
        }
    }
    None
}

/// The type of a constant of this value with this suffix.
fn type_of(decimal: bool, suffix: Suffix, value: u64) -> Option<IntType>
    ensures { result ≡ definitions.first_type decimal suffix value definitions.candidates }
{
    first_type(decimal, suffix, value, &CANDIDATES)
}

/// An integer constant: its digits in a base, and what stands behind them.
fn constant_of(base: u8, digits: &[u8], behind: &[u8]) -> Option<TokenKind>
    requires { 0 < base }
    ensures { option_map kind_of result ≡ definitions.constant_in base digits.now behind.now }
{
    let suffix = suffix_of(behind)?;
    let value = value_of(base, digits)?;
    let kind = type_of(base == 10, suffix, value)?;
    Some(TokenKind::Number { kind, value })
}

/// The digits in front of a text and what stands behind them, as a constant.
fn number_of(base: u8, text: &[u8]) -> Option<TokenKind>
    requires { 0 < base }
    ensures { option_map kind_of result ≡ definitions.number_in base text.now }
{
    let digits = digits_in_front(base, text);
    if digits.is_empty() {
        return None;
    }
    constant_of(base, digits, &text[digits.len()..])
}

/// Whether a text begins as a hexadecimal constant does.
fn is_hexadecimal(text: &[u8]) -> bool
    ensures value { result ≡ (begins_with (codes "0x") text.now || begins_with (codes "0X") text.now) }
    ensures long { IsTrue result → 2 ≤ length text.now }
{
    text.starts_with(b"0x") || text.starts_with(b"0X")
}

/// An integer constant.
fn constant(text: &[u8]) -> Option<TokenKind>
    ensures { option_map kind_of result ≡ definitions.integer_constant text.now }
{
    if is_hexadecimal(text) {
        number_of(16, &text[2..])
    } else if text.starts_with(b"0") {
        number_of(8, text)
    } else {
        number_of(10, text)
    }
}

/// Digits as an escape with so many bytes in front of them, if there are any and their value is a byte's.
fn numeric(base: u8, before: usize, digits: &[u8]) -> Option<Escape>
    requires base { 0 < base }
    requires before { before ≤ 1 }
    ensures { result ≡ definitions.numeric_escape base before digits.now }
{
    if digits.is_empty() {
        return None;
    }
    let value = value_of(base, digits)?;
    if value > 255 {
        return None;
    }
    Some(Escape {
        value: value as u8,
        size: before + digits.len(),
    })
}

/// The value that stands beside a byte in a table, if it is there.
fn find_byte(table: &[(u8, u8)], byte: u8) -> Option<u8>
    ensures { result ≡ definitions.simple_escape table.now byte }
{
    for entry in table {
        if entry.0 == byte {
            return Some(entry.1);
        }
    }
    None
}

/// The escape of one byte behind the backslash, if there is one.
fn simple(byte: u8) -> Option<Escape>
    ensures { result ≡ option_map (λ value. definitions.escape value 1) (definitions.simple_escape definitions.simple_escapes byte) }
{
    let value = find_byte(&SIMPLE_ESCAPES, byte)?;
    Some(Escape { value, size: 1 })
}

/// The escape that stands behind a backslash.
fn escape_in_front(text: &[u8]) -> Option<Escape>
    ensures value { result ≡ definitions.escape_at text.now }
    ensures within { IfSome result (λ e. e.size ≤ length text.now) }
{
    if text.is_empty() {
        return None;
    }
    if text[0] == b'x' {
        numeric(16, 1, digits_in_front(16, &text[1..]))
    } else if is_digit_of(8, text[0]) {
        let digits = digits_in_front(8, text);
        numeric(8, 0, &digits[..digits.len().min(3)])
    } else {
        simple(text[0])
    }
}

/// The values of the characters between two quotes. None where an escape is none or its value isn't a byte's.
fn characters(alloc: Global, body: &[u8]) -> Result<Option<Vec<u8>>, NoMemory>
    ensures { IfOk result (λ values. option_map (λ v. v.items) values ≡ definitions.characters 0 body.now) }
{
    let mut values = Vec::new(alloc);
    let mut place = 0;
    while place < body.len() {
        let byte = body[place];
        place += 1;
        if byte == b'\\' {
            let Some(escape) = escape_in_front(&body[place..]) else {
                return Ok(None);
            };
            values.push(escape.value)?;
            place += escape.size;
        } else {
            values.push(byte)?;
        }
    }
    Ok(Some(values))
}

/// What stands between two quotes.
fn between_quotes(bytes: &[u8]) -> &[u8]
    ensures { result.now ≡ definitions.between_quotes bytes.now }
{
    if bytes.len() < 2 {
        &bytes[..0]
    } else {
        &bytes[1..bytes.len() - 1]
    }
}

/// A character constant, which has one character.
fn one_character(values: &[u8]) -> Option<TokenKind>
    ensures { option_map kind_of result ≡ definitions.one_character values.now }
{
    if values.len() == 1 {
        Some(TokenKind::Character(values[0]))
    } else {
        None
    }
}

/// The character constant between two quotes.
fn character(alloc: Global, bytes: &[u8]) -> Result<Option<TokenKind>, NoMemory>
    ensures { IfOk result (λ kind. option_map kind_of kind ≡ definitions.kind_of_lexeme LexemeClass.Character bytes.now) }
{
    match characters(alloc, between_quotes(bytes))? {
        Some(values) => Ok(one_character(values.as_slice())),
        None => Ok(None),
    }
}

/// The string between two quotes.
fn string(alloc: Global, bytes: &[u8]) -> Result<Option<TokenKind>, NoMemory>
    ensures { IfOk result (λ kind. option_map kind_of kind ≡ definitions.kind_of_lexeme LexemeClass.Text bytes.now) }
{
    match characters(alloc, between_quotes(bytes))? {
        Some(values) => Ok(Some(TokenKind::Text(Bytes::new(values)))),
        None => Ok(None),
    }
}

/// What a lexeme of a class stands for, if its number, character or escapes are in range and form.
pub fn kind_of_lexeme(
    alloc: Global,
    class: LexemeClass,
    bytes: &[u8],
) -> Result<Option<TokenKind>, NoMemory>
    ensures { IfOk result (λ kind. option_map kind_of kind ≡ definitions.kind_of_lexeme class bytes.now) }
{
    match class {
        LexemeClass::Identifier => {
            let copy = Vec::from_slice(alloc, bytes)?;
            Ok(Some(TokenKind::Word(Bytes::new(copy))))
        }
        LexemeClass::Number => Ok(constant(bytes)),
        LexemeClass::Character => character(alloc, bytes),
        LexemeClass::Text => string(alloc, bytes),
        LexemeClass::Punctuator => {
            let copy = Vec::from_slice(alloc, bytes)?;
            Ok(Some(TokenKind::Punctuator(Bytes::new(copy))))
        }
    }
}
