//! Numbers, names and bytes as words write them.
ghost use Rattle.std.specs.Prelude.{◌≡◌, ◌≤◌, ◌+◌, ◌*◌, ◌^◌, ◌<◌, IsTrue, MatchOption, IfSome};
ghost use Rattle.std.specs.Char.{digit_value};
ghost use Rattle.std.specs.List.{list_all};
ghost use Rattle.std.specs.Str.Parse.{digits_value};
ghost use Rattle.css_traces.specs.Names.{is_digit};
ghost use Rattle.css_traces.specs.Words.{is_plain, number_below, small_of, line_number_of};
ghost use Rattle.css_listing.specs.Words.{negative_of, signed_of, name_of, bytes_of};
ghost use Rattle.css_listing.specs.Reading.{Gives};

use crate::fault::ReadError;
use css_base::{Bytes, Line};
use css_isa::{Name, is_name};
use hex::FromHexError;
use std::alloc::Global;

/// Whether all of some bytes are decimal digits.
fn are_digits(bytes: &[u8]) -> bool
    ensures { result ≡ list_all is_digit bytes.now }
{
    bytes.iter().all(|b| b'0' <= *b && *b <= b'9')
}

/// Whether a word is a number in decimal, with no zero in front that isn't needed.
fn is_plain(word: &[u8]) -> bool
    ensures { result ≡ is_plain word.now }
{
    !word.is_empty() && ((word[0] != b'0' || word.len() == 1) && are_digits(word))
}

/// The number that digits write, if it has at most 64 bits.
fn value_of(digits: &[u8]) -> Option<u64>
    requires { IsTrue (list_all is_digit digits.now) }
    ensures { MatchOption result (2 ^ 64 ≤ digits_value 10 digits.now) (λ n. n ≡ digits_value 10 digits.now) }
{
    let mut value: u64 = 0;
    for digit in digits {
        let Some(more) = with_digit(value, *digit) else {
            return None;
        };
        value = more;
    }
    Some(value)
}

/// A number with one more digit behind it, if it has at most 64 bits.
fn with_digit(value: u64, digit: u8) -> Option<u64>
    requires { IsTrue (is_digit digit) }
    ensures { MatchOption result (2 ^ 64 ≤ value * 10 + digit_value digit) (λ n. n ≡ value * 10 + digit_value digit) }
{
    let product = value.checked_mul(10)?;
    product.checked_add(u64::from(digit - b'0'))
}

/// The number below a limit that a word writes.
#[tactic(auto, using(crate::proofs::Below::below_refused, crate::proofs::Below::below_given, crate::proofs::Below::below_over))]
fn number_below(limit: u64, word: &[u8]) -> Option<u64>
    ensures value { result ≡ number_below limit word.now }
    ensures within { IfSome result (λ n. n < limit) }
{
    if !is_plain(word) {
        return None;
    }
    match value_of(word) {
        Some(number) if number < limit => Some(number),
        _ => None,
    }
}

/// The number of 32 bits that a word writes.
pub(crate) fn small_of(word: &[u8]) -> Option<u32>
    ensures { result ≡ small_of word.now }
{
    match number_below(0x1_0000_0000, word) {
        Some(number) => Some(number as u32),
        None => None,
    }
}

/// The line whose number a word writes.
#[tactic(auto, using(crate::proofs::Below::line_none, crate::proofs::Below::line_zero, crate::proofs::Below::line_some))]
pub(crate) fn line_number_of(word: &[u8]) -> Option<Line>
    ensures { result ≡ line_number_of word.now }
{
    let number = small_of(word)?;
    if number == 0 {
        return None;
    }
    Some(Line::new(number))
}

/// The negative of a number up to 2^63, which isn't 0.
fn negative(number: u64) -> Option<i64>
    requires { number ≤ 2 ^ 63 }
    ensures { result ≡ negative_of number }
{
    if number == 0 {
        return None;
    }
    Some(0u64.wrapping_sub(number).cast_signed())
}

/// The number of 64 bits that a word writes, with a minus in front where it is negative.
#[tactic(auto, unfolding(crate::specs::Words::signed_of))]
pub(crate) fn signed_of(word: &[u8]) -> Option<i64>
    ensures { result ≡ signed_of word.now }
{
    if !word.is_empty() && word[0] == b'-' {
        return match number_below(0x8000_0000_0000_0001, &word[1..]) {
            Some(number) => negative(number),
            None => None,
        };
    }
    match number_below(0x8000_0000_0000_0000, word) {
        Some(number) => Some(number.cast_signed()),
        None => None,
    }
}

/// The name that a word is.
#[tactic(auto, unfolding(crate::specs::Words::name_of))]
pub(crate) fn name_of(alloc: Global, word: &[u8]) -> Result<Name, ReadError>
    ensures { Gives result (name_of word.now) }
{
    if is_name(word) {
        let bytes = Vec::from_slice(alloc, word)?;
        Ok(Name::new(bytes))
    } else {
        Err(ReadError::Refused)
    }
}

/// The bytes that a word writes, two hexadecimal digits for each, one byte at least.
#[tactic(auto, unfolding(crate::specs::Words::bytes_of))]
pub(crate) fn bytes_of(alloc: Global, word: &[u8]) -> Result<Bytes, ReadError>
    ensures { Gives result (bytes_of word.now) }
{
    let bytes = match hex::decode(alloc, word) {
        Ok(bytes) => bytes,
        Err(FromHexError::OutOfMemory) => return Err(ReadError::NoMemory),
        Err(_) => return Err(ReadError::Refused),
    };
    let again = hex::encode(alloc, bytes.as_slice())?;
    if bytes.is_empty() || again.as_bytes() != word {
        return Err(ReadError::Refused);
    }
    Ok(Bytes::new(bytes))
}
