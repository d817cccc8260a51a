//! What the words of a line say.
ghost use Rattle.std.specs.Prelude.{◌≡◌, ◌≤◌, ◌+◌, ◌*◌, ◌^◌, IsTrue, MatchOption, map};
ghost use Rattle.std.specs.Char.{digit_value};
ghost use Rattle.std.specs.List.{list_all};
ghost use Rattle.std.specs.Str.Parse.{digits_value};
ghost use Rattle.css_traces.specs.Names.{is_digit, is_identifier};
ghost use Rattle.css_traces.specs.Words.{is_plain, number_below, number_of, small_of, line_number_of, numbers_of, name_of, only_number, only_small, small_and_number, small_and_numbers, number_and_name};
ghost use Rattle.css_traces.specs.Reading.{Gives};

use crate::fault::ReadError;
use crate::items::Items;
use crate::name::{Name, is_digit, is_name};
use css_base::Line;
use std::alloc::Global;

/// Whether all of some bytes are decimal digits.
fn are_digits(bytes: &[u8]) -> bool
    ensures { result ≡ list_all is_digit bytes.now }
{
    bytes.iter().all(|b| is_digit(*b))
}

/// Whether a word is a number in decimal, with no zero in front that isn't needed.
fn is_plain(word: &[u8]) -> bool
    ensures { result ≡ is_plain word.now }
{
    !word.is_empty() && ((word[0] != b'0' || word.len() == 1) && are_digits(word))
}

/// The number that digits write, if it has at most 64 bits.
fn value_of(digits: &[u8]) -> Option<u64>
    requires { IsTrue (list_all is_digit digits.now) }
    ensures { MatchOption result (2 ^ 64 ≤ digits_value 10 digits.now) (λ n. n ≡ digits_value 10 digits.now) }
{
    let mut value: u64 = 0;
    for digit in digits {
        let Some(more) = with_digit(value, *digit) else {
            return None;
        };
        value = more;
    }
    Some(value)
}

/// A number with one more digit behind it, if it has at most 64 bits.
fn with_digit(value: u64, digit: u8) -> Option<u64>
    requires { IsTrue (is_digit digit) }
    ensures { MatchOption result (2 ^ 64 ≤ value * 10 + digit_value digit) (λ n. n ≡ value * 10 + digit_value digit) }
{
    let product = value.checked_mul(10)?;
    product.checked_add(u64::from(digit - b'0'))
}

/// The number of 64 bits that a word writes.
#[tactic(auto, unfolding(crate::specs::Words::number_below))]
pub(crate) fn number_of(word: &[u8]) -> Option<u64>
    ensures { result ≡ number_of word.now }
{
    if is_plain(word) { value_of(word) } else { None }
}

/// The number of 32 bits that a word writes.
#[tactic(auto, unfolding(crate::specs::Words::number_below))]
pub(crate) fn small_of(word: &[u8]) -> Option<u32>
    ensures { result ≡ small_of word.now }
{
    match number_of(word) {
        Some(number) if number <= 4_294_967_295 => Some(number as u32),
        _ => None,
    }
}

/// The line whose number a word writes.
#[tactic(auto, unfolding(crate::specs::Words::line_number_of))]
pub(crate) fn line_number_of(word: &[u8]) -> Option<Line>
    ensures { result ≡ line_number_of word.now }
{
    match small_of(word) {
        Some(number) if number != 0 => Some(Line::new(number)),
        _ => None,
    }
}

/// The numbers of 64 bits that words write.
#[tactic(auto, unfolding(crate::specs::Words::numbers_of))]
fn numbers_of(alloc: Global, words: &[&[u8]]) -> Result<Items<u64>, ReadError>
    ensures { Gives result (numbers_of (map (λ w. w.now) words.now)) }
{
    let mut numbers = Vec::new(alloc);
    for word in words {
        let Some(number) = number_of(word) else {
            return Err(ReadError::Refused);
        };
        numbers.push(number)?;
    }
    Ok(Items::new(numbers))
}

/// The name that a word is.
#[tactic(auto, unfolding(crate::specs::Words::name_of))]
fn name_of(alloc: Global, word: &[u8]) -> Result<Name, ReadError>
    ensures { Gives result (name_of word.now) }
{
    if is_name(word) {
        let bytes = Vec::from_slice(alloc, word)?;
        Ok(Name::new(bytes))
    } else {
        Err(ReadError::Refused)
    }
}

/// One number of 64 bits.
#[tactic(auto, unfolding(crate::specs::Words::only_number))]
pub(crate) fn only_number(words: &[&[u8]]) -> Result<u64, ReadError>
    ensures { Gives result (only_number (map (λ w. w.now) words.now)) }
{
    if words.len() != 1 {
        return Err(ReadError::Refused);
    }
    match number_of(words[0]) {
        Some(number) => Ok(number),
        None => Err(ReadError::Refused),
    }
}

/// One number of 32 bits.
#[tactic(auto, unfolding(crate::specs::Words::only_small))]
pub(crate) fn only_small(words: &[&[u8]]) -> Result<u32, ReadError>
    ensures { Gives result (only_small (map (λ w. w.now) words.now)) }
{
    if words.len() != 1 {
        return Err(ReadError::Refused);
    }
    match small_of(words[0]) {
        Some(number) => Ok(number),
        None => Err(ReadError::Refused),
    }
}

/// A number of 32 bits, and one of 64.
#[tactic(auto, unfolding(crate::specs::Words::small_and_number))]
pub(crate) fn small_and_number(words: &[&[u8]]) -> Result<(u32, u64), ReadError>
    ensures { Gives result (small_and_number (map (λ w. w.now) words.now)) }
{
    if words.len() != 2 {
        return Err(ReadError::Refused);
    }
    match (small_of(words[0]), number_of(words[1])) {
        (Some(small), Some(number)) => Ok((small, number)),
        _ => Err(ReadError::Refused),
    }
}

/// A number of 32 bits, and any number of those of 64.
#[tactic(auto, unfolding(crate::specs::Words::small_and_numbers))]
pub(crate) fn small_and_numbers(
    alloc: Global,
    words: &[&[u8]],
) -> Result<(u32, Items<u64>), ReadError>
    ensures { Gives result (small_and_numbers (map (λ w. w.now) words.now)) }
{
    if words.len() == 0 {
        return Err(ReadError::Refused);
    }
    let Some(small) = small_of(words[0]) else {
        return Err(ReadError::Refused);
    };
    let numbers = numbers_of(alloc, &words[1..])?;
    Ok((small, numbers))
}

/// A number of 64 bits, and a name.
#[tactic(auto, unfolding(crate::specs::Words::number_and_name))]
pub(crate) fn number_and_name(alloc: Global, words: &[&[u8]]) -> Result<(u64, Name), ReadError>
    ensures { Gives result (number_and_name (map (λ w. w.now) words.now)) }
{
    if words.len() != 2 {
        return Err(ReadError::Refused);
    }
    let Some(number) = number_of(words[0]) else {
        return Err(ReadError::Refused);
    };
    let name = name_of(alloc, words[1])?;
    Ok((number, name))
}
