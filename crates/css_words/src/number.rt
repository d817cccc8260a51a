//! Numbers among the words.
ghost use Rattle.std.specs.Prelude.{◌≡◌, ◌≤◌, ◌<◌, ◌^◌, ◌↔◌, IsTrue, IfOk, length};
ghost use Rattle.std.specs.Str.Parse.{IsNumeral, digits_value};
ghost use Rattle.css_words.specs.Reading.{IsNumber};

use clap::builder::ValueParser;
use clap::error::ErrorKind;
use clap::{Arg, Command};
use css_base::NoMemory;
use std::alloc::Global;

/// Whether a text is 1 to 20 decimal digits.
fn is_numeral(text: &str) -> bool
    ensures { IsTrue result ↔ IsNumeral 10 text.now × (length text.now ≤ 20) }
{
    if text.is_empty() || 20 < text.len() {
        return false;
    }
    for byte in text.as_bytes() {
        if !byte.is_ascii_digit() {
            return false;
        }
    }
    true
}

/// Whether the number that digits write lies in a range, as the value of a command line's argument.
fn lies_in(alloc: Global, digits: &str, least: u64, most: u64) -> Result<bool, NoMemory>
    requires { IsNumeral 10 digits.now }
    ensures { IfOk result (λ yes. IsTrue yes ↔
        (digits_value 10 digits.now < 2 ^ 64) × (least ≤ digits_value 10 digits.now) × (digits_value 10 digits.now ≤ most)) }
{
    let words = ["number", "--", digits];
    let value = Arg::new(alloc, "value").value_parser(ValueParser::unsigned(least, most));
    let command = Command::new(alloc, "number").arg(value)?;
    match command.try_get_matches_from(words.as_slice()) {
        Ok(_) => Ok(true),
        Err(error) => match error.kind() {
            ErrorKind::OutOfMemory => Err(NoMemory),
            _ => Ok(false),
        },
    }
}

/// Whether a text is a number in a range.
pub(crate) fn is_number(alloc: Global, text: &str, least: u64, most: u64) -> Result<bool, NoMemory>
    ensures { IfOk result (λ yes. IsTrue yes ↔ IsNumber least most text.now) }
{
    if is_numeral(text) {
        lies_in(alloc, text, least, most)
    } else {
        Ok(false)
    }
}

/// The number that digits write.
pub(crate) fn value_of_digits(text: &str) -> u64
    requires digits { IsNumeral 10 text.now }
    requires fits { digits_value 10 text.now < 2 ^ 64 }
    ensures { result ≡ digits_value 10 text.now }
{
    match text.parse::<u64>() {
        Ok(value) => value,
        Err(_) => 0,
    }
}
