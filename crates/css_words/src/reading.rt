//! From words to a request.
ghost use Rattle.std.specs.Prelude.{◌≡◌, ◌≢◌, ◌≤◌, ◌∷◌, [], All, IfOk, IsErrOf, List, MatchOption, map};
ghost use Rattle.css_words.specs.Options.{Text, kind_of};
ghost use Rattle.css_words.specs.KeptWords.{pairs, texts};
ghost use Rattle.css_words.specs.Reading.{AreRefused, HasBounds, IsOperandOf, IsValue, Reads, file_of, is_given, limits_of, most_of, name_of, number_of, program_number, request_of};

use crate::allowed::{is_allowed, value_of};
use crate::built::Built;
use crate::command::{Command, command_named};
use crate::fault::WordsFault;
use crate::file_name::FileName;
use crate::number::value_of_digits;
use crate::options::OptionName;
use crate::part::Given;
use crate::request::Request;
use crate::said::read_parts;
use crate::table::{OptionKind, row};
use css_base::{Limits, NoMemory, Words};
use std::alloc::Global;

/// The number of an option: that of its value, or its default.
fn number_of(option: OptionName, given: &[Given<'_>]) -> u64
    requires { All (λ g. IsValue (kind_of g.0) g.1) (pairs given.now) }
    ensures value { result ≡ number_of option (pairs given.now) }
    ensures bound { result ≤ most_of (kind_of option) }
{
    match row(option).kind {
        OptionKind::Number { default, .. } => match value_of(option, given) {
            Some(digits) => value_of_digits(digits),
            None => default,
        },
        OptionKind::Flag => 0,
        OptionKind::File => 0,
    }
}

/// Whether an option is given.
fn is_given(option: OptionName, given: &[Given<'_>]) -> bool
    ensures { result ≡ is_given option (pairs given.now) }
{
    value_of(option, given).is_some()
}

/// The name that an option is given, which is empty where it isn't given.
fn name_of(alloc: Global, option: OptionName, given: &[Given<'_>]) -> Result<FileName, NoMemory>
    ensures { IfOk result (λ name. name ≡ name_of option (pairs given.now)) }
{
    let text = value_of(option, given).unwrap_or("");
    Ok(FileName::new(String::from_str(alloc, text)?))
}

/// What the run may use.
fn limits_of(given: &[Given<'_>]) -> Limits
    requires { All (λ g. IsValue (kind_of g.0) g.1) (pairs given.now) }
    ensures { result ≡ limits_of (pairs given.now) }
{
    let local_store = number_of(OptionName::LocalStore, given) as u32;
    Limits {
        workers: number_of(OptionName::Workers, given) as u32,
        bundle: number_of(OptionName::Bundle, given) as u32,
        local_store: local_store - local_store % 128,
        memory: number_of(OptionName::Memory, given) as u32,
        main_units: number_of(OptionName::MainUnits, given),
        task_units: number_of(OptionName::TaskUnits, given),
    }
}

/// The file of a command, which has none where it is asked of a number.
fn file_of(alloc: Global, command: Command, operand: &str) -> Result<FileName, NoMemory>
    ensures { IfOk result (λ name. name ≡ file_of command operand.now) }
{
    match command {
        Command::Make => Ok(FileName::new(String::new(alloc))),
        _ => Ok(FileName::new(String::from_str(alloc, operand)?)),
    }
}

/// The number of a command, which is 0 where it is asked of a file.
fn program_number(command: Command, operand: &str) -> u32
    requires { IsOperandOf command operand.now }
    ensures { result ≡ program_number command operand.now }
{
    match command {
        Command::Make => value_of_digits(operand) as u32,
        _ => 0,
    }
}

/// What is asked for.
fn make_request(
    alloc: Global,
    command: Command,
    operand: &str,
    given: &[Given<'_>],
) -> Result<Request, NoMemory>
    requires values { All (λ g. IsValue (kind_of g.0) g.1) (pairs given.now) }
    requires operand { IsOperandOf command operand.now }
    ensures { IfOk result (λ request. request ≡ request_of command operand.now (pairs given.now)) }
{
    let file = file_of(alloc, command, operand)?;
    let trace_file = name_of(alloc, OptionName::TraceFile, given)?;
    let state = name_of(alloc, OptionName::State, given)?;
    Ok(Request {
        command,
        file,
        number: program_number(command, operand),
        limits: limits_of(given),
        seed: number_of(OptionName::Seed, given),
        images: is_given(OptionName::Images, given),
        stats: is_given(OptionName::Stats, given),
        trace: is_given(OptionName::Trace, given),
        print: is_given(OptionName::Print, given),
        trace_file,
        shared: is_given(OptionName::Shared, given),
        barrier: number_of(OptionName::Barrier, given) as u32,
        state,
    })
}

/// The word of the command, and the words behind it.
fn command_words(words: &[String]) -> Option<(&str, &[String])>
    ensures { MatchOption result
        ((program name : Text) (others : List Text) → texts words.now ≢ program ∷ name ∷ others)
        (λ parts. (program : Text) × (texts words.now ≡ program ∷ parts.0.now ∷ texts parts.1.now)) }
{
    let Some((_, behind)) = words.split_first() else {
        return None;
    };
    let Some((name, others)) = behind.split_first() else {
        return None;
    };
    Some((name.as_str(), others))
}

/// The one word that is no option. None where there is none, or another.
fn only_operand<'a>(operands: &[&'a str]) -> Option<&'a str>
    ensures { MatchOption result
        ((operand : Text) → map (λ word. word.now) operands.now ≢ operand ∷ [])
        (λ operand. map (λ word. word.now) operands.now ≡ operand.now ∷ []) }
{
    let Some((operand, others)) = operands.split_first() else {
        return None;
    };
    if others.is_empty() {
        Some(*operand)
    } else {
        None
    }
}

/// What the words ask of a program of which so much is built. `Refused` comes exactly where they ask for nothing,
/// `NoMemory` where there was no memory.
pub fn read_words(alloc: Global, words: &Words, built: &Built<'_>) -> Result<Request, WordsFault>
    ensures ok { IfOk result (λ request. Reads built.now words.now request) }
    ensures refused { IsErrOf result WordsFault.Refused → AreRefused built.now words.now }
    ensures bounds { IfOk result HasBounds }
{
    let Some((name, others)) = command_words(words.as_slice()) else {
        return Err(WordsFault::Refused);
    };
    let Some(command) = command_named(name) else {
        return Err(WordsFault::Refused);
    };
    let said = read_parts(alloc, others)?;
    let Some(operand) = only_operand(said.operands.as_slice()) else {
        return Err(WordsFault::Refused);
    };
    let given = said.given.as_slice();
    let fits = is_allowed(alloc, built, command, operand, given)?;
    if !fits {
        return Err(WordsFault::Refused);
    }
    Ok(make_request(alloc, command, operand, given)?)
}
