//! Whether a command may be asked for with an operand and options.
ghost use Rattle.std.specs.Prelude.{◌≡◌, ◌↔◌, IsTrue, IsSome, IfOk, All, Contains, option_map};
ghost use Rattle.css_words.specs.declared.options.OptionName.{OptionName};
ghost use Rattle.css_words.specs.Options.{commands_of, kind_of};
ghost use Rattle.css_words.specs.KeptWords.{pairs};
ghost use Rattle.css_words.specs.Reading.{AreOnce, IsAllowed, IsOperandOf, IsOptionOf, IsValue, Wants, is_option, value_of};

use crate::built::Built;
use crate::command::Command;
use crate::number::is_number;
use crate::options::OptionName;
use crate::part::Given;
use crate::table::{OptionKind, row};
use css_base::NoMemory;
use std::alloc::Global;

/// Whether two options are one.
fn is_option(a: OptionName, b: OptionName) -> bool
    ensures { result ≡ is_option a b }
{
    a == b
}

/// Whether a command is among these.
fn has_command(commands: &[Command], command: Command) -> bool
    ensures { IsTrue result ↔ Contains commands.now command }
{
    commands.contains(&command)
}

/// Whether an option is among these.
fn has_option(options: &[OptionName], option: OptionName) -> bool
    ensures { IsTrue result ↔ Contains options.now option }
{
    options.contains(&option)
}

/// The value that an option is given; a flag's is empty.
pub(crate) fn value_of<'a>(option: OptionName, given: &[Given<'a>]) -> Option<&'a str>
    ensures { option_map (λ value. value.now) result ≡ value_of option (pairs given.now) }
{
    for one in given {
        if is_option(option, one.option) {
            return Some(one.value);
        }
    }
    None
}

/// Whether an option belongs to a command, and is there.
fn is_option_of(built: &Built<'_>, command: Command, option: OptionName) -> bool
    ensures { IsTrue result ↔ IsOptionOf built.now command option }
{
    has_command(row(option).commands, command) && has_option(built.options, option)
}

/// Whether each option belongs to a command, and is there.
fn are_options_of(built: &Built<'_>, command: Command, given: &[Given<'_>]) -> bool
    ensures { IsTrue result ↔ All (λ g. IsOptionOf built.now command g.0) (pairs given.now) }
{
    for one in given {
        if !is_option_of(built, command, one.option) {
            return false;
        }
    }
    true
}

/// Whether no option is given twice.
fn are_once(given: &[Given<'_>]) -> bool
    ensures { IsTrue result ↔ AreOnce (pairs given.now) }
{
    for i in 0..given.len() {
        if value_of(given[i].option, &given[i + 1..]).is_some() {
            return false;
        }
    }
    true
}

/// Whether a value is one that an option takes.
fn is_value(alloc: Global, option: OptionName, value: &str) -> Result<bool, NoMemory>
    ensures { IfOk result (λ yes. IsTrue yes ↔ IsValue (kind_of option) value.now) }
{
    match row(option).kind {
        OptionKind::Number { least, most, .. } => is_number(alloc, value, least, most),
        OptionKind::Flag => Ok(true),
        OptionKind::File => Ok(true),
    }
}

/// Whether each value is one that its option takes.
fn are_values(alloc: Global, given: &[Given<'_>]) -> Result<bool, NoMemory>
    ensures { IfOk result (λ yes. IsTrue yes ↔ All (λ g. IsValue (kind_of g.0) g.1) (pairs given.now)) }
{
    for one in given {
        let fits = is_value(alloc, one.option, one.value)?;
        if !fits {
            return Ok(false);
        }
    }
    Ok(true)
}

/// Whether a command wants an option.
fn wants(command: Command, option: OptionName) -> bool
    ensures { IsTrue result ↔ Wants command option }
{
    match row(option).kind {
        OptionKind::File => has_command(row(option).commands, command),
        OptionKind::Flag => false,
        OptionKind::Number { .. } => false,
    }
}

/// Whether an option is given, if a command wants it.
fn is_there(command: Command, option: OptionName, given: &[Given<'_>]) -> bool
    ensures { IsTrue result ↔ (Wants command option → IsSome (value_of option (pairs given.now))) }
{
    !wants(command, option) || value_of(option, given).is_some()
}

/// Whether each option that a command wants is given.
fn has_wanted(command: Command, given: &[Given<'_>]) -> bool
    ensures { IsTrue result ↔ ((option : OptionName) → Wants command option → IsSome (value_of option (pairs given.now))) }
{
    for option in OptionName::ALL {
        if !is_there(command, option, given) {
            return false;
        }
    }
    true
}

/// Whether a word is what a command is asked of.
fn is_operand_of(alloc: Global, command: Command, word: &str) -> Result<bool, NoMemory>
    ensures { IfOk result (λ yes. IsTrue yes ↔ IsOperandOf command word.now) }
{
    match command {
        Command::Make => is_number(alloc, word, 0, 9999),
        _ => Ok(true),
    }
}

/// Whether a command may be asked for with an operand and options.
pub(crate) fn is_allowed(
    alloc: Global,
    built: &Built<'_>,
    command: Command,
    operand: &str,
    given: &[Given<'_>],
) -> Result<bool, NoMemory>
    ensures { IfOk result (λ yes. IsTrue yes ↔ IsAllowed built.now command operand.now (pairs given.now)) }
{
    if !has_command(built.commands, command) || !are_options_of(built, command, given) {
        return Ok(false);
    }
    if !are_once(given) || !has_wanted(command, given) {
        return Ok(false);
    }
    let fits = is_operand_of(alloc, command, operand)?;
    if !fits {
        return Ok(false);
    }
    are_values(alloc, given)
}
