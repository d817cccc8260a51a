//! Writing a trace.
ghost use Rattle.std.specs.Prelude.{◌≡◌, ◌∷◌, ◌++◌, codes, map, OnOk, IfOk, string_bytes};
ghost use Rattle.std.specs.List.{flat_map, join_with_byte};
ghost use Rattle.std.specs.Fmt.{decimal};
ghost use Rattle.css_traces.specs.declared.trace_line.TraceLine.TheVariants as lines;
ghost use Rattle.css_traces.specs.Lines.{rule_word, stop_word, line_text, part_lines, generation_lines, trace_text};

use crate::board_line::BoardLine;
use crate::traces::{ChannelPart, Generation, Traces};
use css_base::{ChannelLine, NoMemory, Rule, Stop};
use std::alloc::Global;

/// The text of a trace. The only error is want of memory.
pub fn trace_text(alloc: Global, value: &Traces) -> Result<Vec<u8>, NoMemory>
    ensures { IfOk result (λ text. text.items ≡ trace_text value.now) }
{
    let mut text = Vec::new(alloc);
    text.extend_from_slice(b"trace\n")?;
    let mut number = 0u64;
    for generation in value.generations.as_slice() {
        put_generation(alloc, &mut text, number, generation)?;
        number += 1;
    }
    text.extend_from_slice(b"end\n")?;
    Ok(text)
}

/// Writes the lines of a generation.
fn put_generation(
    alloc: Global,
    text: &mut Vec<u8>,
    number: u64,
    generation: &Generation,
) -> Result<(), NoMemory>
    ensures { OnOk result (text.new.items ≡ text.old.items ++ flat_map line_text (generation_lines number generation.now)) }
{
    let head = format!(in alloc; "board {number}\n")?;
    text.extend_from_slice(head.as_bytes())?;
    put_entries(alloc, text, generation.board.as_slice())?;
    put_parts(alloc, text, generation.channels.as_slice())
}

/// Writes the lines of a board's entries.
fn put_entries(alloc: Global, text: &mut Vec<u8>, entries: &[BoardLine]) -> Result<(), NoMemory>
    ensures { OnOk result (text.new.items ≡ text.old.items ++ flat_map line_text (map lines.Entry entries.now)) }
{
    for entry in entries {
        let line = entry_text(alloc, entry)?;
        text.extend_from_slice(line.as_slice())?;
    }
    Ok(())
}

/// Writes the lines of channels.
fn put_parts(alloc: Global, text: &mut Vec<u8>, parts: &[ChannelPart]) -> Result<(), NoMemory>
    ensures { OnOk result (text.new.items ≡ text.old.items ++ flat_map line_text (flat_map part_lines parts.now)) }
{
    for part in parts {
        put_part(alloc, text, part)?;
    }
    Ok(())
}

/// Writes the lines of a channel.
fn put_part(alloc: Global, text: &mut Vec<u8>, part: &ChannelPart) -> Result<(), NoMemory>
    ensures { OnOk result (text.new.items ≡ text.old.items ++ flat_map line_text (part_lines part.now)) }
{
    let worker = part.worker;
    let head = format!(in alloc; "channel {worker}\n")?;
    text.extend_from_slice(head.as_bytes())?;
    put_transfers(alloc, text, part.entries.as_slice())
}

/// Writes the lines of a channel's entries.
fn put_transfers(
    alloc: Global,
    text: &mut Vec<u8>,
    transfers: &[ChannelLine],
) -> Result<(), NoMemory>
    ensures { OnOk result (text.new.items ≡ text.old.items ++ flat_map line_text (map lines.Transfer transfers.now)) }
{
    for transfer in transfers {
        let line = transfer_text(alloc, transfer)?;
        text.extend_from_slice(line.as_bytes())?;
    }
    Ok(())
}

/// The line of a board's entry.
fn entry_text(alloc: Global, entry: &BoardLine) -> Result<Vec<u8>, NoMemory>
    ensures { IfOk result (λ text. text.items ≡ line_text (lines.Entry entry.now)) }
{
    match entry {
        BoardLine::Submit { number, name } => submit_text(alloc, *number, name.as_slice()),
        BoardLine::Take { worker, numbers } => {
            listed_text(alloc, "t", *worker, numbers.as_slice())
        }
        BoardLine::Finish { worker, number } => {
            Ok(format!(in alloc; "f {worker} {number}\n")?.into_bytes())
        }
        BoardLine::Stop {
            worker,
            number,
            line,
            stop,
        } => {
            let line = line.number();
            let cause = stop_word(stop);
            Ok(format!(in alloc; "x {worker} {number} {line} {cause}\n")?.into_bytes())
        }
        BoardLine::Back { worker, numbers } => {
            listed_text(alloc, "b", *worker, numbers.as_slice())
        }
        BoardLine::Starved { worker } => Ok(format!(in alloc; "w {worker}\n")?.into_bytes()),
        BoardLine::Close => Ok(format!(in alloc; "c\n")?.into_bytes()),
    }
}

/// The line of a submit.
fn submit_text(alloc: Global, number: u64, name: &[u8]) -> Result<Vec<u8>, NoMemory>
    ensures { IfOk result (λ text. text.items ≡ codes "s " ++ decimal number ++ codes " " ++ name.now ++ codes "\n") }
{
    let mut text = format!(in alloc; "s {number} ")?.into_bytes();
    text.extend_from_slice(name)?;
    text.push(b'\n')?;
    Ok(text)
}

/// A line with a worker and tasks.
fn listed_text(alloc: Global, head: &str, worker: u32, numbers: &[u64]) -> Result<Vec<u8>, NoMemory>
    ensures { IfOk result (λ text. text.items ≡ join_with_byte 32 (head.now ∷ decimal worker ∷ map decimal numbers.now) ++ codes "\n") }
{
    let mut text = format!(in alloc; "{head} {worker}")?.into_bytes();
    for number in numbers {
        let word = format!(in alloc; " {number}")?;
        text.extend_from_slice(word.as_bytes())?;
    }
    text.push(b'\n')?;
    Ok(text)
}

/// The line of a channel's entry.
fn transfer_text(alloc: Global, transfer: &ChannelLine) -> Result<String, NoMemory>
    ensures { IfOk result (λ text. string_bytes text ≡ line_text (lines.Transfer transfer.now)) }
{
    match transfer {
        ChannelLine::Issue { tag, length } => Ok(format!(in alloc; "i {tag} {length}\n")?),
        ChannelLine::Out { tag } => Ok(format!(in alloc; "o {tag}\n")?),
        ChannelLine::Finished { tag } => Ok(format!(in alloc; "d {tag}\n")?),
        ChannelLine::Collected { tag } => Ok(format!(in alloc; "r {tag}\n")?),
    }
}

/// A fault by its name, or a rule by its number.
fn stop_word(stop: &Stop) -> &'static str
    ensures { result.now ≡ stop_word stop.now }
{
    match stop {
        Stop::Fault(kind) => kind.label(),
        Stop::Rule(rule) => rule_word(*rule),
    }
}

fn rule_word(rule: Rule) -> &'static str
    ensures { result.now ≡ rule_word rule }
{
    match rule {
        Rule::StartTwice => "X1",
        Rule::FinishWithout => "X2",
        Rule::Dimension => "X3",
        Rule::TooLarge => "X4",
        Rule::DeadArgument => "X5",
        Rule::PartialOverlap => "X6",
        Rule::AliasedArguments => "X7",
        Rule::Unsynchronised => "X8",
        Rule::OutsideArguments => "X9",
        Rule::WroteInput => "X10",
        Rule::ReadUnwritten => "X11",
        Rule::LeftUnwritten => "X12",
        Rule::TaskStack => "X13",
        Rule::MainStack => "X14",
        Rule::Units => "X15",
        Rule::BadWait => "X16",
    }
}
