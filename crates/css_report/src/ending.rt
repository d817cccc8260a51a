//! The report's lines for a run's ending and for a static rule.
ghost use Rattle.std.specs.Prelude.{◌≡◌, IfOk, string_bytes};
ghost use Rattle.css_report.specs.Endings.{ending_line, static_line, stop_words, who_words};

use css_base::{Ending, NoMemory, StaticFault, Stop, Who};
use std::alloc::Global;

/// The line for an ending. The only error is want of memory.
pub fn ending_line(alloc: Global, value: &Ending) -> Result<Vec<u8>, NoMemory>
    ensures { IfOk result (λ line. line.items ≡ ending_line value.now) }
{
    match value {
        Ending::Result(result) => Ok(format!(in alloc; "result {result}\n")?.into_bytes()),
        Ending::Stopped { stop, line, who } => {
            let what = stop_text(alloc, stop)?;
            let whose = who_text(alloc, who)?;
            let number = line.number();
            Ok(format!(in alloc; "{what} line {number} {whose}\n")?.into_bytes())
        }
    }
}

fn stop_text(alloc: Global, stop: &Stop) -> Result<String, NoMemory>
    ensures { IfOk result (λ text. string_bytes text ≡ stop_words stop.now) }
{
    match stop {
        Stop::Fault(kind) => {
            let name = kind.label();
            Ok(format!(in alloc; "fault {name}")?)
        }
        Stop::Rule(rule) => {
            let name = rule.label();
            Ok(format!(in alloc; "rule {name}")?)
        }
    }
}

fn who_text(alloc: Global, who: &Who) -> Result<String, NoMemory>
    ensures { IfOk result (λ text. string_bytes text ≡ who_words who.now) }
{
    match who {
        Who::Main => Ok(format!(in alloc; "main")?),
        Who::Task(number) => Ok(format!(in alloc; "task {number}")?),
    }
}

/// The line for a static rule that a text breaks. The only error is want of memory.
pub fn static_line(alloc: Global, value: &StaticFault) -> Result<Vec<u8>, NoMemory>
    ensures { IfOk result (λ line. line.items ≡ static_line value.now.name value.now.line) }
{
    let label = value.name.label();
    let number = value.line.number();
    Ok(format!(in alloc; "static {label} line {number}\n")?.into_bytes())
}
