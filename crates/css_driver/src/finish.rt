//! The last line of a report, and the statuses.
ghost use Rattle.std.specs.Prelude.{◌⊎◌};
ghost use Rattle.css_io.specs.Changes.{change};
ghost use Rattle.css_report.specs.Endings.{ending_line, static_line};
ghost use Rattle.css_driver.specs.Answer.{ending_status, no_memory};
ghost use Rattle.css_driver.specs.Ends.{Finishes};

use crate::ending::ending_status;
use css_base::{Ending, StaticFault};
use css_io::{Sink, write_all};
use css_report::{ending_line, static_line};
use std::alloc::Global;

/// The line for a text that is accepted.
pub(crate) const ACCEPTED: &[u8] = b"accepted\n";
/// The line for words that are refused.
pub(crate) const WORDS_REFUSED: &[u8] = b"words refused\n";
/// The line for a file that can't be read.
pub(crate) const READ_FAULT: &[u8] = b"read fault\n";
/// The line for want of memory.
pub(crate) const NO_MEMORY: &[u8] = b"no memory\n";

/// The status where a text is accepted.
pub(crate) const ACCEPTED_STATUS: u8 = 0;
/// The status where the words are refused.
pub(crate) const WORDS_REFUSED_STATUS: u8 = 2;
/// The status where a text breaks a static rule.
const STATIC_STATUS: u8 = 3;
/// The status where the file can't be read.
pub(crate) const READ_FAULT_STATUS: u8 = 6;
/// The status of a call that a failing sink cuts short.
pub(crate) const WRITE_FAULT_STATUS: u8 = 7;
/// The status of want of memory.
pub(crate) const NO_MEMORY_STATUS: u8 = 8;

/// Writes the last line of the report, and gives the status: 7 where the report fails.
pub(crate) fn finish<R: Sink>(report: &mut R, line: &[u8], status: u8) -> u8
    ensures { Finishes (change R.written R.faults report.old report.new) line.now status result }
{
    match write_all(report, line) {
        Ok(()) => status,
        Err(_) => WRITE_FAULT_STATUS,
    }
}

/// Ends a call for whose words there was no memory: the report gets the line for it, and the status is 8, or 7 where the report fails.
pub fn no_memory_for_words<R: Sink>(report: &mut R) -> u8
    ensures { Finishes (change R.written R.faults report.old report.new) no_memory 8 result }
{
    finish(report, NO_MEMORY, NO_MEMORY_STATUS)
}

/// Reports a static rule that the text breaks.
pub(crate) fn refuse<R: Sink>(alloc: Global, fault: &StaticFault, report: &mut R) -> u8
    ensures { Finishes (change R.written R.faults report.old report.new) (static_line fault.now.name fault.now.line) 3 result
        ⊎ Finishes (change R.written R.faults report.old report.new) no_memory 8 result }
{
    match static_line(alloc, fault) {
        Ok(line) => finish(report, &line, STATIC_STATUS),
        Err(_) => finish(report, NO_MEMORY, NO_MEMORY_STATUS),
    }
}

/// Reports how a run ended.
pub(crate) fn end<R: Sink>(alloc: Global, ending: &Ending, report: &mut R) -> u8
    ensures { Finishes (change R.written R.faults report.old report.new) (ending_line ending.now) (ending_status ending.now) result
        ⊎ Finishes (change R.written R.faults report.old report.new) no_memory 8 result }
{
    match ending_line(alloc, ending) {
        Ok(line) => finish(report, &line, ending_status(ending)),
        Err(_) => finish(report, NO_MEMORY, NO_MEMORY_STATUS),
    }
}
