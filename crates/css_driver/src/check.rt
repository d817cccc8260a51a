//! Checks of texts.
ghost use Rattle.std.specs.Prelude.{◌≡◌};
ghost use Rattle.css_io.specs.Changes.{Change, change};
ghost use Rattle.css_words.specs.declared.command.Command.TheVariants.{Check};
ghost use Rattle.css_words.specs.declared.request.Request.{Request};
ghost use Rattle.css_driver.specs.Answer.{IsTextAnswer};
ghost use Rattle.css_driver.specs.Ends.{Ends};

use crate::finish::{ACCEPTED, ACCEPTED_STATUS, NO_MEMORY, NO_MEMORY_STATUS, finish, refuse};
use crate::laws::one_text_answer;
use css_base::FrontFault;
use css_io::Sink;
use css_small::read_program;
use std::alloc::Global;

/// Reports whether a text is accepted, or else the static rule that it breaks. No output is written.
pub(crate) fn check_text<R: Sink>(alloc: Global, text: &[u8], report: &mut R) -> u8
    ensures { (request : Request) (out : Change) → request.command ≡ Check → out.after ≡ out.before
        → Ends (IsTextAnswer request text.now) out (change R.written R.faults report.old report.new) result }
{
    // The text has no other answer.
    one_text_answer();
    match read_program(alloc, text) {
        Ok(_program) => finish(report, ACCEPTED, ACCEPTED_STATUS),
        Err(FrontFault::Static(fault)) => refuse(alloc, &fault, report),
        Err(FrontFault::NoMemory) => finish(report, NO_MEMORY, NO_MEMORY_STATUS),
    }
}
