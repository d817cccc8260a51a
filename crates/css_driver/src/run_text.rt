//! Runs of programs with tasks, in program order.
ghost use Rattle.std.specs.Prelude.{◌≡◌};
ghost use Rattle.css_base.specs.Limits.{IsInRange};
ghost use Rattle.css_small.specs.Tree.{program};
ghost use Rattle.css_small.specs.Numbers.{HasNumbers};
ghost use Rattle.css_io.specs.Changes.{change};
ghost use Rattle.css_words.specs.declared.command.Command.TheVariants.{Run};
ghost use Rattle.css_words.specs.declared.request.Request.{Request};
ghost use Rattle.css_driver.specs.Answer.{IsTaskAnswer, IsTextAnswer};
ghost use Rattle.css_driver.specs.Ends.{Ends};

use crate::finish::{NO_MEMORY, NO_MEMORY_STATUS, WRITE_FAULT_STATUS, end, finish, refuse};
use crate::laws::one_text_answer;
use css_base::{FrontFault, Limits};
use css_io::Sink;
use css_main_side::{Ran, play};
use css_small::{Program, numbers_fit, one_reading, read_program};
use css_small_code::{make_code, one_verdict, program_has_verdict};
use css_yard::InOrder;
use std::alloc::Global;

/// Runs the program of a text with its tasks, each at its call.
pub(crate) fn run_text<O: Sink, R: Sink>(
    alloc: Global,
    text: &[u8],
    limits: Limits,
    out: &mut O,
    report: &mut R,
) -> u8
    requires { IsInRange limits }
    ensures { (request : Request) → request.command ≡ Run → request.limits ≡ limits
        → Ends (IsTextAnswer request text.now) (change O.written O.faults out.old out.new) (change R.written R.faults report.old report.new) result }
{
    // The text's answer is that of the program which is read, since the text spells no other.
    one_reading();
    one_text_answer();
    match read_program(alloc, text) {
        Ok(tree) => {
            numbers_fit();
            run_tasks(alloc, &tree, limits, out, report)
        }
        Err(FrontFault::Static(fault)) => refuse(alloc, &fault, report),
        Err(FrontFault::NoMemory) => finish(report, NO_MEMORY, NO_MEMORY_STATUS),
    }
}

// Compiles a program and runs it over a yard that runs each task at its call.
fn run_tasks<O: Sink, R: Sink>(
    alloc: Global,
    tree: &Program,
    limits: Limits,
    out: &mut O,
    report: &mut R,
) -> u8
    requires numbers { HasNumbers (program tree.now) }
    requires limits { IsInRange limits }
    ensures { Ends (IsTaskAnswer limits (program tree.now)) (change O.written O.faults out.old out.new) (change R.written R.faults report.old report.new) result }
{
    let Ok(code) = make_code(alloc, tree) else {
        return finish(report, NO_MEMORY, NO_MEMORY_STATUS);
    };
    let Ok(mut yard) = InOrder::new(alloc, &code, &limits) else {
        return finish(report, NO_MEMORY, NO_MEMORY_STATUS);
    };
    // The program has a verdict, which is its only one.
    program_has_verdict();
    one_verdict();
    match play(alloc, &code, &limits, &mut yard, out) {
        Ran::Ended(ending) => end(alloc, &ending, report),
        Ran::WriteFault => WRITE_FAULT_STATUS,
        Ran::NoMemory => finish(report, NO_MEMORY, NO_MEMORY_STATUS),
    }
}
