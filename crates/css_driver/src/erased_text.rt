//! Runs of programs with the directives erased.
ghost use Rattle.std.specs.Prelude.{◌≡◌, ◌≤◌, length};
ghost use Rattle.css_base.specs.Limits.{IsInRange};
ghost use Rattle.css_lex.specs.Lexing.{longest_text};
ghost use Rattle.css_small.specs.Tree.{program};
ghost use Rattle.css_small.specs.Numbers.{HasNumbers};
ghost use Rattle.css_small_code.specs.Marks.{HasNoDirectives};
ghost use Rattle.css_io.specs.Changes.{change};
ghost use Rattle.css_words.specs.declared.command.Command.TheVariants.{Erased};
ghost use Rattle.css_words.specs.declared.request.Request.{Request};
ghost use Rattle.css_driver.specs.Answer.{IsRunAnswer, IsTextAnswer};
ghost use Rattle.css_driver.specs.Ends.{Ends};

use crate::finish::{NO_MEMORY, NO_MEMORY_STATUS, WRITE_FAULT_STATUS, end, finish, refuse};
use crate::laws::one_text_answer;
use crate::run::run_main;
use css_base::{FrontFault, Limits};
use css_erasing::erased_texts_have_no_directives;
use css_io::Sink;
use css_lex::erase;
use css_main_side::Ran;
use css_small::{Program, numbers_fit, one_reading, read_program};
use css_small_code::{enough_fuel, make_code, more_fuel};
use std::alloc::Global;

/// Runs the program of a text without its directives.
pub(crate) fn erased_text<O: Sink, R: Sink>(
    alloc: Global,
    text: &[u8],
    limits: Limits,
    out: &mut O,
    report: &mut R,
) -> u8
    requires short { length text.now ≤ longest_text }
    requires limits { IsInRange limits }
    ensures { (request : Request) → request.command ≡ Erased → request.limits ≡ limits
        → Ends (IsTextAnswer request text.now) (change O.written O.faults out.old out.new) (change R.written R.faults report.old report.new) result }
{
    // The text's answer is that of the program which is read, since the text spells no other.
    one_reading();
    one_text_answer();
    let Ok(left) = erase(alloc, text) else {
        return finish(report, NO_MEMORY, NO_MEMORY_STATUS);
    };
    match read_program(alloc, left.as_slice()) {
        Ok(tree) => {
            numbers_fit();
            erased_texts_have_no_directives();
            run_program(alloc, &tree, limits, out, report)
        }
        Err(FrontFault::Static(fault)) => refuse(alloc, &fault, report),
        Err(FrontFault::NoMemory) => finish(report, NO_MEMORY, NO_MEMORY_STATUS),
    }
}

// Compiles a program without directives and runs it.
fn run_program<O: Sink, R: Sink>(
    alloc: Global,
    tree: &Program,
    limits: Limits,
    out: &mut O,
    report: &mut R,
) -> u8
    requires numbers { HasNumbers (program tree.now) }
    requires no_directives { HasNoDirectives (program tree.now) }
    requires limits { IsInRange limits }
    ensures { Ends (IsRunAnswer limits (program tree.now)) (change O.written O.faults out.old out.new) (change R.written R.faults report.old report.new) result }
{
    let Ok(code) = make_code(alloc, tree) else {
        return finish(report, NO_MEMORY, NO_MEMORY_STATUS);
    };
    // The program ends within its units, and that ending is its only one.
    enough_fuel();
    more_fuel();
    match run_main(alloc, &code, limits.memory, limits.main_units, out) {
        Ran::Ended(ending) => end(alloc, &ending, report),
        Ran::WriteFault => WRITE_FAULT_STATUS,
        Ran::NoMemory => finish(report, NO_MEMORY, NO_MEMORY_STATUS),
    }
}
