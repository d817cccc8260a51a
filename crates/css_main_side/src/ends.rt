//! The end of main's run: the last output goes to the sink.
ghost use Rattle.std.specs.Prelude.{◌≡◌, ◌<◌, length, Some, slice_get};
ghost use Rattle.css_base.specs.declared.ending.Ending.{Ending};
ghost use Rattle.css_base.specs.declared.ending.Stop.{Stop};
ghost use Rattle.css_base.specs.declared.ending.Who.TheVariants.{Main as main};
ghost use Rattle.css_io.specs.Changes.{change};
ghost use Rattle.css_vm.specs.Cells.{int_of};
ghost use Rattle.css_vm.specs.Code.{Routine, routine, code_of, first_line};
ghost use Rattle.css_main_side.specs.Ran.{RanAs};
ghost use Rattle.css_main_side.specs.Calls.{EndsUnreturned};

use crate::output_buffer::OutputBuffer;
use crate::ran::Ran;
use css_base::{Ending, IntType, Line, Rule, Stop, Who};
use css_io::Sink;
use css_num::convert;
use css_vm::{Code, Function};
use css_yard::YardAnswer;

// Ends with a stop of main or of a task.
pub(crate) fn stopped<O: Sink>(
    stop: Stop,
    line: Line,
    who: Who,
    pending: &mut OutputBuffer,
    out: &mut O,
) -> Ran
    ensures { RanAs (Ending.Stopped stop line who) pending.old (change O.written O.faults out.old out.new) result }
{
    end(Ending::Stopped { stop, line, who }, pending, out)
}

// Ends where a call's task didn't return.
pub(crate) fn unreturned<O: Sink>(
    answer: YardAnswer,
    pending: &mut OutputBuffer,
    out: &mut O,
) -> Ran
    ensures { EndsUnreturned answer pending.old (change O.written O.faults out.old out.new) result }
{
    match answer {
        YardAnswer::Stopped { task, stop, line } => {
            stopped(stop, line, Who::Task(task), pending, out)
        }
        YardAnswer::NoMemory => Ran::NoMemory,
    }
}

// Ends with a rule that main breaks.
pub(crate) fn refused<O: Sink>(
    rule: Rule,
    line: Line,
    pending: &mut OutputBuffer,
    out: &mut O,
) -> Ran
    ensures { RanAs (Ending.Stopped (Stop.Rule rule) line main) pending.old (change O.written O.faults out.old out.new) result }
{
    stopped(Stop::Rule(rule), line, Who::Main, pending, out)
}

// Passes the last output to the sink, and gives the ending.
pub(crate) fn end<O: Sink>(ending: Ending, pending: &mut OutputBuffer, out: &mut O) -> Ran
    ensures { RanAs ending pending.old (change O.written O.faults out.old out.new) result }
{
    match pending.flush(out) {
        Ok(()) => Ran::Ended(ending),
        Err(_) => Ran::WriteFault,
    }
}

// A cell as an int.
pub(crate) fn result_of(value: u64) -> i32
    ensures { result ≡ int_of value }
{
    convert(i128::from(value), IntType::Int) as i32
}

// The function that is main.
pub(crate) fn main_of(code: &Code) -> &Function
    requires { (f : Routine) × (slice_get (code_of code.now).functions code.now.main ≡ Some f) }
    ensures { slice_get (code_of code.now).functions code.now.main ≡ Some (routine result.now) }
{
    &code.functions[code.main as usize]
}

// The line of a function's first instruction.
pub(crate) fn first_line(function: &Function) -> Line
    requires { 0 < length function.now.body.items }
    ensures { result ≡ first_line (routine function.now).body }
{
    function.body[0].line
}
