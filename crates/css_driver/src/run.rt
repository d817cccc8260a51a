//! Main's run in the flat memory.
ghost use Rattle.std.specs.Prelude.{◌≡◌, ◌+◌, ◌<◌, ◌≤◌, ℕ, ℤ, List, length, Option, Some, slice_get, IfSome, IfNone};
ghost use Rattle.css_base.specs.declared.ending.Ending.{Ending};
ghost use Rattle.css_base.specs.declared.ending.Who.TheVariants.{Main};
ghost use Rattle.css_semantics.specs.declared.TheConstants.{STACK_LIMIT};
ghost use Rattle.css_semantics.specs.Dialogue.{Outcome, output, tape_of};
ghost use Rattle.css_semantics.specs.Memory.{first_global, stack_place};
ghost use Rattle.css_semantics.specs.Flat.{no_globals};
ghost use Rattle.css_semantics.specs.Units.{with_units};
ghost use Rattle.css_vm.specs.Code.{Routine, routine, code_of, first_line};
ghost use Rattle.css_vm.specs.Cells.{int_of};
ghost use Rattle.css_vm.specs.Soundness.{Spot, IsSound, Fits};
ghost use Rattle.css_vm.specs.Events.{IsStacked};
ghost use Rattle.css_small_code.specs.Marks.{HasNoMarks};
ghost use Rattle.css_driver.specs.Answer.{ending_of};
ghost use Rattle.css_io.specs.Changes.{change};
ghost use Rattle.css_driver.specs.Running.{ComesTo, GoesOn, EndsRun, left_with, reply_to_leaving};
ghost use Rattle.css_main_side.specs.Ran.{RanAs};

use css_base::{Ending, IntType, Line, Stop, Who};
use css_io::Sink;
use css_main_side::{OutputBuffer, Ran};
use css_mem::MainMemory;
use css_num::convert;
use css_vm::{Code, Due, Event, Function, Machine, Space};
use std::alloc::Global;

/// Runs main of code without marks in a flat memory of so many bytes, at least 1,069,056, and with so many units, and passes its
/// output to the sink, in pieces of at most 65,536 bytes. What main wrote before a fault or a rule is passed on too. `NoMemory` also
/// where 2^64 - 1 outputs come before the next unit is taken.
pub fn run_main<O: Sink>(
    alloc: Global,
    code: &Code,
    memory: u32,
    mut units: u64,
    out: &mut O,
) -> Ran
    requires sound { (plans : List (List Spot)) × IsSound (code_of code.now) plans }
    requires no_marks { HasNoMarks (code_of code.now) }
    requires memory { first_global + STACK_LIMIT ≤ memory }
    ensures { (o : Outcome ℤ) (ending : Ending) → ComesTo (no_globals memory) units (code_of code.now) o → ending_of o ≡ Some ending
        → RanAs ending (output (tape_of o)) (change O.written O.faults out.old out.new) result }
{
    let Ok(mut pending) = OutputBuffer::new(alloc) else {
        return Ran::NoMemory;
    };
    let Ok(mut space) = MainMemory::new(alloc, memory, true) else {
        return Ran::NoMemory;
    };
    let line = first_line(main_of(code));
    let Ok(mut machine) = Machine::new(alloc, code, code.main, &[], line) else {
        return Ran::NoMemory;
    };
    loop {
        if let Some(ran) = run_on(
            &mut machine,
            alloc,
            code,
            &mut space,
            &mut units,
            &mut pending,
            out,
        ) {
            return ran;
        }
    }
}

// Runs from event to event until one comes after a unit was taken. Some where main's run has ended.
fn run_on<O: Sink>(
    machine: &mut Machine,
    alloc: Global,
    code: &Code,
    space: &mut MainMemory,
    units: &mut u64,
    pending: &mut OutputBuffer,
    out: &mut O,
) -> Option<Ran>
    requires no_marks { HasNoMarks (code_of code.now) }
    requires due { machine.old.due ≡ Due.Run }
    requires fits { Fits (code_of code.now) machine.old.state }
    requires stacked { IsStacked (code_of code.now) (stack_place space.old) machine.old.state }
    ensures goes_on { IfNone result (GoesOn (code_of code.now) machine.old.state (with_units space.old units.old) machine.new.state (with_units space.new units.new)
        pending.old pending.new (change O.written O.faults out.old out.new)) }
    ensures due { IfNone result (machine.new.due ≡ Due.Run) }
    ensures fits { IfNone result (Fits (code_of code.now) machine.new.state) }
    ensures stacked { IfNone result (IsStacked (code_of code.now) (stack_place space.new) machine.new.state) }
    ensures fewer { IfNone result (units.new < units.old) }
    ensures ends { IfSome result (EndsRun (code_of code.now) machine.old.state (with_units space.old units.old) pending.old (change O.written O.faults out.old out.new)) }
{
    let before = *units;
    for _ in 0..u64::MAX {
        if let Some(ran) = turn(machine, alloc, code, space, units, pending, out) {
            return Some(ran);
        }
        if *units < before {
            return None;
        }
    }
    Some(Ran::NoMemory)
}

// Runs to the next event and does what it asks. Some where main's run has ended.
fn turn<O: Sink>(
    machine: &mut Machine,
    alloc: Global,
    code: &Code,
    space: &mut MainMemory,
    units: &mut u64,
    pending: &mut OutputBuffer,
    out: &mut O,
) -> Option<Ran>
    requires no_marks { HasNoMarks (code_of code.now) }
    requires due { machine.old.due ≡ Due.Run }
    requires fits { Fits (code_of code.now) machine.old.state }
    requires stacked { IsStacked (code_of code.now) (stack_place space.old) machine.old.state }
    ensures goes_on { IfNone result (GoesOn (code_of code.now) machine.old.state (with_units space.old units.old) machine.new.state (with_units space.new units.new)
        pending.old pending.new (change O.written O.faults out.old out.new)) }
    ensures due { IfNone result (machine.new.due ≡ Due.Run) }
    ensures fits { IfNone result (Fits (code_of code.now) machine.new.state) }
    ensures stacked { IfNone result (IsStacked (code_of code.now) (stack_place space.new) machine.new.state) }
    ensures ends { IfSome result (EndsRun (code_of code.now) machine.old.state (with_units space.old units.old) pending.old (change O.written O.faults out.old out.new)) }
{
    let Ok(event) = machine.run_to_event(alloc, code, space, units) else {
        return Some(Ran::NoMemory);
    };
    match event {
        Event::Out(printed) => {
            let bytes = printed.as_slice();
            let Ok(()) = pending.add(bytes, out) else {
                return Some(Ran::WriteFault);
            };
            machine.answer(bytes.len() as u64);
            None
        }
        Event::Mark(..) => {
            // It asks whether tasks are made.
            machine.answer(0);
            None
        }
        Event::Submit(_) => unreachable!(),
        Event::Ended(value, line) => Some(returned(value, line, code, space, pending, out)),
        Event::Stopped(stop, line) => Some(stopped(stop, line, pending, out)),
    }
}

// Leaves main's frame, and ends with a cell as main's result.
fn returned<O: Sink>(
    value: u64,
    line: Line,
    code: &Code,
    space: &mut MainMemory,
    pending: &mut OutputBuffer,
    out: &mut O,
) -> Ran
    requires { (f : Routine) × (slice_get (code_of code.now).functions code.now.main ≡ Some f) }
    ensures { RanAs (left_with (reply_to_leaving (code_of code.now) space.old) value line) pending.old (change O.written O.faults out.old out.new) result }
{
    match space.pop_frame(main_of(code).frame) {
        Ok(()) => end(Ending::Result(result_of(value)), pending, out),
        Err(stop) => stopped(stop, line, pending, out),
    }
}

// Ends with main's stop in a line.
fn stopped<O: Sink>(stop: Stop, line: Line, pending: &mut OutputBuffer, out: &mut O) -> Ran
    ensures { RanAs (Ending.Stopped stop line Main) pending.old (change O.written O.faults out.old out.new) result }
{
    let who = Who::Main;
    end(Ending::Stopped { stop, line, who }, pending, out)
}

// Passes the last output to the sink, and gives the ending.
fn end<O: Sink>(ending: Ending, pending: &mut OutputBuffer, out: &mut O) -> Ran
    ensures { RanAs ending pending.old (change O.written O.faults out.old out.new) result }
{
    match pending.flush(out) {
        Ok(()) => Ran::Ended(ending),
        Err(_) => Ran::WriteFault,
    }
}

// A cell as an int.
fn result_of(value: u64) -> i32
    ensures { result ≡ int_of value }
{
    convert(i128::from(value), IntType::Int) as i32
}

// The function that is main.
fn main_of(code: &Code) -> &Function
    requires { (f : Routine) × (slice_get (code_of code.now).functions code.now.main ≡ Some f) }
    ensures { slice_get (code_of code.now).functions code.now.main ≡ Some (routine result.now) }
{
    &code.functions[code.main as usize]
}

// The line of a function's first instruction.
fn first_line(function: &Function) -> Line
    requires { 0 < length function.now.body.items }
    ensures { result ≡ first_line (routine function.now).body }
{
    function.body[0].line
}
