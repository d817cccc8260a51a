//! Rounds of steps: up to the next entry, return or event.
ghost use Rattle.std.specs.Prelude.{◌≡◌, ◌+◌, ◌^◌, ◌<◌, ℕ, true, IfOk, OnOk};
ghost use Rattle.css_vm.specs.Code.{code_of};
ghost use Rattle.css_vm.specs.Soundness.{Fits};
ghost use Rattle.css_vm.specs.Events.{IsStacked};
ghost use Rattle.css_vm.specs.States.{place_of, marked, Submits};
ghost use Rattle.css_vm.specs.Steps.{is_pause, IsBefore, Comes, ComesRound, ComesToEntry};

use crate::activations::Activations;
use crate::code::{Code, Conversion, MarkKind, Op};
use crate::entry::enter;
use crate::machine::{Event, Submitted};
use crate::printed::Printed;
use crate::space::Space;
use crate::step::Pause;
use crate::submission::{arguments_of, dimensions};
use crate::units::take_unit;
use css_base::{Line, NoMemory};
use std::alloc::Global;

/// What a round of steps comes to.
pub(crate) enum Round {
    /// A function or a loop's body is entered, and a unit is taken.
    Enters,
    /// A function has returned to its caller.
    Returns,
    /// There is an event.
    Makes(Event),
}

/// Takes the steps up to the next event, and a unit at each entry.
pub(crate) fn run<S: Space>(
    activations: &mut Activations,
    alloc: Global,
    code: &Code,
    space: &mut S,
    units: &mut u64,
) -> Result<Event, NoMemory>
    requires fits { Fits (code_of code.now) activations.old }
    requires stacked { IsStacked (code_of code.now) (S.place space.old) activations.old }
    ensures { IfOk result (λ e. Comes S.reply S.learn S.place (code_of code.now) activations.old space.old units.old e activations.new space.new units.new) }
{
    loop {
        if let Some(event) = run_to_entry(activations, alloc, code, space, units)? {
            return Ok(event);
        }
    }
}

// Takes the steps up to the next entry of a function or of a loop's body, or to the event before it.
fn run_to_entry<S: Space>(
    activations: &mut Activations,
    alloc: Global,
    code: &Code,
    space: &mut S,
    units: &mut u64,
) -> Result<Option<Event>, NoMemory>
    requires fits { Fits (code_of code.now) activations.old }
    requires stacked { IsStacked (code_of code.now) (S.place space.old) activations.old }
    ensures { IfOk result (λ e. ComesToEntry S.reply S.learn S.place (code_of code.now) activations.old space.old units.old e activations.new space.new units.new) }
{
    loop {
        let round = run_round(activations, alloc, code, space, units)?;
        match round {
            Round::Enters => return Ok(None),
            Round::Returns => {}
            Round::Makes(event) => return Ok(Some(event)),
        }
    }
}

// Takes the steps up to the next entry, return or event.
#[inline]
fn run_round<S: Space>(
    activations: &mut Activations,
    alloc: Global,
    code: &Code,
    space: &mut S,
    units: &mut u64,
) -> Result<Round, NoMemory>
    requires fits { Fits (code_of code.now) activations.old }
    requires stacked { IsStacked (code_of code.now) (S.place space.old) activations.old }
    ensures { IfOk result (λ r. ComesRound S.reply S.learn S.place (code_of code.now) activations.old space.old units.old r activations.new space.new units.new) }
{
    let pause = activations.run_to_pause(code, space)?;
    match pause {
        Pause::Stopped(stop, line) => Ok(Round::Makes(Event::Stopped(stop, line))),
        Pause::At(op, line) => settle(activations, alloc, op, line, code, space, units),
    }
}

// Does the instruction of a pause.
#[inline]
fn settle<S: Space>(
    activations: &mut Activations,
    alloc: Global,
    op: Op,
    line: Line,
    code: &Code,
    space: &mut S,
    units: &mut u64,
) -> Result<Round, NoMemory>
    requires fits { Fits (code_of code.now) activations.old }
    requires stacked { IsStacked (code_of code.now) (S.place space.old) activations.old }
    requires before { IsBefore (code_of code.now) op line activations.old }
    requires pauses { is_pause op ≡ true }
    requires place { place_of activations.old + 1 < 2 ^ 64 }
    ensures { IfOk result (λ r. ComesRound S.reply S.learn S.place (code_of code.now) activations.old space.old units.old r activations.new space.new units.new) }
{
    match op {
        Op::Turn => match take_unit(units) {
            Ok(()) => {
                activations.advance();
                Ok(Round::Enters)
            }
            Err(stop) => Ok(Round::Makes(Event::Stopped(stop, line))),
        },
        Op::Out(Conversion::Char) => {
            let byte = (activations.top() % 256) as u8;
            activations.advance();
            Ok(Round::Makes(Event::Out(Printed::byte(byte))))
        }
        Op::Mark(kind) => {
            mark(activations, kind)?;
            Ok(Round::Makes(Event::Mark(kind, line)))
        }
        Op::Submit(function) => {
            let call = submit(activations, alloc, function, line, code)?;
            Ok(Round::Makes(Event::Submit(call)))
        }
        Op::Call(function) => call(activations, function, line, code, space, units),
        Op::Ret => leave(activations, line, code, space),
        _ => unreachable!(),
    }
}

// Goes behind a mark, with a cell for the answer where it asks.
fn mark(activations: &mut Activations, kind: MarkKind) -> Result<(), NoMemory>
    requires { place_of activations.old + 1 < 2 ^ 64 }
    ensures { OnOk result (activations.new ≡ marked kind activations.old) }
{
    if kind == MarkKind::Started {
        activations.push(0)?;
    }
    activations.advance();
    Ok(())
}

// Takes a task's dimensions and arguments from the stack, and leaves a cell for the answer.
fn submit(
    activations: &mut Activations,
    alloc: Global,
    function: u32,
    line: Line,
    code: &Code,
) -> Result<Submitted, NoMemory>
    requires fits { Fits (code_of code.now) activations.old }
    requires before { IsBefore (code_of code.now) (Op.Submit function) line activations.old }
    requires place { place_of activations.old + 1 < 2 ^ 64 }
    ensures { IfOk result (λ s. (s.function ≡ function) × Submits (code_of code.now) activations.old line s activations.new) }
{
    let task = code.function(function);
    let Some(shape) = &task.task else {
        unreachable!()
    };
    let Some(count) = dimensions(shape) else {
        return Err(NoMemory);
    };
    let dims = Vec::from_slice(alloc, activations.topmost(count))?;
    activations.drop_topmost(count);
    let arity = task.params.len();
    let arguments = arguments_of(alloc, &task.params, activations.topmost(arity))?;
    activations.drop_topmost(arity);
    activations.push(0)?;
    activations.advance();
    Ok(Submitted {
        function,
        arguments,
        dims,
        line,
    })
}

// Calls a function with the topmost cells as its arguments.
fn call<S: Space>(
    activations: &mut Activations,
    function: u32,
    line: Line,
    code: &Code,
    space: &mut S,
    units: &mut u64,
) -> Result<Round, NoMemory>
    requires fits { Fits (code_of code.now) activations.old }
    requires stacked { IsStacked (code_of code.now) (S.place space.old) activations.old }
    requires before { IsBefore (code_of code.now) (Op.Call function) line activations.old }
    requires place { place_of activations.old + 1 < 2 ^ 64 }
    ensures { IfOk result (λ r. ComesRound S.reply S.learn S.place (code_of code.now) activations.old space.old units.old r activations.new space.new units.new) }
{
    let callee = code.function(function);
    let arity = callee.params.len();
    match enter(callee, activations.topmost(arity), space, units) {
        Ok(base) => {
            activations.drop_topmost(arity);
            activations.begin(function, base)?;
            Ok(Round::Enters)
        }
        Err(stop) => Ok(Round::Makes(Event::Stopped(stop, line))),
    }
}

// Returns with the topmost cell: to the nearest caller, or from the first function.
fn leave<S: Space>(
    activations: &mut Activations,
    line: Line,
    code: &Code,
    space: &mut S,
) -> Result<Round, NoMemory>
    requires fits { Fits (code_of code.now) activations.old }
    requires stacked { IsStacked (code_of code.now) (S.place space.old) activations.old }
    requires before { IsBefore (code_of code.now) Op.Ret line activations.old }
    ensures { IfOk result (λ r. (units : ℕ) → ComesRound S.reply S.learn S.place (code_of code.now) activations.old space.old units r activations.new space.new units) }
{
    let cell = activations.top();
    if activations.is_first() {
        return Ok(Round::Makes(Event::Ended(cell, line)));
    }
    let frame = code.function(activations.function()).frame;
    if let Err(stop) = space.pop_frame(frame) {
        return Ok(Round::Makes(Event::Stopped(stop, line)));
    }
    activations.end(cell)?;
    Ok(Round::Returns)
}
