//! The run of a task's body.
ghost use Rattle.std.specs.Prelude.{◌≡◌, IfOk};
ghost use Rattle.css_semantics.specs.Units.{with_units};
ghost use Rattle.css_task.specs.Cells.{kept_place};
ghost use Rattle.css_vm.specs.Code.{code_of};
ghost use Rattle.css_vm.specs.Soundness.{Fits};
ghost use Rattle.css_vm.specs.Events.{IsStacked};
ghost use Rattle.css_task.specs.Quiet.{IsQuietState};
ghost use Rattle.css_task.specs.Arrivals.{EndsBody};

use crate::room::TaskRoom;
use css_base::{Line, NoMemory, Stop};
use css_vm::{Code, Due, Event, Machine};
use std::alloc::Global;

/// How a task's body ends.
#[derive(Drop)]
pub(crate) enum BodyEnd {
    /// It returns, in this line. Its frame is still there.
    Returned(Line),
    /// It stops at a fault or a rule, in this line.
    Stopped(Stop, Line),
}

/// Runs a task's body to its end. Where it asks whether tasks are made, they aren't. `NoMemory` where there is no memory, and after
/// 2^64 - 1 such questions: no contract bounds the steps between them.
pub(crate) fn run_body(
    machine: &mut Machine,
    alloc: Global,
    code: &Code,
    space: &mut TaskRoom,
    units: &mut u64,
) -> Result<BodyEnd, NoMemory>
    requires due { machine.old.due ≡ Due.Run }
    requires fits { Fits (code_of code.now) machine.old.state }
    requires stacked { IsStacked (code_of code.now) (kept_place space.old) machine.old.state }
    requires quiet { IsQuietState (code_of code.now) machine.old.state }
    ensures { IfOk result (λ end. EndsBody (code_of code.now) machine.old.state (with_units space.old units.old) end machine.new.state (with_units space.new units.new)) }
{
    for _ in 0..u64::MAX {
        let event = machine.run_to_event(alloc, code, space, units)?;
        match event {
            Event::Ended(_, line) => return Ok(BodyEnd::Returned(line)),
            Event::Stopped(stop, line) => return Ok(BodyEnd::Stopped(stop, line)),
            // It asks whether tasks are made.
            Event::Mark(..) => machine.answer(0),
            Event::Out(_) => unreachable!(),
            Event::Submit(_) => unreachable!(),
        }
    }
    Err(NoMemory)
}
