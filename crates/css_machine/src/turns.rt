//! Steps and turns inside a function.
ghost use Rattle.std.specs.Prelude.{◌≡◌, ◌+◌, ◌-◌, ◌^◌, ◌<◌, ◌≤◌, length};
ghost use Rattle.css_isa.specs.Code.{routine};
ghost use Rattle.css_machine.specs.Steps.{here, HasRoom, PausesInside};
ghost use Rattle.css_machine.specs.Modes.{mode_as};

use crate::event::Mode;
use crate::stack::Stack;
use crate::step::{Rest, take_steps};
use crate::units::take_unit;
use css_base::{Line, Stop};
use css_isa::{Function, Space};

/// Why the steps and turns inside a function pause.
pub(crate) enum Pause {
    /// The next instruction is one that doesn't go on by itself.
    At,
    /// A loop's body was entered, and there may be too little room for what comes.
    Entered,
    /// They stop at a fault or a rule, in this line.
    Stopped(Stop, Line),
}

/// Takes the steps from a place up to the next pause, over a frame at this base, and a unit at each turn.
#[inline]
pub(crate) fn take_turns<S: Space>(
    function: &Function,
    base: u32,
    mode: &mut Mode,
    place: &mut usize,
    stack: &mut Stack,
    space: &mut S,
    units: &mut u64,
) -> Pause
    requires { HasRoom (routine function.now) base (here (mode_as mode.old) place.old stack.old.own) (stack.old.capacity - (length stack.old.below + length stack.old.own)) }
    ensures pauses { PausesInside S.reply S.learn (routine function.now)
        base (here (mode_as mode.old) place.old stack.old.own) space.old units.old result (here (mode_as mode.new) place.new stack.new.own) space.new units.new }
    ensures below { stack.new.below ≡ stack.old.below }
    ensures capacity { stack.new.capacity ≡ stack.old.capacity }
    ensures stays { S.place space.new ≡ S.place space.old }
{
    loop {
        match take_steps(function, base, mode, place, stack, space) {
            Rest::Turns => {
                let line = function.instr_at(*place).line;
                if let Err(stop) = take_unit(units) {
                    return Pause::Stopped(stop, line);
                }
                *place += 1;
                if stack.room() < function.body.as_slice().len() {
                    return Pause::Entered;
                }
            }
            Rest::Pauses => return Pause::At,
            Rest::Stops(stop, line) => return Pause::Stopped(stop, line),
        }
    }
}
