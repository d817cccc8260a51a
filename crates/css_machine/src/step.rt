//! The machine's steps inside a function.
ghost use Rattle.std.specs.Prelude.{◌≡◌, ◌+◌, ◌-◌, ◌^◌, ◌<◌, ℕ, Some, length, slice_get};
ghost use Rattle.css_semantics.specs.Units.{with_units, metered, spending};
ghost use Rattle.css_isa.specs.Code.{routine};
ghost use Rattle.css_machine.specs.Steps.{here, HasRoom, Rests};
ghost use Rattle.css_machine.specs.Modes.{mode_as};

use crate::event::Mode;
use crate::operations::{Flow, step};
use crate::stack::Stack;
use css_base::{Line, Stop};
use css_isa::{Function, Instr, Space};

/// Why the steps inside a function rest.
pub(crate) enum Rest {
    /// The body of a loop is entered next.
    Turns,
    /// The next instruction is another one that doesn't go on by itself.
    Pauses,
    /// They stop at a fault or a rule, in this line.
    Stops(Stop, Line),
}

/// Takes the steps from a place up to the next rest, over a frame at this base.
#[inline(always)]
pub(crate) fn take_steps<S: Space>(
    function: &Function,
    base: u32,
    mode: &mut Mode,
    place: &mut usize,
    stack: &mut Stack,
    space: &mut S,
) -> Rest
    requires { HasRoom (routine function.now) base (here (mode_as mode.old) place.old stack.old.own) (stack.old.capacity - (length stack.old.below + length stack.old.own)) }
    ensures rests { (units : ℕ) → Rests (metered S.reply) (spending S.learn) (routine function.now)
        base (here (mode_as mode.old) place.old stack.old.own) (with_units space.old units) result (here (mode_as mode.new) place.new stack.new.own) (with_units space.new units) }
    ensures below { stack.new.below ≡ stack.old.below }
    ensures capacity { stack.new.capacity ≡ stack.old.capacity }
    ensures stays { S.place space.new ≡ S.place space.old }
{
    let body = function.body.as_slice();
    // The steps that are left fall at each, and there are no more than instructions.
    for _ in 0..u64::MAX {
        match step(instr_in(body, *place).op, base, mode, place, stack, space) {
            Flow::Goes => {}
            Flow::Turns => return Rest::Turns,
            Flow::Pauses => return Rest::Pauses,
            Flow::Stops(stop) => return Rest::Stops(stop, instr_in(body, *place).line),
        }
    }
    unreachable!()
}

// The instruction at a place.
#[inline(always)]
fn instr_in(body: &[Instr], place: usize) -> Instr
    requires { place < length body.now }
    ensures is { slice_get body.now place ≡ Some result }
    ensures counted { place + 1 < 2 ^ 64 }
{
    body[place]
}
