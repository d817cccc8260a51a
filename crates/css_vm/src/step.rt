//! The machine's steps inside a function.
ghost use Rattle.std.specs.Prelude.{◌≡◌, ℕ, length, IfOk, IfSome};
ghost use Rattle.css_semantics.specs.Units.{with_units, metered, spending};
ghost use Rattle.css_vm.specs.Code.{routine};
ghost use Rattle.css_vm.specs.Steps.{IsPlaced, IsCounted, Steps, Pauses};

use crate::code::{Function, Instr, Op};
use crate::operations::{Failure, perform};
use crate::space::Space;
use crate::stack::Stack;
use css_base::{Line, NoMemory, Stop};

/// Why the steps inside a function pause.
pub(crate) enum Pause {
    /// The next instruction is one that doesn't go on by itself.
    At(Op, Line),
    /// They stop at a fault or a rule, in this line.
    Stopped(Stop, Line),
}

/// Takes the steps from a place up to the next pause, over a frame at this base.
#[inline]
pub(crate) fn take_steps<S: Space>(
    function: &Function,
    base: u32,
    place: &mut usize,
    stack: &mut Stack,
    space: &mut S,
) -> Result<Pause, NoMemory>
    requires { IsPlaced (routine function.now) place.old (length stack.old.own) }
    ensures pauses { IfOk result (λ p. (units : ℕ) → Pauses (metered S.reply) (spending S.learn) (routine function.now)
        base place.old stack.old.own (with_units space.old units) p place.new stack.new.own (with_units space.new units)) }
    ensures counted { IfOk result (λ p. IsCounted p place.new) }
    ensures kept { stack.new.below ≡ stack.old.below }
    ensures place { S.place space.new ≡ S.place space.old }
{
    // The rank falls at each step, so there are no more steps than instructions.
    for _ in 0..u64::MAX {
        if let Some(pause) = take_step(function, base, place, stack, space)? {
            return Ok(pause);
        }
    }
    unreachable!()
}

// One step, or the pause before it.
#[inline]
fn take_step<S: Space>(
    function: &Function,
    base: u32,
    place: &mut usize,
    stack: &mut Stack,
    space: &mut S,
) -> Result<Option<Pause>, NoMemory>
    requires { IsPlaced (routine function.now) place.old (length stack.old.own) }
    ensures steps { IfOk result (λ p. (units : ℕ) → Steps (metered S.reply) (spending S.learn) (routine function.now)
        base place.old stack.old.own (with_units space.old units) p place.new stack.new.own (with_units space.new units)) }
    ensures counted { IfOk result (λ p. IfSome p (λ q. IsCounted q place.new)) }
    ensures kept { stack.new.below ≡ stack.old.below }
    ensures place { S.place space.new ≡ S.place space.old }
{
    let Instr { op, line } = *function.instr_at(*place);
    match op {
        Op::Jump(to) => {
            *place = to as usize;
            Ok(None)
        }
        Op::Jumpz(to) => {
            let goes = stack.pop() == 0;
            *place = if goes { to as usize } else { *place + 1 };
            Ok(None)
        }
        Op::Call(_) | Op::Submit(_) | Op::Mark(_) | Op::Turn | Op::Out(_) | Op::Ret => {
            Ok(Some(Pause::At(op, line)))
        }
        _ => match perform(op, base, stack, space) {
            Ok(()) => {
                *place += 1;
                Ok(None)
            }
            Err(Failure::Stop(stop)) => Ok(Some(Pause::Stopped(stop, line))),
            Err(Failure::NoMemory) => Err(NoMemory),
        },
    }
}
