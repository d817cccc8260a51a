//! The instructions that go on at the next place.
ghost use Rattle.std.specs.Prelude.{◌≡◌, ◌<◌, ◌≤◌, ℕ, List, ◌∷◌, length, IfErr, OnOk, IsTrue};
ghost use Rattle.css_base.specs.declared.ending.Stop.{Stop};
ghost use Rattle.css_semantics.specs.Units.{with_units, metered, spending};
ghost use Rattle.css_vm.specs.Soundness.{needs};
ghost use Rattle.css_vm.specs.Effects.{no_functions, goes_on, is_silent, needs_no_room, Narrows, Changes, Performs, Halts};

use crate::cells::{
    below, complement, difference, different, equal, left_shift, narrow, negative, product,
    quotient, remainder, right_shift, sum,
};
use crate::code::{Narrow, Op};
use crate::space::{Space, Width};
use crate::stack::Stack;
use css_base::{FaultKind, NoMemory, Stop};

/// Why an instruction isn't done.
pub(crate) enum Failure {
    NoMemory,
    Stop(Stop),
}

impl From<NoMemory> for Failure {
    ghost use Rattle.std.specs.Prelude.{◌≡◌};
    ghost use Rattle.css_vm.specs.declared.operations.Failure.TheVariants as failures;

    ghost from_gives = { λ _ failure. failure ≡ failures.NoMemory };

    fn from(_error: NoMemory) -> Failure {
        Failure::NoMemory
    }
}

impl From<Stop> for Failure {
    ghost use Rattle.std.specs.Prelude.{◌≡◌};
    ghost use Rattle.css_vm.specs.declared.operations.Failure.TheVariants as failures;

    ghost from_gives = { λ stop failure. failure ≡ failures.Stop stop };

    fn from(stop: Stop) -> Failure {
        Failure::Stop(stop)
    }
}

/// Does an instruction that goes on at the next place, over a frame at this base.
#[inline]
pub(crate) fn perform<S: Space>(
    op: Op,
    base: u32,
    stack: &mut Stack,
    space: &mut S,
) -> Result<(), Failure>
    requires goes_on { IsTrue (goes_on op) }
    requires finds { needs no_functions op ≤ length stack.old.own }
    ensures performs { OnOk result ((units : ℕ) → Performs (metered S.reply) (spending S.learn) op base stack.old.own (with_units space.old units) stack.new.own (with_units space.new units)) }
    ensures halts { (stop : Stop) → result ≡ Err (Failure.Stop stop) → (units : ℕ) → Halts (metered S.reply) (spending S.learn) op base stack.old.own (with_units space.old units) stop }
    ensures place { S.place space.new ≡ S.place space.old }
    ensures kept { stack.new.below ≡ stack.old.below }
{
    match op {
        Op::Load32u => Ok(load(Narrow::U32, stack, space)?),
        Op::Load32s => Ok(load(Narrow::S32, stack, space)?),
        Op::Store32 => Ok(store(stack, space)?),
        Op::Divs => Ok(divide(stack, quotient)?),
        Op::Rems => Ok(divide(stack, remainder)?),
        _ => Ok(change(op, base, stack)?),
    }
}

// Puts the 4 bytes at the topmost cell's address in its place, narrowed.
#[inline]
fn load<S: Space>(to: Narrow, stack: &mut Stack, space: &mut S) -> Result<(), Stop>
    requires { 0 < length stack.old.own }
    ensures performs { OnOk result ((op : Op) → Narrows op to → (base units : ℕ) → Performs (metered S.reply) (spending S.learn) op base stack.old.own (with_units space.old units) stack.new.own (with_units space.new units)) }
    ensures halts { IfErr result (λ stop. (op : Op) → Narrows op to → (base units : ℕ) → Halts (metered S.reply) (spending S.learn) op base stack.old.own (with_units space.old units) stop) }
    ensures place { S.place space.new ≡ S.place space.old }
    ensures kept { stack.new.below ≡ stack.old.below }
{
    let address = (stack.top() % 0x1_0000_0000) as u32;
    let value = space.load(address, Width::W32)?;
    stack.set_top(narrow(to, value));
    Ok(())
}

// Stores the low 4 bytes of the topmost cell at the address below it, and leaves the cell.
#[inline]
fn store<S: Space>(stack: &mut Stack, space: &mut S) -> Result<(), Stop>
    requires { 2 ≤ length stack.old.own }
    ensures performs { OnOk result ((base units : ℕ) → Performs (metered S.reply) (spending S.learn) Op.Store32 base stack.old.own (with_units space.old units) stack.new.own (with_units space.new units)) }
    ensures halts { IfErr result (λ stop. (base units : ℕ) → Halts (metered S.reply) (spending S.learn) Op.Store32 base stack.old.own (with_units space.old units) stop) }
    ensures place { S.place space.new ≡ S.place space.old }
    ensures kept { stack.new.below ≡ stack.old.below }
{
    let value = stack.pop();
    let address = (stack.top() % 0x1_0000_0000) as u32;
    space.store(address, Width::W32, value)?;
    stack.set_top(value);
    Ok(())
}

// Puts a value of the two topmost cells in their place, if the divisor, which is the topmost, isn't 0.
#[inline]
fn divide<F: Fn(u64, u64) -> u64>(stack: &mut Stack, value: F) -> Result<(), Stop>
    requires callable { (a b : ℕ) → 0 < b → F.pre value a b }
    requires finds { 2 ≤ length stack.old.own }
    ensures divides { OnOk result ((a b c : ℕ) × (rest : List ℕ) × (stack.old.own ≡ b ∷ a ∷ rest) × (0 < b) × (F.post value a b c) × (stack.new.own ≡ c ∷ rest)) }
    ensures by_zero { IfErr result (λ stop. (stop ≡ Stop.Fault FaultKind.DivideByZero) × ((a : ℕ) × (rest : List ℕ) × (stack.old.own ≡ 0 ∷ a ∷ rest))) }
    ensures kept { stack.new.below ≡ stack.old.below }
{
    let divisor = stack.pop();
    if divisor == 0 {
        return Err(Stop::Fault(FaultKind::DivideByZero));
    }
    let quotient = value(stack.top(), divisor);
    stack.set_top(quotient);
    Ok(())
}

// Does an instruction that only changes the stack.
#[inline]
fn change(op: Op, base: u32, stack: &mut Stack) -> Result<(), NoMemory>
    requires silent { IsTrue (is_silent op) }
    requires finds { needs no_functions op ≤ length stack.old.own }
    ensures changes { OnOk result (Changes op base stack.old.own stack.new.own) }
    ensures kept { stack.new.below ≡ stack.old.below }
{
    match op {
        Op::Push(number) => stack.push(number.cast_unsigned()),
        Op::Frame(offset) => stack.push(u64::from(base) + u64::from(offset)),
        Op::Dup(depth) => stack.push(stack.below_top(depth)),
        _ => {
            rework(op, stack);
            Ok(())
        }
    }
}

// Does an instruction that needs no more room on the stack.
#[inline]
fn rework(op: Op, stack: &mut Stack)
    requires silent { IsTrue (needs_no_room op) }
    requires finds { needs no_functions op ≤ length stack.old.own }
    ensures changes { (base : ℕ) → Changes op base stack.old.own stack.new.own }
    ensures kept { stack.new.below ≡ stack.old.below }
{
    match op {
        Op::Drop => {
            stack.pop();
        }
        Op::Swap => stack.swap_top(),
        Op::Neg => stack.replace(negative),
        Op::Not => stack.replace(complement),
        Op::Conv(to) => stack.replace(|a| narrow(to, a)),
        Op::Add => stack.combine(sum),
        Op::Sub => stack.combine(difference),
        Op::Mul => stack.combine(product),
        Op::And => stack.combine(|a, b| a & b),
        Op::Or => stack.combine(|a, b| a | b),
        Op::Xor => stack.combine(|a, b| a ^ b),
        Op::Shl(width) => stack.combine(|a, b| left_shift(width, a, b)),
        Op::Shrs(width) => stack.combine(|a, b| right_shift(width, a, b)),
        Op::Eq => stack.combine(equal),
        Op::Ne => stack.combine(different),
        Op::Lts => stack.combine(below),
        _ => unreachable!(),
    }
}
