//! The instructions at which the steps of a function don't pause.
ghost use Rattle.std.specs.Prelude.{◌≡◌, ◌+◌, ◌-◌, ◌^◌, ◌<◌, ◌≤◌, ℕ, suc, List, ◌∷◌, length, nat_eq, if◌then◌else◌, IfErr, OnOk, OnErr, IsTrue};
ghost use Rattle.css_isa.specs.Effects.{effect, loading, storing, Gives, Faults};
ghost use Rattle.css_isa.specs.Roles.{role_of};
ghost use Rattle.css_isa.specs.Worked.{divides};
ghost use Rattle.css_isa.specs.Cells.{type_of, address_of};
ghost use Rattle.css_machine.specs.Modes.{mode_as};
ghost use Rattle.css_machine.specs.Steps.{is_straight, cells_inside, room_inside, Works, Breaks, Passes, Flows};
ghost use Rattle.css_machine.specs.Groups.{loads, stores, reworks, combines};

use crate::event::Mode;
use crate::stack::Stack;
use css_base::{FaultKind, IntType, Stop};
use css_isa::cells::{
    below, complement, difference, different, equal, left_shift, narrow, negative, product,
    quotient, remainder, right_shift, sum, unsigned_below, unsigned_quotient, unsigned_remainder,
    unsigned_right_shift,
};
use css_isa::{Mark, Narrow, Op, Space, Width};

/// What is done at an instruction.
pub(crate) enum Flow {
    /// The machine goes on.
    Goes,
    /// Nothing: a loop's body is entered.
    Turns,
    /// Nothing: it is an instruction that doesn't go on by itself.
    Pauses,
    /// It stops at a fault or a rule.
    Stops(Stop),
}

/// Does the instruction at a place, over a frame at this base.
#[inline(always)]
pub(crate) fn step<S: Space>(
    op: Op,
    base: u32,
    mode: &mut Mode,
    place: &mut usize,
    stack: &mut Stack,
    space: &mut S,
) -> Flow
    requires counted { place.old + 1 < 2 ^ 64 }
    requires finds { cells_inside (role_of op) ≤ length stack.old.own }
    requires room { room_inside (role_of op) ≤ stack.old.capacity - (length stack.old.below + length stack.old.own) }
    ensures flows { Flows S.reply S.learn op base (mode_as mode.old) place.old stack.old.own space.old result (mode_as mode.new) place.new stack.new.own space.new }
    ensures height { length stack.new.own ≤ suc (length stack.old.own) }
    ensures below { stack.new.below ≡ stack.old.below }
    ensures capacity { stack.new.capacity ≡ stack.old.capacity }
{
    match op {
        Op::Jump(to) => {
            *place = to as usize;
            Flow::Goes
        }
        Op::Jumpz(to) => {
            *place = branch(stack.pop(), to, *place);
            Flow::Goes
        }
        Op::Turn => Flow::Turns,
        Op::Call(_) => Flow::Pauses,
        Op::Ret => Flow::Pauses,
        Op::Submit(_) => Flow::Pauses,
        Op::Mark(mark) => pass_mark(mark, mode, place),
        Op::Out(_) => Flow::Pauses,
        Op::In => Flow::Pauses,
        Op::Malloc => Flow::Pauses,
        _ => match work(op, base, stack, space) {
            Ok(()) => {
                *place += 1;
                Flow::Goes
            }
            Err(stop) => Flow::Stops(stop),
        },
    }
}

// Goes on in another mode, or pauses, at a mark.
#[inline]
fn pass_mark(mark: Mark, mode: &mut Mode, place: &mut usize) -> Flow
    requires { place.old + 1 < 2 ^ 64 }
    ensures { Passes mark (mode_as mode.old) place.old result (mode_as mode.new) place.new }
{
    match mark {
        Mark::InWait => {
            *mode = Mode::Waiting;
            *place += 1;
            Flow::Goes
        }
        Mark::InDimension => {
            *mode = Mode::Measuring;
            *place += 1;
            Flow::Goes
        }
        Mark::Outside => {
            *mode = Mode::Plain;
            *place += 1;
            Flow::Goes
        }
        Mark::Start => Flow::Pauses,
        Mark::Finish => Flow::Pauses,
        Mark::Barrier => Flow::Pauses,
        Mark::Wait => Flow::Pauses,
        Mark::Started => Flow::Pauses,
    }
}

// The place at which it goes on where a cell is 0, or the next one.
#[inline(always)]
fn branch(cell: u64, to: u32, place: usize) -> usize
    requires { place + 1 < 2 ^ 64 }
    ensures { result ≡ (if nat_eq cell 0 then to else place + 1) }
{
    if cell == 0 { to as usize } else { place + 1 }
}

// Makes cells of cells, or asks the memory.
#[inline(always)]
fn work<S: Space>(op: Op, base: u32, stack: &mut Stack, space: &mut S) -> Result<(), Stop>
    requires straight { IsTrue (is_straight op) }
    requires finds { cells_inside (role_of op) ≤ length stack.old.own }
    requires room { length stack.old.below + length stack.old.own + 1 ≤ stack.old.capacity }
    ensures works { OnOk result (Works S.reply S.learn (effect base op stack.old.own) space.old stack.new.own space.new) }
    ensures breaks { IfErr result (λ stop. Breaks S.reply S.learn (effect base op stack.old.own) space.old stop) }
    ensures stays { OnErr result (space.new ≡ space.old) }
    ensures height { length stack.new.own ≤ suc (length stack.old.own) }
    ensures below { stack.new.below ≡ stack.old.below }
    ensures capacity { stack.new.capacity ≡ stack.old.capacity }
{
    match op {
        Op::Push(number) => {
            stack.push(number.cast_unsigned());
            Ok(())
        }
        Op::Frame(offset) => {
            stack.push(u64::from(base) + u64::from(offset));
            Ok(())
        }
        Op::Dup(depth) => {
            stack.push(stack.below_top(depth));
            Ok(())
        }
        Op::Drop | Op::Swap | Op::Neg | Op::Not | Op::Conv(_) => {
            rework(op, stack);
            Ok(())
        }
        Op::Load8u
        | Op::Load8s
        | Op::Load16u
        | Op::Load16s
        | Op::Load32u
        | Op::Load32s
        | Op::Load64 => load_any(op, stack, space),
        Op::Store8 | Op::Store16 | Op::Store32 | Op::Store64 => store_any(op, stack, space),
        Op::Divs | Op::Divu | Op::Rems | Op::Remu => divide(op, stack),
        _ => {
            combine(op, stack);
            Ok(())
        }
    }
}

// Does an instruction that makes at most as many cells of the topmost one or two.
#[inline(always)]
fn rework(op: Op, stack: &mut Stack)
    requires reworks { IsTrue (reworks op) }
    requires finds { cells_inside (role_of op) ≤ length stack.old.own }
    ensures works { (base : ℕ) → effect base op stack.old.own ≡ Gives stack.new.own }
    ensures height { length stack.new.own ≤ length stack.old.own }
    ensures below { stack.new.below ≡ stack.old.below }
    ensures capacity { stack.new.capacity ≡ stack.old.capacity }
{
    match op {
        Op::Drop => {
            stack.pop();
        }
        Op::Swap => stack.swap_top(),
        Op::Neg => stack.set_top(negative(stack.top())),
        Op::Not => stack.set_top(complement(stack.top())),
        Op::Conv(to) => stack.set_top(narrow(to, stack.top())),
        _ => unreachable!(),
    }
}

// Does an instruction that makes one cell of two.
#[inline(always)]
fn combine(op: Op, stack: &mut Stack)
    requires combines { IsTrue (combines op) }
    requires finds { 2 ≤ length stack.old.own }
    ensures works { (base : ℕ) → effect base op stack.old.own ≡ Gives stack.new.own }
    ensures height { length stack.new.own ≤ length stack.old.own }
    ensures below { stack.new.below ≡ stack.old.below }
    ensures capacity { stack.new.capacity ≡ stack.old.capacity }
{
    match op {
        Op::Add => stack.combine(sum),
        Op::Sub => stack.combine(difference),
        Op::Mul => stack.combine(product),
        Op::And => stack.combine(|a, b| a & b),
        Op::Or => stack.combine(|a, b| a | b),
        Op::Xor => stack.combine(|a, b| a ^ b),
        Op::Shl(width) => stack.combine(|a, b| left_shift(width, a, b)),
        Op::Shrs(width) => stack.combine(|a, b| right_shift(width, a, b)),
        Op::Shru(width) => stack.combine(|a, b| unsigned_right_shift(width, a, b)),
        Op::Eq => stack.combine(equal),
        Op::Ne => stack.combine(different),
        Op::Lts => stack.combine(below),
        Op::Ltu => stack.combine(unsigned_below),
        _ => unreachable!(),
    }
}

// Divides the second cell by the topmost one. The fault DivideByZero where that is 0.
#[inline(always)]
fn divide(op: Op, stack: &mut Stack) -> Result<(), Stop>
    requires divides { IsTrue (divides op) }
    requires finds { 2 ≤ length stack.old.own }
    ensures works { OnOk result ((base : ℕ) → effect base op stack.old.own ≡ Gives stack.new.own) }
    ensures breaks { IfErr result (λ stop. (base : ℕ) → (stop ≡ Stop.Fault FaultKind.DivideByZero) × (effect base op stack.old.own ≡ Faults FaultKind.DivideByZero)) }
    ensures height { length stack.new.own ≤ length stack.old.own }
    ensures below { stack.new.below ≡ stack.old.below }
    ensures capacity { stack.new.capacity ≡ stack.old.capacity }
{
    let b = stack.pop();
    let a = stack.top();
    if b == 0 {
        return Err(Stop::Fault(FaultKind::DivideByZero));
    }
    stack.set_top(quotient_by(op, a, b));
    Ok(())
}

// A quotient, or what it leaves.
#[inline(always)]
fn quotient_by(op: Op, a: u64, b: u64) -> u64
    requires divides { IsTrue (divides op) }
    requires divisor { 0 < b }
    ensures { (base : ℕ) (rest : List ℕ) → effect base op (b ∷ a ∷ rest) ≡ Gives (result ∷ rest) }
{
    match op {
        Op::Divs => quotient(a, b),
        Op::Divu => unsigned_quotient(a, b),
        Op::Rems => remainder(a, b),
        Op::Remu => unsigned_remainder(a, b),
        _ => unreachable!(),
    }
}

// Loads.
#[inline(always)]
fn load_any<S: Space>(op: Op, stack: &mut Stack, space: &mut S) -> Result<(), Stop>
    requires asks { IsTrue (loads op) }
    requires finds { cells_inside (role_of op) ≤ length stack.old.own }
    ensures works { OnOk result ((base : ℕ) → Works S.reply S.learn (effect base op stack.old.own) space.old stack.new.own space.new) }
    ensures breaks { IfErr result (λ stop. (base : ℕ) → Breaks S.reply S.learn (effect base op stack.old.own) space.old stop) }
    ensures stays { OnErr result (space.new ≡ space.old) }
    ensures height { length stack.new.own ≤ length stack.old.own }
    ensures below { stack.new.below ≡ stack.old.below }
    ensures capacity { stack.new.capacity ≡ stack.old.capacity }
{
    match op {
        Op::Load8u => load(Width::W8, Narrow::U8, stack, space),
        Op::Load8s => load(Width::W8, Narrow::S8, stack, space),
        Op::Load16u => load(Width::W16, Narrow::U16, stack, space),
        Op::Load16s => load(Width::W16, Narrow::S16, stack, space),
        Op::Load32u => load(Width::W32, Narrow::U32, stack, space),
        Op::Load32s => load(Width::W32, Narrow::S32, stack, space),
        Op::Load64 => load_whole(stack, space),
        _ => unreachable!(),
    }
}

// Stores.
#[inline(always)]
fn store_any<S: Space>(op: Op, stack: &mut Stack, space: &mut S) -> Result<(), Stop>
    requires asks { IsTrue (stores op) }
    requires finds { cells_inside (role_of op) ≤ length stack.old.own }
    ensures works { OnOk result ((base : ℕ) → Works S.reply S.learn (effect base op stack.old.own) space.old stack.new.own space.new) }
    ensures breaks { IfErr result (λ stop. (base : ℕ) → Breaks S.reply S.learn (effect base op stack.old.own) space.old stop) }
    ensures stays { OnErr result (space.new ≡ space.old) }
    ensures height { length stack.new.own ≤ length stack.old.own }
    ensures below { stack.new.below ≡ stack.old.below }
    ensures capacity { stack.new.capacity ≡ stack.old.capacity }
{
    match op {
        Op::Store8 => store(Width::W8, stack, space),
        Op::Store16 => store(Width::W16, stack, space),
        Op::Store32 => store(Width::W32, stack, space),
        Op::Store64 => store(Width::W64, stack, space),
        _ => unreachable!(),
    }
}

/// A cell as an address.
#[inline(always)]
pub(crate) fn address(cell: u64) -> u32
    ensures { result ≡ address_of cell }
{
    (cell % 0x1_0000_0000) as u32
}

// Puts the bytes at the topmost cell's address in its place, narrowed.
#[inline(always)]
fn load<S: Space>(width: Width, to: Narrow, stack: &mut Stack, space: &mut S) -> Result<(), Stop>
    requires { 0 < length stack.old.own }
    ensures works { OnOk result (Works S.reply S.learn (loading width (type_of to) stack.old.own) space.old stack.new.own space.new) }
    ensures breaks { IfErr result (λ stop. Breaks S.reply S.learn (loading width (type_of to) stack.old.own) space.old stop) }
    ensures stays { OnErr result (space.new ≡ space.old) }
    ensures height { length stack.new.own ≤ length stack.old.own }
    ensures below { stack.new.below ≡ stack.old.below }
    ensures capacity { stack.new.capacity ≡ stack.old.capacity }
{
    let value = space.load(address(stack.top()), width)?;
    stack.set_top(narrow(to, value));
    Ok(())
}

// Puts the 8 bytes at the topmost cell's address in its place.
#[inline(always)]
fn load_whole<S: Space>(stack: &mut Stack, space: &mut S) -> Result<(), Stop>
    requires { 0 < length stack.old.own }
    ensures works { OnOk result (Works S.reply S.learn (loading Width.W64 IntType.ULongLong stack.old.own) space.old stack.new.own space.new) }
    ensures breaks { IfErr result (λ stop. Breaks S.reply S.learn (loading Width.W64 IntType.ULongLong stack.old.own) space.old stop) }
    ensures stays { OnErr result (space.new ≡ space.old) }
    ensures height { length stack.new.own ≤ length stack.old.own }
    ensures below { stack.new.below ≡ stack.old.below }
    ensures capacity { stack.new.capacity ≡ stack.old.capacity }
{
    let value = space.load(address(stack.top()), Width::W64)?;
    stack.set_top(value);
    Ok(())
}

// Stores the low bytes of the topmost cell at the address below it, and leaves the cell.
#[inline(always)]
fn store<S: Space>(width: Width, stack: &mut Stack, space: &mut S) -> Result<(), Stop>
    requires { 2 ≤ length stack.old.own }
    ensures works { OnOk result (Works S.reply S.learn (storing width stack.old.own) space.old stack.new.own space.new) }
    ensures breaks { IfErr result (λ stop. Breaks S.reply S.learn (storing width stack.old.own) space.old stop) }
    ensures stays { OnErr result (space.new ≡ space.old) }
    ensures height { length stack.new.own ≤ length stack.old.own }
    ensures below { stack.new.below ≡ stack.old.below }
    ensures capacity { stack.new.capacity ≡ stack.old.capacity }
{
    let value = stack.pop();
    space.store(address(stack.top()), width, value)?;
    stack.set_top(value);
    Ok(())
}
