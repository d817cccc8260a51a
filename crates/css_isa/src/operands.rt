//! What instructions that go on at the next place do with the operand cells.
ghost use Rattle.std.specs.Prelude.{◌≡◌, ◌<◌, ◌≤◌, ℕ, List, ◌∷◌, Some, IsTrue, length, reverse, slice_get};
ghost use Rattle.css_isa.specs.Effects.{effect};
ghost use Rattle.css_isa.specs.Cells.{address_of};
ghost use Rattle.css_isa.specs.Worked.{goes_on, needed_by, taken_by, divides, meant};

use crate::cells::{
    below, complement, difference, different, equal, left_shift, narrow, negative, product,
    quotient, remainder, right_shift, sum, unsigned_below, unsigned_quotient, unsigned_remainder,
    unsigned_right_shift,
};
use crate::code::{Conversion, Mark, Op};
use crate::space::Width;
use css_base::{FaultKind, IntType};

/// What an instruction asks.
#[derive(Clone, Copy)]
pub enum Asked {
    /// The bytes at an address. The reply is a value of the type.
    Load(u32, Width, IntType),
    /// That the low bytes of a cell are stored at an address. The cell stays.
    Store(u32, Width, u64),
    /// That a cell is written. The reply is the number of bytes.
    Out(Conversion, u64),
    /// A byte of the input.
    In,
    /// So many bytes of the heap.
    Malloc(u32),
    /// That the body of a loop is entered.
    Turn,
    /// That calls of tasks make tasks.
    Start,
    /// That all tasks are waited for, and calls make no more.
    Finish,
    /// That all tasks are waited for.
    Barrier,
    /// That the object at an address is waited for.
    Wait(u32),
}

/// What becomes of the operand cells.
#[derive(Clone, Copy)]
pub enum Worked {
    /// So many of the topmost cells are taken, and this one is given.
    Gives(usize, u64),
    /// The topmost cell is dropped.
    Drops,
    /// The two topmost cells are swapped.
    Swaps,
    /// So many of the topmost cells are taken, and something is asked.
    Asks(usize, Asked),
    /// It is a fault.
    Faults(FaultKind),
}

/// What an instruction does over a frame at this base with operand cells, of which the topmost is the last.
pub fn effect(base: u32, op: Op, cells: &[u64]) -> Worked
    requires goes_on { IsTrue (goes_on op) }
    requires finds { needed_by op ≤ length cells.now }
    ensures { meant result (reverse cells.now) ≡ effect base op (reverse cells.now) }
{
    match op {
        Op::Push(number) => Worked::Gives(0, number.cast_unsigned()),
        Op::Frame(offset) => Worked::Gives(0, u64::from(base) + u64::from(offset)),
        Op::Dup(depth) => Worked::Gives(0, below_top(cells, depth)),
        Op::In => Worked::Asks(0, Asked::In),
        Op::Turn => Worked::Asks(0, Asked::Turn),
        Op::Mark(Mark::Start) => Worked::Asks(0, Asked::Start),
        Op::Mark(Mark::Finish) => Worked::Asks(0, Asked::Finish),
        Op::Mark(Mark::Barrier) => Worked::Asks(0, Asked::Barrier),
        Op::Drop
        | Op::Neg
        | Op::Not
        | Op::Conv(_)
        | Op::Load8u
        | Op::Load8s
        | Op::Load16u
        | Op::Load16s
        | Op::Load32u
        | Op::Load32s
        | Op::Load64
        | Op::Out(_)
        | Op::Malloc
        | Op::Mark(Mark::Wait) => of_one(op, below_top(cells, 0)),
        _ => of_two(op, below_top(cells, 1), below_top(cells, 0)),
    }
}

// The cell so many places below the top.
fn below_top(cells: &[u64], depth: u32) -> u64
    requires { depth < length cells.now }
    ensures { slice_get (reverse cells.now) depth ≡ Some result }
{
    cells[cells.len() - 1 - depth as usize]
}

fn address(cell: u64) -> u32
    ensures { result ≡ address_of cell }
{
    (cell % 0x1_0000_0000) as u32
}

// With the topmost cell.
fn of_one(op: Op, a: u64) -> Worked
    requires { taken_by op ≡ 1 }
    ensures { (base : ℕ) (rest : List ℕ) → meant result (a ∷ rest) ≡ effect base op (a ∷ rest) }
{
    match op {
        Op::Drop => Worked::Drops,
        Op::Neg => Worked::Gives(1, negative(a)),
        Op::Not => Worked::Gives(1, complement(a)),
        Op::Conv(to) => Worked::Gives(1, narrow(to, a)),
        Op::Load8u => Worked::Asks(1, Asked::Load(address(a), Width::W8, IntType::UChar)),
        Op::Load8s => Worked::Asks(1, Asked::Load(address(a), Width::W8, IntType::SChar)),
        Op::Load16u => Worked::Asks(1, Asked::Load(address(a), Width::W16, IntType::UShort)),
        Op::Load16s => Worked::Asks(1, Asked::Load(address(a), Width::W16, IntType::Short)),
        Op::Load32u => Worked::Asks(1, Asked::Load(address(a), Width::W32, IntType::UInt)),
        Op::Load32s => Worked::Asks(1, Asked::Load(address(a), Width::W32, IntType::Int)),
        Op::Load64 => Worked::Asks(1, Asked::Load(address(a), Width::W64, IntType::ULongLong)),
        Op::Out(conversion) => Worked::Asks(1, Asked::Out(conversion, a)),
        Op::Malloc => Worked::Asks(1, Asked::Malloc(address(a))),
        Op::Mark(Mark::Wait) => Worked::Asks(1, Asked::Wait(address(a))),
        _ => unreachable!(),
    }
}

// With the two topmost cells, the top last.
fn of_two(op: Op, a: u64, b: u64) -> Worked
    requires { taken_by op ≡ 2 }
    ensures { (base : ℕ) (rest : List ℕ) → meant result (b ∷ a ∷ rest) ≡ effect base op (b ∷ a ∷ rest) }
{
    match op {
        Op::Swap => Worked::Swaps,
        Op::Store8 => Worked::Asks(2, Asked::Store(address(a), Width::W8, b)),
        Op::Store16 => Worked::Asks(2, Asked::Store(address(a), Width::W16, b)),
        Op::Store32 => Worked::Asks(2, Asked::Store(address(a), Width::W32, b)),
        Op::Store64 => Worked::Asks(2, Asked::Store(address(a), Width::W64, b)),
        Op::Add => Worked::Gives(2, sum(a, b)),
        Op::Sub => Worked::Gives(2, difference(a, b)),
        Op::Mul => Worked::Gives(2, product(a, b)),
        Op::And => Worked::Gives(2, a & b),
        Op::Or => Worked::Gives(2, a | b),
        Op::Xor => Worked::Gives(2, a ^ b),
        Op::Divs | Op::Divu | Op::Rems | Op::Remu => divided(op, a, b),
        Op::Shl(width) => Worked::Gives(2, left_shift(width, a, b)),
        Op::Shrs(width) => Worked::Gives(2, right_shift(width, a, b)),
        Op::Shru(width) => Worked::Gives(2, unsigned_right_shift(width, a, b)),
        Op::Eq => Worked::Gives(2, equal(a, b)),
        Op::Ne => Worked::Gives(2, different(a, b)),
        Op::Lts => Worked::Gives(2, below(a, b)),
        Op::Ltu => Worked::Gives(2, unsigned_below(a, b)),
        _ => unreachable!(),
    }
}

// A quotient, or what it leaves; a fault where the divisor is 0.
fn divided(op: Op, a: u64, b: u64) -> Worked
    requires { IsTrue (divides op) }
    ensures { (base : ℕ) (rest : List ℕ) → meant result (b ∷ a ∷ rest) ≡ effect base op (b ∷ a ∷ rest) }
{
    if b == 0 {
        return Worked::Faults(FaultKind::DivideByZero);
    }
    match op {
        Op::Divs => Worked::Gives(2, quotient(a, b)),
        Op::Divu => Worked::Gives(2, unsigned_quotient(a, b)),
        Op::Rems => Worked::Gives(2, remainder(a, b)),
        Op::Remu => Worked::Gives(2, unsigned_remainder(a, b)),
        _ => unreachable!(),
    }
}
