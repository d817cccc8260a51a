//! What instructions ask of the operand stack, and where they go on.
ghost use Rattle.std.specs.Prelude.{◌≡◌};
ghost use Rattle.css_isa.specs.Worked.{goes_on, needed_by};

use crate::code::{Mark, Op};

/// Whether an instruction goes on at the next place by its effect on the operand cells.
pub fn goes_on(op: Op) -> bool
    ensures { result ≡ goes_on op }
{
    match op {
        Op::Jump(_) | Op::Jumpz(_) | Op::Call(_) | Op::Ret | Op::Submit(_) => false,
        Op::Mark(Mark::InWait) | Op::Mark(Mark::InDimension) => false,
        Op::Mark(Mark::Outside) | Op::Mark(Mark::Started) => false,
        _ => true,
    }
}

/// How many operand cells such an instruction needs.
pub fn needed(op: Op) -> u64
    ensures { result ≡ needed_by op }
{
    match op {
        Op::Push(_) | Op::Frame(_) | Op::In | Op::Turn => 0,
        Op::Jump(_) | Op::Call(_) | Op::Submit(_) | Op::Jumpz(_) | Op::Ret => 0,
        Op::Mark(Mark::Wait) => 1,
        Op::Mark(_) => 0,
        Op::Dup(depth) => u64::from(depth) + 1,
        Op::Drop | Op::Neg | Op::Not | Op::Conv(_) | Op::Out(_) | Op::Malloc => 1,
        Op::Load8u | Op::Load8s | Op::Load16u | Op::Load16s => 1,
        Op::Load32u | Op::Load32s | Op::Load64 => 1,
        _ => 2,
    }
}
