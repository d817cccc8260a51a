//! Instructions as words.
ghost use Rattle.std.specs.Prelude.{◌≡◌, map};
ghost use Rattle.css_listing.specs.Words.{op_with, op_of};

use crate::kind::OpKind;
use crate::numbers::{signed_of, small_of};
use crate::tables::{bare_of, mark_of, narrow_of, op_kind_of, out_of, shift_of};
use css_isa::Op;

/// An instruction with its operand.
#[tactic(auto, unfolding(crate::specs::Words::op_with))]
fn op_with(kind: OpKind, word: &[u8]) -> Option<Op>
    ensures { result ≡ op_with kind word.now }
{
    let op = match kind {
        OpKind::Push => Op::Push(signed_of(word)?),
        OpKind::Dup => Op::Dup(small_of(word)?),
        OpKind::Frame => Op::Frame(small_of(word)?),
        OpKind::Shl => Op::Shl(shift_of(word)?),
        OpKind::Shrs => Op::Shrs(shift_of(word)?),
        OpKind::Shru => Op::Shru(shift_of(word)?),
        OpKind::Conv => Op::Conv(narrow_of(word)?),
        OpKind::Jump => Op::Jump(small_of(word)?),
        OpKind::Jumpz => Op::Jumpz(small_of(word)?),
        OpKind::Call => Op::Call(small_of(word)?),
        OpKind::Submit => Op::Submit(small_of(word)?),
        OpKind::Mark => Op::Mark(mark_of(word)?),
        OpKind::Out => Op::Out(out_of(word)?),
    };
    Some(op)
}

/// The instruction that these words are: its name, and its operand where it has one.
#[tactic(auto, unfolding(crate::specs::Words::op_of))]
pub(crate) fn op_of(words: &[&[u8]]) -> Option<Op>
    ensures { result ≡ op_of (map (λ w. w.now) words.now) }
{
    if words.len() == 1 {
        return bare_of(words[0]);
    }
    if words.len() == 2 {
        let kind = op_kind_of(words[0])?;
        return op_with(kind, words[1]);
    }
    None
}
