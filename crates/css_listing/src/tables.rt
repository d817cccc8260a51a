//! Words that stand for something.
ghost use Rattle.std.specs.Prelude.{◌≡◌, map};
ghost use Rattle.css_traces.specs.Words.{value_in};
ghost use Rattle.css_listing.specs.Words.{head_words, shift_words, narrow_words, mark_words, out_words, bare_words, operand_words, direction_words, high_words, width_words};

use crate::kind::{Kind, OpKind};
use css_base::Direction;
use css_isa::{Conversion, Mark, Narrow, Op, ShiftWidth, Width};

/// The first words of lines.
static HEADS: [(&[u8], Kind); 5] = [
    (b"code", Kind::Head),
    (b"data", Kind::Data),
    (b"function", Kind::Opens),
    (b"task", Kind::Task),
    (b"i", Kind::Instr),
];

static SHIFTS: [(&[u8], ShiftWidth); 2] = [(b"32", ShiftWidth::W32), (b"64", ShiftWidth::W64)];

static NARROWS: [(&[u8], Narrow); 6] = [
    (b"u8", Narrow::U8),
    (b"s8", Narrow::S8),
    (b"u16", Narrow::U16),
    (b"s16", Narrow::S16),
    (b"u32", Narrow::U32),
    (b"s32", Narrow::S32),
];

static MARKS: [(&[u8], Mark); 8] = [
    (b"0", Mark::Start),
    (b"1", Mark::Finish),
    (b"2", Mark::Barrier),
    (b"3", Mark::Wait),
    (b"4", Mark::InWait),
    (b"5", Mark::InDimension),
    (b"6", Mark::Outside),
    (b"7", Mark::Started),
];

static OUTS: [(&[u8], Conversion); 5] = [
    (b"c", Conversion::Char),
    (b"d", Conversion::Signed),
    (b"u", Conversion::Unsigned),
    (b"x", Conversion::Hexadecimal),
    (b"q", Conversion::Wide),
];

/// Instructions without an operand.
static BARE: [(&[u8], Op); 33] = [
    (b"drop", Op::Drop),
    (b"swap", Op::Swap),
    (b"load8u", Op::Load8u),
    (b"load8s", Op::Load8s),
    (b"load16u", Op::Load16u),
    (b"load16s", Op::Load16s),
    (b"load32u", Op::Load32u),
    (b"load32s", Op::Load32s),
    (b"load64", Op::Load64),
    (b"store8", Op::Store8),
    (b"store16", Op::Store16),
    (b"store32", Op::Store32),
    (b"store64", Op::Store64),
    (b"add", Op::Add),
    (b"sub", Op::Sub),
    (b"mul", Op::Mul),
    (b"and", Op::And),
    (b"or", Op::Or),
    (b"xor", Op::Xor),
    (b"neg", Op::Neg),
    (b"not", Op::Not),
    (b"divs", Op::Divs),
    (b"divu", Op::Divu),
    (b"rems", Op::Rems),
    (b"remu", Op::Remu),
    (b"eq", Op::Eq),
    (b"ne", Op::Ne),
    (b"lts", Op::Lts),
    (b"ltu", Op::Ltu),
    (b"ret", Op::Ret),
    (b"turn", Op::Turn),
    (b"in", Op::In),
    (b"malloc", Op::Malloc),
];

/// Instructions with an operand.
static WITH_OPERAND: [(&[u8], OpKind); 13] = [
    (b"push", OpKind::Push),
    (b"dup", OpKind::Dup),
    (b"frame", OpKind::Frame),
    (b"shl", OpKind::Shl),
    (b"shrs", OpKind::Shrs),
    (b"shru", OpKind::Shru),
    (b"conv", OpKind::Conv),
    (b"jump", OpKind::Jump),
    (b"jumpz", OpKind::Jumpz),
    (b"call", OpKind::Call),
    (b"submit", OpKind::Submit),
    (b"mark", OpKind::Mark),
    (b"out", OpKind::Out),
];

static DIRECTIONS: [(&[u8], Direction); 3] = [
    (b"in", Direction::In),
    (b"out", Direction::Out),
    (b"inout", Direction::InOut),
];

static HIGHS: [(&[u8], bool); 2] = [(b"high", true), (b"plain", false)];

static WIDTHS: [(&[u8], Width); 4] = [
    (b"8", Width::W8),
    (b"16", Width::W16),
    (b"32", Width::W32),
    (b"64", Width::W64),
];

/// What stands beside a word in a table.
fn find<T: Copy>(table: &[(&[u8], T)], word: &[u8]) -> Option<T>
    ensures { result ≡ value_in (map (λ e. (e.0.now, e.1)) table.now) word.now }
{
    for entry in table {
        if entry.0 == word {
            return Some(entry.1);
        }
    }
    None
}

/// What a line with this first word is.
pub(crate) fn kind_of(word: &[u8]) -> Option<Kind>
    ensures { result ≡ value_in head_words word.now }
{
    find(&HEADS, word)
}

/// The instruction without an operand that has this name.
pub(crate) fn bare_of(word: &[u8]) -> Option<Op>
    ensures { result ≡ value_in bare_words word.now }
{
    find(&BARE, word)
}

/// The instruction with an operand that has this name.
pub(crate) fn op_kind_of(word: &[u8]) -> Option<OpKind>
    ensures { result ≡ value_in operand_words word.now }
{
    find(&WITH_OPERAND, word)
}

pub(crate) fn shift_of(word: &[u8]) -> Option<ShiftWidth>
    ensures { result ≡ value_in shift_words word.now }
{
    find(&SHIFTS, word)
}

pub(crate) fn narrow_of(word: &[u8]) -> Option<Narrow>
    ensures { result ≡ value_in narrow_words word.now }
{
    find(&NARROWS, word)
}

pub(crate) fn mark_of(word: &[u8]) -> Option<Mark>
    ensures { result ≡ value_in mark_words word.now }
{
    find(&MARKS, word)
}

pub(crate) fn out_of(word: &[u8]) -> Option<Conversion>
    ensures { result ≡ value_in out_words word.now }
{
    find(&OUTS, word)
}

pub(crate) fn direction_of(word: &[u8]) -> Option<Direction>
    ensures { result ≡ value_in direction_words word.now }
{
    find(&DIRECTIONS, word)
}

/// Whether a task goes before others.
pub(crate) fn high_of(word: &[u8]) -> Option<bool>
    ensures { result ≡ value_in high_words word.now }
{
    find(&HIGHS, word)
}

pub(crate) fn width_of(word: &[u8]) -> Option<Width>
    ensures { result ≡ value_in width_words word.now }
{
    find(&WIDTHS, word)
}
