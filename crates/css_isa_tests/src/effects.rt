//! The effect of each instruction, with operands at the edges of the widths. The values were worked out by a script over whole numbers.

use crate::checks::check_row;
use css_isa::{
    Asked, Conversion, Mark, Narrow, Op, ShiftWidth, Worked, byte_count, effect, goes_on, needed,
};
use std::mem::size_of;

// What an instruction does over a frame at 4096 with these cells, of which the top is the last; none where it lacks one.
fn worked(op: Op, cells: &[u64]) -> Option<Worked> {
    if goes_on(op) && needed(op) <= cells.len() as u64 {
        Some(effect(4096, op, cells))
    } else {
        None
    }
}

// The cell that is given for some; none at a fault.
fn given(op: Op, cells: &[u64]) -> Option<u64> {
    match worked(op, cells) {
        Some(Worked::Gives(_, cell)) => Some(cell),
        _ => None,
    }
}

// Two operands, the top second.
static PAIRS: [(u64, u64); 18] = [
    (0, 0),
    (0, 1),
    (1, 0),
    (1, 0xffff_ffff_ffff_ffff),
    (0xffff_ffff_ffff_ffff, 1),
    (0xffff_ffff_ffff_ffff, 0xffff_ffff_ffff_ffff),
    (127, 0xffff_ffff_ffff_ff80),
    (0xffff_ffff_ffff_ff80, 127),
    (255, 256),
    (0xffff_ffff_ffff_8000, 0x7fff),
    (0xffff, 0xffff_ffff_ffff_ffff),
    (0x7fff_ffff, 0x7fff_ffff),
    (0xffff_ffff_8000_0000, 0xffff_ffff_ffff_ffff),
    (0xffff_ffff, 0xffff_ffff),
    (0x7fff_ffff_ffff_ffff, 0x8000_0000_0000_0000),
    (0x8000_0000_0000_0000, 0xffff_ffff_ffff_ffff),
    (0x8000_0000_0000_0000, 0x7fff_ffff_ffff_ffff),
    (0x7fff_ffff_ffff_ffff, 2),
];

// What each instruction gives for these.
static OF_TWO: [(Op, [u64; 18]); 10] = [
    (
        Op::Add,
        [
            0,
            1,
            1,
            0,
            0,
            0xffff_ffff_ffff_fffe,
            0xffff_ffff_ffff_ffff,
            0xffff_ffff_ffff_ffff,
            511,
            0xffff_ffff_ffff_ffff,
            0xfffe,
            0xffff_fffe,
            0xffff_ffff_7fff_ffff,
            0x1_ffff_fffe,
            0xffff_ffff_ffff_ffff,
            0x7fff_ffff_ffff_ffff,
            0xffff_ffff_ffff_ffff,
            0x8000_0000_0000_0001,
        ],
    ),
    (
        Op::Sub,
        [
            0,
            0xffff_ffff_ffff_ffff,
            1,
            2,
            0xffff_ffff_ffff_fffe,
            0,
            255,
            0xffff_ffff_ffff_ff01,
            0xffff_ffff_ffff_ffff,
            0xffff_ffff_ffff_0001,
            0x1_0000,
            0,
            0xffff_ffff_8000_0001,
            0,
            0xffff_ffff_ffff_ffff,
            0x8000_0000_0000_0001,
            1,
            0x7fff_ffff_ffff_fffd,
        ],
    ),
    (
        Op::Mul,
        [
            0,
            0,
            0,
            0xffff_ffff_ffff_ffff,
            0xffff_ffff_ffff_ffff,
            1,
            0xffff_ffff_ffff_c080,
            0xffff_ffff_ffff_c080,
            0xff00,
            0xffff_ffff_c000_8000,
            0xffff_ffff_ffff_0001,
            0x3fff_ffff_0000_0001,
            0x8000_0000,
            0xffff_fffe_0000_0001,
            0x8000_0000_0000_0000,
            0x8000_0000_0000_0000,
            0x8000_0000_0000_0000,
            0xffff_ffff_ffff_fffe,
        ],
    ),
    (
        Op::And,
        [
            0,
            0,
            0,
            1,
            1,
            0xffff_ffff_ffff_ffff,
            0,
            0,
            0,
            0,
            0xffff,
            0x7fff_ffff,
            0xffff_ffff_8000_0000,
            0xffff_ffff,
            0,
            0x8000_0000_0000_0000,
            0,
            2,
        ],
    ),
    (
        Op::Or,
        [
            0,
            1,
            1,
            0xffff_ffff_ffff_ffff,
            0xffff_ffff_ffff_ffff,
            0xffff_ffff_ffff_ffff,
            0xffff_ffff_ffff_ffff,
            0xffff_ffff_ffff_ffff,
            511,
            0xffff_ffff_ffff_ffff,
            0xffff_ffff_ffff_ffff,
            0x7fff_ffff,
            0xffff_ffff_ffff_ffff,
            0xffff_ffff,
            0xffff_ffff_ffff_ffff,
            0xffff_ffff_ffff_ffff,
            0xffff_ffff_ffff_ffff,
            0x7fff_ffff_ffff_ffff,
        ],
    ),
    (
        Op::Xor,
        [
            0,
            1,
            1,
            0xffff_ffff_ffff_fffe,
            0xffff_ffff_ffff_fffe,
            0,
            0xffff_ffff_ffff_ffff,
            0xffff_ffff_ffff_ffff,
            511,
            0xffff_ffff_ffff_ffff,
            0xffff_ffff_ffff_0000,
            0,
            0x7fff_ffff,
            0,
            0xffff_ffff_ffff_ffff,
            0x7fff_ffff_ffff_ffff,
            0xffff_ffff_ffff_ffff,
            0x7fff_ffff_ffff_fffd,
        ],
    ),
    (
        Op::Eq,
        [1, 0, 0, 0, 0, 1, 0, 0, 0, 0, 0, 1, 0, 1, 0, 0, 0, 0],
    ),
    (
        Op::Ne,
        [0, 1, 1, 1, 1, 0, 1, 1, 1, 1, 1, 0, 1, 0, 1, 1, 1, 1],
    ),
    (
        Op::Lts,
        [0, 1, 0, 0, 1, 0, 0, 1, 1, 1, 0, 0, 1, 0, 0, 1, 1, 0],
    ),
    (
        Op::Ltu,
        [0, 1, 0, 1, 0, 0, 1, 0, 1, 0, 1, 0, 1, 0, 1, 1, 0, 0],
    ),
];

// What each division gives for these; 0 stands where the divisor is 0, and it is a fault.
static DIVIDED: [(Op, [u64; 18]); 4] = [
    (
        Op::Divs,
        [
            0,
            0,
            0,
            0xffff_ffff_ffff_ffff,
            0xffff_ffff_ffff_ffff,
            1,
            0,
            0xffff_ffff_ffff_ffff,
            0,
            0xffff_ffff_ffff_ffff,
            0xffff_ffff_ffff_0001,
            1,
            0x8000_0000,
            1,
            0,
            0x8000_0000_0000_0000,
            0xffff_ffff_ffff_ffff,
            0x3fff_ffff_ffff_ffff,
        ],
    ),
    (
        Op::Divu,
        [
            0,
            0,
            0,
            0,
            0xffff_ffff_ffff_ffff,
            1,
            0,
            0x204_0810_2040_8101,
            0,
            0x2_0004_0008_000f,
            0,
            1,
            0,
            1,
            0,
            0,
            1,
            0x3fff_ffff_ffff_ffff,
        ],
    ),
    (
        Op::Rems,
        [
            0,
            0,
            0,
            0,
            0,
            0,
            127,
            0xffff_ffff_ffff_ffff,
            255,
            0xffff_ffff_ffff_ffff,
            0,
            0,
            0,
            0,
            0x7fff_ffff_ffff_ffff,
            0,
            0xffff_ffff_ffff_ffff,
            1,
        ],
    ),
    (
        Op::Remu,
        [
            0,
            0,
            0,
            1,
            0,
            0,
            127,
            1,
            255,
            15,
            0xffff,
            0,
            0xffff_ffff_8000_0000,
            0,
            0x7fff_ffff_ffff_ffff,
            0x8000_0000_0000_0000,
            1,
            1,
        ],
    ),
];

// A cell, and a count on top.
static SHIFTED: [(u64, u64); 14] = [
    (1, 0),
    (1, 31),
    (1, 32),
    (1, 63),
    (1, 64),
    (0xffff_ffff_ffff_ffff, 31),
    (0xffff_ffff_ffff_ffff, 32),
    (0xffff_ffff_ffff_ffff, 63),
    (0xffff_ffff_ffff_ffff, 64),
    (0x8000_0000_0000_0000, 31),
    (0x8000_0000_0000_0000, 63),
    (0x7fff_ffff_ffff_ffff, 32),
    (0xffff_ffff_8000_0000, 31),
    (0xffff_ffff, 0xffff_ffff_ffff_ffff),
];

// What each shift gives for these.
static SHIFTS: [(Op, [u64; 14]); 6] = [
    (
        Op::Shl(ShiftWidth::W32),
        [
            1,
            0x8000_0000,
            1,
            0x8000_0000,
            1,
            0xffff_ffff_8000_0000,
            0xffff_ffff_ffff_ffff,
            0xffff_ffff_8000_0000,
            0xffff_ffff_ffff_ffff,
            0,
            0,
            0x7fff_ffff_ffff_ffff,
            0xc000_0000_0000_0000,
            0x7fff_ffff_8000_0000,
        ],
    ),
    (
        Op::Shrs(ShiftWidth::W32),
        [
            1,
            0,
            1,
            0,
            1,
            0xffff_ffff_ffff_ffff,
            0xffff_ffff_ffff_ffff,
            0xffff_ffff_ffff_ffff,
            0xffff_ffff_ffff_ffff,
            0xffff_ffff_0000_0000,
            0xffff_ffff_0000_0000,
            0x7fff_ffff_ffff_ffff,
            0xffff_ffff_ffff_ffff,
            1,
        ],
    ),
    (
        Op::Shru(ShiftWidth::W32),
        [
            1,
            0,
            1,
            0,
            1,
            0x1_ffff_ffff,
            0xffff_ffff_ffff_ffff,
            0x1_ffff_ffff,
            0xffff_ffff_ffff_ffff,
            0x1_0000_0000,
            0x1_0000_0000,
            0x7fff_ffff_ffff_ffff,
            0x1_ffff_ffff,
            1,
        ],
    ),
    (
        Op::Shl(ShiftWidth::W64),
        [
            1,
            0x8000_0000,
            0x1_0000_0000,
            0x8000_0000_0000_0000,
            1,
            0xffff_ffff_8000_0000,
            0xffff_ffff_0000_0000,
            0x8000_0000_0000_0000,
            0xffff_ffff_ffff_ffff,
            0,
            0,
            0xffff_ffff_0000_0000,
            0xc000_0000_0000_0000,
            0x8000_0000_0000_0000,
        ],
    ),
    (
        Op::Shrs(ShiftWidth::W64),
        [
            1,
            0,
            0,
            0,
            1,
            0xffff_ffff_ffff_ffff,
            0xffff_ffff_ffff_ffff,
            0xffff_ffff_ffff_ffff,
            0xffff_ffff_ffff_ffff,
            0xffff_ffff_0000_0000,
            0xffff_ffff_ffff_ffff,
            0x7fff_ffff,
            0xffff_ffff_ffff_ffff,
            0,
        ],
    ),
    (
        Op::Shru(ShiftWidth::W64),
        [
            1,
            0,
            0,
            0,
            1,
            0x1_ffff_ffff,
            0xffff_ffff,
            1,
            0xffff_ffff_ffff_ffff,
            0x1_0000_0000,
            1,
            0x7fff_ffff,
            0x1_ffff_ffff,
            0,
        ],
    ),
];

// One operand.
static CELLS: [u64; 14] = [
    0,
    1,
    0xffff_ffff_ffff_ffff,
    127,
    0xffff_ffff_ffff_ff80,
    255,
    0x7fff,
    0xffff_ffff_ffff_8000,
    0xffff,
    0x7fff_ffff,
    0xffff_ffff_8000_0000,
    0xffff_ffff,
    0x7fff_ffff_ffff_ffff,
    0x8000_0000_0000_0000,
];

// What each instruction gives for these.
static OF_ONE: [(Op, [u64; 14]); 8] = [
    (
        Op::Neg,
        [
            0,
            0xffff_ffff_ffff_ffff,
            1,
            0xffff_ffff_ffff_ff81,
            128,
            0xffff_ffff_ffff_ff01,
            0xffff_ffff_ffff_8001,
            0x8000,
            0xffff_ffff_ffff_0001,
            0xffff_ffff_8000_0001,
            0x8000_0000,
            0xffff_ffff_0000_0001,
            0x8000_0000_0000_0001,
            0x8000_0000_0000_0000,
        ],
    ),
    (
        Op::Not,
        [
            0xffff_ffff_ffff_ffff,
            0xffff_ffff_ffff_fffe,
            0,
            0xffff_ffff_ffff_ff80,
            127,
            0xffff_ffff_ffff_ff00,
            0xffff_ffff_ffff_8000,
            0x7fff,
            0xffff_ffff_ffff_0000,
            0xffff_ffff_8000_0000,
            0x7fff_ffff,
            0xffff_ffff_0000_0000,
            0x8000_0000_0000_0000,
            0x7fff_ffff_ffff_ffff,
        ],
    ),
    (
        Op::Conv(Narrow::U8),
        [0, 1, 255, 127, 128, 255, 255, 0, 255, 255, 0, 255, 255, 0],
    ),
    (
        Op::Conv(Narrow::S8),
        [
            0,
            1,
            0xffff_ffff_ffff_ffff,
            127,
            0xffff_ffff_ffff_ff80,
            0xffff_ffff_ffff_ffff,
            0xffff_ffff_ffff_ffff,
            0,
            0xffff_ffff_ffff_ffff,
            0xffff_ffff_ffff_ffff,
            0,
            0xffff_ffff_ffff_ffff,
            0xffff_ffff_ffff_ffff,
            0,
        ],
    ),
    (
        Op::Conv(Narrow::U16),
        [
            0, 1, 0xffff, 127, 0xff80, 255, 0x7fff, 0x8000, 0xffff, 0xffff, 0, 0xffff, 0xffff, 0,
        ],
    ),
    (
        Op::Conv(Narrow::S16),
        [
            0,
            1,
            0xffff_ffff_ffff_ffff,
            127,
            0xffff_ffff_ffff_ff80,
            255,
            0x7fff,
            0xffff_ffff_ffff_8000,
            0xffff_ffff_ffff_ffff,
            0xffff_ffff_ffff_ffff,
            0,
            0xffff_ffff_ffff_ffff,
            0xffff_ffff_ffff_ffff,
            0,
        ],
    ),
    (
        Op::Conv(Narrow::U32),
        [
            0,
            1,
            0xffff_ffff,
            127,
            0xffff_ff80,
            255,
            0x7fff,
            0xffff_8000,
            0xffff,
            0x7fff_ffff,
            0x8000_0000,
            0xffff_ffff,
            0xffff_ffff,
            0,
        ],
    ),
    (
        Op::Conv(Narrow::S32),
        [
            0,
            1,
            0xffff_ffff_ffff_ffff,
            127,
            0xffff_ffff_ffff_ff80,
            255,
            0x7fff,
            0xffff_ffff_ffff_8000,
            0xffff,
            0x7fff_ffff,
            0xffff_ffff_8000_0000,
            0xffff_ffff_ffff_ffff,
            0xffff_ffff_ffff_ffff,
            0,
        ],
    ),
];

// What an instruction gives for the cells 7, 8 and 9, of which 9 is on top.
static ALONE: [(Op, u64); 7] = [
    (Op::Push(0), 0),
    (Op::Push(-1), 0xffff_ffff_ffff_ffff),
    (Op::Push(-9_223_372_036_854_775_808), 0x8000_0000_0000_0000),
    (Op::Dup(0), 9),
    (Op::Dup(2), 7),
    (Op::Frame(0), 4096),
    (Op::Frame(4_294_967_295), 4_294_971_391),
];

fn are_given(op: Op, wanted: &[u64]) -> bool {
    let mut right = true;
    for ((a, b), want) in PAIRS.iter().zip(wanted.iter()) {
        right = right && given(op, &[5, *a, *b]) == Some(*want);
    }
    right
}

#[test]
fn two_cells(rt: HostRuntime) {
    for (row, (op, wanted)) in OF_TWO.iter().enumerate() {
        check_row(&rt, row, are_given(*op, wanted.as_slice()));
    }
}

fn are_divided(op: Op, wanted: &[u64]) -> bool {
    let mut right = true;
    for ((a, b), want) in PAIRS.iter().zip(wanted.iter()) {
        let result = given(op, &[5, *a, *b]);
        right = right
            && if *b == 0 {
                result == None
            } else {
                result == Some(*want)
            };
    }
    right
}

#[test]
fn divisions(rt: HostRuntime) {
    for (row, (op, wanted)) in DIVIDED.iter().enumerate() {
        check_row(&rt, row, are_divided(*op, wanted.as_slice()));
    }
}

fn are_shifted(op: Op, wanted: &[u64]) -> bool {
    let mut right = true;
    for ((a, b), want) in SHIFTED.iter().zip(wanted.iter()) {
        right = right && given(op, &[5, *a, *b]) == Some(*want);
    }
    right
}

#[test]
fn shifts(rt: HostRuntime) {
    for (row, (op, wanted)) in SHIFTS.iter().enumerate() {
        check_row(&rt, row, are_shifted(*op, wanted.as_slice()));
    }
}

fn are_made(op: Op, wanted: &[u64]) -> bool {
    let mut right = true;
    for (a, want) in CELLS.iter().zip(wanted.iter()) {
        right = right && given(op, &[5, *a]) == Some(*want);
    }
    right
}

#[test]
fn one_cell(rt: HostRuntime) {
    for (row, (op, wanted)) in OF_ONE.iter().enumerate() {
        check_row(&rt, row, are_made(*op, wanted.as_slice()));
    }
}

#[test]
fn no_cell(rt: HostRuntime) {
    for (row, (op, want)) in ALONE.iter().enumerate() {
        check_row(&rt, row, given(*op, &[7, 8, 9]) == Some(*want));
    }
}

// What is asked with the cells 2^32 + 4096 and 2^64 - 2, of which the second is on top, as numbers: bytes of a load, of a store with
// 10 more, and then the others from 30 on.
static ASKED: [(Op, u64); 21] = [
    (Op::Load8u, 1),
    (Op::Load8s, 1),
    (Op::Load16u, 2),
    (Op::Load16s, 2),
    (Op::Load32u, 4),
    (Op::Load32s, 4),
    (Op::Load64, 8),
    (Op::Store8, 11),
    (Op::Store16, 12),
    (Op::Store32, 14),
    (Op::Store64, 18),
    (Op::Out(Conversion::Char), 30),
    (Op::In, 31),
    (Op::Malloc, 32),
    (Op::Turn, 33),
    (Op::Mark(Mark::Start), 34),
    (Op::Mark(Mark::Finish), 35),
    (Op::Mark(Mark::Barrier), 36),
    (Op::Mark(Mark::Wait), 37),
    (Op::Drop, 40),
    (Op::Swap, 41),
];

fn number_of(asked: Asked) -> u64 {
    match asked {
        Asked::Load(4_294_967_294, width, _) => byte_count(width) as u64,
        Asked::Store(4096, width, 0xffff_ffff_ffff_fffe) => 10 + byte_count(width) as u64,
        Asked::Out(Conversion::Char, 0xffff_ffff_ffff_fffe) => 30,
        Asked::In => 31,
        Asked::Malloc(4_294_967_294) => 32,
        Asked::Turn => 33,
        Asked::Start => 34,
        Asked::Finish => 35,
        Asked::Barrier => 36,
        Asked::Wait(4_294_967_294) => 37,
        _ => 99,
    }
}

fn number(op: Op) -> u64 {
    match worked(op, &[0x1_0000_1000, 0xffff_ffff_ffff_fffe]) {
        Some(Worked::Asks(_, asked)) => number_of(asked),
        Some(Worked::Drops) => 40,
        Some(Worked::Swaps) => 41,
        _ => 98,
    }
}

#[test]
fn what_is_asked(rt: HostRuntime) {
    for (row, (op, want)) in ASKED.iter().enumerate() {
        check_row(&rt, row, number(*op) == *want);
    }
}

#[test]
fn instructions_are_small(rt: HostRuntime) {
    check_row(&rt, 0, size_of::<Op>() <= 16);
}
