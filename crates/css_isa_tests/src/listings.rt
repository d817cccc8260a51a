//! Listings that are read and written, and texts that are none, each with its first line that can't follow.

use crate::checks::check_row;
use css_isa::Code;
use css_listing::{ListingFault, listing, read_listing};
use std::alloc::Global;

// Texts, and the first line that can't follow; 0 where the text is a listing.
static TEXTS: [(&str, u64); 34] = [
    ("code 4096 0\nfunction main 0\ni 1 push 0\ni 1 ret\n", 0),
    (
        "code 4096 0\nfunction main 0\ni 1 push 0\ni 1 ret\ncode 4096 0\n",
        5,
    ),
    ("code 4096 0\n", 0),
    ("code 4294967295 4294967295\n", 0),
    ("", 1),
    ("\n", 1),
    ("code 4096 0", 1),
    ("code 4096 0\n\n", 2),
    ("code 04096 0\n", 1),
    ("code 4294967296 0\n", 1),
    ("code 4096  0\n", 1),
    ("code 4096 0 \n", 1),
    ("code 4100 0\ndata 4096 00ff7a80\ndata 4096 01\n", 0),
    ("code 4100 0\ndata 4096 00FF\n", 2),
    ("code 4100 0\ndata 4096 0\n", 2),
    ("code 4100 0\ndata 4096 \n", 2),
    ("code 4096 0\nfunction f 0\ndata 4096 00\n", 3),
    ("code 4096 0\nfunction _a1 16 8 16 32 64\n", 0),
    ("code 4096 0\nfunction 1a 16\n", 2),
    ("code 4096 0\nfunction a 16 24\n", 2),
    ("code 4096 0\ntask plain\n", 2),
    (
        "code 4096 0\nfunction f 0 32 32\ntask high s inout:4:0\ni 1 ret\n",
        0,
    ),
    (
        "code 4096 0\nfunction f 0 32\ntask plain in:4:s\nfunction g 0\n",
        0,
    ),
    ("code 4096 0\nfunction f 0\ntask plain\ntask plain\n", 4),
    ("code 4096 0\nfunction f 0\ni 1 ret\ntask plain\n", 4),
    ("code 4096 0\nfunction f 0\ntask plain in:4\n", 3),
    ("code 4096 0\nfunction f 0\ni 0 ret\n", 3),
    (
        "code 4096 0\nfunction f 0\ni 1 push -9223372036854775808\ni 1 push 9223372036854775807\n",
        0,
    ),
    ("code 4096 0\nfunction f 0\ni 1 push -0\n", 3),
    (
        "code 4096 0\nfunction f 0\ni 1 push 9223372036854775808\n",
        3,
    ),
    ("code 4096 0\nfunction f 0\ni 1 conv u64\n", 3),
    ("code 4096 0\nfunction f 0\ni 1 mark 8\n", 3),
    ("code 4096 0\nfunction f 0\ni 1 ret 0\n", 3),
    ("code 4096 0\nfunction f 0\ni 1 jump\n", 3),
];

// Each instruction with each of its small operands.
static ALL: &str = "code 4096 0
function main 0
i 1 push -1
i 2 drop
i 3 dup 4294967295
i 4 swap
i 5 frame 8
i 6 load8u
i 6 load8s
i 6 load16u
i 6 load16s
i 6 load32u
i 6 load32s
i 6 load64
i 7 store8
i 7 store16
i 7 store32
i 7 store64
i 8 add
i 8 sub
i 8 mul
i 8 and
i 8 or
i 8 xor
i 9 neg
i 9 not
i 10 divs
i 10 divu
i 10 rems
i 10 remu
i 11 shl 32
i 11 shl 64
i 11 shrs 32
i 11 shrs 64
i 11 shru 32
i 11 shru 64
i 12 eq
i 12 ne
i 12 lts
i 12 ltu
i 13 conv u8
i 13 conv s8
i 13 conv u16
i 13 conv s16
i 13 conv u32
i 13 conv s32
i 14 jump 0
i 14 jumpz 1
i 15 call 0
i 15 ret
i 16 turn
i 17 submit 0
i 18 mark 0
i 18 mark 1
i 18 mark 2
i 18 mark 3
i 18 mark 4
i 18 mark 5
i 18 mark 6
i 18 mark 7
i 19 out c
i 19 out d
i 19 out u
i 19 out x
i 19 out q
i 20 in
i 4294967295 malloc
";

// The first line that can't follow; 0 where the text is read and written as it was.
fn bad_line(alloc: Global, text: &str) -> Option<u64> {
    match read_listing(alloc, text.as_bytes()) {
        Ok(code) => rewritten(alloc, &code, text),
        Err(ListingFault::Bad(line)) => Some(line),
        Err(ListingFault::NoMemory) => None,
    }
}

fn rewritten(alloc: Global, code: &Code, text: &str) -> Option<u64> {
    match listing(alloc, code) {
        Ok(written) => {
            if written.as_slice() == text.as_bytes() {
                Some(0)
            } else {
                None
            }
        }
        Err(_) => None,
    }
}

#[test]
fn texts(rt: HostRuntime) {
    for (row, (text, line)) in TEXTS.iter().enumerate() {
        check_row(&rt, row, bad_line(rt.alloc(), text) == Some(*line));
    }
}

#[test]
fn each_instruction(rt: HostRuntime) {
    check_row(&rt, 0, bad_line(rt.alloc(), ALL) == Some(0));
}
