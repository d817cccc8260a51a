//! Windows that are copied out and back row by row, and marked on pages.
ghost use Rattle.std.specs.Prelude.{◌≤◌, ◌^◌};

use crate::codes::{LIMITS, zeros};
use css_base::NoMemory;
use css_memory::{Input, MainMemory};
use css_record::Window;
use std::alloc::Global;
use std::test::Fail;

// Whether so many bytes from an address touch a page while one row of zeros is marked, and whether they do afterwards; none where
// the row isn't live.
fn touched(
    alloc: Global,
    globals_end: u32,
    row: (u32, u32),
    address: u32,
    count: u32,
) -> Result<Option<(bool, bool)>, NoMemory>
    requires globals { (4096 ≤ globals_end) × (globals_end ≤ 65536) }
    requires row { (1 ≤ row.1) × (row.1 ≤ 2 ^ 30) }
{
    let code = zeros(alloc, globals_end);
    let mut memory = MainMemory::new(alloc, &code, &LIMITS, false)?;
    if !memory.live(row.0, row.1) {
        return Ok(None);
    }
    memory.mark_pages(Window::plain(row.0, row.1), true);
    let during = memory.touches(address, count);
    memory.mark_pages(Window::plain(row.0, row.1), false);
    Ok(Some((during, memory.touches(address, count))))
}

// Three rows of two bytes, five bytes apart.
#[test]
fn rows(rt: HostRuntime) -> Result<(), Fail> {
    let code = zeros(rt.alloc(), 4_112);
    let mut memory = MainMemory::new(rt.alloc(), &code, &LIMITS, false)?;
    let part = Window {
        base: 4_097,
        rows: 3,
        width: 2,
        stride: 5,
    };
    memory.write_back(part, &[1, 2, 3, 4, 5, 6]);
    assert_eq!(&rt;
        memory.globals(),
        [0, 1, 2, 0, 0, 0, 3, 4, 0, 0, 0, 5, 6, 0, 0, 0].as_slice()
    );
    assert!(&rt; memory.live(4_097, 2) && memory.live(4_102, 2) && memory.live(4_107, 2));
    let bytes = memory.snapshot(rt.alloc(), part)?;
    assert_eq!(&rt; bytes.bytes(), [1, 2, 3, 4, 5, 6].as_slice());
    let row = Window::plain(4_101, 3);
    assert!(&rt; memory.live(4_101, 3));
    let row = memory.snapshot(rt.alloc(), row)?;
    assert_eq!(&rt; row.bytes(), [0, 3, 4].as_slice());
    Ok(())
}

// The input's bytes, and then -1.
#[test]
fn input(rt: HostRuntime) -> Result<(), Fail> {
    let mut input = Input::new(b"\x00\xff");
    for byte in [0, 255, u64::MAX, u64::MAX] {
        assert_eq!(&rt; input.read_byte(), byte);
    }
    Ok(())
}

// A page is touched as long as a window that is marked has a byte on it.
#[test]
fn pages(rt: HostRuntime) -> Result<(), Fail> {
    for (address, count, during) in [
        (4_095, 1, false),
        (4_095, 2, true),
        (4_096, 0, false),
        (12_287, 1, true),
        (12_288, 8, false),
        (0, 4_294_967_295, true),
        (4_294_967_295, 4_294_967_295, false),
    ] {
        let answer = touched(rt.alloc(), 16_384, (8_190, 4), address, count)?;
        assert_eq!(&rt; answer, Some((during, false)));
    }
    Ok(())
}
