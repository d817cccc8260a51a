//! Accesses, frames and limits of the memory.

use super::codes::{OUTSIDE, SIZE};
use css_base::{Rule, Stop};
use css_mem::MainMemory;
use css_record::Window;
use css_vm::{Space, Width};
use std::process::Abort;
use std::test::Fail;

const PASSED: Stop = Stop::Rule(Rule::MainStack);

// Numbers lie with their highest byte first, and an access is live from the stack's first byte to the memory's end.
#[test]
fn accesses(rt: HostRuntime) -> Result<(), Fail> {
    let mut memory = MainMemory::new(rt.alloc(), SIZE, true)?;
    assert_eq!(&rt; memory.push_frame(16), Ok(2_097_136));
    memory.store(2_097_136, Width::W64, 0x0102_0304_0506_0708)?;
    memory.store(2_097_144, Width::W16, 0xf_fffe)?;
    memory.store(2_097_151, Width::W8, 0x1ff)?;
    for (address, width, value) in [
        (2_097_136, Width::W8, Ok(1)),
        (2_097_136, Width::W16, Ok(0x0102)),
        (2_097_139, Width::W32, Ok(0x0405_0607)),
        (2_097_144, Width::W32, Ok(0xfffe_0000)),
        (2_097_144, Width::W64, Ok(0xfffe_0000_0000_00ff)),
        (2_097_151, Width::W8, Ok(0xff)),
        (2_097_135, Width::W8, Err(OUTSIDE)),
        (2_097_145, Width::W64, Err(OUTSIDE)),
        (2_097_152, Width::W8, Err(OUTSIDE)),
        (4_096, Width::W8, Err(OUTSIDE)),
        (4_294_967_295, Width::W64, Err(OUTSIDE)),
    ] {
        assert_eq!(&rt; memory.load(address, width), value);
    }
    assert_eq!(&rt; memory.store(2_097_149, Width::W32, 0), Err(OUTSIDE));
    Ok(())
}

// An entry lowers the stack place by the frame's size, and a leaving raises it again. A frame is zeroed each time it is entered.
#[test]
fn frames(rt: HostRuntime) -> Result<(), Fail> {
    let mut memory = MainMemory::new(rt.alloc(), SIZE, false)?;
    assert_eq!(&rt; memory.pop_frame(0), Err(OUTSIDE));
    assert_eq!(&rt; memory.push_frame(16), Ok(2_097_136));
    memory.store(2_097_136, Width::W64, 5)?;
    assert_eq!(&rt; memory.push_frame(8), Ok(2_097_128));
    memory.store(2_097_128, Width::W64, 7)?;
    memory.pop_frame(8)?;
    assert_eq!(&rt; memory.load(2_097_128, Width::W64), Err(OUTSIDE));
    assert_eq!(&rt; memory.push_frame(8), Ok(2_097_128));
    assert_eq!(&rt; memory.load(2_097_128, Width::W64), Ok(0));
    assert_eq!(&rt; memory.load(2_097_136, Width::W64), Ok(5));
    assert_eq!(&rt; memory.pop_frame(32), Err(OUTSIDE));
    memory.pop_frame(8)?;
    memory.pop_frame(16)?;
    assert_eq!(&rt; memory.pop_frame(0), Err(OUTSIDE));
    Ok(())
}

// With `plain` the stack may have 1,064,960 bytes and 33,792 open calls, else 1,048,576 bytes and 32,768.
#[test]
fn limits(rt: HostRuntime) -> Result<(), Fail> {
    for (plain, bytes, calls) in [(true, 1_064_960, 33_792), (false, 1_048_576, 32_768)] {
        let mut memory = MainMemory::new(rt.alloc(), SIZE, plain)?;
        assert_eq!(&rt; memory.push_frame(bytes + 1), Err(PASSED));
        assert_eq!(&rt; memory.push_frame(bytes), Ok(SIZE - bytes));
        assert_eq!(&rt; memory.push_frame(1), Err(PASSED));
        for _ in 1..calls {
            memory.push_frame(0)?;
        }
        assert_eq!(&rt; memory.push_frame(0), Err(PASSED));
        memory.pop_frame(0)?;
        assert_eq!(&rt; memory.push_frame(0), Ok(SIZE - bytes));
    }
    Ok(())
}

// Rows are written and copied in order, and what lies between them stays.
#[test]
fn windows(rt: HostRuntime) -> Result<(), Fail> {
    let mut memory = MainMemory::new(rt.alloc(), SIZE, false)?;
    memory.push_frame(16)?;
    let part = Window {
        base: 2_097_137,
        rows: 2,
        width: 3,
        stride: 8,
    };
    memory.write_back(part, &[1, 2, 3, 4, 5, 6]);
    let bytes = memory.snapshot(rt.alloc(), part)?;
    assert_eq!(&rt; bytes.bytes(), [1, 2, 3, 4, 5, 6].as_slice());
    assert_eq!(&rt;
        memory.load(2_097_136, Width::W64),
        Ok(0x0001_0203_0000_0000)
    );
    assert_eq!(&rt;
        memory.load(2_097_144, Width::W64),
        Ok(0x0004_0506_0000_0000)
    );
    assert_eq!(&rt; memory.place(), 2_097_136);
    assert_eq!(&rt; memory.has(2_097_148, 4), true);
    assert_eq!(&rt; memory.has(2_097_149, 4), false);
    Ok(())
}
