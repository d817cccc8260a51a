//! Loads and stores in globals, heap and stack, and from one to the next.

use crate::codes::{LIMITS, given, zeros};
use css_base::{FaultKind, Rule, Stop};
use css_isa::{Space, Width};
use css_memory::MainMemory;
use std::test::Fail;

const OUTSIDE: Stop = Stop::Fault(FaultKind::OutsideMemory);

const DEEP: Stop = Stop::Rule(Rule::MainStack);

static OF_GLOBALS: [(u32, Width, Result<u64, Stop>); 8] = [
    (4_095, Width::W8, Err(OUTSIDE)),
    (4_095, Width::W16, Err(OUTSIDE)),
    (4_096, Width::W32, Ok(0x0000_0102)),
    (4_098, Width::W32, Ok(0x0102_0308)),
    (4_098, Width::W64, Ok(0x0102_0308_0000_0000)),
    (4_099, Width::W64, Err(OUTSIDE)),
    (4_105, Width::W8, Ok(0)),
    (4_106, Width::W8, Err(OUTSIDE)),
];

// The globals have their first bytes, and between them and the heap nothing is live.
#[test]
fn globals(rt: HostRuntime) -> Result<(), Fail> {
    let code = given(rt.alloc())?;
    let mut memory = MainMemory::new(rt.alloc(), &code, &LIMITS, false)?;
    assert_eq!(&rt; memory.globals(), [0, 0, 1, 2, 3, 8, 0, 0, 0, 0].as_slice());
    assert_eq!(&rt; memory.malloc(16), 4_112);
    for (address, width, value) in OF_GLOBALS {
        assert_eq!(&rt; memory.load(address, width), value);
    }
    assert_eq!(&rt; memory.store(4_104, Width::W16, 0x1_0203), Ok(()));
    assert_eq!(&rt; memory.store(4_105, Width::W16, 0x1_0203), Err(OUTSIDE));
    assert_eq!(&rt; memory.load(4_102, Width::W32), Ok(0x0000_0203));
    assert!(&rt; memory.live(4_096, 10));
    assert!(&rt; !memory.live(4_096, 11));
    assert!(&rt; memory.live(4_107, 0));
    Ok(())
}

// The heap grows by multiples of 16 up to its end, which is 1,064,960 bytes below the memory's.
#[test]
fn heap(rt: HostRuntime) -> Result<(), Fail> {
    let code = given(rt.alloc())?;
    let mut memory = MainMemory::new(rt.alloc(), &code, &LIMITS, false)?;
    for (length, address) in [
        (0, 0),
        (1, 4_112),
        (17, 4_128),
        (4_294_967_295, 0),
        (1_028_033, 0),
        (1_028_032, 4_160),
        (1, 0),
    ] {
        assert_eq!(&rt; memory.malloc(length), address);
    }
    assert_eq!(&rt; memory.heap().len(), 1_028_080);
    let layout = memory.layout();
    assert_eq!(&rt; (layout.globals_end, layout.heap_start), (4_106, 4_112));
    assert_eq!(&rt;
        (layout.heap_top, layout.stack_place, layout.end),
        (1_032_192, 2_097_152, 2_097_152)
    );
    for (address, width, value) in [
        (4_111, Width::W8, Err(OUTSIDE)),
        (4_112, Width::W64, Ok(0)),
        (1_032_184, Width::W64, Ok(0)),
        (1_032_185, Width::W64, Err(OUTSIDE)),
        (1_032_191, Width::W8, Ok(0)),
        (1_032_192, Width::W8, Err(OUTSIDE)),
    ] {
        assert_eq!(&rt; memory.load(address, width), value);
    }
    assert_eq!(&rt; memory.store(1_032_188, Width::W32, 0x0102_0304), Ok(()));
    assert_eq!(&rt; memory.load(1_032_190, Width::W16), Ok(0x0304));
    Ok(())
}

// Frames are of zeros, and end where the memory does; what is left isn't live any more.
#[test]
fn stack(rt: HostRuntime) -> Result<(), Fail> {
    let code = zeros(rt.alloc(), 4_096);
    let mut memory = MainMemory::new(rt.alloc(), &code, &LIMITS, false)?;
    assert_eq!(&rt; memory.pop_frame(0), Err(OUTSIDE));
    assert_eq!(&rt; memory.push_frame(1_048_577), Err(DEEP));
    assert_eq!(&rt; memory.push_frame(16), Ok(2_097_136));
    assert_eq!(&rt; memory.place(), 2_097_136);
    for (address, width, value) in [
        (2_097_135, Width::W8, Err(OUTSIDE)),
        (2_097_136, Width::W64, Ok(0)),
        (2_097_144, Width::W64, Ok(0)),
        (2_097_145, Width::W64, Err(OUTSIDE)),
        (2_097_152, Width::W8, Err(OUTSIDE)),
        (4_294_967_295, Width::W8, Err(OUTSIDE)),
        (4_294_967_295, Width::W64, Err(OUTSIDE)),
    ] {
        assert_eq!(&rt; memory.load(address, width), value);
    }
    assert_eq!(&rt; memory.store(2_097_148, Width::W32, 0x0102_0304), Ok(()));
    assert_eq!(&rt; memory.load(2_097_144, Width::W64), Ok(0x0102_0304));
    assert_eq!(&rt; memory.stack().len(), 16);
    assert_eq!(&rt; memory.pop_frame(17), Err(OUTSIDE));
    assert_eq!(&rt; memory.pop_frame(16), Ok(()));
    assert_eq!(&rt; memory.load(2_097_148, Width::W32), Err(OUTSIDE));
    assert_eq!(&rt; memory.push_frame(16), Ok(2_097_136));
    assert_eq!(&rt; memory.load(2_097_148, Width::W32), Ok(0));
    assert_eq!(&rt; memory.push_frame(1_048_560), Ok(1_048_576));
    assert_eq!(&rt; memory.push_frame(0), Ok(1_048_576));
    assert_eq!(&rt; memory.push_frame(1), Err(DEEP));
    Ok(())
}

// Where one part ends where the next one begins, accesses go from the one to the other.
#[test]
fn borders(rt: HostRuntime) -> Result<(), Fail> {
    let code = zeros(rt.alloc(), 4_112);
    let mut memory = MainMemory::new(rt.alloc(), &code, &LIMITS, true)?;
    assert_eq!(&rt; memory.malloc(1_028_080), 4_112);
    assert_eq!(&rt; memory.push_frame(1_064_960), Ok(1_032_192));
    for (address, inner) in [(4_108, 4_111), (1_032_188, 1_032_191)] {
        assert_eq!(&rt;
            memory.store(address, Width::W64, 0x0102_0304_0506_0708),
            Ok(())
        );
        assert_eq!(&rt; memory.load(address, Width::W64), Ok(0x0102_0304_0506_0708));
        assert_eq!(&rt; memory.load(inner, Width::W16), Ok(0x0405));
    }
    assert_eq!(&rt; memory.globals().len(), 16);
    assert!(&rt; memory.live(1_032_188, 8));
    assert!(&rt; !memory.live(4_095, 2));
    assert_eq!(&rt; memory.push_frame(1), Err(DEEP));
    assert_eq!(&rt; memory.pop_frame(1_064_960), Ok(()));
    assert_eq!(&rt; memory.load(1_032_188, Width::W64), Err(OUTSIDE));
    Ok(())
}
