//! Tests of main's memory under the rules.

use css_base::{FaultKind, Limits, Rule, Stop};
use css_judged::JudgedMemory;
use css_record::Window;
use css_vm::{Space, Width};
use std::test::Fail;

const LIMITS: Limits = Limits {
    workers: 8,
    bundle: 8,
    local_store: 262_144,
    memory: 2_097_152,
    main_units: 4_294_967_296,
    task_units: 268_435_456,
};

const OUTSIDE: Stop = Stop::Fault(FaultKind::OutsideMemory);

const PENDING: Stop = Stop::Rule(Rule::Unsynchronised);

// A window may be given that is live, and equal to each pending object that it meets.
#[test]
fn calls(rt: HostRuntime) -> Result<(), Fail> {
    let mut memory = JudgedMemory::new(rt.alloc(), &LIMITS)?;
    assert_eq!(&rt; memory.push_frame(16), Ok(2_097_136));
    assert_eq!(&rt; memory.place(), 2_097_136);
    memory.add(rt.alloc(), 2_097_140)?;
    memory.add(rt.alloc(), 2_097_140)?;
    for (base, verdict) in [
        (2_097_135, Err(Rule::DeadArgument)),
        (2_097_136, Ok(())),
        (2_097_137, Err(Rule::PartialOverlap)),
        (2_097_140, Ok(())),
        (2_097_143, Err(Rule::PartialOverlap)),
        (2_097_144, Ok(())),
        (2_097_149, Err(Rule::DeadArgument)),
        (4_294_967_295, Err(Rule::DeadArgument)),
    ] {
        assert_eq!(&rt; memory.judge(&LIMITS, base), verdict);
    }
    Ok(())
}

// Main may neither load nor store a pending byte, nor leave its frame, until it waits.
#[test]
fn accesses(rt: HostRuntime) -> Result<(), Fail> {
    let mut memory = JudgedMemory::new(rt.alloc(), &LIMITS)?;
    memory.push_frame(16)?;
    let part = Window::plain(2_097_140, 4);
    memory.write_back(part, &[0, 0, 1, 2]);
    let bytes = memory.snapshot(rt.alloc(), part)?;
    assert_eq!(&rt; bytes.bytes(), [0, 0, 1, 2].as_slice());
    memory.add(rt.alloc(), 2_097_140)?;
    for (address, width, value) in [
        (2_097_136, Width::W32, Ok(0)),
        (2_097_136, Width::W64, Err(PENDING)),
        (2_097_137, Width::W32, Err(PENDING)),
        (2_097_143, Width::W8, Err(PENDING)),
        (2_097_144, Width::W64, Ok(0)),
        (2_097_135, Width::W8, Err(OUTSIDE)),
    ] {
        assert_eq!(&rt; memory.load(address, width), value);
    }
    assert_eq!(&rt; memory.store(2_097_139, Width::W16, 3), Err(PENDING));
    assert_eq!(&rt; memory.store(2_097_138, Width::W16, 3), Ok(()));
    assert_eq!(&rt; memory.push_frame(8), Ok(2_097_128));
    assert_eq!(&rt; memory.pop_frame(8), Ok(()));
    assert_eq!(&rt; memory.pop_frame(16), Err(PENDING));
    memory.settle();
    assert_eq!(&rt;
        memory.load(2_097_136, Width::W64),
        Ok(0x0000_0003_0000_0102)
    );
    assert_eq!(&rt; memory.pop_frame(16), Ok(()));
    assert_eq!(&rt;
        memory.push_frame(1_048_577),
        Err(Stop::Rule(Rule::MainStack))
    );
    assert_eq!(&rt; memory.push_frame(1_048_576), Ok(1_048_576));
    Ok(())
}
