//! Tests of a task by itself.

use crate::codes::{adding_code, call, given};
use css_base::{NoMemory, Rule, Stop};
use css_record::VersionName;
use css_task::{SharedEnd, run_shared};
use std::alloc::Global;
use std::process::Abort;
use std::test::Fail;

// What it comes to where the window has 5.
fn end(alloc: Global, offset: i64, units: u64) -> Result<SharedEnd, NoMemory> {
    let code = adding_code(alloc, offset)?;
    let task = call(alloc, 0, VersionName::Given(0))?;
    let inputs = given(alloc, 5)?;
    run_shared(alloc, &code, &task, &inputs, units)
}

#[test]
fn outs(rt: HostRuntime) -> Result<(), Fail> {
    let SharedEnd::Outs(outs) = end(rt.alloc(), 0, 1)? else {
        panic!(&rt; "it stops");
    };
    let [out] = outs.as_slice() else {
        panic!(&rt; "it has another number of outs");
    };
    assert_eq!(&rt; out.bytes(), [0, 0, 0, 6].as_slice());
    Ok(())
}

// An access that isn't wholly in the window or a frame, in its line; and an entry without a unit, in the call's.
#[test]
fn stops(rt: HostRuntime) -> Result<(), Fail> {
    for (offset, units, rule, line) in [
        (1, 1, Rule::OutsideArguments, 7),
        (-1, 1, Rule::OutsideArguments, 7),
        (0, 0, Rule::Units, 3),
    ] {
        let SharedEnd::Stopped { stop, line: at } = end(rt.alloc(), offset, units)? else {
            panic!(&rt; "it doesn't stop");
        };
        assert_eq!(&rt; (stop, at.number()), (Stop::Rule(rule), line));
    }
    Ok(())
}
