//! Each public call once, at values from the table of limits and the lists of rules.

use crate::checks::{check, check_row};
use css_base::{Buffer, Bytes, FaultKind, Limits, Line, NoMemory, Rule, StaticName, Words};
use std::alloc::Global;

const DEFAULT: Limits = Limits::DEFAULT;

// Limits at their ends and one past them, over the defaults, and whether they are in range.
static LIMITS: [(Limits, bool); 12] = [
    (
        Limits {
            workers: 0,
            ..DEFAULT
        },
        false,
    ),
    (
        Limits {
            workers: 16,
            ..DEFAULT
        },
        true,
    ),
    (
        Limits {
            workers: 17,
            ..DEFAULT
        },
        false,
    ),
    (
        Limits {
            bundle: 9,
            ..DEFAULT
        },
        false,
    ),
    (
        Limits {
            local_store: 32_768,
            ..DEFAULT
        },
        true,
    ),
    (
        Limits {
            local_store: 32_896,
            ..DEFAULT
        },
        true,
    ),
    (
        Limits {
            local_store: 32_832,
            ..DEFAULT
        },
        false,
    ),
    (
        Limits {
            memory: 2_097_151,
            ..DEFAULT
        },
        false,
    ),
    (
        Limits {
            memory: 268_435_456,
            ..DEFAULT
        },
        true,
    ),
    (
        Limits {
            main_units: 1_099_511_627_776,
            ..DEFAULT
        },
        true,
    ),
    (
        Limits {
            main_units: 1_099_511_627_777,
            ..DEFAULT
        },
        false,
    ),
    (
        Limits {
            task_units: 0,
            ..DEFAULT
        },
        false,
    ),
];

#[test]
fn limits_have_ranges(rt: HostRuntime) {
    check(&rt, "defaults", DEFAULT.is_in_range());
    for (row, (limits, want)) in LIMITS.iter().enumerate() {
        check_row(&rt, row, limits.is_in_range() == *want);
    }
}

#[test]
fn labels_have_number_and_name(rt: HostRuntime) {
    check(&rt, "S0", StaticName::NotBuilt.label() == "S0 NotBuilt");
    check(&rt, "S7", StaticName::NoMain.label() == "S7 NoMain");
    check(&rt, "S24", StaticName::TooBig.label() == "S24 TooBig");
    check(&rt, "X1", Rule::StartTwice.label() == "X1 StartTwice");
    check(&rt, "X16", Rule::BadWait.label() == "X16 BadWait");
    check(
        &rt,
        "fault",
        FaultKind::DivideByZero.label() == "DivideByZero",
    );
}

fn bytes_are_kept(alloc: Global) -> Result<bool, NoMemory> {
    let bytes = Bytes::new(Vec::from_slice(alloc, b"abc")?);
    let are_at_first = bytes.as_slice() == b"abc".as_slice();
    let ready = bytes.into_shared(alloc)?;
    let again = ready.share()?.into_vec()?;
    let own = ready.into_vec()?;
    Ok(are_at_first && own.as_slice() == b"abc".as_slice() && again.as_slice() == b"abc".as_slice())
}

fn buffers_are_kept(alloc: Global) -> Result<bool, NoMemory> {
    let buffer = Buffer::new(alloc, Vec::from_slice(alloc, b"abc")?)?;
    let shared = buffer.share()?;
    drop(buffer);
    Ok(shared.bytes() == b"abc".as_slice())
}

fn words_are_kept(alloc: Global) -> Result<bool, NoMemory> {
    let words = Words::new(vec![in alloc; String::from_str(alloc, "cssrun")?]?);
    Ok(words.as_slice().len() == 1 && words.as_slice()[0].as_str() == "cssrun")
}

#[test]
fn values_are_kept(rt: HostRuntime) -> Result<(), NoMemory> {
    let alloc = rt.alloc();
    check(&rt, "line", Line::new(7).number() == 7);
    check(&rt, "bytes", bytes_are_kept(alloc)?);
    check(&rt, "buffers", buffers_are_kept(alloc)?);
    check(&rt, "words", words_are_kept(alloc)?);
    Ok(())
}
