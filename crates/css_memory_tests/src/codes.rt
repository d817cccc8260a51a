//! Codes with globals alone.
ghost use Rattle.std.specs.Prelude.{◌≡◌, [], IfOk};

use css_base::{Bytes, Limits, NoMemory};
use css_isa::{Code, Datum, Items};
use std::alloc::Global;

/// A memory of 2 MiB.
pub(crate) const LIMITS: Limits = Limits {
    workers: 8,
    bundle: 8,
    local_store: 262_144,
    memory: 2_097_152,
    main_units: 4_294_967_296,
    task_units: 268_435_456,
};

/// A code whose globals end at an address, with zeros alone.
pub(crate) fn zeros(alloc: Global, globals_end: u32) -> Code
    ensures end { result.globals_end ≡ globals_end }
    ensures datums { result.datums ≡ [] }
{
    Code {
        globals_end,
        datums: Items::none(alloc),
        functions: Items::none(alloc),
        main: 0,
    }
}

/// One with ten bytes of globals, of which two data give some; the byte at 4,100 is given by both.
pub(crate) fn given(alloc: Global) -> Result<Code, NoMemory>
    ensures { IfOk result (λ c. c.globals_end ≡ 4106) }
{
    let first = Bytes::new(Vec::from_slice(alloc, &[1, 2, 3])?);
    let second = Bytes::new(Vec::from_slice(alloc, &[7, 8])?);
    let datums = Items::none(alloc)
        .with(Datum {
            address: 4_098,
            bytes: first,
        })?
        .with(Datum {
            address: 4_100,
            bytes: second,
        })?;
    Ok(Code {
        globals_end: 4_106,
        datums,
        functions: Items::none(alloc),
        main: 0,
    })
}
