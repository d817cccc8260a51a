//! The globals' first bytes.
ghost use Rattle.std.specs.Prelude.{◌≡◌, ◌≤◌, map, vec_capacity, IfOk};
ghost use Rattle.css_isa.specs.Code.{datum};
ghost use Rattle.css_memory.specs.Starts.{first_bytes};

use crate::main_memory::FIRST;
use crate::overlay::overlay;
use css_base::NoMemory;
use css_isa::Datum;
use std::alloc::Global;

/// So many bytes from the first global on, with room for more.
pub(crate) fn first_bytes(
    alloc: Global,
    datums: &[Datum],
    size: usize,
    room: usize,
) -> Result<Vec<u8>, NoMemory>
    requires { size ≤ room }
    ensures bytes { IfOk result (λ bytes. bytes.items ≡ first_bytes (map datum datums.now) size) }
    ensures room { IfOk result (λ bytes. room ≤ vec_capacity bytes) }
{
    let mut bytes = Vec::with_capacity(alloc, room)?;
    bytes.resize(size, 0)?;
    // A byte that several give is the first one's.
    for done in 0..datums.len() {
        let d = &datums[datums.len() - 1 - done];
        overlay(
            &mut bytes,
            FIRST as usize,
            d.address as usize,
            d.bytes.as_slice(),
        );
    }
    Ok(bytes)
}
