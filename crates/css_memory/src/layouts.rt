//! Which bytes are live, by the addresses of a memory's parts.
ghost use Rattle.std.specs.Prelude.{◌≡◌, ◌+◌, ◌≤◌, ◌<◌, ◌^◌, ◌↔◌, IsTrue};
ghost use Rattle.css_memory.specs.Kept.{meets_gap};
ghost use Rattle.css_memory.specs.Layouts.{is_within};

use crate::main_memory::FIRST;
use css_record::Layout;

/// Whether bytes from one address up to another are within the memory, and meet neither gap between its parts.
pub(crate) fn is_within(layout: &Layout, from: u64, to: u64) -> bool
    ensures { result ≡ is_within layout.now from to }
{
    let within = u64::from(FIRST) <= from && to <= u64::from(layout.end);
    let clear = !meets_gap(layout.globals_end, layout.heap_start, from, to);
    let apart = !meets_gap(layout.heap_top, layout.stack_place, from, to);
    within && (clear && apart)
}

// Whether bytes from one address up to another meet a gap.
fn meets_gap(first: u32, end: u32, from: u64, to: u64) -> bool
    ensures { result ≡ meets_gap first end from to }
{
    first < end && from < u64::from(end) && u64::from(first) < to
}

/// Whether so many bytes from an address stand from one address on, up to another.
#[inline]
pub(crate) fn is_inside(from: usize, to: usize, address: usize, count: usize) -> bool
    requires { address + count < 2 ^ 64 }
    ensures { IsTrue result ↔ ((from ≤ address) × (address + count ≤ to)) }
{
    from <= address && address + count <= to
}
