//! What a call of a task is given.
ghost use Rattle.std.specs.Prelude.{◌≡◌, ◌*◌, ◌%◌, ◌^◌, length, map, IfOk, IfSome};
ghost use Rattle.css_isa.specs.Code.{all_dimensions, dimensions_of, narrowed_to};
ghost use Rattle.css_isa.specs.Spaces.{bytes_of};

use css_base::NoMemory;
use css_isa::{ArgShape, TaskShape, Width};
use std::alloc::Global;

/// How many dimensions a call of a task has. None where they are more than a stack can have cells.
pub(crate) fn dimensions(shape: &TaskShape) -> Option<usize>
    ensures { IfSome result (λ count. count ≡ all_dimensions shape.now.args) }
{
    let mut count: usize = 0;
    for part in shape.args.as_slice() {
        count = count.checked_add(part_dimensions(*part) as usize)?;
    }
    Some(count)
}

// How many dimensions a part of a call has.
fn part_dimensions(part: ArgShape) -> u32
    ensures { result ≡ dimensions_of part }
{
    match part {
        ArgShape::Scalar => 0,
        ArgShape::Window { dims, .. } => dims,
    }
}

/// Cells as arguments: the low bytes of each, as many as its parameter has.
pub(crate) fn arguments_of(
    alloc: Global,
    params: &[Width],
    cells: &[u64],
) -> Result<Vec<u64>, NoMemory>
    requires { length cells.now ≡ length params.now }
    ensures { IfOk result (λ v. v.items ≡ narrowed_to (map bytes_of params.now) cells.now) }
{
    let mut arguments = Vec::new(alloc);
    for i in 0..params.len() {
        arguments.push(low_bytes(params[i], cells[i]))?;
    }
    Ok(arguments)
}

// The low bytes of a cell, without sign.
fn low_bytes(width: Width, cell: u64) -> u64
    ensures { result ≡ cell % 2 ^ (8 * bytes_of width) }
{
    match width {
        Width::W8 => cell % 0x100,
        Width::W16 => cell % 0x1_0000,
        Width::W32 => cell % 0x1_0000_0000,
        Width::W64 => cell,
    }
}
