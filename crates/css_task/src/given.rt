//! What a task is given.
ghost use Rattle.std.specs.Prelude.{◌≡◌, ◌≤◌, ◌++◌, true, length, map, IfOk, OnOk};
ghost use Rattle.css_semantics.specs.Tasks.{reads};
ghost use Rattle.css_record.specs.Windows.{window, IsWindow};
ghost use Rattle.css_record.specs.Records.{InputsFit, uses_by};
ghost use Rattle.css_task.specs.Cells.{addresses};
ghost use Rattle.css_task.specs.Placing.{uses_of, AreWindows, ArePlaced};
ghost use Rattle.css_task.specs.GivenBytes.{given_bytes, own_bytes, other_inputs};

use crate::placed::Placed;
use css_base::{Buffer, Direction, NoMemory};
use css_record::Window;
use css_vm::ArgShape;
use std::alloc::Global;

/// The windows of a task in order of parameters, and the bytes that stand in them before its entry.
#[derive(Drop)]
pub(crate) struct Given {
    pub(crate) all: Vec<Placed>,
    pub(crate) bytes: Vec<u8>,
}

/// Places a task's windows one behind the other, with the inputs' bytes in those that are read, and zeros in the others.
pub(crate) fn given_to(
    alloc: Global,
    parts: &[ArgShape],
    windows: &[Window],
    inputs: &[Buffer],
) -> Result<Given, NoMemory>
    requires given { AreWindows parts.now (map window windows.now) }
    requires inputs { InputsFit (uses_by parts.now (map window windows.now)) inputs.now }
    ensures uses { IfOk result (λ g. uses_of g.all.items ≡ uses_by parts.now (map window windows.now)) }
    ensures placed { IfOk result (λ g. ArePlaced g.all.items) }
    ensures long { IfOk result (λ g. length g.bytes.items ≡ length (addresses (uses_of g.all.items))) }
    ensures bytes { IfOk result (λ g. g.bytes.items ≡ given_bytes (uses_by parts.now (map window windows.now)) inputs.now) }
{
    let mut all = Vec::new(alloc);
    let mut bytes = Vec::new(alloc);
    let mut windows = windows;
    let mut inputs = inputs;
    for part in parts {
        match part {
            ArgShape::Scalar => {}
            ArgShape::Window { direction, .. } => {
                let Some((window, others)) = windows.split_first() else {
                    unreachable!()
                };
                all.push(Placed {
                    window: *window,
                    direction: *direction,
                    first: bytes.len(),
                })?;
                windows = others;
                inputs = append(&mut bytes, window, *direction, inputs)?;
            }
        }
    }
    Ok(Given { all, bytes })
}

// Puts a window's bytes behind others: the first of these inputs where the window is read, zeros else. Gives the inputs that are left.
fn append<'a>(
    bytes: &mut Vec<u8>,
    rows: &Window,
    direction: Direction,
    inputs: &'a [Buffer],
) -> Result<&'a [Buffer], NoMemory>
    requires window { IsWindow (window rows.now) }
    requires some { reads direction ≡ true → 1 ≤ length inputs.now }
    ensures bytes { OnOk result (bytes.new.items ≡ bytes.old.items ++ own_bytes direction (window rows.now) inputs.now) }
    ensures left { IfOk result (λ left. left.now ≡ other_inputs direction inputs.now) }
{
    match direction {
        Direction::Out => {
            bytes.resize(bytes.len() + rows.length() as usize, 0)?;
            Ok(inputs)
        }
        Direction::In | Direction::InOut => {
            let Some((input, others)) = inputs.split_first() else {
                unreachable!()
            };
            bytes.extend_from_slice(input.bytes())?;
            Ok(others)
        }
    }
}
