//! Tests of what a channel gives back once a group is finished.
ghost use Rattle.std.specs.Prelude.{◌≡◌, ◌<◌, true, length as count, IfOk};

use super::groups::{are_kinds, eights, filled, kinds};
use super::{collected, have};
use crate::checks::check;
use css_base::Buffer;
use css_place::Placer;
use css_tags::{Block, Group, Staged};
use std::alloc::{AllocError, Global};

// A put group of two blocks: 1, 2, 3 in three rows, and the eights in two rows.
fn two(alloc: Global) -> Result<Group, AllocError>
    ensures put { IfOk result (λ g. g.put ≡ true) }
    ensures two { IfOk result (λ g. count g.items ≡ 2) }
{
    let mut placer = Placer::new(1_032_192);
    let few = filled(alloc, &mut placer, &[1, 2, 3])?;
    let many = filled(alloc, &mut placer, &eights())?;
    let mut blocks = Vec::new(alloc);
    blocks.push((few, 1))?;
    blocks.push((many, 65))?;
    match Group::put(alloc, blocks) {
        Ok(group) => Ok(group),
        Err(_) => Err(AllocError),
    }
}

// The buffers and the blocks of a put group.
pub fn parted(alloc: Global, staged: Staged) -> Result<(Vec<Buffer>, Vec<Block>), AllocError>
    requires { staged.put ≡ true }
{
    match staged.into_buffers(alloc) {
        Ok(parts) => Ok(parts),
        Err(_) => Err(AllocError),
    }
}

// Whether the buffers have these bytes, in this order.
fn hold(buffers: &[Buffer], wanted: &[&[u8]]) -> bool {
    buffers.len() == wanted.len()
        && buffers
            .iter()
            .zip(wanted)
            .all(|(buffer, bytes)| buffer.bytes() == *bytes)
}

// Whether the buffers have 1, 2, 3 and the eights, and the blocks these bytes and the eights.
fn are_two(
    alloc: Global,
    buffers: &[Buffer],
    blocks: Vec<Block>,
    first: &[u8],
) -> Result<bool, AllocError> {
    let many = eights();
    Ok(hold(buffers, &[&[1, 2, 3], &many]) && have(alloc, blocks, &[first, &many])?)
}

// Five pieces: three of the first block, and two of the other. The blocks stay as they were.
#[test]
fn put_away(rt: HostRuntime) -> Result<(), AllocError> {
    let alloc = rt.alloc();
    let (staged, pieces) = collected(alloc, two(alloc)?)?;
    check(&rt, "pieces", pieces == 5);
    let (buffers, blocks) = parted(alloc, staged)?;
    check(
        &rt,
        "bytes",
        are_two(alloc, buffers.as_slice(), blocks, &[1, 2, 3])?,
    );
    Ok(())
}

// A write to one block leaves the other, and the buffers have what the blocks had at first.
#[test]
fn write_to_one_block(rt: HostRuntime) -> Result<(), AllocError> {
    let alloc = rt.alloc();
    let (mut staged, _) = collected(alloc, two(alloc)?)?;
    check(&rt, "few", staged.bytes(0) == [1, 2, 3].as_slice());
    check(&rt, "many", staged.bytes(1) == eights().as_slice());
    staged.bytes_mut(0).fill(9);
    check(&rt, "nines", staged.bytes(0) == [9, 9, 9].as_slice());
    check(&rt, "as before", staged.bytes(1) == eights().as_slice());
    let (buffers, blocks) = parted(alloc, staged)?;
    check(
        &rt,
        "bytes",
        are_two(alloc, buffers.as_slice(), blocks, &[9, 9, 9])?,
    );
    Ok(())
}

// The blocks of a get group, with what it brought.
#[test]
fn blocks_given(rt: HostRuntime) -> Result<(), AllocError> {
    let alloc = rt.alloc();
    let (staged, _) = collected(alloc, kinds(alloc)?)?;
    check(
        &rt,
        "bytes",
        are_kinds(alloc, staged.into_blocks(), &[1, 2, 3])?,
    );
    Ok(())
}
