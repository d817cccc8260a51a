//! Tests of groups of 96 blocks, as many as a store has places.
ghost use Rattle.std.specs.Prelude.{◌≡◌, true, IfOk};

use super::groups::{brought, filled, places};
use super::staged::parted;
use super::{collected, moved, shown};
use crate::checks::check;
use css_base::Buffer;
use css_place::Placer;
use css_tags::{Block, Group};
use std::alloc::{AllocError, Global};

// A get group of 96 blocks, which brings its number and two zeros to each; and whether the store is full then.
fn brings(alloc: Global) -> Result<(Group, bool), AllocError> {
    let mut placer = Placer::new(1_032_192);
    let mut items = Vec::new(alloc);
    for number in 0..96u8 {
        let block = filled(alloc, &mut placer, &[7, 7, 7])?;
        items.push(brought(alloc, block, &[number, 0, 0], 3)?)?;
    }
    let full = placer.place(1).is_err();
    match Group::get(alloc, items) {
        Ok(group) => Ok((group, full)),
        Err(_) => Err(AllocError),
    }
}

// A put group of 96 blocks, each with its number and two fives.
fn puts(alloc: Global) -> Result<Group, AllocError>
    ensures { IfOk result (λ g. g.put ≡ true) }
{
    let mut placer = Placer::new(1_032_192);
    let mut blocks = Vec::new(alloc);
    for number in 0..96u8 {
        let block = filled(alloc, &mut placer, &[number, 5, 5])?;
        blocks.push((block, 3))?;
    }
    match Group::put(alloc, blocks) {
        Ok(group) => Ok(group),
        Err(_) => Err(AllocError),
    }
}

// Whether there are 96 blocks, each with its number and two zeros, whose places follow one another.
fn is_brought(alloc: Global, blocks: Vec<Block>) -> Result<bool, AllocError> {
    if blocks.len() != 96 {
        return Ok(false);
    }
    let staged = shown(alloc, blocks)?;
    let mut right = true;
    for number in 0..96u8 {
        right = right && staged.bytes(number as usize) == [number, 0, 0].as_slice();
    }
    let mut start = 0u32;
    for place in places(alloc, staged.into_blocks())? {
        right = right && place == (start, 128);
        start = start.saturating_add(128);
    }
    Ok(right)
}

// Each block has a piece, and gets its number; the places follow one another.
#[test]
fn full_store_brought(rt: HostRuntime) -> Result<(), AllocError> {
    let alloc = rt.alloc();
    let (group, full) = brings(alloc)?;
    check(&rt, "full", full);
    let (group, pieces) = moved(group);
    check(&rt, "pieces", pieces == 96);
    check(&rt, "brought", is_brought(alloc, group.into_blocks())?);
    Ok(())
}

// Whether there are 96 buffers, each with its number and two fives.
fn are_put(buffers: &[Buffer]) -> bool {
    let mut right = buffers.len() == 96;
    for (buffer, number) in buffers.iter().zip(0..96u8) {
        right = right && buffer.bytes() == [number, 5, 5].as_slice();
    }
    right
}

// Each buffer has its block's number.
#[test]
fn full_store_put(rt: HostRuntime) -> Result<(), AllocError> {
    let alloc = rt.alloc();
    let (staged, _) = collected(alloc, puts(alloc)?)?;
    let (buffers, blocks) = parted(alloc, staged)?;
    check(&rt, "blocks", blocks.len() == 96);
    check(&rt, "buffers", are_put(buffers.as_slice()));
    Ok(())
}
