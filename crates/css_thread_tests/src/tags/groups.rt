//! Tests of whole groups: what their blocks and buffers have.
ghost use Rattle.std.specs.Prelude.{◌≡◌, ◌≤◌, ◌<◌, ◌^◌, length as count, IfOk};
ghost use Rattle.css_tags.specs.Groups.{IsWidth, IsItem, planned_get};

use super::{have, moved, sevens};
use crate::checks::check;
use css_base::Buffer;
use css_place::Placer;
use css_tags::{Block, Channel, Group, IssueRefused, Item};
use std::alloc::{AllocError, Global};

// The next block of a store, whose bytes are zero.
fn zeros(alloc: Global, placer: &mut Placer, length: u32) -> Result<Block, AllocError>
    requires { 1 ≤ length }
    ensures { IfOk result (λ b. count b.bytes ≡ length) }
{
    let Ok(place) = placer.place(length) else {
        return Err(AllocError);
    };
    match Block::new(alloc, place, length) {
        Ok(block) => Ok(block),
        Err(_) => Err(AllocError),
    }
}

// The next block of a store, with these bytes, which a group brings to it.
pub fn filled(alloc: Global, placer: &mut Placer, bytes: &[u8]) -> Result<Block, AllocError>
    requires least { 1 ≤ count bytes.now }
    requires most { count bytes.now < 2 ^ 32 }
    ensures { IfOk result (λ b. b.bytes ≡ bytes.now) }
{
    let length = bytes.len() as u32;
    let block = zeros(alloc, placer, length)?;
    let mut items = Vec::new(alloc);
    items.push(brought(alloc, block, bytes, length)?)?;
    let Ok(group) = Group::get(alloc, items) else {
        return Err(AllocError);
    };
    let (group, _) = moved(group);
    group.whole();
    let mut blocks = group.into_blocks();
    Ok(blocks.remove(0))
}

// An item that brings bytes, in rows of this width, to a block that has others.
pub fn brought(alloc: Global, block: Block, bytes: &[u8], width: u32) -> Result<Item, AllocError>
    requires same { count block.bytes ≡ count bytes.now }
    requires width { IsWidth width (count bytes.now) }
    ensures item { IfOk result IsItem }
    ensures bytes { IfOk result (λ i. (planned_get i).bytes ≡ bytes.now) }
{
    let Ok(buffer) = Buffer::new(alloc, bytes.to_vec(alloc)?) else {
        return Err(AllocError);
    };
    Ok(Item::From(buffer, block, width))
}

// 130 bytes: eights between a 1 and a 9.
pub fn eights() -> [u8; 130] {
    let mut bytes = [8; 130];
    bytes[0] = 1;
    bytes[129] = 9;
    bytes
}

// A get group with an item of each kind: a block of 4, 5, 6 gets 1, 2, 3 in three rows, one that has sevens gets zeros, and
// one is kept with its eights.
pub fn kinds(alloc: Global) -> Result<Group, AllocError> {
    let mut placer = Placer::new(1_032_192);
    let block = filled(alloc, &mut placer, &[4, 5, 6])?;
    let item = brought(alloc, block, &[1, 2, 3], 1)?;
    let fresh = filled(alloc, &mut placer, &[7; 130])?;
    let kept = filled(alloc, &mut placer, &eights())?;
    let mut items = Vec::new(alloc);
    items.push(item)?;
    items.push(Item::Fresh(fresh))?;
    items.push(Item::Kept(kept))?;
    match Group::get(alloc, items) {
        Ok(group) => Ok(group),
        Err(_) => Err(AllocError),
    }
}

// Whether the blocks of such a group have these bytes, zeros and the eights.
pub fn are_kinds(alloc: Global, blocks: Vec<Block>, first: &[u8]) -> Result<bool, AllocError> {
    have(alloc, blocks, &[first, &[0; 130], &eights()])
}

// The item that brings bytes has three pieces, and the other two have none.
#[test]
fn each_kind_of_item(rt: HostRuntime) -> Result<(), AllocError> {
    let alloc = rt.alloc();
    let (group, pieces) = moved(kinds(alloc)?);
    check(&rt, "pieces", pieces == 3);
    check(
        &rt,
        "bytes",
        are_kinds(alloc, group.into_blocks(), &[1, 2, 3])?,
    );
    Ok(())
}

// The group that a channel hands back, since the tag isn't free.
fn refused(alloc: Global, group: Group) -> Result<Group, AllocError>
    ensures { IfOk result (λ g. g ≡ group) }
{
    let Ok(mut channel) = Channel::new(alloc) else {
        return Err(AllocError);
    };
    let Ok(()) = channel.issue(alloc, 31, sevens(alloc, 1, 1)?) else {
        return Err(AllocError);
    };
    let Err(IssueRefused::Busy(group)) = channel.issue(alloc, 31, group) else {
        return Err(AllocError);
    };
    Ok(group)
}

// Nothing is moved of a group that is handed back, and then its pieces can be moved.
#[test]
fn a_group_handed_back(rt: HostRuntime) -> Result<(), AllocError> {
    let alloc = rt.alloc();
    let blocks = refused(alloc, kinds(alloc)?)?.into_blocks();
    check(&rt, "at first", are_kinds(alloc, blocks, &[4, 5, 6])?);
    let (group, pieces) = moved(refused(alloc, kinds(alloc)?)?);
    check(&rt, "pieces", pieces == 3);
    check(
        &rt,
        "then",
        are_kinds(alloc, group.into_blocks(), &[1, 2, 3])?,
    );
    Ok(())
}

// Start and length of the blocks' places, in order.
pub fn places(alloc: Global, blocks: Vec<Block>) -> Result<Vec<(u32, u32)>, AllocError> {
    let mut places = Vec::new(alloc);
    for block in blocks {
        let place = block.into_place();
        places.push((place.start(), place.length()))?;
    }
    Ok(places)
}

// 3 bytes have a place of 128, and 130 bytes one of 256.
#[test]
fn places_given_back(rt: HostRuntime) -> Result<(), AllocError> {
    let alloc = rt.alloc();
    let places = places(alloc, kinds(alloc)?.into_blocks())?;
    let wanted = [(0, 128), (128, 256), (384, 256)];
    check(&rt, "places", places.as_slice() == wanted.as_slice());
    Ok(())
}
