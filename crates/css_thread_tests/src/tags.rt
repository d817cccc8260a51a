//! Tests of groups of transfers, and of the channel that gives their blocks back.
ghost use Rattle.std.specs.Prelude.{◌≡◌, ◌≤◌, ◌%◌, [], replicate, length as count, vec_len, IfOk};
ghost use Rattle.css_tags.specs.Groups.{IsWidth, left, plan_of};
ghost use Rattle.css_tags.specs.Staged.{staged};

use crate::checks::check;
use css_base::Buffer;
use css_place::Placer;
use css_tags::{Block, Channel, Group, IssueRefused, Item, NotYet, Staged};
use std::alloc::{AllocError, Global};

mod full;
mod groups;
mod staged;

// A block of so many bytes.
fn block(alloc: Global, length: u32) -> Result<Block, AllocError>
    requires { 1 ≤ length }
    ensures { IfOk result (λ b. b.bytes ≡ replicate length 0) }
{
    let mut placer = Placer::new(1_032_192);
    let Ok(place) = placer.place(length) else {
        return Err(AllocError);
    };
    match Block::new(alloc, place, length) {
        Ok(block) => Ok(block),
        Err(_) => Err(AllocError),
    }
}

// A get group of one block, which gets so many sevens, in rows of this width.
fn sevens(alloc: Global, length: u32, width: u32) -> Result<Group, AllocError>
    requires least { 1 ≤ length }
    requires width { IsWidth width length }
    ensures { IfOk result (λ g. count g.items ≡ 1) }
{
    let bytes = vec![in alloc; 7u8; length as usize]?;
    let Ok(buffer) = Buffer::new(alloc, bytes) else {
        return Err(AllocError);
    };
    let item = Item::From(buffer, block(alloc, length)?, width);
    let mut items = Vec::new(alloc);
    items.push(item)?;
    match Group::get(alloc, items) {
        Ok(group) => Ok(group),
        Err(_) => Err(AllocError),
    }
}

// The group once all its pieces are moved, and how many it had.
fn moved(group: Group) -> (Group, u64)
    ensures none { left result.0 ≡ [] }
    ensures plan { plan_of result.0 ≡ plan_of group }
{
    let mut group = group;
    let mut pieces = 0u64;
    while group.step() {
        pieces = pieces.saturating_add(1);
    }
    (group, pieces)
}

// What a channel gives back once the group is finished, and how many pieces it had.
fn collected(alloc: Global, group: Group) -> Result<(Staged, u64), AllocError>
    ensures { IfOk result (λ r. r.0 ≡ staged (plan_of group)) }
{
    let Ok(mut channel) = Channel::new(alloc) else {
        return Err(AllocError);
    };
    let Ok(()) = channel.issue(alloc, 5, group) else {
        return Err(AllocError);
    };
    let Some((tag, group)) = channel.take_next() else {
        return Err(AllocError);
    };
    let (group, pieces) = moved(group);
    channel.finish(tag, group);
    let Ok(staged) = channel.collect(tag) else {
        return Err(AllocError);
    };
    Ok((staged, pieces))
}

// The blocks as a channel gives them back, so that their bytes can be read.
fn shown(alloc: Global, blocks: Vec<Block>) -> Result<Staged, AllocError>
    ensures { IfOk result (λ s. count s.blocks ≡ vec_len blocks) }
{
    let mut items = Vec::new(alloc);
    for block in blocks {
        items.push(Item::Kept(block))?;
    }
    match Group::get(alloc, items) {
        Ok(group) => Ok(collected(alloc, group)?.0),
        Err(_) => Err(AllocError),
    }
}

// Whether the blocks have these bytes, in this order.
fn have(alloc: Global, blocks: Vec<Block>, wanted: &[&[u8]]) -> Result<bool, AllocError> {
    if blocks.len() != wanted.len() {
        return Ok(false);
    }
    let staged = shown(alloc, blocks)?;
    let mut right = true;
    for item in 0..wanted.len() {
        right = right && staged.bytes(item) == wanted[item];
    }
    Ok(right)
}

// How many pieces such a group has, and whether its block has the sevens then.
fn pieces(alloc: Global, length: u32, width: u32) -> Result<(u64, bool), AllocError>
    requires least { 1 ≤ length }
    requires width { IsWidth width length }
{
    let (staged, pieces) = collected(alloc, sevens(alloc, length, width)?)?;
    Ok((pieces, staged.bytes(0).iter().all(|byte| *byte == 7)))
}

// A piece has at most 16,384 bytes of one row.
#[test]
fn counts_of_pieces(rt: HostRuntime) -> Result<(), AllocError> {
    let alloc = rt.alloc();
    check(&rt, "1", pieces(alloc, 1, 1)? == (1, true));
    check(&rt, "16384", pieces(alloc, 16_384, 16_384)? == (1, true));
    check(&rt, "16385", pieces(alloc, 16_385, 16_385)? == (2, true));
    check(&rt, "3 rows", pieces(alloc, 300, 100)? == (3, true));
    check(&rt, "2 rows", pieces(alloc, 32_770, 16_385)? == (4, true));
    Ok(())
}

// The worked row of a channel: a tag that is issued is busy, its blocks come only once it is finished, and then it is free.
// Gives how many pieces the group had, and how many entries are shown; an error where a step answers otherwise.
fn one_round(alloc: Global) -> Result<(u64, usize), AllocError> {
    let Ok(mut channel) = Channel::new(alloc) else {
        return Err(AllocError);
    };
    let Ok(()) = channel.issue(alloc, 3, sevens(alloc, 16_385, 16_385)?) else {
        return Err(AllocError);
    };
    let Err(IssueRefused::Busy(_)) = channel.issue(alloc, 3, sevens(alloc, 1, 1)?) else {
        return Err(AllocError);
    };
    let Err(NotYet) = channel.collect(3) else {
        return Err(AllocError);
    };
    let Some((tag, group)) = channel.take_next() else {
        return Err(AllocError);
    };
    let Err(NotYet) = channel.collect(tag) else {
        return Err(AllocError);
    };
    let (group, pieces) = moved(group);
    channel.finish(tag, group);
    let Ok(_) = channel.collect(tag) else {
        return Err(AllocError);
    };
    if tag != 3 || channel.issued() || channel.finished(3) || channel.free_tag() != Some(0) {
        return Err(AllocError);
    }
    let Ok(()) = channel.issue(alloc, 3, sevens(alloc, 1, 1)?) else {
        return Err(AllocError);
    };
    let Ok(lines) = channel.lines(alloc) else {
        return Err(AllocError);
    };
    Ok((pieces, lines.len()))
}

#[test]
fn a_round(rt: HostRuntime) -> Result<(), AllocError> {
    check(&rt, "round", one_round(rt.alloc())? == (2, 5));
    Ok(())
}
