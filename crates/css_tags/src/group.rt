//! Groups of transfers.
ghost use Rattle.std.specs.Prelude.{◌≡◌, ◌∷◌, [], map, All, IfOk, IfErr, IfSome, IfNone, false, true, drop, length, replicate, if◌then◌else◌};
ghost use Rattle.std.specs.Bool.{OnTrue, OnFalse};
ghost use Rattle.std.specs.List.{flat_map, sum_by};
ghost use Rattle.css_tags.specs.declared.piece.Piece.{Piece as Part};
ghost use Rattle.css_tags.specs.Plans.{bytes_in, bytes_of};
ghost use Rattle.css_tags.specs.Groups.{planned_get, planned_put, IsItem, IsPutItem, IsMoving, begun_get, begun_put, blocks_of, copy_of, block_after, left, left_of, plan_of, MovesNext, StepsAt};

use crate::block::Block;
use crate::item::Item;
use crate::transfer::Transfer;
use css_base::{Bytes, NoMemory};
use std::alloc::Global;
use std::marker::Model;

/// Transfers of blocks, which are issued together on a tag. Contracts see what is planned for each block, how many of its
/// pieces are moved, and the bytes to which they are.
///
/// A piece is at most 16,384 bytes of one row of a `From` item or of a put block. The pieces are moved in order.
#[derive(Drop)]
pub struct Group {
    put: bool,
    transfers: Vec<Transfer>,
    // The transfers before this number have no piece left.
    next: usize,
    // How many bytes are in all pieces.
    bytes: u64,
    // Room for what comes back, so that it takes no memory then.
    blocks: Vec<Block>,
    copies: Vec<Bytes>,
}

impl Model for Group {
    ghost use Rattle.std.specs.Prelude.{vec_len, vec_capacity};
    ghost use Rattle.std.specs.Prelude.{◌≡◌};
    ghost use Rattle.css_tags.specs.Plans.{bytes_in};
    ghost use Rattle.css_tags.specs.Groups.{plan_of, Underway, IsGroup, HasRoom};

    ghost Value = { Underway };

    ghost view = { λ g. record { put = g.put; items = g.transfers.items } };

    ghost invariant = { λ g. IsGroup (record { put = g.put; items = g.transfers.items }) g.next
        × (g.bytes ≡ bytes_in (plan_of (record { put = g.put; items = g.transfers.items })))
        × HasRoom (record { put = g.put; items = g.transfers.items }) (vec_len g.blocks) (vec_capacity g.blocks) (vec_len g.copies) (vec_capacity g.copies) };
}

impl Group {
    /// A group that brings bytes to blocks. The buffer of a `From` item has to be as long as its block, and its width at
    /// least 1 and a divisor of that length. The other items have no pieces. Hands the items back where there is no
    /// memory.
    pub fn get(alloc: Global, items: Vec<Item>) -> Result<Group, Vec<Item>>
        requires { All IsItem items.items }
        ensures begun { IfOk result (λ g. g ≡ record { put = false; items = map begun_get items.items }) }
        ensures back { IfErr result (λ v. v.items ≡ items.items) }
    {
        let Some(bytes) = bytes_got(items.as_slice()) else {
            return Err(items);
        };
        let Ok(mut transfers) = Vec::with_capacity(alloc, items.len()) else {
            return Err(items);
        };
        let Ok(blocks) = Vec::with_capacity(alloc, items.len()) else {
            return Err(items);
        };
        let Ok(copies) = Vec::with_capacity(alloc, items.len()) else {
            return Err(items);
        };
        for item in items {
            transfers.push_reserved(Transfer::get(item));
        }
        Ok(Group {
            put: false,
            transfers,
            next: 0,
            bytes,
            blocks,
            copies,
        })
    }

    /// A group that brings copies of blocks away, each in rows of its width, which is at least 1 and a divisor of the
    /// block's length. Hands the blocks back where there is no memory.
    pub fn put(alloc: Global, blocks: Vec<(Block, u32)>) -> Result<Group, Vec<(Block, u32)>>
        requires { All IsPutItem blocks.items }
        ensures begun { IfOk result (λ g. g ≡ record { put = true; items = map begun_put blocks.items }) }
        ensures back { IfErr result (λ v. v.items ≡ blocks.items) }
    {
        let Some(bytes) = bytes_put(blocks.as_slice()) else {
            return Err(blocks);
        };
        let Ok(targets) = zeros(alloc, blocks.as_slice()) else {
            return Err(blocks);
        };
        let Ok(mut transfers) = Vec::with_capacity(alloc, blocks.len()) else {
            return Err(blocks);
        };
        let Ok(room) = Vec::with_capacity(alloc, blocks.len()) else {
            return Err(blocks);
        };
        let Ok(copies) = Vec::with_capacity(alloc, blocks.len()) else {
            return Err(blocks);
        };
        for (item, target) in blocks.into_iter().zip(targets) {
            transfers.push_reserved(Transfer::put(item, target));
        }
        Ok(Group {
            put: true,
            transfers,
            next: 0,
            bytes,
            blocks: room,
            copies,
        })
    }

    /// How many bytes are in its pieces.
    pub(crate) fn bytes(&self) -> u64
        ensures { result ≡ bytes_in (plan_of self.now) }
    {
        self.bytes
    }

    /// Once no piece is left, the blocks have the bytes that are planned, and a put group's copies too.
    pub fn whole(&self)
        ensures blocks { left self.now ≡ [] → blocks_of self.now ≡ map block_after (plan_of self.now).items }
        ensures copies { left self.now ≡ [] → flat_map copy_of self.now.items ≡ (if self.now.put then map (λ item. item.bytes) (plan_of self.now).items else []) }
    {
        let _ = &self.put;
    }

    /// Moves the next piece with one copy of a slice. False exactly where none is left, and then nothing changes.
    pub fn step(&mut self) -> bool
        ensures moved { OnTrue result ((p : Part) × MovesNext self.old self.new p) }
        ensures none { OnFalse result (left self.old ≡ []) }
        ensures unchanged { OnFalse result (self.new ≡ self.old) }
        ensures plan { plan_of self.new ≡ plan_of self.old }
    {
        match step_first(self.transfers.as_mut_slice(), self.next) {
            Some(index) => {
                self.next = index;
                true
            }
            None => false,
        }
    }

    /// Whether it is a put group.
    pub(crate) fn is_put(&self) -> bool
        ensures { result ≡ self.now.put }
    {
        self.put
    }

    /// Gives the blocks as they are, in order of the items. Takes no memory.
    pub fn into_blocks(self) -> Vec<Block>
        ensures { result.items ≡ blocks_of self }
    {
        let (blocks, _) = self.into_parts();
        blocks
    }

    /// Gives the blocks as they are, and in a put group the copies as they are, in order of the items. Takes no memory.
    pub(crate) fn into_parts(self) -> (Vec<Block>, Vec<Bytes>)
        ensures blocks { result.0.items ≡ blocks_of self }
        ensures copies { result.1.items ≡ flat_map copy_of self.items }
    {
        let Group {
            put: _,
            transfers,
            next: _,
            bytes: _,
            mut blocks,
            mut copies,
        } = self;
        for transfer in transfers {
            let (block, copy) = transfer.into_parts();
            blocks.push_reserved(block);
            if let Some(copy) = copy {
                copies.push_reserved(copy);
            }
        }
        (blocks, copies)
    }
}

/// How many bytes are in the pieces of a get group's items. None where no `u64` counts them.
fn bytes_got(items: &[Item]) -> Option<u64>
    requires { All IsItem items.now }
    ensures { IfSome result (λ n. n ≡ sum_by (λ item. bytes_of (planned_get item)) items.now) }
{
    let mut bytes = 0u64;
    for item in items {
        bytes = bytes.checked_add(item.bytes())?;
    }
    Some(bytes)
}

/// How many bytes are in the pieces of a put group's blocks. None where no `u64` counts them.
fn bytes_put(blocks: &[(Block, u32)]) -> Option<u64>
    requires { All IsPutItem blocks.now }
    ensures { IfSome result (λ n. n ≡ sum_by (λ item. bytes_of (planned_put item)) blocks.now) }
{
    let mut bytes = 0u64;
    for (block, _) in blocks {
        bytes = bytes.checked_add(u64::from(block.length()))?;
    }
    Some(bytes)
}

/// As many zeros as each block has bytes.
fn zeros(alloc: Global, blocks: &[(Block, u32)]) -> Result<Vec<Vec<u8>>, NoMemory>
    ensures { IfOk result (λ v. map (λ z. z.items) v.items ≡ map (λ p. replicate (length p.0.bytes) 0) blocks.now) }
{
    let mut targets = Vec::with_capacity(alloc, blocks.len())?;
    for (block, _) in blocks {
        targets.push_reserved(vec![in alloc; 0u8; block.length() as usize]?);
    }
    Ok(targets)
}

/// Moves the next piece of the first transfer from that number on that has one left, and gives its number.
fn step_first(transfers: &mut [Transfer], next: usize) -> Option<usize>
    requires moving { All IsMoving transfers.old }
    ensures stepped { IfSome result (λ index. StepsAt transfers.old transfers.new next index) }
    ensures none { IfNone result (flat_map left_of (drop next transfers.old) ≡ []) }
    ensures unchanged { IfNone result (transfers.new ≡ transfers.old) }
    ensures moving { All IsMoving transfers.new }
{
    for index in next..transfers.len() {
        if transfers[index].step() {
            return Some(index);
        }
    }
    None
}
