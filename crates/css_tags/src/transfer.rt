//! Transfers of one block.
ghost use Rattle.std.specs.Prelude.{◌≡◌, ◌+◌, ◌<◌, ◌≤◌, ◌^◌, ℕ, [], ◌∷◌, IfSome, length, replicate, slice_get, if◌then◌else◌};
ghost use Rattle.css_tags.specs.Transfers.{moving_by};
ghost use Rattle.css_tags.specs.declared.piece.Piece.{Piece as Part};
ghost use Rattle.std.specs.Bool.{OnTrue, OnFalse};
ghost use Rattle.css_tags.specs.Groups.{IsItem, IsPutItem, IsMoving, begun_get, begun_put, block_of, left_of, with_copied, with_moved};

use crate::block::Block;
use crate::copies::copy_piece;
use crate::item::Item;
use crate::piece::{Piece, count, piece_at};
use css_base::{Buffer, Bytes};
use std::marker::Model;

/// What the block's bytes are moved from or to.
#[derive(Drop)]
pub(crate) enum Other {
    /// The block gets the buffer's bytes.
    From(Buffer),
    /// These bytes get the block's.
    To(Vec<u8>),
    /// The block stays as it is.
    Nothing,
}

/// The transfer of a block. Contracts see what is planned, how many pieces are moved, and the bytes to which they are.
#[derive(Drop)]
pub(crate) struct Transfer {
    block: Block,
    other: Other,
    width: u32,
    moved: u32,
}

impl Model for Transfer {
    ghost use Rattle.css_tags.specs.Groups.{Moving};

    ghost Value = { Moving };

    ghost use Rattle.css_tags.specs.Transfers.{moving, IsTransfer};

    ghost view = { moving };

    ghost invariant = { IsTransfer };
}

impl Transfer {
    /// The transfer of a get group's item, of which nothing is moved.
    pub fn get(item: Item) -> Transfer
        requires { IsItem item }
        ensures begun { result ≡ begun_get item }
        ensures moving { IsMoving result }
    {
        match item {
            Item::From(buffer, block, width) => Transfer {
                block,
                other: Other::From(buffer),
                width,
                moved: 0,
            },
            Item::Fresh(mut block) => {
                block.clear();
                Transfer {
                    block,
                    other: Other::Nothing,
                    width: 1,
                    moved: 0,
                }
            }
            Item::Kept(block) => Transfer {
                block,
                other: Other::Nothing,
                width: 1,
                moved: 0,
            },
        }
    }

    /// The transfer of a put group's block, given with the width of its rows, to as many bytes, which are zero. Nothing of it is moved.
    pub fn put(item: (Block, u32), bytes: Vec<u8>) -> Transfer
        requires width { IsPutItem item }
        requires zeros { bytes.items ≡ replicate (length item.0.bytes) 0 }
        ensures begun { result ≡ begun_put item }
        ensures moving { IsMoving result }
    {
        let (block, width) = item;
        Transfer {
            block,
            other: Other::To(bytes),
            width,
            moved: 0,
        }
    }

    /// The first piece that isn't moved, if one is left.
    fn next_piece(&self) -> Option<Piece>
        ensures value { result ≡ slice_get self.now.planned.pieces self.now.moved }
        ensures small { IfSome result (λ p. self.now.moved + 1 < 2 ^ 32) }
    {
        if let Other::Nothing = &self.other {
            return None;
        }
        let bytes = self.block.length();
        if self.moved < count(bytes, self.width) {
            Some(piece_at(bytes, self.width, self.moved))
        } else {
            None
        }
    }

    /// Moves the next piece with one copy of a slice. False exactly where none is left, and then nothing changes.
    pub fn step(&mut self) -> bool
        ensures moved { OnTrue result ((p : Part) × (left_of self.old ≡ p ∷ left_of (with_moved p self.old)) × (self.new ≡ with_moved p self.old)) }
        ensures none { OnFalse result (left_of self.old ≡ []) }
        ensures unchanged { OnFalse result (self.new ≡ self.old) }
        ensures moving { IsMoving self.new }
    {
        let Some(piece) = self.next_piece() else {
            return false;
        };
        copy_over(&mut self.block, &mut self.other, piece);
        self.moved += 1;
        true
    }

    /// Gives the block, and the copy of its bytes in a put group. Takes no memory.
    pub fn into_parts(self) -> (Block, Option<Bytes>)
        ensures block { result.0 ≡ block_of self }
        ensures copy { result.1 ≡ (if self.put then Some self.target else None) }
    {
        let Transfer {
            block,
            other,
            width: _,
            moved: _,
        } = self;
        match other {
            Other::To(bytes) => (block, Some(Bytes::new(bytes))),
            Other::From(_) | Other::Nothing => (block, None),
        }
    }
}

/// Copies the piece's bytes, from the buffer to the block or from the block to its copy.
fn copy_over(block: &mut Block, other: &mut Other, piece: Piece)
    requires same { length (moving_by other.old block.old 1 0).target ≡ length (moving_by other.old block.old 1 0).planned.bytes }
    requires inside { piece.start + piece.length ≤ length (moving_by other.old block.old 1 0).planned.bytes }
    ensures { (width moved : ℕ) → moving_by other.new block.new width moved ≡ with_copied piece (moving_by other.old block.old width moved) }
{
    match other {
        Other::From(buffer) => block.copy_in(piece, buffer.bytes()),
        Other::To(bytes) => copy_piece(piece, block.as_slice(), bytes.as_mut_slice()),
        Other::Nothing => {}
    }
}
