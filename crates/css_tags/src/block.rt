//! Blocks of a local store.
ghost use Rattle.std.specs.Prelude.{◌≡◌, ◌+◌, ◌≤◌, ◌<◌, ◌^◌, length as count, replicate, IfOk, IfErr};
ghost use Rattle.css_place.specs.Places.{rounded};
ghost use Rattle.css_tags.specs.Pieces.{copied};

use crate::copies::copy_piece;
use crate::piece::Piece;
use css_place::Place;
use std::alloc::Global;
use std::marker::Model;

/// Bytes of a local store at a place, which the block owns. Contracts see the place and the bytes.
///
/// The place of a block that is dropped stays out.
#[derive(Drop)]
pub struct Block {
    place: Place,
    bytes: Vec<u8>,
}

impl Model for Block {
    ghost use Rattle.css_tags.specs.Blocks.{Contents, IsBlock};

    ghost Value = { Contents };

    ghost view = { λ b. record { place = b.place; bytes = b.bytes.items } };

    ghost invariant = { λ b. IsBlock (record { place = b.place; bytes = b.bytes.items }) };
}

impl Block {
    /// A block of so many bytes, at least 1, which are zero. The length rounded up to a multiple of 128 has to be the
    /// place's. Hands the place back where there is no memory.
    pub fn new(alloc: Global, place: Place, length: u32) -> Result<Block, Place>
        requires least { 1 ≤ length }
        requires placed { rounded length ≡ place.length }
        ensures place { IfOk result (λ b. b.place ≡ place) }
        ensures zeros { IfOk result (λ b. b.bytes ≡ replicate length 0) }
        ensures back { IfErr result (λ p. p ≡ place) }
    {
        match vec![in alloc; 0u8; length as usize] {
            Ok(bytes) => Ok(Block { place, bytes }),
            Err(_) => Err(place),
        }
    }

    /// Gives the place back. Takes no memory.
    pub fn into_place(self) -> Place
        ensures { result ≡ self.place }
    {
        let Block { place, bytes: _ } = self;
        place
    }

    /// How many bytes it has.
    pub(crate) fn length(&self) -> u32
        ensures value { result ≡ count self.now.bytes }
        ensures least { 1 ≤ result }
    {
        self.bytes.len() as u32
    }

    /// Lends the bytes.
    pub(crate) fn as_slice(&self) -> &[u8]
        ensures value { result.now ≡ self.now.bytes }
    {
        self.bytes.as_slice()
    }

    /// Copies the piece's bytes over its own.
    pub(crate) fn copy_in(&mut self, piece: Piece, source: &[u8])
        requires same { count source.now ≡ count self.old.bytes }
        requires inside { piece.start + piece.length ≤ count source.now }
        ensures place { self.new.place ≡ self.old.place }
        ensures bytes { self.new.bytes ≡ copied piece source.now self.old.bytes }
    {
        copy_piece(piece, source, self.bytes.as_mut_slice());
    }

    /// Makes each byte zero.
    pub(crate) fn clear(&mut self)
        ensures place { self.new.place ≡ self.old.place }
        ensures bytes { self.new.bytes ≡ replicate (count self.old.bytes) 0 }
    {
        self.bytes.as_mut_slice().fill(0);
    }
}

impl Block {
    ghost use Rattle.std.specs.Prelude.{◌≡◌};
    ghost use Rattle.std.specs.Borrow.{sem};
    ghost use Rattle.css_tags.specs.Lends.{LendsBytes};

    /// Lends the bytes to a writer.
    pub(crate) fn bytes_mut(&mut self) -> &mut [u8]
        ensures* writes_back { sem 𝓛 (LendsBytes self.entry result) }
        ensures value { result.now ≡ self.old.bytes }
    {
        self.bytes.as_mut_slice()
    }
}
