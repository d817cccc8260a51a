//! The placer.
ghost use Rattle.std.specs.Prelude.{◌≡◌, ◌<◌, ◌≤◌, ◌%◌, ◌↔◌, [], length as count, IsOk, IsErr, IfOk, OnOk, OnErr, Contains};
ghost use Rattle.css_place.specs.Places.{rounded, IsPlaced};
ghost use Rattle.css_place.specs.Holes.{IsFirstFit, IsFull};
ghost use Rattle.css_place.specs.Changes.{Adds, Removes};

use crate::gaps::first_gap;
use crate::place::Place;
use crate::stretch::{Stretch, number_of};
use arrayvec::ArrayVec;
use std::marker::Model;

/// The most places that are out at once.
const MOST_PLACES: usize = 96;

/// What starts and lengths are multiples of, in bytes.
const STEP: u64 = 128;

/// 96 places are out, or no hole holds the length.
#[derive(Clone, Copy, PartialEq, Eq, Debug)]
pub struct Full;

/// The placer of a local store. Contracts see its size and the places out, in order of start; what isn't in a place
/// is free. It takes no memory.
#[derive(Drop)]
pub struct Placer {
    size: u32,
    out: ArrayVec<Stretch, MOST_PLACES>,
}

impl Model for Placer {
    ghost use Rattle.css_place.specs.Places.{Store, IsPlaced};

    ghost Value = { Store };

    ghost view = { λ placer. record { size = placer.size; out = placer.out.items } };

    ghost invariant = { λ placer. IsPlaced (record { size = placer.size; out = placer.out.items }) };
}

impl Placer {
    /// At every moment the places out are aligned, disjoint, inside the size and at most 96.
    pub fn placed(&self)
        ensures { IsPlaced self.now }
    {
        let _ = &self.size;
    }

    /// The placer of a local store of so many bytes, a multiple of 128, with no place out.
    pub fn new(size: u32) -> Placer
        requires { size % 128 ≡ 0 }
        ensures size { result.size ≡ size }
        ensures empty { result.out ≡ [] }
    {
        Placer {
            size,
            out: ArrayVec::new(),
        }
    }

    /// Places so many bytes, at least 1, at the front of the first hole that holds them rounded up to a multiple of
    /// 128. `Full` comes exactly where 96 places are out or no hole holds them, and then nothing changes.
    pub fn place(&mut self, length: u32) -> Result<Place, Full>
        requires { 1 ≤ length }
        ensures start { IfOk result (λ place. IsFirstFit self.old (rounded length) place.start) }
        ensures length { IfOk result (λ place. place.length ≡ rounded length) }
        ensures out { IfOk result (λ place. Adds self.old self.new place) }
        ensures few { OnOk result (count self.old.out < 96) }
        ensures full { IsErr result ↔ IsFull self.old (rounded length) }
        ensures unchanged { OnErr result (self.new ≡ self.old) }
    {
        if self.out.is_full() {
            return Err(Full);
        }
        let bytes = u64::from(length).next_multiple_of(STEP);
        let Some(gap) = first_gap(self.out.as_slice(), self.size, bytes) else {
            return Err(Full);
        };
        let stretch = Stretch {
            start: gap.start,
            length: bytes as u32,
        };
        self.out.insert(gap.index, stretch);
        Ok(Place::new(stretch))
    }

    /// Takes a place back, which has to be out of this placer. Its addresses are free then.
    pub fn release(&mut self, place: Place)
        requires { Contains self.old.out place }
        ensures { Removes self.old self.new place }
    {
        let index = number_of(self.out.as_slice(), place.stretch());
        self.out.remove(index);
    }
}
