//! Places of a local store.
ghost use Rattle.std.specs.Prelude.{◌≡◌, ◌<◌, ◌%◌};
ghost use Rattle.css_place.specs.Places.{IsAligned};

use crate::stretch::Stretch;
use std::marker::Model;

/// A place of a local store, which only `Placer::place` makes, and which `Placer::release` takes back.
///
/// It starts at a multiple of 128, and its length is a positive multiple of 128. It can't be copied, so it is
/// released once at most; one that is dropped stays out.
#[derive(Drop)]
pub struct Place {
    stretch: Stretch,
}

impl Model for Place {
    ghost use Rattle.css_place.specs.declared.stretch.Stretch.{Stretch};
    ghost use Rattle.css_place.specs.Places.{IsAligned};

    ghost Value = { Stretch };

    ghost view = { λ place. place.stretch };

    ghost invariant = { λ place. IsAligned place.stretch };
}

impl Place {
    /// The place of a stretch.
    pub(crate) fn new(stretch: Stretch) -> Place
        requires { IsAligned stretch }
        ensures { result ≡ stretch }
    {
        Place { stretch }
    }

    /// The first address, a multiple of 128.
    pub fn start(&self) -> u32
        ensures value { result ≡ self.now.start }
        ensures aligned { result % 128 ≡ 0 }
    {
        self.stretch.start
    }

    /// How many bytes it has, a positive multiple of 128.
    pub fn length(&self) -> u32
        ensures value { result ≡ self.now.length }
        ensures aligned { result % 128 ≡ 0 }
        ensures positive { 0 < result }
    {
        self.stretch.length
    }

    /// The stretch that it takes.
    pub(crate) fn stretch(&self) -> Stretch
        ensures { result ≡ self.now }
    {
        self.stretch
    }
}
