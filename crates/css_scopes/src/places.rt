//! The first places of names in a list of names.
ghost use Rattle.std.specs.Prelude.{◌≡◌, ◌++◌, ◌∷◌, [], length, position, bytes_eq, OnOk, OnErr};

use crate::firsts::Firsts;
use css_base::NoMemory;
use std::alloc::Global;
use std::marker::Model;

/// A list of names, which are lent, that only grows. A name is found in one step. Contracts see the list, in order, in which a name may
/// stand twice.
#[derive(Drop)]
pub struct Places<'t> {
    /// The first place of each name.
    first: Firsts<'t, u32>,
    all: Vec<&'t [u8]>,
}

impl<'t> Model for Places<'t> {
    ghost use Rattle.std.specs.Prelude.{ℕ, List, map};
    ghost use Rattle.css_scopes.specs.FirstPlaces.{ArePlaces};

    ghost Value = { List (List ℕ) };

    ghost view = { λ p. map (λ name. name.now) p.all.items };

    ghost invariant = { λ p. ArePlaces p.first (map (λ name. name.now) p.all.items) };
}

impl<'t> Places<'t> {
    /// No names. Takes no memory.
    pub fn new(alloc: Global) -> Places<'t>
        ensures { result ≡ [] }
    {
        Places {
            first: Firsts::new(alloc),
            all: Vec::new(alloc),
        }
    }

    /// How many names there are, each counted as often as it stands there.
    pub fn count(&self) -> usize
        ensures { result ≡ length self.now }
    {
        self.all.len()
    }

    /// The first place of a name, from 0 on.
    pub fn place_of(&self, name: &[u8]) -> Option<u32>
        ensures { result ≡ position (bytes_eq name.now) self.now }
    {
        self.first.find(name)
    }

    /// Adds a name behind the others. An error changes nothing; it comes also where there are 2^32 names already.
    pub fn add(&mut self, name: &'t [u8]) -> Result<(), NoMemory>
        ensures ok { OnOk result (self.new ≡ self.old ++ name.now ∷ []) }
        ensures unchanged { OnErr result (self.new ≡ self.old) }
    {
        let place = self.all.len();
        if place > 4_294_967_295 {
            return Err(NoMemory);
        }
        self.all.push(name)?;
        match self.first.add(name, place as u32) {
            Ok(()) => Ok(()),
            Err(_) => {
                self.all.pop();
                Err(NoMemory)
            }
        }
    }
}
