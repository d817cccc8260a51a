//! Sets of names.
ghost use Rattle.std.specs.Prelude.{◌≡◌, ◌<◌, ◌++◌, ◌∷◌, [], length, false, OnOk, OnErr};
ghost use Rattle.css_scopes.specs.Names.{number_of, is_among};

use css_base::NoMemory;
use indexmap::IndexSet;
use std::alloc::Global;
use std::marker::Model;

/// Different names, which are lent, numbered from 0 in order. Contracts see their list.
#[derive(Drop)]
pub struct NameSet<'t> {
    texts: IndexSet<&'t [u8]>,
}

impl<'t> Model for NameSet<'t> {
    ghost use Rattle.std.specs.Prelude.{ℕ, ◌≤◌, List, map, length};

    ghost Value = { List (List ℕ) };

    ghost view = { λ names. map (λ text. text.now) names.texts.keys };

    ghost invariant = { λ names. length names.texts.keys ≤ 4294967295 };
}

impl<'t> NameSet<'t> {
    /// No names. Takes no memory.
    pub fn new(alloc: Global) -> NameSet<'t>
        ensures { result ≡ [] }
    {
        NameSet {
            texts: IndexSet::new(alloc),
        }
    }

    /// How many names there are.
    pub fn count(&self) -> u32
        ensures { result ≡ length self.now }
    {
        self.texts.len() as u32
    }

    /// The number of a name, if it is among them.
    pub fn number_of(&self, name: &[u8]) -> Option<u32>
        ensures { result ≡ number_of self.now name.now }
    {
        match self.texts.get_index_of(name) {
            Some(number) => Some(number as u32),
            None => None,
        }
    }

    /// Adds a new name behind the others. An error changes nothing.
    pub fn add(&mut self, name: &'t [u8]) -> Result<(), NoMemory>
        requires new { is_among self.old name.now ≡ false }
        requires few { length self.old < 4294967295 }
        ensures ok { OnOk result (self.new ≡ self.old ++ name.now ∷ []) }
        ensures unchanged { OnErr result (self.new ≡ self.old) }
    {
        if self.texts.insert(name).is_err() {
            return Err(NoMemory);
        }
        Ok(())
    }
}
