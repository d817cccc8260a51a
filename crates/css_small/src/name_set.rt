//! Sets of names.
ghost use Rattle.std.specs.Prelude.{◌≡◌, ◌<◌, ◌++◌, ◌∷◌, [], length, false, IfErr, OnOk, OnErr};
ghost use Rattle.css_small.specs.Names.{number_of, is_among};

use crate::tree_fault::TreeFault;
use indexmap::IndexSet;
use std::alloc::Global;
use std::marker::Model;

/// Different names, numbered from 0 in order. Contracts see their list.
#[derive(Drop)]
pub(crate) struct NameSet {
    texts: IndexSet<Vec<u8>>,
}

impl Model for NameSet {
    ghost use Rattle.std.specs.Prelude.{ℕ, ◌≤◌, List, map, length};

    ghost Value = { List (List ℕ) };

    ghost view = { λ names. map (λ text. text.items) names.texts.keys };

    ghost invariant = { λ names. length names.texts.keys ≤ 4294967295 };
}

impl NameSet {
    /// No names. Takes no memory.
    pub(crate) fn new(alloc: Global) -> NameSet
        ensures { result ≡ [] }
    {
        NameSet {
            texts: IndexSet::new(alloc),
        }
    }

    /// How many names there are.
    pub(crate) fn count(&self) -> u32
        ensures { result ≡ length self.now }
    {
        self.texts.len() as u32
    }

    /// The number of a name, if it is among them.
    pub(crate) fn number_of(&self, name: &[u8]) -> Option<u32>
        ensures { result ≡ number_of self.now name.now }
    {
        match self.texts.get_index_of(name) {
            Some(number) => Some(number as u32),
            None => None,
        }
    }

    /// Whether a name is among them.
    pub(crate) fn contains(&self, name: &[u8]) -> bool
        ensures { result ≡ is_among self.now name.now }
    {
        self.number_of(name).is_some()
    }

    /// Adds a new name behind the others. The only error is `NoMemory`, and changes nothing.
    pub(crate) fn add(&mut self, alloc: Global, name: &[u8]) -> Result<(), TreeFault>
        requires new { is_among self.old name.now ≡ false }
        requires few { length self.old < 4294967295 }
        ensures ok { OnOk result (self.new ≡ self.old ++ name.now ∷ []) }
        ensures no_memory { IfErr result (λ e. e ≡ TreeFault.NoMemory) }
        ensures unchanged { OnErr result (self.new ≡ self.old) }
    {
        let Ok(text) = Vec::from_slice(alloc, name) else {
            return Err(TreeFault::NoMemory);
        };
        if self.texts.insert(text).is_err() {
            return Err(TreeFault::NoMemory);
        }
        Ok(())
    }
}
