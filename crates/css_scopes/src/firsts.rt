//! Values by name, of which the first counts.
ghost use Rattle.std.specs.Prelude.{◌≡◌, [], ◌∷◌, ◌++◌, None, OnOk, OnErr};
ghost use Rattle.css_scopes.specs.Firsts.{value_of, with_value};

use css_base::NoMemory;
use indexmap::IndexMap;
use std::alloc::Global;
use std::marker::Model;

/// Values, each by a name that is lent. The first value of a name stays. Contracts see names and values in order.
#[derive(Drop)]
pub struct Firsts<'t, V> {
    values: IndexMap<&'t [u8], V>,
}

impl<'t, V> Model for Firsts<'t, V> {
    ghost use Rattle.std.specs.Prelude.{ℕ, List, map};
    ghost use Rattle.css_scopes.specs.Firsts.{named_code};

    ghost Value = { List (List ℕ × V) };

    ghost coded = { named_code V.code };

    ghost view = { λ f. map (λ e. (e.0.now, e.1)) f.values.entries };
}

impl<'t, V: Copy> Firsts<'t, V> {
    /// No values. Takes no memory.
    pub fn new(alloc: Global) -> Firsts<'t, V>
        ensures { result ≡ [] }
    {
        Firsts {
            values: IndexMap::new(alloc),
        }
    }

    /// The value of a name, in one look-up.
    pub fn find(&self, name: &[u8]) -> Option<V>
        ensures { result ≡ value_of self.now name.now }
    {
        self.values.get(name).copied()
    }

    /// Gives a name this value, where it has none. An error changes nothing.
    pub fn add(&mut self, name: &'t [u8], value: V) -> Result<(), NoMemory>
    where
        V: Drop,
        ensures ok { OnOk result (self.new ≡ with_value self.old name.now value) }
        ensures unchanged { OnErr result (self.new ≡ self.old) }
    {
        if self.find(name).is_some() {
            return Ok(());
        }
        self.add_new(name, value)
    }

    /// Gives a name that has no value this one. An error changes nothing.
    fn add_new(&mut self, name: &'t [u8], value: V) -> Result<(), NoMemory>
    where
        V: Drop,
        requires { value_of self.old name.now ≡ None }
        ensures ok { OnOk result (self.new ≡ self.old ++ (name.now, value) ∷ []) }
        ensures unchanged { OnErr result (self.new ≡ self.old) }
    {
        if self.values.insert(name, value).is_err() {
            return Err(NoMemory);
        }
        Ok(())
    }
}
