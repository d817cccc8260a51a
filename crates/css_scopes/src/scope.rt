//! What a name means: a table of the bindings that can be seen. `specs/Scopes.antt` has their list.
ghost use Rattle.std.specs.Prelude.{◌≡◌, ◌<◌, ◌∷◌, [], ℕ, List, length, is_some, Some, None, option_map, OnOk, OnErr, IfOk};
ghost use Rattle.css_scopes.specs.Scopes.{found, meaning_of, is_at, is_taken, is_inside, older, closed, kept};
ghost use Rattle.css_scopes.specs.Names.{number_of};
ghost use Rattle.css_scopes.specs.Tables.{at_number, restored, binding};

use crate::library::library_of;
use crate::name_set::NameSet;
use css_base::NoMemory;
use std::alloc::Global;
use std::marker::Model;

/// A binding. It hides an older one of this place in the table, which is the newest again once it goes.
#[derive(Drop)]
struct Entry<'t, M> {
    name: &'t [u8],
    depth: u32,
    hidden: Option<u32>,
    meaning: M,
}

/// The bindings that can be seen, each of a name that is lent. A name is looked up in one step. Contracts see their list, the newest
/// first.
#[derive(Drop)]
pub struct Scope<'t, M> {
    names: NameSet<'t>,
    /// For each name's number, the place of its newest binding.
    newest: Vec<Option<u32>>,
    /// The newest last.
    bindings: Vec<Entry<'t, M>>,
}

impl<'t, M> Model for Scope<'t, M> {
    ghost use Rattle.std.specs.Prelude.{[], List, ◌≡◌, length};
    ghost use Rattle.css_scopes.specs.Scopes.{Binding, scope_code};

    ghost Value = { List (Binding M) };

    ghost coded = { scope_code M.code };

    ghost use Rattle.css_scopes.specs.Tables.{stacked_on, IsIndexed, AreHiding};

    ghost view = { λ s. stacked_on [] s.bindings.items };

    ghost invariant = { λ s. (length s.newest.items ≡ length s.names) × IsIndexed s.names s.newest.items s.bindings.items × AreHiding [] s.bindings.items };
}

impl<'t, M> Scope<'t, M> {
    /// No bindings. Takes no memory.
    pub fn new(alloc: Global) -> Scope<'t, M>
        ensures { result ≡ [] }
    {
        Scope {
            names: NameSet::new(alloc),
            newest: Vec::new(alloc),
            bindings: Vec::new(alloc),
        }
    }

    /// The binding that a name has, in one look-up.
    fn find(&self, name: &[u8]) -> Option<&Entry<'t, M>>
        ensures { option_map (λ b. binding b.now) result ≡ found self.now name.now }
    {
        match newest_place(&self.names, self.newest.as_slice(), name) {
            Some(place) => Some(&self.bindings[place as usize]),
            None => None,
        }
    }

    /// What a name means, if it can be seen.
    pub fn meaning(&self, name: &[u8]) -> Option<&M>
        ensures { option_map (λ m. m.now) result ≡ meaning_of self.now name.now }
    {
        match self.find(name) {
            Some(binding) => Some(&binding.meaning),
            None => None,
        }
    }

    /// Whether a name can be seen.
    pub fn is_seen(&self, name: &[u8]) -> bool
        ensures { result ≡ is_some (found self.now name.now) }
    {
        self.find(name).is_some()
    }

    /// Whether the binding of a name that can be seen is one of the block of this depth.
    pub fn is_at(&self, depth: u32, name: &[u8]) -> bool
        ensures { result ≡ is_at depth (found self.now name.now) }
    {
        match self.find(name) {
            Some(binding) => binding.depth == depth,
            None => false,
        }
    }

    /// Whether a name can't be declared in the block of this depth: it is already, or the library has it.
    pub fn is_taken(&self, depth: u32, name: &[u8]) -> bool
        ensures { result ≡ is_taken self.now depth name.now }
    {
        library_of(name).is_some() || self.is_at(depth, name)
    }

    /// Declares a name in the block of this depth: it hides older bindings of the name. An error changes nothing.
    pub fn declare(&mut self, name: &'t [u8], depth: u32, meaning: M) -> Result<(), NoMemory>
    where
        M: Drop,
        ensures ok { OnOk result (self.new ≡ record { name = name.now; depth = depth; meaning = meaning } ∷ self.old) }
        ensures unchanged { OnErr result (self.new ≡ self.old) }
    {
        let place = place_behind(self.bindings.as_slice())?;
        let number = number_in(&mut self.names, &mut self.newest, name)?;
        let hidden = entry_at(self.newest.as_slice(), number);
        let binding = Entry {
            name,
            depth,
            hidden,
            meaning,
        };
        self.bindings.push(binding)?;
        self.newest[number] = Some(place);
        Ok(())
    }

    /// Closes the block of this depth: its bindings go, and those of blocks inside it. What they hid is seen again. Takes no memory.
    #[tactic(auto, using(crate::proofs::Shown::closed_older, crate::proofs::Shown::closed_all))]
    pub fn close(&mut self, depth: u32)
    where
        M: Drop,
        ensures { self.new ≡ closed depth self.old }
    {
        while self.is_inside(depth) {
            self.forget();
        }
    }

    /// How many bindings there are, hidden ones too.
    pub fn len(&self) -> usize
        ensures { result ≡ length self.now }
    {
        self.bindings.len()
    }

    /// Takes the newest bindings away until so many are left: what they hid is seen again. Takes no memory.
    #[tactic(auto, using(crate::proofs::Shown::kept_older, crate::proofs::Shown::kept_all))]
    pub fn close_to(&mut self, count: usize)
    where
        M: Drop,
        ensures { self.new ≡ kept count self.old }
    {
        while count < self.len() {
            self.forget();
        }
    }

    /// Whether the newest binding is one of the block of this depth, or of a block inside it.
    fn is_inside(&self, depth: u32) -> bool
        ensures { result ≡ is_inside depth self.now }
    {
        match self.bindings.last() {
            Some(newest) => depth <= newest.depth,
            None => false,
        }
    }

    /// Takes the newest binding away: what it hid can be seen again. Takes no memory.
    fn forget(&mut self)
    where
        M: Drop,
        ensures { self.new ≡ older self.old }
    {
        let Some(binding) = self.bindings.pop() else {
            return;
        };
        restore(&self.names, &mut self.newest, binding.name, binding.hidden);
    }
}

/// The place of the newest binding of a name.
fn newest_place(names: &NameSet<'_>, newest: &[Option<u32>], name: &[u8]) -> Option<u32>
    requires { length newest.now ≡ length names.now }
    ensures { result ≡ at_number newest.now (number_of names.now name.now) }
{
    match names.number_of(name) {
        Some(number) => newest[number as usize],
        None => None,
    }
}

/// The number of a name, which it gets where it has none. An error changes nothing.
fn number_in<'t>(
    names: &mut NameSet<'t>,
    newest: &mut Vec<Option<u32>>,
    name: &'t [u8],
) -> Result<usize, NoMemory>
    requires { length newest.old.items ≡ length names.old }
    ensures number { IfOk result (λ n. number_of names.new name.now ≡ Some n) }
    ensures within { IfOk result (λ n. n < length newest.new.items) }
    ensures same { (q : List ℕ) → at_number newest.new.items (number_of names.new q) ≡ at_number newest.old.items (number_of names.old q) }
    ensures long { length newest.new.items ≡ length names.new }
{
    match names.number_of(name) {
        Some(number) => Ok(number as usize),
        None => added(names, newest, name),
    }
}

/// The number that a new name gets. An error changes nothing.
fn added<'t>(
    names: &mut NameSet<'t>,
    newest: &mut Vec<Option<u32>>,
    name: &'t [u8],
) -> Result<usize, NoMemory>
    requires long { length newest.old.items ≡ length names.old }
    requires new { number_of names.old name.now ≡ None }
    ensures number { IfOk result (λ n. number_of names.new name.now ≡ Some n) }
    ensures within { IfOk result (λ n. n < length newest.new.items) }
    ensures same { (q : List ℕ) → at_number newest.new.items (number_of names.new q) ≡ at_number newest.old.items (number_of names.old q) }
    ensures long { length newest.new.items ≡ length names.new }
{
    if names.count() == u32::MAX {
        return Err(NoMemory);
    }
    let number = names.count() as usize;
    newest.push(None)?;
    match names.add(name) {
        Ok(()) => Ok(number),
        Err(_) => {
            newest.pop();
            Err(NoMemory)
        }
    }
}

/// The place of a binding behind these. `NoMemory` where there are too many.
fn place_behind<M>(bindings: &[Entry<'_, M>]) -> Result<u32, NoMemory>
    ensures { IfOk result (λ place. place ≡ length bindings.now) }
{
    let count = bindings.len();
    if count > 4_294_967_295 {
        return Err(NoMemory);
    }
    Ok(count as u32)
}

fn entry_at(newest: &[Option<u32>], number: usize) -> Option<u32>
    requires { number < length newest.now }
    ensures { result ≡ at_number newest.now (Some number) }
{
    newest[number]
}

/// The entry of a name as it was.
fn restore(names: &NameSet<'_>, newest: &mut Vec<Option<u32>>, name: &[u8], hidden: Option<u32>)
    requires { length newest.old.items ≡ length names.now }
    ensures { newest.new.items ≡ restored newest.old.items (number_of names.now name.now) hidden }
{
    if let Some(number) = names.number_of(name) {
        newest[number as usize] = hidden;
    }
}
