//! Lists of lengths, each with a number.
ghost use Rattle.std.specs.Prelude.{◌≡◌, ◌<◌, ◌≤◌, ◌∷◌, ◌*◌, [], ℕ, length, get_or, IfOk, IfSome, IfNone};
ghost use Rattle.css_types.specs.Types.{biggest};
ghost use Rattle.css_type_table.specs.Lists.{list_at, IsRow, elements_of, StandsAt, IsOnce};

use css_base::NoMemory;
use indexmap::IndexSet;
use std::alloc::Global;
use std::marker::Model;

/// A list of lengths: one before those of an older row, with the number of elements of such arrays.
#[derive(Clone, Copy, PartialEq, Eq, Hash)]
pub(crate) struct Row {
    pub(crate) count: u32,
    pub(crate) rest: Option<u32>,
    pub(crate) elements: u32,
}

/// Lists of lengths, each once. Contracts see the lists.
#[derive(Drop)]
pub(crate) struct Rows {
    rows: IndexSet<Row>,
}

impl Model for Rows {
    ghost use Rattle.std.specs.Prelude.{ℕ, List};

    ghost Value = { List (List ℕ) };

    ghost use Rattle.css_type_table.specs.Lists.{lists_of, AreRows};

    ghost view = { λ r. lists_of r.rows.keys };

    ghost invariant = { λ r. AreRows r.rows.keys };
}

impl Rows {
    /// No lists. Takes no memory.
    pub(crate) fn new(alloc: Global) -> Rows
        ensures { result ≡ [] }
    {
        Rows {
            rows: IndexSet::new(alloc),
        }
    }

    /// The list of this number, if there is one.
    pub(crate) fn at(&self, number: u32) -> Option<Row>
        ensures found { IfSome result (StandsAt self.now number) }
        ensures none { IfNone result (length self.now ≤ number) }
        ensures within { IfSome result (λ _. number < length self.now) }
        ensures once { IsOnce self.now }
    {
        match self.rows.get_index(number as usize) {
            Some(row) => Some(*row),
            None => None,
        }
    }

    /// The number of the list that is this length before those of a row. A list that has none gets the next one.
    pub(crate) fn number_of(&mut self, row: Row) -> Result<u32, NoMemory>
        requires rest { IsRow self.old row.rest }
        requires elements { row.elements ≡ row.count * elements_of (list_at self.old row.rest) }
        requires some { 0 < row.elements }
        requires few { row.elements ≤ biggest }
        ensures list { IfOk result (λ n. get_or self.new n [] ≡ row.count ∷ list_at self.old row.rest) }
        ensures within { IfOk result (λ n. n < length self.new) }
        ensures kept { (n : ℕ) → n < length self.old → get_or self.new n [] ≡ get_or self.old n [] }
        ensures longer { length self.old ≤ length self.new }
    {
        if self.rows.len() >= u32::MAX as usize {
            return Err(NoMemory);
        }
        let (number, _) = self.rows.insert_full(row)?;
        Ok(number as u32)
    }
}
