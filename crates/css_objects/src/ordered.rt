//! Windows in order of base.
ghost use Rattle.std.specs.Prelude.{◌≡◌, ◌+◌, ◌*◌, ◌^◌, ◌<◌, ◌≤◌, ℕ, [], ◌∷◌, length, slice_get, Some, MatchOption, IfOk, OnErr};
ghost use Rattle.std.specs.List.{filter, remove, insert};
ghost use Rattle.css_objects.specs.Table.{is_other};
ghost use Rattle.css_objects.specs.Ordered.{StandAbove, IsAscending, IsLastBelow, IsOfBase, HasNone, IsSearch, IsGap};

use crate::steps::Steps;
use css_base::NoMemory;
use css_record::Window;
use indexmap::IndexMap;
use std::alloc::Global;
use std::marker::Model;
use std::sync::ledger::Ledger;

/// A window that was found among others, with its place.
#[derive(Clone, Copy)]
pub struct Found {
    pub place: usize,
    pub window: Window,
}

/// Windows in order of base, no two of one base. Contracts see their list.
#[derive(Drop)]
pub struct Ordered {
    windows: IndexMap<u32, Window>,
}

impl Model for Ordered {
    ghost use Rattle.std.specs.Prelude.{List};
    ghost use Rattle.css_record.specs.declared.window.Window.{Window};
    ghost use Rattle.indexmap.specs.IndexMap.{keys, values};
    ghost use Rattle.css_objects.specs.Ordered.{IsInOrder};

    ghost Value = { List Window };

    ghost view = { λ o. values o.windows };

    ghost invariant = { λ o. IsInOrder (keys o.windows) (values o.windows) };
}

impl Ordered {
    /// No window. Takes no memory.
    pub(crate) fn new(alloc: Global) -> Ordered
        ensures { result ≡ [] }
    {
        Ordered {
            windows: IndexMap::new(alloc),
        }
    }

    /// How many windows there are.
    pub fn len(&self) -> usize
        ensures count { result ≡ length self.now }
        ensures small { result < 2 ^ 63 }
        ensures ascends { IsAscending self.now }
    {
        self.windows.len()
    }

    /// The window at a place, which is one step.
    pub fn at<L: Ledger>(&self, place: usize, steps: &mut Steps<L>) -> &Window
        requires { place < length self.now }
        ensures value { slice_get self.now place ≡ Some result.now }
        ensures step { steps.new ≡ steps.old + 1 }
    {
        steps.tick();
        &self.windows[place]
    }

    /// The last window that begins below an address.
    pub fn last_below<L: Ledger>(&self, end: u64, steps: &mut Steps<L>) -> Option<Found>
        ensures found { MatchOption result (StandAbove self.now end 0) (IsLastBelow self.now end) }
        ensures cost { IsSearch (length self.now) steps.old steps.new }
    {
        let mut low = 0;
        let mut high = self.len();
        let mut found = None;
        while low < high {
            let place = low + (high - low) / 2;
            let window = *self.at(place, steps);
            if u64::from(window.base) < end {
                found = Some(Found { place, window });
                low = place + 1;
            } else {
                high = place;
            }
        }
        found
    }

    /// Without the window at a place.
    pub(crate) fn remove(&mut self, place: usize)
        requires { place < length self.old }
        ensures rest { self.new ≡ remove self.old place }
        ensures ascends { IsAscending self.new }
    {
        let _removed = self.windows.shift_remove_index(place);
    }

    /// Without the window of a base, if there is one.
    pub(crate) fn drop_base<L: Ledger>(&mut self, base: u32, steps: &mut Steps<L>)
        ensures rest { self.new ≡ filter (is_other base) self.old }
        ensures ascends { IsAscending self.new }
    {
        match self.find(base, steps) {
            Some(f) => self.remove(f.place),
            None => {}
        }
    }

    /// With a window more, whose base no other has. The answer is its place. `NoMemory` leaves all as it was.
    pub(crate) fn insert<L: Ledger>(
        &mut self,
        window: Window,
        steps: &mut Steps<L>,
    ) -> Result<usize, NoMemory>
        requires { HasNone self.old window.base }
        ensures ok { IfOk result (λ place. IsGap self.old place window.base × (self.new ≡ insert self.old place window)) }
        ensures err { OnErr result (self.new ≡ self.old) }
        ensures ascends { IsAscending self.new }
    {
        let place = self.gap(window.base, steps);
        let _none = self.windows.shift_insert(place, window.base, window)?;
        Ok(place)
    }

    // Where a window of a base that no other has would stand.
    fn gap<L: Ledger>(&self, base: u32, steps: &mut Steps<L>) -> usize
        requires { HasNone self.now base }
        ensures gap { IsGap self.now result base }
        ensures ascends { IsAscending self.now }
    {
        let _count = self.len();
        match self.last_below(u64::from(base), steps) {
            Some(f) => f.place + 1,
            None => 0,
        }
    }

    /// Without any window.
    pub(crate) fn clear(&mut self)
        ensures { self.new ≡ [] }
    {
        self.windows.clear();
    }

    /// The window of a base.
    pub fn find<L: Ledger>(&self, base: u32, steps: &mut Steps<L>) -> Option<Found>
        ensures found { MatchOption result (HasNone self.now base) (IsOfBase self.now base) }
        ensures ascends { IsAscending self.now }
        ensures cost { IsSearch (length self.now) steps.old steps.new }
    {
        let _count = self.len();
        let found = self.last_below(u64::from(base) + 1, steps)?;
        if found.window.base == base {
            Some(found)
        } else {
            None
        }
    }
}
