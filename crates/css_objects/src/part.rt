//! Objects in order of base.
ghost use Rattle.std.specs.Prelude.{◌≡◌, ◌+◌, ◌<◌, ◌≤◌, ◌&&◌, ◌++◌, ℕ, [], length, slice_get, slice_set, Some, None, MatchOption, OnOk, OnErr};
ghost use Rattle.std.specs.List.{list_any, remove};
ghost use Rattle.css_record.specs.Windows as records;
ghost use Rattle.css_objects.specs.Ordered.{HasNone, IsAscending, IsOfBase, IsSearch};
ghost use Rattle.css_arguments.specs.Lists.{Each};
ghost use Rattle.css_objects.specs.Found.{AreRows, NoneMeets, IsLastMeeting, IsGreatestMeeting, NoneShares, IsLastSharing, TakesAtMost};
ghost use Rattle.css_semantics.specs.WindowRanges.{window_meets};
ghost use Rattle.css_objects.specs.Table.{Entry, windows as windows_of, is_written, without, IsBlock, IsInserted};
ghost use Rattle.css_objects.specs.Seen.{ShowsAt, IsSeen};
ghost use Rattle.css_objects.specs.Versions.{versions, made_in, kept_in, left_in};
ghost use Rattle.std.specs.Vec.Iter.{into_iter_items};
ghost use Rattle.css_objects.specs.Naming.{version_of};

use crate::ordered::{Found, Ordered};
use crate::pending::{Pending, Probe, Version};
use crate::search::{last_meeting, last_meeting_block, last_sharing_block, last_sharing_row};
use crate::steps::Steps;
use crate::version::{Held, add_made, keep_all};
use css_arguments::{meets, same};
use css_base::{Buffer, NoMemory};
use css_record::{VersionName, Window};
use std::alloc::Global;
use std::marker::Model;
use std::sync::ledger::Ledger;
use std::vec::IntoIter;

/// Objects in order of base, each with its current version. Contracts see their list.
#[derive(Drop)]
pub(crate) struct Part {
    windows: Ordered,
    versions: Vec<Held>,
}

impl Model for Part {
    ghost use Rattle.std.specs.Prelude.{◌≡◌, List, length};
    ghost use Rattle.css_objects.specs.Table.{Entry, entries};

    ghost Value = { List Entry };

    ghost view = { λ p. entries p.windows p.versions.items };

    ghost invariant = { λ p. length p.versions.items ≡ length p.windows };
}

impl Part {
    /// No object. Takes no memory.
    pub(crate) fn new(alloc: Global) -> Part
        ensures { result ≡ [] }
    {
        Part {
            windows: Ordered::new(alloc),
            versions: Vec::new(alloc),
        }
    }

    /// How many objects there are.
    pub(crate) fn len(&self) -> usize
        ensures { result ≡ length self.now }
    {
        self.versions.len()
    }

    /// The window at a place, which is one step.
    pub(crate) fn read<L: Ledger>(&self, place: usize, steps: &mut Steps<L>) -> Window
        requires { place < length self.now }
        ensures value { slice_get (windows_of self.now) place ≡ Some result }
        ensures step { steps.new ≡ steps.old + 1 }
    {
        *self.windows.at(place, steps)
    }

    /// Lends the object at a place.
    pub(crate) fn pending(&self, place: usize, window: Window) -> Pending<'_>
        requires { slice_get (windows_of self.now) place ≡ Some window }
        ensures shows { ShowsAt self.now place result }
        ensures window { result.window ≡ window }
    {
        let version = &self.versions[place];
        let written = version.has_maker();
        let version = match version {
            Held::Made { task, out } => Version::Made {
                task: *task,
                out: *out,
            },
            Held::Kept { bytes, by: _ } => Version::Kept(bytes),
        };
        Pending {
            window,
            written,
            version,
        }
    }

    /// What is said of a window that was found.
    pub(crate) fn seen(&self, found: Found, window: &Window) -> Probe<'_>
        requires { slice_get (windows_of self.now) found.place ≡ Some found.window }
        ensures { IsSeen self.now found window.now result }
    {
        let equal = same(&found.window, window);
        if equal {
            return Probe::Same(self.pending(found.place, found.window));
        }
        Probe::Crosses(found.window)
    }

    /// Of windows of one row the one of greatest base that shares a byte with a window.
    pub(crate) fn last_row<L: Ledger>(&self, window: &Window, steps: &mut Steps<L>) -> Option<Found>
        requires rows { AreRows (windows_of self.now) }
        requires is_window { records.IsWindow (records.window window.now) }
        ensures found { MatchOption result (NoneShares (windows_of self.now) window.now) (IsLastSharing (windows_of self.now) window.now) }
        ensures cost { TakesAtMost (length self.now) 0 window.now.rows steps.old steps.new }
    {
        last_sharing_row(&self.windows, window, steps)
    }

    /// Of any windows the one of greatest base that shares a byte with a window.
    pub(crate) fn last_block<L: Ledger>(
        &self,
        window: &Window,
        steps: &mut Steps<L>,
    ) -> Option<Found>
        requires blocks { Each (windows_of self.now) IsBlock }
        requires is_window { records.IsWindow (records.window window.now) }
        ensures found { MatchOption result (NoneShares (windows_of self.now) window.now) (IsLastSharing (windows_of self.now) window.now) }
        ensures cost { steps.new ≤ steps.old + length self.now }
    {
        last_sharing_block(&self.windows, window, steps)
    }

    /// Of windows of one row the last one that has a byte from one address up to another.
    pub(crate) fn last_row_meeting<L: Ledger>(
        &self,
        from: u64,
        to: u64,
        steps: &mut Steps<L>,
    ) -> Option<Found>
        requires { AreRows (windows_of self.now) }
        ensures found { MatchOption result (NoneMeets (windows_of self.now) from to) (IsLastMeeting (windows_of self.now) from to) }
        ensures cost { IsSearch (length self.now) steps.old steps.new }
    {
        last_meeting(&self.windows, from, to, steps)
    }

    /// Of any windows the one of greatest base that has a byte from one address up to another.
    pub(crate) fn last_block_meeting<L: Ledger>(
        &self,
        from: u64,
        to: u64,
        steps: &mut Steps<L>,
    ) -> Option<Found>
        requires blocks { Each (windows_of self.now) IsBlock }
        requires some { from < to }
        ensures found { MatchOption result (NoneMeets (windows_of self.now) from to) (IsGreatestMeeting (windows_of self.now) from to) }
        ensures cost { steps.new ≤ steps.old + length self.now }
    {
        last_meeting_block(&self.windows, from, to, steps)
    }

    /// The window of a base.
    pub(crate) fn find<L: Ledger>(&self, base: u32, steps: &mut Steps<L>) -> Option<Found>
        ensures found { MatchOption result (HasNone (windows_of self.now) base) (IsOfBase (windows_of self.now) base) }
        ensures ascends { IsAscending (windows_of self.now) }
        ensures cost { IsSearch (length self.now) steps.old steps.new }
    {
        self.windows.find(base, steps)
    }

    /// Whether an object that a task may write has a byte from one address up to another. It reads each.
    pub(crate) fn has_written<L: Ledger>(&self, from: u64, to: u64, steps: &mut Steps<L>) -> bool
        requires are_windows { Each (windows_of self.now) IsBlock }
        requires some { from < to }
        ensures answer { result ≡ list_any (λ e. is_written e && window_meets (records.window e.window) from to) self.now }
        ensures cost { steps.new ≤ steps.old + length self.now }
    {
        for place in 0..self.len() {
            let window = self.read(place, steps);
            if self.is_met(place, &window, from, to) {
                return true;
            }
        }
        false
    }

    /// Without the object at a place.
    pub(crate) fn remove(&mut self, place: usize)
        requires { place < length self.old }
        ensures rest { self.new ≡ remove self.old place }
        ensures ascends { IsAscending (windows_of self.new) }
    {
        self.windows.remove(place);
        let _version = self.versions.remove(place);
    }

    /// Without the object of a base, if there is one.
    pub(crate) fn drop_base<L: Ledger>(&mut self, base: u32, steps: &mut Steps<L>)
        ensures rest { self.new ≡ without base self.old }
        ensures ascends { IsAscending (windows_of self.new) }
    {
        match self.find(base, steps) {
            Some(f) => self.remove(f.place),
            None => {}
        }
    }

    /// With an object more, whose base no other has. `NoMemory` leaves all as it was.
    pub(crate) fn insert<L: Ledger>(
        &mut self,
        window: Window,
        version: Held,
        steps: &mut Steps<L>,
    ) -> Result<(), NoMemory>
        requires { HasNone (windows_of self.old) window.base }
        ensures ok { OnOk result (IsInserted self.old window version self.new) }
        ensures err { OnErr result (self.new ≡ self.old) }
    {
        self.versions.reserve(1)?;
        let place = self.windows.insert(window, steps)?;
        self.versions.insert(place, version)?;
        Ok(())
    }

    /// Lends the version of the object of a window.
    pub(crate) fn held<L: Ledger>(&self, window: &Window, steps: &mut Steps<L>) -> Option<&Held>
        ensures { MatchOption result (version_of self.now window.now ≡ None) (λ v. version_of self.now window.now ≡ Some v.now) }
    {
        let found = self.find(window.base, steps)?;
        if same(&found.window, window) {
            Some(&self.versions[found.place])
        } else {
            None
        }
    }

    /// Gives the object at a place a new version.
    pub(crate) fn set(&mut self, place: usize, version: Held)
        requires { place < length self.old }
        ensures windows { windows_of self.new ≡ windows_of self.old }
        ensures versions { versions self.new ≡ slice_set (versions self.old) place version }
    {
        self.versions[place] = version;
    }

    /// Appends the names of the versions that tasks make. `NoMemory` may leave some of them appended.
    pub(crate) fn add_made(&self, names: &mut Vec<VersionName>) -> Result<(), NoMemory>
        ensures { OnOk result (names.new.items ≡ names.old.items ++ made_in (versions self.now)) }
    {
        add_made(&self.versions, names)
    }

    /// Puts buffers in the places of the versions that tasks make, one after another.
    pub(crate) fn keep(&mut self, kept: &mut IntoIter<Buffer>)
        ensures windows { windows_of self.new ≡ windows_of self.old }
        ensures versions { versions self.new ≡ kept_in (versions self.old) (into_iter_items kept.old) }
        ensures rest { into_iter_items kept.new ≡ left_in (versions self.old) (into_iter_items kept.old) }
    {
        keep_all(&mut self.versions, kept);
    }

    /// Without any object.
    pub(crate) fn clear(&mut self)
        ensures { self.new ≡ [] }
    {
        self.windows.clear();
        self.versions.clear();
    }

    // Whether the object at a place is one that a task may write, and has a byte from one address up to another.
    fn is_met(&self, place: usize, window: &Window, from: u64, to: u64) -> bool
        requires place { slice_get (windows_of self.now) place ≡ Some window.now }
        requires is_window { records.IsWindow (records.window window.now) }
        requires some { from < to }
        ensures { (e : Entry) → slice_get self.now place ≡ Some e → result ≡ (is_written e && window_meets (records.window e.window) from to) }
    {
        let met = meets(window, from, to);
        let written = self.versions[place].has_maker();
        written && met
    }
}
