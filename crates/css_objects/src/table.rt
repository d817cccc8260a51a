//! The table of pending objects.
ghost use Rattle.std.specs.Prelude.{filter, true, false, ◌≡◌, ◌==◌, ◌≢◌, ◌+◌, ◌≤◌, ℕ, not, map, length, slice_get, Some, MatchOption, IfOk, OnOk, OnErr, ◌<◌, ◌&&◌, IsPermutation, None};
ghost use Rattle.std.specs.List.{remove};
ghost use Rattle.css_semantics.specs.Tasks.{is_same_window, writes};
ghost use Rattle.css_semantics.specs.Pending.{without_stored};
ghost use Rattle.std.specs.List.{list_any};
ghost use Rattle.css_semantics.specs.Rules.{share_byte, meets, overlap, overlaps_partly};
ghost use Rattle.css_arguments.specs.Arguments.{given, HaveElements, AreFit, AreWindows};
ghost use Rattle.css_arguments.specs.Layouts.{IsLayout};
ghost use Rattle.css_objects.specs.Judged.{judgement, broken_by, JudgesWithin};
ghost use Rattle.css_objects.specs.Versions.{versions, made_in, kept_in};
ghost use Rattle.css_objects.specs.Naming.{AreClear, AreMakers, version_of, or_snapshot, read_for, read_by, given_by, names_in, bytes_in, renames, next_out, with_version, with_read, with_one, with_given};
ghost use Rattle.css_objects.specs.Ordered.{HasNone, IsOfBase};
ghost use Rattle.css_objects.specs.declared.version.Held.TheVariants as held;
ghost use Rattle.css_record.specs.Windows as records;
ghost use Rattle.css_arguments.specs.Lists.{Each};
ghost use Rattle.css_objects.specs.Found.{NoneMeets, IsLastMeeting, IsGreatestMeeting, NoneShares, IsLastSharing, TakesAtMost};
ghost use Rattle.css_objects.specs.Table.{Entry, no_objects, all_entries, objects, windows, is_written, without};
ghost use Rattle.css_objects.specs.Stored.{without_read, IsUntouched, IsTaken};
ghost use Rattle.css_objects.specs.Seen.{ShowsAt, IsShown, IsProbe, crosses};

use crate::naming::{Named, bytes_of, makers_of, names_of, next_of};
use crate::ordered::{Found, Ordered};
use crate::part::Part;
use crate::pending::{Pending, Probe};
use crate::search::{Place, any_meeting, later};
use crate::steps::Steps;
use crate::version::Held;
use css_arguments::{
    Argument, any_alias, any_dead, any_unfit, is_read, is_written, overlaps_given, room, same,
    window_at, windows_of,
};
use css_base::{Buffer, Direction, NoMemory, Rule};
use css_record::{Layout, VersionName, Window};
use std::alloc::Global;
use std::marker::{Brand, Model};
use std::sync::ledger::{Blank, Ledger};

/// The objects that tasks may still read or write, each with its current version. Contracts see those of one row and the others,
/// each in order of base.
#[derive(Drop)]
pub struct ObjectTable {
    rows: Part,
    blocks: Part,
    // The windows of one row that a task may write.
    written: Ordered,
}

impl Model for ObjectTable {
    ghost use Rattle.css_objects.specs.Table.{Table, IsTable};

    ghost Value = { Table };

    ghost view = { λ t. record { rows = t.rows; blocks = t.blocks } };

    ghost invariant = { λ t. IsTable t.rows t.blocks t.written };
}

impl ObjectTable {
    /// No object. Takes no memory.
    pub fn new(alloc: Global) -> ObjectTable
        ensures { result ≡ no_objects }
    {
        ObjectTable {
            rows: Part::new(alloc),
            blocks: Part::new(alloc),
            written: Ordered::new(alloc),
        }
    }

    /// Whether main may load so many bytes from an address: no task may write one of them.
    pub fn allows_load<L: Ledger>(&self, address: u32, count: u32, steps: &mut Steps<L>) -> bool
        ensures answer { result ≡ not (meets (λ o. o.is_written) (objects self.now) address count) }
        ensures cost { TakesAtMost (length self.now.rows) (length self.now.blocks) 1 steps.old steps.new }
    {
        !self.has_written(address, count, steps)
    }

    /// Whether main may store so many bytes from an address: no task may write one of them.
    pub fn allows_store<L: Ledger>(&self, address: u32, count: u32, steps: &mut Steps<L>) -> bool
        ensures answer { result ≡ not (meets (λ o. o.is_written) (objects self.now) address count) }
        ensures cost { TakesAtMost (length self.now.rows) (length self.now.blocks) 1 steps.old steps.new }
    {
        !self.has_written(address, count, steps)
    }

    // Whether a task may write one of so many bytes from an address.
    fn has_written<L: Ledger>(&self, address: u32, count: u32, steps: &mut Steps<L>) -> bool
        ensures answer { result ≡ meets (λ o. o.is_written) (objects self.now) address count }
        ensures cost { TakesAtMost (length self.now.rows) (length self.now.blocks) 1 steps.old steps.new }
    {
        if count == 0 {
            return false;
        }
        let from = u64::from(address);
        let to = from + u64::from(count);
        let row = any_meeting(&self.written, from, to, steps);
        let block = self.blocks.has_written(from, to, steps);
        row || block
    }

    /// Whether main may leave a frame: no pending object shares a byte with it.
    pub fn leaves_frame<L: Ledger>(&self, window: Window, steps: &mut Steps<L>) -> bool
        requires { records.IsWindow (records.window window) }
        ensures answer { result ≡ not (list_any (λ o. share_byte (records.window window) o.window) (objects self.now)) }
        ensures frame { window.rows ≡ 1 → result ≡ not (meets (λ o. true) (objects self.now) window.base window.width) }
        ensures cost { TakesAtMost (length self.now.rows) (length self.now.blocks) window.rows steps.old steps.new }
    {
        let row = self.rows.last_row(&window, steps).is_none();
        let block = self.blocks.last_block(&window, steps).is_none();
        row && block
    }

    /// The pending object at a place of the table: those of one row in order of base, and then the others in order of base.
    pub fn object(&self, place: usize) -> Option<Pending<'_>>
        ensures { MatchOption result (length (all_entries self.now) ≤ place) (ShowsAt (all_entries self.now) place) }
    {
        self.object_from::<Brand>(place, Blank::new(1))
    }

    // The same, with a ledger for its step.
    fn object_from<L: Ledger>(&self, place: usize, blank: Blank) -> Option<Pending<'_>>
        requires name { blank.name ≡ L.name }
        requires parts { blank.parts ≡ L.parts }
        requires some { 0 < L.parts }
        ensures { MatchOption result (length (all_entries self.now) ≤ place) (ShowsAt (all_entries self.now) place) }
    {
        let mut steps = Steps::<L>::new(blank);
        let count = self.rows.len();
        if place < count {
            let window = self.rows.read(place, &mut steps);
            return Some(self.rows.pending(place, window));
        }
        if place - count < self.blocks.len() {
            let window = self.blocks.read(place - count, &mut steps);
            return Some(self.blocks.pending(place - count, window));
        }
        None
    }

    /// The pending object of a base.
    pub fn pending_at<L: Ledger>(&self, base: u32, steps: &mut Steps<L>) -> Option<Pending<'_>>
        ensures answer { MatchOption result (list_any (λ o. o.window.base == base) (objects self.now) ≡ false) (λ p. (p.window.base ≡ base) × IsShown self.now p) }
        ensures cost { TakesAtMost (length self.now.rows) (length self.now.blocks) 1 steps.old steps.new }
    {
        match self.rows.find(base, steps) {
            Some(f) => return Some(self.rows.pending(f.place, f.window)),
            None => {}
        }
        let found = self.blocks.find(base, steps)?;
        Some(self.blocks.pending(found.place, found.window))
    }

    /// Whether a task that reads a window needs its bytes now: it isn't the window of a pending object.
    pub fn needs_snapshot<L: Ledger>(&self, window: Window, steps: &mut Steps<L>) -> bool
        requires { records.IsWindow (records.window window) }
        ensures answer { result ≡ not (list_any (λ o. is_same_window (records.window window) o.window) (objects self.now)) }
        ensures cost { TakesAtMost (length self.now.rows) (length self.now.blocks) window.rows steps.old steps.new }
    {
        match self.rows.find(window.base, steps) {
            Some(f) => return !same(&f.window, &window),
            None => {}
        }
        match self.blocks.find(window.base, steps) {
            Some(f) => !same(&f.window, &window),
            None => true,
        }
    }

    /// Main stores so many bytes from an address. Of the objects that have one of them, which tasks only read, the one of greatest
    /// base isn't pending any more, and its window is answered. None where no object has one.
    pub fn stored<L: Ledger>(
        &mut self,
        address: u32,
        count: u32,
        steps: &mut Steps<L>,
    ) -> Option<Window>
        requires allowed { meets (λ o. o.is_written) (objects self.old) address count ≡ false }
        ensures taken { MatchOption result (IsUntouched self.old address count self.new) (IsTaken self.old address count self.new) }
        ensures left { without_stored (objects self.new) address count ≡ without_stored (objects self.old) address count }
        ensures rest { MatchOption result (all_entries self.new ≡ without_read (all_entries self.old) address count) (λ w. without_read (all_entries self.new) address count ≡ without_read (all_entries self.old) address count) }
        ensures cost { TakesAtMost (length self.old.rows) (length self.old.blocks) 1 steps.old steps.new }
    {
        if count == 0 {
            return None;
        }
        let from = u64::from(address);
        let to = from + u64::from(count);
        let row = self.rows.last_row_meeting(from, to, steps);
        let block = self.blocks.last_block_meeting(from, to, steps);
        match later(row, block)? {
            Place::Row(f) => {
                self.take_row(f);
                Some(f.window)
            }
            Place::Block(f) => {
                self.take_block(f);
                Some(f.window)
            }
        }
    }

    /// Names what a call of a task reads and makes, and enters it: each window that it writes gets a new version, and one that it only
    /// reads is an object too. A snapshot has the bytes of a window that is read and isn't pending. `NoMemory` may leave some of the
    /// call's windows entered.
    pub fn name_args(
        &mut self,
        alloc: Global,
        arguments: &[Argument],
        number: u64,
        snapshots: Vec<Option<Buffer>>,
    ) -> Result<Named, NoMemory>
        requires few { length arguments.now ≤ 32 }
        requires fit { AreFit arguments.now }
        requires apart { list_any (overlaps_partly (objects self.old) (map given arguments.now)) (map given arguments.now) ≡ false }
        requires snapshots { length snapshots.items ≡ length arguments.now }
        ensures windows { IfOk result (λ n. AreWindows arguments.now n.windows.items) }
        ensures inputs { IfOk result (λ n. n.inputs.items ≡ names_in 0 (read_by (all_entries self.old) (given_by n.windows.items arguments.now snapshots.items))) }
        ensures given { IfOk result (λ n. n.given.items ≡ bytes_in (read_by (all_entries self.old) (given_by n.windows.items arguments.now snapshots.items))) }
        ensures renamed { IfOk result (λ n. n.renamed.items ≡ map (renames (objects self.old)) (map given arguments.now)) }
        ensures producers { IfOk result (λ n. AreMakers (read_by (all_entries self.old) (given_by n.windows.items arguments.now snapshots.items)) n.producers.items) }
        ensures entered { IfOk result (λ n. IsPermutation (all_entries self.new) (with_given number 0 (all_entries self.old) (given_by n.windows.items arguments.now snapshots.items))) }
    {
        self.name_from::<Brand>(alloc, arguments, number, snapshots, Blank::new(1))
    }

    // The same, with a ledger for its steps.
    fn name_from<L: Ledger>(
        &mut self,
        alloc: Global,
        arguments: &[Argument],
        number: u64,
        snapshots: Vec<Option<Buffer>>,
        blank: Blank,
    ) -> Result<Named, NoMemory>
        requires name { blank.name ≡ L.name }
        requires parts { blank.parts ≡ L.parts }
        requires some { 0 < L.parts }
        requires few { length arguments.now ≤ 32 }
        requires fit { AreFit arguments.now }
        requires apart { list_any (overlaps_partly (objects self.old) (map given arguments.now)) (map given arguments.now) ≡ false }
        requires snapshots { length snapshots.items ≡ length arguments.now }
        ensures windows { IfOk result (λ n. AreWindows arguments.now n.windows.items) }
        ensures inputs { IfOk result (λ n. n.inputs.items ≡ names_in 0 (read_by (all_entries self.old) (given_by n.windows.items arguments.now snapshots.items))) }
        ensures given { IfOk result (λ n. n.given.items ≡ bytes_in (read_by (all_entries self.old) (given_by n.windows.items arguments.now snapshots.items))) }
        ensures renamed { IfOk result (λ n. n.renamed.items ≡ map (renames (objects self.old)) (map given arguments.now)) }
        ensures producers { IfOk result (λ n. AreMakers (read_by (all_entries self.old) (given_by n.windows.items arguments.now snapshots.items)) n.producers.items) }
        ensures entered { IfOk result (λ n. IsPermutation (all_entries self.new) (with_given number 0 (all_entries self.old) (given_by n.windows.items arguments.now snapshots.items))) }
    {
        let mut steps = Steps::<L>::new(blank);
        let windows = windows_of(alloc, arguments)?;
        let reads = self.reads_of(alloc, &windows, arguments, &snapshots, &mut steps)?;
        let renamed = self.renamed_of(alloc, &windows, arguments, &mut steps)?;
        let inputs = names_of(alloc, &reads)?;
        let given = bytes_of(alloc, &reads)?;
        let producers = makers_of(alloc, &reads)?;
        self.give_all(&windows, arguments, number, snapshots, &mut steps)?;
        Ok(Named {
            windows,
            inputs,
            given,
            renamed,
            producers,
        })
    }

    // The versions that a call reads, in order.
    fn reads_of<L: Ledger>(
        &self,
        alloc: Global,
        windows: &[Window],
        arguments: &[Argument],
        snapshots: &[Option<Buffer>],
        steps: &mut Steps<L>,
    ) -> Result<Vec<Held>, NoMemory>
        requires windows { length windows.now ≡ length arguments.now }
        requires snapshots { length snapshots.now ≡ length arguments.now }
        ensures { IfOk result (λ versions. versions.items ≡ read_by (all_entries self.now) (given_by windows.now arguments.now snapshots.now)) }
    {
        let mut versions = Vec::new(alloc);
        for place in 0..arguments.len() {
            let direction = arguments[place].direction;
            match self.read_for(direction, &windows[place], &snapshots[place], steps)? {
                Some(v) => versions.push(v)?,
                None => {}
            }
        }
        Ok(versions)
    }

    // The version that is read for a pointer, if it is read.
    fn read_for<L: Ledger>(
        &self,
        direction: Direction,
        window: &Window,
        snapshot: &Option<Buffer>,
        steps: &mut Steps<L>,
    ) -> Result<Option<Held>, NoMemory>
        ensures { IfOk result (λ v. v ≡ read_for (all_entries self.now) (record { window = window.now; direction = direction; snapshot = snapshot.now })) }
    {
        if is_read(direction) {
            self.read_version(window, snapshot, steps)
        } else {
            Ok(None)
        }
    }

    // For each argument whether it is written and its window was an object.
    fn renamed_of<L: Ledger>(
        &self,
        alloc: Global,
        windows: &[Window],
        arguments: &[Argument],
        steps: &mut Steps<L>,
    ) -> Result<Vec<bool>, NoMemory>
        requires { AreWindows arguments.now windows.now }
        ensures { IfOk result (λ renamed. renamed.items ≡ map (renames (objects self.now)) (map given arguments.now)) }
    {
        let mut renamed = Vec::new(alloc);
        for place in 0..arguments.len() {
            let direction = arguments[place].direction;
            renamed.push(self.is_renamed(direction, &windows[place], steps))?;
        }
        Ok(renamed)
    }

    // Whether a window is written and is an object's.
    fn is_renamed<L: Ledger>(
        &self,
        direction: Direction,
        window: &Window,
        steps: &mut Steps<L>,
    ) -> bool
        ensures { result ≡ (writes direction && list_any (λ o. is_same_window (records.window window.now) o.window) (objects self.now)) }
    {
        let there = self.held(window, steps).is_some();
        is_written(direction) && there
    }

    // Enters what a call is given.
    fn give_all<L: Ledger>(
        &mut self,
        windows: &[Window],
        arguments: &[Argument],
        number: u64,
        snapshots: Vec<Option<Buffer>>,
        steps: &mut Steps<L>,
    ) -> Result<(), NoMemory>
        requires windows { length windows.now ≡ length arguments.now }
        requires snapshots { length snapshots.items ≡ length arguments.now }
        requires few { length windows.now ≤ 32 }
        requires are { Each windows.now (λ w. records.IsWindow (records.window w)) }
        requires clear { AreClear windows.now (objects self.old) }
        ensures { OnOk result (IsPermutation (all_entries self.new) (with_given number 0 (all_entries self.old) (given_by windows.now arguments.now snapshots.items))) }
    {
        let mut snapshots = snapshots.into_iter();
        let mut out: u32 = 0;
        for place in 0..windows.len() {
            let direction = arguments[place].direction;
            let snapshot = next_of(&mut snapshots);
            out = self.give(windows[place], direction, number, out, snapshot, steps)?;
        }
        Ok(())
    }

    // Enters what a call is given for a pointer. The answer is the number of the next writing parameter.
    fn give<L: Ledger>(
        &mut self,
        window: Window,
        direction: Direction,
        number: u64,
        out: u32,
        snapshot: Option<Buffer>,
        steps: &mut Steps<L>,
    ) -> Result<u32, NoMemory>
        requires few { out < 32 }
        requires is_window { records.IsWindow (records.window window) }
        requires clear { list_any (λ o. overlap (records.window window) o.window) (objects self.old) ≡ false }
        ensures out { IfOk result (λ next. next ≡ next_out out direction) }
        ensures entered { OnOk result (IsPermutation (all_entries self.new) (with_one number out (all_entries self.old) (record { window = window; direction = direction; snapshot = snapshot }))) }
    {
        if is_written(direction) {
            self.make(window, number, out, steps)?;
            return Ok(out + 1);
        }
        match snapshot {
            Some(bytes) => self.read(window, bytes, steps)?,
            None => {}
        }
        Ok(out)
    }

    // Lends the version of the object of a window.
    fn held<L: Ledger>(&self, window: &Window, steps: &mut Steps<L>) -> Option<&Held>
        ensures { MatchOption result (version_of (all_entries self.now) window.now ≡ None) (λ v. version_of (all_entries self.now) window.now ≡ Some v.now) }
    {
        match self.rows.held(window, steps) {
            Some(v) => Some(v),
            None => self.blocks.held(window, steps),
        }
    }

    // The version of a window's object, or else a copy of its bytes, if there is one.
    fn read_version<L: Ledger>(
        &self,
        window: &Window,
        snapshot: &Option<Buffer>,
        steps: &mut Steps<L>,
    ) -> Result<Option<Held>, NoMemory>
        ensures { IfOk result (λ v. v ≡ or_snapshot (version_of (all_entries self.now) window.now) snapshot.now) }
    {
        match self.held(window, steps) {
            Some(v) => Ok(Some(v.share()?)),
            None => match snapshot {
                Some(bytes) => Ok(Some(Held::Kept {
                    bytes: bytes.share()?,
                    by: None,
                })),
                None => Ok(None),
            },
        }
    }

    // Gives a window's object, which may be new, the version that a task makes of it. `NoMemory` leaves all as it was.
    fn make<L: Ledger>(
        &mut self,
        window: Window,
        task: u64,
        out: u32,
        steps: &mut Steps<L>,
    ) -> Result<(), NoMemory>
        requires is_window { records.IsWindow (records.window window) }
        requires clear { list_any (λ o. overlap (records.window window) o.window) (objects self.old) ≡ false }
        ensures ok { OnOk result (IsPermutation (all_entries self.new) (with_version (all_entries self.old) window (held.Made task out))) }
        ensures err { OnErr result (self.new ≡ self.old) }
    {
        if 1 < window.rows {
            return self.make_block(window, task, out, steps);
        }
        match self.rows.find(window.base, steps) {
            Some(f) => self.make_old(f, window, task, out, steps),
            None => self.make_new(window, task, out, steps),
        }
    }

    // The same of several rows.
    fn make_block<L: Ledger>(
        &mut self,
        window: Window,
        task: u64,
        out: u32,
        steps: &mut Steps<L>,
    ) -> Result<(), NoMemory>
        requires is_window { records.IsWindow (records.window window) }
        requires several { 1 < window.rows }
        requires clear { list_any (λ o. overlap (records.window window) o.window) (objects self.old) ≡ false }
        ensures ok { OnOk result (IsPermutation (all_entries self.new) (with_version (all_entries self.old) window (held.Made task out))) }
        ensures err { OnErr result (self.new ≡ self.old) }
    {
        match self.blocks.find(window.base, steps) {
            Some(f) => {
                self.blocks.set(f.place, Held::Made { task, out });
                Ok(())
            }
            None => self.blocks.insert(window, Held::Made { task, out }, steps),
        }
    }

    // The same of one row that is an object.
    fn make_old<L: Ledger>(
        &mut self,
        found: Found,
        window: Window,
        task: u64,
        out: u32,
        steps: &mut Steps<L>,
    ) -> Result<(), NoMemory>
        requires is_window { records.IsWindow (records.window window) }
        requires found { IsOfBase (windows self.old.rows) window.base found }
        requires clear { list_any (λ o. overlap (records.window window) o.window) (objects self.old) ≡ false }
        ensures ok { OnOk result (IsPermutation (all_entries self.new) (with_version (all_entries self.old) window (held.Made task out))) }
        ensures err { OnErr result (self.new ≡ self.old) }
    {
        match self.written.find(window.base, steps) {
            Some(_) => {
                self.rows.set(found.place, Held::Made { task, out });
                Ok(())
            }
            None => {
                let _place = self.written.insert(window, steps)?;
                self.rows.set(found.place, Held::Made { task, out });
                Ok(())
            }
        }
    }

    // The same of one row that is no object.
    fn make_new<L: Ledger>(
        &mut self,
        window: Window,
        task: u64,
        out: u32,
        steps: &mut Steps<L>,
    ) -> Result<(), NoMemory>
        requires is_window { records.IsWindow (records.window window) }
        requires one { window.rows ≡ 1 }
        requires none { HasNone (windows self.old.rows) window.base }
        requires clear { list_any (λ o. overlap (records.window window) o.window) (objects self.old) ≡ false }
        ensures ok { OnOk result (IsPermutation (all_entries self.new) (with_version (all_entries self.old) window (held.Made task out))) }
        ensures err { OnErr result (self.new ≡ self.old) }
    {
        let _place = self.written.insert(window, steps)?;
        match self.rows.insert(window, Held::Made { task, out }, steps) {
            Ok(()) => Ok(()),
            Err(e) => {
                self.written.drop_base(window.base, steps);
                Err(e)
            }
        }
    }

    // With an object that tasks only read, if it isn't there. `NoMemory` leaves all as it was.
    fn read<L: Ledger>(
        &mut self,
        window: Window,
        bytes: Buffer,
        steps: &mut Steps<L>,
    ) -> Result<(), NoMemory>
        requires is_window { records.IsWindow (records.window window) }
        requires clear { list_any (λ o. overlap (records.window window) o.window) (objects self.old) ≡ false }
        ensures ok { OnOk result (IsPermutation (all_entries self.new) (with_read (all_entries self.old) window bytes)) }
        ensures err { OnErr result (self.new ≡ self.old) }
    {
        if window.rows == 1 {
            self.read_row(window, bytes, steps)
        } else {
            self.read_block(window, bytes, steps)
        }
    }

    // The same of one row.
    fn read_row<L: Ledger>(
        &mut self,
        window: Window,
        bytes: Buffer,
        steps: &mut Steps<L>,
    ) -> Result<(), NoMemory>
        requires is_window { records.IsWindow (records.window window) }
        requires one { window.rows ≡ 1 }
        requires clear { list_any (λ o. overlap (records.window window) o.window) (objects self.old) ≡ false }
        ensures ok { OnOk result (IsPermutation (all_entries self.new) (with_read (all_entries self.old) window bytes)) }
        ensures err { OnErr result (self.new ≡ self.old) }
    {
        match self.rows.find(window.base, steps) {
            Some(_) => Ok(()),
            None => self
                .rows
                .insert(window, Held::Kept { bytes, by: None }, steps),
        }
    }

    // The same of several rows.
    fn read_block<L: Ledger>(
        &mut self,
        window: Window,
        bytes: Buffer,
        steps: &mut Steps<L>,
    ) -> Result<(), NoMemory>
        requires is_window { records.IsWindow (records.window window) }
        requires several { 1 < window.rows }
        requires clear { list_any (λ o. overlap (records.window window) o.window) (objects self.old) ≡ false }
        ensures ok { OnOk result (IsPermutation (all_entries self.new) (with_read (all_entries self.old) window bytes)) }
        ensures err { OnErr result (self.new ≡ self.old) }
    {
        match self.blocks.find(window.base, steps) {
            Some(_) => Ok(()),
            None => self
                .blocks
                .insert(window, Held::Kept { bytes, by: None }, steps),
        }
    }

    // Without an object of one row that tasks only read.
    fn take_row(&mut self, found: Found)
        requires stands { slice_get (windows self.old.rows) found.place ≡ Some found.window }
        requires unwritten { (e : Entry) → slice_get self.old.rows found.place ≡ Some e → is_written e ≡ false }
        ensures rows { self.new.rows ≡ remove self.old.rows found.place }
        ensures blocks { self.new.blocks ≡ self.old.blocks }
    {
        self.rows.remove(found.place);
    }

    // Without an object of several rows.
    fn take_block(&mut self, found: Found)
        requires stands { slice_get (windows self.old.blocks) found.place ≡ Some found.window }
        ensures rows { self.new.rows ≡ self.old.rows }
        ensures blocks { self.new.blocks ≡ remove self.old.blocks found.place }
    {
        self.blocks.remove(found.place);
    }

    /// Whether a call breaks a rule on what it is given: the first of X3 to X7 that it breaks.
    pub fn judge<L: Ledger>(
        &self,
        arguments: &[Argument],
        layout: &Layout,
        local_store: u32,
        steps: &mut Steps<L>,
    ) -> Result<(), Rule>
        requires few { length arguments.now ≤ 32 }
        requires elements { HaveElements arguments.now }
        requires layout { IsLayout layout.now }
        ensures answer { result ≡ judgement (broken_by layout.now local_store self.now arguments.now) }
        ensures fit { OnOk result (AreFit arguments.now) }
        ensures apart { OnOk result (list_any (overlaps_partly (objects self.now) (map given arguments.now)) (map given arguments.now) ≡ false) }
        ensures cost { JudgesWithin self.now arguments.now steps.old steps.new }
    {
        if any_unfit(arguments) {
            return Err(Rule::Dimension);
        }
        if u64::from(local_store) < room(arguments) {
            return Err(Rule::TooLarge);
        }
        if any_dead(arguments, layout) {
            return Err(Rule::DeadArgument);
        }
        if self.overlaps_partly(arguments, steps) {
            return Err(Rule::PartialOverlap);
        }
        if any_alias(arguments) {
            return Err(Rule::AliasedArguments);
        }
        Ok(())
    }

    // Whether the window of an argument shares a byte with an object or with the window of another one, and isn't equal to it.
    fn overlaps_partly<L: Ledger>(&self, arguments: &[Argument], steps: &mut Steps<L>) -> bool
        requires { AreFit arguments.now }
        ensures answer { result ≡ list_any (overlaps_partly (objects self.now) (map given arguments.now)) (map given arguments.now) }
        ensures cost { JudgesWithin self.now arguments.now steps.old steps.new }
    {
        for place in 0..arguments.len() {
            let window = window_at(arguments, place);
            if self.overlaps(&window, steps) {
                return true;
            }
            if overlaps_given(arguments, &window) {
                return true;
            }
        }
        false
    }

    // Whether a window shares a byte with an object, and isn't equal to it.
    fn overlaps<L: Ledger>(&self, window: &Window, steps: &mut Steps<L>) -> bool
        requires { records.IsWindow (records.window window.now) }
        ensures answer { result ≡ list_any (λ o. overlap (records.window window.now) o.window) (objects self.now) }
        ensures cost { TakesAtMost (length self.now.rows) (length self.now.blocks) window.now.rows steps.old steps.new }
    {
        match self.probe(*window, steps) {
            Probe::Crosses(_) => true,
            Probe::Nothing | Probe::Same(_) => false,
        }
    }

    /// The versions that tasks make, in the table's order.
    pub fn made(&self, alloc: Global) -> Result<Vec<VersionName>, NoMemory>
        ensures { IfOk result (λ names. names.items ≡ made_in (versions (all_entries self.now))) }
    {
        let mut names = Vec::new(alloc);
        self.rows.add_made(&mut names)?;
        self.blocks.add_made(&mut names)?;
        Ok(names)
    }

    /// Puts these in the places of the versions that tasks make, one after another in the table's order. Which task made an object
    /// stays known.
    pub fn regenerated(&mut self, kept: Vec<Buffer>)
        ensures versions { versions (all_entries self.new) ≡ kept_in (versions (all_entries self.old)) kept.items }
        ensures rows { windows self.new.rows ≡ windows self.old.rows }
        ensures blocks { windows self.new.blocks ≡ windows self.old.blocks }
        ensures objects { objects self.new ≡ objects self.old }
    {
        let mut kept = kept.into_iter();
        self.rows.keep(&mut kept);
        self.blocks.keep(&mut kept);
    }

    /// No task of an earlier call is waited for any more.
    pub fn settled(&mut self)
        ensures { self.new ≡ no_objects }
    {
        self.rows.clear();
        self.blocks.clear();
        self.written.clear();
    }

    /// The object of a base, if there is one, isn't pending any more.
    pub fn waited(&mut self, base: u32)
        ensures objects { objects self.new ≡ filter (λ o. not (o.window.base == base)) (objects self.old) }
        ensures rows { self.new.rows ≡ without base self.old.rows }
        ensures blocks { self.new.blocks ≡ without base self.old.blocks }
    {
        self.waited_from::<Brand>(base, Blank::new(1));
    }

    // The same, with a ledger for its steps.
    fn waited_from<L: Ledger>(&mut self, base: u32, blank: Blank)
        requires name { blank.name ≡ L.name }
        requires parts { blank.parts ≡ L.parts }
        requires some { 0 < L.parts }
        ensures objects { objects self.new ≡ filter (λ o. not (o.window.base == base)) (objects self.old) }
        ensures rows { self.new.rows ≡ without base self.old.rows }
        ensures blocks { self.new.blocks ≡ without base self.old.blocks }
    {
        let mut steps = Steps::<L>::new(blank);
        self.rows.drop_base(base, &mut steps);
        self.blocks.drop_base(base, &mut steps);
        self.written.drop_base(base, &mut steps);
    }

    /// How a window stands to the pending objects.
    pub fn probe<L: Ledger>(&self, window: Window, steps: &mut Steps<L>) -> Probe<'_>
        requires { records.IsWindow (records.window window) }
        ensures answer { IsProbe self.now window result }
        ensures partly { crosses result ≡ list_any (λ o. overlap (records.window window) o.window) (objects self.now) }
        ensures cost { TakesAtMost (length self.now.rows) (length self.now.blocks) window.rows steps.old steps.new }
    {
        let row = self.rows.last_row(&window, steps);
        let block = self.blocks.last_block(&window, steps);
        match row {
            None => self.seen_alone(block, &window),
            Some(r) => self.seen_beside(r, block, &window),
        }
    }

    // What is said of a window where it meets no object of one row.
    fn seen_alone(&self, block: Option<Found>, window: &Window) -> Probe<'_>
        requires row { NoneShares (windows self.now.rows) window.now }
        requires block { MatchOption block (NoneShares (windows self.now.blocks) window.now) (IsLastSharing (windows self.now.blocks) window.now) }
        ensures { IsProbe self.now window.now result }
    {
        match block {
            None => Probe::Nothing,
            Some(b) => self.blocks.seen(b, window),
        }
    }

    // What is said of a window where it meets an object of one row.
    fn seen_beside(&self, row: Found, block: Option<Found>, window: &Window) -> Probe<'_>
        requires row { IsLastSharing (windows self.now.rows) window.now row }
        requires block { MatchOption block (NoneShares (windows self.now.blocks) window.now) (IsLastSharing (windows self.now.blocks) window.now) }
        ensures { IsProbe self.now window.now result }
    {
        match block {
            None => self.rows.seen(row, window),
            Some(b) => {
                if row.window.base < b.window.base {
                    self.blocks.seen(b, window)
                } else {
                    self.rows.seen(row, window)
                }
            }
        }
    }
}
