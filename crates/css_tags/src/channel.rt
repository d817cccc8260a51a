//! The channel of tags between a worker and its mover.
ghost use Rattle.std.specs.Prelude.{◌≡◌, ◌≢◌, ◌<◌, ◌^◌, ◌⊎◌, ◌↔◌, ℕ, [], ◌∷◌, ◌++◌, map, length as count, IsTrue, IsErr, IfOk, IfErr, IfSome, IfNone, OnOk, OnErr};
ghost use Rattle.css_tags.specs.Groups.{left, plan_of};
ghost use Rattle.css_tags.specs.Entries.{Entry, issue as issue_of, out as out_of, finish as finish_of, collect as collect_of, line_of};
ghost use Rattle.css_tags.specs.Legal.{ChannelLegal};
ghost use Rattle.css_tags.specs.States.{last_on, IsFree, IsIssued, IsOut, IsFinished, IsIssuedFirst, IsLeastFree};
ghost use Rattle.css_tags.specs.Plans.{Plan};
ghost use Rattle.css_tags.specs.Staged.{staged};
ghost use Rattle.css_tags.specs.Refusals.{group_of, IsBusy};

use crate::entry::{ChannelEntry, Step};
use crate::group::Group;
use crate::slot::{Slot, first_free, free_slots, is_finished, is_free, take};
use crate::staged::Staged;
use arrayvec::ArrayVec;
use css_base::{ChannelLine, NoMemory};
use css_seen::{Lawful, Told};
use std::alloc::Global;
use std::marker::Model;

/// How many tags there are.
const TAGS: usize = 32;

/// The seat of the worker and of the mover.
const WORKER: u32 = 0;

const MOVER: u32 = 1;

/// The room that is kept for entries: four for each tag.
const ROOM: usize = 128;

/// The most entries of a history.
const MOST_ENTRIES: usize = 1 << 62;

/// Why a group isn't issued. It hands the group back.
#[derive(Drop)]
pub enum IssueRefused {
    /// The tag isn't free.
    Busy(Group),
    /// There was no memory for the tag's entries.
    NoMemory(Group),
}

/// The tag is issued or out.
#[derive(Clone, Copy, PartialEq, Eq, Debug)]
pub struct NotYet;

/// The 32 tags between a worker and its mover. Contracts see the history, which is stored whole.
///
/// A tag that is free may be issued with a group; the mover takes the group, moves its pieces, and finishes the tag;
/// then the worker collects it, and it is free again.
#[derive(Drop)]
pub struct Channel {
    history: Vec<ChannelEntry>,
    // For each tag what is on it.
    slots: Vec<Slot>,
    // The tags that are issued, in order of issue.
    queue: ArrayVec<u32, TAGS>,
}

impl Model for Channel {
    ghost use Rattle.std.specs.Prelude.{List, vec_capacity};
    ghost use Rattle.css_tags.specs.Entries.{Entry};
    ghost use Rattle.css_tags.specs.Slots.{IsChannel};

    ghost Value = { List Entry };

    ghost view = { λ c. c.history.items };

    ghost invariant = { λ c. IsChannel c.history.items c.slots.items c.queue.items (vec_capacity c.history) };
}

impl Told for Channel {
    type Entry = ChannelEntry;

    type Fixed = ();

    ghost history = { λ c. c };

    ghost maker = { λ e. e.seat };

    ghost fixed = { λ c. tt };

    fn entries(&self) -> u64 {
        self.history.len() as u64
    }
}

impl Lawful for Channel {
    ghost legal = { λ _ history. ChannelLegal history };

    fn is_legal(&self) {
        self.legal();
    }
}

impl Channel {
    /// At every moment the history is legal: each tag goes issue, out, finished, collected, in that cycle, with one plan,
    /// and each entry has its maker's seat.
    pub fn legal(&self)
        ensures { ChannelLegal self.now }
    {
        let _ = &self.history;
    }

    /// A channel whose 32 tags are free.
    pub fn new(alloc: Global) -> Result<Channel, NoMemory>
        ensures { IfOk result (λ c. c ≡ []) }
    {
        let slots = free_slots(alloc)?;
        Ok(Channel {
            history: Vec::new(alloc),
            slots,
            queue: ArrayVec::new(),
        })
    }

    /// The worker issues a group on a tag below 32. `Busy` comes exactly where the tag isn't free, and `NoMemory` where there
    /// is no memory for the tag's four entries; nothing changes then.
    pub fn issue(&mut self, _alloc: Global, tag: u32, group: Group) -> Result<(), IssueRefused>
        requires { tag < 32 }
        ensures issued { OnOk result (self.new ≡ self.old ++ issue_of tag (plan_of group) ∷ []) }
        ensures free { OnOk result (IsFree tag self.old) }
        ensures busy { IfErr result (λ e. IsBusy e ↔ ¬ IsFree tag self.old) }
        ensures back { IfErr result (λ e. group_of e ≡ group) }
        ensures unchanged { OnErr result (self.new ≡ self.old) }
    {
        if !is_free(self.slots.as_slice(), tag) {
            return Err(IssueRefused::Busy(group));
        }
        if self.history.len() >= MOST_ENTRIES || self.history.reserve(ROOM).is_err() {
            return Err(IssueRefused::NoMemory(group));
        }
        let entry = ChannelEntry::new(Step::Issue, tag, WORKER, &group);
        self.history.push_reserved(entry);
        self.slots[tag as usize] = Slot::Issued(group);
        self.queue.push(tag);
        Ok(())
    }

    /// The mover takes the group that was issued first, with its tag. None exactly where no tag is issued. Takes no memory.
    pub fn take_next(&mut self) -> Option<(u32, Group)>
        ensures first { IfSome result (λ r. IsIssuedFirst self.old r.0 (plan_of r.1)) }
        ensures out { IfSome result (λ r. self.new ≡ self.old ++ out_of r.0 (plan_of r.1) ∷ []) }
        ensures none { IfNone result ((tag : ℕ) → ¬ IsIssued tag self.old) }
        ensures unchanged { IfNone result (self.new ≡ self.old) }
    {
        if self.queue.is_empty() {
            return None;
        }
        let tag = self.queue.remove(0);
        let Slot::Issued(group) = take(&mut self.slots, tag, Slot::Out) else {
            unreachable!()
        };
        let entry = ChannelEntry::new(Step::Out, tag, MOVER, &group);
        self.history.push_reserved(entry);
        Some((tag, group))
    }

    /// The mover finishes a tag that is out, with the group that was issued on it, of which no piece is left. Takes no
    /// memory.
    pub fn finish(&mut self, tag: u32, group: Group)
        requires out { last_on tag self.old ≡ Some (out_of tag (plan_of group)) }
        requires moved { left group ≡ [] }
        ensures { self.new ≡ self.old ++ finish_of tag (plan_of group) ∷ [] }
    {
        let entry = ChannelEntry::new(Step::Finished, tag, MOVER, &group);
        self.history.push_reserved(entry);
        self.slots[tag as usize] = Slot::Finished(group);
    }

    /// The worker collects a tag that isn't free. `NotYet` comes exactly where it is issued or out, and then nothing changes.
    /// So the blocks come only where the history has the tag finished, with what its plan leaves. Takes no memory.
    pub fn collect(&mut self, tag: u32) -> Result<Staged, NotYet>
        requires { ¬ IsFree tag self.old }
        ensures finished { IfOk result (λ s. (plan : Plan) × (last_on tag self.old ≡ Some (finish_of tag plan)) × (s ≡ staged plan) × (self.new ≡ self.old ++ collect_of tag plan ∷ [])) }
        ensures not_yet { IsErr result ↔ (IsIssued tag self.old ⊎ IsOut tag self.old) }
        ensures unchanged { OnErr result (self.new ≡ self.old) }
    {
        if !is_finished(self.slots.as_slice(), tag) {
            return Err(NotYet);
        }
        let Slot::Finished(group) = take(&mut self.slots, tag, Slot::Free) else {
            unreachable!()
        };
        let entry = ChannelEntry::new(Step::Collected, tag, WORKER, &group);
        self.history.push_reserved(entry);
        Ok(Staged::of(group))
    }

    /// The least free tag. None exactly where no tag below 32 is free. Takes no memory.
    pub fn free_tag(&self) -> Option<u32>
        ensures least { IfSome result (λ tag. IsLeastFree self.now tag) }
        ensures none { IfNone result ((tag : ℕ) → tag < 32 → ¬ IsFree tag self.now) }
    {
        first_free(self.slots.as_slice())
    }

    /// Whether a tag below 32 is finished and not collected. Takes no memory.
    pub fn finished(&self, tag: u32) -> bool
        requires { tag < 32 }
        ensures { IsTrue result ↔ IsFinished tag self.now }
    {
        is_finished(self.slots.as_slice(), tag)
    }

    /// Whether a tag is issued, so that `take_next` would give it. Takes no memory.
    pub fn issued(&self) -> bool
        ensures { IsTrue result ↔ ((tag : ℕ) × IsIssued tag self.now) }
    {
        !self.queue.is_empty()
    }

    /// What a trace shows of the entries, in order.
    pub fn lines(&self, alloc: Global) -> Result<Vec<ChannelLine>, NoMemory>
        ensures { IfOk result (λ v. v.items ≡ map line_of self.now) }
    {
        lines_of(alloc, self.history.as_slice())
    }
}

/// What a trace shows of entries, in order.
fn lines_of(alloc: Global, history: &[ChannelEntry]) -> Result<Vec<ChannelLine>, NoMemory>
    ensures { IfOk result (λ v. v.items ≡ map line_of history.now) }
{
    let mut lines = Vec::with_capacity(alloc, history.len())?;
    for entry in history {
        lines.push_reserved(entry.line());
    }
    Ok(lines)
}
