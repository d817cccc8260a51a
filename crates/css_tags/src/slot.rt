//! What is on a tag.
ghost use Rattle.std.specs.Prelude.{◌≡◌, ◌<◌, ◌↔◌, ℕ, length, IsTrue, IfSome, IfNone, IfOk, replicate, slice_index_or, slice_set};
ghost use Rattle.css_tags.specs.Slots.{IsFreeSlot, IsFinishedSlot};

use crate::group::Group;
use css_base::NoMemory;
use std::alloc::Global;
use std::mem;

/// What is on a tag.
#[derive(Drop)]
pub(crate) enum Slot {
    /// The tag is free.
    Free,
    /// This group is issued on it.
    Issued(Group),
    /// The mover has its group.
    Out,
    /// This group is finished on it.
    Finished(Group),
}

/// Whether the tag's slot is free.
pub(crate) fn is_free(slots: &[Slot], tag: u32) -> bool
    requires { tag < length slots.now }
    ensures { IsTrue result ↔ IsFreeSlot (slice_index_or slots.now tag Slot.Free) }
{
    matches!(slots[tag as usize], Slot::Free)
}

/// Whether the tag's slot is finished.
pub(crate) fn is_finished(slots: &[Slot], tag: u32) -> bool
    requires { tag < length slots.now }
    ensures { IsTrue result ↔ IsFinishedSlot (slice_index_or slots.now tag Slot.Free) }
{
    matches!(slots[tag as usize], Slot::Finished(_))
}

/// Puts another slot in the place of the tag's, and gives that.
pub(crate) fn take(slots: &mut Vec<Slot>, tag: u32, next: Slot) -> Slot
    requires { tag < length slots.old.items }
    ensures value { result ≡ slice_index_or slots.old.items tag Slot.Free }
    ensures after { slots.new.items ≡ slice_set slots.old.items tag next }
{
    mem::replace(&mut slots[tag as usize], next)
}

/// The first tag whose slot is free.
pub(crate) fn first_free(slots: &[Slot]) -> Option<u32>
    requires { length slots.now ≡ 32 }
    ensures below { IfSome result (λ tag. tag < 32) }
    ensures free { IfSome result (λ tag. IsFreeSlot (slice_index_or slots.now tag Slot.Free)) }
    ensures least { IfSome result (λ tag. (other : ℕ) → other < tag → ¬ IsFreeSlot (slice_index_or slots.now other Slot.Free)) }
    ensures none { IfNone result ((tag : ℕ) → tag < 32 → ¬ IsFreeSlot (slice_index_or slots.now tag Slot.Free)) }
{
    for tag in 0..32u32 {
        if is_free(slots, tag) {
            return Some(tag);
        }
    }
    None
}

/// The slots of 32 tags that are free.
pub(crate) fn free_slots(alloc: Global) -> Result<Vec<Slot>, NoMemory>
    ensures { IfOk result (λ v. v.items ≡ replicate 32 Slot.Free) }
{
    let mut slots = Vec::with_capacity(alloc, 32)?;
    for tag in 0..32u32 {
        let _ = tag;
        slots.push_reserved(Slot::Free);
    }
    Ok(slots)
}
