//! Sets of offsets.
ghost use Rattle.std.specs.Prelude.{◌≡◌, ◌≤◌, ◌<◌, ◌+◌, ◌*◌, ◌^◌, ◌==◌, ◌||◌, ◌&&◌, not, true, false, ℕ, length, IfOk};
ghost use Rattle.css_semantics.specs.Memory.{is_between};
ghost use Rattle.css_semantics.specs.Pending.{some_from};
ghost use Rattle.css_task.specs.OffsetSets.{has_bit, members};

use css_base::NoMemory;
use std::alloc::Global;

/// A set of offsets below a bound: one bit each, and how many there are.
#[derive(Drop)]
pub(crate) struct Offsets {
    pub(crate) words: Vec<u64>,
    pub(crate) count: usize,
    ghost counted: { count ≡ members (has_bit words.items) (64 * length words.items) },
    ghost short: { 64 * length words.items < 2 ^ 64 },
}

impl Offsets {
    /// None of so many offsets.
    pub(crate) fn new(alloc: Global, room: usize) -> Result<Offsets, NoMemory>
        requires { room < 2 ^ 63 }
        ensures room { IfOk result (λ s. room ≤ 64 * length s.words.items) }
        ensures none { IfOk result (λ s. (k : ℕ) → has_bit s.words.items k ≡ false) }
    {
        Ok(Offsets {
            words: vec![in alloc; 0; room / 64 + 1]?,
            count: 0,
        })
    }

    /// Whether an offset is in the set.
    pub(crate) fn has(&self, offset: usize) -> bool
        requires { offset < 64 * length self.now.words.items }
        ensures { result ≡ has_bit self.now.words.items offset }
    {
        (self.words[offset / 64] >> (offset % 64)) & 1 == 1
    }

    /// Puts an offset in.
    pub(crate) fn add(&mut self, offset: usize)
        requires { offset < 64 * length self.old.words.items }
        ensures room { length self.new.words.items ≡ length self.old.words.items }
        ensures has { (k : ℕ) → has_bit self.new.words.items k ≡ ((k == offset) || has_bit self.old.words.items k) }
    {
        if !self.has(offset) {
            self.words[offset / 64] |= 1 << (offset % 64);
            self.count += 1;
        }
    }

    /// Puts so many offsets from one on in.
    pub(crate) fn add_all(&mut self, from: usize, count: usize)
        requires room { from + count ≤ 64 * length self.old.words.items }
        ensures room { length self.new.words.items ≡ length self.old.words.items }
        ensures has { (k : ℕ) → has_bit self.new.words.items k ≡ (is_between from (from + count) k || has_bit self.old.words.items k) }
    {
        for k in 0..count {
            self.add(from + k);
        }
    }

    /// Takes an offset out.
    pub(crate) fn remove(&mut self, offset: usize)
        requires { offset < 64 * length self.old.words.items }
        ensures room { length self.new.words.items ≡ length self.old.words.items }
        ensures has { (k : ℕ) → has_bit self.new.words.items k ≡ (not (k == offset) && has_bit self.old.words.items k) }
    {
        if self.has(offset) {
            self.words[offset / 64] &= !(1 << (offset % 64));
            self.count -= 1;
        }
    }

    /// Whether one of so many offsets from one on is in the set.
    pub(crate) fn any(&self, from: usize, count: usize) -> bool
        requires room { from + count ≤ 64 * length self.now.words.items }
        ensures { result ≡ some_from (has_bit self.now.words.items) from count }
    {
        for k in 0..count {
            if self.has(from + k) {
                return true;
            }
        }
        false
    }

    /// Takes so many offsets from one on out.
    pub(crate) fn remove_all(&mut self, from: usize, count: usize)
        requires room { from + count ≤ 64 * length self.old.words.items }
        ensures room { length self.new.words.items ≡ length self.old.words.items }
        ensures has { (k : ℕ) → has_bit self.new.words.items k ≡ (not (is_between from (from + count) k) && has_bit self.old.words.items k) }
    {
        for k in 0..count {
            self.remove(from + k);
        }
    }

    /// Whether none is left.
    pub(crate) fn is_empty(&self) -> bool
        ensures none { result ≡ true → (k : ℕ) → has_bit self.now.words.items k ≡ false }
        ensures some { result ≡ false → (k : ℕ) × has_bit self.now.words.items k ≡ true }
    {
        self.count == 0
    }
}
