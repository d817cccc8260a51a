//! The operand stacks.
ghost use Rattle.std.specs.Prelude.{◌≡◌, ◌+◌, ◌-◌, ◌<◌, ◌≤◌, ℕ, List, [], ◌∷◌, length, take, drop, reverse, OnOk, slice_get};
ghost use Rattle.css_machine.specs.Stacks.{Parted, parted};

use css_base::NoMemory;
use std::alloc::Global;
use std::marker::Model;

/// The cells of all activations that are open, in one vector that is longer than they are. Contracts see those of the innermost from
/// the top down, those below them from the lowest on, and for how many there is room.
#[derive(Drop)]
pub(crate) struct Stack {
    cells: Vec<u64>,
    // Where the innermost activation's cells begin.
    floor: usize,
    // Where they end.
    top: usize,
}

impl Model for Stack {
    ghost use Rattle.std.specs.Prelude.{◌≤◌, length};
    ghost use Rattle.css_machine.specs.Stacks.{Parted, parted};

    ghost Value = { Parted };

    ghost view = { λ s. parted s.floor s.top s.cells.items };

    ghost invariant = { λ s. (s.floor ≤ s.top) × (s.top ≤ length s.cells.items) };
}

impl Stack {
    /// A stack with no cells. Takes no memory.
    pub(crate) fn new(alloc: Global) -> Stack
        ensures own { result.own ≡ [] }
        ensures below { result.below ≡ [] }
    {
        Stack {
            cells: Vec::new(alloc),
            floor: 0,
            top: 0,
        }
    }

    /// Pushes a cell.
    #[inline(always)]
    pub(crate) fn push(&mut self, cell: u64)
        requires room { length self.old.below + length self.old.own < self.old.capacity }
        ensures own { self.new.own ≡ cell ∷ self.old.own }
        ensures below { self.new.below ≡ self.old.below }
        ensures capacity { self.new.capacity ≡ self.old.capacity }
    {
        self.cells[self.top] = cell;
        self.top += 1;
    }

    /// Pops the topmost cell.
    #[inline(always)]
    pub(crate) fn pop(&mut self) -> u64
        requires { 0 < length self.old.own }
        ensures own { self.old.own ≡ result ∷ self.new.own }
        ensures below { self.new.below ≡ self.old.below }
        ensures capacity { self.new.capacity ≡ self.old.capacity }
    {
        self.top -= 1;
        self.cells[self.top]
    }

    /// The topmost cell.
    #[inline(always)]
    pub(crate) fn top(&self) -> u64
        requires { 0 < length self.now.own }
        ensures { (rest : List ℕ) × (self.now.own ≡ result ∷ rest) }
    {
        self.cells[self.top - 1]
    }

    /// Puts a cell in the topmost one's place.
    #[inline(always)]
    pub(crate) fn set_top(&mut self, cell: u64)
        requires { 0 < length self.old.own }
        ensures own { (top : ℕ) × (rest : List ℕ) × (self.old.own ≡ top ∷ rest) × (self.new.own ≡ cell ∷ rest) }
        ensures below { self.new.below ≡ self.old.below }
        ensures capacity { self.new.capacity ≡ self.old.capacity }
    {
        self.cells[self.top - 1] = cell;
    }

    /// Puts a value of the two topmost cells, of which the top is the second, in their place.
    #[inline(always)]
    pub(crate) fn combine<F: Fn(u64, u64) -> u64>(&mut self, value: F)
        requires callable { F.IsAlwaysCallable value }
        requires finds { 2 ≤ length self.old.own }
        ensures own { (a b c : ℕ) × (rest : List ℕ) × (self.old.own ≡ b ∷ a ∷ rest) × F.post value a b c × (self.new.own ≡ c ∷ rest) }
        ensures below { self.new.below ≡ self.old.below }
        ensures capacity { self.new.capacity ≡ self.old.capacity }
    {
        let b = self.pop();
        let cell = value(self.top(), b);
        self.set_top(cell);
    }

    /// The cell so many places below the top.
    #[inline(always)]
    pub(crate) fn below_top(&self, depth: u32) -> u64
        requires { depth < length self.now.own }
        ensures { slice_get self.now.own depth ≡ Some result }
    {
        self.cells[self.top - 1 - depth as usize]
    }

    /// Swaps the two topmost cells.
    #[inline(always)]
    pub(crate) fn swap_top(&mut self)
        requires { 2 ≤ length self.old.own }
        ensures own { (a b : ℕ) × (rest : List ℕ) × (self.old.own ≡ b ∷ a ∷ rest) × (self.new.own ≡ a ∷ b ∷ rest) }
        ensures below { self.new.below ≡ self.old.below }
        ensures capacity { self.new.capacity ≡ self.old.capacity }
    {
        let high = self.cells[self.top - 1];
        let low = self.cells[self.top - 2];
        self.cells[self.top - 2] = high;
        self.cells[self.top - 1] = low;
    }

    /// Lends so many of the topmost cells, the top last.
    pub(crate) fn topmost(&self, count: usize) -> &[u64]
        requires { count ≤ length self.now.own }
        ensures { result.now ≡ reverse (take count self.now.own) }
    {
        &self.cells[self.top - count..self.top]
    }

    /// Drops so many of the topmost cells.
    pub(crate) fn drop_topmost(&mut self, count: usize)
        requires { count ≤ length self.old.own }
        ensures own { self.new.own ≡ drop count self.old.own }
        ensures below { self.new.below ≡ self.old.below }
        ensures capacity { self.new.capacity ≡ self.old.capacity }
    {
        self.top -= count;
    }

    /// Begins an activation's stack above all cells, and gives the floor of the one below.
    pub(crate) fn begin(&mut self) -> usize
        ensures own { self.new.own ≡ [] }
        ensures above { reverse (drop result self.new.below) ≡ self.old.own }
        ensures below { take result self.new.below ≡ self.old.below }
        ensures floor { result ≤ length self.new.below }
        ensures capacity { self.new.capacity ≡ self.old.capacity }
    {
        let floor = self.floor;
        self.floor = self.top;
        floor
    }

    /// Drops the innermost activation's cells, of which there are some, and goes back to its caller's, which begin at a floor, with a cell.
    pub(crate) fn end(&mut self, floor: usize, cell: u64)
        requires floor { floor ≤ length self.old.below }
        requires some { 0 < length self.old.own }
        ensures own { self.new.own ≡ cell ∷ reverse (drop floor self.old.below) }
        ensures below { self.new.below ≡ take floor self.old.below }
        ensures capacity { self.new.capacity ≡ self.old.capacity }
    {
        self.top = self.floor;
        self.floor = floor;
        self.cells[self.top] = cell;
        self.top += 1;
    }

    /// For how many cells more there is room.
    #[inline(always)]
    pub(crate) fn room(&self) -> usize
        ensures { result ≡ self.now.capacity - (length self.now.below + length self.now.own) }
    {
        self.cells.len() - self.top
    }

    /// Pushes a cell where there may be no room. The only error is want of memory.
    pub(crate) fn grow(&mut self, cell: u64) -> Result<(), NoMemory>
        ensures own { OnOk result (self.new.own ≡ cell ∷ self.old.own) }
        ensures below { self.new.below ≡ self.old.below }
    {
        self.make_room(1)?;
        self.push(cell);
        Ok(())
    }

    /// Makes room for so many cells more. The only error is want of memory.
    pub(crate) fn make_room(&mut self, count: usize) -> Result<(), NoMemory>
        ensures own { self.new.own ≡ self.old.own }
        ensures below { self.new.below ≡ self.old.below }
        ensures room { OnOk result (length self.new.below + length self.new.own + count ≤ self.new.capacity) }
    {
        if self.cells.len() - self.top < count {
            let Some(length) = self.top.checked_add(count) else {
                return Err(NoMemory);
            };
            self.cells.resize(length, 0)?;
        }
        Ok(())
    }
}
