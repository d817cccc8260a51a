//! The operand stacks.
ghost use Rattle.std.specs.Prelude.{◌≡◌, ◌+◌, ◌<◌, ◌≤◌, ℕ, List, [], ◌∷◌, ◌++◌, length, take, drop, reverse, OnOk, IfOk, slice_get};
ghost use Rattle.css_vm.specs.Stacks.{Parted, parted};

use css_base::NoMemory;
use std::alloc::Global;
use std::marker::Model;

/// The cells of all activations that are open, in one vector. Contracts see those of the innermost from the top down, and those
/// below them from the lowest on.
#[derive(Drop)]
pub(crate) struct Stack {
    cells: Vec<u64>,
    // Where the innermost activation's cells begin.
    floor: usize,
}

impl Model for Stack {
    ghost use Rattle.std.specs.Prelude.{◌≤◌, length};
    ghost use Rattle.css_vm.specs.Stacks.{Parted, parted};

    ghost Value = { Parted };

    ghost view = { λ s. parted s.floor s.cells.items };

    ghost invariant = { λ s. s.floor ≤ length s.cells.items };
}

impl Stack {
    /// A stack with no cells. Takes no memory.
    pub(crate) fn new(alloc: Global) -> Stack
        ensures own { result.own ≡ [] }
        ensures below { result.below ≡ [] }
    {
        Stack {
            cells: Vec::new(alloc),
            floor: 0,
        }
    }

    pub(crate) fn push(&mut self, cell: u64) -> Result<(), NoMemory>
        ensures own { OnOk result (self.new.own ≡ cell ∷ self.old.own) }
        ensures below { self.new.below ≡ self.old.below }
    {
        self.cells.push(cell)?;
        Ok(())
    }

    pub(crate) fn pop(&mut self) -> u64
        requires { 0 < length self.old.own }
        ensures own { self.old.own ≡ result ∷ self.new.own }
        ensures below { self.new.below ≡ self.old.below }
    {
        self.cells.pop().unwrap()
    }

    pub(crate) fn top(&self) -> u64
        requires { 0 < length self.now.own }
        ensures { (rest : List ℕ) × (self.now.own ≡ result ∷ rest) }
    {
        self.cells[self.cells.len() - 1]
    }

    /// Puts a cell in the topmost one's place.
    pub(crate) fn set_top(&mut self, cell: u64)
        requires { 0 < length self.old.own }
        ensures own { (top : ℕ) × (rest : List ℕ) × (self.old.own ≡ top ∷ rest) × (self.new.own ≡ cell ∷ rest) }
        ensures below { self.new.below ≡ self.old.below }
    {
        let last = self.cells.len() - 1;
        self.cells[last] = cell;
    }

    /// The cell so many places below the top.
    pub(crate) fn below_top(&self, depth: u32) -> u64
        requires { depth < length self.now.own }
        ensures { slice_get self.now.own depth ≡ Some result }
    {
        self.cells[self.cells.len() - 1 - depth as usize]
    }

    /// Swaps the two topmost cells.
    pub(crate) fn swap_top(&mut self)
        requires { 2 ≤ length self.old.own }
        ensures own { (a b : ℕ) × (rest : List ℕ) × (self.old.own ≡ b ∷ a ∷ rest) × (self.new.own ≡ a ∷ b ∷ rest) }
        ensures below { self.new.below ≡ self.old.below }
    {
        let last = self.cells.len() - 1;
        self.cells.swap(last - 1, last);
    }

    /// Puts a value of the topmost cell in its place.
    pub(crate) fn replace<F: Fn(u64) -> u64>(&mut self, value: F)
        requires callable { F.IsAlwaysCallable value }
        requires finds { 0 < length self.old.own }
        ensures own { (a c : ℕ) × (rest : List ℕ) × (self.old.own ≡ a ∷ rest) × F.post value a c × (self.new.own ≡ c ∷ rest) }
        ensures below { self.new.below ≡ self.old.below }
    {
        let cell = value(self.top());
        self.set_top(cell);
    }

    /// Puts a value of the two topmost cells, of which the top is the second, in their place.
    pub(crate) fn combine<F: Fn(u64, u64) -> u64>(&mut self, value: F)
        requires callable { F.IsAlwaysCallable value }
        requires finds { 2 ≤ length self.old.own }
        ensures own { (a b c : ℕ) × (rest : List ℕ) × (self.old.own ≡ b ∷ a ∷ rest) × F.post value a b c × (self.new.own ≡ c ∷ rest) }
        ensures below { self.new.below ≡ self.old.below }
    {
        let b = self.pop();
        let cell = value(self.top(), b);
        self.set_top(cell);
    }

    /// Lends so many of the topmost cells, the top last.
    pub(crate) fn topmost(&self, count: usize) -> &[u64]
        requires { count ≤ length self.now.own }
        ensures { result.now ≡ reverse (take count self.now.own) }
    {
        &self.cells[self.cells.len() - count..]
    }

    /// Drops so many of the topmost cells.
    pub(crate) fn drop_topmost(&mut self, count: usize)
        requires { count ≤ length self.old.own }
        ensures own { self.new.own ≡ drop count self.old.own }
        ensures below { self.new.below ≡ self.old.below }
    {
        self.cells.truncate(self.cells.len() - count);
    }

    /// Begins an activation's stack above all cells, and gives the floor of the one below.
    pub(crate) fn begin(&mut self) -> usize
        ensures own { self.new.own ≡ [] }
        ensures below { parted result self.new.below ≡ self.old }
        ensures floor { result ≤ length self.new.below }
    {
        let floor = self.floor;
        self.floor = self.cells.len();
        floor
    }

    /// Drops the innermost activation's cells, and goes back to its caller's, which begin at a floor.
    pub(crate) fn end(&mut self, floor: usize)
        requires { floor ≤ length self.old.below }
        ensures { self.new ≡ parted floor self.old.below }
    {
        self.cells.truncate(self.floor);
        self.floor = floor;
    }
}
