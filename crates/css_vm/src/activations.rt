//! The activations of functions: the innermost, and its callers.
ghost use Rattle.std.specs.Prelude.{◌≡◌, ◌+◌, ◌^◌, ◌<◌, ◌≤◌, ◌↔◌, ℕ, List, [], ◌∷◌, length, take, reverse, IsTrue, IfOk, OnOk};
ghost use Rattle.css_vm.specs.Machine.{At, answered, IsOwed};
ghost use Rattle.css_vm.specs.Code.{code_of};
ghost use Rattle.css_vm.specs.Soundness.{Fits};
ghost use Rattle.css_vm.specs.Events.{base_of, IsStacked};
ghost use Rattle.css_vm.specs.Stacks.{running};
ghost use Rattle.css_vm.specs.States.{function_of, place_of, stack_of, depth, moved, pushed, dropped, with_callee, returned};
ghost use Rattle.css_vm.specs.Steps.{IsCounted, ComesToPause};

use crate::code::Code;
use crate::space::Space;
use crate::stack::Stack;
use crate::step::{Pause, take_steps};
use css_base::NoMemory;
use std::alloc::Global;
use std::marker::Model;

/// A caller, as it goes on when the function that it called returns.
#[derive(Clone, Copy)]
pub(crate) struct Saved {
    function: u32,
    base: u32,
    place: usize,
    // Where its cells begin.
    floor: usize,
}

/// The activations of functions that have called one another. Contracts see the state inside them.
#[derive(Drop)]
pub(crate) struct Activations {
    // The innermost function's number, its frame's address, and the place of its next instruction.
    function: u32,
    base: u32,
    place: usize,
    // The nearest caller last.
    callers: Vec<Saved>,
    stack: Stack,
}

impl Model for Activations {
    ghost use Rattle.std.specs.Prelude.{length, reverse};
    ghost use Rattle.css_vm.specs.Machine.{State, At};
    ghost use Rattle.css_vm.specs.Stacks.{running, callers_of, StandWithin};

    ghost Value = { State };

    ghost view = { λ a. At (running a.function a.base) (callers_of (reverse a.callers.items) a.stack.below) a.place a.stack.own };

    ghost invariant = { λ a. StandWithin (reverse a.callers.items) (length a.stack.below) };
}

impl Activations {
    /// The activation of a function over a frame at this base, called by none. Takes no memory.
    pub(crate) fn new(alloc: Global, function: u32, base: u32) -> Activations
        ensures { result ≡ At (running function base) [] 0 [] }
    {
        Activations {
            function,
            base,
            place: 0,
            callers: Vec::new(alloc),
            stack: Stack::new(alloc),
        }
    }

    /// The innermost function's number.
    pub(crate) fn function(&self) -> u32
        ensures { result ≡ function_of self.now }
    {
        self.function
    }

    /// The innermost frame's address.
    pub(crate) fn base(&self) -> u32
        ensures { result ≡ base_of self.now }
    {
        self.base
    }

    /// Whether the innermost function has no caller.
    pub(crate) fn is_first(&self) -> bool
        ensures { IsTrue result ↔ (depth self.now ≡ 0) }
    {
        self.callers.is_empty()
    }

    /// The topmost cell.
    pub(crate) fn top(&self) -> u64
        requires { 0 < length (stack_of self.now) }
        ensures { (rest : List ℕ) × (stack_of self.now ≡ result ∷ rest) }
    {
        self.stack.top()
    }

    /// Lends so many of the topmost cells, the top last.
    pub(crate) fn topmost(&self, count: usize) -> &[u64]
        requires { count ≤ length (stack_of self.now) }
        ensures { result.now ≡ reverse (take count (stack_of self.now)) }
    {
        self.stack.topmost(count)
    }

    /// Drops so many of the topmost cells.
    pub(crate) fn drop_topmost(&mut self, count: usize)
        requires { count ≤ length (stack_of self.old) }
        ensures { self.new ≡ dropped count self.old }
    {
        self.stack.drop_topmost(count);
    }

    /// Pushes a cell.
    pub(crate) fn push(&mut self, cell: u64) -> Result<(), NoMemory>
        ensures { OnOk result (self.new ≡ pushed cell self.old) }
    {
        self.stack.push(cell)
    }

    /// Puts an answer in the place of the topmost cell.
    pub(crate) fn answer(&mut self, value: u64)
        requires { IsOwed self.old }
        ensures { self.new ≡ answered value self.old }
    {
        self.stack.set_top(value);
    }

    /// Goes on at the next place.
    pub(crate) fn advance(&mut self)
        requires { place_of self.old + 1 < 2 ^ 64 }
        ensures { self.new ≡ moved self.old }
    {
        self.place += 1;
    }

    /// Begins the activation of a function over a frame at this base; the one that calls it goes on behind the call.
    pub(crate) fn begin(&mut self, function: u32, base: u32) -> Result<(), NoMemory>
        requires { place_of self.old + 1 < 2 ^ 64 }
        ensures { OnOk result (self.new ≡ with_callee function base self.old) }
    {
        let floor = self.stack.begin();
        self.callers.push(Saved {
            function: self.function,
            base: self.base,
            place: self.place + 1,
            floor,
        })?;
        self.function = function;
        self.base = base;
        self.place = 0;
        Ok(())
    }

    /// Goes back to the nearest caller with a cell.
    pub(crate) fn end(&mut self, cell: u64) -> Result<(), NoMemory>
        requires { 0 < depth self.old }
        ensures { OnOk result (self.new ≡ returned cell self.old) }
    {
        let caller = self.callers.pop().unwrap();
        self.stack.end(caller.floor);
        self.stack.push(cell)?;
        self.function = caller.function;
        self.base = caller.base;
        self.place = caller.place;
        Ok(())
    }

    /// Takes the steps of the innermost function up to a pause.
    #[inline]
    pub(crate) fn run_to_pause<S: Space>(
        &mut self,
        code: &Code,
        space: &mut S,
    ) -> Result<Pause, NoMemory>
        requires fits { Fits (code_of code.now) self.old }
        requires stacked { IsStacked (code_of code.now) (S.place space.old) self.old }
        ensures counted { IfOk result (λ p. IsCounted p (place_of self.new)) }
        ensures comes { IfOk result (λ p. (units : ℕ) → ComesToPause S.reply S.learn S.place (code_of code.now) self.old space.old units p self.new space.new) }
    {
        let function = code.function(self.function);
        // A local, so that the steps keep it in a register.
        let mut place = self.place;
        let pause = take_steps(function, self.base, &mut place, &mut self.stack, space)?;
        self.place = place;
        Ok(pause)
    }
}
