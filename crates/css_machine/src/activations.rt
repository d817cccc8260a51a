//! The activations of functions: the innermost, and its callers.
ghost use Rattle.std.specs.Prelude.{◌≡◌, ◌+◌, ◌^◌, ◌<◌, ◌≤◌, ◌↔◌, ℕ, List, [], ◌∷◌, length, take, reverse, true, false, IsTrue, IfOk, OnOk};
ghost use Rattle.css_semantics.specs.Dialogue.{Plain};
ghost use Rattle.css_isa.specs.Steps.{At, started};
ghost use Rattle.css_isa.specs.Machine.{answered, IsOwed};
ghost use Rattle.css_isa.specs.Code.{code_of};
ghost use Rattle.css_isa.specs.Soundness.{Fits};
ghost use Rattle.css_machine.specs.Modes.{mode_as};
ghost use Rattle.css_machine.specs.Events.{base_of, mode_of, IsInside, IsStacked};
ghost use Rattle.css_machine.specs.States.{function_of, place_of, stack_of, depth, moved, topped, dropped, with_callee, returned};
ghost use Rattle.css_machine.specs.Steps.{IsBefore, ComesToPause};

use crate::event::Mode;
use crate::stack::Stack;
use crate::turns::{Pause, take_turns};
use css_base::NoMemory;
use css_isa::{Code, Instr, Space};
use std::alloc::Global;
use std::marker::Model;
use std::mem;

/// A caller, as it goes on when the function that it called returns.
#[derive(Clone, Copy)]
pub(crate) struct Saved {
    function: u32,
    base: u32,
    place: usize,
    // Where its cells begin.
    floor: usize,
}

/// The activations of functions that have called one another. Contracts see the state inside them.
#[derive(Drop)]
pub(crate) struct Activations {
    // The innermost function's number, its frame's address, where it stands, and the place of its next instruction.
    function: u32,
    base: u32,
    mode: Mode,
    place: usize,
    // The nearest caller last.
    callers: Vec<Saved>,
    stack: Stack,
    alloc: Global,
}

impl Model for Activations {
    ghost use Rattle.std.specs.Prelude.{length, reverse};
    ghost use Rattle.css_isa.specs.Steps.{State, At};
    ghost use Rattle.css_machine.specs.Modes.{mode_as};
    ghost use Rattle.css_machine.specs.States.{running, callers_of, StandWithin};

    ghost Value = { State };

    ghost view = { λ a. At (running a.function a.base (mode_as a.mode)) (callers_of (reverse a.callers.items) a.stack.below) a.place a.stack.own };

    ghost invariant = { λ a. StandWithin (reverse a.callers.items) (length a.stack.below) };
}

impl Activations {
    /// The activation of a function over a frame at this base, called by none. Takes no memory.
    pub(crate) fn new(alloc: Global, function: u32, base: u32) -> Activations
        ensures { result ≡ At (started function base false) [] 0 [] }
    {
        Activations {
            function,
            base,
            mode: Mode::Plain,
            place: 0,
            callers: Vec::new(alloc),
            stack: Stack::new(alloc),
            alloc,
        }
    }

    /// The innermost function's number.
    pub(crate) fn function(&self) -> u32
        ensures { result ≡ function_of self.now }
    {
        self.function
    }

    /// The innermost frame's address.
    pub(crate) fn base(&self) -> u32
        ensures { result ≡ base_of self.now }
    {
        self.base
    }

    /// Where it stands.
    pub(crate) fn mode(&self) -> Mode
        ensures { mode_as result ≡ mode_of self.now }
    {
        self.mode
    }

    /// Whether the innermost function has no caller.
    pub(crate) fn is_first(&self) -> bool
        ensures { IsTrue result ↔ (depth self.now ≡ 0) }
    {
        self.callers.is_empty()
    }

    /// The next instruction.
    pub(crate) fn instr(&self, code: &Code) -> Instr
        requires { Fits (code_of code.now) self.now }
        ensures before { IsBefore (code_of code.now) result.op result.line self.now }
        ensures counted { place_of self.now + 1 < 2 ^ 64 }
    {
        *code.function(self.function).instr_at(self.place)
    }

    /// The topmost cell.
    pub(crate) fn top(&self) -> u64
        requires { 0 < length (stack_of self.now) }
        ensures { (rest : List ℕ) × (stack_of self.now ≡ result ∷ rest) }
    {
        self.stack.top()
    }

    /// Lends so many of the topmost cells, the top last.
    pub(crate) fn topmost(&self, count: usize) -> &[u64]
        requires { count ≤ length (stack_of self.now) }
        ensures { result.now ≡ reverse (take count (stack_of self.now)) }
    {
        self.stack.topmost(count)
    }

    /// Drops so many of the topmost cells.
    pub(crate) fn drop_topmost(&mut self, count: usize)
        requires { count ≤ length (stack_of self.old) }
        ensures { self.new ≡ dropped count self.old }
    {
        self.stack.drop_topmost(count);
    }

    /// Pushes a cell. The only error is want of memory.
    pub(crate) fn push(&mut self, cell: u64) -> Result<(), NoMemory>
        ensures { OnOk result (self.new ≡ topped cell self.old) }
    {
        self.stack.grow(cell)
    }

    /// Puts an answer in the place of the topmost cell.
    pub(crate) fn answer(&mut self, value: u64)
        requires { IsOwed self.old }
        ensures { self.new ≡ answered value self.old }
    {
        self.stack.set_top(value);
    }

    /// Goes on at the next place.
    pub(crate) fn advance(&mut self)
        requires { place_of self.old + 1 < 2 ^ 64 }
        ensures { self.new ≡ moved self.old }
    {
        self.place += 1;
    }

    /// Begins the activation of a function over a frame at this base; the one that calls it goes on behind the call.
    pub(crate) fn begin(&mut self, function: u32, base: u32) -> Result<(), NoMemory>
        requires place { place_of self.old + 1 < 2 ^ 64 }
        requires plain { mode_of self.old ≡ Plain }
        ensures { OnOk result (self.new ≡ with_callee function base self.old) }
    {
        let floor = self.stack.begin();
        self.callers.push(Saved {
            function: self.function,
            base: self.base,
            place: self.place + 1,
            floor,
        })?;
        self.function = function;
        self.base = base;
        self.mode = Mode::Plain;
        self.place = 0;
        Ok(())
    }

    /// Goes back to the nearest caller with a cell.
    pub(crate) fn end(&mut self, cell: u64)
        requires called { 0 < depth self.old }
        requires some { 0 < length (stack_of self.old) }
        ensures { self.new ≡ returned cell self.old }
    {
        let caller = self.callers.pop().unwrap();
        self.stack.end(caller.floor, cell);
        self.function = caller.function;
        self.base = caller.base;
        self.mode = Mode::Plain;
        self.place = caller.place;
    }

    /// Takes the steps and turns of the innermost function up to a pause. The only error is want of memory.
    pub(crate) fn run_to_pause<S: Space>(
        &mut self,
        code: &Code,
        space: &mut S,
        units: &mut u64,
    ) -> Result<Pause, NoMemory>
        requires fits { Fits (code_of code.now) self.old }
        requires stacked { IsStacked (code_of code.now) (S.place space.old) self.old }
        ensures { IfOk result (λ p. ComesToPause S.reply S.learn S.place (code_of code.now) self.old space.old units.old p self.new space.new units.new) }
    {
        let function = code.function(self.function);
        self.stack.make_room(function.body.as_slice().len())?;
        // Locals, so that the steps keep them in registers.
        let mut mode = self.mode;
        let mut place = self.place;
        let mut stack = mem::replace(&mut self.stack, Stack::new(self.alloc));
        let pause = take_turns(
            function, self.base, &mut mode, &mut place, &mut stack, space, units,
        );
        self.mode = mode;
        self.stack = stack;
        self.place = place;
        Ok(pause)
    }
}
