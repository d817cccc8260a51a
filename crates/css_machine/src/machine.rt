//! The stack machine.
ghost use Rattle.std.specs.Prelude.{◌≡◌, IfOk, OnErr, length};
ghost use Rattle.css_isa.specs.Steps.{Begin};
ghost use Rattle.css_isa.specs.Machine.{answered};
ghost use Rattle.css_machine.specs.Due.{due_after, TakesAnswer};
ghost use Rattle.css_isa.specs.Code.{code_of};
ghost use Rattle.css_isa.specs.Soundness.{Fits};
ghost use Rattle.css_semantics.specs.Units.{with_units, metered, spending};
ghost use Rattle.css_machine.specs.Events.{Reaches, Leaves, IsStacked, IsInside, base_of};

use crate::engine::Engine;
use crate::event::{Event, MarkKind};
use css_base::{Line, NoMemory};
use css_isa::{Code, Space};
use std::alloc::Global;
use std::marker::Model;

/// What a machine takes next.
#[derive(Clone, Copy, PartialEq, Eq, Debug)]
pub enum Due {
    /// A run.
    Run,
    /// An answer, which takes the topmost cell's place.
    Value,
    /// An answer that it doesn't keep.
    Signal,
    /// Nothing: it has ended or stopped, or there was no memory.
    Nothing,
}

/// A machine. Contracts see its state, and what it takes next.
#[derive(Drop)]
pub struct Machine {
    engine: Engine,
    due: Due,
}

impl Model for Machine {
    ghost use Rattle.css_machine.specs.Due as as_seen;

    ghost Value = { as_seen.Machine };

    ghost view = { λ m. record { state = m.engine; due = m.due } };
}

// What a machine takes after an event.
fn due_after(event: &Event) -> Due
    ensures { result ≡ due_after event.now }
{
    match event {
        Event::Out(_, _) => Due::Value,
        Event::In(_) => Due::Value,
        Event::Malloc(_, _) => Due::Value,
        Event::Submit(_) => Due::Value,
        Event::Mark(MarkKind::Started, _) => Due::Value,
        Event::Mark(MarkKind::Start, _) => Due::Signal,
        Event::Mark(MarkKind::Finish, _) => Due::Signal,
        Event::Mark(MarkKind::Barrier, _) => Due::Signal,
        Event::Mark(MarkKind::Wait(_), _) => Due::Signal,
        Event::Ended(_, _) => Due::Nothing,
        Event::Stopped(_, _, _) => Due::Nothing,
    }
}

impl Machine {
    /// A machine before the entry of a function with these arguments, in this line. `NoMemory` where there is no memory for them.
    pub fn new(
        alloc: Global,
        code: &Code,
        function: u32,
        arguments: &[u64],
        line: Line,
    ) -> Result<Machine, NoMemory>
        ensures state { IfOk result (λ m. m.state ≡ Begin function arguments.now line) }
        ensures due { IfOk result (λ m. m.due ≡ Due.Run) }
    {
        Ok(Machine {
            engine: Engine::new(alloc, code, function, arguments, line)?,
            due: Due::Run,
        })
    }

    /// Takes the steps up to the next event. Each entry of a function and of a loop's body takes one of the units; where none is
    /// left the rule on units stops the machine, but not where another rule does. After `NoMemory`, which comes where the stack
    /// can't grow, and after `Ended` and `Stopped` the machine isn't run again; after each other event it takes an answer first.
    pub fn run_to_event<S: Space>(
        &mut self,
        alloc: Global,
        code: &Code,
        space: &mut S,
        units: &mut u64,
    ) -> Result<Event, NoMemory>
        requires due { self.old.due ≡ Due.Run }
        requires fits { Fits (code_of code.now) self.old.state }
        requires stacked { IsStacked (code_of code.now) (S.place space.old) self.old.state }
        ensures event { IfOk result (λ e. Reaches (metered S.reply) (spending S.learn) (code_of code.now)
            self.old.state (with_units space.old units.old) e self.new.state (with_units space.new units.new)) }
        ensures leaves { IfOk result (λ e. Leaves (code_of code.now) self.old.state units.old e self.new.state units.new (S.place space.new)) }
        ensures due { IfOk result (λ e. self.new.due ≡ due_after e) }
        ensures over { OnErr result (self.new.due ≡ Due.Nothing) }
    {
        self.due = Due::Nothing;
        let event = self.engine.run_to_event(alloc, code, space, units)?;
        self.due = due_after(&event);
        Ok(event)
    }

    /// The base of the innermost frame, once the function is entered.
    pub fn base(&self) -> u32
        requires { IsInside self.now.state }
        ensures { result ≡ base_of self.now.state }
    {
        self.engine.base()
    }

    /// Answers an event. The machine keeps the answer to an output, to an input, to bytes of the heap, to a task's call and to the question
    /// whether tasks are made.
    pub fn answer(&mut self, value: u64)
        requires { TakesAnswer self.old.due self.old.state }
        ensures value { self.old.due ≡ Due.Value → self.new.state ≡ answered value self.old.state }
        ensures signal { self.old.due ≡ Due.Signal → self.new.state ≡ self.old.state }
        ensures due { self.new.due ≡ Due.Run }
    {
        match self.due {
            Due::Value => self.engine.answer(value),
            Due::Signal => {}
            Due::Run => unreachable!(),
            Due::Nothing => unreachable!(),
        }
        self.due = Due::Run;
    }
}
