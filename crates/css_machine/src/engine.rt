//! The machine's run from event to event.
ghost use Rattle.std.specs.Prelude.{◌≡◌, IfOk, length};
ghost use Rattle.css_isa.specs.Steps.{Begin};
ghost use Rattle.css_isa.specs.Machine.{answered, IsOwed};
ghost use Rattle.css_isa.specs.Code.{code_of};
ghost use Rattle.css_isa.specs.Soundness.{Fits};
ghost use Rattle.css_semantics.specs.Units.{with_units, metered, spending};
ghost use Rattle.css_machine.specs.Events.{Reaches, Leaves, IsStacked, IsInside, base_of};

use crate::activations::Activations;
use crate::entry::enter;
use crate::event::{Event, Mode};
use crate::rounds::run;
use css_base::{Line, NoMemory};
use css_isa::{Code, Space};
use std::alloc::Global;
use std::marker::Model;

/// What runs, whatever it takes next. Contracts see its state.
#[derive(Drop)]
pub(crate) struct Engine {
    begun: bool,
    function: u32,
    arguments: Vec<u64>,
    line: Line,
    activations: Activations,
}

impl Model for Engine {
    ghost use Rattle.std.specs.Prelude.{if◌then◌else◌};
    ghost use Rattle.css_isa.specs.Steps.{State, Begin};

    ghost Value = { State };

    ghost view = { λ m. if m.begun then m.activations else Begin m.function m.arguments.items m.line };
}

impl Engine {
    // Before the entry of a function with these arguments, in this line.
    pub(crate) fn new(
        alloc: Global,
        code: &Code,
        function: u32,
        arguments: &[u64],
        line: Line,
    ) -> Result<Engine, NoMemory>
        ensures { IfOk result (λ m. m ≡ Begin function arguments.now line) }
    {
        let _code = code;
        let arguments = Vec::from_slice(alloc, arguments)?;
        Ok(Engine {
            begun: false,
            function,
            arguments,
            line,
            activations: Activations::new(alloc, function, 0),
        })
    }

    // Takes the steps up to the next event.
    pub(crate) fn run_to_event<S: Space>(
        &mut self,
        alloc: Global,
        code: &Code,
        space: &mut S,
        units: &mut u64,
    ) -> Result<Event, NoMemory>
        requires fits { Fits (code_of code.now) self.old }
        requires stacked { IsStacked (code_of code.now) (S.place space.old) self.old }
        ensures event { IfOk result (λ e. Reaches (metered S.reply) (spending S.learn) (code_of code.now)
            self.old (with_units space.old units.old) e self.new (with_units space.new units.new)) }
        ensures leaves { IfOk result (λ e. Leaves (code_of code.now) self.old units.old e self.new units.new (S.place space.new)) }
    {
        if self.begun {
            return run(&mut self.activations, alloc, code, space, units);
        }
        match enter(code.function(self.function), &self.arguments, space, units) {
            Ok(base) => {
                self.activations = Activations::new(alloc, self.function, base);
                self.begun = true;
                run(&mut self.activations, alloc, code, space, units)
            }
            Err(stop) => Ok(Event::Stopped(stop, Mode::Plain, self.line)),
        }
    }

    // The base of the innermost frame, once the function is entered.
    pub(crate) fn base(&self) -> u32
        requires { IsInside self.now }
        ensures { result ≡ base_of self.now }
    {
        self.activations.base()
    }

    // Puts an answer in the place of the topmost cell.
    pub(crate) fn answer(&mut self, value: u64)
        requires { IsOwed self.old }
        ensures { self.new ≡ answered value self.old }
    {
        self.activations.answer(value);
    }
}
