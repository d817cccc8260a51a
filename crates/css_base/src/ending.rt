//! How a run ends.
ghost use Rattle.std.specs.Prelude.{◌≡◌};
ghost use Rattle.css_base.specs.Labels.{fault_label};

use crate::line::Line;
use crate::rule::Rule;

/// A fault of the program.
#[derive(Clone, Copy, PartialEq, Eq, Debug)]
pub enum FaultKind {
    /// A zero divisor of `/` or `%`.
    DivideByZero,
    /// An access that isn't wholly live.
    OutsideMemory,
}

impl FaultKind {
    /// The name as reports have it.
    pub fn label(&self) -> &'static str
        ensures { result.now ≡ fault_label self.now }
    {
        match self {
            FaultKind::DivideByZero => "DivideByZero",
            FaultKind::OutsideMemory => "OutsideMemory",
        }
    }
}

/// What stops a run before its result.
#[derive(Clone, Copy, PartialEq, Eq, Debug)]
pub enum Stop {
    Fault(FaultKind),
    Rule(Rule),
}

/// Whose event a stop is.
#[derive(Clone, Copy, PartialEq, Eq, Debug)]
pub enum Who {
    Main,
    /// The task of this number, counted from 0 in order of the calls.
    Task(u64),
}

/// The ending of a run: main's result, or the first stop in program order.
#[derive(Clone, Copy, PartialEq, Eq, Debug)]
pub enum Ending {
    Result(i32),
    Stopped { stop: Stop, line: Line, who: Who },
}
