//! Events.
use crate::printed::Printed;
use css_base::{Line, Stop};

/// Where an instruction stands, and with it what it asks and its faults.
#[derive(Clone, Copy, PartialEq, Eq, Debug)]
pub enum Mode {
    /// Neither in the expressions of a wait nor in a dimension.
    Plain,
    /// In the expressions of a wait.
    Waiting,
    /// In a dimension of a task's call.
    Measuring,
}

/// What a machine tells, or asks, at a mark.
#[derive(Clone, Copy, PartialEq, Eq, Debug)]
pub enum MarkKind {
    /// From here on calls of tasks make tasks.
    Start,
    /// All tasks are waited for, and calls make no more.
    Finish,
    /// All tasks are waited for.
    Barrier,
    /// The object at this address is waited for.
    Wait(u32),
    /// Asks whether calls of tasks make tasks.
    Started,
}

/// A call of a task that was asked for.
#[derive(Drop)]
pub struct Submitted {
    /// The task's number among the functions.
    pub function: u32,
    /// Its arguments in order, each modulo 2 to the bits of its parameter.
    pub arguments: Vec<u64>,
    /// Its dimensions in order, as the cells are.
    pub dims: Vec<u64>,
    /// The line of the call.
    pub line: Line,
}

/// What a machine's run comes to, with its line.
#[derive(Drop)]
pub enum Event {
    /// It writes bytes, and is owed their number as an answer.
    Out(Printed, Line),
    /// It takes a byte of the input, and is owed it as an answer, or 2^64 - 1 at the input's end.
    In(Line),
    /// It takes so many bytes of the heap, and is owed their address as an answer, or 0.
    Malloc(u32, Line),
    /// It makes a task of a call, and is owed 0 as an answer.
    Submit(Submitted),
    /// It comes to a mark. Where that asks whether tasks are made, it is owed 1 or 0 as an answer.
    Mark(MarkKind, Line),
    /// The first function returns this cell. The frame is still there.
    Ended(u64, Line),
    /// It stops at a fault or a rule. In the expressions of a wait, and in a dimension, it is for the rules to say what a fault is.
    Stopped(Stop, Mode, Line),
}
