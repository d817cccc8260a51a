//! Gates, which whoever starts a run may hold its threads at.

use css_base::Line;

/// What the threads of a run tell as they go. A call may take as long as it likes. No answer depends on a gate.
pub trait Gate {
    /// A worker is about to run a task.
    fn enter(&self, worker: u32, task: u64);

    /// A worker has run a task.
    fn leave(&self, worker: u32, task: u64);

    /// Main has fetched an object in a line.
    fn main_at(&self, line: Line);

    /// A worker's mover has taken a step.
    fn moves(&self, worker: u32);
}

/// A gate that is always open: it does nothing.
#[derive(Clone, Copy, Default)]
pub struct OpenGate {}

impl OpenGate {
    /// A new gate.
    pub fn new() -> OpenGate {
        OpenGate {}
    }
}

impl Gate for OpenGate {
    fn enter(&self, _worker: u32, _task: u64) {}

    fn leave(&self, _worker: u32, _task: u64) {}

    fn main_at(&self, _line: Line) {}

    fn moves(&self, _worker: u32) {}
}
