//! What a trace shows of a board.

use crate::items::Items;
use crate::name::Name;
use css_base::{Line, Stop};

/// One entry of a board's history, as a trace shows it.
pub enum BoardLine {
    /// The task of this number, a call of the function of this name, was submitted.
    Submit {
        number: u64,
        name: Name,
    },
    /// The worker took these tasks, in order.
    Take {
        worker: u32,
        numbers: Items<u64>,
    },
    /// The worker finished the task.
    Finish {
        worker: u32,
        number: u64,
    },
    /// The task stopped at the worker, in this line and for this cause.
    Stop {
        worker: u32,
        number: u64,
        line: Line,
        stop: Stop,
    },
    /// The worker gave these tasks back, in order.
    Back {
        worker: u32,
        numbers: Items<u64>,
    },
    /// The worker had no memory.
    Starved {
        worker: u32,
    },
    /// Nothing is submitted any more.
    Close,
}

// By hand, so that a place that lets an entry go is one call in its proof.
impl Drop for BoardLine {
    fn drop(self) {
        match self {
            BoardLine::Submit { number: _, name: _ } => {}
            BoardLine::Take {
                worker: _,
                numbers: _,
            } => {}
            BoardLine::Finish {
                worker: _,
                number: _,
            } => {}
            BoardLine::Stop {
                worker: _,
                number: _,
                line: _,
                stop: _,
            } => {}
            BoardLine::Back {
                worker: _,
                numbers: _,
            } => {}
            BoardLine::Starved { worker: _ } => {}
            BoardLine::Close => {}
        }
    }
}
