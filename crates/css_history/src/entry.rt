//! Entries of a board's history.
use css_base::{Buffer, Line, Stop};
use css_record::TaskRecord;
use css_traces::Items;

/// An entry of a board's history. Main's seat is 0, and that of worker W is W + 1.
pub enum Entry {
    /// Main submits a task, with the buffers that are given with it.
    Submit {
        rec: TaskRecord,
        given: Items<Buffer>,
    },
    /// The worker takes these tasks, to run them in this order.
    Take {
        worker: u32,
        numbers: Items<u64>,
    },
    /// The worker has run the task, which made these.
    Finish {
        worker: u32,
        number: u64,
        outs: Items<Buffer>,
    },
    /// The task stopped at the worker, in this line and for this cause.
    Stop {
        worker: u32,
        number: u64,
        stop: Stop,
        line: Line,
    },
    /// The worker gives these tasks back, in the order in which it took them.
    Back {
        worker: u32,
        numbers: Items<u64>,
    },
    /// The worker had no memory.
    Starved {
        worker: u32,
    },
    /// Main submits no more.
    Close,
}

// By hand, so that a place that lets an entry go is one call in its proof.
impl Drop for Entry {
    fn drop(self) {
        match self {
            Entry::Submit { rec: _, given: _ } => {}
            Entry::Take {
                worker: _,
                numbers: _,
            } => {}
            Entry::Finish {
                worker: _,
                number: _,
                outs: _,
            } => {}
            Entry::Stop {
                worker: _,
                number: _,
                stop: _,
                line: _,
            } => {}
            Entry::Back {
                worker: _,
                numbers: _,
            } => {}
            Entry::Starved { worker: _ } => {}
            Entry::Close => {}
        }
    }
}
