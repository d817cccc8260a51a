//! The outside: shelves of files, sources of input and sinks of output, in memory and over the real thing.
#![tactic(auto)]

mod calls;
mod failed;
mod file_shelf;
mod gate;
mod mem_shelf;
mod mem_sink;
mod mem_source;
mod reading;
mod retrying;
mod shelf;
mod sink;
mod source;
mod std_sink;
mod std_source;
mod sure_shelf;
mod sure_sink;
mod sure_source;
mod writing;

pub use failed::Failed;
pub use file_shelf::FileShelf;
pub use gate::{Gate, OpenGate};
pub use mem_shelf::MemShelf;
pub use mem_sink::MemSink;
pub use mem_source::MemSource;
pub use reading::{ReadFault, read_all};
pub use shelf::{Shelf, ShelfFault};
pub use sink::Sink;
pub use source::Source;
pub use std_sink::StdSink;
pub use std_source::StdSource;
pub use sure_shelf::SureShelf;
pub use sure_sink::SureSink;
pub use sure_source::SureSource;
pub use writing::write_all;
