//! What the words ask for.
use crate::command::Command;
use crate::file_name::FileName;
use css_base::Limits;

/// What the words ask for. What they don't give has its default; a name that they don't give is empty, and a number 0.
#[derive(Drop)]
pub struct Request {
    /// What to do.
    pub command: Command,
    /// The file of the program's text.
    pub file: FileName,
    /// The number of a generated program, up to 9,999.
    pub number: u32,
    /// What the run may use.
    pub limits: Limits,
    /// What the order of a `sim` is drawn from.
    pub seed: u64,
    /// Whether images of memory are reported.
    pub images: bool,
    /// Whether the calls are counted in the report.
    pub stats: bool,
    /// Whether the report ends with a trace.
    pub trace: bool,
    /// Whether `make` writes the text in place of running it.
    pub print: bool,
    /// The file of a trace.
    pub trace_file: FileName,
    /// Whether tasks run on shared memory.
    pub shared: bool,
    /// Which barrier `save` stops at, from 1 to 1,000,000.
    pub barrier: u32,
    /// The file of a state.
    pub state: FileName,
}
