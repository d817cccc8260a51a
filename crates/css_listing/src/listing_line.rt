//! The lines of a listing.

use css_isa::{Datum, Instr, Items, Name, TaskShape, Width};

/// What a line of a listing says.
#[derive(Drop)]
pub enum ListingLine {
    /// The code begins: where its globals end, and main's number.
    Head(u32, u32),
    /// First bytes of globals.
    Data(Datum),
    /// A function begins: its name, the bytes of its frame, and the width of each parameter.
    Opens(Name, u32, Items<Width>),
    /// The function is a task.
    Task(TaskShape),
    Instr(Instr),
}
