//! The lines of a trace.

use crate::board_line::BoardLine;
use css_base::ChannelLine;

/// What a line of a trace says.
#[derive(Drop)]
pub enum TraceLine {
    /// The trace begins.
    Trace,
    /// The generation of this number begins, with the entries of its board.
    Board(u64),
    Entry(BoardLine),
    /// The channel of this worker begins.
    Channel(u32),
    Transfer(ChannelLine),
    /// The trace ends.
    End,
}
