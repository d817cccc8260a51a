//! Traces.

use crate::board_line::BoardLine;
use crate::items::Items;
use css_base::ChannelLine;

/// What a trace shows of a run: its generations in order.
#[derive(Drop)]
pub struct Traces {
    pub generations: Items<Generation>,
}

/// What a trace shows of a generation.
#[derive(Drop)]
pub struct Generation {
    /// The entries of its board.
    pub board: Items<BoardLine>,
    /// The channels of its workers.
    pub channels: Items<ChannelPart>,
}

/// What a trace shows of a worker's channel.
#[derive(Drop)]
pub struct ChannelPart {
    /// The worker's number.
    pub worker: u32,
    pub entries: Items<ChannelLine>,
}
