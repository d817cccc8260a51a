//! What is read of a trace so far.
ghost use Rattle.std.specs.Prelude.{◌≡◌};
ghost use Rattle.css_traces.specs.Reading.{Gives, opened, closed, with_trace, with_board, with_entry, with_channel, with_transfer, with_end, next};

use crate::board_line::BoardLine;
use crate::fault::ReadError;
use crate::items::Items;
use crate::trace_line::TraceLine;
use crate::traces::{ChannelPart, Generation};
use css_base::ChannelLine;
use std::alloc::Global;

/// What is read of a trace so far. The last generation and its last channel may get more entries.
#[derive(Drop)]
pub(crate) enum Draft {
    /// Nothing.
    Start,
    /// The line with which it begins, and no generation.
    Whole {
        generations: Items<Generation>,
    },
    /// The last generation has no channel yet.
    InBoard {
        generations: Items<Generation>,
        entries: Items<BoardLine>,
    },
    /// The last generation has a last channel.
    InChannel {
        generations: Items<Generation>,
        entries: Items<BoardLine>,
        channels: Items<ChannelPart>,
        worker: u32,
        transfers: Items<ChannelLine>,
    },
    /// All of it.
    Ended {
        generations: Items<Generation>,
    },
}

/// The last generation, behind whole ones.
#[derive(Drop)]
pub(crate) struct LastGeneration {
    pub(crate) generations: Items<Generation>,
    pub(crate) board: Items<BoardLine>,
    pub(crate) channels: Items<ChannelPart>,
}

/// The generation that is open, with the channels that are read of it.
#[tactic(auto, unfolding(crate::specs::Reading::opened))]
fn opened(alloc: Global, draft: Draft) -> Result<LastGeneration, ReadError>
    ensures { Gives result (opened draft) }
{
    match draft {
        Draft::InBoard {
            generations,
            entries,
        } => Ok(LastGeneration {
            generations,
            board: entries,
            channels: Items::none(alloc),
        }),
        Draft::InChannel {
            generations,
            entries,
            channels,
            worker,
            transfers,
        } => {
            let part = ChannelPart {
                worker,
                entries: transfers,
            };
            let channels = channels.with(part)?;
            Ok(LastGeneration {
                generations,
                board: entries,
                channels,
            })
        }
        _ => Err(ReadError::Refused),
    }
}

/// The generations that are read, where an open one ends.
#[tactic(auto, unfolding(crate::specs::Reading::closed))]
fn closed(alloc: Global, draft: Draft) -> Result<Items<Generation>, ReadError>
    ensures { Gives result (closed draft) }
{
    match draft {
        Draft::Whole { generations } => Ok(generations),
        open => {
            let last = opened(alloc, open)?;
            let generation = Generation {
                board: last.board,
                channels: last.channels,
            };
            Ok(last.generations.with(generation)?)
        }
    }
}

#[tactic(auto, unfolding(crate::specs::Reading::with_trace))]
fn with_trace(alloc: Global, draft: Draft) -> Result<Draft, ReadError>
    ensures { Gives result (with_trace draft) }
{
    match draft {
        Draft::Start => Ok(Draft::Whole {
            generations: Items::none(alloc),
        }),
        _ => Err(ReadError::Refused),
    }
}

#[tactic(auto, unfolding(crate::specs::Reading::with_board))]
fn with_board(alloc: Global, draft: Draft, number: u64) -> Result<Draft, ReadError>
    ensures { Gives result (with_board draft number) }
{
    let generations = closed(alloc, draft)?;
    if generations.as_slice().len() as u64 == number {
        Ok(Draft::InBoard {
            generations,
            entries: Items::none(alloc),
        })
    } else {
        Err(ReadError::Refused)
    }
}

#[tactic(auto, unfolding(crate::specs::Reading::with_entry))]
fn with_entry(draft: Draft, entry: BoardLine) -> Result<Draft, ReadError>
    ensures { Gives result (with_entry draft entry) }
{
    match draft {
        Draft::InBoard {
            generations,
            entries,
        } => {
            let entries = entries.with(entry)?;
            Ok(Draft::InBoard {
                generations,
                entries,
            })
        }
        _ => Err(ReadError::Refused),
    }
}

#[tactic(auto, unfolding(crate::specs::Reading::with_channel))]
fn with_channel(alloc: Global, draft: Draft, worker: u32) -> Result<Draft, ReadError>
    ensures { Gives result (with_channel draft worker) }
{
    let last = opened(alloc, draft)?;
    Ok(Draft::InChannel {
        generations: last.generations,
        entries: last.board,
        channels: last.channels,
        worker,
        transfers: Items::none(alloc),
    })
}

#[tactic(auto, unfolding(crate::specs::Reading::with_transfer))]
fn with_transfer(draft: Draft, transfer: ChannelLine) -> Result<Draft, ReadError>
    ensures { Gives result (with_transfer draft transfer) }
{
    match draft {
        Draft::InChannel {
            generations,
            entries,
            channels,
            worker,
            transfers,
        } => {
            let transfers = transfers.with(transfer)?;
            Ok(Draft::InChannel {
                generations,
                entries,
                channels,
                worker,
                transfers,
            })
        }
        _ => Err(ReadError::Refused),
    }
}

#[tactic(auto, unfolding(crate::specs::Reading::with_end))]
fn with_end(alloc: Global, draft: Draft) -> Result<Draft, ReadError>
    ensures { Gives result (with_end draft) }
{
    let generations = closed(alloc, draft)?;
    Ok(Draft::Ended { generations })
}

/// What is read with one more line.
#[tactic(auto, unfolding(crate::specs::Reading::next))]
pub(crate) fn next(alloc: Global, draft: Draft, line: TraceLine) -> Result<Draft, ReadError>
    ensures { Gives result (next draft line) }
{
    match line {
        TraceLine::Trace => with_trace(alloc, draft),
        TraceLine::Board(number) => with_board(alloc, draft, number),
        TraceLine::Entry(entry) => with_entry(draft, entry),
        TraceLine::Channel(worker) => with_channel(alloc, draft, worker),
        TraceLine::Transfer(transfer) => with_transfer(draft, transfer),
        TraceLine::End => with_end(alloc, draft),
    }
}
