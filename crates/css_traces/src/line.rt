//! What a line of a trace says.
ghost use Rattle.std.specs.Prelude.{◌≡◌, ◌==◌, ◌<◌, IfOk, length, map};
ghost use Rattle.std.specs.List.{slice_split};
ghost use Rattle.css_traces.specs.Reading.{Gives, stop_entry, entry_of, transfer_of, line_by, line_of_words, line_of};

use crate::board_line::BoardLine;
use crate::fault::ReadError;
use crate::kind::{EntryKind, Kind, TransferKind};
use crate::tables::{kind_of, stop_of};
use crate::trace_line::TraceLine;
use crate::words::{
    line_number_of, number_and_name, number_of, only_number, only_small, small_and_number,
    small_and_numbers, small_of,
};
use css_base::ChannelLine;
use std::alloc::{AllocError, Global};

/// What the words of a stop say.
#[tactic(auto, unfolding(crate::specs::Reading::stop_entry))]
fn stop_entry(words: &[&[u8]]) -> Result<BoardLine, ReadError>
    ensures { Gives result (stop_entry (map (λ w. w.now) words.now)) }
{
    if words.len() != 4 {
        return Err(ReadError::Refused);
    }
    let Some(worker) = small_of(words[0]) else {
        return Err(ReadError::Refused);
    };
    let Some(number) = number_of(words[1]) else {
        return Err(ReadError::Refused);
    };
    let Some(line) = line_number_of(words[2]) else {
        return Err(ReadError::Refused);
    };
    let Some(stop) = stop_of(words[3]) else {
        return Err(ReadError::Refused);
    };
    Ok(BoardLine::Stop {
        worker,
        number,
        line,
        stop,
    })
}

/// What the words behind the first say of a board.
#[tactic(auto, unfolding(crate::specs::Reading::entry_of))]
fn entry_of(alloc: Global, kind: EntryKind, words: &[&[u8]]) -> Result<BoardLine, ReadError>
    ensures { Gives result (entry_of kind (map (λ w. w.now) words.now)) }
{
    match kind {
        EntryKind::Submit => {
            let (number, name) = number_and_name(alloc, words)?;
            Ok(BoardLine::Submit { number, name })
        }
        EntryKind::Take => {
            let (worker, numbers) = small_and_numbers(alloc, words)?;
            Ok(BoardLine::Take { worker, numbers })
        }
        EntryKind::Finish => {
            let (worker, number) = small_and_number(words)?;
            Ok(BoardLine::Finish { worker, number })
        }
        EntryKind::Stop => stop_entry(words),
        EntryKind::Back => {
            let (worker, numbers) = small_and_numbers(alloc, words)?;
            Ok(BoardLine::Back { worker, numbers })
        }
        EntryKind::Starved => {
            let worker = only_small(words)?;
            Ok(BoardLine::Starved { worker })
        }
        EntryKind::Close => {
            if words.len() == 0 {
                Ok(BoardLine::Close)
            } else {
                Err(ReadError::Refused)
            }
        }
    }
}

/// What the words behind the first say of a channel.
#[tactic(auto, unfolding(crate::specs::Reading::transfer_of))]
fn transfer_of(kind: TransferKind, words: &[&[u8]]) -> Result<ChannelLine, ReadError>
    ensures { Gives result (transfer_of kind (map (λ w. w.now) words.now)) }
{
    match kind {
        TransferKind::Issue => {
            let (tag, length) = small_and_number(words)?;
            Ok(ChannelLine::Issue { tag, length })
        }
        TransferKind::Out => {
            let tag = only_small(words)?;
            Ok(ChannelLine::Out { tag })
        }
        TransferKind::Finished => {
            let tag = only_small(words)?;
            Ok(ChannelLine::Finished { tag })
        }
        TransferKind::Collected => {
            let tag = only_small(words)?;
            Ok(ChannelLine::Collected { tag })
        }
    }
}

/// What a line of this kind says, by the words behind its first.
#[tactic(auto, unfolding(crate::specs::Reading::line_by))]
fn line_by(alloc: Global, kind: Kind, words: &[&[u8]]) -> Result<TraceLine, ReadError>
    ensures { Gives result (line_by kind (map (λ w. w.now) words.now)) }
{
    match kind {
        Kind::Trace => {
            if words.len() == 0 {
                Ok(TraceLine::Trace)
            } else {
                Err(ReadError::Refused)
            }
        }
        Kind::Board => {
            let number = only_number(words)?;
            Ok(TraceLine::Board(number))
        }
        Kind::Channel => {
            let worker = only_small(words)?;
            Ok(TraceLine::Channel(worker))
        }
        Kind::End => {
            if words.len() == 0 {
                Ok(TraceLine::End)
            } else {
                Err(ReadError::Refused)
            }
        }
        Kind::Entry(entry) => {
            let entry = entry_of(alloc, entry, words)?;
            Ok(TraceLine::Entry(entry))
        }
        Kind::Transfer(transfer) => {
            let transfer = transfer_of(transfer, words)?;
            Ok(TraceLine::Transfer(transfer))
        }
    }
}

/// What the words of a line say.
#[tactic(auto, unfolding(crate::specs::Reading::line_of_words))]
fn line_of_words(alloc: Global, words: &[&[u8]]) -> Result<TraceLine, ReadError>
    requires { 0 < length words.now }
    ensures { Gives result (line_of_words (map (λ w. w.now) words.now)) }
{
    let Some(kind) = kind_of(words[0]) else {
        return Err(ReadError::Refused);
    };
    line_by(alloc, kind, &words[1..])
}

/// The words of a line.
fn words_of(alloc: Global, bytes: &[u8]) -> Result<Vec<&[u8]>, AllocError>
    ensures { IfOk result (λ words. map (λ w. w.now) words.items ≡ slice_split (λ b. b == 32) bytes.now) }
{
    bytes.split(|b| *b == b' ').collect(alloc)
}

/// What a line says, without the newline that ends it.
pub(crate) fn line_of(alloc: Global, bytes: &[u8]) -> Result<TraceLine, ReadError>
    ensures { Gives result (line_of bytes.now) }
{
    let words = words_of(alloc, bytes)?;
    if words.is_empty() {
        return Err(ReadError::Refused);
    }
    line_of_words(alloc, words.as_slice())
}
