//! What a line of a listing says.
ghost use Rattle.std.specs.Prelude.{◌≡◌, ◌==◌, ◌<◌, IfOk, length, map};
ghost use Rattle.std.specs.List.{slice_split};
ghost use Rattle.css_listing.specs.Reading.{Gives, head_of, data_of, opens_of, task_of, instr_of, line_by, line_of_words, line_of};

use crate::fault::ReadError;
use crate::kind::Kind;
use crate::listing_line::ListingLine;
use crate::numbers::{bytes_of, line_number_of, name_of, small_of};
use crate::ops::op_of;
use crate::parts::{parts_of, widths_of};
use crate::tables::{high_of, kind_of};
use css_isa::{Datum, Instr, TaskShape};
use std::alloc::{AllocError, Global};

#[tactic(auto, unfolding(crate::specs::Reading::head_of))]
fn head_of(words: &[&[u8]]) -> Result<ListingLine, ReadError>
    ensures { Gives result (head_of (map (λ w. w.now) words.now)) }
{
    if words.len() != 2 {
        return Err(ReadError::Refused);
    }
    match (small_of(words[0]), small_of(words[1])) {
        (Some(globals_end), Some(main)) => Ok(ListingLine::Head(globals_end, main)),
        _ => Err(ReadError::Refused),
    }
}

#[tactic(auto, unfolding(crate::specs::Reading::data_of))]
fn data_of(alloc: Global, words: &[&[u8]]) -> Result<ListingLine, ReadError>
    ensures { Gives result (data_of (map (λ w. w.now) words.now)) }
{
    if words.len() != 2 {
        return Err(ReadError::Refused);
    }
    let Some(address) = small_of(words[0]) else {
        return Err(ReadError::Refused);
    };
    let bytes = bytes_of(alloc, words[1])?;
    Ok(ListingLine::Data(Datum { address, bytes }))
}

#[tactic(auto, unfolding(crate::specs::Reading::opens_of))]
fn opens_of(alloc: Global, words: &[&[u8]]) -> Result<ListingLine, ReadError>
    ensures { Gives result (opens_of (map (λ w. w.now) words.now)) }
{
    if words.len() < 2 {
        return Err(ReadError::Refused);
    }
    let name = name_of(alloc, words[0])?;
    let Some(frame) = small_of(words[1]) else {
        return Err(ReadError::Refused);
    };
    let params = widths_of(alloc, &words[2..])?;
    Ok(ListingLine::Opens(name, frame, params))
}

#[tactic(auto, unfolding(crate::specs::Reading::task_of))]
fn task_of(alloc: Global, words: &[&[u8]]) -> Result<ListingLine, ReadError>
    ensures { Gives result (task_of (map (λ w. w.now) words.now)) }
{
    if words.len() == 0 {
        return Err(ReadError::Refused);
    }
    let Some(high) = high_of(words[0]) else {
        return Err(ReadError::Refused);
    };
    let args = parts_of(alloc, &words[1..])?;
    Ok(ListingLine::Task(TaskShape { high, args }))
}

#[tactic(auto, unfolding(crate::specs::Reading::instr_of))]
fn instr_of(words: &[&[u8]]) -> Result<ListingLine, ReadError>
    ensures { Gives result (instr_of (map (λ w. w.now) words.now)) }
{
    if words.len() == 0 {
        return Err(ReadError::Refused);
    }
    match (line_number_of(words[0]), op_of(&words[1..])) {
        (Some(line), Some(op)) => Ok(ListingLine::Instr(Instr { op, line })),
        _ => Err(ReadError::Refused),
    }
}

/// What a line of this kind says, by the words behind its first.
#[tactic(auto, unfolding(crate::specs::Reading::line_by))]
fn line_by(alloc: Global, kind: Kind, words: &[&[u8]]) -> Result<ListingLine, ReadError>
    ensures { Gives result (line_by kind (map (λ w. w.now) words.now)) }
{
    match kind {
        Kind::Head => head_of(words),
        Kind::Data => data_of(alloc, words),
        Kind::Opens => opens_of(alloc, words),
        Kind::Task => task_of(alloc, words),
        Kind::Instr => instr_of(words),
    }
}

/// What the words of a line say.
#[tactic(auto, unfolding(crate::specs::Reading::line_of_words))]
fn line_of_words(alloc: Global, words: &[&[u8]]) -> Result<ListingLine, ReadError>
    requires { 0 < length words.now }
    ensures { Gives result (line_of_words (map (λ w. w.now) words.now)) }
{
    let Some(kind) = kind_of(words[0]) else {
        return Err(ReadError::Refused);
    };
    line_by(alloc, kind, &words[1..])
}

/// The words of a line.
fn words_of(alloc: Global, bytes: &[u8]) -> Result<Vec<&[u8]>, AllocError>
    ensures { IfOk result (λ words. map (λ w. w.now) words.items ≡ slice_split (λ b. b == 32) bytes.now) }
{
    bytes.split(|b| *b == b' ').collect(alloc)
}

/// What a line says, without the newline that ends it.
pub(crate) fn line_of(alloc: Global, bytes: &[u8]) -> Result<ListingLine, ReadError>
    ensures { Gives result (line_of bytes.now) }
{
    let words = words_of(alloc, bytes)?;
    if words.is_empty() {
        return Err(ReadError::Refused);
    }
    line_of_words(alloc, words.as_slice())
}
