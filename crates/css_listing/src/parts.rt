//! What functions and tasks are given, as words.
ghost use Rattle.std.specs.Prelude.{◌≡◌, ◌==◌, IfOk, map};
ghost use Rattle.std.specs.List.{slice_split};
ghost use Rattle.css_listing.specs.Words.{window_of, part_of, parts_of, widths_of};
ghost use Rattle.css_listing.specs.Reading.{Gives};

use crate::fault::ReadError;
use crate::numbers::small_of;
use crate::tables::{direction_of, width_of};
use css_isa::{ArgShape, Items, Width};
use std::alloc::{AllocError, Global};

/// The words between colons.
fn halves_of(alloc: Global, bytes: &[u8]) -> Result<Vec<&[u8]>, AllocError>
    ensures { IfOk result (λ words. map (λ w. w.now) words.items ≡ slice_split (λ b. b == 58) bytes.now) }
{
    bytes.split(|b| *b == b':').collect(alloc)
}

/// The window that these words are: its direction, its element, and its dimensions.
#[tactic(auto, unfolding(crate::specs::Words::window_of))]
fn window_of(words: &[&[u8]]) -> Option<ArgShape>
    ensures { result ≡ window_of (map (λ w. w.now) words.now) }
{
    if words.len() != 3 {
        return None;
    }
    let direction = direction_of(words[0])?;
    let element = small_of(words[1])?;
    if words[2] == b"s".as_slice() {
        return Some(ArgShape::Window {
            direction,
            element,
            dims: 3,
            strided: true,
        });
    }
    let dims = small_of(words[2])?;
    Some(ArgShape::Window {
        direction,
        element,
        dims,
        strided: false,
    })
}

/// The part of a task's call that a word is.
#[tactic(auto, unfolding(crate::specs::Words::part_of))]
fn part_of(alloc: Global, word: &[u8]) -> Result<ArgShape, ReadError>
    ensures { Gives result (part_of word.now) }
{
    if word == b"s".as_slice() {
        return Ok(ArgShape::Scalar);
    }
    let words = halves_of(alloc, word)?;
    match window_of(words.as_slice()) {
        Some(part) => Ok(part),
        None => Err(ReadError::Refused),
    }
}

/// The parts that words are.
#[tactic(auto, unfolding(crate::specs::Words::parts_of))]
pub(crate) fn parts_of(alloc: Global, words: &[&[u8]]) -> Result<Items<ArgShape>, ReadError>
    ensures { Gives result (parts_of (map (λ w. w.now) words.now)) }
{
    let mut parts = Vec::new(alloc);
    for word in words {
        let part = part_of(alloc, word)?;
        parts.push(part)?;
    }
    Ok(Items::new(parts))
}

/// The widths that words are.
#[tactic(auto, unfolding(crate::specs::Words::widths_of))]
pub(crate) fn widths_of(alloc: Global, words: &[&[u8]]) -> Result<Items<Width>, ReadError>
    ensures { Gives result (widths_of (map (λ w. w.now) words.now)) }
{
    let mut widths = Vec::new(alloc);
    for word in words {
        let Some(width) = width_of(word) else {
            return Err(ReadError::Refused);
        };
        widths.push(width)?;
    }
    Ok(Items::new(widths))
}
