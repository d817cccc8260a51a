//! The words of a line.
ghost use Rattle.std.specs.Prelude.{◌≡◌, ◌<◌, ◌≤◌, ◌+◌, List, length, drop, option_map, All, IfOk};
ghost use Rattle.css_base.specs.Tokens.{lexeme, lexemes};
ghost use Rattle.css_lexemes.specs.Source.{bytes_of};
ghost use Rattle.css_lexemes.specs.Longest.{pieces_of};
ghost use Rattle.css_lex.specs.Reading.{is_blank_piece, solid};
ghost use Rattle.css_lex.specs.Words.{IsPieceAt, piece_in, word_of, own_breach, words_of, failure_of, is_kept, skip_behind};

use crate::breach::Breach;
use crate::numbered::NumberedText;
use css_base::{NoMemory, StaticName, Token};
use css_lexemes::{Shape, SourceByte, first_piece, kind_of_lexeme};
use std::alloc::Global;

/// A logical line: its bytes with their numbered, and the bytes alone.
#[derive(Drop, Clone, Copy)]
pub(crate) struct LineBytes<'a> {
    pub(crate) source: &'a [SourceByte],
    pub(crate) bytes: &'a [u8],
    ghost same: { bytes.now ≡ bytes_of source.now },
}

/// The tokens that a line spells before macros are replaced, up to the first piece that spells none, and the rule that this
/// piece breaks.
#[derive(Drop)]
pub(crate) struct Words {
    pub(crate) tokens: Vec<Token>,
    pub(crate) failure: Option<Breach>,
}

/// A piece of a line, and the index behind it.
#[derive(Clone, Copy)]
pub(crate) struct LinePiece {
    pub(crate) shape: Shape,
    pub(crate) to: usize,
}

/// The piece of a line from an index on.
pub(crate) fn piece_from(line: &LineBytes, from: usize) -> LinePiece
    requires { from < length line.now.bytes.now }
    ensures piece { IsPieceAt line.now.source.now result.shape from result.to }
    ensures some { from < result.to }
    ensures inside { result.to ≤ length line.now.source.now }
    ensures within { result.to ≤ length line.now.bytes.now }
{
    let piece = first_piece(&line.bytes[from..]);
    LinePiece {
        shape: piece.shape,
        to: from + piece.size,
    }
}

/// The token that a piece of a line spells, from one index of the line up to another.
fn word_in(
    alloc: Global,
    numbered: &NumberedText,
    line: &LineBytes,
    shape: Shape,
    from: usize,
    to: usize,
) -> Result<Option<Token>, NoMemory>
    requires some { from < to }
    requires to { to ≤ length line.now.source.now }
    requires inside { All (λ c. c.place < length numbered.now.text.now) line.now.source.now }
    ensures { IfOk result (λ word. option_map lexeme word ≡ word_of numbered.now.text.now (piece_in line.now.source.now shape from to)) }
{
    let Shape::Lexeme(class) = shape else {
        return Ok(None);
    };
    let Some(kind) = kind_of_lexeme(alloc, class, &line.bytes[from..to])? else {
        return Ok(None);
    };
    let place = line.source[from].place;
    let end = line.source[to - 1].place + 1;
    Ok(Some(numbered.token(kind, place, end)))
}

/// Whether a piece is read where so many solid pieces are still passed over.
fn is_read(skip: usize, shape: Shape) -> bool
    ensures { result ≡ is_kept skip shape }
{
    skip == 0 && !matches!(shape, Shape::Blank)
}

/// Whether a piece is white space.
pub(crate) fn is_white_piece(shape: Shape) -> bool
    ensures { result ≡ is_blank_piece shape }
{
    matches!(shape, Shape::Blank)
}

/// How many solid pieces are still passed over behind a piece.
fn left_to_skip(skip: usize, shape: Shape) -> usize
    ensures { result ≡ skip_behind skip shape }
{
    match shape {
        Shape::Blank => skip,
        _ => skip.saturating_sub(1),
    }
}

/// The rule that a piece of a line breaks that spells no token.
fn failure_in(line: &LineBytes, shape: Shape, from: usize, to: usize) -> Breach
    requires some { from < to }
    requires to { to ≤ length line.now.source.now }
    ensures { result ≡ own_breach (piece_in line.now.source.now shape from to) }
{
    let name = match shape {
        Shape::Stray => StaticName::BadToken,
        _ => StaticName::BadConstant,
    };
    Breach {
        name,
        place: line.source[from].place,
    }
}

/// The words of a line behind so many solid pieces.
pub(crate) fn read_words(
    alloc: Global,
    numbered: &NumberedText,
    line: &LineBytes,
    skipped: usize,
) -> Result<Words, NoMemory>
    requires { All (λ c. c.place < length numbered.now.text.now) line.now.source.now }
    ensures tokens { IfOk result (λ words. lexemes words.tokens.items ≡ words_of numbered.now.text.now (drop skipped (solid (pieces_of line.now.source.now)))) }
    ensures failure { IfOk result (λ words. words.failure ≡ failure_of (drop skipped (solid (pieces_of line.now.source.now)))) }
{
    let mut tokens = Vec::new(alloc);
    let mut skip = skipped;
    let mut from = 0;
    while from < line.bytes.len() {
        let piece = piece_from(line, from);
        if is_read(skip, piece.shape) {
            let Some(word) = word_in(alloc, numbered, line, piece.shape, from, piece.to)? else {
                let failure = Some(failure_in(line, piece.shape, from, piece.to));
                return Ok(Words { tokens, failure });
            };
            tokens.push(word)?;
        }
        skip = left_to_skip(skip, piece.shape);
        from = piece.to;
    }
    Ok(Words {
        tokens,
        failure: None,
    })
}
