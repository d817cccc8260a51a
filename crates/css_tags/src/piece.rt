//! Pieces, in which bytes are moved.
ghost use Rattle.std.specs.Prelude.{◌≡◌, ◌<◌, ◌^◌};
ghost use Rattle.css_tags.specs.Pieces.{piece as piece_of, count_of_pieces};
ghost use Rattle.css_tags.specs.Groups.{IsWidth};

/// The most bytes of a piece.
const MOST_BYTES: u32 = 16_384;

/// Bytes of a block that are moved together.
#[derive(Clone, Copy, PartialEq, Eq)]
pub struct Piece {
    /// The number of the first byte, from 0.
    pub start: u32,
    /// How many bytes.
    pub length: u32,
}

/// How many pieces so many bytes have, in rows of this width.
pub(crate) fn count(bytes: u32, width: u32) -> u32
    requires { IsWidth width bytes }
    ensures { result ≡ count_of_pieces bytes width }
{
    bytes / width * width.div_ceil(MOST_BYTES)
}

/// The piece of this number, from 0, of so many bytes in rows of this width.
pub(crate) fn piece_at(bytes: u32, width: u32, number: u32) -> Piece
    requires whole { IsWidth width bytes }
    requires number { number < count_of_pieces bytes width }
    ensures { result ≡ piece_of width number }
{
    let pieces = width.div_ceil(MOST_BYTES);
    let start = number % pieces * MOST_BYTES;
    Piece {
        start: number / pieces * width + start,
        length: MOST_BYTES.min(width - start),
    }
}
