//! Copies of pieces.
ghost use Rattle.std.specs.Prelude.{◌≡◌, ◌+◌, ◌≤◌, length};
ghost use Rattle.css_tags.specs.Pieces.{copied};

use crate::piece::Piece;

/// Copies the piece's bytes, which both slices have, with one copy of a slice.
pub(crate) fn copy_piece(piece: Piece, source: &[u8], target: &mut [u8])
    requires same { length source.now ≡ length target.old }
    requires inside { piece.start + piece.length ≤ length source.now }
    ensures { target.new ≡ copied piece source.now target.old }
{
    let start = piece.start as usize;
    let end = start + piece.length as usize;
    target[start..end].copy_from_slice(&source[start..end]);
}
