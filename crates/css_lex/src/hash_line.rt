//! The `#` of a `#` line (C99 6.10), and what stands behind its first words.
ghost use Rattle.std.specs.Prelude.{◌≡◌, ◌<◌, ◌≤◌, length, drop};
ghost use Rattle.std.specs.List.{prefix_len};
ghost use Rattle.css_lexemes.specs.LineKinds.{is_blank, line_kind};
ghost use Rattle.css_lexemes.specs.Longest.{pieces_of};
ghost use Rattle.css_lex.specs.Reading.{solid, first_place, from_solid, behind_first};
ghost use Rattle.css_lex.specs.Refusals.{breach};
ghost use Rattle.css_lex.specs.HashLines.{opens};

use crate::breach::Breach;
use crate::words::{LineBytes, piece_from};
use css_base::StaticName;
use css_lexemes::{LineKind, without_blanks};

/// How many blank bytes a line begins with.
fn blanks_in_front(line: &LineBytes) -> usize
    ensures { result ≡ prefix_len is_blank line.now.bytes.now }
{
    line.bytes.len() - without_blanks(line.bytes).len()
}

/// The place of a `#` line's `#`.
pub(crate) fn hash_place(line: &LineBytes) -> usize
    requires { line_kind line.now.bytes.now ≡ LineKind.Text → ⊥ }
    ensures { result ≡ first_place (solid (pieces_of line.now.source.now)) }
{
    line.source[blanks_in_front(line)].place
}

/// The rule that a malformed `#` line breaks.
pub(crate) fn malformed(line: &LineBytes) -> Breach
    requires { line_kind line.now.bytes.now ≡ LineKind.Text → ⊥ }
    ensures { result ≡ breach StaticName.BadMacro (first_place (solid (pieces_of line.now.source.now))) }
{
    Breach {
        name: StaticName::BadMacro,
        place: hash_place(line),
    }
}
