//! The token of a `#pragma css` line.
ghost use Rattle.std.specs.Prelude.{◌≡◌, ◌+◌, ◌<◌, ◌≤◌, All, length, OnOk, IsErrOf};
ghost use Rattle.css_base.specs.Tokens.{Directive, At, kind_of, lexeme, lexemes};
ghost use Rattle.css_lexemes.specs.LineKinds.{line_kind};
ghost use Rattle.css_lexemes.specs.Longest.{pieces_of};
ghost use Rattle.css_lex.specs.Reading.{solid, first_place, last_end};
ghost use Rattle.css_lexemes.specs.Rising.{AreBetween};
ghost use Rattle.css_lex.specs.Spelling.{in_order, line_at};

use crate::breach::{Breach, LexFault};
use crate::hash_line::hash_place;
use crate::numbered::NumberedText;
use crate::words::{LineBytes, is_white_piece, piece_from};
use css_base::{Token, TokenKind};
use css_lexemes::LineKind;
use css_macros::{Counts, ExpansionFault};

/// Counts a directive's token, or gives this breach where it is one too many.
pub(crate) fn count_directive(counts: &mut Counts, breach: Breach) -> Result<(), LexFault>
    ensures tokens { OnOk result (counts.new.tokens ≡ counts.old.tokens + 1) }
    ensures names { counts.new.names ≡ counts.old.names }
    ensures over { (b : Breach) → IsErrOf result (LexFault.Breach b) → (b ≡ breach) × (counts.old.tokens ≡ 1000000) }
{
    let Err(fault) = counts.count_token() else {
        return Ok(());
    };
    match fault {
        ExpansionFault::TooMany => Err(LexFault::Breach(breach)),
        ExpansionFault::NoMemory => Err(LexFault::NoMemory),
    }
}

/// The place behind a line's last solid piece.
fn line_end(numbered: &NumberedText, line: &LineBytes) -> usize
    requires { All (λ c. c.place < length numbered.now.text.now) line.now.source.now }
    ensures value { result ≡ last_end (solid (pieces_of line.now.source.now)) }
    ensures within { result ≤ length numbered.now.text.now }
{
    let mut end = 0;
    let mut from = 0;
    while from < line.bytes.len() {
        let piece = piece_from(line, from);
        if !is_white_piece(piece.shape) {
            end = line.source[piece.to - 1].place + 1;
        }
        from = piece.to;
    }
    end
}

/// The words of a directive as one token.
fn directive_kind(words: Vec<Token>) -> TokenKind
    ensures { kind_of result ≡ Directive (in_order (lexemes words.items)) }
{
    TokenKind::Directive(words)
}

/// The token of a `#pragma css` line with these words.
pub(crate) fn directive(numbered: &NumberedText, line: &LineBytes, words: Vec<Token>) -> Token
    requires kind { line_kind line.now.bytes.now ≡ LineKind.Text → ⊥ }
    requires between { AreBetween 0 (length numbered.now.text.now) line.now.source.now }
    ensures { lexeme result ≡ At (Directive (in_order (lexemes words.items)))
        (line_at numbered.now.text.now (first_place (solid (pieces_of line.now.source.now))))
        (first_place (solid (pieces_of line.now.source.now))) (last_end (solid (pieces_of line.now.source.now))) }
{
    let place = hash_place(line);
    let end = line_end(numbered, line);
    numbered.token(directive_kind(words), place, end)
}
