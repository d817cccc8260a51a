//! Bytes that no text has, and comments that aren't ended.
ghost use Rattle.std.specs.Prelude.{◌≡◌, ◌≤◌, ◌<◌, ◌++◌, ◌&&◌, ◌==◌, false, length, drop};
ghost use Rattle.css_lexemes.specs.Source.{splice_length};
ghost use Rattle.css_lex.specs.Refusals.{is_bad_byte, is_unended, begins_unended, bad_bytes, unended_comments, byte_breach};
ghost use Rattle.css_lex.specs.CommentEnd.{plain_bytes, has_end, IsBehind};
ghost use Rattle.css_lexemes.specs.Rising.{AreBetween};
ghost use Rattle.css_lex.specs.Found.{IsFound};

use crate::breach::Breach;
use css_base::StaticName;
use css_lexemes::{SourceByte, splice_at};

/// Whether no text has a byte outside comments.
fn is_bad(byte: u8) -> bool
    ensures { result ≡ is_bad_byte byte }
{
    !((9 <= byte && byte <= 13) || (32 <= byte && byte <= 126))
}

/// The index of the next byte of a text that belongs to no splice.
fn next_byte(text: &[u8], from: usize) -> usize
    requires { from ≤ length text.now }
    ensures lower { from ≤ result }
    ensures upper { result ≤ length text.now }
    ensures same { plain_bytes (drop from text.now) ≡ plain_bytes (drop result text.now) }
    ensures plain { splice_length (drop result text.now) ≡ 0 }
{
    let mut at = from;
    let mut length = splice_at(&text[at..]);
    while length > 0 {
        at += length;
        length = splice_at(&text[at..]);
    }
    at
}

/// Whether a `/` ends a comment where a `*` stands before or not.
fn closes(star: bool, byte: u8) -> bool
    ensures { result ≡ (star && (byte == 47)) }
{
    star && byte == b'/'
}

/// Whether a comment that a text is inside of is ended.
fn is_ended(text: &[u8], from: usize) -> bool
    requires { from ≤ length text.now }
    ensures { result ≡ has_end false (plain_bytes (drop from text.now)) }
{
    let mut star = false;
    let mut at = next_byte(text, from);
    while at < text.len() {
        let byte = text[at];
        if closes(star, byte) {
            return true;
        }
        star = byte == b'*';
        at = next_byte(text, at + 1);
    }
    false
}

/// The index behind the next byte of a text that belongs to no splice, if it is this one.
fn behind_byte(text: &[u8], from: usize, byte: u8) -> Option<usize>
    requires { from ≤ length text.now }
    ensures { IsBehind text.now from byte result }
{
    let at = next_byte(text, from);
    if at < text.len() && text[at] == byte {
        Some(at + 1)
    } else {
        None
    }
}

/// Whether a text begins with a comment that isn't ended.
fn is_unended_comment(text: &[u8]) -> bool
    ensures { result ≡ is_unended (plain_bytes text.now) }
{
    let Some(second) = behind_byte(text, 0, b'/') else {
        return false;
    };
    let Some(third) = behind_byte(text, second, b'*') else {
        return false;
    };
    !is_ended(text, third)
}

/// Whether a comment that isn't ended is shown as this byte.
fn shows_unended(text: &[u8], source: SourceByte) -> bool
    requires { source.place ≤ length text.now }
    ensures { result ≡ ((source.byte == 32) && begins_unended text.now source.place) }
{
    source.byte == b' ' && is_unended_comment(&text[source.place..])
}

/// The rule that a byte of a line breaks.
fn bad_byte(text: &[u8], source: SourceByte) -> Option<Breach>
    requires { source.place ≤ length text.now }
    ensures { result ≡ byte_breach text.now source }
{
    if is_bad(source.byte) {
        Some(Breach {
            name: StaticName::BadByte,
            place: source.place,
        })
    } else if shows_unended(text, source) {
        Some(Breach {
            name: StaticName::BadToken,
            place: source.place,
        })
    } else {
        None
    }
}

/// The first byte of a line that no text has, or comment that isn't ended.
pub(crate) fn bad_place(text: &[u8], line: &[SourceByte]) -> Option<Breach>
    requires { AreBetween 0 (length text.now) line.now }
    ensures { IsFound result (bad_bytes line.now ++ unended_comments text.now line.now) }
{
    for source in line {
        if let Some(breach) = bad_byte(text, *source) {
            return Some(breach);
        }
    }
    None
}
