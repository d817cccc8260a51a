//! The kinds of logical lines (C99 6.10).
ghost use Rattle.std.specs.Prelude.{◌≡◌};
ghost use Rattle.css_lexemes.specs.LineKinds.{first_word, behind_blanks, pragma_kind, directive_kind, line_kind};
ghost use Rattle.css_lexemes.specs.Lines.{is_css};
ghost use Rattle.css_lexemes.specs.Comments.{is_passed_over};

use crate::characters::{is_white, is_word_byte};

/// What a logical line is.
#[derive(Clone, Copy, PartialEq, Eq, Debug)]
pub enum LineKind {
    /// A line whose first token isn't `#`.
    Text,
    /// `#` alone (C99 6.10.7).
    Null,
    /// `#include` (C99 6.10.2), which is passed over.
    Include,
    /// `#define` (C99 6.10.3).
    Define,
    /// `#undef` (C99 6.10.3.5).
    Undef,
    /// `#pragma css`: a directive.
    Css,
    /// Any other `#pragma` (C99 6.10.6), which is passed over.
    Pragma,
    /// A `#` line of another kind.
    Unknown,
}

impl LineKind {
    /// Whether the line is a directive.
    pub(crate) fn is_directive(&self) -> bool
        ensures { result ≡ is_css self.now }
    {
        matches!(self, LineKind::Css)
    }

    /// Whether the line's rest is passed over unread.
    pub(crate) fn is_unread(&self) -> bool
        ensures { result ≡ is_passed_over self.now }
    {
        matches!(self, LineKind::Include | LineKind::Pragma)
    }
}

/// The letters, underscores and digits that a text begins with.
pub(crate) fn word_in_front(text: &[u8]) -> &[u8]
    ensures { result.now ≡ first_word text.now }
{
    let mut end = 0;
    while end < text.len() && is_word_byte(text[end]) {
        end += 1;
    }
    &text[..end]
}

/// The text behind the white space that it begins with.
pub fn without_blanks(text: &[u8]) -> &[u8]
    ensures { result.now ≡ behind_blanks text.now }
{
    let mut end = 0;
    while end < text.len() && is_white(text[end]) {
        end += 1;
    }
    &text[end..]
}

/// The kind of a pragma, by what stands behind the word `pragma`.
fn kind_of_pragma(text: &[u8]) -> LineKind
    ensures { result ≡ pragma_kind text.now }
{
    if word_in_front(without_blanks(text)) == b"css".as_slice() {
        LineKind::Css
    } else {
        LineKind::Pragma
    }
}

/// The kind of a `#` line, by what stands behind the `#` and white space.
fn kind_behind_hash(text: &[u8]) -> LineKind
    ensures { result ≡ directive_kind text.now }
{
    if text.is_empty() {
        return LineKind::Null;
    }
    let word = word_in_front(text);
    if word == b"include".as_slice() {
        LineKind::Include
    } else if word == b"define".as_slice() {
        LineKind::Define
    } else if word == b"undef".as_slice() {
        LineKind::Undef
    } else if word == b"pragma".as_slice() {
        kind_of_pragma(&text[word.len()..])
    } else {
        LineKind::Unknown
    }
}

/// The kind of a line, by its bytes without splices and comments.
pub fn kind_of_line(line: &[u8]) -> LineKind
    ensures { result ≡ line_kind line.now }
{
    let body = without_blanks(line);
    if body.starts_with(b"#") {
        kind_behind_hash(without_blanks(&body[1..]))
    } else {
        LineKind::Text
    }
}
