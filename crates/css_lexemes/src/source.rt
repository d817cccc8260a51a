//! The bytes of a text behind translation phase 2 (C99 5.1.1.2).
ghost use Rattle.std.specs.Prelude.{◌≡◌, ◌≤◌, length, IfOk};
ghost use Rattle.css_lexemes.specs.Source.{splice_length, unspliced};

use css_base::NoMemory;
use std::alloc::Global;

/// A byte of a text with its place, from 0 on.
#[derive(Clone, Copy, PartialEq, Eq, Debug)]
pub struct SourceByte {
    pub byte: u8,
    pub place: usize,
}

/// The length of the splice that a text begins with, 0 where it begins with none.
pub fn splice_at(text: &[u8]) -> usize
    ensures value { result ≡ splice_length text.now }
    ensures within { result ≤ length text.now }
{
    if text.starts_with(b"\\\n") {
        2
    } else if text.starts_with(b"\\\r\n") {
        3
    } else {
        0
    }
}

/// The bytes of a text without its splices.
pub(crate) fn without_splices(alloc: Global, text: &[u8]) -> Result<Vec<SourceByte>, NoMemory>
    ensures { IfOk result (λ bytes. bytes.items ≡ unspliced 0 0 text.now) }
{
    let mut bytes = Vec::new(alloc);
    let mut place = 0;
    while place < text.len() {
        let length = splice_at(&text[place..]);
        if length > 0 {
            place += length;
        } else {
            bytes.push(SourceByte {
                byte: text[place],
                place,
            })?;
            place += 1;
        }
    }
    Ok(bytes)
}
