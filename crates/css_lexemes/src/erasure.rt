//! What a text shows, and the text without its directives.
ghost use Rattle.std.specs.Prelude.{◌≡◌, ◌++◌, IfOk};
ghost use Rattle.css_lexemes.specs.Lines.{kept_of, shown_bytes, erased};

use crate::comments::without_comments;
use crate::line_kind::{LineKind, kind_of_line};
use crate::source::{SourceByte, without_splices};
use css_base::NoMemory;
use std::alloc::Global;

/// The bytes that a text shows: without splices, and with a space in place of each comment.
pub fn shown_text(alloc: Global, text: &[u8]) -> Result<Vec<SourceByte>, NoMemory>
    ensures { IfOk result (λ shown. shown.items ≡ shown_bytes text.now) }
{
    let source = without_splices(alloc, text)?;
    without_comments(alloc, source.as_slice())
}

/// Puts what is left of some bytes behind others: of a directive's the newlines alone.
fn push_kept(left: &mut Vec<u8>, kind: LineKind, part: &[u8]) -> Result<(), NoMemory>
    ensures { IfOk result (λ _. left.new.items ≡ left.old.items ++ kept_of kind part.now) }
{
    if !kind.is_directive() {
        left.extend_from_slice(part)?;
        return Ok(());
    }
    for byte in part {
        if *byte == b'\n' {
            left.push(*byte)?;
        }
    }
    Ok(())
}

/// The text without its directives, by what it shows.
fn without_directives(alloc: Global, text: &[u8], shown: &[SourceByte]) -> Result<Vec<u8>, NoMemory>
    requires { shown.now ≡ shown_bytes text.now }
    ensures { IfOk result (λ left. left.items ≡ erased text.now) }
{
    let mut left = Vec::new(alloc);
    let mut line = Vec::new(alloc);
    let mut from = 0;
    for source in shown {
        if source.byte == b'\n' {
            let to = source.place + 1;
            push_kept(&mut left, kind_of_line(line.as_slice()), &text[from..to])?;
            line.clear();
            from = to;
        } else {
            line.push(source.byte)?;
        }
    }
    push_kept(&mut left, kind_of_line(line.as_slice()), &text[from..])?;
    Ok(left)
}

/// The text without its directives: of each logical line that is one only the newlines are left.
pub fn erase(alloc: Global, text: &[u8]) -> Result<Vec<u8>, NoMemory>
    ensures { IfOk result (λ left. left.items ≡ erased text.now) }
{
    let shown = shown_text(alloc, text)?;
    without_directives(alloc, text, shown.as_slice())
}
