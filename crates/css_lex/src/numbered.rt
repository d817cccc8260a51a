//! Lines of a text's bytes.
ghost use Rattle.std.specs.Prelude.{◌≡◌, ◌<◌, ◌≤◌, ◌+◌, length, IfOk};
ghost use Rattle.css_base.specs.Tokens.{At, kind_of, lexeme};
ghost use Rattle.css_lex.specs.Lexing.{longest_text};
ghost use Rattle.css_lex.specs.Spelling.{line_at};
ghost use Rattle.css_lex.specs.Words.{IsNumbered};

use css_base::{Line, NoMemory, Token, TokenKind};
use std::alloc::Global;

/// A text with the line of each of its bytes.
#[derive(Drop)]
pub(crate) struct NumberedText<'a> {
    pub(crate) text: &'a [u8],
    numbers: Vec<Line>,
    ghost numbered: { IsNumbered text.now numbers.items },
    ghost short: { length text.now ≤ longest_text },
}

/// The line of each byte of a text.
fn line_numbers(alloc: Global, text: &[u8]) -> Result<Vec<Line>, NoMemory>
    requires { length text.now ≤ longest_text }
    ensures { IfOk result (λ numbers. IsNumbered text.now numbers.items) }
{
    let mut numbers = Vec::new(alloc);
    let mut number = 1;
    for byte in text {
        numbers.push(Line::new(number))?;
        if *byte == b'\n' {
            number += 1;
        }
    }
    Ok(numbers)
}

impl<'a> NumberedText<'a> {
    /// A text with the line of each of its bytes.
    pub(crate) fn new(alloc: Global, text: &'a [u8]) -> Result<NumberedText<'a>, NoMemory>
        requires { length text.now ≤ longest_text }
        ensures { IfOk result (λ numbered. numbered.text.now ≡ text.now) }
    {
        let numbers = line_numbers(alloc, text)?;
        Ok(NumberedText { text, numbers })
    }

    /// The line of a byte.
    pub(crate) fn line(&self, place: usize) -> Line
        requires { place < length self.now.text.now }
        ensures { result ≡ line_at self.now.text.now place }
    {
        self.numbers[place]
    }

    /// A token that stands at some bytes of the text.
    pub(crate) fn token(&self, kind: TokenKind, place: usize, end: usize) -> Token
        requires place { place < length self.now.text.now }
        requires end { end ≤ length self.now.text.now }
        ensures { lexeme result ≡ At (kind_of kind) (line_at self.now.text.now place) place end }
    {
        Token {
            kind,
            line: self.line(place),
            place: place as u32,
            end: end as u32,
        }
    }
}
