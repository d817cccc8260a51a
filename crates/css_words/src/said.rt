//! What words say, part by part.
ghost use Rattle.std.specs.Prelude.{◌≡◌, ◌++◌, IfOk, IsErrOf, map};
ghost use Rattle.css_words.specs.Items.{Says};
ghost use Rattle.css_words.specs.KeptWords.{SayNothing, given_in, operand_in, pairs, texts};

use crate::fault::WordsFault;
use crate::part::{Given, Part, first_part};
use css_base::NoMemory;
use std::alloc::Global;

/// What words say: the options that they give, and the words that are none, each in order.
#[derive(Drop)]
pub(crate) struct Said<'a> {
    pub(crate) given: Vec<Given<'a>>,
    pub(crate) operands: Vec<&'a str>,
}

impl<'a> Said<'a> {
    /// The same with one part more.
    fn with(mut self, part: Part<'a>) -> Result<Said<'a>, NoMemory>
        ensures given { IfOk result (λ said. pairs said.given.items ≡ pairs self.entry.given.items ++ given_in part.entry) }
        ensures operands { IfOk result (λ said. map (λ word. word.now) said.operands.items
            ≡ map (λ word. word.now) self.entry.operands.items ++ operand_in part.entry) }
    {
        match part {
            Part::Given(given) => {
                self.given.push(given)?;
                Ok(self)
            }
            Part::Operand(word) => {
                self.operands.push(word)?;
                Ok(self)
            }
        }
    }

    /// The same with these words more, which are no options.
    fn with_words(mut self, words: &'a [String]) -> Result<Said<'a>, NoMemory>
        ensures given { IfOk result (λ said. pairs said.given.items ≡ pairs self.entry.given.items) }
        ensures operands { IfOk result (λ said. map (λ word. word.now) said.operands.items
            ≡ map (λ word. word.now) self.entry.operands.items ++ texts words.entry.now) }
    {
        for word in words {
            self.operands.push(word.as_str())?;
        }
        Ok(self)
    }
}

/// What words say. `Refused` comes exactly where they say nothing.
pub(crate) fn read_parts<'a>(alloc: Global, words: &'a [String]) -> Result<Said<'a>, WordsFault>
    ensures ok { IfOk result (λ said.
        Says (texts words.entry.now) (pairs said.given.items) (map (λ word. word.now) said.operands.items)) }
    ensures refused { IsErrOf result WordsFault.Refused → SayNothing (texts words.entry.now) }
{
    let mut said = Said {
        given: Vec::new(alloc),
        operands: Vec::new(alloc),
    };
    let mut rest = words;
    while let Some((first, others)) = rest.split_first() {
        let first = first.as_str();
        if first == "--" {
            return Ok(said.with_words(others)?);
        }
        let Some((part, behind)) = first_part(first, others) else {
            return Err(WordsFault::Refused);
        };
        said = said.with(part)?;
        rest = behind;
    }
    Ok(said)
}
