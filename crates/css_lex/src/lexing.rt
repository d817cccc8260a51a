//! The tokens of a text, or the first rule that it breaks.
ghost use Rattle.std.specs.Prelude.{◌≡◌, ◌≤◌, [], take, length, IfOk, OnOk, IsErrOf};
ghost use Rattle.css_base.specs.Tokens.{lexemes};
ghost use Rattle.css_lexemes.specs.Source.{bytes_of};
ghost use Rattle.css_lexemes.specs.Lines.{newlines, shown_bytes};
ghost use Rattle.css_lex.specs.Spelling.{line_at};
ghost use Rattle.css_lex.specs.Costs.{at_start};
ghost use Rattle.css_lex.specs.Refusals.{line_breaches, breaches};
ghost use Rattle.css_lexemes.specs.Rising.{AreBetween};
ghost use Rattle.css_lex.specs.Found.{IsFirst};
ghost use Rattle.css_lex.specs.LexState.{state_of, line_of, read_lines, IsLexed, IsWhole};
ghost use Rattle.css_lex.specs.Lexing.{longest_text, SpellsTokens, IsRefused};

use crate::breach::{Breach, LexFault};
use crate::joining::join_strings;
use crate::line::Brought;
use crate::numbered::NumberedText;
use crate::words::LineBytes;
use css_base::{FrontFault, Line, StaticFault, StaticName, Tokens};
use css_lexemes::{SourceByte, shown_text};
use std::alloc::Global;

/// The most bytes of a text.
const LONGEST: usize = 4_194_304;

/// Reads a line that shows these bytes.
fn read_bytes(
    alloc: Global,
    numbered: &NumberedText,
    source: &[SourceByte],
    bytes: &[u8],
    brought: &mut Brought,
) -> Result<(), LexFault>
    requires same { bytes.now ≡ bytes_of source.now }
    requires between { AreBetween 0 (length numbered.now.text.now) source.now }
    ensures ok { OnOk result (IsLexed numbered.now.text.now source.now brought.old brought.new) }
    ensures broken { (b : Breach) → IsErrOf result (LexFault.Breach b) → IsFirst b (line_breaches numbered.now.text.now (state_of brought.old) (line_of source.now)) }
{
    let line = LineBytes { source, bytes };
    brought.read_line(alloc, numbered, &line)
}

/// Reads the lines of a text.
fn read_text(
    alloc: Global,
    numbered: &NumberedText,
    shown: &[SourceByte],
    brought: &mut Brought,
) -> Result<(), LexFault>
    requires shown { shown.now ≡ shown_bytes numbered.now.text.now }
    requires start { state_of brought.old ≡ at_start }
    requires empty { lexemes brought.old.tokens.items ≡ [] }
    ensures ok { OnOk result (IsWhole numbered.now.text.now brought.new) }
    ensures broken { (b : Breach) → IsErrOf result (LexFault.Breach b) → IsFirst b (breaches numbered.now.text.now (read_lines numbered.now.text.now)) }
{
    let mut line = Vec::new(alloc);
    let mut bytes = Vec::new(alloc);
    for source in shown {
        if source.byte == b'\n' {
            if let Err(fault) = read_bytes(
                alloc,
                numbered,
                line.as_slice(),
                bytes.as_slice(),
                brought,
            ) {
                return Err(fault);
            }
            line.clear();
            bytes.clear();
        } else {
            line.push(*source)?;
            bytes.push(source.byte)?;
        }
    }
    read_bytes(alloc, numbered, line.as_slice(), bytes.as_slice(), brought)
}

/// The tokens of a text that isn't too long.
fn lex_short(alloc: Global, text: &[u8]) -> Result<Tokens, LexFault>
    requires { length text.now ≤ longest_text }
    ensures ok { IfOk result (λ tokens. SpellsTokens text.now (lexemes tokens.items)) }
    ensures broken { (b : Breach) → IsErrOf result (LexFault.Breach b) → IsFirst b (breaches text.now (read_lines text.now)) }
{
    let shown = shown_text(alloc, text)?;
    let numbered = NumberedText::new(alloc, text)?;
    let mut brought = Brought::new(alloc)?;
    if let Err(fault) = read_text(alloc, &numbered, shown.as_slice(), &mut brought) {
        return Err(fault);
    }
    drop(numbered);
    drop(shown);
    let tokens = join_strings(alloc, brought.tokens)?;
    Ok(tokens)
}

/// The bytes of a text before a place.
fn before_place(text: &[u8], place: usize) -> &[u8]
    ensures { result.now ≡ take place text.now }
{
    if place < text.len() {
        &text[..place]
    } else {
        text
    }
}

/// The number of newlines among some bytes.
fn count_newlines(bytes: &[u8]) -> u32
    requires { length bytes.now ≤ longest_text }
    ensures value { result ≡ newlines bytes.now }
    ensures within { result ≤ length bytes.now }
{
    let mut number = 0;
    for byte in bytes {
        if *byte == b'\n' {
            number += 1;
        }
    }
    number
}

/// The line in which a place of a text lies.
fn line_of_place(text: &[u8], place: usize) -> Line
    requires { length text.now ≤ longest_text }
    ensures { result ≡ line_at text.now place }
{
    Line::new(1 + count_newlines(before_place(text, place)))
}

/// A breach with its line.
fn front_fault(text: &[u8], fault: LexFault) -> FrontFault
    requires { length text.now ≤ longest_text }
    ensures { (f : StaticFault) → result ≡ FrontFault.Static f → (b : Breach) × (fault ≡ LexFault.Breach b) × (f ≡ record { name = b.name; line = line_at text.now b.place }) }
{
    match fault {
        LexFault::Breach(breach) => FrontFault::Static(StaticFault {
            name: breach.name,
            line: line_of_place(text, breach.place),
        }),
        LexFault::NoMemory => FrontFault::NoMemory,
    }
}

/// The tokens of a text, with macros replaced and adjacent strings joined, and one token for each `#pragma css` line. A
/// text that is too long (S1), or breaks a rule on bytes, tokens, macros or constants (S2, S3, S4, S12), is refused with
/// the first rule that it breaks, at the least place. `NoMemory` where there was none.
pub fn lex(alloc: Global, text: &[u8]) -> Result<Tokens, FrontFault>
    ensures ok { IfOk result (λ tokens. SpellsTokens text.now (lexemes tokens.items)) }
    ensures refused { (f : StaticFault) → IsErrOf result (FrontFault.Static f) → IsRefused text.now f }
{
    if text.len() > LONGEST {
        return Err(FrontFault::Static(StaticFault {
            name: StaticName::TooLong,
            line: Line::new(1),
        }));
    }
    let outcome = lex_short(alloc, text);
    match outcome {
        Ok(tokens) => Ok(tokens),
        Err(fault) => Err(front_fault(text, fault)),
    }
}
