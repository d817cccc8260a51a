//! The lines of a text, one at a time.
ghost use Rattle.std.specs.Prelude.{◌≡◌, true, ◌<◌, ◌≤◌, ◌++◌, [], length, IfOk, OnOk, IsErrOf};
ghost use Rattle.css_lexemes.specs.Rising.{AreBetween};
ghost use Rattle.css_lexemes.specs.LineKinds.{line_kind};
ghost use Rattle.css_base.specs.Tokens.{lexemes};
ghost use Rattle.css_lex.specs.Costs.{at_start};
ghost use Rattle.css_lex.specs.Refusals.{line_breaches, bad_bytes, unended_comments};
ghost use Rattle.css_lex.specs.Found.{IsFirst, IsFound, least_of};
ghost use Rattle.css_lex.specs.LexState.{state_of, line_of, IsLexed, passes};

use crate::bad_bytes::bad_place;
use crate::breach::{Breach, LexFault};
use crate::definition::{is_function_like, macro_tokens, sole_name, split_name};
use crate::directive::{count_directive, directive};
use crate::expanding::expand;
use crate::hash_line::malformed;
use crate::joining::join_strings;
use crate::numbered::NumberedText;
use crate::words::{LineBytes, read_words};
use css_base::{NoMemory, Token};
use css_lexemes::{LineKind, kind_of_line};
use css_macros::{Counts, Macros};
use std::alloc::Global;

/// What the lines so far brought: macros, counts and tokens.
#[derive(Drop)]
pub(crate) struct Brought {
    pub(crate) macros: Macros,
    pub(crate) counts: Counts,
    pub(crate) tokens: Vec<Token>,
}

/// The breach at the lesser place; at one place the first.
fn least(early: Option<Breach>, late: Option<Breach>) -> Option<Breach>
    ensures { result ≡ least_of early late }
{
    let Some(first) = early else {
        return late;
    };
    let Some(second) = late else {
        return early;
    };
    if second.place < first.place {
        late
    } else {
        early
    }
}

/// The breach of these two at the lesser place; at one place the first.
fn lesser(early: Option<Breach>, late: Breach) -> Breach
    ensures { Some result ≡ least_of early (Some late) }
{
    let Some(first) = early else {
        return late;
    };
    if late.place < first.place {
        late
    } else {
        first
    }
}

/// The fault of a line, by its first bad byte or comment and the fault of its tokens.
fn first_fault(early: Option<Breach>, fault: LexFault) -> LexFault
    ensures { (b : Breach) → result ≡ LexFault.Breach b → (late : Breach) × (fault ≡ LexFault.Breach late) × (least_of early (Some late) ≡ Some b) }
{
    match fault {
        LexFault::Breach(late) => LexFault::Breach(lesser(early, late)),
        LexFault::NoMemory => LexFault::NoMemory,
    }
}

/// The end of a line in which this breach is the first.
fn settled(found: Option<Breach>) -> Result<(), LexFault>
    ensures ok { OnOk result (found ≡ None) }
    ensures broken { (b : Breach) → IsErrOf result (LexFault.Breach b) → found ≡ Some b }
{
    match found {
        Some(breach) => Err(LexFault::Breach(breach)),
        None => Ok(()),
    }
}

impl Brought {
    /// What no lines bring: the macros that are there at a text's beginning.
    pub(crate) fn new(alloc: Global) -> Result<Brought, NoMemory>
        ensures state { IfOk result (λ brought. state_of brought ≡ at_start) }
        ensures empty { IfOk result (λ brought. lexemes brought.tokens.items ≡ []) }
    {
        let macros = Macros::new(alloc)?;
        Ok(Brought {
            macros,
            counts: Counts::new(),
            tokens: Vec::new(alloc),
        })
    }

    /// A line that is no `#` line.
    fn read_text(
        &mut self,
        alloc: Global,
        numbered: &NumberedText,
        line: &LineBytes,
        early: Option<Breach>,
    ) -> Result<(), LexFault>
        requires kind { line_kind line.now.bytes.now ≡ LineKind.Text }
        requires between { AreBetween 0 (length numbered.now.text.now) line.now.source.now }
        requires early { IsFound early (bad_bytes line.now.source.now ++ unended_comments numbered.now.text.now line.now.source.now) }
        ensures ok { OnOk result (IsLexed numbered.now.text.now line.now.source.now self.old self.new) }
        ensures broken { (b : Breach) → IsErrOf result (LexFault.Breach b) → IsFirst b (line_breaches numbered.now.text.now (state_of self.old) (line_of line.now.source.now)) }
    {
        let words = read_words(alloc, numbered, line, 0)?;
        let outcome = expand(
            alloc,
            &self.macros,
            words.tokens,
            &mut self.counts,
            &mut self.tokens,
        );
        if let Err(fault) = outcome {
            return Err(first_fault(early, fault));
        }
        settled(least(early, words.failure))
    }
    /// A `#` line that is passed over, or `#` alone.
    fn pass_over(
        &mut self,
        numbered: &NumberedText,
        line: &LineBytes,
        early: Option<Breach>,
    ) -> Result<(), LexFault>
        requires kind { passes (line_kind line.now.bytes.now) ≡ true }
        requires early { IsFound early (bad_bytes line.now.source.now ++ unended_comments numbered.now.text.now line.now.source.now) }
        ensures ok { OnOk result (IsLexed numbered.now.text.now line.now.source.now self.old self.new) }
        ensures broken { (b : Breach) → IsErrOf result (LexFault.Breach b) → IsFirst b (line_breaches numbered.now.text.now (state_of self.old) (line_of line.now.source.now)) }
    {
        settled(early)
    }

    /// A `#` line of another kind.
    fn refuse(
        &mut self,
        numbered: &NumberedText,
        line: &LineBytes,
        early: Option<Breach>,
    ) -> LexFault
        requires kind { line_kind line.now.bytes.now ≡ LineKind.Unknown }
        requires early { IsFound early (bad_bytes line.now.source.now ++ unended_comments numbered.now.text.now line.now.source.now) }
        ensures { (b : Breach) → result ≡ LexFault.Breach b → IsFirst b (line_breaches numbered.now.text.now (state_of self.old) (line_of line.now.source.now)) }
    {
        LexFault::Breach(lesser(early, malformed(line)))
    }

    /// A `#undef` line.
    fn undefine(
        &mut self,
        alloc: Global,
        numbered: &NumberedText,
        line: &LineBytes,
        early: Option<Breach>,
    ) -> Result<(), LexFault>
        requires kind { line_kind line.now.bytes.now ≡ LineKind.Undef }
        requires between { AreBetween 0 (length numbered.now.text.now) line.now.source.now }
        requires early { IsFound early (bad_bytes line.now.source.now ++ unended_comments numbered.now.text.now line.now.source.now) }
        ensures ok { OnOk result (IsLexed numbered.now.text.now line.now.source.now self.old self.new) }
        ensures broken { (b : Breach) → IsErrOf result (LexFault.Breach b) → IsFirst b (line_breaches numbered.now.text.now (state_of self.old) (line_of line.now.source.now)) }
    {
        let words = read_words(alloc, numbered, line, 2)?;
        let Some(name) = sole_name(words) else {
            return Err(LexFault::Breach(lesser(early, malformed(line))));
        };
        if let Some(breach) = early {
            return Err(LexFault::Breach(breach));
        }
        self.macros.undefine(name.as_slice());
        Ok(())
    }
    /// A `#define` line.
    fn define(
        &mut self,
        alloc: Global,
        numbered: &NumberedText,
        line: &LineBytes,
        early: Option<Breach>,
    ) -> Result<(), LexFault>
        requires kind { line_kind line.now.bytes.now ≡ LineKind.Define }
        requires between { AreBetween 0 (length numbered.now.text.now) line.now.source.now }
        requires early { IsFound early (bad_bytes line.now.source.now ++ unended_comments numbered.now.text.now line.now.source.now) }
        ensures ok { OnOk result (IsLexed numbered.now.text.now line.now.source.now self.old self.new) }
        ensures broken { (b : Breach) → IsErrOf result (LexFault.Breach b) → IsFirst b (line_breaches numbered.now.text.now (state_of self.old) (line_of line.now.source.now)) }
    {
        let words = read_words(alloc, numbered, line, 2)?;
        let failure = words.failure;
        let Some(named) = split_name(words.tokens) else {
            return Err(LexFault::Breach(lesser(early, malformed(line))));
        };
        if is_function_like(line) {
            return Err(LexFault::Breach(lesser(early, malformed(line))));
        }
        if let Some(breach) = least(early, failure) {
            return Err(LexFault::Breach(breach));
        }
        let name = named.name;
        let tokens = macro_tokens(alloc, named.tokens)?;
        if !self.macros.may_define(name.as_slice(), tokens.as_slice()) {
            return Err(LexFault::Breach(malformed(line)));
        }
        self.macros.define(name, tokens)?;
        Ok(())
    }
    /// A `#pragma css` line.
    fn read_directive(
        &mut self,
        alloc: Global,
        numbered: &NumberedText,
        line: &LineBytes,
        early: Option<Breach>,
    ) -> Result<(), LexFault>
        requires kind { line_kind line.now.bytes.now ≡ LineKind.Css }
        requires between { AreBetween 0 (length numbered.now.text.now) line.now.source.now }
        requires early { IsFound early (bad_bytes line.now.source.now ++ unended_comments numbered.now.text.now line.now.source.now) }
        ensures ok { OnOk result (IsLexed numbered.now.text.now line.now.source.now self.old self.new) }
        ensures broken { (b : Breach) → IsErrOf result (LexFault.Breach b) → IsFirst b (line_breaches numbered.now.text.now (state_of self.old) (line_of line.now.source.now)) }
    {
        if let Err(fault) = count_directive(&mut self.counts, malformed(line)) {
            return Err(first_fault(early, fault));
        }
        let words = read_words(alloc, numbered, line, 3)?;
        let failure = words.failure;
        let mut tokens = Vec::new(alloc);
        let outcome = expand(
            alloc,
            &self.macros,
            words.tokens,
            &mut self.counts,
            &mut tokens,
        );
        if let Err(fault) = outcome {
            return Err(first_fault(early, fault));
        }
        if let Some(breach) = least(early, failure) {
            return Err(LexFault::Breach(breach));
        }
        let words = join_strings(alloc, tokens)?;
        self.tokens.push(directive(numbered, line, words))?;
        Ok(())
    }
    /// One logical line.
    pub(crate) fn read_line(
        &mut self,
        alloc: Global,
        numbered: &NumberedText,
        line: &LineBytes,
    ) -> Result<(), LexFault>
        requires { AreBetween 0 (length numbered.now.text.now) line.now.source.now }
        ensures ok { OnOk result (IsLexed numbered.now.text.now line.now.source.now self.old self.new) }
        ensures broken { (b : Breach) → IsErrOf result (LexFault.Breach b) → IsFirst b (line_breaches numbered.now.text.now (state_of self.old) (line_of line.now.source.now)) }
    {
        let early = bad_place(numbered.text, line.source);
        match kind_of_line(line.bytes) {
            LineKind::Text => self.read_text(alloc, numbered, line, early),
            LineKind::Css => self.read_directive(alloc, numbered, line, early),
            LineKind::Define => self.define(alloc, numbered, line, early),
            LineKind::Undef => self.undefine(alloc, numbered, line, early),
            LineKind::Unknown => Err(self.refuse(numbered, line, early)),
            LineKind::Null | LineKind::Include | LineKind::Pragma => {
                self.pass_over(numbered, line, early)
            }
        }
    }
}
