//! The replacement of macro names (C99 6.10.3.4), with a stack of its own.
ghost use Rattle.std.specs.Prelude.{◌≡◌, ℕ, false, ◌+◌, ◌<◌, ◌⊎◌, ◌++◌, ◌∷◌, [], length, MatchOption, OnOk, IsErrOf, IsTrue};
ghost use Rattle.css_base.specs.Tokens.{Word, kind_of, lexemes};
ghost use Rattle.css_macros.specs.Macros.{replacement, replacement_names};
ghost use Rattle.css_macros.specs.ListedTokens.{listed_kind, is_listed};
ghost use Rattle.css_macros.specs.NumberedWords.{words_of};
ghost use Rattle.css_macros.specs.MacroTables.{table_of};
ghost use Rattle.css_macros.specs.Expansions.{placed, shown_by, tokens_to_come, names_to_come, tokens_given, names_given, steps_left, IsExpansion, IsNoMacro, IsMacro, Replaces, Hides, is_among};

use crate::counts::{Counts, ExpansionFault};
use crate::listed_token::ListedToken;
use crate::macros::Macros;
use css_base::{Line, Token, TokenKind};
use std::alloc::Global;
use std::collections::HashSet;

/// Where a token stands: its line, and its bytes of the text from `place` up to `end`.
#[derive(Clone, Copy)]
pub struct Span {
    pub line: Line,
    pub place: u32,
    pub end: u32,
}

/// A macro that is being replaced: its name's number, and its tokens that are still to be read.
#[derive(Drop)]
struct Frame<'a> {
    number: usize,
    rest: &'a [ListedToken],
}

/// The macros that are being replaced, the innermost last, and their names' numbers. These names are hidden.
#[derive(Drop)]
struct Expansion<'a> {
    frames: Vec<Frame<'a>>,
    hidden: HashSet<usize>,
}

/// Puts a token behind others and counts it.
fn push_token(
    kind: TokenKind,
    span: &Span,
    counts: &mut Counts,
    tokens: &mut Vec<Token>,
) -> Result<(), ExpansionFault>
    ensures tokens { OnOk result (lexemes tokens.new.items ≡ lexemes tokens.old.items ++ placed span.now (kind_of kind ∷ [])) }
    ensures token_count { OnOk result (counts.new.tokens ≡ counts.old.tokens + 1) }
    ensures name_count { OnOk result (counts.new.names ≡ counts.old.names) }
    ensures too_many { IsErrOf result ExpansionFault.TooMany → counts.old.tokens ≡ 1000000 }
{
    if let Err(fault) = counts.count_token() {
        drop(kind);
        return Err(fault);
    }
    tokens.push(Token {
        kind,
        line: span.line,
        place: span.place,
        end: span.end,
    })?;
    Ok(())
}

impl<'a> Expansion<'a> {
    /// No macro is being replaced. Takes no memory.
    fn new(alloc: Global) -> Expansion<'a>
        ensures frames { result.frames.items ≡ [] }
        ensures hidden { (number : ℕ) → is_among result number ≡ false }
    {
        Expansion {
            frames: Vec::new(alloc),
            hidden: HashSet::new(alloc),
        }
    }

    /// The macro that replaces a token: that of its name, unless the name is hidden.
    fn macro_at(&self, macros: &'a Macros, token: &'a ListedToken) -> Option<Frame<'a>>
        requires expands { IsExpansion macros.now self.now }
        requires listed { IsTrue (is_listed (words_of macros.now.words) token.now) }
        ensures { MatchOption result
            (IsNoMacro (shown_by macros.now self.now) (listed_kind token.now))
            (IsMacro macros.now self.now (listed_kind token.now)) }
    {
        let Some(number) = token.number else {
            return None;
        };
        if self.hidden.contains(&number) {
            return None;
        }
        let found = macros.macro_numbered(number)?;
        Some(Frame {
            number,
            rest: found.tokens.as_slice(),
        })
    }

    /// Begins to replace a macro, whose name is hidden from now on.
    fn enter(&mut self, frame: Frame<'a>) -> Result<(), ExpansionFault>
        ensures frames { OnOk result (self.new.frames.items ≡ self.old.frames.items ++ frame.entry ∷ []) }
        ensures hidden { OnOk result (Hides self.old self.new frame.entry.number) }
        ensures too_many { IsErrOf result ExpansionFault.TooMany → ⊥ }
    {
        self.hidden.insert(frame.number)?;
        self.frames.push(frame)?;
        Ok(())
    }

    /// Replaces a token of the innermost macro: puts it behind others, or begins to replace the macro that it is.
    fn replace(
        &mut self,
        macros: &'a Macros,
        token: &'a ListedToken,
        span: &Span,
        counts: &mut Counts,
        tokens: &mut Vec<Token>,
    ) -> Result<(), ExpansionFault>
        requires expands { IsExpansion macros.now self.old }
        requires listed { IsTrue (is_listed (words_of macros.now.words) token.now) }
        ensures keeps { OnOk result (IsExpansion macros.now self.new) }
        ensures tokens { OnOk result
            (lexemes tokens.new.items ++ placed span.now (tokens_to_come macros.now self.new)
            ≡ lexemes tokens.old.items ++ placed span.now
            (tokens_given macros.now self.old token.now
            ++ tokens_to_come macros.now self.old)) }
        ensures token_count { OnOk result
            (counts.new.tokens + length (tokens_to_come macros.now self.new)
            ≡ counts.old.tokens + (length (tokens_given macros.now self.old token.now)
            + length (tokens_to_come macros.now self.old))) }
        ensures name_count { OnOk result
            (counts.new.names + names_to_come macros.now self.new
            ≡ counts.old.names + (names_given macros.now self.old token.now
            + names_to_come macros.now self.old)) }
        ensures nearer { OnOk result (steps_left counts.new self.new < steps_left counts.old self.old) }
        ensures too_many { IsErrOf result ExpansionFault.TooMany
            → (1000000 < counts.old.tokens + length (tokens_given macros.now self.old token.now))
            ⊎ (1000000 < counts.old.names + names_given macros.now self.old token.now) }
    {
        let Some(frame) = self.macro_at(macros, token) else {
            return push_token(token.token.to_kind()?, span, counts, tokens);
        };
        counts.count_name()?;
        self.enter(frame)?;
        Ok(())
    }

    /// Replaces what is left of the macros.
    fn replace_rest(
        &mut self,
        macros: &'a Macros,
        span: &Span,
        counts: &mut Counts,
        tokens: &mut Vec<Token>,
    ) -> Result<(), ExpansionFault>
        requires { IsExpansion macros.now self.old }
        ensures tokens { OnOk result (lexemes tokens.new.items
            ≡ lexemes tokens.old.items ++ placed span.now (tokens_to_come macros.now self.old)) }
        ensures token_count { OnOk result (counts.new.tokens ≡ counts.old.tokens + length (tokens_to_come macros.now self.old)) }
        ensures name_count { OnOk result (counts.new.names ≡ counts.old.names + names_to_come macros.now self.old) }
        ensures too_many { IsErrOf result ExpansionFault.TooMany
            → (1000000 < counts.old.tokens + length (tokens_to_come macros.now self.old))
            ⊎ (1000000 < counts.old.names + names_to_come macros.now self.old) }
    {
        while let Some(innermost) = self.frames.pop() {
            if let Some((token, rest)) = innermost.rest.split_first() {
                self.frames.push(Frame {
                    number: innermost.number,
                    rest,
                })?;
                self.replace(macros, token, span, counts, tokens)?;
            } else {
                self.hidden.remove(&innermost.number);
            }
        }
        Ok(())
    }
}

impl Macros {
    /// The macro of a name, of which nothing has been read.
    fn frame_of<'a>(&'a self, name: &[u8]) -> Option<Frame<'a>>
        ensures { MatchOption result
            (IsNoMacro (table_of self.now) (Word name.now))
            (Replaces (words_of self.now.words) (table_of self.now) (Word name.now)) }
    {
        let number = self.number_of(name)?;
        let found = self.macro_numbered(number)?;
        Some(Frame {
            number,
            rest: found.tokens.as_slice(),
        })
    }

    /// Puts what replaces a token behind others, each with the token's line and range, and counts the tokens and the
    /// replaced names. `TooMany` comes exactly where one of the counts would pass 1,000,000.
    pub fn replace(
        &self,
        alloc: Global,
        kind: TokenKind,
        span: &Span,
        counts: &mut Counts,
        tokens: &mut Vec<Token>,
    ) -> Result<(), ExpansionFault>
        ensures tokens { OnOk result (lexemes tokens.new.items ≡ lexemes tokens.old.items ++ placed span.now (replacement (table_of self.now) (kind_of kind))) }
        ensures token_count { OnOk result (counts.new.tokens ≡ counts.old.tokens + length (replacement (table_of self.now) (kind_of kind))) }
        ensures name_count { OnOk result (counts.new.names ≡ counts.old.names + replacement_names (table_of self.now) (kind_of kind)) }
        ensures too_many { IsErrOf result ExpansionFault.TooMany
            → (1000000 < counts.old.tokens + length (replacement (table_of self.now) (kind_of kind)))
            ⊎ (1000000 < counts.old.names + replacement_names (table_of self.now) (kind_of kind)) }
    {
        let TokenKind::Word(name) = &kind else {
            return push_token(kind, span, counts, tokens);
        };
        let Some(frame) = self.frame_of(name.as_slice()) else {
            return push_token(kind, span, counts, tokens);
        };
        drop(kind);
        counts.count_name()?;
        let mut expansion = Expansion::new(alloc);
        expansion.enter(frame)?;
        expansion.replace_rest(self, span, counts, tokens)?;
        Ok(())
    }
}
