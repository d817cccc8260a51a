//! The macros that are defined at a place of a text (C99 6.10.3).
ghost use Rattle.std.specs.Prelude.{◌≡◌, [], ◌∷◌, ◌++◌, IfOk, OnOk, IsTrue};
ghost use Rattle.std.specs.List.{list_all};
ghost use Rattle.css_base.specs.Tokens.{Punctuator};
ghost use Rattle.css_macros.specs.Macros.{null_tokens, end_of_file_tokens, same_kinds};
ghost use Rattle.css_macros.specs.MacroTokens.{plain_kinds};
ghost use Rattle.css_macros.specs.ListedTokens.{listed_kinds};
ghost use Rattle.css_macros.specs.NumberedWords.{words_of};
ghost use Rattle.css_macros.specs.Entries.{is_entry};

use crate::listed_token::{ListedToken, listed_tokens, number_of_word};
use crate::macro_token::MacroToken;
use css_base::{Bytes, IntType, NoMemory};
use indexmap::{IndexMap, IndexSet};
use std::alloc::Global;

/// A macro: what replaces its name, and whether it is predefined.
#[derive(Drop)]
pub(crate) struct Definition {
    pub tokens: Vec<ListedToken>,
    pub predefined: bool,
}

/// The names that were defined, each with the macro that it still is. Contracts see their table, `table_of`.
///
/// Each name and each word of a macro's tokens has a number, its place among the words, so that macros are replaced by
/// number.
pub struct Macros {
    words: IndexSet<Vec<u8>>,
    names: IndexMap<usize, Option<Definition>>,
    ghost numbered: { IsTrue (list_all (is_entry (words_of words)) names.entries) },
}

// By hand, so that a place that lets macros go is one call in its proof.
impl Drop for Macros {
    fn drop(self) {
        let Macros { words: _, names: _ } = self;
    }
}

/// Whether a macro's tokens are these.
fn are_same(these: &[ListedToken], those: &[MacroToken]) -> bool
    ensures { result ≡ same_kinds (listed_kinds these.now) (plain_kinds those.now) }
{
    if these.len() != those.len() {
        return false;
    }
    for (index, listed) in these.iter().enumerate() {
        if !listed.token.is_same(&those[index]) {
            return false;
        }
    }
    true
}

impl Macros {
    ghost use Rattle.std.specs.Prelude.{◌≡◌, IfOk, IfSome, OnOk, OnErr, Some, IsTrue, bytes_eq, []};
    ghost use Rattle.std.specs.Option.{option_map};
    ghost use Rattle.std.specs.List.{list_all};
    ghost use Rattle.indexmap.specs.IndexMap.{insert_entry};
    ghost use Rattle.css_macros.specs.Macros.{macro_of, may_define, defined, undefined, predefined_macros};
    ghost use Rattle.css_macros.specs.MacroTokens.{plain_kinds};
    ghost use Rattle.css_macros.specs.Numbers.{number_in, word_at};
    ghost use Rattle.css_macros.specs.NumberedWords.{words_of};
    ghost use Rattle.css_macros.specs.ListedTokens.{is_listed};
    ghost use Rattle.css_macros.specs.Entries.{macro_value};
    ghost use Rattle.css_macros.specs.MacroTables.{table_of};

    /// No macro. Takes no memory.
    fn empty(alloc: Global) -> Macros
        ensures { table_of result ≡ [] }
    {
        Macros {
            words: IndexSet::new(alloc),
            names: IndexMap::new(alloc),
        }
    }

    /// The macros that are there at a text's beginning: `NULL` is `((void *)0)`, and `EOF` is `(-1)`.
    pub fn new(alloc: Global) -> Result<Macros, NoMemory>
        ensures { IfOk result (λ macros. table_of macros ≡ predefined_macros) }
    {
        let null = null(alloc)?;
        let end_of_file = end_of_file(alloc)?;
        let mut macros = Macros::empty(alloc);
        macros.set(b"NULL", null, true)?;
        macros.set(b"EOF", end_of_file, true)?;
        Ok(macros)
    }

    /// The macro of a number's word, if there is one.
    pub(crate) fn macro_numbered(&self, number: usize) -> Option<&Definition>
        requires { number_in (words_of self.now.words) (word_at (words_of self.now.words) number) ≡ Some number }
        ensures found { option_map (λ m. macro_value m.now) result ≡ macro_of (table_of self.now) (word_at (words_of self.now.words) number) }
        ensures listed { IfSome result (λ m. IsTrue (list_all (is_listed (words_of self.now.words)) m.now.tokens.items)) }
    {
        self.names.get(&number)?.as_ref()
    }

    /// The number of a word, if it has one. Only a word with a number can be a macro.
    pub(crate) fn number_of(&self, word: &[u8]) -> Option<usize>
        ensures { result ≡ number_in (words_of self.now.words) word.now }
    {
        self.words.get_index_of(word)
    }

    /// The macro of a name, if there is one.
    pub(crate) fn macro_of(&self, name: &[u8]) -> Option<&Definition>
        ensures { option_map (λ m. macro_value m.now) result ≡ macro_of (table_of self.now) name.now }
    {
        self.macro_numbered(self.number_of(name)?)
    }

    /// Whether a name may be defined with these tokens: it isn't defined, is predefined, or is defined with the same
    /// tokens (C99 6.10.3 paragraph 2).
    pub fn may_define(&self, name: &[u8], tokens: &[MacroToken]) -> bool
        ensures { result ≡ may_define (table_of self.now) name.now (plain_kinds tokens.now) }
    {
        match self.macro_of(name) {
            Some(found) => found.predefined || are_same(found.tokens.as_slice(), tokens),
            None => true,
        }
    }

    /// Makes a name this macro. Nothing is changed where there is no memory.
    fn set(
        &mut self,
        name: &[u8],
        tokens: Vec<MacroToken>,
        predefined: bool,
    ) -> Result<(), NoMemory>
        ensures ok { OnOk result (table_of self.new
            ≡ insert_entry bytes_eq (table_of self.old) name.now (Some (record { tokens = plain_kinds tokens.items; predefined = predefined }))) }
        ensures no_memory { OnErr result (table_of self.new ≡ table_of self.old) }
    {
        let alloc = *tokens.allocator();
        let number = number_of_word(alloc, &mut self.words, name)?;
        let tokens = listed_tokens(&mut self.words, tokens)?;
        let definition = Definition { tokens, predefined };
        self.names.insert(number, Some(definition))?;
        Ok(())
    }

    /// Defines a name, in place of the macro that it was. Nothing is changed where there is no memory.
    pub fn define(&mut self, name: Bytes, tokens: Vec<MacroToken>) -> Result<(), NoMemory>
        ensures ok { OnOk result (table_of self.new ≡ defined (table_of self.old) name (plain_kinds tokens.items)) }
        ensures no_memory { OnErr result (table_of self.new ≡ table_of self.old) }
    {
        self.set(name.as_slice(), tokens, false)
    }

    /// Makes a name no macro (C99 6.10.3.5), whether it is one or not.
    pub fn undefine(&mut self, name: &[u8])
        ensures { table_of self.new ≡ undefined (table_of self.old) name.now }
    {
        let Some(number) = self.words.get_index_of(name) else {
            return;
        };
        if let Some(definition) = self.names.get_mut(&number) {
            *definition = None;
        }
    }
}

/// Puts a punctuator of one byte behind tokens.
fn push_punctuator(tokens: &mut Vec<MacroToken>, byte: u8) -> Result<(), NoMemory>
    ensures { OnOk result (plain_kinds tokens.new.items ≡ plain_kinds tokens.old.items ++ Punctuator (byte ∷ []) ∷ []) }
{
    let bytes = Vec::from_slice(*tokens.allocator(), &[byte])?;
    tokens.push(MacroToken::Punctuator(Bytes::new(bytes)))?;
    Ok(())
}

/// The tokens of `NULL`.
fn null(alloc: Global) -> Result<Vec<MacroToken>, NoMemory>
    ensures { IfOk result (λ tokens. plain_kinds tokens.items ≡ null_tokens) }
{
    let mut tokens = Vec::new(alloc);
    push_punctuator(&mut tokens, b'(')?;
    push_punctuator(&mut tokens, b'(')?;
    tokens.push(MacroToken::Word(Bytes::new(Vec::from_slice(alloc, b"void")?)))?;
    push_punctuator(&mut tokens, b'*')?;
    push_punctuator(&mut tokens, b')')?;
    tokens.push(MacroToken::Number {
        kind: IntType::Int,
        value: 0,
    })?;
    push_punctuator(&mut tokens, b')')?;
    Ok(tokens)
}

/// The tokens of `EOF`.
fn end_of_file(alloc: Global) -> Result<Vec<MacroToken>, NoMemory>
    ensures { IfOk result (λ tokens. plain_kinds tokens.items ≡ end_of_file_tokens) }
{
    let mut tokens = Vec::new(alloc);
    push_punctuator(&mut tokens, b'(')?;
    push_punctuator(&mut tokens, b'-')?;
    tokens.push(MacroToken::Number {
        kind: IntType::Int,
        value: 1,
    })?;
    push_punctuator(&mut tokens, b')')?;
    Ok(tokens)
}
