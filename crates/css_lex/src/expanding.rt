//! The replacement of a line's words.
ghost use Rattle.std.specs.Prelude.{◌≡◌, ◌+◌, ◌<◌, ◌⊎◌, ◌++◌, ◌∷◌, [], length, OnOk, IsErrOf};
ghost use Rattle.css_base.specs.Tokens.{lexeme, lexemes};
ghost use Rattle.css_macros.specs.MacroTables.{table_of};
ghost use Rattle.css_lex.specs.Refusals.{breach, overruns};
ghost use Rattle.css_lex.specs.Expanded.{replaced_word, expanded, word_cost, word_costs, tokens_among, names_among, IsHead};

use crate::breach::{Breach, LexFault};
use css_base::{StaticName, Token};
use css_macros::{Counts, ExpansionFault, Macros, Span};
use std::alloc::Global;

/// Puts what replaces a word behind tokens, and counts it.
fn expand_word(
    alloc: Global,
    macros: &Macros,
    word: Token,
    counts: &mut Counts,
    tokens: &mut Vec<Token>,
) -> Result<(), LexFault>
    ensures tokens { OnOk result (lexemes tokens.new.items ≡ lexemes tokens.old.items ++ replaced_word (table_of macros.now) (lexeme word)) }
    ensures token_count { OnOk result (counts.new.tokens ≡ counts.old.tokens + (word_cost (table_of macros.now) (lexeme word)).tokens) }
    ensures name_count { OnOk result (counts.new.names ≡ counts.old.names + (word_cost (table_of macros.now) (lexeme word)).names) }
    ensures over { (b : Breach) → IsErrOf result (LexFault.Breach b)
        → IsHead b (overruns counts.old.tokens counts.old.names (word_cost (table_of macros.now) (lexeme word) ∷ [])) }
{
    let span = Span {
        line: word.line,
        place: word.place,
        end: word.end,
    };
    match macros.replace(alloc, word.kind, &span, counts, tokens) {
        Ok(()) => Ok(()),
        Err(ExpansionFault::TooMany) => Err(LexFault::Breach(Breach {
            name: StaticName::BadMacro,
            place: span.place as usize,
        })),
        Err(ExpansionFault::NoMemory) => Err(LexFault::NoMemory),
    }
}

/// Puts what replaces some words behind tokens, and counts it.
pub(crate) fn expand(
    alloc: Global,
    macros: &Macros,
    words: Vec<Token>,
    counts: &mut Counts,
    tokens: &mut Vec<Token>,
) -> Result<(), LexFault>
    ensures tokens { OnOk result (lexemes tokens.new.items ≡ lexemes tokens.old.items ++ expanded (table_of macros.now) (lexemes words.items)) }
    ensures token_count { OnOk result (counts.new.tokens ≡ counts.old.tokens + tokens_among (word_costs (table_of macros.now) (lexemes words.items))) }
    ensures name_count { OnOk result (counts.new.names ≡ counts.old.names + names_among (word_costs (table_of macros.now) (lexemes words.items))) }
    ensures fits { OnOk result (overruns counts.old.tokens counts.old.names (word_costs (table_of macros.now) (lexemes words.items)) ≡ []) }
    ensures over { (b : Breach) → IsErrOf result (LexFault.Breach b)
        → IsHead b (overruns counts.old.tokens counts.old.names (word_costs (table_of macros.now) (lexemes words.items))) }
{
    let mut rest = words.into_iter();
    while let Some(word) = rest.next() {
        if let Err(fault) = expand_word(alloc, macros, word, counts, tokens) {
            return Err(fault);
        }
    }
    Ok(())
}
