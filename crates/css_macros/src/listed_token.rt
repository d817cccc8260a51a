//! The tokens of a macro that is defined, whose words have numbers.
ghost use Rattle.std.specs.Prelude.{◌≡◌, Some, IfOk, IsTrue};
ghost use Rattle.std.specs.List.{list_all};
ghost use Rattle.css_macros.specs.MacroTokens.{plain_kind, plain_kinds};
ghost use Rattle.css_macros.specs.Numbers.{number_in};
ghost use Rattle.css_macros.specs.ListedTokens.{listed_kind, listed_kinds, is_listed};
ghost use Rattle.css_macros.specs.NumberedWords.{words_of, Grows};

use crate::macro_token::MacroToken;
use css_base::NoMemory;
use indexmap::IndexSet;
use std::alloc::Global;

/// A token of a macro that is defined, with the number of the word that it is.
#[derive(Drop)]
pub(crate) struct ListedToken {
    pub token: MacroToken,
    pub number: Option<usize>,
}

/// The number of a word. A word that has none gets the next one.
pub(crate) fn number_of_word(
    alloc: Global,
    words: &mut IndexSet<Vec<u8>>,
    word: &[u8],
) -> Result<usize, NoMemory>
    ensures grows { Grows words.old words.new }
    ensures number { IfOk result (λ n. number_in (words_of words.new) word.now ≡ Some n) }
{
    if let Some(number) = words.get_index_of(word) {
        return Ok(number);
    }
    let (number, _) = words.insert_full(Vec::from_slice(alloc, word)?)?;
    Ok(number)
}

/// A token with the number of the word that it is.
fn listed_token(
    alloc: Global,
    words: &mut IndexSet<Vec<u8>>,
    token: MacroToken,
) -> Result<ListedToken, NoMemory>
    ensures grows { Grows words.old words.new }
    ensures listed { IfOk result (λ t. IsTrue (is_listed (words_of words.new) t)) }
    ensures kind { IfOk result (λ t. listed_kind t ≡ plain_kind token) }
{
    let number = match &token {
        MacroToken::Word(word) => Some(number_of_word(alloc, words, word.as_slice())?),
        _ => None,
    };
    Ok(ListedToken {
        token: token.into_shared(alloc)?,
        number,
    })
}

/// Tokens with the numbers of the words that they are.
pub(crate) fn listed_tokens(
    words: &mut IndexSet<Vec<u8>>,
    tokens: Vec<MacroToken>,
) -> Result<Vec<ListedToken>, NoMemory>
    ensures grows { Grows words.old words.new }
    ensures listed { IfOk result (λ ts. IsTrue (list_all (is_listed (words_of words.new)) ts.items)) }
    ensures kinds { IfOk result (λ ts. listed_kinds ts.items ≡ plain_kinds tokens.items) }
{
    let alloc = *tokens.allocator();
    let mut listed = Vec::new(alloc);
    let mut rest = tokens.into_iter();
    while let Some(token) = rest.next() {
        listed.push(listed_token(alloc, words, token)?)?;
    }
    Ok(listed)
}
