//! What stands first among words.
ghost use Rattle.std.specs.Prelude.{◌≡◌, ◌≤◌, ◌↔◌, ◌⊎◌, ◌∷◌, ◌++◌, true, false, IsTrue, IfSome, IsNone, List, MatchOption, length, codes};
ghost use Rattle.css_words.specs.declared.options.OptionName.{OptionName};
ghost use Rattle.css_words.specs.Options.{Text, kind_of, option_name};
ghost use Rattle.css_words.specs.Items.{IsPlainWord, is_flag};
ghost use Rattle.css_words.specs.KeptWords.{NothingStandsFirst, StandsFirst, texts};

use crate::options::{OptionName, option_named};
use crate::table::{OptionKind, row};

/// An option that is given, and its value; a flag's is empty.
#[derive(Clone, Copy)]
pub(crate) struct Given<'a> {
    pub(crate) option: OptionName,
    pub(crate) value: &'a str,
}

/// What stands first among words.
#[derive(Clone, Copy)]
pub(crate) enum Part<'a> {
    /// An option.
    Given(Given<'a>),
    /// A word that is no option.
    Operand(&'a str),
}

/// Whether a word doesn't begin with `-`.
fn is_plain(word: &str) -> bool
    ensures { IsTrue result ↔ IsPlainWord word.now }
{
    !word.starts_with('-')
}

/// Whether a word is no option: `-` alone, or one that doesn't begin with `-`.
fn is_operand(word: &str) -> bool
    ensures { IsTrue result ↔ ((word.now ≡ codes "-") ⊎ IsPlainWord word.now) }
{
    word == "-" || is_plain(word)
}

/// Whether an option takes no value.
fn is_flag(option: OptionName) -> bool
    ensures { result ≡ is_flag (kind_of option) }
{
    match row(option).kind {
        OptionKind::Flag => true,
        OptionKind::Number { .. } => false,
        OptionKind::File => false,
    }
}

/// What `--name=value` stands for. None where it is no option that takes a value.
fn joined<'a>(name: &str, value: &'a str, others: &'a [String]) -> Option<(Part<'a>, &'a [String])>
    ensures found { MatchOption result
        ((option : OptionName) → option_name option ≡ name.now → is_flag (kind_of option) ≡ false → ⊥)
        (λ found. StandsFirst
        ((codes "--" ++ (name.now ++ (codes "=" ++ value.entry.now))) ∷ texts others.entry.now)
        found.0 (texts found.1.now)) }
    ensures shorter { IfSome result (λ found. length found.1.now ≤ length others.entry.now) }
{
    let Some(option) = option_named(name) else {
        return None;
    };
    if is_flag(option) {
        return None;
    }
    Some((Part::Given(Given { option, value }), others))
}

/// What `--name` stands for, with these words behind it. None where it is no option that has its value there.
fn apart<'a>(name: &str, others: &'a [String]) -> Option<(Part<'a>, &'a [String])>
    ensures flag { IsNone result → (option : OptionName) → option_name option ≡ name.now → is_flag (kind_of option) ≡ true → ⊥ }
    ensures valued { IsNone result → (option : OptionName) (value : Text) (rest : List Text)
        → option_name option ≡ name.now → is_flag (kind_of option) ≡ false → texts others.entry.now ≡ value ∷ rest → IsPlainWord value → ⊥ }
    ensures found { IfSome result (λ found. StandsFirst
        ((codes "--" ++ name.now) ∷ texts others.entry.now) found.0 (texts found.1.now)) }
    ensures shorter { IfSome result (λ found. length found.1.now ≤ length others.entry.now) }
{
    let Some(option) = option_named(name) else {
        return None;
    };
    if is_flag(option) {
        return Some((Part::Given(Given { option, value: "" }), others));
    }
    let Some((value, rest)) = others.split_first() else {
        return None;
    };
    let value = value.as_str();
    if is_plain(value) {
        Some((Part::Given(Given { option, value }), rest))
    } else {
        None
    }
}

/// What stands first, and the words behind it. None where no item stands there.
pub(crate) fn first_part<'a>(
    first: &'a str,
    others: &'a [String],
) -> Option<(Part<'a>, &'a [String])>
    ensures found { MatchOption result
        (NothingStandsFirst (first.entry.now ∷ texts others.entry.now))
        (λ found. StandsFirst (first.entry.now ∷ texts others.entry.now) found.0 (texts found.1.now)) }
    ensures shorter { IfSome result (λ found. length found.1.now ≤ length others.entry.now) }
{
    let Some(body) = first.strip_prefix("--") else {
        if is_operand(first) {
            return Some((Part::Operand(first), others));
        }
        return None;
    };
    match body.split_once('=') {
        Some((name, value)) => joined(name, value, others),
        None => apart(body, others),
    }
}
