//! The words that make a type (C99 6.7.1 to 6.7.4, 6.7.5.1).
ghost use Rattle.std.specs.Prelude.{◌≡◌, ℕ, List, None, IfOk, IfErr, IfSome, IfNone, IsErrOf, ◌<◌, ◌≤◌, length};
ghost use Rattle.css_base.specs.Tokens.{Lexeme, kind_of, lexemes};
ghost use Rattle.css_tree.specs.declared.words.Specifier as specs;
ghost use Rattle.css_tree.specs.Words.{specifier_text, qualifier_text};
ghost use Rattle.css_tree.specs.Shapes.{stars};
ghost use Rattle.css_parse.specs.Words.{block_specifier, file_specifier, specifier_spelled, specifier_of, next_specifier, qualifier_spelled, qualifier_of, next_qualifier, IsSpecifierAt, IsQualifierAt, ReadsSpecifiers, TakesQualifiers, ReadsStars};

use crate::fronts::after_mark;
use crate::gather::add;
use crate::unspelled::Unspelled;
use css_base::{Token, TokenKind};
use css_tree::{Qualifier, Scope, Specifier, Star};
use std::alloc::Global;

/// The specifiers that may stand in a block.
const BLOCK_SPECIFIERS: [Specifier; 13] = [
    Specifier::Void,
    Specifier::Char,
    Specifier::Short,
    Specifier::Int,
    Specifier::Long,
    Specifier::Signed,
    Specifier::Unsigned,
    Specifier::Auto,
    Specifier::Const,
    Specifier::Inline,
    Specifier::Register,
    Specifier::Restrict,
    Specifier::Volatile,
];

const QUALIFIERS: [Qualifier; 3] = [Qualifier::Const, Qualifier::Volatile, Qualifier::Restrict];

/// How a specifier is spelled.
fn specifier_text(specifier: Specifier) -> &'static [u8]
    ensures { result.now ≡ specifier_text specifier }
{
    match specifier {
        Specifier::Void => b"void",
        Specifier::Char => b"char",
        Specifier::Short => b"short",
        Specifier::Int => b"int",
        Specifier::Long => b"long",
        Specifier::Signed => b"signed",
        Specifier::Unsigned => b"unsigned",
        Specifier::Auto => b"auto",
        Specifier::Const => b"const",
        Specifier::Inline => b"inline",
        Specifier::Register => b"register",
        Specifier::Restrict => b"restrict",
        Specifier::Volatile => b"volatile",
        Specifier::Static => b"static",
    }
}

/// How a qualifier is spelled.
fn qualifier_text(qualifier: Qualifier) -> &'static [u8]
    ensures { result.now ≡ qualifier_text qualifier }
{
    match qualifier {
        Qualifier::Const => b"const",
        Qualifier::Volatile => b"volatile",
        Qualifier::Restrict => b"restrict",
    }
}

#[tactic(auto, unfolding(crate::specs::Words::block_specifier))]
fn block_specifier(bytes: &[u8]) -> Option<Specifier>
    ensures { result ≡ block_specifier bytes.now }
{
    BLOCK_SPECIFIERS
        .iter()
        .copied()
        .find(|specifier| specifier_text(*specifier) == bytes)
}

#[tactic(auto, unfolding(crate::specs::Words::file_specifier))]
fn file_specifier(bytes: &[u8]) -> Option<Specifier>
    ensures { result ≡ file_specifier bytes.now }
{
    if bytes == b"static".as_slice() {
        Some(Specifier::Static)
    } else {
        block_specifier(bytes)
    }
}

/// The specifier that these bytes spell.
fn specifier_spelled(scope: Scope, bytes: &[u8]) -> Option<Specifier>
    ensures { result ≡ specifier_spelled scope bytes.now }
{
    match scope {
        Scope::File => file_specifier(bytes),
        Scope::Block => block_specifier(bytes),
    }
}

/// The specifier that a token is.
fn specifier_of(scope: Scope, kind: &TokenKind) -> Option<Specifier>
    ensures { result ≡ specifier_of scope (kind_of kind.now) }
{
    match kind {
        TokenKind::Word(bytes) => specifier_spelled(scope, bytes.as_slice()),
        _ => None,
    }
}

/// The specifier that is next.
pub(crate) fn next_specifier(scope: Scope, tokens: &[Token]) -> Option<Specifier>
    ensures { result ≡ next_specifier scope (lexemes tokens.now) }
{
    let first = tokens.first()?;
    specifier_of(scope, &first.kind)
}

/// The specifier that is next, and the tokens behind it.
fn specifier_at(scope: Scope, tokens: &[Token]) -> Option<(Specifier, &[Token])>
    ensures found { IfSome result (λ x. IsSpecifierAt scope (lexemes tokens.now) x.0 (lexemes x.1.now)) }
    ensures shorter { IfSome result (λ x. length x.1.now < length tokens.now) }
    ensures none { IfNone result (next_specifier scope (lexemes tokens.now) ≡ None) }
{
    let (first, rest) = tokens.split_first()?;
    match specifier_of(scope, &first.kind) {
        Some(specifier) => Some((specifier, rest)),
        None => None,
    }
}

/// One or more specifiers, as long as they go on, and the tokens behind them.
pub(crate) fn specifiers(
    alloc: Global,
    scope: Scope,
    tokens: &[Token],
) -> Result<(Vec<Specifier>, &[Token]), Unspelled>
    ensures ok { IfOk result (λ x. ReadsSpecifiers scope (lexemes tokens.now) x.0.items (lexemes x.1.now)) }
    ensures not_spelled { IsErrOf result Unspelled.NotSpelled → (all : List specs.Specifier) (rest : List Lexeme)
        → ReadsSpecifiers scope (lexemes tokens.now) all rest → ⊥ }
    ensures shorter { IfOk result (λ x. length x.1.now < length tokens.now) }
{
    let mut all = Vec::new(alloc);
    let mut rest = tokens;
    while let Some((specifier, behind)) = specifier_at(scope, rest) {
        add(&mut all, specifier)?;
        rest = behind;
    }
    if all.is_empty() {
        return Err(Unspelled::NotSpelled);
    }
    Ok((all, rest))
}

#[tactic(auto, unfolding(crate::specs::Words::qualifier_spelled))]
fn qualifier_spelled(bytes: &[u8]) -> Option<Qualifier>
    ensures { result ≡ qualifier_spelled bytes.now }
{
    QUALIFIERS
        .iter()
        .copied()
        .find(|qualifier| qualifier_text(*qualifier) == bytes)
}

/// The qualifier that a token is.
fn qualifier_of(kind: &TokenKind) -> Option<Qualifier>
    ensures { result ≡ qualifier_of (kind_of kind.now) }
{
    match kind {
        TokenKind::Word(bytes) => qualifier_spelled(bytes.as_slice()),
        _ => None,
    }
}

/// The qualifier that is next, and the tokens behind it.
fn qualifier_at(tokens: &[Token]) -> Option<(Qualifier, &[Token])>
    ensures found { IfSome result (λ x. IsQualifierAt (lexemes tokens.now) x.0 (lexemes x.1.now)) }
    ensures shorter { IfSome result (λ x. length x.1.now < length tokens.now) }
    ensures none { IfNone result (next_qualifier (lexemes tokens.now) ≡ None) }
{
    let (first, rest) = tokens.split_first()?;
    match qualifier_of(&first.kind) {
        Some(qualifier) => Some((qualifier, rest)),
        None => None,
    }
}

/// Qualifiers, as long as they go on, and the tokens behind them. The only error is `NoMemory`.
fn qualifiers(alloc: Global, tokens: &[Token]) -> Result<(Vec<Qualifier>, &[Token]), Unspelled>
    ensures ok { IfOk result (λ x. TakesQualifiers (lexemes tokens.now) x.0.items (lexemes x.1.now)) }
    ensures no_memory { IfErr result (λ e. e ≡ Unspelled.NoMemory) }
    ensures shorter { IfOk result (λ x. length x.1.now ≤ length tokens.now) }
{
    let mut all = Vec::new(alloc);
    let mut rest = tokens;
    while let Some((qualifier, behind)) = qualifier_at(rest) {
        add(&mut all, qualifier)?;
        rest = behind;
    }
    Ok((all, rest))
}

/// Stars with their qualifiers, as long as they go on, and the tokens behind them. The only error is `NoMemory`.
pub(crate) fn stars(alloc: Global, tokens: &[Token]) -> Result<(Vec<Star>, &[Token]), Unspelled>
    ensures ok { IfOk result (λ x. ReadsStars (lexemes tokens.now) (stars x.0.items) (lexemes x.1.now)) }
    ensures no_memory { IfErr result (λ e. e ≡ Unspelled.NoMemory) }
    ensures shorter { IfOk result (λ x. length x.1.now ≤ length tokens.now) }
{
    let mut all = Vec::new(alloc);
    let mut rest = tokens;
    while let Some(behind) = after_mark(rest, b"*") {
        let (qualifiers, next) = qualifiers(alloc, behind)?;
        add(&mut all, Star { qualifiers })?;
        rest = next;
    }
    Ok((all, rest))
}
