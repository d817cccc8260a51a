//! Initialisers (C99 6.7.8).
ghost use Rattle.std.specs.Prelude.{◌≡◌, ℕ, ◌≤◌, List, ◌∷◌, Option, IfOk, IsErrOf, IsTrue, ◌↔◌, option_map, ◌<◌, length};
ghost use Rattle.css_base.specs.Tokens.{Lexeme, At, kind_of, lexemes};
ghost use Rattle.css_tree.specs.Syntax as spec;
ghost use Rattle.css_tree.specs.Shapes.{expression, initialiser, listed_parts};
ghost use Rattle.css_parse.specs.Readings.{valued, ReadsInitialiser, ReadsParts, ReadsInitial};

use crate::expression::expression;
use crate::fronts::after_mark;
use crate::gather::add;
use crate::unspelled::Unspelled;
use css_base::{Token, TokenKind};
use css_pexpr::Level;
use css_tree::{Expression, Initialiser, Scope};
use std::alloc::Global;

/// An equals sign and an initialiser, or nothing, and the tokens behind them.
pub(crate) fn initial(
    alloc: Global,
    scope: Scope,
    tokens: &[Token],
    levels: u32,
) -> Result<(Option<Initialiser>, &[Token]), Unspelled>
    requires { levels ≤ 500 }
    ensures ok { IfOk result (λ x. ReadsInitial scope levels (lexemes tokens.now)
        (option_map initialiser x.0) (lexemes x.1.now)) }
    ensures not_spelled { IsErrOf result Unspelled.NotSpelled → (value : Option spec.Initialiser) (rest : List Lexeme)
        → ReadsInitial scope levels (lexemes tokens.now) value rest → ⊥ }
    ensures shorter { IfOk result (λ x. length x.1.now ≤ length tokens.now) }
{
    let Some(behind) = after_mark(tokens, b"=") else {
        return Ok((None, tokens));
    };
    let (value, rest) = initialiser(alloc, scope, behind, levels)?;
    Ok((Some(value), rest))
}

/// An initialiser, and the tokens behind it.
#[cycle(initialisers)]
fn initialiser(
    alloc: Global,
    scope: Scope,
    tokens: &[Token],
    levels: u32,
) -> Result<(Initialiser, &[Token]), Unspelled>
    requires { levels ≤ 500 }
    ensures ok { IfOk result (λ x. ReadsInitialiser scope levels (lexemes tokens.now) (initialiser x.0) (lexemes x.1.now)) }
    ensures not_spelled { IsErrOf result Unspelled.NotSpelled → (value : spec.Initialiser) (rest : List Lexeme)
        → ReadsInitialiser scope levels (lexemes tokens.now) value rest → ⊥ }
    ensures shorter { IfOk result (λ x. length x.1.now < length tokens.now) }
{
    let Some(first) = tokens.first() else {
        return Err(Unspelled::NotSpelled);
    };
    if let Some(inside) = after_mark(tokens, b"{") {
        let line = first.line;
        let (parts, rest) = parts(alloc, scope, inside, levels)?;
        return Ok((Initialiser::List { line, parts }, rest));
    }
    let (value, rest) = expression(alloc, scope, Level::Assign, tokens, levels.max(1))?;
    let value = valued(&first.kind, value);
    if is_high(&value, levels) {
        return Err(Unspelled::NotSpelled);
    }
    Ok((value, rest))
}

/// What an expression with this first token is as an initialiser.
fn valued(first: &TokenKind, value: Expression) -> Initialiser
    ensures { (line place end : ℕ) (ts : List Lexeme) → initialiser result ≡ valued (At (kind_of first.now) line place end ∷ ts) (expression value) }
{
    match first {
        TokenKind::Text(_) => match value.into_text() {
            Ok((line, bytes)) => Initialiser::Text { line, bytes },
            Err(value) => Initialiser::Value(value),
        },
        _ => Initialiser::Value(value),
    }
}

/// Whether an initialiser is an expression, where there is no level for it.
fn is_high(part: &Initialiser, levels: u32) -> bool
    ensures { IsTrue result ↔ ((levels ≡ 0) × ((e : spec.Expression) × (initialiser part.now ≡ spec.Value e))) }
{
    levels == 0 && is_value(part)
}

/// Whether an initialiser is an expression, which is a level of its own.
fn is_value(part: &Initialiser) -> bool
    ensures { IsTrue result ↔ ((e : spec.Expression) × (initialiser part.now ≡ spec.Value e)) }
{
    match part {
        Initialiser::Value(_) => true,
        _ => false,
    }
}

/// The initialisers behind an opening brace up to the brace that closes it, and the tokens behind that.
#[cycle(initialisers)]
fn parts(
    alloc: Global,
    scope: Scope,
    tokens: &[Token],
    levels: u32,
) -> Result<(Vec<Initialiser>, &[Token]), Unspelled>
    requires { levels ≤ 500 }
    ensures ok { IfOk result (λ x. ReadsParts scope levels (lexemes tokens.now) (listed_parts x.0.items) (lexemes x.1.now)) }
    ensures not_spelled { IsErrOf result Unspelled.NotSpelled → (parts : spec.Initialisers) (rest : List Lexeme)
        → ReadsParts scope levels (lexemes tokens.now) parts rest → ⊥ }
    ensures shorter { IfOk result (λ x. length x.1.now < length tokens.now) }
{
    let mut parts = Vec::new(alloc);
    let mut rest = tokens;
    loop {
        let (part, behind) = initialiser(alloc, scope, rest, levels)?;
        add(&mut parts, part)?;
        if let Some(end) = after_mark(behind, b"}") {
            return Ok((parts, end));
        }
        let Some(next) = after_mark(behind, b",") else {
            return Err(Unspelled::NotSpelled);
        };
        if let Some(end) = after_mark(next, b"}") {
            return Ok((parts, end));
        }
        rest = next;
    }
}
