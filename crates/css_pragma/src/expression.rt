//! Expressions and names in directives.
ghost use Rattle.std.specs.Prelude.{◌≡◌, ℕ, ◌<◌, List, length, IfOk, IsErrOf};
ghost use Rattle.css_base.specs.Tokens.{Lexeme, lexemes};
ghost use Rattle.css_tree.specs.Syntax as spec;
ghost use Rattle.css_tree.specs.Shapes.{expression};
ghost use Rattle.css_parse.specs.Readings.{ReadsExpression, ReadsName};
ghost use Rattle.css_pragma.specs.Readings.{ReadsClosed};

use crate::fronts::after_mark;
use crate::unread::Unread;
use css_base::{Bytes, FrontFault, Token};
use css_pexpr::{Level, parse_part};
use css_tree::{Expression, Scope};
use std::alloc::Global;

/// The longest expression at the front, and the tokens behind it. `NotSpelled` comes only where there is none of at most 500
/// levels.
pub(crate) fn expression(
    alloc: Global,
    scope: Scope,
    level: Level,
    tokens: &[Token],
) -> Result<(Expression, &[Token]), Unread>
    ensures ok { IfOk result (λ x. ReadsExpression scope level 500 (lexemes tokens.now) (expression x.0) (lexemes x.1.now)) }
    ensures not_spelled { IsErrOf result Unread.NotSpelled → (e : spec.Expression) (rest : List Lexeme)
        → ReadsExpression scope level 500 (lexemes tokens.now) e rest → ⊥ }
    ensures shorter { IfOk result (λ x. length x.1.now < length tokens.now) }
{
    match parse_part(alloc, scope, level, tokens, 0) {
        Ok((value, end)) => Ok((value, &tokens[end..])),
        Err(FrontFault::Static(_)) => Err(Unread::NotSpelled),
        Err(FrontFault::NoMemory) => Err(Unread::NoMemory),
    }
}

/// An expression and the punctuator behind it, and the tokens behind them.
pub(crate) fn closed<'a>(
    alloc: Global,
    scope: Scope,
    level: Level,
    close: &[u8],
    tokens: &'a [Token],
) -> Result<(Expression, &'a [Token]), Unread>
    ensures ok { IfOk result (λ x. ReadsClosed scope level close.now (lexemes tokens.now) (expression x.0) (lexemes x.1.now)) }
    ensures not_spelled { IsErrOf result Unread.NotSpelled → (e : spec.Expression) (rest : List Lexeme)
        → ReadsClosed scope level close.now (lexemes tokens.now) e rest → ⊥ }
    ensures shorter { IfOk result (λ x. length x.1.now < length tokens.now) }
{
    let (value, behind) = expression(alloc, scope, level, tokens)?;
    let Some(rest) = after_mark(behind, close) else {
        return Err(Unread::NotSpelled);
    };
    Ok((value, rest))
}

/// A name, and the tokens behind it: a token that by itself is an expression and a name.
pub(crate) fn name(alloc: Global, tokens: &[Token]) -> Result<(Bytes, &[Token]), Unread>
    ensures ok { IfOk result (λ x. ReadsName (lexemes tokens.now) x.0 (lexemes x.1.now)) }
    ensures not_spelled { IsErrOf result Unread.NotSpelled → (name : List ℕ) (rest : List Lexeme)
        → ReadsName (lexemes tokens.now) name rest → ⊥ }
    ensures shorter { IfOk result (λ x. length x.1.now < length tokens.now) }
{
    if tokens.is_empty() {
        return Err(Unread::NotSpelled);
    }
    let (first, rest) = tokens.split_at(1);
    let (value, _) = expression(alloc, Scope::File, Level::Cond, first)?;
    match value.into_name() {
        Some(name) => Ok((name, rest)),
        None => Err(Unread::NotSpelled),
    }
}
