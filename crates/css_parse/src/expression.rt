//! Expressions where they stand in other productions.
ghost use Rattle.std.specs.Prelude.{◌≡◌, ◌≤◌, List, Option, Some, option_map, IfOk, IsErrOf, ◌<◌, length};
ghost use Rattle.css_base.specs.Tokens.{Lexeme, lexemes};
ghost use Rattle.css_tree.specs.Syntax as spec;
ghost use Rattle.css_tree.specs.Shapes.{expression};
ghost use Rattle.css_parse.specs.Readings.{ReadsExpression, ReadsOptional, ReadsCondition};

use crate::fronts::after_mark;
use crate::low::is_low;
use crate::unspelled::Unspelled;
use css_base::{FrontFault, Token};
use css_pexpr::{Level, parse_part};
use css_tree::{Expression, Scope};
use std::alloc::Global;

/// The longest expression at the front, and the tokens behind it. `NotSpelled` comes only where there is none of at most so
/// many levels.
pub(crate) fn expression(
    alloc: Global,
    scope: Scope,
    level: Level,
    tokens: &[Token],
    levels: u32,
) -> Result<(Expression, &[Token]), Unspelled>
    requires { levels ≤ 500 }
    ensures ok { IfOk result (λ x. ReadsExpression scope level levels (lexemes tokens.now) (expression x.0) (lexemes x.1.now)) }
    ensures not_spelled { IsErrOf result Unspelled.NotSpelled → (e : spec.Expression) (rest : List Lexeme)
        → ReadsExpression scope level levels (lexemes tokens.now) e rest → ⊥ }
    ensures shorter { IfOk result (λ x. length x.1.now < length tokens.now) }
{
    match parse_part(alloc, scope, level, tokens, 0) {
        Ok((value, end)) => {
            if is_low(&value, levels) {
                Ok((value, &tokens[end..]))
            } else {
                Err(Unspelled::NotSpelled)
            }
        }
        Err(FrontFault::Static(_)) => Err(Unspelled::NotSpelled),
        Err(FrontFault::NoMemory) => Err(Unspelled::NoMemory),
    }
}

/// An expression that may be left out and the punctuator that ends it, and the tokens behind them.
pub(crate) fn optional<'a>(
    alloc: Global,
    scope: Scope,
    level: Level,
    close: &[u8],
    tokens: &'a [Token],
    levels: u32,
) -> Result<(Option<Expression>, &'a [Token]), Unspelled>
    requires { levels ≤ 500 }
    ensures ok { IfOk result (λ x. ReadsOptional scope level close.now levels (lexemes tokens.now)
        (option_map expression x.0) (lexemes x.1.now)) }
    ensures not_spelled { IsErrOf result Unspelled.NotSpelled → (value : Option spec.Expression) (rest : List Lexeme)
        → ReadsOptional scope level close.now levels (lexemes tokens.now) value rest → ⊥ }
    ensures shorter { IfOk result (λ x. length x.1.now < length tokens.now) }
{
    if let Some(rest) = after_mark(tokens, close) {
        return Ok((None, rest));
    }
    let (value, behind) = expression(alloc, scope, level, tokens, levels)?;
    let Some(rest) = after_mark(behind, close) else {
        return Err(Unspelled::NotSpelled);
    };
    Ok((Some(value), rest))
}

/// An expression in parentheses, and the tokens behind it.
pub(crate) fn condition(
    alloc: Global,
    tokens: &[Token],
    levels: u32,
) -> Result<(Expression, &[Token]), Unspelled>
    requires { levels ≤ 500 }
    ensures ok { IfOk result (λ x. ReadsCondition levels (lexemes tokens.now) (expression x.0) (lexemes x.1.now)) }
    ensures not_spelled { IsErrOf result Unspelled.NotSpelled → (e : spec.Expression) (rest : List Lexeme)
        → ReadsCondition levels (lexemes tokens.now) e rest → ⊥ }
    ensures shorter { IfOk result (λ x. length x.1.now < length tokens.now) }
{
    let Some(inside) = after_mark(tokens, b"(") else {
        return Err(Unspelled::NotSpelled);
    };
    let (value, behind) = expression(alloc, Scope::Block, Level::Expr, inside, levels)?;
    let Some(rest) = after_mark(behind, b")") else {
        return Err(Unspelled::NotSpelled);
    };
    Ok((value, rest))
}
