//! What stands between a clause's parentheses.
ghost use Rattle.std.specs.Prelude.{◌≡◌, ℕ, ◌≤◌, ◌<◌, List, length, map, IfOk, IsErrOf};
ghost use Rattle.css_base.specs.Tokens.{Lexeme, lexemes};
ghost use Rattle.css_tree.specs.Syntax as spec;
ghost use Rattle.css_tree.specs.Shapes.{expression, argument};
ghost use Rattle.css_pragma.specs.Readings.{ReadsSizes, ReadsThree, ReadsBlock, ReadsArgument, ReadsSome, ReadsArguments};

use crate::expression::{closed, name};
use crate::fronts::after_mark;
use crate::gather::add;
use crate::unread::Unread;
use css_base::{Bytes, Token};
use css_pexpr::Level;
use css_tree::{Argument, Expression, Scope};
use std::alloc::Global;

/// The arguments behind an opening parenthesis up to the one that closes it, and the tokens behind that.
pub(crate) fn arguments(
    alloc: Global,
    tokens: &[Token],
) -> Result<(Vec<Argument>, &[Token]), Unread>
    ensures ok { IfOk result (λ x. ReadsArguments (lexemes tokens.now) (map argument x.0.items) (lexemes x.1.now)) }
    ensures not_spelled { IsErrOf result Unread.NotSpelled → (all : List spec.Argument) (rest : List Lexeme)
        → ReadsArguments (lexemes tokens.now) all rest → ⊥ }
    ensures shorter { IfOk result (λ x. length x.1.now < length tokens.now) }
{
    if let Some(rest) = after_mark(tokens, b")") {
        return Ok((Vec::new(alloc), rest));
    }
    listed(alloc, tokens)
}

/// One or more arguments and the closing parenthesis, and the tokens behind it.
fn listed(alloc: Global, tokens: &[Token]) -> Result<(Vec<Argument>, &[Token]), Unread>
    ensures ok { IfOk result (λ x. ReadsSome (lexemes tokens.now) (map argument x.0.items) (lexemes x.1.now)) }
    ensures not_spelled { IsErrOf result Unread.NotSpelled → (all : List spec.Argument) (rest : List Lexeme)
        → ReadsSome (lexemes tokens.now) all rest → ⊥ }
    ensures shorter { IfOk result (λ x. length x.1.now < length tokens.now) }
{
    let mut all = Vec::new(alloc);
    let (first, behind) = argument(alloc, tokens)?;
    add(&mut all, first)?;
    let mut rest = behind;
    while let Some(behind) = after_mark(rest, b",") {
        let (next, others) = argument(alloc, behind)?;
        add(&mut all, next)?;
        rest = others;
    }
    let Some(end) = after_mark(rest, b")") else {
        return Err(Unread::NotSpelled);
    };
    Ok((all, end))
}

/// A parameter's name with its sizes or its block, and the tokens behind it.
fn argument(alloc: Global, tokens: &[Token]) -> Result<(Argument, &[Token]), Unread>
    ensures ok { IfOk result (λ x. ReadsArgument (lexemes tokens.now) (argument x.0) (lexemes x.1.now)) }
    ensures not_spelled { IsErrOf result Unread.NotSpelled → (a : spec.Argument) (rest : List Lexeme)
        → ReadsArgument (lexemes tokens.now) a rest → ⊥ }
    ensures shorter { IfOk result (λ x. length x.1.now < length tokens.now) }
{
    let (name, behind) = name(alloc, tokens)?;
    if let Some(inside) = after_mark(behind, b"{") {
        return block(alloc, name, inside);
    }
    let (dimensions, rest) = sizes(alloc, behind)?;
    Ok((Argument::Plain { name, dimensions }, rest))
}

/// The sizes in brackets, as long as they go on, and the tokens behind them.
fn sizes(alloc: Global, tokens: &[Token]) -> Result<(Vec<Expression>, &[Token]), Unread>
    ensures ok { IfOk result (λ x. ReadsSizes (lexemes tokens.now) (map expression x.0.items) (lexemes x.1.now)) }
    ensures not_spelled { IsErrOf result Unread.NotSpelled → (sizes : List spec.Expression) (rest : List Lexeme)
        → ReadsSizes (lexemes tokens.now) sizes rest → ⊥ }
    ensures shorter { IfOk result (λ x. length x.1.now ≤ length tokens.now) }
{
    let mut all = Vec::new(alloc);
    let mut rest = tokens;
    while let Some(inside) = after_mark(rest, b"[") {
        let (size, behind) = closed(alloc, Scope::File, Level::Cond, b"]", inside)?;
        add(&mut all, size)?;
        rest = behind;
    }
    Ok((all, rest))
}

/// The block of a parameter of this name behind its opening brace, and the tokens behind the closing one.
fn block(alloc: Global, name: Bytes, tokens: &[Token]) -> Result<(Argument, &[Token]), Unread>
    ensures ok { IfOk result (λ x. ReadsBlock name (lexemes tokens.now) (argument x.0) (lexemes x.1.now)) }
    ensures not_spelled { IsErrOf result Unread.NotSpelled → (rows width stride : spec.Expression) (rest : List Lexeme)
        → ReadsThree (lexemes tokens.now) rows width stride rest → ⊥ }
    ensures shorter { IfOk result (λ x. length x.1.now < length tokens.now) }
{
    let (rows, second) = closed(alloc, Scope::File, Level::Cond, b",", tokens)?;
    let (width, third) = closed(alloc, Scope::File, Level::Cond, b",", second)?;
    let (stride, rest) = closed(alloc, Scope::File, Level::Cond, b"}", third)?;
    Ok((
        Argument::Strided {
            name,
            rows,
            width,
            stride,
        },
        rest,
    ))
}
