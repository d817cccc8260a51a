//! The longest expression.
ghost use Rattle.std.specs.Prelude.{◌≡◌, ◌<◌, List, drop, IfOk, IfErr, IfSome, IfNone};
ghost use Rattle.css_base.specs.Tokens.{Lexeme, lexemes};
ghost use Rattle.css_tree.specs.Syntax as spec;
ghost use Rattle.css_tree.specs.Shapes.{expression};
ghost use Rattle.css_tree.specs.Heights.{height};
ghost use Rattle.css_pexpr.specs.Longest.{IsLongest, IsRead, IfNotRead, IsPart, line_at};

use crate::level::Level;
use crate::manner::Manner;
use crate::scan::{build, longest};
use css_base::{FrontFault, Line, NoMemory, StaticFault, StaticName, Token, Tokens};
use css_tree::{Expression, Scope};
use std::alloc::Global;

/// The most levels of an expression.
const MOST_LEVELS: u32 = 500;

/// The longest expression that the tokens from a place on spell, outside blocks, and the place behind it. `Static` is S5
/// Syntax with the line of the token at the place, or 1 where there is none; it comes exactly where no expression is spelled
/// or the longest one has more than 500 levels.
pub fn parse_expression(
    alloc: Global,
    tokens: &Tokens,
    from: usize,
) -> Result<(Expression, usize), FrontFault>
    ensures ok { IfOk result (λ x. IsRead Scope.File Level.Expr (lexemes tokens.now.items) from (expression x.0) x.1) }
    ensures refused { IfErr result (IfNotRead Scope.File Level.Expr (drop from (lexemes tokens.now.items))) }
{
    parse_part(alloc, Scope::File, Level::Expr, tokens.as_slice(), from)
}

/// The longest expression of a level that the tokens from a place on spell, in a scope, and the place behind it. The faults
/// are those of `parse_expression`.
pub fn parse_part(
    alloc: Global,
    scope: Scope,
    level: Level,
    tokens: &[Token],
    from: usize,
) -> Result<(Expression, usize), FrontFault>
    ensures ok { IfOk result (λ x. IsRead scope level (lexemes tokens.now) from (expression x.0) x.1) }
    ensures refused { IfErr result (IfNotRead scope level (drop from (lexemes tokens.now))) }
{
    let start = from.min(tokens.len());
    let (tree, count) = front(alloc, scope, level, &tokens[start..])?;
    Ok((tree, start + count))
}

/// The longest expression at the front, and how many tokens it has.
fn front(
    alloc: Global,
    scope: Scope,
    level: Level,
    tokens: &[Token],
) -> Result<(Expression, usize), FrontFault>
    ensures ok { IfOk result (λ x. IsPart scope level (lexemes tokens.now) (expression x.0) x.1) }
    ensures refused { IfErr result (IfNotRead scope level (lexemes tokens.now)) }
{
    match found(alloc, scope, level, tokens) {
        Ok(Some(part)) => Ok(part),
        Ok(None) => Err(syntax(tokens)),
        Err(_) => Err(FrontFault::NoMemory),
    }
}

/// The longest expression at the front and how many tokens it has, if there is one and it has at most 500 levels.
fn found(
    alloc: Global,
    scope: Scope,
    level: Level,
    tokens: &[Token],
) -> Result<Option<(Expression, usize)>, NoMemory>
    ensures some { IfOk result (λ o. IfSome o (λ x. IsPart scope level (lexemes tokens.now) (expression x.0) x.1)) }
    ensures none { IfOk result (λ o. IfNone o ((e : spec.Expression) (rest : List Lexeme) → IsLongest scope level (lexemes tokens.now) e rest → 500 < height e)) }
{
    let rank = level.number();
    let Some(count) = longest(
        alloc,
        Manner {
            scope,
            level: rank,
            most: 0,
        },
        tokens,
    )?
    else {
        return Ok(None);
    };
    let front = &tokens[..count];
    let Some(tree) = build(
        alloc,
        Manner {
            scope,
            level: rank,
            most: MOST_LEVELS,
        },
        front,
    )?
    else {
        return Ok(None);
    };
    Ok(Some((tree, count)))
}

/// S5 Syntax with the line of the first token, or 1 where there is none.
fn syntax(tokens: &[Token]) -> FrontFault
    ensures { result ≡ FrontFault.Static (record { name = StaticName.Syntax; line = line_at (lexemes tokens.now) }) }
{
    let line = match tokens.first() {
        Some(token) => token.line,
        None => Line::new(1),
    };
    FrontFault::Static(StaticFault {
        name: StaticName::Syntax,
        line,
    })
}
