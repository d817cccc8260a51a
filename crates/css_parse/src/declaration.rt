//! Declarations (C99 6.7).
ghost use Rattle.std.specs.Prelude.{◌≡◌, ℕ, ◌≤◌, ◌<◌, List, ◌∷◌, Option, map, IfOk, IsErrOf, option_map, length};
ghost use Rattle.css_base.specs.Tokens.{Lexeme, lexemes};
ghost use Rattle.css_tree.specs.Syntax as spec;
ghost use Rattle.css_tree.specs.TokenParts.{first_line};
ghost use Rattle.css_tree.specs.Shapes.{stars, dimensions, initialiser, declarator, declaration};
ghost use Rattle.css_parse.specs.Readings.{ReadsDimensions, ReadsName, ReadsHead, ReadsTail, ReadsDeclarator, ReadsFurtherDeclarators, ReadsDeclarators, ReadsDeclaration};

use crate::copies::copied_bytes;
use crate::expression::optional;
use crate::fronts::{after_mark, word_at};
use crate::gather::add;
use crate::initialiser::initial;
use crate::keyword::is_keyword;
use crate::unspelled::Unspelled;
use crate::words::{specifiers, stars};
use css_base::{Bytes, Line, Token};
use css_pexpr::Level;
use css_tree::{Declaration, Declarator, Expression, Initialiser, Scope, Star};
use std::alloc::Global;

/// What a declarator begins with.
#[derive(Drop)]
pub(crate) struct Head {
    pub stars: Vec<Star>,
    pub name: Bytes,
}

/// What stands in a declarator behind its name.
#[derive(Drop)]
pub(crate) struct Tail {
    pub dimensions: Vec<Option<Expression>>,
    pub initialiser: Option<Initialiser>,
}

/// A name, and the tokens behind it.
pub(crate) fn name(alloc: Global, tokens: &[Token]) -> Result<(Bytes, &[Token]), Unspelled>
    ensures ok { IfOk result (λ x. ReadsName (lexemes tokens.now) x.0 (lexemes x.1.now)) }
    ensures not_spelled { IsErrOf result Unspelled.NotSpelled → (name : List ℕ) (rest : List Lexeme)
        → ReadsName (lexemes tokens.now) name rest → ⊥ }
    ensures shorter { IfOk result (λ x. length x.1.now < length tokens.now) }
{
    let Some((word, rest)) = word_at(tokens) else {
        return Err(Unspelled::NotSpelled);
    };
    if is_keyword(word) {
        return Err(Unspelled::NotSpelled);
    }
    Ok((copied_bytes(alloc, word)?, rest))
}

/// Stars and a name, and the tokens behind them.
pub(crate) fn read_head(alloc: Global, tokens: &[Token]) -> Result<(Head, &[Token]), Unspelled>
    ensures ok { IfOk result (λ x. ReadsHead (lexemes tokens.now) (stars x.0.stars.items) x.0.name (lexemes x.1.now)) }
    ensures not_spelled { IsErrOf result Unspelled.NotSpelled → (all : spec.Stars) (name : List ℕ) (rest : List Lexeme)
        → ReadsHead (lexemes tokens.now) all name rest → ⊥ }
    ensures shorter { IfOk result (λ x. length x.1.now < length tokens.now) }
{
    let (stars, behind) = stars(alloc, tokens)?;
    let (name, rest) = name(alloc, behind)?;
    Ok((Head { stars, name }, rest))
}

/// The sizes in brackets, as long as they go on, and the tokens behind them.
pub(crate) fn dimensions(
    alloc: Global,
    scope: Scope,
    tokens: &[Token],
    levels: u32,
) -> Result<(Vec<Option<Expression>>, &[Token]), Unspelled>
    requires { levels ≤ 500 }
    ensures ok { IfOk result (λ x. ReadsDimensions scope levels (lexemes tokens.now) (dimensions x.0.items) (lexemes x.1.now)) }
    ensures not_spelled { IsErrOf result Unspelled.NotSpelled → (sizes : spec.Dimensions) (rest : List Lexeme)
        → ReadsDimensions scope levels (lexemes tokens.now) sizes rest → ⊥ }
    ensures shorter { IfOk result (λ x. length x.1.now ≤ length tokens.now) }
{
    let mut sizes = Vec::new(alloc);
    let mut rest = tokens;
    while let Some(inside) = after_mark(rest, b"[") {
        let (size, behind) = optional(alloc, scope, Level::Cond, b"]", inside, levels)?;
        add(&mut sizes, size)?;
        rest = behind;
    }
    Ok((sizes, rest))
}

/// What stands in a declarator behind its name, and the tokens behind it.
pub(crate) fn read_tail(
    alloc: Global,
    scope: Scope,
    tokens: &[Token],
    levels: u32,
) -> Result<(Tail, &[Token]), Unspelled>
    requires { levels ≤ 500 }
    ensures ok { IfOk result (λ x. ReadsTail scope levels (lexemes tokens.now) (dimensions x.0.dimensions.items)
        (option_map initialiser x.0.initialiser) (lexemes x.1.now)) }
    ensures not_spelled { IsErrOf result Unspelled.NotSpelled
        → (sizes : spec.Dimensions) (value : Option spec.Initialiser) (rest : List Lexeme)
        → ReadsTail scope levels (lexemes tokens.now) sizes value rest → ⊥ }
    ensures shorter { IfOk result (λ x. length x.1.now ≤ length tokens.now) }
{
    let (dimensions, behind) = dimensions(alloc, scope, tokens, levels)?;
    let (initialiser, rest) = initial(alloc, scope, behind, levels)?;
    Ok((
        Tail {
            dimensions,
            initialiser,
        },
        rest,
    ))
}

/// A declarator that was read up to its name, and the tokens behind it.
pub(crate) fn declarator_behind(
    alloc: Global,
    scope: Scope,
    line: Line,
    head: Head,
    tokens: &[Token],
    levels: u32,
) -> Result<(Declarator, &[Token]), Unspelled>
    requires { levels ≤ 500 }
    ensures ok { IfOk result (λ x. (ts : List Lexeme) → first_line ts ≡ line
        → ReadsHead ts (stars head.stars.items) head.name (lexemes tokens.now)
        → ReadsDeclarator scope levels ts (declarator x.0) (lexemes x.1.now)) }
    ensures tail { IfOk result (λ x. ReadsTail scope levels (lexemes tokens.now) (dimensions x.0.dimensions.items)
        (option_map initialiser x.0.initialiser) (lexemes x.1.now)) }
    ensures not_spelled { IsErrOf result Unspelled.NotSpelled
        → (sizes : spec.Dimensions) (value : Option spec.Initialiser) (rest : List Lexeme)
        → ReadsTail scope levels (lexemes tokens.now) sizes value rest → ⊥ }
    ensures shorter { IfOk result (λ x. length x.1.now ≤ length tokens.now) }
{
    let (tail, rest) = read_tail(alloc, scope, tokens, levels)?;
    let Head { stars, name } = head;
    let Tail {
        dimensions,
        initialiser,
    } = tail;
    Ok((
        Declarator {
            line,
            stars,
            name,
            dimensions,
            initialiser,
        },
        rest,
    ))
}

/// A declarator, and the tokens behind it.
fn declarator(
    alloc: Global,
    scope: Scope,
    tokens: &[Token],
    levels: u32,
) -> Result<(Declarator, &[Token]), Unspelled>
    requires { levels ≤ 500 }
    ensures ok { IfOk result (λ x. ReadsDeclarator scope levels (lexemes tokens.now) (declarator x.0) (lexemes x.1.now)) }
    ensures not_spelled { IsErrOf result Unspelled.NotSpelled → (d : spec.Declarator) (rest : List Lexeme)
        → ReadsDeclarator scope levels (lexemes tokens.now) d rest → ⊥ }
    ensures shorter { IfOk result (λ x. length x.1.now < length tokens.now) }
{
    let Some(first) = tokens.first() else {
        return Err(Unspelled::NotSpelled);
    };
    let (head, behind) = read_head(alloc, tokens)?;
    declarator_behind(alloc, scope, first.line, head, behind, levels)
}

/// The declarators behind the first one up to the semicolon, put behind it, and the tokens behind the semicolon.
pub(crate) fn further_declarators(
    alloc: Global,
    scope: Scope,
    first: Declarator,
    tokens: &[Token],
    levels: u32,
) -> Result<(Vec<Declarator>, &[Token]), Unspelled>
    requires { levels ≤ 500 }
    ensures ok { IfOk result (λ x. (ts : List Lexeme) → ReadsDeclarator scope levels ts (declarator first) (lexemes tokens.now)
        → ReadsDeclarators scope levels ts (map declarator x.0.items) (lexemes x.1.now)) }
    ensures not_spelled { IsErrOf result Unspelled.NotSpelled → (ds : List spec.Declarator) (rest : List Lexeme)
        → ReadsFurtherDeclarators scope levels (lexemes tokens.now) ds rest → ⊥ }
    ensures shorter { IfOk result (λ x. length x.1.now < length tokens.now) }
{
    let mut declarators = Vec::new(alloc);
    add(&mut declarators, first)?;
    let mut rest = tokens;
    while let Some(behind) = after_mark(rest, b",") {
        let (next, others) = declarator(alloc, scope, behind, levels)?;
        add(&mut declarators, next)?;
        rest = others;
    }
    let Some(end) = after_mark(rest, b";") else {
        return Err(Unspelled::NotSpelled);
    };
    Ok((declarators, end))
}

/// A declaration, and the tokens behind it. `NotSpelled` comes only where there is none of at most so many levels.
pub(crate) fn declaration(
    alloc: Global,
    scope: Scope,
    tokens: &[Token],
    levels: u32,
) -> Result<(Declaration, &[Token]), Unspelled>
    requires { levels ≤ 500 }
    ensures ok { IfOk result (λ x. ReadsDeclaration scope levels (lexemes tokens.now) (declaration x.0) (lexemes x.1.now)) }
    ensures not_spelled { IsErrOf result Unspelled.NotSpelled → (d : spec.Declaration) (rest : List Lexeme)
        → ReadsDeclaration scope levels (lexemes tokens.now) d rest → ⊥ }
    ensures shorter { IfOk result (λ x. length x.1.now < length tokens.now) }
{
    let Some(first) = tokens.first() else {
        return Err(Unspelled::NotSpelled);
    };
    if levels == 0 {
        return Err(Unspelled::NotSpelled);
    }
    let (specifiers, behind) = specifiers(alloc, scope, tokens)?;
    let (next, rest) = declarator(alloc, scope, behind, levels - 1)?;
    let (declarators, end) = further_declarators(alloc, scope, next, rest, levels - 1)?;
    Ok((
        Declaration {
            line: first.line,
            specifiers,
            declarators,
        },
        end,
    ))
}
