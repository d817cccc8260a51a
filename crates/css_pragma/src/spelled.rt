//! Directives.
ghost use Rattle.std.specs.Prelude.{◌≡◌, ◌<◌, List, [], length, map, IfOk, IsErrOf};
ghost use Rattle.css_base.specs.Tokens.{Lexeme, lexemes};
ghost use Rattle.css_tree.specs.Syntax as spec;
ghost use Rattle.css_tree.specs.Shapes.{expression, clause, directive};
ghost use Rattle.css_pragma.specs.Readings.{ReadsAddresses, ReadsWait, ReadsTask, ReadsDirective};

use crate::clauses::{clauses, priorities};
use crate::expression::expression;
use crate::fronts::{after_mark, after_word, is_alone};
use crate::gather::add;
use crate::place::Place;
use crate::unread::Unread;
use css_base::{Line, Token};
use css_pexpr::Level;
use css_tree::{Clause, Directive, Expression, Scope};
use std::alloc::Global;

/// The directive of a place that the words are, with this line.
pub(crate) fn spelled(
    alloc: Global,
    words: &[Token],
    place: Place,
    line: Line,
) -> Result<Directive, Unread>
    ensures ok { IfOk result (λ d. ReadsDirective place line (lexemes words.now) (directive d)) }
    ensures not_spelled { IsErrOf result Unread.NotSpelled → (d : spec.Directive) → ReadsDirective place line (lexemes words.now) d → ⊥ }
{
    match place {
        Place::BeforeFunction => {
            let clauses = task(alloc, words)?;
            Ok(Directive::Task { line, clauses })
        }
        Place::InBlock => in_block(alloc, words, line),
    }
}

/// The directive of a block that the words are, with this line.
fn in_block(alloc: Global, words: &[Token], line: Line) -> Result<Directive, Unread>
    ensures ok { IfOk result (λ d. ReadsDirective Place.InBlock line (lexemes words.now) (directive d)) }
    ensures not_spelled { IsErrOf result Unread.NotSpelled → (d : spec.Directive)
        → ReadsDirective Place.InBlock line (lexemes words.now) d → ⊥ }
{
    if is_alone(words, b"start") {
        return Ok(Directive::Start { line });
    }
    if is_alone(words, b"finish") {
        return Ok(Directive::Finish { line });
    }
    if is_alone(words, b"barrier") {
        return Ok(Directive::Barrier { line });
    }
    let addresses = wait(alloc, words)?;
    Ok(Directive::Wait { line, addresses })
}

/// The clauses of a `task` that the words are.
fn task(alloc: Global, words: &[Token]) -> Result<Vec<Clause>, Unread>
    ensures ok { IfOk result (λ all. ReadsTask (lexemes words.now) (map clause all.items)) }
    ensures not_spelled { IsErrOf result Unread.NotSpelled → (all : List spec.Clause) → ReadsTask (lexemes words.now) all → ⊥ }
{
    let Some(rest) = after_word(words, b"task") else {
        return Err(Unread::NotSpelled);
    };
    let clauses = clauses(alloc, rest)?;
    if priorities(clauses.as_slice()) > 1 {
        return Err(Unread::NotSpelled);
    }
    Ok(clauses)
}

/// The addresses of a `wait` that the words are.
fn wait(alloc: Global, words: &[Token]) -> Result<Vec<Expression>, Unread>
    ensures ok { IfOk result (λ all. ReadsWait (lexemes words.now) (map expression all.items)) }
    ensures not_spelled { IsErrOf result Unread.NotSpelled → (all : List spec.Expression) → ReadsWait (lexemes words.now) all → ⊥ }
{
    let Some(first) = after_word(words, b"wait") else {
        return Err(Unread::NotSpelled);
    };
    let Some(second) = after_word(first, b"on") else {
        return Err(Unread::NotSpelled);
    };
    let Some(inside) = after_mark(second, b"(") else {
        return Err(Unread::NotSpelled);
    };
    let (addresses, rest) = addresses(alloc, inside)?;
    if !rest.is_empty() {
        return Err(Unread::NotSpelled);
    }
    Ok(addresses)
}

/// One or more addresses and the closing parenthesis, and the tokens behind it.
fn addresses(alloc: Global, tokens: &[Token]) -> Result<(Vec<Expression>, &[Token]), Unread>
    ensures ok { IfOk result (λ x. ReadsAddresses (lexemes tokens.now) (map expression x.0.items) (lexemes x.1.now)) }
    ensures not_spelled { IsErrOf result Unread.NotSpelled → (all : List spec.Expression) (rest : List Lexeme)
        → ReadsAddresses (lexemes tokens.now) all rest → ⊥ }
{
    let mut all = Vec::new(alloc);
    let (first, behind) = expression(alloc, Scope::Block, Level::Assign, tokens)?;
    add(&mut all, first)?;
    let mut rest = behind;
    while let Some(behind) = after_mark(rest, b",") {
        let (next, others) = expression(alloc, Scope::Block, Level::Assign, behind)?;
        add(&mut all, next)?;
        rest = others;
    }
    let Some(end) = after_mark(rest, b")") else {
        return Err(Unread::NotSpelled);
    };
    Ok((all, end))
}
