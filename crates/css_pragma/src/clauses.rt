//! The clauses of a task.
ghost use Rattle.std.specs.Prelude.{◌≡◌, ◌<◌, List, length, map, IfOk, IfSome, IfNone, IsErrOf};
ghost use Rattle.std.specs.List.{count_by};
ghost use Rattle.css_base.specs.Tokens.{Word, Lexeme, lexemes};
ghost use Rattle.css_base.specs.declared.direction.Direction as declared;
ghost use Rattle.css_tree.specs.Syntax as spec;
ghost use Rattle.css_tree.specs.Shapes as shapes;
ghost use Rattle.css_parse.specs.Fronts.{Next};
ghost use Rattle.css_pragma.specs.Directives.{direction_text, is_priority};
ghost use Rattle.css_pragma.specs.Readings.{ReadsClause, ReadsClauses};

use crate::arguments::arguments;
use crate::fronts::{after_mark, after_word};
use crate::gather::add;
use crate::unread::Unread;
use css_base::{Direction, Token};
use css_tree::Clause;
use std::alloc::Global;

/// The clauses that the tokens are.
pub(crate) fn clauses(alloc: Global, tokens: &[Token]) -> Result<Vec<Clause>, Unread>
    ensures ok { IfOk result (λ all. ReadsClauses (lexemes tokens.now) (map shapes.clause all.items)) }
    ensures not_spelled { IsErrOf result Unread.NotSpelled → (all : List spec.Clause) → ReadsClauses (lexemes tokens.now) all → ⊥ }
{
    let mut all = Vec::new(alloc);
    let mut rest = tokens;
    while !rest.is_empty() {
        let (next, behind) = clause(alloc, rest)?;
        add(&mut all, next)?;
        rest = behind;
    }
    Ok(all)
}

/// How many of the clauses are `highpriority`.
pub(crate) fn priorities(clauses: &[Clause]) -> usize
    ensures { result ≡ count_by (λ c. is_priority (shapes.clause c)) clauses.now }
{
    let mut count = 0;
    for clause in clauses {
        if is_priority(clause) {
            count += 1;
        }
    }
    count
}

/// Whether the clause is `highpriority`.
fn is_priority(clause: &Clause) -> bool
    ensures { result ≡ is_priority (shapes.clause clause.now) }
{
    match clause {
        Clause::HighPriority => true,
        Clause::Arguments { .. } => false,
    }
}

/// A clause, and the tokens behind it.
fn clause(alloc: Global, tokens: &[Token]) -> Result<(Clause, &[Token]), Unread>
    ensures ok { IfOk result (λ x. ReadsClause (lexemes tokens.now) (shapes.clause x.0) (lexemes x.1.now)) }
    ensures not_spelled { IsErrOf result Unread.NotSpelled → (c : spec.Clause) (rest : List Lexeme)
        → ReadsClause (lexemes tokens.now) c rest → ⊥ }
    ensures shorter { IfOk result (λ x. length x.1.now < length tokens.now) }
{
    if let Some(rest) = after_word(tokens, b"highpriority") {
        return Ok((Clause::HighPriority, rest));
    }
    let Some((direction, behind)) = direction(tokens) else {
        return Err(Unread::NotSpelled);
    };
    let Some(inside) = after_mark(behind, b"(") else {
        return Err(Unread::NotSpelled);
    };
    let (arguments, rest) = arguments(alloc, inside)?;
    Ok((
        Clause::Arguments {
            direction,
            arguments,
        },
        rest,
    ))
}

/// The direction of a clause by its word, and the tokens behind it.
fn direction(tokens: &[Token]) -> Option<(Direction, &[Token])>
    ensures found { IfSome result (λ x. Next (Word (direction_text x.0)) (lexemes tokens.now) (lexemes x.1.now)) }
    ensures shorter { IfSome result (λ x. length x.1.now < length tokens.now) }
    ensures none { IfNone result ((d : declared.Direction) (rest : List Lexeme)
        → Next (Word (direction_text d)) (lexemes tokens.now) rest → ⊥) }
{
    if let Some(rest) = after_word(tokens, b"input") {
        return Some((Direction::In, rest));
    }
    if let Some(rest) = after_word(tokens, b"output") {
        return Some((Direction::Out, rest));
    }
    let rest = after_word(tokens, b"inout")?;
    Some((Direction::InOut, rest))
}
