//! What stands between a function's parentheses (C99 6.7.5.3).
ghost use Rattle.std.specs.Prelude.{◌≡◌, ℕ, ◌≤◌, List, ◌∷◌, Option, option_map, map, IfOk, IfErr, IfSome, IfNone, IsErrOf, ◌<◌, length};
ghost use Rattle.css_base.specs.Tokens.{Lexeme, lexemes};
ghost use Rattle.css_tree.specs.Syntax as spec;
ghost use Rattle.css_tree.specs.Shapes.{parameter, parameters};
ghost use Rattle.css_parse.specs.ItemReadings.{ReadsOptionalName, ReadsParameter, ReadsFurtherParameters, ReadsVoid, ReadsListed, ReadsParameters};

use crate::declaration::{dimensions, name};
use crate::fronts::{after_mark, after_word};
use crate::gather::add;
use crate::unspelled::Unspelled;
use crate::words::{specifiers, stars};
use css_base::{Bytes, Token};
use css_tree::{Parameter, Parameters, Scope};
use std::alloc::Global;

/// The parameters behind an opening parenthesis up to the one that closes it, and the tokens behind that.
pub(crate) fn parameters(
    alloc: Global,
    tokens: &[Token],
    levels: u32,
) -> Result<(Parameters, &[Token]), Unspelled>
    requires { levels ≤ 500 }
    ensures ok { IfOk result (λ x. ReadsParameters levels (lexemes tokens.now) (parameters x.0) (lexemes x.1.now)) }
    ensures not_spelled { IsErrOf result Unspelled.NotSpelled → (all : spec.Parameters) (rest : List Lexeme)
        → ReadsParameters levels (lexemes tokens.now) all rest → ⊥ }
    ensures shorter { IfOk result (λ x. length x.1.now < length tokens.now) }
{
    if let Some(rest) = after_mark(tokens, b")") {
        return Ok((Parameters::Empty, rest));
    }
    if let Some(rest) = after_void(tokens) {
        return Ok((Parameters::Void, rest));
    }
    let (all, rest) = listed(alloc, tokens, levels)?;
    Ok((Parameters::List(all), rest))
}

/// The tokens behind `void` and a closing parenthesis.
fn after_void(tokens: &[Token]) -> Option<&[Token]>
    ensures found { IfSome result (λ rest. ReadsVoid (lexemes tokens.now) (lexemes rest.now)) }
    ensures none { IfNone result ((rest : List Lexeme) → ReadsVoid (lexemes tokens.now) rest → ⊥) }
{
    let behind = after_word(tokens, b"void")?;
    after_mark(behind, b")")
}

/// One or more parameters and the closing parenthesis, and the tokens behind it.
fn listed(
    alloc: Global,
    tokens: &[Token],
    levels: u32,
) -> Result<(Vec<Parameter>, &[Token]), Unspelled>
    requires { levels ≤ 500 }
    ensures ok { IfOk result (λ x. ReadsListed levels (lexemes tokens.now) (map parameter x.0.items) (lexemes x.1.now)) }
    ensures not_spelled { IsErrOf result Unspelled.NotSpelled → (ps : List spec.Parameter) (rest : List Lexeme)
        → ReadsListed levels (lexemes tokens.now) ps rest → ⊥ }
    ensures shorter { IfOk result (λ x. length x.1.now < length tokens.now) }
{
    let mut all = Vec::new(alloc);
    let (first, behind) = parameter(alloc, tokens, levels)?;
    add(&mut all, first)?;
    let mut rest = behind;
    while let Some(behind) = after_mark(rest, b",") {
        let (next, others) = parameter(alloc, behind, levels)?;
        add(&mut all, next)?;
        rest = others;
    }
    let Some(end) = after_mark(rest, b")") else {
        return Err(Unspelled::NotSpelled);
    };
    Ok((all, end))
}

/// A parameter, and the tokens behind it.
fn parameter(
    alloc: Global,
    tokens: &[Token],
    levels: u32,
) -> Result<(Parameter, &[Token]), Unspelled>
    requires { levels ≤ 500 }
    ensures ok { IfOk result (λ x. ReadsParameter levels (lexemes tokens.now) (parameter x.0) (lexemes x.1.now)) }
    ensures not_spelled { IsErrOf result Unspelled.NotSpelled → (p : spec.Parameter) (rest : List Lexeme)
        → ReadsParameter levels (lexemes tokens.now) p rest → ⊥ }
    ensures shorter { IfOk result (λ x. length x.1.now ≤ length tokens.now) }
{
    let Some(first) = tokens.first() else {
        return Err(Unspelled::NotSpelled);
    };
    let (specifiers, behind) = specifiers(alloc, Scope::File, tokens)?;
    let (stars, middle) = stars(alloc, behind)?;
    let (name, next) = optional_name(alloc, middle)?;
    let (dimensions, rest) = dimensions(alloc, Scope::File, next, levels)?;
    Ok((
        Parameter {
            line: first.line,
            specifiers,
            stars,
            name,
            dimensions,
        },
        rest,
    ))
}

/// A name, or nothing, and the tokens behind it. The only error is `NoMemory`.
fn optional_name(alloc: Global, tokens: &[Token]) -> Result<(Option<Bytes>, &[Token]), Unspelled>
    ensures ok { IfOk result (λ x. ReadsOptionalName (lexemes tokens.now) x.0 (lexemes x.1.now)) }
    ensures no_memory { IfErr result (λ e. e ≡ Unspelled.NoMemory) }
    ensures shorter { IfOk result (λ x. length x.1.now ≤ length tokens.now) }
{
    match name(alloc, tokens) {
        Ok((name, rest)) => Ok((Some(name), rest)),
        Err(Unspelled::NotSpelled) => Ok((None, tokens)),
        Err(Unspelled::NoMemory) => Err(Unspelled::NoMemory),
    }
}
