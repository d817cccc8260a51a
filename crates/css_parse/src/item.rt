//! Functions and objects outside blocks (C99 6.9).
ghost use Rattle.std.specs.Prelude.{◌≡◌, ℕ, ◌≤◌, ◌<◌, ◌+◌, ◌-◌, codes, List, ◌∷◌, Option, option_map, map, IfOk, IfErr, IsErrOf, length};
ghost use Rattle.css_base.specs.Tokens.{Punctuator, Lexeme, lexemes};
ghost use Rattle.css_tree.specs.Syntax as spec;
ghost use Rattle.css_tree.specs.declared.scope.Scope.TheVariants as scopes;
ghost use Rattle.css_tree.specs.declared.words.Specifier as specs;
ghost use Rattle.css_tree.specs.TokenParts.{last_line};
ghost use Rattle.css_tree.specs.Shapes.{stars, mark, body, item};
ghost use Rattle.css_parse.specs.Fronts.{Next};
ghost use Rattle.css_parse.specs.Readings.{ReadsTail, ReadsFurtherDeclarators};
ghost use Rattle.css_parse.specs.ItemReadings.{ReadsParameters, ReadsBody, ReadsOptionalMark, ReadsFront, read, ReadsItem};

use crate::declaration::{Head, declarator_behind, further_declarators, read_head};
use crate::fronts::after_mark;
use crate::parameters::parameters;
use crate::statement::{directive, entries, is_directive};
use crate::unspelled::Unspelled;
use crate::words::specifiers;
use css_base::{Line, Token};
use css_tree::{Block, Declaration, Item, Mark, Scope, Specifier};
use std::alloc::Global;

/// An item's words up to its name.
#[derive(Drop)]
struct Front {
    line: Line,
    /// The line of the token behind the specifiers.
    declared: Line,
    specifiers: Vec<Specifier>,
    head: Head,
}

/// An item, and the tokens behind it. `NotSpelled` comes only where there is none of at most so many levels.
pub(crate) fn item(
    alloc: Global,
    tokens: &[Token],
    levels: u32,
) -> Result<(Item, &[Token]), Unspelled>
    requires { levels ≤ 500 }
    ensures ok { IfOk result (λ x. ReadsItem levels (lexemes tokens.now) (item x.0) (lexemes x.1.now)) }
    ensures not_spelled { IsErrOf result Unspelled.NotSpelled → (i : spec.Item) (rest : List Lexeme)
        → ReadsItem levels (lexemes tokens.now) i rest → ⊥ }
    ensures shorter { IfOk result (λ x. length x.1.now < length tokens.now) }
{
    if levels == 0 {
        return Err(Unspelled::NotSpelled);
    }
    let (mark, start) = optional_mark(alloc, tokens)?;
    let (front, behind) = read_front(alloc, start)?;
    if let Some(inside) = after_mark(behind, b"(") {
        return function(alloc, mark, front, inside, levels - 1);
    }
    if mark.is_some() {
        return Err(Unspelled::NotSpelled);
    }
    objects(alloc, front, behind, levels - 1)
}

/// A directive, or nothing, and the tokens behind it. The only error is `NoMemory`.
fn optional_mark(alloc: Global, tokens: &[Token]) -> Result<(Option<Mark>, &[Token]), Unspelled>
    ensures ok { IfOk result (λ x. ReadsOptionalMark (lexemes tokens.now) (option_map mark x.0) (lexemes x.1.now)) }
    ensures no_memory { IfErr result (λ e. e ≡ Unspelled.NoMemory) }
    ensures shorter { IfOk result (λ x. length x.1.now ≤ length tokens.now) }
{
    if !is_directive(tokens) {
        return Ok((None, tokens));
    }
    let (mark, rest) = directive(alloc, tokens)?;
    Ok((Some(mark), rest))
}

/// The words of an item up to its name, and the tokens behind them.
fn read_front(alloc: Global, tokens: &[Token]) -> Result<(Front, &[Token]), Unspelled>
    ensures ok { IfOk result (λ x. ReadsFront (lexemes tokens.now) x.0.line x.0.declared x.0.specifiers.items
        (stars x.0.head.stars.items) x.0.head.name (lexemes x.1.now)) }
    ensures not_spelled { IsErrOf result Unspelled.NotSpelled
        → (line declared : ℕ) (words : List specs.Specifier) (all : spec.Stars) (name : List ℕ) (rest : List Lexeme)
        → ReadsFront (lexemes tokens.now) line declared words all name rest → ⊥ }
    ensures shorter { IfOk result (λ x. length x.1.now < length tokens.now) }
{
    let Some(first) = tokens.first() else {
        return Err(Unspelled::NotSpelled);
    };
    let (specifiers, behind) = specifiers(alloc, Scope::File, tokens)?;
    let Some(next) = behind.first() else {
        return Err(Unspelled::NotSpelled);
    };
    let (head, rest) = read_head(alloc, behind)?;
    Ok((
        Front {
            line: first.line,
            declared: next.line,
            specifiers,
            head,
        },
        rest,
    ))
}

/// A function behind its opening parenthesis, and the tokens behind it.
fn function(
    alloc: Global,
    directive: Option<Mark>,
    front: Front,
    tokens: &[Token],
    levels: u32,
) -> Result<(Item, &[Token]), Unspelled>
    requires { levels ≤ 499 }
    ensures ok { IfOk result (λ x. (ts start behind : List Lexeme) → ReadsOptionalMark ts (option_map mark directive) start
        → ReadsFront start front.line front.declared front.specifiers.items (stars front.head.stars.items) front.head.name behind
        → Next (Punctuator (codes "(")) behind (lexemes tokens.now)
        → ReadsItem (levels + 1) ts (item x.0) (lexemes x.1.now)) }
    ensures not_spelled { IsErrOf result Unspelled.NotSpelled
        → (all : spec.Parameters) (block : Option spec.Body) (next rest : List Lexeme)
        → ReadsParameters levels (lexemes tokens.now) all next → ReadsBody levels next block rest → ⊥ }
    ensures shorter { IfOk result (λ x. length x.1.now < length tokens.now) }
{
    let (parameters, next) = parameters(alloc, tokens, levels)?;
    let (body, rest) = body(alloc, next, levels)?;
    let Front {
        line,
        specifiers,
        head,
        ..
    } = front;
    let Head { stars, name } = head;
    Ok((
        Item::Function {
            directive,
            line,
            end: end_line(tokens, rest),
            specifiers,
            stars,
            name,
            parameters,
            body,
        },
        rest,
    ))
}

/// The line of the last of the tokens that were read, where the rest follows.
fn end_line(tokens: &[Token], rest: &[Token]) -> Line
    requires { length rest.now < length tokens.now }
    ensures { result ≡ last_line (read (lexemes tokens.now) (lexemes rest.now)) }
{
    tokens[tokens.len() - rest.len() - 1].line
}

/// A function's block, or a semicolon, and the tokens behind it.
fn body(
    alloc: Global,
    tokens: &[Token],
    levels: u32,
) -> Result<(Option<Block>, &[Token]), Unspelled>
    requires { levels ≤ 500 }
    ensures ok { IfOk result (λ x. ReadsBody levels (lexemes tokens.now) (option_map body x.0) (lexemes x.1.now)) }
    ensures not_spelled { IsErrOf result Unspelled.NotSpelled → (block : Option spec.Body) (rest : List Lexeme)
        → ReadsBody levels (lexemes tokens.now) block rest → ⊥ }
    ensures shorter { IfOk result (λ x. length x.1.now < length tokens.now) }
{
    if let Some(rest) = after_mark(tokens, b";") {
        return Ok((None, rest));
    }
    let Some(first) = tokens.first() else {
        return Err(Unspelled::NotSpelled);
    };
    let Some(inside) = after_mark(tokens, b"{") else {
        return Err(Unspelled::NotSpelled);
    };
    if levels == 0 {
        return Err(Unspelled::NotSpelled);
    }
    let line = first.line;
    let (entries, rest) = entries(alloc, inside, levels - 1)?;
    Ok((Some(Block { line, entries }), rest))
}

/// A declaration of objects behind its first name, and the tokens behind it.
fn objects(
    alloc: Global,
    front: Front,
    tokens: &[Token],
    levels: u32,
) -> Result<(Item, &[Token]), Unspelled>
    requires { levels ≤ 499 }
    ensures ok { IfOk result (λ x. (ts : List Lexeme)
        → ReadsFront ts front.line front.declared front.specifiers.items (stars front.head.stars.items) front.head.name (lexemes tokens.now)
        → ReadsItem (levels + 1) ts (item x.0) (lexemes x.1.now)) }
    ensures not_spelled { IsErrOf result Unspelled.NotSpelled → (sizes : spec.Dimensions) (value : Option spec.Initialiser)
        (next : List Lexeme) (ds : List spec.Declarator) (rest : List Lexeme) → 0 < levels
        → ReadsTail scopes.File (levels - 1) (lexemes tokens.now) sizes value next → ReadsFurtherDeclarators scopes.File (levels - 1) next ds rest → ⊥ }
    ensures shorter { IfOk result (λ x. length x.1.now < length tokens.now) }
{
    if levels == 0 {
        return Err(Unspelled::NotSpelled);
    }
    let Front {
        line,
        declared,
        specifiers,
        head,
    } = front;
    let (first, rest) = declarator_behind(alloc, Scope::File, declared, head, tokens, levels - 1)?;
    let (declarators, end) = further_declarators(alloc, Scope::File, first, rest, levels - 1)?;
    Ok((
        Item::Declaration(Declaration {
            line,
            specifiers,
            declarators,
        }),
        end,
    ))
}
