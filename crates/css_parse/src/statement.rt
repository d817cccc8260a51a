//! Statements and blocks (C99 6.8).
ghost use Rattle.std.specs.Prelude.{◌≡◌, ℕ, ◌-◌, ◌≤◌, ◌<◌, List, ◌∷◌, Option, None, option_map, IfOk, IsErrOf, IsTrue, ◌↔◌, length};
ghost use Rattle.css_base.specs.Tokens as directives;
ghost use Rattle.css_base.specs.Tokens.{Lexeme, Lexemes, kind_of, lexemes};
ghost use Rattle.css_tree.specs.declared.scope.Scope.TheVariants as scopes;
ghost use Rattle.css_pexpr.specs.declared.level.Level.TheVariants as grammar;
ghost use Rattle.css_tree.specs.Syntax as spec;
ghost use Rattle.css_tree.specs.TokenParts.{kind_at};
ghost use Rattle.css_tree.specs.Shapes.{expression, for_start, statement, mark, entry, listed_entries};
ghost use Rattle.css_parse.specs.Forms.{form_of};
ghost use Rattle.css_parse.specs.Words.{next_specifier};
ghost use Rattle.css_parse.specs.Readings.{ReadsOptional, ReadsForStart, ReadsForHead, ReadsForm, ReadsStatement, ReadsMark, ReadsEntry, ReadsEntries};

use crate::copies::copied_tokens;
use crate::declaration::declaration;
use crate::expression::{condition, optional};
use crate::form::{Form, form_of};
use crate::fronts::{after_mark, after_word};
use crate::gather::{add, boxed};
use crate::unspelled::Unspelled;
use crate::words::next_specifier;
use css_base::{Line, Token, TokenKind};
use css_pexpr::Level;
use css_tree::{Block, Entry, Expression, ForStart, Mark, Scope, Statement};
use std::alloc::Global;

/// The head of a `for` behind its keyword.
struct ForHead {
    start: ForStart,
    condition: Option<Expression>,
    step: Option<Expression>,
}

// By hand, so that a place that lets a head go is one call in its proof.
impl Drop for ForHead {
    fn drop(self) {
        let ForHead {
            start: _,
            condition: _,
            step: _,
        } = self;
    }
}

impl ForHead {
    /// The loop of this head and a body.
    fn into_loop(self, line: Line, body: Box<Statement>) -> Statement
        ensures { statement result ≡ spec.For line (for_start self.start) (option_map expression self.condition)
            (option_map expression self.step) (statement body.value) }
    {
        let ForHead {
            start,
            condition,
            step,
        } = self;
        Statement::For {
            line,
            start,
            condition,
            step,
            body,
        }
    }
}

/// An expression in a block that may be left out, up to this punctuator.
fn value<'a>(
    alloc: Global,
    close: &[u8],
    tokens: &'a [Token],
    levels: u32,
) -> Result<(Option<Expression>, &'a [Token]), Unspelled>
    requires { levels ≤ 500 }
    ensures ok { IfOk result (λ x. ReadsOptional scopes.Block grammar.Expr close.now levels (lexemes tokens.now)
        (option_map expression x.0) (lexemes x.1.now)) }
    ensures not_spelled { IsErrOf result Unspelled.NotSpelled → (value : Option spec.Expression) (rest : List Lexeme)
        → ReadsOptional scopes.Block grammar.Expr close.now levels (lexemes tokens.now) value rest → ⊥ }
    ensures shorter { IfOk result (λ x. length x.1.now < length tokens.now) }
{
    optional(alloc, Scope::Block, Level::Expr, close, tokens, levels)
}

/// A statement, and the tokens behind it. `NotSpelled` comes only where there is none of at most so many levels.
#[cycle(statements)]
pub(crate) fn statement(
    alloc: Global,
    tokens: &[Token],
    levels: u32,
) -> Result<(Statement, &[Token]), Unspelled>
    requires { levels ≤ 500 }
    ensures ok { IfOk result (λ x. ReadsStatement levels (lexemes tokens.now) (statement x.0) (lexemes x.1.now)) }
    ensures not_spelled { IsErrOf result Unspelled.NotSpelled → (s : spec.Statement) (rest : List Lexeme)
        → ReadsStatement levels (lexemes tokens.now) s rest → ⊥ }
    ensures shorter { IfOk result (λ x. length x.1.now < length tokens.now) }
{
    let Some((first, behind)) = tokens.split_first() else {
        return Err(Unspelled::NotSpelled);
    };
    if levels == 0 {
        return Err(Unspelled::NotSpelled);
    }
    let line = first.line;
    let Some(form) = form_of(&first.kind) else {
        let (value, rest) = value(alloc, b";", tokens, levels - 1)?;
        return Ok((Statement::Expression { line, value }, rest));
    };
    formed(alloc, form, line, behind, levels - 1)
}

/// A statement on the heap, and the tokens behind it.
#[cycle(statements)]
fn boxed_statement(
    alloc: Global,
    tokens: &[Token],
    levels: u32,
) -> Result<(Box<Statement>, &[Token]), Unspelled>
    requires { levels ≤ 500 }
    ensures ok { IfOk result (λ x. ReadsStatement levels (lexemes tokens.now) (statement x.0.value) (lexemes x.1.now)) }
    ensures not_spelled { IsErrOf result Unspelled.NotSpelled → (s : spec.Statement) (rest : List Lexeme)
        → ReadsStatement levels (lexemes tokens.now) s rest → ⊥ }
    ensures shorter { IfOk result (λ x. length x.1.now < length tokens.now) }
{
    let (inner, rest) = statement(alloc, tokens, levels)?;
    let body = boxed(alloc, inner)?;
    Ok((body, rest))
}

/// A statement of a form, behind its first token, and the tokens behind it.
#[cycle(statements)]
fn formed(
    alloc: Global,
    form: Form,
    line: Line,
    tokens: &[Token],
    levels: u32,
) -> Result<(Statement, &[Token]), Unspelled>
    requires { levels ≤ 500 }
    ensures ok { IfOk result (λ x. ReadsForm form levels line (lexemes tokens.now) (statement x.0) (lexemes x.1.now)) }
    ensures not_spelled { IsErrOf result Unspelled.NotSpelled → (s : spec.Statement) (rest : List Lexeme)
        → ReadsForm form levels line (lexemes tokens.now) s rest → ⊥ }
    ensures shorter { IfOk result (λ x. length x.1.now < length tokens.now) }
{
    match form {
        Form::Block => block(alloc, line, tokens, levels),
        Form::If => if_statement(alloc, line, tokens, levels),
        Form::While => while_statement(alloc, line, tokens, levels),
        Form::Do => do_statement(alloc, line, tokens, levels),
        Form::For => for_statement(alloc, line, tokens, levels),
        Form::Break => break_statement(line, tokens),
        Form::Continue => continue_statement(line, tokens),
        Form::Return => return_statement(alloc, line, tokens, levels),
    }
}

/// A block as a statement.
#[cycle(statements)]
fn block(
    alloc: Global,
    line: Line,
    tokens: &[Token],
    levels: u32,
) -> Result<(Statement, &[Token]), Unspelled>
    requires { levels ≤ 500 }
    ensures ok { IfOk result (λ x. ReadsForm Form.Block levels line (lexemes tokens.now) (statement x.0) (lexemes x.1.now)) }
    ensures not_spelled { IsErrOf result Unspelled.NotSpelled → (s : spec.Statement) (rest : List Lexeme)
        → ReadsForm Form.Block levels line (lexemes tokens.now) s rest → ⊥ }
    ensures shorter { IfOk result (λ x. length x.1.now < length tokens.now) }
{
    let (entries, rest) = entries(alloc, tokens, levels)?;
    Ok((Statement::Block(Block { line, entries }), rest))
}

/// An `if`, to which an `else` behind its statement belongs.
#[cycle(statements)]
fn if_statement(
    alloc: Global,
    line: Line,
    tokens: &[Token],
    levels: u32,
) -> Result<(Statement, &[Token]), Unspelled>
    requires { levels ≤ 500 }
    ensures ok { IfOk result (λ x. ReadsForm Form.If levels line (lexemes tokens.now) (statement x.0) (lexemes x.1.now)) }
    ensures not_spelled { IsErrOf result Unspelled.NotSpelled → (s : spec.Statement) (rest : List Lexeme)
        → ReadsForm Form.If levels line (lexemes tokens.now) s rest → ⊥ }
    ensures shorter { IfOk result (λ x. length x.1.now < length tokens.now) }
{
    let (condition, behind) = condition(alloc, tokens, levels)?;
    let (first, rest) = boxed_statement(alloc, behind, levels)?;
    let Some(next) = after_word(rest, b"else") else {
        return Ok((
            Statement::If {
                line,
                condition,
                first,
                second: None,
            },
            rest,
        ));
    };
    let (other, rest) = boxed_statement(alloc, next, levels)?;
    Ok((
        Statement::If {
            line,
            condition,
            first,
            second: Some(other),
        },
        rest,
    ))
}

#[cycle(statements)]
fn while_statement(
    alloc: Global,
    line: Line,
    tokens: &[Token],
    levels: u32,
) -> Result<(Statement, &[Token]), Unspelled>
    requires { levels ≤ 500 }
    ensures ok { IfOk result (λ x. ReadsForm Form.While levels line (lexemes tokens.now) (statement x.0) (lexemes x.1.now)) }
    ensures not_spelled { IsErrOf result Unspelled.NotSpelled → (s : spec.Statement) (rest : List Lexeme)
        → ReadsForm Form.While levels line (lexemes tokens.now) s rest → ⊥ }
    ensures shorter { IfOk result (λ x. length x.1.now < length tokens.now) }
{
    let (condition, behind) = condition(alloc, tokens, levels)?;
    let (body, rest) = boxed_statement(alloc, behind, levels)?;
    Ok((
        Statement::While {
            line,
            condition,
            body,
        },
        rest,
    ))
}

#[cycle(statements)]
fn do_statement(
    alloc: Global,
    line: Line,
    tokens: &[Token],
    levels: u32,
) -> Result<(Statement, &[Token]), Unspelled>
    requires { levels ≤ 500 }
    ensures ok { IfOk result (λ x. ReadsForm Form.Do levels line (lexemes tokens.now) (statement x.0) (lexemes x.1.now)) }
    ensures not_spelled { IsErrOf result Unspelled.NotSpelled → (s : spec.Statement) (rest : List Lexeme)
        → ReadsForm Form.Do levels line (lexemes tokens.now) s rest → ⊥ }
    ensures shorter { IfOk result (λ x. length x.1.now < length tokens.now) }
{
    let (body, behind) = boxed_statement(alloc, tokens, levels)?;
    let Some(next) = after_word(behind, b"while") else {
        return Err(Unspelled::NotSpelled);
    };
    let (condition, last) = condition(alloc, next, levels)?;
    let Some(rest) = after_mark(last, b";") else {
        return Err(Unspelled::NotSpelled);
    };
    Ok((
        Statement::Do {
            line,
            body,
            condition,
        },
        rest,
    ))
}

#[cycle(statements)]
fn for_statement(
    alloc: Global,
    line: Line,
    tokens: &[Token],
    levels: u32,
) -> Result<(Statement, &[Token]), Unspelled>
    requires { levels ≤ 500 }
    ensures ok { IfOk result (λ x. ReadsForm Form.For levels line (lexemes tokens.now) (statement x.0) (lexemes x.1.now)) }
    ensures not_spelled { IsErrOf result Unspelled.NotSpelled → (s : spec.Statement) (rest : List Lexeme)
        → ReadsForm Form.For levels line (lexemes tokens.now) s rest → ⊥ }
    ensures shorter { IfOk result (λ x. length x.1.now < length tokens.now) }
{
    let (head, behind) = for_head(alloc, tokens, levels)?;
    let (body, rest) = boxed_statement(alloc, behind, levels)?;
    Ok((head.into_loop(line, body), rest))
}

fn break_statement(line: Line, tokens: &[Token]) -> Result<(Statement, &[Token]), Unspelled>
    ensures ok { IfOk result (λ x. (levels : ℕ) → ReadsForm Form.Break levels line (lexemes tokens.now) (statement x.0) (lexemes x.1.now)) }
    ensures not_spelled { IsErrOf result Unspelled.NotSpelled → (levels : ℕ) (s : spec.Statement) (rest : List Lexeme)
        → ReadsForm Form.Break levels line (lexemes tokens.now) s rest → ⊥ }
    ensures shorter { IfOk result (λ x. length x.1.now < length tokens.now) }
{
    match after_mark(tokens, b";") {
        Some(rest) => Ok((Statement::Break { line }, rest)),
        None => Err(Unspelled::NotSpelled),
    }
}

fn continue_statement(line: Line, tokens: &[Token]) -> Result<(Statement, &[Token]), Unspelled>
    ensures ok { IfOk result (λ x. (levels : ℕ) → ReadsForm Form.Continue levels line (lexemes tokens.now) (statement x.0) (lexemes x.1.now)) }
    ensures not_spelled { IsErrOf result Unspelled.NotSpelled → (levels : ℕ) (s : spec.Statement) (rest : List Lexeme)
        → ReadsForm Form.Continue levels line (lexemes tokens.now) s rest → ⊥ }
    ensures shorter { IfOk result (λ x. length x.1.now < length tokens.now) }
{
    match after_mark(tokens, b";") {
        Some(rest) => Ok((Statement::Continue { line }, rest)),
        None => Err(Unspelled::NotSpelled),
    }
}

fn return_statement(
    alloc: Global,
    line: Line,
    tokens: &[Token],
    levels: u32,
) -> Result<(Statement, &[Token]), Unspelled>
    requires { levels ≤ 500 }
    ensures ok { IfOk result (λ x. ReadsForm Form.Return levels line (lexemes tokens.now) (statement x.0) (lexemes x.1.now)) }
    ensures not_spelled { IsErrOf result Unspelled.NotSpelled → (s : spec.Statement) (rest : List Lexeme)
        → ReadsForm Form.Return levels line (lexemes tokens.now) s rest → ⊥ }
    ensures shorter { IfOk result (λ x. length x.1.now < length tokens.now) }
{
    let (value, rest) = value(alloc, b";", tokens, levels)?;
    Ok((Statement::Return { line, value }, rest))
}

/// What stands in a `for`'s parentheses, and the tokens behind them.
fn for_head(alloc: Global, tokens: &[Token], levels: u32) -> Result<(ForHead, &[Token]), Unspelled>
    requires { levels ≤ 500 }
    ensures ok { IfOk result (λ x. ReadsForHead levels (lexemes tokens.now) (for_start x.0.start)
        (option_map expression x.0.condition) (option_map expression x.0.step) (lexemes x.1.now)) }
    ensures not_spelled { IsErrOf result Unspelled.NotSpelled
        → (start : spec.ForStart) (condition step : Option spec.Expression) (rest : List Lexeme)
        → ReadsForHead levels (lexemes tokens.now) start condition step rest → ⊥ }
    ensures shorter { IfOk result (λ x. length x.1.now < length tokens.now) }
{
    let Some(inside) = after_mark(tokens, b"(") else {
        return Err(Unspelled::NotSpelled);
    };
    let (start, second) = for_start(alloc, inside, levels)?;
    let (condition, third) = value(alloc, b";", second, levels)?;
    let (step, rest) = value(alloc, b")", third, levels)?;
    Ok((
        ForHead {
            start,
            condition,
            step,
        },
        rest,
    ))
}

/// What stands first in a `for`'s parentheses, with its semicolon, and the tokens behind it.
fn for_start(
    alloc: Global,
    tokens: &[Token],
    levels: u32,
) -> Result<(ForStart, &[Token]), Unspelled>
    requires { levels ≤ 500 }
    ensures ok { IfOk result (λ x. ReadsForStart levels (lexemes tokens.now) (for_start x.0) (lexemes x.1.now)) }
    ensures not_spelled { IsErrOf result Unspelled.NotSpelled → (start : spec.ForStart) (rest : List Lexeme)
        → ReadsForStart levels (lexemes tokens.now) start rest → ⊥ }
    ensures shorter { IfOk result (λ x. length x.1.now < length tokens.now) }
{
    if next_specifier(Scope::Block, tokens).is_some() {
        let (first, rest) = declaration(alloc, Scope::Block, tokens, levels)?;
        return Ok((ForStart::Declaration(first), rest));
    }
    let (first, rest) = value(alloc, b";", tokens, levels)?;
    Ok((ForStart::Expression(first), rest))
}

/// A directive, and the tokens behind it. `NotSpelled` comes only where none is next.
pub(crate) fn directive(alloc: Global, tokens: &[Token]) -> Result<(Mark, &[Token]), Unspelled>
    ensures ok { IfOk result (λ x. ReadsMark (lexemes tokens.now) (mark x.0) (lexemes x.1.now)) }
    ensures not_spelled { IsErrOf result Unspelled.NotSpelled → (m : spec.Mark) (rest : List Lexeme)
        → ReadsMark (lexemes tokens.now) m rest → ⊥ }
    ensures shorter { IfOk result (λ x. length x.1.now < length tokens.now) }
{
    let Some((first, rest)) = tokens.split_first() else {
        return Err(Unspelled::NotSpelled);
    };
    let TokenKind::Directive(words) = &first.kind else {
        return Err(Unspelled::NotSpelled);
    };
    let words = copied_tokens(alloc, words.as_slice())?;
    Ok((
        Mark {
            line: first.line,
            words,
        },
        rest,
    ))
}

/// What stands in a block, behind its brace, up to the brace that closes it, and the tokens behind that.
#[cycle(statements)]
pub(crate) fn entries(
    alloc: Global,
    tokens: &[Token],
    levels: u32,
) -> Result<(Vec<Entry>, &[Token]), Unspelled>
    requires { levels ≤ 500 }
    ensures ok { IfOk result (λ x. ReadsEntries levels (lexemes tokens.now) (listed_entries x.0.items) (lexemes x.1.now)) }
    ensures not_spelled { IsErrOf result Unspelled.NotSpelled → (entries : spec.Entries) (rest : List Lexeme)
        → ReadsEntries levels (lexemes tokens.now) entries rest → ⊥ }
    ensures shorter { IfOk result (λ x. length x.1.now < length tokens.now) }
{
    let mut entries = Vec::new(alloc);
    let mut rest = tokens;
    loop {
        if let Some(end) = after_mark(rest, b"}") {
            return Ok((entries, end));
        }
        let (next, others) = entry(alloc, rest, levels)?;
        add(&mut entries, next)?;
        rest = others;
    }
}

/// A declaration, directive or statement, and the tokens behind it.
#[cycle(statements)]
fn entry(alloc: Global, tokens: &[Token], levels: u32) -> Result<(Entry, &[Token]), Unspelled>
    requires { levels ≤ 500 }
    ensures ok { IfOk result (λ x. ReadsEntry levels (lexemes tokens.now) (entry x.0) (lexemes x.1.now)) }
    ensures not_spelled { IsErrOf result Unspelled.NotSpelled → (e : spec.Entry) (rest : List Lexeme)
        → ReadsEntry levels (lexemes tokens.now) e rest → ⊥ }
    ensures shorter { IfOk result (λ x. length x.1.now < length tokens.now) }
{
    if is_directive(tokens) {
        let (mark, rest) = directive(alloc, tokens)?;
        return Ok((Entry::Directive(mark), rest));
    }
    if next_specifier(Scope::Block, tokens).is_some() {
        let (next, rest) = declaration(alloc, Scope::Block, tokens, levels)?;
        return Ok((Entry::Declaration(next), rest));
    }
    let (next, rest) = statement(alloc, tokens, levels)?;
    Ok((Entry::Statement(next), rest))
}

/// Whether a directive is next.
pub(crate) fn is_directive(tokens: &[Token]) -> bool
    ensures { IsTrue result ↔ ((m : spec.Mark) × (rest : List Lexeme) × ReadsMark (lexemes tokens.now) m rest) }
{
    match tokens.split_first() {
        Some((first, _)) => is_directive_kind(&first.kind),
        None => false,
    }
}

/// Whether a token is a directive.
fn is_directive_kind(kind: &TokenKind) -> bool
    ensures { IsTrue result ↔ ((words : Lexemes) × (kind_of kind.now ≡ directives.Directive words)) }
{
    match kind {
        TokenKind::Word(_) => false,
        TokenKind::Number { .. } => false,
        TokenKind::Character(_) => false,
        TokenKind::Text(_) => false,
        TokenKind::Punctuator(_) => false,
        TokenKind::Directive(_) => true,
    }
}
