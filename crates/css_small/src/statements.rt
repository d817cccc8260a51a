//! Statements and directives of the small language.
ghost use Rattle.std.specs.Prelude.{◌≡◌, ◌++◌, ◌∷◌, [], Some, None, IfOk, IfErr, OnOk, IsErrOf};
ghost use Rattle.css_base.specs.Tokens.{lexemes};
ghost use Rattle.css_tree.specs.Shapes as shapes;
ghost use Rattle.css_small.specs.Tree.{statement, listed};
ghost use Rattle.css_small.specs.Trees.{statement_of, statements_of, entry_of, effect_of, assignment_of, call_of, address_of, mark_of, kinds_of, directive_of, directive_named};

use crate::expressions::{expression_of, names_parameter};
use crate::names::Names;
use crate::tree::{Directive, Statement};
use crate::tree_fault::TreeFault;
use css_base::{Line, Token, TokenKind};
use css_tree::{AssignOperator, Entry, Expression, Mark, UnaryOperator};
use std::alloc::Global;

/// The statement that this is. `NotSmall` comes only where it is none. It recurses as deep as the tree has levels.
#[cycle(statements)]
#[tactic(auto, using(crate::proofs::Boths::both_none))]
pub(crate) fn statement_of(
    alloc: Global,
    names: &Names,
    tree: &css_tree::Statement,
) -> Result<Statement, TreeFault>
    ensures ok { IfOk result (λ s. statement_of names.now (shapes.statement tree.now) ≡ Some (statement s)) }
    ensures not_small { IsErrOf result TreeFault.NotSmall → statement_of names.now (shapes.statement tree.now) ≡ None }
{
    match tree {
        css_tree::Statement::Block(block) => Ok(Statement::Block {
            line: block.line,
            statements: statements_of(alloc, names, block.entries.as_slice())?,
        }),
        css_tree::Statement::Expression { line, value: None } => Ok(Statement::Empty {
            line: *line,
        }),
        css_tree::Statement::Expression {
            line,
            value: Some(value),
        } => effect_of(alloc, names, *line, value),
        css_tree::Statement::If {
            line,
            condition,
            first,
            second: None,
        } => Ok(Statement::If {
            line: *line,
            body: boxed_of(alloc, names, first)?,
            condition: expression_of(alloc, names, condition)?,
        }),
        css_tree::Statement::If {
            line,
            condition,
            first,
            second: Some(second),
        } => Ok(Statement::IfElse {
            line: *line,
            body: boxed_of(alloc, names, first)?,
            other: boxed_of(alloc, names, second)?,
            condition: expression_of(alloc, names, condition)?,
        }),
        css_tree::Statement::While {
            line,
            condition,
            body,
        } => Ok(Statement::While {
            line: *line,
            body: boxed_of(alloc, names, body)?,
            condition: expression_of(alloc, names, condition)?,
        }),
        css_tree::Statement::Return {
            line,
            value: Some(value),
        } if names.is_in_main() => Ok(Statement::Return {
            line: *line,
            value: expression_of(alloc, names, value)?,
        }),
        _ => Err(TreeFault::NotSmall),
    }
}

/// The statement on the heap that this is.
#[cycle(statements)]
fn boxed_of(
    alloc: Global,
    names: &Names,
    tree: &css_tree::Statement,
) -> Result<Box<Statement>, TreeFault>
    ensures ok { IfOk result (λ s. statement_of names.now (shapes.statement tree.now) ≡ Some (statement s.value)) }
    ensures not_small { IsErrOf result TreeFault.NotSmall → statement_of names.now (shapes.statement tree.now) ≡ None }
{
    let inner = statement_of(alloc, names, tree)?;
    match Box::new(alloc, inner) {
        Ok(inner) => Ok(inner),
        Err(_) => Err(TreeFault::NoMemory),
    }
}

/// The statements and directives in a block.
#[cycle(statements)]
fn statements_of(
    alloc: Global,
    names: &Names,
    entries: &[Entry],
) -> Result<Vec<Statement>, TreeFault>
    ensures ok { IfOk result (λ all. statements_of names.now (shapes.listed_entries entries.now) ≡ Some (listed all.items)) }
    ensures not_small { IsErrOf result TreeFault.NotSmall → statements_of names.now (shapes.listed_entries entries.now) ≡ None }
{
    let mut all = Vec::new(alloc);
    for entry in entries {
        add(&mut all, entry_of(alloc, names, entry)?)?;
    }
    Ok(all)
}

/// The statement or directive that this entry of a block is.
#[cycle(statements)]
fn entry_of(alloc: Global, names: &Names, entry: &Entry) -> Result<Statement, TreeFault>
    ensures ok { IfOk result (λ s. entry_of names.now (shapes.entry entry.now) ≡ Some (statement s)) }
    ensures not_small { IsErrOf result TreeFault.NotSmall → entry_of names.now (shapes.entry entry.now) ≡ None }
{
    match entry {
        Entry::Statement(tree) => statement_of(alloc, names, tree),
        Entry::Directive(mark) => mark_of(names, mark),
        Entry::Declaration(_) => Err(TreeFault::NotSmall),
    }
}

/// Puts a statement behind others. The only error is `NoMemory`.
pub(crate) fn add(all: &mut Vec<Statement>, next: Statement) -> Result<(), TreeFault>
    ensures ok { OnOk result (all.new.items ≡ all.old.items ++ next ∷ []) }
    ensures no_memory { IfErr result (λ e. e ≡ TreeFault.NoMemory) }
{
    match all.push(next) {
        Ok(()) => Ok(()),
        Err(_) => Err(TreeFault::NoMemory),
    }
}

/// The statement that an expression is, with the statement's line.
fn effect_of(
    alloc: Global,
    names: &Names,
    line: Line,
    tree: &Expression,
) -> Result<Statement, TreeFault>
    ensures ok { IfOk result (λ s. effect_of names.now line (shapes.expression tree.now) ≡ Some (statement s)) }
    ensures not_small { IsErrOf result TreeFault.NotSmall → effect_of names.now line (shapes.expression tree.now) ≡ None }
{
    match tree {
        Expression::Assign {
            place,
            operator: AssignOperator::Assign,
            value,
            ..
        } => assignment_of(alloc, names, line, place, value),
        Expression::Call {
            name,
            arguments,
            ..
        } => {
            if arguments.len() != 1 {
                return Err(TreeFault::NotSmall);
            }
            call_of(alloc, names, line, name.as_slice(), &arguments[0])
        }
        _ => Err(TreeFault::NotSmall),
    }
}

/// An assignment to a variable or an element.
fn assignment_of(
    alloc: Global,
    names: &Names,
    line: Line,
    place: &Expression,
    value: &Expression,
) -> Result<Statement, TreeFault>
    ensures ok { IfOk result
        (λ s. assignment_of names.now line (shapes.expression place.now) (shapes.expression value.now) ≡ Some (statement s)) }
    ensures not_small { IsErrOf result TreeFault.NotSmall
        → assignment_of names.now line (shapes.expression place.now) (shapes.expression value.now) ≡ None }
{
    match place {
        Expression::Name { name, .. } => match names.variable_of(name.as_slice()) {
            Some(variable) => Ok(Statement::Assign {
                line,
                variable,
                value: expression_of(alloc, names, value)?,
            }),
            None => Err(TreeFault::NotSmall),
        },
        Expression::Index { array, index, .. } if names_parameter(names, array) => {
            Ok(Statement::AssignElement {
                line,
                index: expression_of(alloc, names, index)?,
                value: expression_of(alloc, names, value)?,
            })
        }
        _ => Err(TreeFault::NotSmall),
    }
}

/// A call with one argument.
fn call_of(
    alloc: Global,
    names: &Names,
    line: Line,
    name: &[u8],
    argument: &Expression,
) -> Result<Statement, TreeFault>
    ensures ok { IfOk result (λ s. call_of names.now line name.now (shapes.expression argument.now) ≡ Some (statement s)) }
    ensures not_small { IsErrOf result TreeFault.NotSmall → call_of names.now line name.now (shapes.expression argument.now) ≡ None }
{
    if name == b"putchar".as_slice() {
        if !names.is_in_main() {
            return Err(TreeFault::NotSmall);
        }
        return Ok(Statement::Put {
            line,
            value: expression_of(alloc, names, argument)?,
        });
    }
    match (names.function_of(name), address_of(names, argument)) {
        (Some(function), Some(variable)) => Ok(Statement::Call {
            line,
            function,
            variable,
        }),
        _ => Err(TreeFault::NotSmall),
    }
}

/// The variable whose address this is.
fn address_of(names: &Names, tree: &Expression) -> Option<u32>
    ensures { result ≡ address_of names.now (shapes.expression tree.now) }
{
    let Expression::Unary {
        operator: UnaryOperator::AddressOf,
        operand,
        ..
    } = tree
    else {
        return None;
    };
    match operand.as_ref() {
        Expression::Name { name, .. } => names.variable_of(name.as_slice()),
        _ => None,
    }
}

/// The directive that this is.
pub(crate) fn mark_of(names: &Names, mark: &Mark) -> Result<Statement, TreeFault>
    ensures ok { IfOk result (λ s. mark_of names.now (shapes.mark mark.now) ≡ Some (statement s)) }
    ensures not_small { IsErrOf result TreeFault.NotSmall → mark_of names.now (shapes.mark mark.now) ≡ None }
{
    match directive_of(mark.words.as_slice()) {
        Some(kind) if names.is_in_main() => Ok(Statement::Directive {
            line: mark.line,
            kind,
        }),
        _ => Err(TreeFault::NotSmall),
    }
}

/// The directive of main with these words.
fn directive_of(words: &[Token]) -> Option<Directive>
    ensures { result ≡ directive_of (kinds_of (shapes.in_row (lexemes words.now))) }
{
    let [only] = words else {
        return None;
    };
    match &only.kind {
        TokenKind::Word(word) => directive_named(word.as_slice()),
        _ => None,
    }
}

/// The directive of main with this word.
fn directive_named(word: &[u8]) -> Option<Directive>
    ensures { result ≡ directive_named word.now }
{
    if word == b"start".as_slice() {
        Some(Directive::Start)
    } else if word == b"finish".as_slice() {
        Some(Directive::Finish)
    } else if word == b"barrier".as_slice() {
        Some(Directive::Barrier)
    } else {
        None
    }
}
