//! Bodies of functions, with their declarations.
ghost use Rattle.std.specs.Prelude.{◌≡◌, ◌-◌, length, Some, None, IfOk, IfSome, IfNone, IsErrOf};
ghost use Rattle.css_tree.specs.Shapes as shapes;
ghost use Rattle.css_small.specs.Tree.{statement, listed};
ghost use Rattle.css_small.specs.Names.{with_object};
ghost use Rattle.css_small.specs.Trees.{item_of, items_of, behind, behind_all, declared, is_int, variable};

use crate::expressions::expression_of;
use crate::names::Names;
use crate::statements::{add, mark_of, statement_of};
use crate::tree::Statement;
use crate::tree_fault::TreeFault;
use css_base::Line;
use css_tree::{Block, Declaration, Declarator, Entry, Initialiser, Specifier};
use std::alloc::Global;

/// A function's body, and how many variables are declared in it.
#[derive(Drop)]
pub(crate) struct Body {
    pub statements: Vec<Statement>,
    pub variables: u32,
}

/// The body that this block is, of a function in which these may be named at the front. `NotSmall` comes only where it is none.
pub(crate) fn body_of(alloc: Global, mut names: Names, block: &Block) -> Result<Body, TreeFault>
    ensures ok { IfOk result (λ b. items_of names (shapes.body block.now).entries ≡ Some (listed b.statements.items)) }
    ensures variables { IfOk result
        (λ b. b.variables ≡ length (behind_all names (shapes.body block.now).entries).objects - names.parameters) }
    ensures not_small { IsErrOf result TreeFault.NotSmall → items_of names (shapes.body block.now).entries ≡ None }
{
    let statements = items_of(alloc, &mut names, block.entries.as_slice())?;
    Ok(Body {
        statements,
        variables: names.variables(),
    })
}

/// The statements, directives and declarations that these entries of a function's body are.
fn items_of(
    alloc: Global,
    names: &mut Names,
    entries: &[Entry],
) -> Result<Vec<Statement>, TreeFault>
    ensures ok { IfOk result (λ all. items_of names.old (shapes.listed_entries entries.now) ≡ Some (listed all.items)) }
    ensures behind { IfOk result (λ all. names.new ≡ behind_all names.old (shapes.listed_entries entries.now)) }
    ensures not_small { IsErrOf result TreeFault.NotSmall → items_of names.old (shapes.listed_entries entries.now) ≡ None }
{
    let mut all = Vec::new(alloc);
    for entry in entries {
        add(&mut all, item_of(alloc, names, entry)?)?;
    }
    Ok(all)
}

/// The statement, directive or declaration that this entry of a function's body is.
fn item_of(alloc: Global, names: &mut Names, entry: &Entry) -> Result<Statement, TreeFault>
    ensures ok { IfOk result (λ s. item_of names.old (shapes.entry entry.now) ≡ Some (statement s)) }
    ensures behind { IfOk result (λ s. names.new ≡ behind names.old (shapes.entry entry.now)) }
    ensures not_small { IsErrOf result TreeFault.NotSmall → item_of names.old (shapes.entry entry.now) ≡ None }
{
    match entry {
        Entry::Statement(tree) => statement_of(alloc, names, tree),
        Entry::Directive(mark) => mark_of(names, mark),
        Entry::Declaration(declaration) => match declared(declaration) {
            Some(declarator) => variable(alloc, names, declaration.line, declarator),
            None => Err(TreeFault::NotSmall),
        },
    }
}

/// The one name that is declared as an int.
fn declared(declaration: &Declaration) -> Option<&Declarator>
    ensures some { IfSome result (λ d. declared (shapes.declaration declaration.now) ≡ Some (shapes.declarator d.now)) }
    ensures none { IfNone result (declared (shapes.declaration declaration.now) ≡ None) }
{
    if !is_int(declaration.specifiers.as_slice()) {
        return None;
    }
    match declaration.declarators.as_slice() {
        [only] if only.stars.is_empty() && only.dimensions.is_empty() => Some(only),
        _ => None,
    }
}

/// Whether the words are `int` alone.
pub(crate) fn is_int(words: &[Specifier]) -> bool
    ensures { result ≡ is_int words.now }
{
    matches!(words, [Specifier::Int])
}

/// The declaration of a variable, which may be named from its own value on.
fn variable(
    alloc: Global,
    names: &mut Names,
    line: Line,
    declarator: &Declarator,
) -> Result<Statement, TreeFault>
    ensures ok { IfOk result (λ s. variable names.old line (shapes.declarator declarator.now) ≡ Some (statement s)) }
    ensures behind { IfOk result (λ s. names.new ≡ with_object names.old declarator.now.name) }
    ensures not_small { IsErrOf result TreeFault.NotSmall → variable names.old line (shapes.declarator declarator.now) ≡ None }
{
    let number = names.declare(alloc, declarator.name.as_slice())?;
    match &declarator.initialiser {
        None => Ok(Statement::Declare {
            line,
            variable: number,
        }),
        Some(Initialiser::Value(value)) => Ok(Statement::Initialise {
            line,
            variable: number,
            value: expression_of(alloc, names, value)?,
        }),
        Some(_) => Err(TreeFault::NotSmall),
    }
}
