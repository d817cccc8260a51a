//! The code at main's entry: its first instruction has the line of main's first token.
ghost use Rattle.std.specs.Prelude.{◌≡◌, ◌++◌, map, OnOk};
ghost use Rattle.css_small.specs.Tree.{statement, listed, function};
ghost use Rattle.css_small_code.specs.Code.{entry_code};
ghost use Rattle.css_small_code.specs.Lines.{line_in, line_in_all};

use crate::instructions::emit_all;
use css_base::{Line, NoMemory};
use css_small::{Function, Statement};
use css_vm::{Instr, Op};

/// A push and a drop in main's line, where the body's code begins in another.
pub fn emit_entry(
    code: &mut Vec<Instr>,
    functions: &[Function],
    tree: &Function,
) -> Result<(), NoMemory>
    ensures { OnOk result (code.new.items ≡ code.old.items ++ entry_code (map function functions.now) (function tree.now)) }
{
    if first_line(&tree.body).unwrap_or(tree.end) == tree.line {
        Ok(())
    } else {
        emit_all(code, tree.line, &[Op::Push(0), Op::Drop])
    }
}

// The line of the first instruction of statements, if they have any.
#[cycle(lines)]
fn first_line(trees: &[Statement]) -> Option<Line>
    ensures { result ≡ line_in_all (listed trees.now) }
{
    for tree in trees {
        if let Some(line) = line_of(tree) {
            return Some(line);
        }
    }
    None
}

#[cycle(lines)]
fn line_of(tree: &Statement) -> Option<Line>
    ensures { result ≡ line_in (statement tree.now) }
{
    match tree {
        Statement::Declare { .. } | Statement::Empty { .. } => None,
        Statement::Initialise { line, .. }
        | Statement::Assign { line, .. }
        | Statement::AssignElement { line, .. }
        | Statement::Call { line, .. }
        | Statement::Directive { line, .. }
        | Statement::Put { line, .. }
        | Statement::Return { line, .. }
        | Statement::If { line, .. }
        | Statement::IfElse { line, .. }
        | Statement::While { line, .. } => Some(*line),
        Statement::Block { statements, .. } => first_line(statements),
    }
}
