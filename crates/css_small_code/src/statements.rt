//! The code of statements, which leave the stack as it was.
ghost use Rattle.std.specs.Prelude.{◌≡◌, ℕ, ◌+◌, ◌<◌, [], ◌∷◌, ◌++◌, length, map, slice_set, IfOk, OnOk};
ghost use Rattle.css_small.specs.Tree.{expression, statement, listed, function};
ghost use Rattle.css_vm.specs.declared.code.Op.TheVariants as ops;
ghost use Rattle.css_small_code.specs.Places.{HasPlaces, ArePlaced, AllPlaced};
ghost use Rattle.css_small_code.specs.Code.{in_line, expression_code, statement_code, statements_code};

use crate::expressions::emit_expression;
use crate::instructions::{emit, place_ahead};
use crate::simple::emit_simple;
use css_base::{Line, NoMemory};
use css_small::{Expression, Function, Statement};
use css_vm::{Instr, Op};

/// The instructions of statements, in a program with these functions. `NoMemory` also where the place of a jump doesn't fit into
/// 32 bits.
#[cycle(statements)]
pub fn emit_statements(
    code: &mut Vec<Instr>,
    functions: &[Function],
    trees: &[Statement],
) -> Result<(), NoMemory>
    requires { AllPlaced (listed trees.now) }
    ensures { OnOk result (code.new.items ≡ code.old.items
        ++ statements_code (map function functions.now) (listed trees.now) (length code.old.items)) }
{
    for tree in trees {
        emit_statement(code, functions, tree)?;
    }
    Ok(())
}

#[cycle(statements)]
fn emit_statement(
    code: &mut Vec<Instr>,
    functions: &[Function],
    tree: &Statement,
) -> Result<(), NoMemory>
    requires { ArePlaced (statement tree.now) }
    ensures { OnOk result (code.new.items ≡ code.old.items
        ++ statement_code (map function functions.now) (statement tree.now) (length code.old.items)) }
{
    match tree {
        Statement::Block { statements, .. } => emit_statements(code, functions, statements),
        Statement::If {
            line,
            condition,
            body,
        } => {
            let test = emit_test(code, *line, condition)?;
            emit_statement(code, functions, body)?;
            end_test(code, *line, test)
        }
        Statement::IfElse {
            line,
            condition,
            body,
            other,
        } => {
            let test = emit_test(code, *line, condition)?;
            emit_statement(code, functions, body)?;
            let jump = emit_else(code, *line, test)?;
            emit_statement(code, functions, other)?;
            end_else(code, *line, jump)
        }
        Statement::While {
            line,
            condition,
            body,
        } => {
            let again = place_ahead(code, 0)?;
            let test = emit_test(code, *line, condition)?;
            emit(code, *line, Op::Turn)?;
            emit_statement(code, functions, body)?;
            emit(code, *line, Op::Jump(again))?;
            end_test(code, *line, test)
        }
        _ => emit_simple(code, functions, tree),
    }
}

// A condition and a jump where it is 0, whose place is given and which is still to lead on.
fn emit_test(code: &mut Vec<Instr>, line: Line, condition: &Expression) -> Result<usize, NoMemory>
    requires { HasPlaces (expression condition.now) }
    ensures place { IfOk result (λ test. test + 1 ≡ length code.new.items) }
    ensures emits { OnOk result (code.new.items ≡ code.old.items
        ++ in_line line (expression_code (expression condition.now) (length code.old.items) ++ ops.Jumpz 0 ∷ [])) }
{
    emit_expression(code, line, condition)?;
    let test = code.len();
    emit(code, line, Op::Jumpz(0))?;
    Ok(test)
}

// The jump of a test leads to the end of the code.
fn end_test(code: &mut Vec<Instr>, line: Line, test: usize) -> Result<(), NoMemory>
    requires { test < length code.old.items }
    ensures { OnOk result (code.new.items
        ≡ slice_set code.old.items test (record { op = ops.Jumpz (length code.old.items); line = line })) }
{
    let end = place_ahead(code, 0)?;
    code[test] = Instr {
        op: Op::Jumpz(end),
        line,
    };
    Ok(())
}

// Behind the first branch: a jump, whose place is given and which is still to lead on; and the test's jump leads behind it.
fn emit_else(code: &mut Vec<Instr>, line: Line, test: usize) -> Result<usize, NoMemory>
    requires { test < length code.old.items }
    ensures place { IfOk result (λ jump. jump ≡ length code.old.items) }
    ensures emits { OnOk result (let second = length code.old.items + 1 in
        code.new.items ≡ slice_set code.old.items test (record { op = ops.Jumpz second; line = line })
        ++ in_line line (ops.Jump 0 ∷ [])) }
{
    let jump = code.len();
    let second = place_ahead(code, 1)?;
    code[test] = Instr {
        op: Op::Jumpz(second),
        line,
    };
    emit(code, line, Op::Jump(0))?;
    Ok(jump)
}

// Behind the other branch: the jump leads to the end of the code.
fn end_else(code: &mut Vec<Instr>, line: Line, jump: usize) -> Result<(), NoMemory>
    requires { jump < length code.old.items }
    ensures { OnOk result (code.new.items
        ≡ slice_set code.old.items jump (record { op = ops.Jump (length code.old.items); line = line })) }
{
    let end = place_ahead(code, 0)?;
    code[jump] = Instr {
        op: Op::Jump(end),
        line,
    };
    Ok(())
}
