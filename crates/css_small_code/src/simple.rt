//! The code of statements with no other in them.
ghost use Rattle.std.specs.Prelude.{◌≡◌, ℕ, ◌+◌, ◌≤◌, true, [], ◌∷◌, ◌++◌, pos, length, map, slice_get, OnOk};
ghost use Rattle.css_small.specs.Tree.{expression, statement, function};
ghost use Rattle.css_vm.specs.declared.code.Op.TheVariants as ops;
ghost use Rattle.css_vm.specs.declared.code.Conversion.TheVariants as conversions;
ghost use Rattle.css_small_code.specs.Places.{HasPlaces, ArePlaced, is_simple};
ghost use Rattle.css_small_code.specs.Code as made;
ghost use Rattle.css_small_code.specs.Code.{in_line, expression_code, assignment_code, element_assignment_code, call_code, statement_code, is_task_there};

use crate::expressions::{emit_element, emit_expression, place_of};
use crate::instructions::{emit, emit_all, place_ahead};
use css_base::{Line, NoMemory};
use css_small::{Directive, Expression, Function, Statement};
use css_vm::{Conversion, Instr, MarkKind, Op};

/// The instructions of a statement with no other in it, in a program with these functions.
pub fn emit_simple(
    code: &mut Vec<Instr>,
    functions: &[Function],
    tree: &Statement,
) -> Result<(), NoMemory>
    requires placed { ArePlaced (statement tree.now) }
    requires simple { is_simple (statement tree.now) ≡ true }
    ensures { OnOk result (code.new.items ≡ code.old.items
        ++ statement_code (map function functions.now) (statement tree.now) (length code.old.items)) }
{
    match tree {
        Statement::Declare { .. } | Statement::Empty { .. } => Ok(()),
        Statement::Initialise {
            line,
            variable,
            value,
        }
        | Statement::Assign {
            line,
            variable,
            value,
        } => emit_assignment(code, *line, *variable, value),
        Statement::AssignElement { line, index, value } => {
            emit_element_assignment(code, *line, index, value)
        }
        Statement::Call {
            line,
            function,
            variable,
        } => emit_call(
            code,
            *line,
            is_task(functions, *function),
            *function,
            *variable,
        ),
        Statement::Directive { line, kind } => emit(code, *line, Op::Mark(mark_of(*kind))),
        Statement::Put { line, value } => emit_put(code, *line, value),
        Statement::Return { line, value } => emit_return(code, *line, value),
        _ => unreachable!(),
    }
}

fn emit_assignment(
    code: &mut Vec<Instr>,
    line: Line,
    variable: u32,
    value: &Expression,
) -> Result<(), NoMemory>
    requires known { variable ≤ 1000 }
    requires within { HasPlaces (expression value.now) }
    ensures { OnOk result (code.new.items ≡ code.old.items
        ++ in_line line (assignment_code variable (expression value.now) (length code.old.items))) }
{
    emit(code, line, Op::Frame(place_of(variable)))?;
    emit_expression(code, line, value)?;
    emit_all(code, line, &[Op::Store32, Op::Drop])
}

// The element's place comes before its value.
fn emit_element_assignment(
    code: &mut Vec<Instr>,
    line: Line,
    index: &Expression,
    value: &Expression,
) -> Result<(), NoMemory>
    requires place { HasPlaces (expression index.now) }
    requires within { HasPlaces (expression value.now) }
    ensures { OnOk result (code.new.items ≡ code.old.items
        ++ in_line line (element_assignment_code (expression index.now) (expression value.now) (length code.old.items))) }
{
    emit_element(code, line, index)?;
    emit_expression(code, line, value)?;
    emit_all(code, line, &[Op::Store32, Op::Drop])
}

// Whether the function of a number is a task.
fn is_task(functions: &[Function], number: u32) -> bool
    ensures { result ≡ is_task_there (slice_get (map function functions.now) number) }
{
    match functions.get(number as usize) {
        Some(function) => function.is_task,
        None => false,
    }
}

// A call with the address of a variable. One of a task asks whether tasks are made, behind its argument.
fn emit_call(
    code: &mut Vec<Instr>,
    line: Line,
    is_task: bool,
    function: u32,
    variable: u32,
) -> Result<(), NoMemory>
    requires { variable ≤ 1000 }
    ensures { OnOk result (code.new.items ≡ code.old.items
        ++ in_line line (call_code is_task function variable (length code.old.items))) }
{
    let argument = Op::Frame(place_of(variable));
    if is_task {
        let plain = place_ahead(code, 5)?;
        let end = place_ahead(code, 6)?;
        let made = &[
            argument,
            Op::Mark(MarkKind::Started),
            Op::Jumpz(plain),
            Op::Submit(function),
            Op::Jump(end),
            Op::Call(function),
            Op::Drop,
        ];
        emit_all(code, line, made)
    } else {
        emit_all(code, line, &[argument, Op::Call(function), Op::Drop])
    }
}

fn mark_of(kind: Directive) -> MarkKind
    ensures { result ≡ made.mark_of kind }
{
    match kind {
        Directive::Start => MarkKind::Start,
        Directive::Finish => MarkKind::Finish,
        Directive::Barrier => MarkKind::Barrier,
    }
}

fn emit_put(code: &mut Vec<Instr>, line: Line, value: &Expression) -> Result<(), NoMemory>
    requires { HasPlaces (expression value.now) }
    ensures { OnOk result (code.new.items ≡ code.old.items
        ++ in_line line (expression_code (expression value.now) (length code.old.items) ++ ops.Out conversions.Char ∷ ops.Drop ∷ [])) }
{
    emit_expression(code, line, value)?;
    emit_all(code, line, &[Op::Out(Conversion::Char), Op::Drop])
}

fn emit_return(code: &mut Vec<Instr>, line: Line, value: &Expression) -> Result<(), NoMemory>
    requires { HasPlaces (expression value.now) }
    ensures { OnOk result (code.new.items ≡ code.old.items
        ++ in_line line (expression_code (expression value.now) (length code.old.items) ++ ops.Ret ∷ [])) }
{
    emit_expression(code, line, value)?;
    emit(code, line, Op::Ret)
}
