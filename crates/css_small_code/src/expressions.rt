//! The code of expressions: each leaves its value on the stack.
ghost use Rattle.std.specs.Prelude.{◌≡◌, ℕ, ◌+◌, ◌*◌, ◌<◌, ◌≤◌, [], ◌∷◌, ◌++◌, pos, length, slice_set, slice_get, Some, IfOk, OnOk};
ghost use Rattle.css_vm.specs.declared.code.Op.TheVariants as ops;
ghost use Rattle.css_small.specs.Tree.{expression};
ghost use Rattle.css_small_code.specs.Meaning as meaning;
ghost use Rattle.css_small_code.specs.Places.{HasPlaces};
ghost use Rattle.css_small_code.specs.Code.{in_line, truth_code, index_code, pointer_code, element_code, expression_code};

use crate::instructions::{emit, emit_all, place_ahead};
use crate::operator_code::{binary_code, unary_code};
use css_base::{Line, NoMemory};
use css_small::Expression;
use css_vm::{Instr, Op};

// The test whether the top isn't 0.
const IS_TRUE: &[Op] = &[Op::Push(0), Op::Ne];

// The pointer that the parameter is.
const POINTER: &[Op] = &[Op::Frame(0), Op::Load32u];

// Behind a pointer and an index: the address of the int so many places behind.
const INDEX: &[Op] = &[Op::Push(4), Op::Mul, Op::Add];

/// The place of an object in a function's frame, or that of the frame's end.
pub fn place_of(object: u32) -> u32
    requires { object ≤ 1001 }
    ensures { result ≡ meaning.place_of object }
{
    8 * object
}

/// An expression's instructions. `NoMemory` also where the place of a jump doesn't fit into 32 bits.
pub fn emit_expression(code: &mut Vec<Instr>, line: Line, tree: &Expression) -> Result<(), NoMemory>
    requires { HasPlaces (expression tree.now) }
    ensures { OnOk result (code.new.items ≡ code.old.items
        ++ in_line line (expression_code (expression tree.now) (length code.old.items))) }
{
    match tree {
        Expression::Number(value) => emit(code, line, Op::Push(i64::from(*value))),
        Expression::Variable(variable) => {
            emit(code, line, Op::Frame(place_of(*variable)))?;
            emit(code, line, Op::Load32s)
        }
        Expression::Element(index) => {
            emit_all(code, line, POINTER)?;
            emit_expression(code, line, index)?;
            emit_all(code, line, INDEX)?;
            emit(code, line, Op::Load32s)
        }
        Expression::Unary(op, operand) => {
            emit_expression(code, line, operand)?;
            emit_all(code, line, unary_code(*op))
        }
        Expression::Binary(op, left, right) => {
            emit_expression(code, line, left)?;
            emit_expression(code, line, right)?;
            emit_all(code, line, binary_code(*op))
        }
        Expression::And(left, right) => {
            emit_expression(code, line, left)?;
            let test = code.len();
            emit(code, line, Op::Jumpz(0))?;
            emit_expression(code, line, right)?;
            end_and(code, line, test)
        }
        Expression::Or(left, right) => {
            emit_expression(code, line, left)?;
            let jump = emit_or(code, line)?;
            emit_expression(code, line, right)?;
            end_or(code, line, jump)
        }
    }
}

/// The address of `p[index]`, of the parameter: behind the pointer and the index, 4 bytes for each int.
pub fn emit_element(code: &mut Vec<Instr>, line: Line, index: &Expression) -> Result<(), NoMemory>
    requires { HasPlaces (expression index.now) }
    ensures { OnOk result (code.new.items ≡ code.old.items
        ++ in_line line (element_code (expression index.now) (length code.old.items))) }
{
    emit_all(code, line, POINTER)?;
    emit_expression(code, line, index)?;
    emit_all(code, line, INDEX)
}

// Behind both operands of `&&`: a jump at the test leads to the 0.
fn end_and(code: &mut Vec<Instr>, line: Line, test: usize) -> Result<(), NoMemory>
    requires { test < length code.old.items }
    ensures { OnOk result (let no = length code.old.items + 3 in
        code.new.items ≡ slice_set code.old.items test (record { op = ops.Jumpz no; line = line })
        ++ in_line line (truth_code ++ ops.Jump (no + 1) ∷ ops.Push (pos 0) ∷ [])) }
{
    let no = place_ahead(code, 3)?;
    let end = place_ahead(code, 4)?;
    code[test] = Instr {
        op: Op::Jumpz(no),
        line,
    };
    emit_all(code, line, IS_TRUE)?;
    emit(code, line, Op::Jump(end))?;
    emit(code, line, Op::Push(0))
}

// Behind the first operand of `||`: where it isn't 0, a 1 and a jump, whose place is given and which is still to lead on.
fn emit_or(code: &mut Vec<Instr>, line: Line) -> Result<usize, NoMemory>
    ensures { IfOk result (λ jump. let second = length code.old.items + 3 in (jump ≡ length code.old.items + 2)
        × (code.new.items ≡ code.old.items ++ in_line line (ops.Jumpz second ∷ ops.Push (pos 1) ∷ ops.Jump 0 ∷ []))) }
{
    let second = place_ahead(code, 3)?;
    emit(code, line, Op::Jumpz(second))?;
    emit(code, line, Op::Push(1))?;
    let jump = code.len();
    emit(code, line, Op::Jump(0))?;
    Ok(jump)
}

// Behind the second operand of `||`: the jump leads to the end.
fn end_or(code: &mut Vec<Instr>, line: Line, jump: usize) -> Result<(), NoMemory>
    requires { jump < length code.old.items }
    ensures { OnOk result (code.new.items
        ≡ slice_set code.old.items jump (record { op = ops.Jump (length code.old.items + 2); line = line }) ++ in_line line truth_code) }
{
    let end = place_ahead(code, 2)?;
    code[jump] = Instr {
        op: Op::Jump(end),
        line,
    };
    emit_all(code, line, IS_TRUE)
}
