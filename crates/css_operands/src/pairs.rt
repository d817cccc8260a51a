//! Operators with two operands, which are values.
ghost use Rattle.std.specs.Prelude.{◌≡◌, ◌&&◌, Ok, Err, IfOk, IsErrOf};
ghost use Rattle.css_base.specs.declared.static_fault.StaticFault.{StaticFault as Fault};
ghost use Rattle.css_core.specs.Shapes.{expression};
ghost use Rattle.css_types.specs.Operands as rules;
ghost use Rattle.css_types.specs.Types as types;
ghost use Rattle.css_type_table.specs.Lists.{Lists};
ghost use Rattle.css_type_table.specs.Flat.{ctype};
ghost use Rattle.css_operands.specs.Decisions.{judged_decision};
ghost use Rattle.css_operands.specs.Shapes.{operand};

use crate::operand::{Operand, integer, value};
use crate::refusal::{Refusal, broken};
use crate::unary::pointed;
use crate::values::{in_core, integer_constant, is_convertible};
use crate::words;
use crate::words::{Typed, binary_of, both, compared, convert_to, either, operate, scaled};
use css_base::{IntType, Line, NoMemory, StaticName};
use css_core::Expression;
use css_num::BinOp;
use css_tree::BinaryOperator;
use css_type_table::{CType, Layer, TypeTable};
use css_types::{Constant, binary_constant, decided};
use std::alloc::Global;

// ---- integers

fn arithmetic(
    alloc: Global,
    table: &TypeTable,
    op: BinOp,
    a: Operand,
    b: Operand,
) -> Result<Operand, NoMemory>
    ensures { IfOk result (λ x. operand table.now x ≡ rules.arithmetic op (operand table.now a) (operand table.now b)) }
{
    let (s, t) = (table.core_type(a.t), table.core_type(b.t));
    let constant = binary_constant(op, s, t, a.constant, b.constant);
    let e = binary_of(alloc, op, in_core(table, a), in_core(table, b))?;
    Ok(integer(e, constant))
}

fn are_integers(table: &TypeTable, a: &Operand, b: &Operand) -> bool
    ensures { result ≡ (types.is_integer (ctype table.now a.now.t) && types.is_integer (ctype table.now b.now.t)) }
{
    table.is_integer(a.t) && table.is_integer(b.t)
}

fn on_integers(
    alloc: Global,
    table: &TypeTable,
    line: Line,
    op: BinOp,
    a: Operand,
    b: Operand,
) -> Result<Operand, Refusal>
    ensures ok { IfOk result (λ x. rules.on_integers line op (operand table.now a) (operand table.now b) ≡ Ok (operand table.now x)) }
    ensures broken { (f : Fault) → IsErrOf result (Refusal.Broken f) → rules.on_integers line op (operand table.now a) (operand table.now b) ≡ Err f }
{
    if !are_integers(table, &a, &b) {
        return Err(broken(StaticName::TypeMismatch, line));
    }
    Ok(arithmetic(alloc, table, op, a, b)?)
}

// ---- pointers

/// A pointer that was moved, to elements of this type.
fn moved(table: &TypeTable, line: Line, to: CType, e: Box<Expression>) -> Result<Operand, Refusal>
    ensures ok { IfOk result (λ x. rules.moved line (ctype table.now to) (expression e.value) ≡ Ok (operand table.now x)) }
    ensures broken { (f : Fault) → IsErrOf result (Refusal.Broken f) → rules.moved line (ctype table.now to) (expression e.value) ≡ Err f }
{
    if table.is_void(to) {
        return Err(broken(StaticName::TypeMismatch, line));
    }
    Ok(value(to.pointer()?, e))
}

/// `a + b`
fn sum(
    alloc: Global,
    table: &TypeTable,
    line: Line,
    a: Operand,
    b: Operand,
) -> Result<Operand, Refusal>
    ensures ok { IfOk result (λ x. rules.sum line (ctype table.now a.t) (ctype table.now b.t) (operand table.now a) (operand table.now b) ≡ Ok (operand table.now x)) }
    ensures broken { (f : Fault) → IsErrOf result (Refusal.Broken f)
        → rules.sum line (ctype table.now a.t) (ctype table.now b.t) (operand table.now a) (operand table.now b) ≡ Err f }
{
    match (table.layer(a.t), table.layer(b.t)) {
        (Layer::Pointer(to), Layer::Integer(_)) => {
            let i = in_core(table, b);
            let e = words::moved(alloc, BinOp::Add, table.size_of(to), a.e, i)?;
            moved(table, line, to, e)
        }
        (Layer::Integer(_), Layer::Pointer(to)) => {
            let i = in_core(table, a);
            let index = scaled(alloc, table.size_of(to), i)?;
            let e = operate(alloc, BinOp::Add, IntType::UInt, index, b.e)?;
            moved(table, line, to, e)
        }
        _ => on_integers(alloc, table, line, BinOp::Add, a, b),
    }
}

/// `a - b`
fn difference(
    alloc: Global,
    table: &TypeTable,
    line: Line,
    a: Operand,
    b: Operand,
) -> Result<Operand, Refusal>
    ensures ok { IfOk result (λ x. rules.difference line (ctype table.now a.t) (ctype table.now b.t) (operand table.now a) (operand table.now b) ≡ Ok (operand table.now x)) }
    ensures broken { (f : Fault) → IsErrOf result (Refusal.Broken f)
        → rules.difference line (ctype table.now a.t) (ctype table.now b.t) (operand table.now a) (operand table.now b) ≡ Err f }
{
    match (table.layer(a.t), table.layer(b.t)) {
        (Layer::Pointer(to), Layer::Integer(_)) => {
            let i = in_core(table, b);
            let e = words::moved(alloc, BinOp::Sub, table.size_of(to), a.e, i)?;
            moved(table, line, to, e)
        }
        (Layer::Pointer(to), Layer::Pointer(other)) => {
            if !table.is_same(to, other) || table.is_void(to) {
                return Err(broken(StaticName::TypeMismatch, line));
            }
            let e = words::difference(alloc, table.size_of(to), a.e, b.e)?;
            Ok(integer(e, Constant::Varies))
        }
        _ => on_integers(alloc, table, line, BinOp::Sub, a, b),
    }
}

// ---- comparisons

fn are_ordered(table: &TypeTable, s: CType, t: CType) -> bool
    ensures { result ≡ rules.are_ordered (ctype table.now s) (ctype table.now t) }
{
    match (table.layer(s), table.layer(t)) {
        (Layer::Pointer(s), Layer::Pointer(t)) => table.is_same(s, t),
        _ => false,
    }
}

/// A comparison by size.
fn relation(
    alloc: Global,
    table: &TypeTable,
    line: Line,
    op: BinOp,
    a: Operand,
    b: Operand,
) -> Result<Operand, Refusal>
    ensures ok { IfOk result (λ x. rules.relation line op (operand table.now a) (operand table.now b) ≡ Ok (operand table.now x)) }
    ensures broken { (f : Fault) → IsErrOf result (Refusal.Broken f) → rules.relation line op (operand table.now a) (operand table.now b) ≡ Err f }
{
    if are_integers(table, &a, &b) {
        return Ok(arithmetic(alloc, table, op, a, b)?);
    }
    if !are_ordered(table, a.t, b.t) {
        return Err(broken(StaticName::TypeMismatch, line));
    }
    let e = compared(alloc, op, a.e, b.e)?;
    Ok(integer(e, Constant::Varies))
}

/// Whether values may be compared by `==`.
pub(crate) fn are_equatable(table: &TypeTable, a: &Operand, b: &Operand) -> bool
    ensures { result ≡ rules.are_equatable (operand table.now a.now) (operand table.now b.now) }
{
    is_convertible(table, a.t, b) || is_convertible(table, b.t, a)
}

/// `==` or `!=`
fn equality(
    alloc: Global,
    table: &TypeTable,
    line: Line,
    op: BinOp,
    a: Operand,
    b: Operand,
) -> Result<Operand, Refusal>
    ensures ok { IfOk result (λ x. rules.equality line op (operand table.now a) (operand table.now b) ≡ Ok (operand table.now x)) }
    ensures broken { (f : Fault) → IsErrOf result (Refusal.Broken f) → rules.equality line op (operand table.now a) (operand table.now b) ≡ Err f }
{
    if are_integers(table, &a, &b) {
        return Ok(arithmetic(alloc, table, op, a, b)?);
    }
    if !are_equatable(table, &a, &b) {
        return Err(broken(StaticName::TypeMismatch, line));
    }
    let p = convert_to(alloc, IntType::UInt, a.e)?;
    let q = convert_to(alloc, IntType::UInt, b.e)?;
    let e = compared(alloc, op, p, q)?;
    Ok(integer(e, Constant::Varies))
}

// ---- `&&` and `||`

/// `a && b`, or `a || b` where `by` is true.
fn decision(
    alloc: Global,
    table: &TypeTable,
    line: Line,
    by: bool,
    a: Operand,
    b: Operand,
) -> Result<Operand, Refusal>
    ensures ok { IfOk result (λ x. judged_decision line by (operand table.now a) (operand table.now b) ≡ Ok (operand table.now x)) }
    ensures broken { (f : Fault) → IsErrOf result (Refusal.Broken f) → judged_decision line by (operand table.now a) (operand table.now b) ≡ Err f }
{
    if !table.is_scalar(a.t) || !table.is_scalar(b.t) {
        return Err(broken(StaticName::TypeMismatch, line));
    }
    let constant = decided(by, integer_constant(table, &a), integer_constant(table, &b));
    let e = if by {
        either(alloc, a.e, b.e)?
    } else {
        both(alloc, a.e, b.e)?
    };
    Ok(integer(
        Typed {
            kind: IntType::Int,
            e,
        },
        constant,
    ))
}

// ---- all

/// An operator between two values.
pub fn binary_operand(
    alloc: Global,
    table: &TypeTable,
    line: Line,
    op: BinaryOperator,
    a: Operand,
    b: Operand,
) -> Result<Operand, Refusal>
    ensures ok { IfOk result (λ x. rules.binary_operand line op (operand table.now a) (operand table.now b) ≡ Ok (operand table.now x)) }
    ensures broken { (f : Fault) → IsErrOf result (Refusal.Broken f) → rules.binary_operand line op (operand table.now a) (operand table.now b) ≡ Err f }
{
    match op {
        BinaryOperator::Multiply => on_integers(alloc, table, line, BinOp::Mul, a, b),
        BinaryOperator::Divide => on_integers(alloc, table, line, BinOp::Div, a, b),
        BinaryOperator::Remainder => on_integers(alloc, table, line, BinOp::Rem, a, b),
        BinaryOperator::Add => sum(alloc, table, line, a, b),
        BinaryOperator::Subtract => difference(alloc, table, line, a, b),
        BinaryOperator::ShiftLeft => on_integers(alloc, table, line, BinOp::Shl, a, b),
        BinaryOperator::ShiftRight => on_integers(alloc, table, line, BinOp::Shr, a, b),
        BinaryOperator::Less => relation(alloc, table, line, BinOp::Lt, a, b),
        BinaryOperator::Greater => relation(alloc, table, line, BinOp::Gt, a, b),
        BinaryOperator::LessOrEqual => relation(alloc, table, line, BinOp::Le, a, b),
        BinaryOperator::GreaterOrEqual => relation(alloc, table, line, BinOp::Ge, a, b),
        BinaryOperator::Equal => equality(alloc, table, line, BinOp::Eq, a, b),
        BinaryOperator::NotEqual => equality(alloc, table, line, BinOp::Ne, a, b),
        BinaryOperator::BitAnd => on_integers(alloc, table, line, BinOp::And, a, b),
        BinaryOperator::BitXor => on_integers(alloc, table, line, BinOp::Xor, a, b),
        BinaryOperator::BitOr => on_integers(alloc, table, line, BinOp::Or, a, b),
        BinaryOperator::And => decision(alloc, table, line, false, a, b),
        BinaryOperator::Or => decision(alloc, table, line, true, a, b),
    }
}

/// `a[i]`
pub fn indexed(
    alloc: Global,
    table: &TypeTable,
    line: Line,
    a: Operand,
    i: Operand,
) -> Result<Operand, Refusal>
    ensures ok { IfOk result (λ x. rules.indexed line (operand table.now a) (operand table.now i) ≡ Ok (operand table.now x)) }
    ensures broken { (f : Fault) → IsErrOf result (Refusal.Broken f) → rules.indexed line (operand table.now a) (operand table.now i) ≡ Err f }
{
    let p = sum(alloc, table, line, a, i)?;
    pointed(table, line, p.t, p.e)
}

/// `a, b`
pub fn sequence(alloc: Global, a: Operand, b: Operand) -> Result<Operand, NoMemory>
    ensures { IfOk result (λ x. (lists : Lists) → operand lists x ≡ rules.sequence (operand lists a) (operand lists b)) }
{
    let e = words::sequence(alloc, a.e, b.e)?;
    Ok(value(b.t, e))
}
