//! Operators with one operand, casts and `sizeof`.
ghost use Rattle.std.specs.Prelude.{◌≡◌, Ok, Err, IfOk, IsErrOf};
ghost use Rattle.css_base.specs.declared.static_fault.StaticFault.{StaticFault as Fault};
ghost use Rattle.css_core.specs.Shapes.{expression};
ghost use Rattle.css_types.specs.Operands as rules;
ghost use Rattle.css_types.specs.Shapes as shapes;
ghost use Rattle.css_type_table.specs.Flat.{ctype};
ghost use Rattle.css_operands.specs.Shapes.{operand, form};

use crate::operand::{Form, Operand, integer, place, value};
use crate::refusal::{Refusal, broken};
use crate::values::{in_core, integer_constant, is_place, value_of};
use crate::words::{Typed, constant, convert_to, negation_of, unary_of};
use css_base::{IntType, Line, NoMemory, StaticName};
use css_core::Expression;
use css_num::{UnOp, promote};
use css_tree::UnaryOperator;
use css_type_table::{CType, Layer, TypeTable};
use css_types::{Constant, constant_in, constant_unary};
use std::alloc::Global;

/// `+`, `-` or `~` of a value.
fn on_integer(
    alloc: Global,
    table: &TypeTable,
    line: Line,
    op: UnOp,
    a: Operand,
) -> Result<Operand, Refusal>
    ensures ok { IfOk result (λ x. rules.on_integer line op (operand table.now a) ≡ Ok (operand table.now x)) }
    ensures broken { (f : Fault) → IsErrOf result (Refusal.Broken f) → rules.on_integer line op (operand table.now a) ≡ Err f }
{
    if !table.is_integer(a.t) {
        return Err(broken(StaticName::TypeMismatch, line));
    }
    let constant = constant_unary(op, promote(table.core_type(a.t)), a.constant);
    let e = unary_of(alloc, op, in_core(table, a))?;
    Ok(integer(e, constant))
}

/// `!` of a value.
fn negation(alloc: Global, table: &TypeTable, line: Line, a: Operand) -> Result<Operand, Refusal>
    ensures ok { IfOk result (λ x. rules.negation line (operand table.now a) ≡ Ok (operand table.now x)) }
    ensures broken { (f : Fault) → IsErrOf result (Refusal.Broken f) → rules.negation line (operand table.now a) ≡ Err f }
{
    if !table.is_scalar(a.t) {
        return Err(broken(StaticName::TypeMismatch, line));
    }
    let kind = table.core_type(a.t);
    let constant = constant_unary(UnOp::Not, kind, integer_constant(table, &a));
    let e = negation_of(alloc, in_core(table, a))?;
    Ok(integer(e, constant))
}

/// What a pointer points to.
pub(crate) fn pointed(
    table: &TypeTable,
    line: Line,
    t: CType,
    e: Box<Expression>,
) -> Result<Operand, Refusal>
    ensures ok { IfOk result (λ x. rules.pointed line (ctype table.now t) (expression e.value) ≡ Ok (operand table.now x)) }
    ensures broken { (f : Fault) → IsErrOf result (Refusal.Broken f) → rules.pointed line (ctype table.now t) (expression e.value) ≡ Err f }
{
    match table.layer(t) {
        Layer::Pointer(to) => {
            if table.is_void(to) {
                return Err(broken(StaticName::TypeMismatch, line));
            }
            Ok(place(to, e))
        }
        _ => Err(broken(StaticName::TypeMismatch, line)),
    }
}

/// `&`. The rules on tasks refuse it of what a task is given, whose core expression is then never used.
fn address_of(alloc: Global, table: &TypeTable, line: Line, a: Operand) -> Result<Operand, Refusal>
    ensures ok { IfOk result (λ x. rules.address_of line (operand table.now a) ≡ Ok (operand table.now x)) }
    ensures broken { (f : Fault) → IsErrOf result (Refusal.Broken f) → rules.address_of line (operand table.now a) ≡ Err f }
{
    if !is_place(a.form) {
        return Err(broken(StaticName::NotAnObject, line));
    }
    let t = a.t.pointer()?;
    let e = address_in(alloc, a.form, a.e)?;
    Ok(value(t, e))
}

fn address_in(alloc: Global, f: Form, e: Box<Expression>) -> Result<Box<Expression>, NoMemory>
    ensures { IfOk result (λ x. expression x.value ≡ rules.address_in (form f) (expression e.value)) }
{
    match f {
        Form::Given => constant(alloc, 0),
        _ => Ok(e),
    }
}

/// An operator on an operand.
pub fn unary_operand(
    alloc: Global,
    table: &TypeTable,
    line: Line,
    op: UnaryOperator,
    a: Operand,
) -> Result<Operand, Refusal>
    ensures ok { IfOk result (λ x. rules.unary_operand line op (operand table.now a) ≡ Ok (operand table.now x)) }
    ensures broken { (f : Fault) → IsErrOf result (Refusal.Broken f) → rules.unary_operand line op (operand table.now a) ≡ Err f }
{
    match op {
        UnaryOperator::AddressOf => address_of(alloc, table, line, a),
        UnaryOperator::Dereference => {
            let v = value_of(alloc, table, a)?;
            pointed(table, line, v.t, v.e)
        }
        UnaryOperator::Plus => on_integer(
            alloc,
            table,
            line,
            UnOp::Plus,
            value_of(alloc, table, a)?,
        ),
        UnaryOperator::Minus => on_integer(
            alloc,
            table,
            line,
            UnOp::Minus,
            value_of(alloc, table, a)?,
        ),
        UnaryOperator::Complement => {
            on_integer(
                alloc,
                table,
                line,
                UnOp::Complement,
                value_of(alloc, table, a)?,
            )
        }
        UnaryOperator::Not => negation(alloc, table, line, value_of(alloc, table, a)?),
    }
}

// ---- casts

fn cast_constant(table: &TypeTable, t: CType, k: Constant) -> Constant
    ensures { shapes.constant result ≡ rules.cast_constant (ctype table.now t) (shapes.constant k) }
{
    match table.layer(t) {
        Layer::Integer(kind) => constant_in(kind, k),
        Layer::Pointer(to) => {
            if table.is_void(to) {
                k
            } else {
                Constant::Varies
            }
        }
        _ => Constant::Varies,
    }
}

fn is_castable(table: &TypeTable, to: CType, t: CType) -> bool
    ensures { result ≡ rules.is_castable (ctype table.now to) (ctype table.now t) }
{
    table.is_void(to) || (table.is_scalar(to) && table.is_scalar(t))
}

fn cast_to(alloc: Global, table: &TypeTable, t: CType, a: Operand) -> Result<Operand, NoMemory>
    ensures { IfOk result (λ x. operand table.now x ≡ rules.cast_to (ctype table.now t) (operand table.now a)) }
{
    if table.is_void(t) {
        return Ok(value(t, a.e));
    }
    let constant = cast_constant(table, t, integer_constant(table, &a));
    let e = convert_to(alloc, table.core_type(t), a.e)?;
    Ok(Operand {
        t,
        form: Form::Value,
        constant,
        e,
    })
}

/// A value in another type by a cast.
pub fn cast(
    alloc: Global,
    table: &TypeTable,
    line: Line,
    t: CType,
    a: Operand,
) -> Result<Operand, Refusal>
    ensures ok { IfOk result (λ x. rules.cast line (ctype table.now t) (operand table.now a) ≡ Ok (operand table.now x)) }
    ensures broken { (f : Fault) → IsErrOf result (Refusal.Broken f) → rules.cast line (ctype table.now t) (operand table.now a) ≡ Err f }
{
    if !is_castable(table, t, a.t) {
        return Err(broken(StaticName::TypeMismatch, line));
    }
    Ok(cast_to(alloc, table, t, a)?)
}

/// `sizeof` of a type.
pub fn size_operand(
    alloc: Global,
    table: &TypeTable,
    line: Line,
    t: CType,
) -> Result<Operand, Refusal>
    ensures ok { IfOk result (λ x. rules.size_operand line (ctype table.now t) ≡ Ok (operand table.now x)) }
    ensures broken { (f : Fault) → IsErrOf result (Refusal.Broken f) → rules.size_operand line (ctype table.now t) ≡ Err f }
{
    if table.is_void(t) {
        return Err(broken(StaticName::TypeMismatch, line));
    }
    let size = i128::from(table.size_of(t));
    let e = constant(alloc, size)?;
    Ok(integer(
        Typed {
            kind: IntType::UInt,
            e,
        },
        Constant::Known(size),
    ))
}
