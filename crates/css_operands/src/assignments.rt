//! Assignments, `++` and `--`.
ghost use Rattle.std.specs.Prelude.{◌≡◌, Ok, Err, IfOk, IsErrOf};
ghost use Rattle.css_base.specs.declared.static_fault.StaticFault.{StaticFault as Fault};
ghost use Rattle.css_core.specs.Shapes.{given};
ghost use Rattle.css_types.specs.Operands as rules;
ghost use Rattle.css_type_table.specs.Flat.{ctype};
ghost use Rattle.css_operands.specs.Shapes.{operand};

use crate::operand::{Operand, value};
use crate::refusal::{Refusal, broken};
use crate::values::{converted_to, in_core, is_place, value_type};
use crate::words;
use crate::words::{moved_at, one, store};
use css_base::{Line, StaticName};
use css_core::Gives;
use css_num::BinOp;
use css_tree::AssignOperator;
use css_type_table::{Layer, TypeTable};
use std::alloc::Global;

/// Whether it is a place that is no array.
fn is_assignable(table: &TypeTable, a: &Operand) -> bool
    ensures { result ≡ rules.is_assignable (operand table.now a.now) }
{
    is_place(a.form) && !table.is_array(a.t)
}

/// `p = a`. The rule on types comes before the one on places.
fn assigned(
    alloc: Global,
    table: &TypeTable,
    line: Line,
    p: Operand,
    a: Operand,
) -> Result<Operand, Refusal>
    ensures ok { IfOk result (λ x. rules.assigned line (operand table.now p) (operand table.now a) ≡ Ok (operand table.now x)) }
    ensures broken { (f : Fault) → IsErrOf result (Refusal.Broken f) → rules.assigned line (operand table.now p) (operand table.now a) ≡ Err f }
{
    let t = value_type(table, p.t)?;
    let e = converted_to(alloc, table, line, t, a)?;
    if !is_assignable(table, &p) {
        return Err(broken(StaticName::NotAnObject, line));
    }
    let stored = store(alloc, table.core_type(p.t), p.e, e)?;
    Ok(value(p.t, stored))
}

fn is_moving(op: BinOp) -> bool
    ensures { result ≡ rules.is_moving op }
{
    matches!(op, BinOp::Add | BinOp::Sub)
}

/// `p op= a`
fn updated_by(
    alloc: Global,
    table: &TypeTable,
    line: Line,
    op: BinOp,
    p: Operand,
    a: Operand,
) -> Result<Operand, Refusal>
    ensures ok { IfOk result (λ x. rules.updated_by line op (rules.value_type (ctype table.now p.t)) (ctype table.now a.t) (operand table.now p) (operand table.now a)
        ≡ Ok (operand table.now x)) }
    ensures broken { (f : Fault) → IsErrOf result (Refusal.Broken f)
        → rules.updated_by line op (rules.value_type (ctype table.now p.t)) (ctype table.now a.t) (operand table.now p) (operand table.now a) ≡ Err f }
{
    let t = value_type(table, p.t)?;
    match (table.layer(t), table.layer(a.t)) {
        (Layer::Integer(kind), Layer::Integer(_)) => {
            if !is_assignable(table, &p) {
                return Err(broken(StaticName::NotAnObject, line));
            }
            let b = in_core(table, a);
            let e = words::updated(alloc, Gives::New, kind, op, p.e, b)?;
            Ok(value(p.t, e))
        }
        (Layer::Pointer(to), Layer::Integer(_)) => {
            if !is_moving(op) || table.is_void(to) {
                return Err(broken(StaticName::TypeMismatch, line));
            }
            if !is_assignable(table, &p) {
                return Err(broken(StaticName::NotAnObject, line));
            }
            let i = in_core(table, a);
            let e = moved_at(alloc, Gives::New, op, table.size_of(to), p.e, i)?;
            Ok(value(p.t, e))
        }
        _ => Err(broken(StaticName::TypeMismatch, line)),
    }
}

/// `=` or `op=` between a place and a value.
pub fn assignment(
    alloc: Global,
    table: &TypeTable,
    line: Line,
    op: AssignOperator,
    p: Operand,
    a: Operand,
) -> Result<Operand, Refusal>
    ensures ok { IfOk result (λ x. rules.assignment line op (operand table.now p) (operand table.now a) ≡ Ok (operand table.now x)) }
    ensures broken { (f : Fault) → IsErrOf result (Refusal.Broken f) → rules.assignment line op (operand table.now p) (operand table.now a) ≡ Err f }
{
    match op {
        AssignOperator::Assign => assigned(alloc, table, line, p, a),
        AssignOperator::Multiply => updated_by(alloc, table, line, BinOp::Mul, p, a),
        AssignOperator::Divide => updated_by(alloc, table, line, BinOp::Div, p, a),
        AssignOperator::Remainder => updated_by(alloc, table, line, BinOp::Rem, p, a),
        AssignOperator::Add => updated_by(alloc, table, line, BinOp::Add, p, a),
        AssignOperator::Subtract => updated_by(alloc, table, line, BinOp::Sub, p, a),
        AssignOperator::ShiftLeft => updated_by(alloc, table, line, BinOp::Shl, p, a),
        AssignOperator::ShiftRight => updated_by(alloc, table, line, BinOp::Shr, p, a),
        AssignOperator::BitAnd => updated_by(alloc, table, line, BinOp::And, p, a),
        AssignOperator::BitXor => updated_by(alloc, table, line, BinOp::Xor, p, a),
        AssignOperator::BitOr => updated_by(alloc, table, line, BinOp::Or, p, a),
    }
}

/// `++` and `--`, where `op` adds or subtracts.
pub fn stepped(
    alloc: Global,
    table: &TypeTable,
    line: Line,
    gives: Gives,
    op: BinOp,
    p: Operand,
) -> Result<Operand, Refusal>
    ensures ok { IfOk result (λ x. rules.stepped line (given gives) op (operand table.now p) ≡ Ok (operand table.now x)) }
    ensures broken { (f : Fault) → IsErrOf result (Refusal.Broken f) → rules.stepped line (given gives) op (operand table.now p) ≡ Err f }
{
    let t = value_type(table, p.t)?;
    match table.layer(t) {
        Layer::Integer(kind) => {
            if !is_assignable(table, &p) {
                return Err(broken(StaticName::NotAnObject, line));
            }
            let e = words::updated(alloc, gives, kind, op, p.e, one(alloc)?)?;
            Ok(value(p.t, e))
        }
        Layer::Pointer(to) => {
            if table.is_void(to) {
                return Err(broken(StaticName::TypeMismatch, line));
            }
            if !is_assignable(table, &p) {
                return Err(broken(StaticName::NotAnObject, line));
            }
            let e = moved_at(alloc, gives, op, table.size_of(to), p.e, one(alloc)?)?;
            Ok(value(p.t, e))
        }
        _ => Err(broken(StaticName::TypeMismatch, line)),
    }
}
