//! The conditional operator (C99 6.5.15).
ghost use Rattle.std.specs.Prelude.{◌≡◌, Ok, Err, option_map, IfOk, IsErrOf};
ghost use Rattle.css_base.specs.declared.static_fault.StaticFault.{StaticFault as Fault};
ghost use Rattle.css_types.specs.Operands as rules;
ghost use Rattle.css_types.specs.Shapes as shapes;
ghost use Rattle.css_type_table.specs.Flat.{ctype};
ghost use Rattle.css_operands.specs.Decisions.{is_void_pointer};
ghost use Rattle.css_operands.specs.Shapes.{operand};

use crate::operand::{Form, Operand};
use crate::pairs::are_equatable;
use crate::refusal::{Refusal, broken};
use crate::values::{integer_constant, is_null};
use crate::words::{choose, convert_to};
use css_base::{Line, NoMemory, StaticName};
use css_num::usual;
use css_type_table::{CType, Layer, TypeTable};
use css_types::{Constant, chosen, constant_in};
use std::alloc::Global;

fn is_void_pointer(table: &TypeTable, t: CType) -> bool
    ensures { result ≡ is_void_pointer (ctype table.now t) }
{
    match table.layer(t) {
        Layer::Pointer(to) => table.is_void(to),
        _ => false,
    }
}

/// Of pointers that may be compared: one to void wins unless it is null.
fn common_pointer(
    table: &TypeTable,
    s: CType,
    t: CType,
    first_null: bool,
    second_null: bool,
) -> CType
    ensures { ctype table.now result ≡ rules.common_pointer (ctype table.now s) (ctype table.now t) first_null second_null }
{
    if table.is_integer(s) {
        t
    } else if table.is_integer(t) {
        s
    } else if is_void_pointer(table, s) {
        if first_null { t } else { s }
    } else if is_void_pointer(table, t) {
        if second_null { s } else { t }
    } else {
        s
    }
}

/// The type of a choice between two values, if there may be one.
fn chosen_type(table: &TypeTable, a: &Operand, b: &Operand) -> Option<CType>
    ensures { option_map (ctype table.now) result ≡ rules.chosen_type (ctype table.now a.now.t) (ctype table.now b.now.t) (operand table.now a.now) (operand table.now b.now) }
{
    match (table.layer(a.t), table.layer(b.t)) {
        (Layer::Integer(s), Layer::Integer(t)) => Some(CType::integer(usual(s, t))),
        (Layer::Void, Layer::Void) => Some(a.t),
        _ => {
            if !are_equatable(table, a, b) {
                return None;
            }
            let first = is_null(table, a.t, a.constant);
            let second = is_null(table, b.t, b.constant);
            Some(common_pointer(table, a.t, b.t, first, second))
        }
    }
}

/// The value of a choice of this type; one between integer constants is a constant.
fn choice_constant(table: &TypeTable, t: CType, c: &Operand, a: &Operand, b: &Operand) -> Constant
    ensures { shapes.constant result ≡ rules.choice_constant (ctype table.now t) (operand table.now c.now) (operand table.now a.now) (operand table.now b.now) }
{
    match table.layer(t) {
        Layer::Integer(kind) => {
            let first = constant_in(kind, integer_constant(table, a));
            let second = constant_in(kind, integer_constant(table, b));
            chosen(integer_constant(table, c), first, second)
        }
        _ => Constant::Varies,
    }
}

fn choice(
    alloc: Global,
    table: &TypeTable,
    t: CType,
    c: Operand,
    a: Operand,
    b: Operand,
) -> Result<Operand, NoMemory>
    ensures { IfOk result (λ x. operand table.now x ≡ rules.choice (ctype table.now t) (operand table.now c) (operand table.now a) (operand table.now b)) }
{
    let constant = choice_constant(table, t, &c, &a, &b);
    let kind = table.core_type(t);
    let first = convert_to(alloc, kind, a.e)?;
    let second = convert_to(alloc, kind, b.e)?;
    let e = choose(alloc, c.e, first, second)?;
    Ok(Operand {
        t,
        form: Form::Value,
        constant,
        e,
    })
}

/// `c ? a : b`
pub fn conditional(
    alloc: Global,
    table: &TypeTable,
    line: Line,
    c: Operand,
    a: Operand,
    b: Operand,
) -> Result<Operand, Refusal>
    ensures ok { IfOk result (λ x. rules.conditional line (operand table.now c) (operand table.now a) (operand table.now b) ≡ Ok (operand table.now x)) }
    ensures broken { (f : Fault) → IsErrOf result (Refusal.Broken f)
        → rules.conditional line (operand table.now c) (operand table.now a) (operand table.now b) ≡ Err f }
{
    if !table.is_scalar(c.t) {
        return Err(broken(StaticName::TypeMismatch, line));
    }
    match chosen_type(table, &a, &b) {
        Some(t) => Ok(choice(alloc, table, t, c, a, b)?),
        None => Err(broken(StaticName::TypeMismatch, line)),
    }
}
