//! Values of places, and conversions.
ghost use Rattle.std.specs.Prelude.{◌≡◌, Ok, Err, IfOk, IsErrOf};
ghost use Rattle.css_base.specs.declared.static_fault.StaticFault.{StaticFault as Fault};
ghost use Rattle.css_core.specs.Shapes.{expression};
ghost use Rattle.css_types.specs.Operands as rules;
ghost use Rattle.css_types.specs.Types as types;
ghost use Rattle.css_types.specs.Shapes as shapes;
ghost use Rattle.css_type_table.specs.Flat.{ctype};
ghost use Rattle.css_operands.specs.Shapes.{operand, typed, form};

use crate::operand::{Form, Operand, value};
use crate::refusal::{Refusal, broken};
use crate::words::{Typed, convert_to, load};
use css_base::{Line, NoMemory, StaticName};
use css_core::Expression;
use css_type_table::{CType, Layer, TypeTable};
use css_types::{Constant, is_zero};
use std::alloc::Global;

// ---- values

/// The value of an integer constant expression; a pointer is none, also where it is a null constant.
pub fn integer_constant(table: &TypeTable, a: &Operand) -> Constant
    ensures { shapes.constant result ≡ rules.integer_constant (operand table.now a.now) }
{
    if table.is_integer(a.t) {
        a.constant
    } else {
        Constant::Varies
    }
}

/// The core expression with its core type.
pub(crate) fn in_core(table: &TypeTable, a: Operand) -> Typed
    ensures { typed result ≡ rules.in_core (operand table.now a) }
{
    Typed {
        kind: table.core_type(a.t),
        e: a.e,
    }
}

/// The operand as a value: an array becomes a pointer to its first element, and another place what lies there (C99 6.3.2.1).
pub fn value_of(alloc: Global, table: &TypeTable, a: Operand) -> Result<Operand, NoMemory>
    ensures { IfOk result (λ v. operand table.now v ≡ rules.value_of (operand table.now a)) }
{
    match a.form {
        Form::Value => Ok(a),
        Form::Place => loaded(alloc, table, a.t, a.e),
        Form::Given => Ok(value(a.t, a.e)),
    }
}

/// What lies at a place of this type.
fn loaded(
    alloc: Global,
    table: &TypeTable,
    t: CType,
    e: Box<Expression>,
) -> Result<Operand, NoMemory>
    ensures { IfOk result (λ v. operand table.now v ≡ rules.loaded (ctype table.now t) (expression e.value)) }
{
    if table.is_array(t) {
        return Ok(value(value_type(table, t)?, e));
    }
    let e = load(alloc, table.core_type(t), e)?;
    Ok(value(t, e))
}

/// The type of the value of a place of this type.
pub(crate) fn value_type(table: &TypeTable, t: CType) -> Result<CType, NoMemory>
    ensures { IfOk result (λ v. ctype table.now v ≡ rules.value_type (ctype table.now t)) }
{
    match table.layer(t) {
        Layer::Array { count: _, of } => of.pointer(),
        _ => Ok(t),
    }
}

/// Whether the rules count it as a place.
pub(crate) fn is_place(f: Form) -> bool
    ensures { result ≡ rules.is_place (form f) }
{
    match f {
        Form::Value => false,
        Form::Place | Form::Given => true,
    }
}

// ---- conversions

/// Whether this is an integer constant 0, also cast to a pointer to void.
pub(crate) fn is_null(table: &TypeTable, t: CType, k: Constant) -> bool
    ensures { result ≡ rules.is_null (ctype table.now t) (shapes.constant k) }
{
    match table.layer(t) {
        Layer::Integer(_) => is_zero(k),
        Layer::Pointer(to) => table.is_void(to) && is_zero(k),
        _ => false,
    }
}

/// Whether pointers to these types may stand for one another.
fn are_alike(table: &TypeTable, s: CType, t: CType) -> bool
    ensures { result ≡ rules.are_alike (ctype table.now s) (ctype table.now t) }
{
    table.is_void(s) || table.is_void(t) || table.is_same(s, t)
}

fn is_pointer_for(table: &TypeTable, to: CType, t: CType) -> bool
    ensures { result ≡ rules.is_pointer_for (ctype table.now to) (ctype table.now t) }
{
    match table.layer(t) {
        Layer::Pointer(other) => are_alike(table, to, other),
        _ => false,
    }
}

/// Whether a value may be converted to the type by an assignment, a call, a return or an initialiser.
pub(crate) fn is_convertible(table: &TypeTable, to: CType, a: &Operand) -> bool
    ensures { result ≡ rules.is_convertible (ctype table.now to) (operand table.now a.now) }
{
    match table.layer(to) {
        Layer::Integer(_) => table.is_integer(a.t),
        Layer::Pointer(to) => { is_null(table, a.t, a.constant) || is_pointer_for(table, to, a.t) }
        _ => false,
    }
}

/// A value converted by an assignment, a call, a return or an initialiser. Breaks the rule on types where that isn't allowed.
pub fn converted_to(
    alloc: Global,
    table: &TypeTable,
    line: Line,
    t: CType,
    a: Operand,
) -> Result<Box<Expression>, Refusal>
    ensures ok { IfOk result (λ e. rules.converted_to line (ctype table.now t) (operand table.now a) ≡ Ok (expression e.value)) }
    ensures broken { (f : Fault) → IsErrOf result (Refusal.Broken f) → rules.converted_to line (ctype table.now t) (operand table.now a) ≡ Err f }
{
    if !is_convertible(table, t, &a) {
        return Err(broken(StaticName::TypeMismatch, line));
    }
    Ok(convert_to(alloc, table.core_type(t), a.e)?)
}
