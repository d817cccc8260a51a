//! Expressions with their types.
ghost use Rattle.std.specs.Prelude.{◌≡◌, IfOk};
ghost use Rattle.css_core.specs.Core as core;
ghost use Rattle.css_core.specs.Shapes.{expression};
ghost use Rattle.css_types.specs.Operands as rules;
ghost use Rattle.css_types.specs.Constants as constants;
ghost use Rattle.css_types.specs.Shapes as shapes;
ghost use Rattle.css_type_table.specs.Lists.{Lists};
ghost use Rattle.css_type_table.specs.Flat.{ctype};
ghost use Rattle.css_operands.specs.Shapes.{operand, typed};

use crate::words::Typed;
use css_base::{IntType, NoMemory};
use css_core::Expression;
use css_type_table::CType;
use css_types::Constant;
use std::alloc::Global;

/// What a core expression gives.
#[derive(Clone, Copy, PartialEq, Eq)]
pub enum Form {
    /// The value itself.
    Value,
    /// The address of the place where it lies.
    Place,
    /// The value that a task is given for a parameter, which counts as a place for the rules.
    Given,
}

/// An expression with its type, which is one of a table. An array is a place.
#[derive(Drop)]
pub struct Operand {
    pub t: CType,
    pub form: Form,
    pub constant: Constant,
    pub e: Box<Expression>,
}

/// A value that is no constant.
pub fn value(t: CType, e: Box<Expression>) -> Operand
    ensures { (lists : Lists) → operand lists result ≡ rules.value (ctype lists t) (expression e.value) }
{
    Operand {
        t,
        form: Form::Value,
        constant: Constant::Varies,
        e,
    }
}

/// A place, of which the core expression is the address.
pub fn place(t: CType, e: Box<Expression>) -> Operand
    ensures { (lists : Lists) → operand lists result ≡ rules.place (ctype lists t) (expression e.value) }
{
    Operand {
        t,
        form: Form::Place,
        constant: Constant::Varies,
        e,
    }
}

/// What a task is given for its parameter of a number.
pub fn given(alloc: Global, t: CType, parameter: u32) -> Result<Operand, NoMemory>
    ensures { IfOk result (λ a. (lists : Lists) → operand lists a ≡ record { t = ctype lists t; form = rules.IsGiven; constant = constants.Varies; e = core.Given parameter }) }
{
    let e = Box::new(alloc, Expression::Given { parameter })?;
    Ok(Operand {
        t,
        form: Form::Given,
        constant: Constant::Varies,
        e,
    })
}

/// A constant of the text.
pub fn number(alloc: Global, kind: IntType, value: u64) -> Result<Operand, NoMemory>
    ensures { IfOk result (λ a. (lists : Lists) → operand lists a ≡ rules.number kind value) }
{
    let value = i128::from(value);
    let e = Box::new(alloc, Expression::Number { value })?;
    Ok(integer(Typed { kind, e }, Constant::Known(value)))
}

/// A value of an integer type.
pub(crate) fn integer(a: Typed, constant: Constant) -> Operand
    ensures { (lists : Lists) → operand lists result ≡ rules.integer (typed a) (shapes.constant constant) }
{
    Operand {
        t: CType::integer(a.kind),
        form: Form::Value,
        constant,
        e: a.e,
    }
}
