//! Core expressions with the types of their values: where conversions stand, and how pointers are moved.
ghost use Rattle.std.specs.Prelude.{◌≡◌, IfOk, pos};
ghost use Rattle.css_num.specs.Operators.{unary_type, binary_type};
ghost use Rattle.css_core.specs.Shapes.{expression, given};
ghost use Rattle.css_core.specs.Core as tree;
ghost use Rattle.css_core.specs.Elaboration as core;
ghost use Rattle.css_operands.specs.Shapes.{typed};

use css_base::{IntType, NoMemory};
use css_core::{Expression, Gives};
use css_num::{BinOp, UnOp, promote, usual};
use std::alloc::Global;

/// An expression with the type of its value.
#[derive(Drop)]
pub(crate) struct Typed {
    pub(crate) kind: IntType,
    pub(crate) e: Box<Expression>,
}

// ---- one node

fn boxed(alloc: Global, e: Expression) -> Result<Box<Expression>, NoMemory>
    ensures { IfOk result (λ boxed. boxed.value ≡ e) }
{
    Ok(Box::new(alloc, e)?)
}

/// A constant.
pub(crate) fn constant(alloc: Global, value: i128) -> Result<Box<Expression>, NoMemory>
    ensures { IfOk result (λ x. expression x.value ≡ tree.Number value) }
{
    boxed(alloc, Expression::Number { value })
}

/// The expression in another type.
pub(crate) fn convert_to(
    alloc: Global,
    kind: IntType,
    e: Box<Expression>,
) -> Result<Box<Expression>, NoMemory>
    ensures { IfOk result (λ x. expression x.value ≡ tree.Convert kind (expression e.value)) }
{
    boxed(alloc, Expression::Convert { kind, operand: e })
}

/// What lies at a place.
pub(crate) fn load(
    alloc: Global,
    kind: IntType,
    place: Box<Expression>,
) -> Result<Box<Expression>, NoMemory>
    ensures { IfOk result (λ x. expression x.value ≡ tree.Value kind (expression place.value)) }
{
    boxed(alloc, Expression::Value { kind, place })
}

pub(crate) fn store(
    alloc: Global,
    kind: IntType,
    place: Box<Expression>,
    value: Box<Expression>,
) -> Result<Box<Expression>, NoMemory>
    ensures { IfOk result (λ x. expression x.value ≡ tree.Assign kind (expression place.value) (expression value.value)) }
{
    boxed(alloc, Expression::Assign { kind, place, value })
}

fn operate_on(
    alloc: Global,
    operator: UnOp,
    kind: IntType,
    operand: Box<Expression>,
) -> Result<Box<Expression>, NoMemory>
    ensures { IfOk result (λ x. expression x.value ≡ tree.Unary operator kind (expression operand.value)) }
{
    boxed(
        alloc,
        Expression::Unary {
            operator,
            kind,
            operand,
        },
    )
}

pub(crate) fn operate(
    alloc: Global,
    operator: BinOp,
    kind: IntType,
    left: Box<Expression>,
    right: Box<Expression>,
) -> Result<Box<Expression>, NoMemory>
    ensures { IfOk result (λ x. expression x.value ≡ tree.Binary operator kind (expression left.value) (expression right.value)) }
{
    boxed(
        alloc,
        Expression::Binary {
            operator,
            kind,
            left,
            right,
        },
    )
}

pub(crate) fn both(
    alloc: Global,
    left: Box<Expression>,
    right: Box<Expression>,
) -> Result<Box<Expression>, NoMemory>
    ensures { IfOk result (λ x. expression x.value ≡ tree.And (expression left.value) (expression right.value)) }
{
    boxed(alloc, Expression::And { left, right })
}

pub(crate) fn either(
    alloc: Global,
    left: Box<Expression>,
    right: Box<Expression>,
) -> Result<Box<Expression>, NoMemory>
    ensures { IfOk result (λ x. expression x.value ≡ tree.Or (expression left.value) (expression right.value)) }
{
    boxed(alloc, Expression::Or { left, right })
}

pub(crate) fn sequence(
    alloc: Global,
    first: Box<Expression>,
    second: Box<Expression>,
) -> Result<Box<Expression>, NoMemory>
    ensures { IfOk result (λ x. expression x.value ≡ tree.Sequence (expression first.value) (expression second.value)) }
{
    boxed(alloc, Expression::Sequence { first, second })
}

pub(crate) fn choose(
    alloc: Global,
    test: Box<Expression>,
    first: Box<Expression>,
    second: Box<Expression>,
) -> Result<Box<Expression>, NoMemory>
    ensures { IfOk result (λ x. expression x.value ≡ tree.Choice (expression test.value) (expression first.value) (expression second.value)) }
{
    boxed(
        alloc,
        Expression::Choice {
            test,
            first,
            second,
        },
    )
}

fn update(
    alloc: Global,
    gives: Gives,
    kind: IntType,
    operator: BinOp,
    within: IntType,
    place: Box<Expression>,
    value: Box<Expression>,
) -> Result<Box<Expression>, NoMemory>
    ensures { IfOk result (λ x. expression x.value ≡ tree.Update (given gives) kind operator within (expression place.value) (expression value.value)) }
{
    boxed(
        alloc,
        Expression::Update {
            gives,
            kind,
            operator,
            within,
            place,
            value,
        },
    )
}

// ---- integers

fn unary_type(op: UnOp, t: IntType) -> IntType
    ensures { result ≡ unary_type op t }
{
    match op {
        UnOp::Not => IntType::Int,
        _ => t,
    }
}

fn binary_type(op: BinOp, t: IntType) -> IntType
    ensures { result ≡ binary_type op t }
{
    match op {
        BinOp::Lt | BinOp::Gt | BinOp::Le | BinOp::Ge | BinOp::Eq | BinOp::Ne => IntType::Int,
        _ => t,
    }
}

/// `!` of an integer or a pointer, which is not promoted (C99 6.5.3.3).
pub(crate) fn negation_of(alloc: Global, a: Typed) -> Result<Typed, NoMemory>
    ensures { IfOk result (λ x. typed x ≡ core.unary_of UnOp.Not (typed a)) }
{
    let e = operate_on(alloc, UnOp::Not, a.kind, a.e)?;
    Ok(Typed {
        kind: IntType::Int,
        e,
    })
}

/// An operator on an integer, which is promoted but for `!` (C99 6.5.3.3).
pub(crate) fn unary_of(alloc: Global, op: UnOp, a: Typed) -> Result<Typed, NoMemory>
    ensures { IfOk result (λ x. typed x ≡ core.unary_of op (typed a)) }
{
    match op {
        UnOp::Not => negation_of(alloc, a),
        _ => {
            let kind = promote(a.kind);
            let operand = convert_to(alloc, kind, a.e)?;
            let e = operate_on(alloc, op, kind, operand)?;
            Ok(Typed {
                kind: unary_type(op, kind),
                e,
            })
        }
    }
}

/// The types to which the operands of an operator are converted.
#[derive(Clone, Copy)]
struct Sides {
    left: IntType,
    right: IntType,
}

/// A shift promotes each side alone, the others take the usual conversions (C99 6.5.5 to 6.5.12).
fn sides_of(op: BinOp, a: IntType, b: IntType) -> Sides
    ensures left { result.left ≡ (core.sides_of op a b).left }
    ensures right { result.right ≡ (core.sides_of op a b).right }
{
    match op {
        BinOp::Shl | BinOp::Shr => Sides {
            left: promote(a),
            right: promote(b),
        },
        _ => {
            let within = usual(a, b);
            Sides {
                left: within,
                right: within,
            }
        }
    }
}

/// An operator between integers.
pub(crate) fn binary_of(alloc: Global, op: BinOp, a: Typed, b: Typed) -> Result<Typed, NoMemory>
    ensures { IfOk result (λ x. typed x ≡ core.binary_of op (typed a) (typed b)) }
{
    let sides = sides_of(op, a.kind, b.kind);
    let left = convert_to(alloc, sides.left, a.e)?;
    let right = convert_to(alloc, sides.right, b.e)?;
    let e = operate(alloc, op, sides.left, left, right)?;
    Ok(Typed {
        kind: binary_type(op, sides.left),
        e,
    })
}

/// What `op=` makes of a place of an integer type (C99 6.5.16.2).
pub(crate) fn updated(
    alloc: Global,
    gives: Gives,
    kind: IntType,
    op: BinOp,
    place: Box<Expression>,
    b: Typed,
) -> Result<Box<Expression>, NoMemory>
    ensures { IfOk result (λ x. expression x.value ≡ (core.updated (given gives) kind op (expression place.value) (typed b)).e) }
{
    let sides = sides_of(op, kind, b.kind);
    let value = convert_to(alloc, sides.right, b.e)?;
    update(alloc, gives, kind, op, sides.left, place, value)
}

// ---- pointers to elements of so many bytes

/// An index in bytes.
pub(crate) fn scaled(alloc: Global, size: u64, i: Typed) -> Result<Box<Expression>, NoMemory>
    ensures { IfOk result (λ x. expression x.value ≡ core.scaled size (typed i)) }
{
    let index = convert_to(alloc, IntType::UInt, i.e)?;
    let bytes = constant(alloc, i128::from(size))?;
    operate(alloc, BinOp::Mul, IntType::UInt, index, bytes)
}

/// `p + i` or `p - i`
pub(crate) fn moved(
    alloc: Global,
    op: BinOp,
    size: u64,
    p: Box<Expression>,
    i: Typed,
) -> Result<Box<Expression>, NoMemory>
    ensures { IfOk result (λ x. expression x.value ≡ (core.moved op size (expression p.value) (typed i)).e) }
{
    let index = scaled(alloc, size, i)?;
    operate(alloc, op, IntType::UInt, p, index)
}

/// `p += i` or `p -= i`
pub(crate) fn moved_at(
    alloc: Global,
    gives: Gives,
    op: BinOp,
    size: u64,
    place: Box<Expression>,
    i: Typed,
) -> Result<Box<Expression>, NoMemory>
    ensures { IfOk result (λ x. expression x.value ≡ (core.moved_at (given gives) op size (expression place.value) (typed i)).e) }
{
    let index = scaled(alloc, size, i)?;
    update(alloc, gives, IntType::UInt, op, IntType::UInt, place, index)
}

/// `p - q`
pub(crate) fn difference(
    alloc: Global,
    size: u64,
    p: Box<Expression>,
    q: Box<Expression>,
) -> Result<Typed, NoMemory>
    ensures { IfOk result (λ x. typed x ≡ core.difference size (expression p.value) (expression q.value)) }
{
    let between = operate(alloc, BinOp::Sub, IntType::UInt, p, q)?;
    let signed = convert_to(alloc, IntType::Int, between)?;
    let bytes = constant(alloc, i128::from(size))?;
    let e = operate(alloc, BinOp::Div, IntType::Int, signed, bytes)?;
    Ok(Typed {
        kind: IntType::Int,
        e,
    })
}

/// `p < q`, `p == q` and the like.
pub(crate) fn compared(
    alloc: Global,
    op: BinOp,
    p: Box<Expression>,
    q: Box<Expression>,
) -> Result<Typed, NoMemory>
    ensures { IfOk result (λ x. typed x ≡ core.compared op (expression p.value) (expression q.value)) }
{
    let e = operate(alloc, op, IntType::UInt, p, q)?;
    Ok(Typed {
        kind: IntType::Int,
        e,
    })
}

/// The step of `++` and `--`.
pub(crate) fn one(alloc: Global) -> Result<Typed, NoMemory>
    ensures { IfOk result (λ x. typed x ≡ core.one) }
{
    let e = constant(alloc, 1)?;
    Ok(Typed {
        kind: IntType::Int,
        e,
    })
}
