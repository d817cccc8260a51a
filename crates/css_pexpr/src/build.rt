//! The nodes of a tree, each where it has no more levels than are kept.
ghost use Rattle.std.specs.Prelude.{◌≡◌, IfOk};
ghost use Rattle.css_tree.specs.Syntax as spec;
ghost use Rattle.css_tree.specs.Heights.{height};
ghost use Rattle.css_tree.specs.Shapes.{expression, type_name};
ghost use Rattle.css_pexpr.specs.Frames.{capped, made_of, made_of_two, made_of_three, prefixed};
ghost use Rattle.css_pexpr.specs.Shapes.{node};

use crate::family::{pair, single, triple};
use crate::node::{Known, Node};
use crate::prefix::Prefix;
use css_base::{Line, NoMemory};
use css_tree::{AssignOperator, BinaryOperator, Expression, TypeName};
use std::alloc::Global;

/// A tree of one level.
#[tactic(auto, unfolding(crate::specs::Frames::capped))]
pub(crate) fn leaf(most: u32, tree: Expression) -> Node
    requires one { height (expression tree) ≡ 1 }
    ensures { node result ≡ capped most (expression tree) }
{
    if most == 0 {
        return None;
    }
    Some(Known { tree, levels: 1 })
}

/// An operator before its operand.
pub(crate) fn prefixed(
    alloc: Global,
    most: u32,
    operator: Prefix,
    line: Line,
    operand: Node,
) -> Result<Node, NoMemory>
    ensures { IfOk result (λ n. node n ≡ made_of most (prefixed operator line) (node operand)) }
{
    let Some(inner) = single(alloc, most, operand)? else {
        return Ok(None);
    };
    let levels = inner.levels;
    let operand = inner.child;
    let tree = match operator {
        Prefix::Increment => Expression::PreIncrement { line, operand },
        Prefix::Decrement => Expression::PreDecrement { line, operand },
        Prefix::Sizeof => Expression::SizeofExpression { line, operand },
        Prefix::Operator(operator) => Expression::Unary {
            line,
            operator,
            operand,
        },
    };
    Ok(Some(Known { tree, levels }))
}

/// A cast.
pub(crate) fn cast(
    alloc: Global,
    most: u32,
    line: Line,
    to: TypeName,
    operand: Node,
) -> Result<Node, NoMemory>
    ensures { IfOk result (λ n. node n ≡ made_of most (spec.Cast line (type_name to)) (node operand)) }
{
    let Some(inner) = single(alloc, most, operand)? else {
        return Ok(None);
    };
    let levels = inner.levels;
    let tree = Expression::Cast {
        line,
        to,
        operand: inner.child,
    };
    Ok(Some(Known { tree, levels }))
}

/// `operand++`
pub(crate) fn incremented(
    alloc: Global,
    most: u32,
    line: Line,
    operand: Node,
) -> Result<Node, NoMemory>
    ensures { IfOk result (λ n. node n ≡ made_of most (spec.PostIncrement line) (node operand)) }
{
    let Some(inner) = single(alloc, most, operand)? else {
        return Ok(None);
    };
    let levels = inner.levels;
    let tree = Expression::PostIncrement {
        line,
        operand: inner.child,
    };
    Ok(Some(Known { tree, levels }))
}

/// `operand--`
pub(crate) fn decremented(
    alloc: Global,
    most: u32,
    line: Line,
    operand: Node,
) -> Result<Node, NoMemory>
    ensures { IfOk result (λ n. node n ≡ made_of most (spec.PostDecrement line) (node operand)) }
{
    let Some(inner) = single(alloc, most, operand)? else {
        return Ok(None);
    };
    let levels = inner.levels;
    let tree = Expression::PostDecrement {
        line,
        operand: inner.child,
    };
    Ok(Some(Known { tree, levels }))
}

/// A binary operator between its operands.
pub(crate) fn binary(
    alloc: Global,
    most: u32,
    line: Line,
    operator: BinaryOperator,
    left: Node,
    right: Node,
) -> Result<Node, NoMemory>
    ensures { IfOk result (λ n. node n ≡ made_of_two most (λ a b. spec.Binary line a operator b) (node left) (node right)) }
{
    let Some(inner) = pair(alloc, most, left, right)? else {
        return Ok(None);
    };
    let levels = inner.levels;
    let tree = Expression::Binary {
        line,
        left: inner.first,
        operator,
        right: inner.second,
    };
    Ok(Some(Known { tree, levels }))
}

/// An operator that assigns between its operands.
pub(crate) fn assigned(
    alloc: Global,
    most: u32,
    line: Line,
    operator: AssignOperator,
    place: Node,
    value: Node,
) -> Result<Node, NoMemory>
    ensures { IfOk result (λ n. node n ≡ made_of_two most (λ a b. spec.Assign line a operator b) (node place) (node value)) }
{
    let Some(inner) = pair(alloc, most, place, value)? else {
        return Ok(None);
    };
    let levels = inner.levels;
    let tree = Expression::Assign {
        line,
        place: inner.first,
        operator,
        value: inner.second,
    };
    Ok(Some(Known { tree, levels }))
}

/// `left, right`
pub(crate) fn sequence(
    alloc: Global,
    most: u32,
    line: Line,
    left: Node,
    right: Node,
) -> Result<Node, NoMemory>
    ensures { IfOk result (λ n. node n ≡ made_of_two most (spec.Comma line) (node left) (node right)) }
{
    let Some(inner) = pair(alloc, most, left, right)? else {
        return Ok(None);
    };
    let levels = inner.levels;
    let tree = Expression::Comma {
        line,
        left: inner.first,
        right: inner.second,
    };
    Ok(Some(Known { tree, levels }))
}

/// `array[index]`
pub(crate) fn element(
    alloc: Global,
    most: u32,
    line: Line,
    array: Node,
    index: Node,
) -> Result<Node, NoMemory>
    ensures { IfOk result (λ n. node n ≡ made_of_two most (spec.Index line) (node array) (node index)) }
{
    let Some(inner) = pair(alloc, most, array, index)? else {
        return Ok(None);
    };
    let levels = inner.levels;
    let tree = Expression::Index {
        line,
        array: inner.first,
        index: inner.second,
    };
    Ok(Some(Known { tree, levels }))
}

/// `condition ? first : second`
pub(crate) fn conditional(
    alloc: Global,
    most: u32,
    line: Line,
    condition: Node,
    first: Node,
    second: Node,
) -> Result<Node, NoMemory>
    ensures { IfOk result (λ n. node n ≡ made_of_three most (spec.Conditional line) (node condition) (node first) (node second)) }
{
    let Some(inner) = triple(alloc, most, condition, first, second)? else {
        return Ok(None);
    };
    let levels = inner.levels;
    let tree = Expression::Conditional {
        line,
        condition: inner.first,
        first: inner.second,
        second: inner.third,
    };
    Ok(Some(Known { tree, levels }))
}
