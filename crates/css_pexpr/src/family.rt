//! Putting children under a node, where it has no more levels than are kept.
ghost use Rattle.std.specs.Prelude.{◌≡◌, ◌+◌, max, option_map, IfOk};
ghost use Rattle.css_tree.specs.Shapes.{expression};
ghost use Rattle.css_pexpr.specs.Frames.{under, under_two, under_three};
ghost use Rattle.css_pexpr.specs.Shapes.{node, two, three};

use crate::children::{Pair, Single, Triple};
use crate::node::{Known, Node};
use css_base::NoMemory;
use css_tree::Expression;
use std::alloc::Global;

/// The expression on the heap.
fn boxed(alloc: Global, known: Known) -> Result<Box<Expression>, NoMemory>
    ensures { IfOk result (λ b. b.value ≡ known.tree) }
{
    Ok(Box::new(alloc, known.into_tree())?)
}

/// One child.
pub(crate) fn single(alloc: Global, most: u32, child: Node) -> Result<Option<Single>, NoMemory>
    ensures { IfOk result (λ o. option_map (λ s. expression s.child.value) o ≡ under most (node child)) }
{
    let Some(child) = child else {
        return Ok(None);
    };
    if child.levels >= most {
        return Ok(None);
    }
    let levels = child.levels + 1;
    let child = boxed(alloc, child)?;
    Ok(Some(Single { child, levels }))
}

/// Two children.
pub(crate) fn pair(
    alloc: Global,
    most: u32,
    first: Node,
    second: Node,
) -> Result<Option<Pair>, NoMemory>
    ensures { IfOk result (λ o. option_map two o ≡ under_two most (node first) (node second)) }
{
    let Some(first) = first else {
        return Ok(None);
    };
    let Some(second) = second else {
        return Ok(None);
    };
    let below = first.levels.max(second.levels);
    if below >= most {
        return Ok(None);
    }
    let first = boxed(alloc, first)?;
    let second = boxed(alloc, second)?;
    Ok(Some(Pair {
        first,
        second,
        levels: below + 1,
    }))
}

/// Three children.
pub(crate) fn triple(
    alloc: Global,
    most: u32,
    first: Node,
    second: Node,
    third: Node,
) -> Result<Option<Triple>, NoMemory>
    ensures { IfOk result (λ o. option_map three o ≡ under_three most (node first) (node second) (node third)) }
{
    let Some(first) = first else {
        return Ok(None);
    };
    let Some(second) = second else {
        return Ok(None);
    };
    let Some(third) = third else {
        return Ok(None);
    };
    let below = first.levels.max(second.levels.max(third.levels));
    if below >= most {
        return Ok(None);
    }
    let first = boxed(alloc, first)?;
    let second = boxed(alloc, second)?;
    let third = boxed(alloc, third)?;
    Ok(Some(Triple {
        first,
        second,
        third,
        levels: below + 1,
    }))
}
