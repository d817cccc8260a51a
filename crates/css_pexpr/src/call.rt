//! Calls.
ghost use Rattle.std.specs.Prelude.{◌≡◌, Some, [], IfOk};
ghost use Rattle.css_pexpr.specs.Frames.{with_argument, called};
ghost use Rattle.css_pexpr.specs.Shapes.{node, arguments};

use crate::node::{Arguments, Known, Node};
use css_base::{Line, NoMemory};
use css_tree::Expression;
use std::alloc::Global;

/// No arguments. Takes no memory.
pub(crate) fn no_arguments(alloc: Global) -> Option<Arguments>
    ensures { arguments result ≡ Some [] }
{
    Some(Arguments {
        all: Vec::new(alloc),
        levels: 0,
    })
}

/// One more argument behind the others.
pub(crate) fn with_argument(
    before: Option<Arguments>,
    next: Node,
) -> Result<Option<Arguments>, NoMemory>
    ensures { IfOk result (λ a. arguments a ≡ with_argument (arguments before) (node next)) }
{
    let Some(before) = before else {
        return Ok(None);
    };
    let Some(next) = next else {
        return Ok(None);
    };
    let Arguments { all, levels } = before;
    let mut all = all;
    let levels = levels.max(next.levels);
    all.push(next.into_tree())?;
    Ok(Some(Arguments { all, levels }))
}

/// A call of the name that was read, with these arguments.
#[tactic(auto, unfolding(crate::specs::Frames::capped))]
pub(crate) fn called(most: u32, line: Line, callee: Node, given: Option<Arguments>) -> Node
    ensures { node result ≡ called most line (node callee) (arguments given) }
{
    let Some(given) = given else {
        return None;
    };
    let Some(callee) = callee else {
        return None;
    };
    if given.levels >= most {
        return None;
    }
    let levels = given.levels + 1;
    let name = callee.into_tree().into_name()?;
    let tree = Expression::Call {
        line,
        name,
        arguments: given.all,
    };
    Some(Known { tree, levels })
}
