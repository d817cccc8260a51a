//! The children of a node, on the heap.
ghost use Rattle.std.specs.Prelude.{◌≡◌, ◌+◌, max, map, option_map, IfOk};
ghost use Rattle.css_tree.specs.Shapes.{expression};
ghost use Rattle.css_tree.specs.Heights.{height};

use css_tree::Expression;

/// One child, and the levels of its node.
#[derive(Drop)]
pub(crate) struct Single {
    pub child: Box<Expression>,
    pub levels: u32,
    ghost levels_are: { levels ≡ 1 + height (expression child.value) },
}

/// Two children, and the levels of their node.
#[derive(Drop)]
pub(crate) struct Pair {
    pub first: Box<Expression>,
    pub second: Box<Expression>,
    pub levels: u32,
    ghost levels_are: { levels ≡ 1 + max (height (expression first.value)) (height (expression second.value)) },
}

/// Three children, and the levels of their node.
#[derive(Drop)]
pub(crate) struct Triple {
    pub first: Box<Expression>,
    pub second: Box<Expression>,
    pub third: Box<Expression>,
    pub levels: u32,
    ghost levels_are: { levels ≡ 1 + max (height (expression first.value)) (max (height (expression second.value)) (height (expression third.value))) },
}
