//! Expressions that were read, and how they are put together.
ghost use Rattle.std.specs.Prelude.{◌≡◌, map};
ghost use Rattle.css_tree.specs.Shapes.{expression};
ghost use Rattle.css_tree.specs.Heights.{height, height_of_arguments};
ghost use Rattle.css_pexpr.specs.Arguments.{in_order};

use css_tree::Expression;

/// An expression with its levels.
pub(crate) struct Known {
    pub tree: Expression,
    pub levels: u32,
    ghost levels_are: { levels ≡ height (expression tree) },
}

// By hand, so that a place that lets an expression go is one call in its proof.
impl Drop for Known {
    fn drop(self) {
        let Known { tree: _, levels: _ } = self;
    }
}

impl Known {
    ghost use Rattle.std.specs.Prelude.{◌≡◌};

    /// The expression.
    pub(crate) fn into_tree(self) -> Expression
        ensures { result ≡ self.tree }
    {
        let Known { tree, levels: _ } = self;
        tree
    }
}

/// An expression, or None where it has more levels than are kept.
pub(crate) type Node = Option<Known>;

/// Arguments with the levels of the highest.
#[derive(Drop)]
pub(crate) struct Arguments {
    pub all: Vec<Expression>,
    pub levels: u32,
    ghost levels_are: { levels ≡ height_of_arguments (in_order (map expression all.items)) },
}
