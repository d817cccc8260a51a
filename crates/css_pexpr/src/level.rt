//! What kind of expression is read.

/// An expression of the grammar that stands in other productions.
#[derive(Clone, Copy, PartialEq, Eq, Debug)]
pub enum Level {
    /// `expr`: with commas.
    Expr,
    /// `assign`: without commas.
    Assign,
    /// `cond`: without commas and assignments.
    Cond,
}

impl Level {
    ghost use Rattle.std.specs.Prelude.{◌≡◌};
    ghost use Rattle.css_pexpr.specs.Longest.{level_number};

    /// The level of the grammar.
    pub(crate) fn number(self) -> u8
        ensures { result ≡ level_number self }
    {
        match self {
            Level::Expr => 0,
            Level::Assign => 1,
            Level::Cond => 2,
        }
    }
}
