//! How an expression is read.

use css_tree::Scope;

/// Where an expression stands, its level in the grammar, and the most levels of the trees that are kept.
#[derive(Clone, Copy)]
pub(crate) struct Manner {
    pub scope: Scope,
    pub level: u8,
    pub most: u32,
}
