//! Where something stands.

/// Whether something stands outside blocks or in one (C99 6.2.1). In a block `static` is no word of a declaration or type.
#[derive(Clone, Copy, PartialEq, Eq, Debug)]
pub enum Scope {
    /// Outside blocks.
    File,
    /// In a block.
    Block,
}
