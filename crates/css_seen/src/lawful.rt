//! A value whose history is always legal.
ghost use Rattle.std.specs.Prelude.{List};

use crate::told::Told;

/// A value that tells its history, which is legal at every moment.
pub trait Lawful: Told {
    /// The histories that are legal, over the part that no entry changes.
    ghost legal: { Self.Fixed → List Self.Entry → Type 0 };

    /// Nothing happens. It tells that the history is legal.
    fn is_legal(&self)
        ensures { legal (Self.fixed self.now) (Self.history self.now) };
}
