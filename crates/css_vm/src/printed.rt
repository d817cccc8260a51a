//! What one `out` writes.
ghost use Rattle.std.specs.Prelude.{◌≡◌, [], ◌∷◌};

use std::marker::Model;

/// The bytes that one `out` writes. Contracts see their list.
#[derive(Drop)]
pub struct Printed {
    bytes: [u8; 1],
}

impl Model for Printed {
    ghost use Rattle.std.specs.Prelude.{ℕ, List, slice_index, ◌∷◌, []};

    ghost Value = { List ℕ };

    ghost view = { λ p. p.bytes };
}

impl Printed {
    /// One byte.
    pub fn byte(byte: u8) -> Printed
        ensures { result ≡ byte ∷ [] }
    {
        Printed { bytes: [byte] }
    }

    /// Lends the bytes.
    pub fn as_slice(&self) -> &[u8]
        ensures { result.now ≡ self.now }
    {
        &self.bytes
    }
}
