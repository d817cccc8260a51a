//! Bytes that are shared.
ghost use Rattle.std.specs.Prelude.{◌≡◌, IfOk};

use crate::memory::NoMemory;
use std::alloc::Global;
use std::marker::Model;
use std::sync::Arc;

/// Bytes that don't change, which have any number of owners, also in other threads. Contracts see their list.
#[derive(Drop)]
pub struct Buffer {
    bytes: Arc<Vec<u8>>,
}

impl Model for Buffer {
    ghost use Rattle.std.specs.Prelude.{ℕ, List};
    ghost use Rattle.std.specs.Arc.{arc_value};

    ghost Value = { List ℕ };

    ghost view = { λ b. (arc_value b.bytes).items };
}

impl Buffer {
    /// A buffer of these bytes. The bytes are gone where there was no memory.
    pub fn new(alloc: Global, bytes: Vec<u8>) -> Result<Buffer, NoMemory>
        ensures { IfOk result (λ b. b ≡ bytes.items) }
    {
        let bytes = Arc::new(alloc, bytes)?;
        Ok(Buffer { bytes })
    }

    /// Lends the bytes.
    pub fn bytes(&self) -> &[u8]
        ensures { result.now ≡ self.now }
    {
        self.bytes.as_slice()
    }

    /// Another owner of the same bytes, which aren't copied. `NoMemory` where the owners are too many to be counted.
    pub fn share(&self) -> Result<Buffer, NoMemory>
        ensures { IfOk result (λ b. b ≡ self.now) }
    {
        let bytes = Arc::try_clone(&self.bytes)?;
        Ok(Buffer { bytes })
    }
}
