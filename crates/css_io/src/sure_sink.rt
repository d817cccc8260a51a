//! A sink that never fails.
ghost use Rattle.std.specs.Prelude.{◌≡◌, ◌<◌, length, None, Ok};

use crate::failed::Failed;
use crate::sink::Sink;

/// A sink that takes each piece whole and never fails. It keeps no byte and tells none.
#[derive(Clone, Copy, Default)]
pub struct SureSink {}

impl SureSink {
    /// A new sink.
    pub fn new() -> SureSink {
        SureSink {}
    }
}

impl Sink for SureSink {
    ghost written = { λ _. None };

    ghost faults = { λ _. 0 };

    fn write(&mut self, piece: &[u8]) -> Result<usize, Failed>
        requires { 0 < length piece.now }
        ensures whole { result ≡ Ok (length piece.now) }
    {
        Ok(piece.len())
    }
}
