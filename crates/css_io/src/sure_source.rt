//! A source that never fails.
ghost use Rattle.std.specs.Prelude.{◌≡◌, ◌↔◌, ◌+◌, ◌<◌, ◌≤◌, [], length, take, Some, Ok, IfOk, min};
ghost use Rattle.css_io.specs.Outside.{Gives};

use crate::failed::Failed;
use crate::source::{Source, copy_front};
use std::marker::Model;

/// A source of bytes in memory, which never fails.
#[derive(Drop)]
pub struct SureSource {
    bytes: Vec<u8>,
    taken: usize,
}

impl Model for SureSource {
    ghost use Rattle.std.specs.Prelude.{◌≤◌, drop, vec_len};
    ghost use Rattle.css_io.specs.MemSource.{Reading};

    ghost Value = { Reading };

    ghost view = { λ s. record { left = drop s.taken s.bytes.items; taken = s.taken } };

    ghost invariant = { λ s. s.taken ≤ vec_len s.bytes };
}

impl SureSource {
    /// A source of these bytes.
    pub fn new(bytes: Vec<u8>) -> SureSource
        ensures left { result.left ≡ bytes.items }
        ensures taken { result.taken ≡ 0 }
    {
        SureSource { bytes, taken: 0 }
    }
}

impl Source for SureSource {
    ghost left = { λ s. Some s.left };

    ghost taken = { λ s. s.taken };

    ghost faults = { λ _. 0 };

    fn read(&mut self, part: &mut [u8]) -> Result<usize, Failed>
        // What each source says.
        ensures within { IfOk result (λ n. n ≤ length part.old) }
        ensures gives { IfOk result (λ n.
            Gives (Some self.old.left) (Some self.new.left) (take n part.new)) }
        ensures end { IfOk result (λ n. 0 < length part.old → ((n ≡ 0) ↔ (self.old.left ≡ []))) }
        ensures counts { IfOk result (λ n. self.new.taken ≡ self.old.taken + n) }

        // How much this one gives.
        ensures fits { result ≡ Ok (min (length part.old) (length self.old.left)) }
    {
        let count = copy_front(&self.bytes[self.taken..], part);
        self.taken += count;
        Ok(count)
    }
}
