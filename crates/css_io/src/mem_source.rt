//! A source in memory.
ghost use Rattle.std.specs.Prelude.{◌≡◌, ◌↔◌, ◌+◌, ◌<◌, ◌≤◌, [], length, take, Some, Contains, IsErr, IfOk, OnOk, OnErr, min};
ghost use Rattle.css_io.specs.Outside.{Rose, Gives};
ghost use Rattle.css_io.specs.Calls.{one_more};

use crate::calls::Calls;
use crate::failed::Failed;
use crate::source::{Source, copy_front};
use std::marker::Model;

/// A source of bytes in memory, which fails at the calls that it is told.
#[derive(Drop)]
pub struct MemSource {
    bytes: Vec<u8>,
    taken: usize,
    calls: Calls,
    faults: u64,
}

impl Model for MemSource {
    ghost use Rattle.std.specs.Prelude.{◌≤◌, drop, vec_len};
    ghost use Rattle.css_io.specs.MemSource.{SourceInMemory};

    ghost Value = { SourceInMemory };

    ghost view = { λ s. record {
      left = drop s.taken s.bytes.items;
      taken = s.taken;
      next = s.calls.next;
      failing = s.calls.failing.items;
      faults = s.faults;
    } };

    ghost invariant = { λ s. s.taken ≤ vec_len s.bytes };
}

impl MemSource {
    /// A source of these bytes, whose calls of these numbers fail; the first call is number 0.
    pub fn new(bytes: Vec<u8>, failing: Vec<u64>) -> MemSource
        ensures left { result.left ≡ bytes.items }
        ensures taken { result.taken ≡ 0 }
        ensures next { result.next ≡ 0 }
        ensures failing { result.failing ≡ failing.items }
        ensures faults { result.faults ≡ 0 }
    {
        MemSource {
            bytes,
            taken: 0,
            calls: Calls::new(failing),
            faults: 0,
        }
    }
}

impl Source for MemSource {
    ghost left = { λ s. Some s.left };

    ghost taken = { λ s. s.taken };

    ghost faults = { λ s. s.faults };

    fn read(&mut self, part: &mut [u8]) -> Result<usize, Failed>
        // What each source says.
        ensures within { IfOk result (λ n. n ≤ length part.old) }
        ensures gives { IfOk result (λ n.
            Gives (Some self.old.left) (Some self.new.left) (take n part.new)) }
        ensures end { IfOk result (λ n. 0 < length part.old → ((n ≡ 0) ↔ (self.old.left ≡ []))) }
        ensures counts { IfOk result (λ n. self.new.taken ≡ self.old.taken + n) }
        ensures failed { OnErr result (Rose self.old.faults self.new.faults) }
        ensures kept { OnErr result ((Some self.new.left ≡ Some self.old.left) × (self.new.taken ≡ self.old.taken)) }
        ensures never_falls { self.old.faults ≤ self.new.faults }

        // When this one fails, and how much it gives.
        ensures fails { IsErr result ↔ Contains self.old.failing self.old.next }
        ensures fits { IfOk result (λ n. n ≡ min (length part.old) (length self.old.left)) }
        ensures raised { OnErr result (self.new.faults ≡ one_more self.old.faults) }
        ensures no_fault { OnOk result (self.new.faults ≡ self.old.faults) }
        ensures numbered { self.new.next ≡ one_more self.old.next }
        ensures same_failing { self.new.failing ≡ self.old.failing }
    {
        if self.calls.fails_next() {
            self.faults = self.faults.saturating_add(1);
            return Err(Failed);
        }
        let count = copy_front(&self.bytes[self.taken..], part);
        self.taken += count;
        Ok(count)
    }
}
