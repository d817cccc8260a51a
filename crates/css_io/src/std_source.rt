//! A source over a reader of the standard library.
ghost use Rattle.std.specs.Prelude.{◌≡◌, ◌+◌, ◌-◌, ◌<◌, ◌≤◌, ◌^◌, length, take, None, IsErr, IfOk, OnOk, OnErr};
ghost use Rattle.std.specs.Io.KnownBytes as known;
ghost use Rattle.css_io.specs.Outside.{Rose};
ghost use Rattle.css_io.specs.Calls.{one_more};

use crate::failed::Failed;
use crate::retrying::read_once;
use crate::source::Source;
use std::io::Read;
use std::marker::Model;

/// A source over a reader, as standard input. It tells no byte. It counts the bytes taken, and a fault at each error of the
/// reader and at each read that could take that number past 2^64 - 1.
#[derive(Drop)]
pub struct StdSource<R> {
    reader: R,
    taken: u64,
    faults: u64,
}

impl<R> Model for StdSource<R> {
    ghost use Rattle.css_io.specs.Edge.{CountedReader};

    ghost Value = { CountedReader R };

    ghost view = { λ s. record { inner = s.reader; taken = s.taken; faults = s.faults } };
}

impl<R> StdSource<R> {
    /// A source over this reader, with no byte taken and no fault counted.
    pub fn new(reader: R) -> StdSource<R>
        ensures inner { result.inner ≡ reader }
        ensures taken { result.taken ≡ 0 }
        ensures faults { result.faults ≡ 0 }
    {
        StdSource {
            reader,
            taken: 0,
            faults: 0,
        }
    }
}

impl<R: Read> Source for StdSource<R> {
    ghost left = { λ _. None };

    ghost taken = { λ s. s.taken };

    ghost faults = { λ s. s.faults };

    fn read(&mut self, part: &mut [u8]) -> Result<usize, Failed>
        // What each source says.
        ensures within { IfOk result (λ n. n ≤ length part.old) }
        ensures counts { IfOk result (λ n. self.new.taken ≡ self.old.taken + n) }
        ensures failed { OnErr result (Rose self.old.faults self.new.faults) }
        ensures none_taken { OnErr result (self.new.taken ≡ self.old.taken) }
        ensures never_falls { self.old.faults ≤ self.new.faults }

        // What it does to the reader, whose bytes may be known.
        ensures passes { IfOk result (λ n.
            known.Consumes (R.remaining self.old.inner) (R.remaining self.new.inner) (take n part.new)) }
        ensures passes_none { OnErr result (known.Keeps (R.remaining self.old.inner) (R.remaining self.new.inner)) }
        ensures ends { IfOk result (λ n.
            n ≡ 0 → 0 < length part.old → known.IsAtEnd (R.remaining self.new.inner)) }
        ensures full { 2 ^ 64 - 1 < self.old.taken + length part.old → IsErr result }
        ensures raised { OnErr result (self.new.faults ≡ one_more self.old.faults) }
        ensures no_fault { OnOk result (self.new.faults ≡ self.old.faults) }
    {
        let count = if part.len() as u64 > u64::MAX - self.taken {
            None
        } else {
            read_once(&mut self.reader, part)
        };
        match count {
            Some(count) => {
                self.taken += count as u64;
                Ok(count)
            }
            None => {
                self.faults = self.faults.saturating_add(1);
                Err(Failed)
            }
        }
    }
}
