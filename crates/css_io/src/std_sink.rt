//! A sink over a writer of the standard library.
ghost use Rattle.std.specs.Prelude.{◌≡◌, ◌<◌, ◌≤◌, length, take, None, IfOk, OnOk, OnErr};
ghost use Rattle.std.specs.Io.KnownBytes as known;
ghost use Rattle.css_io.specs.Outside.{Rose};
ghost use Rattle.css_io.specs.Calls.{one_more};

use crate::failed::Failed;
use crate::retrying::write_once;
use crate::sink::Sink;
use std::io::Write;
use std::marker::Model;

/// A sink over a writer, as standard output. It tells no byte, and counts a fault at each error of the writer and each
/// write of nothing.
#[derive(Drop)]
pub struct StdSink<W> {
    writer: W,
    faults: u64,
}

impl<W> Model for StdSink<W> {
    ghost use Rattle.css_io.specs.Edge.{Counted};

    ghost Value = { Counted W };

    ghost view = { λ s. record { inner = s.writer; faults = s.faults } };
}

impl<W> StdSink<W> {
    /// A sink over this writer, with no fault counted.
    pub fn new(writer: W) -> StdSink<W>
        ensures inner { result.inner ≡ writer }
        ensures faults { result.faults ≡ 0 }
    {
        StdSink { writer, faults: 0 }
    }
}

impl<W: Write> Sink for StdSink<W> {
    ghost written = { λ _. None };

    ghost faults = { λ s. s.faults };

    fn write(&mut self, piece: &[u8]) -> Result<usize, Failed>
        requires { 0 < length piece.now }
        // What each sink says.
        ensures count { IfOk result (λ n. (1 ≤ n) × (n ≤ length piece.now)) }
        ensures failed { OnErr result (Rose self.old.faults self.new.faults) }
        ensures never_falls { self.old.faults ≤ self.new.faults }

        // What it does to the writer, whose bytes may be known.
        ensures passes { IfOk result (λ n.
            known.Appends (W.contents self.old.inner) (W.contents self.new.inner) (take n piece.now)) }
        ensures passes_none { OnErr result (known.Keeps (W.contents self.old.inner) (W.contents self.new.inner)) }
        ensures raised { OnErr result (self.new.faults ≡ one_more self.old.faults) }
        ensures no_fault { OnOk result (self.new.faults ≡ self.old.faults) }
    {
        match write_once(&mut self.writer, piece) {
            Some(count) => Ok(count),
            None => {
                self.faults = self.faults.saturating_add(1);
                Err(Failed)
            }
        }
    }
}
