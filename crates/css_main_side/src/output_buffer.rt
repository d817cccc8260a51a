//! Output on its way to a sink.
ghost use Rattle.std.specs.Prelude.{◌≡◌, ◌≤◌, [], ◌++◌, length, IfOk, OnOk, OnErr};
ghost use Rattle.css_io.specs.Changes.{HasFailed, Got, GotPrefix, change};
ghost use Rattle.css_main_side.specs.OutputBuffer.{Passes};

use css_base::NoMemory;
use css_io::{Failed, Sink, write_all};
use std::alloc::Global;
use std::marker::Model;

/// The most bytes that are pending.
const ROOM: usize = 65_536;

/// Bytes that are written but not yet in the sink, at most 65,536. Contracts see their list.
#[derive(Drop)]
pub struct OutputBuffer {
    bytes: Vec<u8>,
}

impl Model for OutputBuffer {
    ghost use Rattle.std.specs.Prelude.{ℕ, List, ◌≤◌, vec_capacity, vec_len};

    ghost Value = { List ℕ };

    ghost view = { λ p. p.bytes.items };

    ghost invariant = { λ p. (vec_len p.bytes ≤ 65536) × (65536 ≤ vec_capacity p.bytes) };
}

impl OutputBuffer {
    /// Nothing pending. Takes its memory here.
    pub fn new(alloc: Global) -> Result<OutputBuffer, NoMemory>
        ensures { IfOk result (λ p. p ≡ []) }
    {
        let bytes = Vec::with_capacity(alloc, ROOM)?;
        Ok(OutputBuffer { bytes })
    }

    /// Writes a piece of at most 65,536 bytes, through the sink where it doesn't fit. On `Failed` the sink got a prefix of
    /// what was pending.
    pub fn add<O: Sink>(&mut self, piece: &[u8], out: &mut O) -> Result<(), Failed>
        requires { length piece.now ≤ 65536 }
        ensures ok { OnOk result (Passes (change O.written O.faults out.old out.new) (self.old ++ piece.now) self.new) }
        ensures prefix { OnErr result (GotPrefix (change O.written O.faults out.old out.new) self.old) }
        ensures failed { OnErr result (HasFailed (change O.written O.faults out.old out.new)) }
        ensures never_falls { O.faults out.old ≤ O.faults out.new }
    {
        if ROOM - self.bytes.len() < piece.len() {
            self.flush(out)?;
        }
        self.bytes.extend_from_slice(piece).unwrap();
        Ok(())
    }

    /// Passes all to the sink. On `Failed` the sink got a prefix.
    pub fn flush<O: Sink>(&mut self, out: &mut O) -> Result<(), Failed>
        ensures ok { OnOk result (Got (change O.written O.faults out.old out.new) self.old) }
        ensures empty { OnOk result (self.new ≡ []) }
        ensures prefix { OnErr result (GotPrefix (change O.written O.faults out.old out.new) self.old) }
        ensures failed { OnErr result (HasFailed (change O.written O.faults out.old out.new)) }
        ensures never_falls { O.faults out.old ≤ O.faults out.new }
    {
        write_all(out, self.bytes.as_slice())?;
        self.bytes.clear();
        Ok(())
    }
}
