//! A sink in memory.
ghost use Rattle.std.specs.Prelude.{◌≡◌, ◌↔◌, ◌-◌, ◌<◌, ◌≤◌, min, [], ◌++◌, length, take, Some, IsErr, IfOk, OnOk, OnErr};
ghost use Rattle.css_io.specs.Outside.{Rose, Appends};
ghost use Rattle.css_io.specs.Calls.{one_more};
ghost use Rattle.css_io.specs.MemSink.{NextFails};

use crate::calls::Calls;
use crate::failed::Failed;
use crate::sink::Sink;
use css_base::NoMemory;
use std::alloc::Global;
use std::marker::Model;

/// A sink that keeps what is written, as far as its room goes, and fails at the calls that it is told.
#[derive(Drop)]
pub struct MemSink {
    bytes: Vec<u8>,
    room: usize,
    calls: Calls,
    faults: u64,
}

impl Model for MemSink {
    ghost use Rattle.std.specs.Prelude.{◌≤◌, vec_len, vec_capacity};
    ghost use Rattle.css_io.specs.MemSink.{SinkInMemory};

    ghost Value = { SinkInMemory };

    ghost view = { λ s. record {
      written = s.bytes.items;
      room = s.room;
      next = s.calls.next;
      failing = s.calls.failing.items;
      faults = s.faults;
    } };

    ghost invariant = { λ s. (vec_len s.bytes ≤ s.room) × (s.room ≤ vec_capacity s.bytes) };
}

impl MemSink {
    /// An empty sink with room for this many bytes, whose calls of these numbers fail; the first call is number 0. Takes
    /// its memory here. `NoMemory` where there is none.
    pub fn new(alloc: Global, room: usize, failing: Vec<u64>) -> Result<MemSink, NoMemory>
        ensures written { IfOk result (λ sink. sink.written ≡ []) }
        ensures room { IfOk result (λ sink. sink.room ≡ room) }
        ensures next { IfOk result (λ sink. sink.next ≡ 0) }
        ensures failing { IfOk result (λ sink. sink.failing ≡ failing.items) }
        ensures faults { IfOk result (λ sink. sink.faults ≡ 0) }
    {
        let bytes = Vec::with_capacity(alloc, room)?;
        Ok(MemSink {
            bytes,
            room,
            calls: Calls::new(failing),
            faults: 0,
        })
    }

    /// Lends the bytes written.
    pub fn written(&self) -> &[u8]
        ensures { result.now ≡ self.now.written }
    {
        self.bytes.as_slice()
    }
}

impl Sink for MemSink {
    ghost written = { λ s. Some s.written };

    ghost faults = { λ s. s.faults };

    fn write(&mut self, piece: &[u8]) -> Result<usize, Failed>
        requires { 0 < length piece.now }
        // What each sink says.
        ensures count { IfOk result (λ n. (1 ≤ n) × (n ≤ length piece.now)) }
        ensures appends { IfOk result (λ n.
            Appends (Some self.old.written) (Some self.new.written) (take n piece.now)) }
        ensures failed { OnErr result (Rose self.old.faults self.new.faults) }
        ensures kept { OnErr result (Some self.new.written ≡ Some self.old.written) }
        ensures never_falls { self.old.faults ≤ self.new.faults }

        // When this one fails, and how much it takes.
        ensures fails { IsErr result ↔ NextFails self.old }
        ensures fits { IfOk result (λ n.
            n ≡ min (length piece.now) (self.old.room - length self.old.written)) }
        ensures raised { OnErr result (self.new.faults ≡ one_more self.old.faults) }
        ensures no_fault { OnOk result (self.new.faults ≡ self.old.faults) }
        ensures numbered { self.new.next ≡ one_more self.old.next }
        ensures same_room { self.new.room ≡ self.old.room }
        ensures same_failing { self.new.failing ≡ self.old.failing }
    {
        let fails = self.calls.fails_next();
        let left = self.room - self.bytes.len();
        if fails || left == 0 {
            self.faults = self.faults.saturating_add(1);
            return Err(Failed);
        }
        let count = piece.len().min(left);
        self.bytes.extend_from_slice(&piece[..count]).unwrap();
        Ok(count)
    }
}
