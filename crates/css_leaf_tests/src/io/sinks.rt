//! Tests of the sinks.
ghost use Rattle.std.specs.Prelude.{◌≡◌, ◌<◌, ◌≤◌, length, take, IfOk, OnErr};
ghost use Rattle.css_io.specs.Outside.{Rose, Appends};

use crate::checks::{check, check_row};
use css_base::NoMemory;
use css_io::{Failed, MemSink, Sink, StdSink, SureSink, write_all};
use std::alloc::Global;
use std::io;
use std::io::{ErrorKind, Write};

/// Whether a sink that fails at one of four calls does so, and takes what comes at the others.
fn fails_at(alloc: Global, failing: u64) -> Result<bool, NoMemory> {
    let mut sink = MemSink::new(alloc, 100, vec![in alloc; failing]?)?;
    let mut right = true;
    for call in 0..4 {
        let want = if call == failing { Err(Failed) } else { Ok(2) };
        right = sink.write(b"ab") == want && right;
    }
    Ok(right && sink.written() == b"ababab".as_slice())
}

#[test]
fn a_sink_in_memory_fails_at_the_calls_it_is_told(rt: HostRuntime) -> Result<(), NoMemory> {
    for failing in 0..4 {
        check_row(&rt, failing, fails_at(rt.alloc(), failing as u64)?);
    }
    Ok(())
}

#[test]
fn a_sink_in_memory_takes_what_fits(rt: HostRuntime) -> Result<(), NoMemory> {
    let mut sink = MemSink::new(rt.alloc(), 5, Vec::new(rt.alloc()))?;
    check(&rt, "abc", sink.write(b"abc") == Ok(3));
    check(&rt, "def", sink.write(b"def") == Ok(2));
    check(&rt, "g", sink.write(b"g").is_err());
    check(&rt, "all", sink.written() == b"abcde".as_slice());
    Ok(())
}

/// The room of a sink, the call at which it fails, whether all of `hello` is written, and what is written of it.
type Row = (usize, u64, bool, &'static [u8]);

static DRIPS: [Row; 5] = [
    (5, 99, true, b"hello"),
    (9, 99, true, b"hello"),
    (3, 99, false, b"hel"),
    (0, 99, false, b""),
    (9, 4, false, b"hell"),
];

fn drips(alloc: Global, row: &Row) -> Result<bool, NoMemory> {
    let (room, failing, succeeds, written) = row;
    let sink = MemSink::new(alloc, *room, vec![in alloc; *failing]?)?;
    let mut drip = Drip { sink };
    let is_written = write_all(&mut drip, b"hello").is_ok();
    Ok(is_written == *succeeds && drip.sink.written() == *written)
}

#[test]
fn all_is_written_or_a_prefix(rt: HostRuntime) -> Result<(), NoMemory> {
    for (number, row) in DRIPS.iter().enumerate() {
        check_row(&rt, number, drips(rt.alloc(), row)?);
    }
    check(
        &rt,
        "sure",
        write_all(&mut SureSink::new(), b"hello").is_ok(),
    );
    Ok(())
}

#[test]
fn a_writer_is_passed_what_is_written(rt: HostRuntime) {
    let mut bytes = Vec::new(rt.alloc());
    let is_written = write_all(&mut StdSink::new(&mut bytes), b"hello").is_ok();
    check(&rt, "written", is_written);
    check(&rt, "passed", bytes.as_slice() == b"hello".as_slice());
}

#[test]
fn a_writer_is_asked_again_where_it_was_interrupted(rt: HostRuntime) {
    let steps = STEPS.as_slice();
    let mut sink = StdSink::new(Stumbling { steps, at: 0 });
    for want in [Ok(2), Err(Failed), Err(Failed), Ok(3), Err(Failed)] {
        check(&rt, "write", sink.write(b"hello") == want);
    }
}

/// A sink in memory that takes one byte at a time.
#[derive(Drop)]
struct Drip {
    sink: MemSink,
}

impl Sink for Drip {
    ghost written = { λ s. ⟦<MemSink as Sink>⟧.written s.sink };

    ghost faults = { λ s. ⟦<MemSink as Sink>⟧.faults s.sink };

    fn write(&mut self, piece: &[u8]) -> Result<usize, Failed> {
        self.sink.write(&piece[..1])
    }
}

/// What a writer does at a call.
#[derive(Clone, Copy)]
enum Step {
    Takes(usize),
    Interrupted,
    Fails,
}

static STEPS: [Step; 8] = [
    Step::Interrupted,
    Step::Takes(2),
    Step::Fails,
    Step::Takes(0),
    Step::Interrupted,
    Step::Interrupted,
    Step::Takes(3),
    Step::Fails,
];

/// A writer that does these steps in turn, and fails after them.
#[derive(Drop)]
struct Stumbling {
    steps: &'static [Step],
    at: usize,
}

impl Write for Stumbling {
    fn write(&mut self, buf: &[u8]) -> io::Result<usize> {
        let step = self.steps.get(self.at).copied().unwrap_or(Step::Fails);
        self.at = self.at.saturating_add(1);
        match step {
            Step::Takes(count) => Ok(count.min(buf.len())),
            Step::Interrupted => Err(io::Error::from(ErrorKind::Interrupted)),
            Step::Fails => Err(io::Error::from(ErrorKind::BrokenPipe)),
        }
    }

    fn flush(&mut self) -> io::Result<()> {
        Ok(())
    }
}
