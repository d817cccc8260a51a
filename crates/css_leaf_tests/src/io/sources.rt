//! Tests of the sources.

use crate::checks::{check, check_row};
use css_io::{Failed, MemSource, ReadFault, Source, StdSource, SureSource, read_all};
use std::alloc::{AllocError, Global};
use std::io;
use std::io::{ErrorKind, Read};

/// Whether a source that fails at one of four calls does so, and gives its bytes in order at the others.
fn fails_at(alloc: Global, failing: u64) -> Result<bool, AllocError> {
    let bytes = b"abcdef".to_vec(alloc)?;
    let mut source = MemSource::new(bytes, vec![in alloc; failing]?);
    let mut given = Vec::new(alloc);
    let mut right = true;
    for call in 0..4 {
        let mut part = [0; 2];
        let want = if call == failing { Err(Failed) } else { Ok(2) };
        right = source.read(&mut part) == want && right;
        if call != failing {
            given.extend_from_slice(&part)?;
        }
    }
    let is_at_end = source.read(&mut [0; 2]) == Ok(0);
    Ok(right && is_at_end && given.as_slice() == b"abcdef".as_slice())
}

#[test]
fn a_source_in_memory_fails_at_the_calls_it_is_told(rt: HostRuntime) -> Result<(), AllocError> {
    for failing in 0..4 {
        check_row(&rt, failing, fails_at(rt.alloc(), failing as u64)?);
    }
    Ok(())
}

/// How many bytes are read of so many with a limit.
fn read_of(alloc: Global, length: usize, limit: usize) -> Result<usize, ReadFault> {
    let mut source = SureSource::new(letters(alloc, length)?);
    Ok(read_all(alloc, &mut source, limit)?.len())
}

static LENGTHS: [usize; 6] = [0, 1, 5, 65_536, 65_537, 200_000];

#[test]
fn a_source_is_read_to_its_limit(rt: HostRuntime) {
    for length in LENGTHS.iter() {
        let length = *length;
        let short = read_of(rt.alloc(), length, length.saturating_sub(1));
        let want = if length == 0 {
            Ok(0)
        } else {
            Err(ReadFault::TooLong)
        };
        check_row(&rt, length, short == want);
        check_row(
            &rt,
            length,
            read_of(rt.alloc(), length, length) == Ok(length),
        );
        check_row(
            &rt,
            length,
            read_of(rt.alloc(), length, length.saturating_add(1)) == Ok(length),
        );
        check_row(
            &rt,
            length,
            read_of(rt.alloc(), length, usize::MAX) == Ok(length),
        );
    }
}

/// Whether a source that never fails is read in order.
fn is_read_in_order(alloc: Global) -> Result<bool, ReadFault> {
    let want = letters(alloc, 150_000)?;
    let mut source = MemSource::new(letters(alloc, 150_000)?, Vec::new(alloc));
    let bytes = read_all(alloc, &mut source, 150_000)?;
    Ok(bytes.as_slice() == want.as_slice())
}

#[test]
fn a_source_is_read_in_order(rt: HostRuntime) {
    check(&rt, "in order", is_read_in_order(rt.alloc()) == Ok(true));
}

/// How many bytes are read of a source that fails at these calls.
fn read_failing(alloc: Global, failing: Vec<u64>) -> Result<usize, ReadFault> {
    let mut source = MemSource::new(letters(alloc, 100_000)?, failing);
    Ok(read_all(alloc, &mut source, 100_000)?.len())
}

#[test]
fn a_failing_source_is_not_read(rt: HostRuntime) -> Result<(), AllocError> {
    for call in 0..3 {
        let read = read_failing(rt.alloc(), vec![in rt.alloc(); call as u64]?);
        check_row(&rt, call, read == Err(ReadFault::Failed));
    }
    Ok(())
}

/// Whether a reader is read to its end.
fn is_read_to_its_end(alloc: Global) -> Result<bool, ReadFault> {
    let mut source = StdSource::new(b"hello".as_slice());
    Ok(read_all(alloc, &mut source, 5)?.as_slice() == b"hello".as_slice())
}

#[test]
fn a_reader_is_read_to_its_end(rt: HostRuntime) {
    check(
        &rt,
        "to its end",
        is_read_to_its_end(rt.alloc()) == Ok(true),
    );
}

#[test]
fn a_reader_is_asked_again_where_it_was_interrupted(rt: HostRuntime) {
    let steps = STEPS.as_slice();
    let mut source = StdSource::new(Stumbling { steps, at: 0 });
    let rows = [
        (Ok(1), b'a'),
        (Err(Failed), 0),
        (Ok(1), b'b'),
        (Ok(0), 0),
        (Err(Failed), 0),
    ];
    for (want, byte) in rows {
        let mut part = [0; 4];
        check(&rt, "read", source.read(&mut part) == want);
        check(&rt, "byte", part[0] == byte);
    }
}

/// The letters a to z, again and again.
fn letters(alloc: Global, length: usize) -> Result<Vec<u8>, AllocError> {
    let mut bytes = Vec::with_capacity(alloc, length)?;
    for at in 0..length {
        bytes.push(b'a' + (at % 26) as u8)?;
    }
    Ok(bytes)
}

/// What a reader does at a call.
#[derive(Clone, Copy)]
enum Step {
    Gives(u8),
    Interrupted,
    Fails,
    Ends,
}

static STEPS: [Step; 8] = [
    Step::Interrupted,
    Step::Gives(b'a'),
    Step::Fails,
    Step::Interrupted,
    Step::Interrupted,
    Step::Gives(b'b'),
    Step::Ends,
    Step::Fails,
];

/// A reader that does these steps in turn, and fails after them.
#[derive(Drop)]
struct Stumbling {
    steps: &'static [Step],
    at: usize,
}

impl Read for Stumbling {
    fn read(&mut self, buf: &mut [u8]) -> io::Result<usize> {
        let step = self.steps.get(self.at).copied().unwrap_or(Step::Fails);
        self.at = self.at.saturating_add(1);
        match step {
            Step::Gives(byte) if !buf.is_empty() => {
                buf[0] = byte;
                Ok(1)
            }
            Step::Gives(_) | Step::Ends => Ok(0),
            Step::Interrupted => Err(io::Error::from(ErrorKind::Interrupted)),
            Step::Fails => Err(io::Error::from(ErrorKind::BrokenPipe)),
        }
    }
}
