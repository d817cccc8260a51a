//! Calls of the program over a file, input and sinks in memory: words that no command line has, and files and sinks that fail.

use css_base::Words;
use css_driver::{plain_top, top};
use css_io::{MemShelf, MemSink, MemSource, OpenGate, read_all};
use std::alloc::{AllocError, Global};
use std::process::Abort;
use std::sync::Wait;
use std::test::Fail;
use std::thread::Threads;

const PUT_A_AND_B: &str = "int main(void) { putchar(97); putchar(98); return 0; }";

const COUNTS_TO_3: &str =
    "int main(void) { int i = 0; while (i < 3) { putchar(97 + i); i = i + 1; } return i / 3; }";

/// The sinks' bytes and the status of a call.
#[derive(Drop)]
struct Called {
    out: MemSink,
    report: MemSink,
    status: u8,
}

/// Where a call's shelf and sinks fail: the numbers of their calls, and the sinks' rooms.
#[derive(Clone, Copy)]
struct Failing {
    shelf: &'static [u64],
    out: &'static [u64],
    out_room: usize,
    report: &'static [u64],
    report_room: usize,
}

const NOTHING_FAILS: Failing = Failing {
    shelf: &[],
    out: &[],
    out_room: 64,
    report: &[],
    report_room: 64,
};

fn words_of(alloc: Global, words: &[&str]) -> Result<Words, AllocError> {
    let mut owned = Vec::new(alloc);
    for word in words {
        owned.push(String::from_str(alloc, word)?)?;
    }
    Ok(Words::new(owned))
}

/// Runs a program, by the call of the whole program.
fn run<H: AllocGlobal + Threads + Wait + Clone + Drop + Send + Sync + 'static>(
    rt: &H,
    text: &str,
    failing: &Failing,
) -> Result<Called, Fail> {
    let alloc = rt.alloc();
    let files = vec![in alloc;
        (
            String::from_str(alloc, "f.c")?,
            text.as_bytes().to_vec(alloc)?
        ),
    ]?;
    let mut shelf = MemShelf::new(files, failing.shelf.to_vec(alloc)?);
    let mut input = MemSource::new(Vec::new(alloc), Vec::new(alloc));
    let mut out = MemSink::new(alloc, failing.out_room, failing.out.to_vec(alloc)?)?;
    let mut report = MemSink::new(alloc, failing.report_room, failing.report.to_vec(alloc)?)?;
    let words = words_of(alloc, &["cssrun", "run", "f.c"])?;
    let status = top(
        rt,
        alloc,
        &words,
        &mut shelf,
        &mut input,
        &mut out,
        &mut report,
        OpenGate::new(),
    );
    Ok(Called {
        out,
        report,
        status,
    })
}

/// Calls a command that waits for nobody with these words and one file, and sees that no input was taken.
fn call(
    rt: &(impl Abort + AllocGlobal),
    words: &[&str],
    text: &str,
    failing: &Failing,
) -> Result<Called, Fail> {
    let alloc = rt.alloc();
    let files = vec![in alloc;
        (
            String::from_str(alloc, "f.c")?,
            text.as_bytes().to_vec(alloc)?
        ),
    ]?;
    let mut shelf = MemShelf::new(files, failing.shelf.to_vec(alloc)?);
    let mut input = MemSource::new(b"input".to_vec(alloc)?, Vec::new(alloc));
    let mut out = MemSink::new(alloc, failing.out_room, failing.out.to_vec(alloc)?)?;
    let mut report = MemSink::new(alloc, failing.report_room, failing.report.to_vec(alloc)?)?;
    let words = words_of(alloc, words)?;
    let status = plain_top(alloc, &words, &mut shelf, &mut input, &mut out, &mut report);
    let left = read_all(alloc, &mut input, 5)?;
    assert_eq!(rt; left.as_slice(), b"input".as_slice());
    Ok(Called {
        out,
        report,
        status,
    })
}

/// Sees what a call gave.
fn expect(rt: &impl Abort, called: &Called, out: &str, report: &str, status: u8) {
    assert_eq!(rt; called.out.written(), out.as_bytes());
    assert_eq!(rt; called.report.written(), report.as_bytes());
    assert_eq!(rt; called.status, status);
}

#[test]
fn failures_cut_a_call_short(rt: HostRuntime) -> Result<(), Fail> {
    let rows = [
        (
            Failing {
                shelf: &[0],
                ..NOTHING_FAILS
            },
            "",
            "read fault\n",
            6,
        ),
        (
            Failing {
                shelf: &[0],
                report: &[0],
                ..NOTHING_FAILS
            },
            "",
            "",
            7,
        ),
        (
            Failing {
                shelf: &[1],
                out: &[1],
                report: &[1],
                ..NOTHING_FAILS
            },
            "ab",
            "result 0\n",
            0,
        ),
        (
            Failing {
                out: &[0],
                ..NOTHING_FAILS
            },
            "",
            "",
            7,
        ),
        (
            Failing {
                out_room: 1,
                ..NOTHING_FAILS
            },
            "a",
            "",
            7,
        ),
        (
            Failing {
                report: &[0],
                ..NOTHING_FAILS
            },
            "ab",
            "",
            7,
        ),
        (
            Failing {
                report_room: 3,
                ..NOTHING_FAILS
            },
            "ab",
            "res",
            7,
        ),
    ];
    let words = ["cssrun", "erased", "f.c"];
    for (failing, out, report, status) in &rows {
        let called = call(&rt, &words, PUT_A_AND_B, failing)?;
        expect(&rt, &called, out, report, *status);
    }
    let out_fails = Failing {
        out: &[0],
        ..NOTHING_FAILS
    };
    let called = call(&rt, &words, COUNTS_TO_3, &out_fails)?;
    expect(&rt, &called, "", "", 7);
    Ok(())
}

/// A sink that fails in a run: where `out` does, nothing is reported.
#[test]
fn failures_cut_a_run_short(rt: HostRuntime) -> Result<(), Fail> {
    let rows = [
        (
            Failing {
                out: &[0],
                ..NOTHING_FAILS
            },
            "",
            "",
        ),
        (
            Failing {
                out_room: 1,
                ..NOTHING_FAILS
            },
            "a",
            "",
        ),
        (
            Failing {
                out: &[0],
                report: &[0],
                ..NOTHING_FAILS
            },
            "",
            "",
        ),
        (
            Failing {
                report: &[0],
                ..NOTHING_FAILS
            },
            "ab",
            "",
        ),
        (
            Failing {
                report_room: 3,
                ..NOTHING_FAILS
            },
            "ab",
            "res",
        ),
    ];
    for (failing, out, report) in &rows {
        let called = run(&rt, PUT_A_AND_B, failing)?;
        expect(&rt, &called, out, report, 7);
    }
    let called = run(&rt, PUT_A_AND_B, &NOTHING_FAILS)?;
    expect(&rt, &called, "ab", "result 0\n", 0);
    Ok(())
}

/// There may be no words at all, and `run` doesn't belong to these commands.
#[test]
fn words_are_refused(rt: HostRuntime) -> Result<(), Fail> {
    let rows: [&[&str]; 2] = [&[], &["cssrun", "run", "f.c"]];
    for words in rows {
        let called = call(&rt, words, PUT_A_AND_B, &NOTHING_FAILS)?;
        expect(&rt, &called, "", "words refused\n", 2);
    }
    Ok(())
}
