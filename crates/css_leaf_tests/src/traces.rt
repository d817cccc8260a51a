//! Texts of traces: the example of the format, further texts that are read and written again, and texts that stop being a trace's.
use crate::checks::{check, check_row};
use css_base::{ChannelLine, NoMemory};
use css_traces::{
    BoardLine, ChannelPart, Generation, Items, Name, TraceFault, Traces, is_name, read_trace,
    trace_text,
};
use std::alloc::Global;

/// A run of one task whose value is waited for, with one worker.
static EXAMPLE: [&str; 16] = [
    "trace\n",
    "board 0\n",
    "s 0 inc\n",
    "t 0 0\n",
    "f 0 0\n",
    "c\n",
    "channel 0\n",
    "i 0 4\n",
    "o 0\n",
    "d 0\n",
    "r 0\n",
    "i 0 4\n",
    "o 0\n",
    "d 0\n",
    "r 0\n",
    "end\n",
];

/// Texts that are read, and written again as they were.
static TEXTS: [&str; 6] = [
    "trace\nend\n",
    "trace\nboard 0\nend\n",
    "trace\nboard 0\nc\nboard 1\nchannel 0\nchannel 1\nboard 2\nend\n",
    "trace\nboard 0\ns 0 _a1\nt 15 0 1 2\nb 15 1 2\nt 3\nb 3\nw 2\nend\n",
    "trace\nboard 0\nx 0 7 12 DivideByZero\nx 1 8 4294967295 OutsideMemory\nx 2 9 1 X16\nend\n",
    "trace\nboard 0\ns 18446744073709551615 a\nchannel 4294967295\ni 4294967295 18446744073709551615\nend\n",
];

/// Texts with the first line that can't follow those before it.
static STOPS: [(&str, u64); 20] = [
    ("Trace\n", 1),
    ("trace\r\nend\r\n", 1),
    ("trace \nend\n", 1),
    ("\ntrace\nend\n", 1),
    ("trace\nend", 2),
    ("trace\nboard 1\nend\n", 2),
    ("trace\nboard 00\nend\n", 2),
    ("trace\nc\nend\n", 2),
    ("trace\nchannel 0\nend\n", 2),
    ("trace\nend\n\n", 3),
    ("trace\nend\nend\n", 3),
    ("trace\nboard 0\no 0\nend\n", 3),
    ("trace\nboard 0\nf 0\nend\n", 3),
    ("trace\nboard 0\nt  0\nend\n", 3),
    ("trace\nboard 0\ns 0 2a\nend\n", 3),
    ("trace\nboard 0\nx 0 0 0 X9\nend\n", 3),
    ("trace\nboard 0\nx 0 0 5 X17\nend\n", 3),
    ("trace\nboard 0\nt 4294967296\nend\n", 3),
    ("trace\nboard 0\ns 18446744073709551616 a\nend\n", 3),
    ("trace\nboard 0\nchannel 0\nc\nend\n", 4),
];

/// Whether a text stops being a trace's in a line.
fn stops_at(alloc: Global, text: &[u8], line: u64) -> bool {
    match read_trace(alloc, text) {
        Err(TraceFault::Bad(found)) => found == line,
        _ => false,
    }
}

/// Whether a text is read, and is written again as it was.
fn comes_back(alloc: Global, text: &[u8]) -> Result<bool, NoMemory> {
    match read_trace(alloc, text) {
        Ok(traces) => Ok(trace_text(alloc, &traces)?.as_slice() == text),
        Err(_) => Ok(false),
    }
}

// Each front of the example stops behind its last line.
#[test]
fn fronts_of_the_example(rt: HostRuntime) -> Result<(), NoMemory> {
    let alloc = rt.alloc();
    let mut text: Vec<u8> = Vec::new(alloc);
    for (lines, line) in EXAMPLE.iter().enumerate() {
        check_row(&rt, lines, stops_at(alloc, &text, lines as u64 + 1));
        text.extend_from_slice(line.as_bytes())?;
    }
    check(&rt, "whole", comes_back(alloc, &text)?);
    Ok(())
}

#[test]
fn texts_of_traces(rt: HostRuntime) -> Result<(), NoMemory> {
    for (row, text) in TEXTS.iter().enumerate() {
        check_row(&rt, row, comes_back(rt.alloc(), text.as_bytes())?);
    }
    for (row, (text, line)) in STOPS.iter().enumerate() {
        check_row(&rt, row, stops_at(rt.alloc(), text.as_bytes(), *line));
    }
    Ok(())
}

/// A trace with one submit, and one channel with one entry.
fn small_trace(alloc: Global, name: &[u8]) -> Result<Option<Traces>, NoMemory> {
    if !is_name(name) {
        return Ok(None);
    }
    let name = Name::new(Vec::from_slice(alloc, name)?);
    let board = Items::none(alloc).with(BoardLine::Submit { number: 0, name })?;
    let mut transfers = Vec::new(alloc);
    transfers.push(ChannelLine::Out { tag: 31 })?;
    let part = ChannelPart {
        worker: 7,
        entries: Items::new(transfers),
    };
    let channels = Items::none(alloc).with(part)?;
    let generations = Items::none(alloc).with(Generation { board, channels })?;
    Ok(Some(Traces { generations }))
}

// A trace that is made by hand is written, and gives its parts back.
#[test]
fn trace_by_hand(rt: HostRuntime) -> Result<(), NoMemory> {
    let alloc = rt.alloc();
    check(&rt, "no name", small_trace(alloc, b"2a")?.is_none());
    let Some(traces) = small_trace(alloc, b"inc")? else {
        check(&rt, "name", false);
        return Ok(());
    };
    let text = trace_text(alloc, &traces)?;
    let wanted = "trace\nboard 0\ns 0 inc\nchannel 7\no 31\nend\n";
    check(&rt, "text", text.as_slice() == wanted.as_bytes());
    check(&rt, "parts", traces.generations.into_vec().len() == 1);
    Ok(())
}
