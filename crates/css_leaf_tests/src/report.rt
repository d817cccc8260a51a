//! The texts of reports, from numbers worked out by hand.
use crate::checks::check_row;
use css_base::{
    Direction, Ending, FaultKind, Line, NoMemory, Rule, StaticFault, StaticName, Stop, Who,
};
use css_record::{Call, ImageHead, ImageKind, TaskRecord, Window};
use css_report::{
    CallList, ImageFacts, ending_line, graph_text, image_facts, image_line, static_line, stats_line,
};
use css_traces::{Name, is_name};
use css_vm::{ArgShape, Code, Function, TaskShape};
use std::alloc::Global;

// ---- images

/// Where an image is made, its bytes in three parts, and its line.
struct ImageRow {
    kind: ImageKind,
    line: u32,
    address: u32,
    parts: [&'static str; 3],
    text: &'static str,
}

/// The digests are the published ones of FIPS 180.
static IMAGES: [ImageRow; 5] = [
    ImageRow {
        kind: ImageKind::Wait,
        line: 7,
        address: 4096,
        parts: ["abc", "", ""],
        text: "image wait line 7 address 4096 bytes 3 sha256 ba7816bf8f01cfea414140de5dae2223b00361a396177a9cb410ff61f20015ad\n",
    },
    ImageRow {
        kind: ImageKind::Finish,
        line: 8,
        address: 0,
        parts: ["a", "b", "c"],
        text: "image finish line 8 bytes 3 sha256 ba7816bf8f01cfea414140de5dae2223b00361a396177a9cb410ff61f20015ad\n",
    },
    ImageRow {
        kind: ImageKind::Finish,
        line: 3,
        address: 0,
        parts: ["", "", ""],
        text: "image finish line 3 bytes 0 sha256 e3b0c44298fc1c149afbf4c8996fb92427ae41e4649b934ca495991b7852b855\n",
    },
    ImageRow {
        kind: ImageKind::Barrier,
        line: 4294967295,
        address: 0,
        parts: [
            "abcdbcdecdefdefgefghfghi",
            "",
            "ghijhijkijkljklmklmnlmnomnopnopq",
        ],
        text: "image barrier line 4294967295 bytes 56 sha256 248d6a61d20638b8e5c026930c3e6039a33ce45964ff2167f6ecedd419db06c1\n",
    },
    ImageRow {
        kind: ImageKind::Wait,
        line: 1,
        address: 4294967295,
        parts: ["", "", ""],
        text: "image wait line 1 address 4294967295 bytes 0 sha256 e3b0c44298fc1c149afbf4c8996fb92427ae41e4649b934ca495991b7852b855\n",
    },
];

fn facts_of(row: &ImageRow) -> Option<ImageFacts> {
    let [first, second, third] = row.parts;
    if first.len() > 64 || second.len() > 64 || third.len() > 64 {
        return None;
    }
    let head = ImageHead {
        kind: row.kind,
        line: Line::new(row.line.max(1)),
        address: row.address,
    };
    Some(image_facts(head, first.as_bytes(), second.as_bytes(), third.as_bytes()))
}

fn has_image_line(alloc: Global, row: &ImageRow) -> Result<bool, NoMemory> {
    match facts_of(row) {
        Some(facts) => Ok(image_line(alloc, &facts)?.as_slice() == row.text.as_bytes()),
        None => Ok(false),
    }
}

#[test]
fn images_have_their_lines(rt: HostRuntime) -> Result<(), NoMemory> {
    for (number, row) in IMAGES.iter().enumerate() {
        check_row(&rt, number, has_image_line(rt.alloc(), row)?);
    }
    Ok(())
}

// ---- endings

static RESULTS: [(i32, &str); 4] = [
    (0, "result 0\n"),
    (97, "result 97\n"),
    (-1, "result -1\n"),
    (-2147483648, "result -2147483648\n"),
];

static STOPS: [(Stop, u32, Who, &str); 4] = [
    (
        Stop::Fault(FaultKind::DivideByZero),
        5,
        Who::Task(0),
        "fault DivideByZero line 5 task 0\n",
    ),
    (
        Stop::Fault(FaultKind::OutsideMemory),
        1,
        Who::Main,
        "fault OutsideMemory line 1 main\n",
    ),
    (
        Stop::Rule(Rule::Unsynchronised),
        7,
        Who::Main,
        "rule X8 Unsynchronised line 7 main\n",
    ),
    (
        Stop::Rule(Rule::LeftUnwritten),
        2,
        Who::Task(18446744073709551615),
        "rule X12 LeftUnwritten line 2 task 18446744073709551615\n",
    ),
];

static STATICS: [(StaticName, u32, &str); 2] = [
    (StaticName::NoMain, 1, "static S7 NoMain line 1\n"),
    (StaticName::TaskGlobal, 3, "static S18 TaskGlobal line 3\n"),
];

#[test]
fn endings_have_their_lines(rt: HostRuntime) -> Result<(), NoMemory> {
    let alloc = rt.alloc();
    for (row, (result, text)) in RESULTS.iter().enumerate() {
        let line = ending_line(alloc, &Ending::Result(*result))?;
        check_row(&rt, row, line.as_slice() == text.as_bytes());
    }
    for (row, (stop, line, who, text)) in STOPS.iter().enumerate() {
        let ending = Ending::Stopped {
            stop: *stop,
            line: Line::new((*line).max(1)),
            who: *who,
        };
        let line = ending_line(alloc, &ending)?;
        check_row(&rt, row, line.as_slice() == text.as_bytes());
    }
    for (row, (name, line, text)) in STATICS.iter().enumerate() {
        let fault = StaticFault {
            name: *name,
            line: Line::new((*line).max(1)),
        };
        let line = static_line(alloc, &fault)?;
        check_row(&rt, row, line.as_slice() == text.as_bytes());
    }
    Ok(())
}

// ---- calls

/// A code of functions that are tasks of the same parts.
fn code_of(alloc: Global, parts: &[ArgShape], functions: usize) -> Result<Code, NoMemory> {
    let mut made = Vec::new(alloc);
    for _ in 0..functions {
        let shape = TaskShape {
            high: false,
            args: Vec::from_slice(alloc, parts)?,
        };
        made.push(Function {
            frame: 0,
            params: Vec::new(alloc),
            task: Some(shape),
            body: Vec::new(alloc),
        })?;
    }
    Ok(Code {
        functions: made,
        main: 0,
    })
}

/// The names that are identifiers.
fn names_of(alloc: Global, words: &[&str]) -> Result<Vec<Name>, NoMemory> {
    let mut names = Vec::new(alloc);
    for word in words {
        let bytes = word.as_bytes();
        if is_name(bytes) {
            names.push(Name::new(Vec::from_slice(alloc, bytes)?))?;
        }
    }
    Ok(names)
}

fn record_of(
    alloc: Global,
    number: u64,
    function: u32,
    line: u32,
    windows: &[Window],
) -> Result<TaskRecord, NoMemory> {
    Ok(TaskRecord {
        number,
        function,
        scalars: Vec::new(alloc),
        windows: Vec::from_slice(alloc, windows)?,
        stack_place: 16_777_216,
        inputs: Vec::new(alloc),
        high: false,
        line: Line::new(line.max(1)),
    })
}

// ---- graphs

/// A call by its function, its line, and the tasks that made what it reads.
type Drawn = (u32, u32, &'static [u64]);

struct GraphRow {
    names: &'static [&'static str],
    calls: &'static [Drawn],
    text: &'static str,
}

/// A chain; a read and a write of one object; tasks that read what several made.
static GRAPHS: [GraphRow; 4] = [
    GraphRow {
        names: &["inc", "main"],
        calls: &[
            (0, 7, &[]),
            (0, 7, &[0]),
            (0, 7, &[1]),
            (0, 7, &[2]),
            (0, 7, &[3]),
        ],
        text: "task 0 inc line 7\ntask 1 inc line 7\nedge 0 1\ntask 2 inc line 7\nedge 1 2\ntask 3 inc line 7\nedge 2 3\ntask 4 inc line 7\nedge 3 4\n",
    },
    GraphRow {
        names: &["copy", "set", "main"],
        calls: &[(0, 8, &[]), (1, 9, &[])],
        text: "task 0 copy line 8\ntask 1 set line 9\n",
    },
    GraphRow {
        names: &["main", "a", "b_2"],
        calls: &[
            (1, 4294967295, &[]),
            (2, 10, &[]),
            (1, 11, &[0, 1]),
            (2, 1, &[1, 2]),
        ],
        text: "task 0 a line 4294967295\ntask 1 b_2 line 10\ntask 2 a line 11\nedge 0 2\nedge 1 2\ntask 3 b_2 line 1\nedge 1 3\nedge 2 3\n",
    },
    GraphRow {
        names: &["main"],
        calls: &[],
        text: "",
    },
];

fn drawn_calls(alloc: Global, row: &GraphRow) -> Result<Vec<Call>, NoMemory> {
    let mut calls = Vec::new(alloc);
    for (number, (function, line, producers)) in row.calls.iter().enumerate() {
        let call = Call {
            rec: record_of(alloc, number as u64, *function, *line, &[])?,
            renamed: Vec::new(alloc),
            producers: Vec::from_slice(alloc, *producers)?,
        };
        calls.push(call)?;
    }
    Ok(calls)
}

fn has_graph(alloc: Global, row: &GraphRow) -> Result<bool, NoMemory> {
    let code = code_of(alloc, &[], row.names.len())?;
    let names = names_of(alloc, row.names)?;
    let calls = drawn_calls(alloc, row)?;
    let list = CallList {
        code: &code,
        names: &names,
        calls: &calls,
    };
    Ok(graph_text(alloc, &list)?.as_slice() == row.text.as_bytes())
}

#[test]
fn graphs_have_their_texts(rt: HostRuntime) -> Result<(), NoMemory> {
    for (number, row) in GRAPHS.iter().enumerate() {
        check_row(&rt, number, has_graph(rt.alloc(), row)?);
    }
    Ok(())
}

// ---- numbers

/// A window by what its task does with it, its rows, their width and their stride.
type Moved = (Direction, u32, u32, u32);

/// Calls in chains, one chain behind the other: each call but a chain's first reads what the one before it made, in windows of which
/// some are renamed.
struct StatsRow {
    windows: &'static [Moved],
    renamed: &'static [bool],
    chains: u64,
    links: u64,
    text: &'static str,
}

/// Sums of 16,384 and of 16,385 bytes; products of two matrices in blocks of 1,024 bytes, of 64, and of 1,024 in 144 chains of six; two
/// halves of the rows of a matrix; a chain of five; and no calls.
static STATS: [StatsRow; 8] = [
    StatsRow {
        windows: &[
            (Direction::In, 1, 16_384, 16_384),
            (Direction::Out, 1, 4, 4),
        ],
        renamed: &[],
        chains: 1,
        links: 1,
        text: "stats tasks 1 reads 16384 writes 4 pieces 2 renamed 0 depth 1\n",
    },
    StatsRow {
        windows: &[
            (Direction::In, 1, 16_385, 16_385),
            (Direction::Out, 1, 4, 4),
        ],
        renamed: &[],
        chains: 1,
        links: 1,
        text: "stats tasks 1 reads 16385 writes 4 pieces 3 renamed 0 depth 1\n",
    },
    StatsRow {
        windows: &[
            (Direction::In, 1, 1_024, 1_024),
            (Direction::In, 1, 1_024, 1_024),
            (Direction::InOut, 1, 1_024, 1_024),
        ],
        renamed: &[false, false, true],
        chains: 16,
        links: 2,
        text: "stats tasks 32 reads 98304 writes 32768 pieces 128 renamed 16 depth 2\n",
    },
    StatsRow {
        windows: &[
            (Direction::In, 1, 64, 64),
            (Direction::In, 1, 64, 64),
            (Direction::InOut, 1, 64, 64),
        ],
        renamed: &[false, false, true],
        chains: 16,
        links: 2,
        text: "stats tasks 32 reads 6144 writes 2048 pieces 128 renamed 16 depth 2\n",
    },
    StatsRow {
        windows: &[
            (Direction::In, 1, 1_024, 1_024),
            (Direction::In, 1, 1_024, 1_024),
            (Direction::InOut, 1, 1_024, 1_024),
        ],
        renamed: &[false, false, true],
        chains: 144,
        links: 6,
        text: "stats tasks 864 reads 2654208 writes 884736 pieces 3456 renamed 720 depth 6\n",
    },
    StatsRow {
        windows: &[(Direction::InOut, 8, 16, 32)],
        renamed: &[],
        chains: 2,
        links: 1,
        text: "stats tasks 2 reads 256 writes 256 pieces 32 renamed 0 depth 1\n",
    },
    StatsRow {
        windows: &[(Direction::InOut, 1, 4, 4)],
        renamed: &[true],
        chains: 1,
        links: 5,
        text: "stats tasks 5 reads 20 writes 20 pieces 10 renamed 4 depth 5\n",
    },
    StatsRow {
        windows: &[],
        renamed: &[],
        chains: 0,
        links: 0,
        text: "stats tasks 0 reads 0 writes 0 pieces 0 renamed 0 depth 0\n",
    },
];

/// What the tasks of a row are given: its windows, with an integer behind each.
fn parts_of(alloc: Global, row: &StatsRow) -> Result<Vec<ArgShape>, NoMemory> {
    let mut parts = Vec::new(alloc);
    for (direction, rows, _width, _stride) in row.windows {
        let strided = *rows != 1;
        parts.push(ArgShape::Window {
            direction: *direction,
            element: 4,
            dims: if strided { 3 } else { 1 },
            strided,
        })?;
        parts.push(ArgShape::Scalar)?;
    }
    Ok(parts)
}

fn windows_of(alloc: Global, row: &StatsRow) -> Result<Vec<Window>, NoMemory> {
    let mut windows = Vec::new(alloc);
    for (_direction, rows, width, stride) in row.windows {
        windows.push(Window {
            base: 8_192,
            rows: *rows,
            width: *width,
            stride: *stride,
        })?;
    }
    Ok(windows)
}

fn chained_call(
    alloc: Global,
    row: &StatsRow,
    number: u64,
    is_first: bool,
) -> Result<Call, NoMemory> {
    let windows = windows_of(alloc, row)?;
    let rec = record_of(alloc, number, 0, 7, &windows)?;
    let mut renamed = Vec::new(alloc);
    let mut producers = Vec::new(alloc);
    if !is_first {
        renamed.extend_from_slice(row.renamed)?;
        producers.push(number.saturating_sub(1))?;
    }
    Ok(Call {
        rec,
        renamed,
        producers,
    })
}

fn chained_calls(alloc: Global, row: &StatsRow) -> Result<Vec<Call>, NoMemory> {
    let mut calls = Vec::new(alloc);
    for _ in 0..row.chains {
        for link in 0..row.links {
            let number = calls.len() as u64;
            calls.push(chained_call(alloc, row, number, link == 0)?)?;
        }
    }
    Ok(calls)
}

fn has_stats(alloc: Global, row: &StatsRow) -> Result<bool, NoMemory> {
    let parts = parts_of(alloc, row)?;
    let code = code_of(alloc, &parts, 1)?;
    let calls = chained_calls(alloc, row)?;
    let list = CallList {
        code: &code,
        names: &[],
        calls: &calls,
    };
    Ok(stats_line(alloc, &list)?.as_slice() == row.text.as_bytes())
}

#[test]
fn calls_have_their_numbers(rt: HostRuntime) -> Result<(), NoMemory> {
    for (number, row) in STATS.iter().enumerate() {
        check_row(&rt, number, has_stats(rt.alloc(), row)?);
    }
    Ok(())
}
