//! Calls that the table judges, frames and accesses that it allows, and a table that is settled.
ghost use Rattle.std.specs.Prelude.{◌≡◌, ◌<◌, IfOk};

use crate::objects::{Int, LAYOUT, check, leaves, one, pends};
use css_arguments::{Argument, Dims};
use css_base::{Direction, NoMemory, Rule};
use css_objects::{ObjectTable, Steps};
use std::alloc::Global;
use std::marker::Brand;
use std::process::Abort;
use std::sync::ledger::{Blank, Ledger};
use std::test::Fail;

// A call of two pointers to int over a local store of so many bytes, and the rule that it breaks. For each pointer so many ints are
// given; none where the dimension was stopped.
struct Call {
    bases: (u32, u32),
    ints: (Option<i64>, Option<i64>),
    directions: (Direction, Direction),
    local_store: u32,
    rule: Option<Rule>,
}

const STORE: u32 = 262_144;

const DIMENSION: Option<Rule> = Some(Rule::Dimension);

const TOO_LARGE: Option<Rule> = Some(Rule::TooLarge);

const DEAD: Option<Rule> = Some(Rule::DeadArgument);

const PARTLY: Option<Rule> = Some(Rule::PartialOverlap);

const ALIASED: Option<Rule> = Some(Rule::AliasedArguments);

// Globals stand from 4,096 to 65,536, and nothing is pending. 16,384 bytes of a local store are no window's, and each window takes a
// multiple of 128.
static CALLS: [Call; 20] = [
    Call {
        bases: (4_096, 8_192),
        ints: (Some(1), Some(1)),
        directions: (Direction::In, Direction::In),
        local_store: STORE,
        rule: None,
    },
    // A dimension that was stopped comes before all else, and so does one that is none.
    Call {
        bases: (4_096, 8_192),
        ints: (None, Some(1)),
        directions: (Direction::In, Direction::In),
        local_store: STORE,
        rule: DIMENSION,
    },
    Call {
        bases: (4_096, 8_192),
        ints: (Some(1), None),
        directions: (Direction::In, Direction::In),
        local_store: STORE,
        rule: DIMENSION,
    },
    Call {
        bases: (0, 0),
        ints: (Some(1), None),
        directions: (Direction::In, Direction::In),
        local_store: 0,
        rule: DIMENSION,
    },
    Call {
        bases: (4_096, 8_192),
        ints: (Some(0), Some(1)),
        directions: (Direction::In, Direction::In),
        local_store: STORE,
        rule: DIMENSION,
    },
    Call {
        bases: (4_096, 8_192),
        ints: (Some(-1), Some(1)),
        directions: (Direction::In, Direction::In),
        local_store: STORE,
        rule: DIMENSION,
    },
    // 2^28 ints are 2^30 bytes, and one more is too many; of those that are few enough the room is judged before they are found dead.
    Call {
        bases: (4_096, 8_192),
        ints: (Some(268_435_457), Some(1)),
        directions: (Direction::In, Direction::In),
        local_store: STORE,
        rule: DIMENSION,
    },
    Call {
        bases: (4_096, 8_192),
        ints: (Some(268_435_456), Some(1)),
        directions: (Direction::In, Direction::In),
        local_store: STORE,
        rule: TOO_LARGE,
    },
    // 32 ints take 128 bytes, and one int does too.
    Call {
        bases: (4_096, 8_192),
        ints: (Some(32), Some(1)),
        directions: (Direction::In, Direction::In),
        local_store: 16_640,
        rule: None,
    },
    Call {
        bases: (4_096, 8_192),
        ints: (Some(32), Some(1)),
        directions: (Direction::In, Direction::In),
        local_store: 16_639,
        rule: TOO_LARGE,
    },
    Call {
        bases: (4_096, 8_192),
        ints: (Some(33), Some(1)),
        directions: (Direction::In, Direction::In),
        local_store: 16_640,
        rule: TOO_LARGE,
    },
    // One window that stands twice takes its room once.
    Call {
        bases: (4_096, 4_096),
        ints: (Some(32), Some(32)),
        directions: (Direction::In, Direction::In),
        local_store: 16_512,
        rule: None,
    },
    Call {
        bases: (4_096, 4_096),
        ints: (Some(32), Some(32)),
        directions: (Direction::In, Direction::In),
        local_store: 16_511,
        rule: TOO_LARGE,
    },
    // The last int of the globals, bytes behind them, and bytes before them.
    Call {
        bases: (65_532, 8_192),
        ints: (Some(1), Some(1)),
        directions: (Direction::In, Direction::In),
        local_store: STORE,
        rule: None,
    },
    Call {
        bases: (65_533, 8_192),
        ints: (Some(1), Some(1)),
        directions: (Direction::In, Direction::In),
        local_store: STORE,
        rule: DEAD,
    },
    Call {
        bases: (8_192, 4_095),
        ints: (Some(1), Some(1)),
        directions: (Direction::In, Direction::In),
        local_store: STORE,
        rule: DEAD,
    },
    // Two windows of a call that share bytes are one, or the call breaks a rule.
    Call {
        bases: (4_096, 4_100),
        ints: (Some(2), Some(1)),
        directions: (Direction::In, Direction::In),
        local_store: STORE,
        rule: PARTLY,
    },
    Call {
        bases: (4_096, 4_096),
        ints: (Some(2), Some(1)),
        directions: (Direction::In, Direction::In),
        local_store: STORE,
        rule: PARTLY,
    },
    // One window stands twice, and is written.
    Call {
        bases: (4_096, 4_096),
        ints: (Some(1), Some(1)),
        directions: (Direction::In, Direction::Out),
        local_store: STORE,
        rule: ALIASED,
    },
    Call {
        bases: (4_096, 4_096),
        ints: (Some(1), Some(1)),
        directions: (Direction::Out, Direction::Out),
        local_store: STORE,
        rule: ALIASED,
    },
];

// What is given for a pointer to int.
fn argument(
    alloc: Global,
    base: u32,
    ints: Option<i64>,
    direction: Direction,
) -> Result<Argument, NoMemory>
    ensures { IfOk result (λ a. a.element ≡ 4) }
{
    let dims = match ints {
        Some(count) => Dims::Values(Vec::from_slice(alloc, &[count])?),
        None => Dims::Stopped,
    };
    Ok(Argument {
        base,
        element: 4,
        dims,
        strided: false,
        direction,
    })
}

// The rule that a call breaks.
fn broken<L: Ledger>(
    table: &ObjectTable,
    alloc: Global,
    call: &Call,
    steps: &mut Steps<L>,
) -> Result<Option<Rule>, NoMemory> {
    let first = argument(alloc, call.bases.0, call.ints.0, call.directions.0)?;
    let second = argument(alloc, call.bases.1, call.ints.1, call.directions.1)?;
    let mut arguments = Vec::new(alloc);
    arguments.push(first)?;
    arguments.push(second)?;
    match table.judge(&arguments, &LAYOUT, call.local_store, steps) {
        Ok(()) => Ok(None),
        Err(rule) => Ok(Some(rule)),
    }
}

fn calls<L: Ledger>(
    rt: &impl Abort,
    table: &ObjectTable,
    alloc: Global,
    steps: &mut Steps<L>,
) -> Result<(), NoMemory> {
    for call in &CALLS {
        check(rt, "call", broken(table, alloc, call, steps)? == call.rule);
    }
    Ok(())
}

// A call of one int at 4096, whether main may load and store there behind it, and whether it may leave a frame of 8 bytes from there.
struct Access {
    int: Int,
    loads: bool,
    stores: bool,
}

// It is read, and then it is written.
static ACCESSES: [Access; 2] = [
    Access {
        int: Int {
            number: 0,
            base: 4_096,
            direction: Direction::In,
        },
        loads: true,
        stores: true,
    },
    Access {
        int: Int {
            number: 1,
            base: 4_096,
            direction: Direction::InOut,
        },
        loads: false,
        stores: false,
    },
];

// A frame of eight bytes, and whether main may leave it while the int at 4096 is pending.
struct Frame {
    base: u32,
    leaves: bool,
}

static FRAMES: [Frame; 4] = [
    Frame {
        base: 4_088,
        leaves: true,
    },
    Frame {
        base: 4_089,
        leaves: false,
    },
    Frame {
        base: 4_099,
        leaves: false,
    },
    Frame {
        base: 4_100,
        leaves: true,
    },
];

fn frames<L: Ledger>(rt: &impl Abort, table: &ObjectTable, steps: &mut Steps<L>) {
    for frame in &FRAMES {
        check(
            rt,
            "frame",
            leaves(table, frame.base, steps) == frame.leaves,
        );
    }
}

fn accesses<L: Ledger>(
    rt: &impl Abort,
    table: &mut ObjectTable,
    alloc: Global,
    steps: &mut Steps<L>,
) -> Result<(), NoMemory> {
    for access in &ACCESSES {
        one(rt, table, alloc, &access.int, steps)?;
        check(
            rt,
            "loads",
            table.allows_load(4_099, 1, steps) == access.loads,
        );
        check(
            rt,
            "stores",
            table.allows_store(4_092, 5, steps) == access.stores,
        );
        check(rt, "beside", table.allows_store(4_100, 4, steps));
        frames(rt, table, steps);
    }
    Ok(())
}

// Nothing is pending once the table is settled.
fn settles<L: Ledger>(
    rt: &impl Abort,
    table: &mut ObjectTable,
    alloc: Global,
    steps: &mut Steps<L>,
) -> Result<(), NoMemory> {
    check(rt, "pends", pends(table, 4_096, steps));
    check(rt, "object", table.object(0).is_some());
    table.settled();
    check(rt, "settled", !pends(table, 4_096, steps));
    check(rt, "no object", table.object(0).is_none());
    check(rt, "stores", table.allows_store(4_096, 4, steps));
    check(rt, "leaves", leaves(table, 4_096, steps));
    calls(rt, table, alloc, steps)
}

fn each<L: Ledger>(
    rt: &impl Abort,
    table: &mut ObjectTable,
    alloc: Global,
    steps: &mut Steps<L>,
) -> Result<(), NoMemory> {
    calls(rt, table, alloc, steps)?;
    accesses(rt, table, alloc, steps)?;
    settles(rt, table, alloc, steps)
}

fn all<L: Ledger, R: Abort>(rt: &R, alloc: Global, blank: Blank) -> Result<(), NoMemory>
    requires name { blank.name ≡ L.name }
    requires parts { blank.parts ≡ L.parts }
    requires some { 0 < L.parts }
{
    let mut steps = Steps::<L>::new(blank);
    let mut table = ObjectTable::new(alloc);
    each(rt, &mut table, alloc, &mut steps)
}

// Calls, accesses, frames and a settled table.
#[test]
fn rules(rt: HostRuntime) -> Result<(), Fail> {
    all::<Brand, HostRuntime>(&rt, rt.alloc(), Blank::new(1))?;
    Ok(())
}
