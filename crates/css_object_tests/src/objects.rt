//! Objects that calls enter, main's stores take and probes find.
ghost use Rattle.std.specs.Prelude.{◌≡◌, ◌≤◌, ◌<◌, length, IfOk};
ghost use Rattle.css_arguments.specs.Arguments.{HaveElements};
ghost use Rattle.css_record.specs.Windows as records;

use css_arguments::{Argument, Dims};
use css_base::{Buffer, Direction, NoMemory, Rule};
use css_objects::{Named, ObjectTable, Probe, Steps};
use css_record::{Layout, VersionName, Window};
use std::alloc::Global;
use std::marker::Brand;
use std::process::Abort;
use std::sync::ledger::{Blank, Ledger};
use std::test::Fail;

pub(crate) const LAYOUT: Layout = Layout {
    globals_end: 65_536,
    heap_start: 65_536,
    heap_top: 65_536,
    stack_place: 2_097_152,
    end: 2_097_152,
};

const STORE: u32 = 262_144;

// An argument with these dimensions of int.
fn ints(
    alloc: Global,
    base: u32,
    dimensions: &[i64],
    direction: Direction,
) -> Result<Argument, NoMemory>
    ensures { IfOk result (λ a. a.element ≡ 4) }
{
    let dims = Dims::Values(Vec::from_slice(alloc, dimensions)?);
    let strided = dimensions.len() == 3;
    Ok(Argument {
        base,
        element: 4,
        dims,
        strided,
        direction,
    })
}

// One copy of one byte.
fn snapshots_of(alloc: Global) -> Result<Vec<Option<Buffer>>, NoMemory>
    ensures { IfOk result (λ s. length s.items ≡ 1) }
{
    let bytes = Buffer::new(alloc, Vec::from_slice(alloc, b"a")?)?;
    let mut snapshots = Vec::new(alloc);
    snapshots.push(Some(bytes))?;
    Ok(snapshots)
}

// Judges a call of one argument and enters it, with a snapshot of one byte for what it reads.
fn judged<L: Ledger>(
    table: &mut ObjectTable,
    alloc: Global,
    arguments: &[Argument],
    number: u64,
    steps: &mut Steps<L>,
) -> Result<Result<Named, Rule>, NoMemory>
    requires one { length arguments.now ≡ 1 }
    requires elements { HaveElements arguments.now }
{
    match table.judge(arguments, &LAYOUT, STORE, steps) {
        Ok(()) => {
            let snapshots = snapshots_of(alloc)?;
            let named = table.name_args(alloc, arguments, number, snapshots)?;
            Ok(Ok(named))
        }
        Err(rule) => Ok(Err(rule)),
    }
}

// The same of an argument by itself.
fn enter<L: Ledger>(
    table: &mut ObjectTable,
    alloc: Global,
    argument: Argument,
    number: u64,
    steps: &mut Steps<L>,
) -> Result<Result<Named, Rule>, NoMemory>
    requires { 1 ≤ argument.element }
{
    let mut arguments = Vec::new(alloc);
    arguments.push(argument)?;
    judged(table, alloc, &arguments, number, steps)
}

// Enters a call that must be let through.
fn let_in<L: Ledger>(
    rt: &impl Abort,
    table: &mut ObjectTable,
    alloc: Global,
    argument: Argument,
    number: u64,
    steps: &mut Steps<L>,
) -> Result<Named, NoMemory>
    requires { 1 ≤ argument.element }
{
    match enter(table, alloc, argument, number, steps)? {
        Ok(named) => Ok(named),
        Err(_) => {
            check(rt, "let in", false);
            Err(NoMemory)
        }
    }
}

// Ends the test with these words where it isn't so.
pub(crate) fn check(rt: &impl Abort, words: &str, is_so: bool) {
    assert!(rt; is_so, "{words}");
}

// How a window stands: 0 where nothing is met, 1 where an object is equal, and else the base of the one that is crossed.
fn stands<L: Ledger>(table: &ObjectTable, window: Window, steps: &mut Steps<L>) -> u32
    requires { records.IsWindow (records.window window) }
{
    match table.probe(window, steps) {
        Probe::Nothing => 0,
        Probe::Same(_) => 1,
        Probe::Crosses(w) => w.base,
    }
}

// Whether a task that reads an int at an address needs its bytes.
fn needs<L: Ledger>(table: &ObjectTable, base: u32, steps: &mut Steps<L>) -> bool {
    table.needs_snapshot(Window::plain(base, 4), steps)
}

// Whether an object of a base is pending.
pub(crate) fn pends<L: Ledger>(table: &ObjectTable, base: u32, steps: &mut Steps<L>) -> bool {
    table.pending_at(base, steps).is_some()
}

// A call of one int.
#[derive(Clone, Copy)]
pub(crate) struct Int {
    pub(crate) number: u64,
    pub(crate) base: u32,
    pub(crate) direction: Direction,
}

// Enters a call that must be let through, of one int.
pub(crate) fn one<L: Ledger>(
    rt: &impl Abort,
    table: &mut ObjectTable,
    alloc: Global,
    call: &Int,
    steps: &mut Steps<L>,
) -> Result<(), NoMemory> {
    let argument = ints(alloc, call.base, &[1], call.direction)?;
    let _named = let_in(rt, table, alloc, argument, call.number, steps)?;
    Ok(())
}

// 1,000 objects of four bytes, eight bytes apart.
fn many<L: Ledger>(
    rt: &impl Abort,
    table: &mut ObjectTable,
    alloc: Global,
    steps: &mut Steps<L>,
) -> Result<(), NoMemory> {
    for place in 0..1_000u32 {
        let call = Int {
            number: u64::from(place),
            base: 4_096 + 8 * place,
            direction: Direction::In,
        };
        one(rt, table, alloc, &call, steps)?;
    }
    Ok(())
}

// How a window of four or of eight bytes stands to those objects.
struct Standing {
    base: u32,
    is_wide: bool,
    stands: u32,
}

static STANDINGS: [Standing; 3] = [
    Standing {
        base: 12_088,
        is_wide: false,
        stands: 1,
    },
    Standing {
        base: 12_092,
        is_wide: false,
        stands: 0,
    },
    Standing {
        base: 12_084,
        is_wide: true,
        stands: 12_088,
    },
];

fn is_standing<L: Ledger>(table: &ObjectTable, row: &Standing, steps: &mut Steps<L>) -> bool {
    if row.is_wide {
        return stands(table, Window::plain(row.base, 8), steps) == row.stands;
    }
    stands(table, Window::plain(row.base, 4), steps) == row.stands
}

fn probes<L: Ledger>(
    rt: &impl Abort,
    table: &mut ObjectTable,
    alloc: Global,
    steps: &mut Steps<L>,
) -> Result<(), NoMemory> {
    many(rt, table, alloc, steps)?;
    for row in &STANDINGS {
        check(rt, "standing", is_standing(table, row, steps));
    }
    check(rt, "last", table.object(999).is_some());
    check(rt, "none", table.object(1_000).is_none());
    Ok(())
}

// What a call of one int at 4096 is named.
struct Row {
    number: u64,
    direction: Direction,
    input: VersionName,
    renamed: bool,
    producer: Option<u64>,
}

const GIVEN: VersionName = VersionName::Given(0);

const MADE: VersionName = VersionName::Made { task: 1, out: 0 };

// It is read, then written, and then read again.
static ROWS: [Row; 3] = [
    Row {
        number: 0,
        direction: Direction::In,
        input: GIVEN,
        renamed: false,
        producer: None,
    },
    Row {
        number: 1,
        direction: Direction::InOut,
        input: GIVEN,
        renamed: true,
        producer: None,
    },
    Row {
        number: 2,
        direction: Direction::In,
        input: MADE,
        renamed: false,
        producer: Some(1),
    },
];

// Once its bytes are there they are given, and are still that task's.
static KEPT: Row = Row {
    number: 3,
    direction: Direction::In,
    input: GIVEN,
    renamed: false,
    producer: Some(1),
};

fn is_row(named: &Named, row: &Row) -> bool {
    let input = named.inputs.first() == Some(&row.input);
    let renamed = named.renamed.first() == Some(&row.renamed);
    let producer = named.producers.first().copied() == row.producer;
    input && renamed && producer
}

fn entered<L: Ledger>(
    rt: &impl Abort,
    table: &mut ObjectTable,
    alloc: Global,
    row: &Row,
    steps: &mut Steps<L>,
) -> Result<(), NoMemory> {
    let argument = ints(alloc, 4_096, &[1], row.direction)?;
    let named = let_in(rt, table, alloc, argument, row.number, steps)?;
    check(rt, "row", is_row(&named, row));
    Ok(())
}

// How many versions tasks make.
fn makes(table: &ObjectTable, alloc: Global) -> Result<usize, NoMemory> {
    Ok(table.made(alloc)?.len())
}

// The bytes of one int.
fn bytes_of(alloc: Global) -> Result<Vec<Buffer>, NoMemory> {
    let bytes = Buffer::new(alloc, Vec::from_slice(alloc, b"abcd")?)?;
    let mut kept = Vec::new(alloc);
    kept.push(bytes)?;
    Ok(kept)
}

// Puts bytes in the place of the one version that a task makes.
fn keep(rt: &impl Abort, table: &mut ObjectTable, alloc: Global) -> Result<(), NoMemory> {
    check(rt, "made", makes(table, alloc)? == 1);
    table.regenerated(bytes_of(alloc)?);
    check(rt, "kept", makes(table, alloc)? == 0);
    Ok(())
}

fn rows<L: Ledger>(
    rt: &impl Abort,
    table: &mut ObjectTable,
    alloc: Global,
    steps: &mut Steps<L>,
) -> Result<(), NoMemory> {
    for row in &ROWS {
        entered(rt, table, alloc, row, steps)?;
    }
    Ok(())
}

fn versions<L: Ledger>(
    rt: &impl Abort,
    table: &mut ObjectTable,
    alloc: Global,
    steps: &mut Steps<L>,
) -> Result<(), NoMemory> {
    check(rt, "needs", needs(table, 4_096, steps));
    rows(rt, table, alloc, steps)?;
    check(rt, "there", !needs(table, 4_096, steps));
    check(rt, "load", !table.allows_load(4_099, 1, steps));
    keep(rt, table, alloc)?;
    entered(rt, table, alloc, &KEPT, steps)?;
    table.waited(4_096);
    check(rt, "waited", !pends(table, 4_096, steps));
    Ok(())
}

// What main's store of so many bytes takes.
fn store<L: Ledger>(
    rt: &impl Abort,
    table: &mut ObjectTable,
    address: u32,
    count: u32,
    steps: &mut Steps<L>,
) -> Option<Window> {
    if table.allows_store(address, count, steps) {
        return table.stored(address, count, steps);
    }
    check(rt, "store", false);
    None
}

// Three ints that are read, and a fourth one that is written.
static INTS: [Int; 4] = [
    Int {
        number: 0,
        base: 4_096,
        direction: Direction::In,
    },
    Int {
        number: 1,
        base: 4_100,
        direction: Direction::In,
    },
    Int {
        number: 2,
        base: 4_104,
        direction: Direction::In,
    },
    Int {
        number: 3,
        base: 4_108,
        direction: Direction::Out,
    },
];

fn four<L: Ledger>(
    rt: &impl Abort,
    table: &mut ObjectTable,
    alloc: Global,
    steps: &mut Steps<L>,
) -> Result<(), NoMemory> {
    for call in &INTS {
        one(rt, table, alloc, call, steps)?;
    }
    Ok(())
}

// The bases of the objects that a store of the first eight bytes takes, one after another; 0 for none.
static TAKEN: [u32; 3] = [4_100, 4_096, 0];

fn takes<L: Ledger>(rt: &impl Abort, table: &mut ObjectTable, steps: &mut Steps<L>) -> u32 {
    match store(rt, table, 4_096, 8, steps) {
        Some(w) => w.base,
        None => 0,
    }
}

// A store of eight bytes takes two objects that are only read, and no third one beside them.
fn stores<L: Ledger>(
    rt: &impl Abort,
    table: &mut ObjectTable,
    alloc: Global,
    steps: &mut Steps<L>,
) -> Result<(), NoMemory> {
    four(rt, table, alloc, steps)?;
    check(rt, "no store", !table.allows_store(4_104, 8, steps));
    for taken in &TAKEN {
        check(rt, "taken", takes(rt, table, steps) == *taken);
    }
    check(rt, "third", pends(table, 4_104, steps));
    check(rt, "frame", !leaves(table, 4_100, steps));
    Ok(())
}

// Whether main may leave a frame of eight bytes.
pub(crate) fn leaves<L: Ledger>(table: &ObjectTable, base: u32, steps: &mut Steps<L>) -> bool {
    table.leaves_frame(Window::plain(base, 8), steps)
}

// A block of 8 rows of a matrix whose rows have 8 ints, and the rule that it breaks.
struct Block {
    base: u32,
    width: i64,
    rule: Option<Rule>,
}

// Two blocks of a matrix of 8 rows of 8 ints stand side by side; one that is shifted by two columns meets both, and one that is wider
// than its stride is none. A matrix as a block is one row.
static BLOCKS: [Block; 5] = [
    Block {
        base: 4_096,
        width: 4,
        rule: None,
    },
    Block {
        base: 4_112,
        width: 4,
        rule: None,
    },
    Block {
        base: 4_104,
        width: 4,
        rule: Some(Rule::PartialOverlap),
    },
    Block {
        base: 4_104,
        width: 9,
        rule: Some(Rule::Dimension),
    },
    Block {
        base: 8_192,
        width: 8,
        rule: None,
    },
];

// The rule that a call of one block breaks.
fn broken<L: Ledger>(
    table: &mut ObjectTable,
    alloc: Global,
    block: &Block,
    steps: &mut Steps<L>,
) -> Result<Option<Rule>, NoMemory> {
    let dimensions = [8, block.width, 8];
    let argument = ints(alloc, block.base, &dimensions, Direction::InOut)?;
    match enter(table, alloc, argument, 0, steps)? {
        Ok(_) => Ok(None),
        Err(rule) => Ok(Some(rule)),
    }
}

// A block of 8 rows of 4 ints, and the base of the block that it crosses.
struct Crossing {
    base: u32,
    crosses: u32,
}

// Shifted by a column, by two and by three it crosses both blocks, of which the one behind has the greater base.
static CROSSINGS: [Crossing; 3] = [
    Crossing {
        base: 4_100,
        crosses: 4_112,
    },
    Crossing {
        base: 4_104,
        crosses: 4_112,
    },
    Crossing {
        base: 4_108,
        crosses: 4_112,
    },
];

fn base_crossed<L: Ledger>(table: &ObjectTable, base: u32, steps: &mut Steps<L>) -> u32 {
    let window = Window {
        base,
        rows: 8,
        width: 16,
        stride: 32,
    };
    stands(table, window, steps)
}

fn blocks<L: Ledger>(
    rt: &impl Abort,
    table: &mut ObjectTable,
    alloc: Global,
    steps: &mut Steps<L>,
) -> Result<(), NoMemory> {
    for block in &BLOCKS {
        let rule = broken(table, alloc, block, steps)?;
        check(rt, "block", rule == block.rule);
    }
    for row in &CROSSINGS {
        check(
            rt,
            "crosses",
            base_crossed(table, row.base, steps) == row.crosses,
        );
    }
    let whole = stands(table, Window::plain(8_192, 256), steps);
    check(rt, "one object", whole == 1);
    Ok(())
}

// Each begins with an empty table.
fn each<L: Ledger>(
    rt: &impl Abort,
    table: &mut ObjectTable,
    alloc: Global,
    steps: &mut Steps<L>,
) -> Result<(), NoMemory> {
    probes(rt, table, alloc, steps)?;
    table.settled();
    versions(rt, table, alloc, steps)?;
    table.settled();
    stores(rt, table, alloc, steps)?;
    table.settled();
    blocks(rt, table, alloc, steps)
}

fn all<L: Ledger, R: Abort>(rt: &R, alloc: Global, blank: Blank) -> Result<(), NoMemory>
    requires name { blank.name ≡ L.name }
    requires parts { blank.parts ≡ L.parts }
    requires some { 0 < L.parts }
{
    let mut steps = Steps::<L>::new(blank);
    let mut table = ObjectTable::new(alloc);
    each(rt, &mut table, alloc, &mut steps)
}

// Probes, versions, stores and blocks.
#[test]
fn objects(rt: HostRuntime) -> Result<(), Fail> {
    all::<Brand, HostRuntime>(&rt, rt.alloc(), Blank::new(1))?;
    Ok(())
}
