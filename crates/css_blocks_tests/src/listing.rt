//! The instructions of a part of each kind, against a listing that was written by hand.
ghost use Rattle.std.specs.Prelude.{IfOk};
ghost use Rattle.css_blocks.specs.Parts.{IsSized};

use crate::checks::check_row;
use css_base::{Line, NoMemory};
use css_blocks::{Part, Way, add, body_of, choice, do_loop, row, when, while_loop};
use css_isa::{Mark, Op};
use std::alloc::Global;

// Each instruction's line, and itself.
static LISTING: [(u32, Op); 26] = [
    (2, Op::In),
    (2, Op::Jumpz(12)),
    (2, Op::Turn),
    (3, Op::In),
    (3, Op::Jumpz(6)),
    (3, Op::Jump(9)),
    (4, Op::In),
    (4, Op::Jumpz(9)),
    (4, Op::Jump(12)),
    (2, Op::Push(65)),
    (2, Op::Drop),
    (2, Op::Jump(0)),
    (5, Op::Turn),
    (5, Op::In),
    (5, Op::Drop),
    (5, Op::In),
    (5, Op::Jumpz(18)),
    (5, Op::Jump(12)),
    (6, Op::Mark(Mark::Started)),
    (6, Op::Jumpz(22)),
    (6, Op::Submit(1)),
    (6, Op::Jump(23)),
    (6, Op::Call(1)),
    (6, Op::Ret),
    (7, Op::Push(0)),
    (7, Op::Ret),
];

fn pair(alloc: Global, first: Part, second: Part) -> Result<Part, NoMemory>
    requires first { IsSized first }
    requires second { IsSized second }
    ensures { IfOk result IsSized }
{
    let mut parts = Vec::new(alloc);
    add(&mut parts, first)?;
    add(&mut parts, second)?;
    Ok(row(parts))
}

// `for (; getchar(); 65) { if (getchar()) continue; if (getchar()) break; }`
fn counting(alloc: Global) -> Result<Part, NoMemory>
    ensures { IfOk result IsSized }
{
    let (two, three, four) = (Line::new(2), Line::new(3), Line::new(4));
    let again = when(alloc, three, Part::Exit(three, Way::Continues))?;
    let early = pair(alloc, Part::Do(three, Op::In), again)?;
    let leave = when(alloc, four, Part::Exit(four, Way::Breaks))?;
    let late = pair(alloc, Part::Do(four, Op::In), leave)?;
    let body = pair(alloc, early, late)?;
    let step = pair(alloc, Part::Do(two, Op::Push(65)), Part::Do(two, Op::Drop))?;
    while_loop(alloc, two, Part::Do(two, Op::In), body, step)
}

// `do getchar(); while (getchar());`
fn skipping(alloc: Global) -> Result<Part, NoMemory>
    ensures { IfOk result IsSized }
{
    let five = Line::new(5);
    let body = pair(alloc, Part::Do(five, Op::In), Part::Do(five, Op::Drop))?;
    let step = row(Vec::new(alloc));
    do_loop(alloc, five, body, step, Part::Do(five, Op::In))
}

// A task's call, which is a plain one where calls make no tasks.
fn task_call(alloc: Global) -> Result<Part, NoMemory>
    ensures { IfOk result IsSized }
{
    let six = Line::new(6);
    let calls = choice(
        alloc,
        six,
        Part::Submit(six, 1, 0, 0),
        Part::Invoke(six, 1, 0),
    )?;
    let begun = pair(alloc, Part::Do(six, Op::Mark(Mark::Started)), calls)?;
    pair(alloc, begun, Part::Leave(six))
}

#[test]
fn listed(rt: HostRuntime) -> Result<(), NoMemory> {
    let alloc = rt.alloc();
    let loops = pair(alloc, counting(alloc)?, skipping(alloc)?)?;
    let whole = pair(alloc, loops, task_call(alloc)?)?;
    let code = body_of(alloc, &whole, Line::new(7))?;
    check_row(&rt, 26, code.len() == LISTING.len());
    for (place, (instr, (line, op))) in code.iter().zip(LISTING.iter()).enumerate() {
        check_row(&rt, place, instr.op == *op && instr.line.number() == *line);
    }
    Ok(())
}
