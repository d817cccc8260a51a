//! Tests of the yard in order, over a task that divides 100 by the number in its window.
ghost use Rattle.std.specs.Prelude.{◌≡◌, ◌≤◌, IfOk};
ghost use Rattle.css_vm.specs.Code.{code_of};
ghost use Rattle.css_run_tests.specs.Tasks.{task_code};
ghost use Rattle.css_run_tests.specs.Yards.{IsSecondInput, HasOne, HasTwo};

use crate::codes::{call, dividing_code, given};
use css_base::{Buffer, FaultKind, Limits, Line, NoMemory, Stop};
use css_record::VersionName;
use css_vm::Code;
use css_yard::{InOrder, Yard, YardAnswer};
use std::alloc::Global;
use std::process::Abort;
use std::test::Fail;

const FIRST: VersionName = VersionName::Made { task: 0, out: 0 };

const SECOND: VersionName = VersionName::Made { task: 1, out: 0 };

// A yard to which a task was submitted that is given a number.
fn one(alloc: Global, code: &Code, number: u8) -> Result<InOrder<'_>, YardAnswer>
    requires { code_of code.now ≡ task_code }
    ensures { IfOk result (λ y. HasOne y 0) }
{
    let mut yard = InOrder::new(alloc, code, &Limits::DEFAULT)?;
    yard.submit(
        alloc,
        call(alloc, 0, VersionName::Given(0))?,
        given(alloc, number)?,
    )?;
    Ok(yard)
}

// And a second one, that is given another number, or the first one's value.
fn two(alloc: Global, code: &Code, number: u8, other: Option<u8>) -> Result<InOrder<'_>, YardAnswer>
    requires { code_of code.now ≡ task_code }
    ensures { IfOk result (λ y. HasTwo y) }
{
    let mut yard = one(alloc, code, number)?;
    let (input, given) = second(alloc, other)?;
    yard.submit(alloc, call(alloc, 1, input)?, given)?;
    Ok(yard)
}

fn second(alloc: Global, other: Option<u8>) -> Result<(VersionName, Vec<Buffer>), NoMemory>
    ensures { IfOk result (λ x. IsSecondInput x.0 x.1.items) }
{
    match other {
        Some(number) => Ok((VersionName::Given(0), given(alloc, number)?)),
        None => Ok((FIRST, Vec::new(alloc))),
    }
}

// The numbers that both tasks make.
fn settled(
    alloc: Global,
    code: &Code,
    number: u8,
    other: Option<u8>,
) -> Result<Vec<Buffer>, YardAnswer>
    requires { code_of code.now ≡ task_code }
{
    let mut yard = two(alloc, code, number, other)?;
    yard.settle(alloc, &[SECOND, FIRST])
}

// The same, fetched.
fn fetched(
    alloc: Global,
    code: &Code,
    number: u8,
    other: Option<u8>,
) -> Result<Vec<Buffer>, YardAnswer>
    requires { code_of code.now ≡ task_code }
{
    let mut yard = two(alloc, code, number, other)?;
    let second = yard.fetch(alloc, SECOND, Line::new(4))?;
    let first = yard.fetch(alloc, FIRST, Line::new(4))?;
    match vec![in alloc; second, first] {
        Ok(values) => Ok(values),
        Err(_) => Err(YardAnswer::NoMemory),
    }
}

// The first stop, where it is one.
fn stop_of(answer: &YardAnswer) -> Option<(u64, Stop, u32)> {
    match answer {
        YardAnswer::Stopped { task, stop, line } => Some((*task, *stop, line.number())),
        YardAnswer::NoMemory => None,
    }
}

// The first task makes this number and the second one that, or this task stops first.
fn expect(
    rt: &impl Abort,
    values: Result<Vec<Buffer>, YardAnswer>,
    expected: Result<(u8, u8), u64>,
) {
    match (values, expected) {
        (Ok(values), Ok((one, two))) => {
            let [second, first] = values.as_slice() else {
                panic!(rt; "it has another number of values");
            };
            assert_eq!(rt; first.bytes(), [0, 0, 0, one].as_slice());
            assert_eq!(rt; second.bytes(), [0, 0, 0, two].as_slice());
        }
        (Err(answer), Err(task)) => {
            let by_zero = Stop::Fault(FaultKind::DivideByZero);
            assert_eq!(rt; stop_of(&answer), Some((task, by_zero, 6)));
        }
        _ => panic!(rt; "it ends another way"),
    }
}

// The first task divides 100 by a number; the second one by another number, or by what the first one makes. A task that stops is
// the first one that does, and one that waits for its value isn't run.
#[test]
fn rows(rt: HostRuntime) -> Result<(), Fail> {
    let code = dividing_code(rt.alloc())?;
    for (number, other, expected) in [
        (9, None, Ok((11, 9))),
        (7, Some(3), Ok((14, 33))),
        (101, Some(101), Ok((0, 0))),
        (0, Some(0), Err(0)),
        (5, Some(0), Err(1)),
        (101, None, Err(1)),
        (0, None, Err(0)),
    ] {
        expect(&rt, settled(rt.alloc(), &code, number, other), expected);
        expect(&rt, fetched(rt.alloc(), &code, number, other), expected);
    }
    expect(&rt, settled(rt.alloc(), &code, 0, Some(5)), Err(0));
    Ok(())
}

// What the last one of many generations makes, each of a task that is given a number.
fn last_made(alloc: Global, code: &Code, number: u8) -> Result<Vec<Buffer>, YardAnswer>
    requires { code_of code.now ≡ task_code }
{
    let mut yard = InOrder::new(alloc, code, &Limits::DEFAULT)?;
    let mut values = Vec::new(alloc);
    for task in 7..40 {
        yard.submit(
            alloc,
            call(alloc, task, VersionName::Given(0))?,
            given(alloc, number)?,
        )?;
        values = yard.settle(alloc, &[VersionName::Made { task, out: 0 }])?;
    }
    Ok(values)
}

// A yard goes on behind a settle, and tasks may be numbered from any number on.
#[test]
fn generations(rt: HostRuntime) -> Result<(), Fail> {
    let code = dividing_code(rt.alloc())?;
    let values = last_made(rt.alloc(), &code, 7)?;
    let [value] = values.as_slice() else {
        panic!(&rt; "it has another number of values");
    };
    assert_eq!(&rt; value.bytes(), [0, 0, 0, 14].as_slice());
    Ok(())
}
