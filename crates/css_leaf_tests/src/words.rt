//! Lists of words, parted at single blanks, with what they ask for by the rule: a refusal is empty; else the command, the
//! operand, and each field that hasn't its default. Two blanks have an empty word between them.

use crate::checks::check;
use css_base::{NoMemory, Words};
use css_words::{Built, Command, OptionName, Request, WordsFault, read_words};
use std::alloc::Global;
use std::process::Abort;

static MADE: [(&str, &str); 46] = [
    ("cssrun check f", "check f"),
    ("cssrun code f", "code f"),
    ("cssrun erased f", "erased f"),
    ("cssrun run f", "run f"),
    ("cssrun sim f", "sim f"),
    ("cssrun graph f", "graph f"),
    ("cssrun plan f", "plan f"),
    ("cssrun save f", "save f"),
    (" check f", "check f"),
    ("--seed check f", "check f"),
    ("cssrun run -", "run -"),
    ("cssrun run ", "run "),
    ("cssrun run -- -x", "run -x"),
    ("cssrun run -- --", "run --"),
    ("cssrun run -- --images", "run --images"),
    ("cssrun run f --", "run f"),
    ("cssrun run --images -- f", "run f images"),
    (
        "cssrun run --trace --images f --shared --stats",
        "run f images stats trace shared",
    ),
    ("cssrun check --memory 2097152 f", "check f memory 2097152"),
    (
        "cssrun check f --memory=268435456",
        "check f memory 268435456",
    ),
    ("cssrun erased --main-units 1 f", "erased f main-units 1"),
    (
        "cssrun erased --main-units=1099511627776 f",
        "erased f main-units 1099511627776",
    ),
    ("cssrun graph --task-units 1 f", "graph f task-units 1"),
    (
        "cssrun graph --task-units 1099511627776 f",
        "graph f task-units 1099511627776",
    ),
    (
        "cssrun save --local-store 32768 f",
        "save f local-store 32768",
    ),
    (
        "cssrun save --local-store 1048576 f",
        "save f local-store 1048576",
    ),
    (
        "cssrun save --local-store 32895 f",
        "save f local-store 32768",
    ),
    (
        "cssrun save --local-store 65535 f",
        "save f local-store 65408",
    ),
    ("cssrun plan --workers 1 f", "plan f workers 1"),
    (
        "cssrun run --workers=16 --bundle=1 f",
        "run f workers 16 bundle 1",
    ),
    ("cssrun run --bundle 8 f", "run f"),
    ("cssrun sim --seed 0 f", "sim f seed 0"),
    (
        "cssrun sim --seed 18446744073709551615 f",
        "sim f seed 18446744073709551615",
    ),
    ("cssrun sim --seed=00000000000000000007 f", "sim f seed 7"),
    ("cssrun make 0", "make "),
    ("cssrun make 9999", "make  number 9999"),
    ("cssrun make 00000000000000000047", "make  number 47"),
    ("cssrun make -- 47", "make  number 47"),
    (
        "cssrun make 47 --print --seed 2",
        "make  number 47 seed 2 print",
    ),
    ("cssrun audit --trace-file t f", "audit f trace-file t"),
    ("cssrun audit --trace-file=-t f", "audit f trace-file -t"),
    ("cssrun audit --trace-file=a=b f", "audit f trace-file a=b"),
    ("cssrun audit --trace-file= f", "audit f"),
    ("cssrun save --barrier 1000000 f", "save f barrier 1000000"),
    ("cssrun resume --state s f", "resume f state s"),
    (
        "cssrun resume --images --bundle 2 --workers 3 --seed 4 f --state=s",
        "resume f workers 3 bundle 2 seed 4 images state s",
    ),
];

static REFUSED: [&str; 74] = [
    "",
    "cssrun",
    "cssrun f run",
    "cssrun walk f",
    "cssrun Run f",
    "cssrun  f",
    "cssrun -- run f",
    "cssrun --seed 1 sim f",
    "cssrun run",
    "cssrun run --",
    "cssrun run f g",
    "cssrun run f f",
    "cssrun run f -- g",
    "cssrun run -- f g",
    "cssrun run f ",
    "cssrun run -x",
    "cssrun run f -x",
    "cssrun run --wide f",
    "cssrun run --= f",
    "cssrun run --=5 f",
    "cssrun run ---images f",
    "cssrun run -images f",
    "cssrun run --image f",
    "cssrun run --imagess f",
    "cssrun run --Images f",
    "cssrun run --seed 1 f",
    "cssrun run --images --images f",
    "cssrun sim --seed 1 --seed 1 f",
    "cssrun sim --seed 1 --seed=2 f",
    "cssrun run --images= f",
    "cssrun run --images=yes f",
    "cssrun sim f --seed",
    "cssrun sim f --seed=",
    "cssrun sim --seed= 5 f",
    "cssrun sim --seed -1 f",
    "cssrun sim --seed=-1 f",
    "cssrun sim --seed +1 f",
    "cssrun sim --seed 1x f",
    "cssrun sim --seed  f",
    "cssrun sim --seed -- f",
    "cssrun sim --seed 000000000000000000001 f",
    "cssrun sim --seed 18446744073709551616 f",
    "cssrun sim --seed 99999999999999999999 f",
    "cssrun check --memory 2097151 f",
    "cssrun check --memory 268435457 f",
    "cssrun run --main-units 0 f",
    "cssrun run --main-units 1099511627777 f",
    "cssrun run --task-units 0 f",
    "cssrun run --task-units 1099511627777 f",
    "cssrun run --local-store 32767 f",
    "cssrun run --local-store 1048577 f",
    "cssrun run --workers 0 f",
    "cssrun run --workers 17 f",
    "cssrun run --bundle 0 f",
    "cssrun run --bundle 9 f",
    "cssrun check --main-units 1 f",
    "cssrun erased --task-units 1 f",
    "cssrun graph --workers 1 f",
    "cssrun plan --bundle 1 f",
    "cssrun run --print f",
    "cssrun resume --stats --state s f",
    "cssrun make",
    "cssrun make 10000",
    "cssrun make -",
    "cssrun make -- -1",
    "cssrun make 1 2",
    "cssrun make ",
    "cssrun audit f",
    "cssrun audit --trace-file - f",
    "cssrun run --trace-file t f",
    "cssrun resume f",
    "cssrun sim --shared f",
    "cssrun save --barrier 0 f",
    "cssrun save --barrier 1000001 f",
];

fn words(alloc: Global, text: &str) -> Result<Words, NoMemory> {
    let mut words = Vec::new(alloc);
    for word in text.split(' ') {
        words.push(String::from_str(alloc, word)?)?;
    }
    Ok(Words::new(words))
}

fn push_number(
    alloc: Global,
    text: &mut String,
    name: &str,
    value: u64,
    default: u64,
) -> Result<(), NoMemory> {
    if value != default {
        text.push_str(format!(in alloc; " {name} {value}")?.as_str())?;
    }
    Ok(())
}

fn push_flag(text: &mut String, name: &str, is_on: bool) -> Result<(), NoMemory> {
    if is_on {
        text.push_str(" ")?;
        text.push_str(name)?;
    }
    Ok(())
}

fn push_name(text: &mut String, name: &str, value: &str) -> Result<(), NoMemory> {
    if !value.is_empty() {
        push_flag(text, name, true)?;
        push_flag(text, value, true)?;
    }
    Ok(())
}

fn push_numbers(alloc: Global, text: &mut String, request: &Request) -> Result<(), NoMemory> {
    let limits = &request.limits;
    push_number(alloc, text, "number", u64::from(request.number), 0)?;
    push_number(alloc, text, "memory", u64::from(limits.memory), 16777216)?;
    push_number(alloc, text, "main-units", limits.main_units, 4294967296)?;
    push_number(alloc, text, "task-units", limits.task_units, 268435456)?;
    push_number(
        alloc,
        text,
        "local-store",
        u64::from(limits.local_store),
        262144,
    )?;
    push_number(alloc, text, "workers", u64::from(limits.workers), 8)?;
    push_number(alloc, text, "bundle", u64::from(limits.bundle), 8)?;
    push_number(alloc, text, "seed", request.seed, 1)?;
    push_number(alloc, text, "barrier", u64::from(request.barrier), 1)
}

fn push_flags(text: &mut String, request: &Request) -> Result<(), NoMemory> {
    push_flag(text, "images", request.images)?;
    push_flag(text, "stats", request.stats)?;
    push_flag(text, "trace", request.trace)?;
    push_flag(text, "print", request.print)?;
    push_flag(text, "shared", request.shared)
}

/// What is asked for, without the fields that have their defaults.
fn shown(alloc: Global, request: &Request) -> Result<String, NoMemory> {
    let mut text = String::from_str(alloc, request.command.name())?;
    text.push_str(" ")?;
    text.push_str(request.file.text())?;
    push_numbers(alloc, &mut text, request)?;
    push_flags(&mut text, request)?;
    push_name(&mut text, "trace-file", request.trace_file.text())?;
    push_name(&mut text, "state", request.state.text())?;
    Ok(text)
}

/// What words ask for, shown; empty where they are refused.
fn reading(alloc: Global, text: &str, built: &Built<'_>) -> Result<String, NoMemory> {
    match read_words(alloc, &words(alloc, text)?, built) {
        Ok(request) => shown(alloc, &request),
        Err(WordsFault::Refused) => Ok(String::new(alloc)),
        Err(WordsFault::NoMemory) => Err(NoMemory),
    }
}

/// Each row's words ask for what it shows.
fn reads(
    rt: &impl Abort,
    alloc: Global,
    built: &Built<'_>,
    rows: &[(&str, &str)],
) -> Result<(), NoMemory> {
    for (text, want) in rows {
        check(rt, text, reading(alloc, text, built)?.as_str() == *want);
    }
    Ok(())
}

/// All these words are refused.
fn refuses(
    rt: &impl Abort,
    alloc: Global,
    built: &Built<'_>,
    rows: &[&str],
) -> Result<(), NoMemory> {
    for text in rows {
        check(rt, text, reading(alloc, text, built)?.is_empty());
    }
    Ok(())
}

static COMMANDS: [Command; 11] = Command::ALL;

static OPTIONS: [OptionName; 15] = OptionName::ALL;

#[test]
fn words_are_read(rt: HostRuntime) -> Result<(), NoMemory> {
    let built = Built {
        commands: COMMANDS.as_slice(),
        options: OPTIONS.as_slice(),
    };
    reads(&rt, rt.alloc(), &built, MADE.as_slice())
}

#[test]
fn words_are_refused(rt: HostRuntime) -> Result<(), NoMemory> {
    let built = Built {
        commands: COMMANDS.as_slice(),
        options: OPTIONS.as_slice(),
    };
    let none = read_words(rt.alloc(), &Words::new(Vec::new(rt.alloc())), &built);
    check(&rt, "no words", matches!(none, Err(WordsFault::Refused)));
    refuses(&rt, rt.alloc(), &built, REFUSED.as_slice())
}

static SOME_COMMANDS: [Command; 2] = [Command::Erased, Command::Run];

static SOME_OPTIONS: [OptionName; 1] = [OptionName::Memory];

static OF_SOME: [(&str, &str); 5] = [
    ("cssrun erased f", "erased f"),
    ("cssrun run --memory 2097152 f", "run f memory 2097152"),
    ("cssrun sim f", ""),
    ("cssrun run --images f", ""),
    ("cssrun erased --main-units 1 f", ""),
];

#[test]
fn what_is_not_built_is_refused(rt: HostRuntime) -> Result<(), NoMemory> {
    let built = Built {
        commands: SOME_COMMANDS.as_slice(),
        options: SOME_OPTIONS.as_slice(),
    };
    reads(&rt, rt.alloc(), &built, OF_SOME.as_slice())
}
