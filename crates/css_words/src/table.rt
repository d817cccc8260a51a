//! The table of the options.
ghost use Rattle.std.specs.Prelude.{◌≡◌};
ghost use Rattle.css_words.specs.Options.{IsRow, entry, row};

use crate::command::Command::{self, Audit, Erased, Graph, Make, Plan, Resume, Run, Save, Sim};
use crate::options::OptionName;

/// What value an option takes.
#[derive(Clone, Copy, PartialEq, Eq, Debug)]
pub enum OptionKind {
    /// None: it is off where it isn't given.
    Flag,
    /// A number in a range.
    Number {
        /// The least number.
        least: u64,
        /// The greatest one.
        most: u64,
        /// The number where it isn't given.
        default: u64,
    },
    /// The name of a file. Each of its commands wants it.
    File,
}

/// An option's row in the table.
#[derive(Clone, Copy)]
pub struct OptionRow {
    /// Its name behind the two dashes.
    pub name: &'static str,
    /// What value it takes.
    pub kind: OptionKind,
    /// The commands that it belongs to.
    pub commands: &'static [Command],
}

/// All commands.
static EVERY: [Command; 11] = Command::ALL;

/// The commands that run a program.
static RUNNING: [Command; 9] = [Erased, Run, Sim, Graph, Make, Audit, Plan, Save, Resume];

/// The commands that run tasks.
static TASKING: [Command; 8] = [Run, Sim, Graph, Make, Audit, Plan, Save, Resume];

fn number(
    name: &'static str,
    least: u64,
    most: u64,
    default: u64,
    commands: &'static [Command],
) -> OptionRow
    ensures { IsRow result (entry name.entry.now (OptionKind.Number least most default) commands.entry.now) }
{
    let kind = OptionKind::Number {
        least,
        most,
        default,
    };
    OptionRow {
        name,
        kind,
        commands,
    }
}

fn flag(name: &'static str, commands: &'static [Command]) -> OptionRow
    ensures { IsRow result (entry name.entry.now OptionKind.Flag commands.entry.now) }
{
    let kind = OptionKind::Flag;
    OptionRow {
        name,
        kind,
        commands,
    }
}

fn file(name: &'static str, commands: &'static [Command]) -> OptionRow
    ensures { IsRow result (entry name.entry.now OptionKind.File commands.entry.now) }
{
    let kind = OptionKind::File;
    OptionRow {
        name,
        kind,
        commands,
    }
}

/// An option's row.
pub fn row(option: OptionName) -> OptionRow
    ensures { IsRow result (row option) }
{
    match option {
        OptionName::Memory => number("memory", 2_097_152, 268_435_456, 16_777_216, &EVERY),
        OptionName::MainUnits => number("main-units", 1, 1 << 40, 1 << 32, &RUNNING),
        OptionName::TaskUnits => number("task-units", 1, 1 << 40, 1 << 28, &TASKING),
        OptionName::LocalStore => number("local-store", 32_768, 1_048_576, 262_144, &TASKING),
        OptionName::Workers => number("workers", 1, 16, 8, &[Run, Sim, Make, Plan, Resume]),
        OptionName::Bundle => number("bundle", 1, 8, 8, &[Run, Sim, Make, Resume]),
        OptionName::Seed => number("seed", 0, u64::MAX, 1, &[Sim, Make, Resume]),
        OptionName::Images => flag("images", &[Run, Sim, Resume]),
        OptionName::Stats => flag("stats", &[Run, Sim]),
        OptionName::Trace => flag("trace", &[Run, Sim]),
        OptionName::Print => flag("print", &[Make]),
        OptionName::TraceFile => file("trace-file", &[Audit]),
        OptionName::Shared => flag("shared", &[Run]),
        OptionName::Barrier => number("barrier", 1, 1_000_000, 1, &[Save]),
        OptionName::State => file("state", &[Resume]),
    }
}
