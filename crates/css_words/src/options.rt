//! The options.
ghost use Rattle.std.specs.Prelude.{◌≡◌, ◌≢◌, MatchOption};
ghost use Rattle.css_words.specs.Options.{option_name};

use crate::table::row;

/// An option.
#[derive(Clone, Copy, PartialEq, Eq, Debug)]
pub enum OptionName {
    /// `--memory`: bytes of main's memory.
    Memory,
    /// `--main-units`: units of main.
    MainUnits,
    /// `--task-units`: units of each task call.
    TaskUnits,
    /// `--local-store`: bytes of each worker's local store, rounded down to a multiple of 128.
    LocalStore,
    /// `--workers`: worker threads.
    Workers,
    /// `--bundle`: the most tasks that a worker takes at once.
    Bundle,
    /// `--seed`: what the order is drawn from.
    Seed,
    /// `--images`: reports images of memory.
    Images,
    /// `--stats`: counts the calls.
    Stats,
    /// `--trace`: writes a trace.
    Trace,
    /// `--print`: writes the generated text.
    Print,
    /// `--trace-file`: the file of a trace.
    TraceFile,
    /// `--shared`: runs tasks on shared memory.
    Shared,
    /// `--barrier`: which barrier to stop at.
    Barrier,
    /// `--state`: the file of a state.
    State,
}

impl OptionName {
    /// Every option.
    pub const ALL: [OptionName; 15] = [
        OptionName::Memory,
        OptionName::MainUnits,
        OptionName::TaskUnits,
        OptionName::LocalStore,
        OptionName::Workers,
        OptionName::Bundle,
        OptionName::Seed,
        OptionName::Images,
        OptionName::Stats,
        OptionName::Trace,
        OptionName::Print,
        OptionName::TraceFile,
        OptionName::Shared,
        OptionName::Barrier,
        OptionName::State,
    ];
}

/// The option of this name, which stands behind two dashes.
pub(crate) fn option_named(name: &str) -> Option<OptionName>
    ensures { MatchOption result
        ((option : OptionName) → option_name option ≢ name.now)
        (λ option. option_name option ≡ name.now) }
{
    for option in OptionName::ALL {
        if row(option).name == name {
            return Some(option);
        }
    }
    None
}
