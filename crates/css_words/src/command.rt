//! The commands.
ghost use Rattle.std.specs.Prelude.{◌≡◌, ◌≢◌, MatchOption};
ghost use Rattle.css_words.specs.Options.{command_name};

/// What the program is asked to do.
#[derive(Clone, Copy, PartialEq, Eq, Debug)]
pub enum Command {
    /// Whether the text is accepted.
    Check,
    /// The listing of its code.
    Code,
    /// A run with the pragmas erased.
    Erased,
    /// A run with tasks on threads.
    Run,
    /// A run with tasks in a drawn order.
    Sim,
    /// The graph of its calls.
    Graph,
    /// A run of the generated program of a number.
    Make,
    /// The judgement of a trace.
    Audit,
    /// The timeline on so many workers.
    Plan,
    /// A run up to a barrier, and the state there.
    Save,
    /// The rest of a run, from a state on.
    Resume,
}

impl Command {
    /// Every command.
    pub const ALL: [Command; 11] = [
        Command::Check,
        Command::Code,
        Command::Erased,
        Command::Run,
        Command::Sim,
        Command::Graph,
        Command::Make,
        Command::Audit,
        Command::Plan,
        Command::Save,
        Command::Resume,
    ];

    /// The word for it.
    pub fn name(self) -> &'static str
        ensures { result.now ≡ command_name self }
    {
        match self {
            Command::Check => "check",
            Command::Code => "code",
            Command::Erased => "erased",
            Command::Run => "run",
            Command::Sim => "sim",
            Command::Graph => "graph",
            Command::Make => "make",
            Command::Audit => "audit",
            Command::Plan => "plan",
            Command::Save => "save",
            Command::Resume => "resume",
        }
    }
}

/// The command of this name.
pub(crate) fn command_named(name: &str) -> Option<Command>
    ensures { MatchOption result
        ((command : Command) → command_name command ≢ name.now)
        (λ command. command_name command ≡ name.now) }
{
    for command in Command::ALL {
        if command.name() == name {
            return Some(command);
        }
    }
    None
}
