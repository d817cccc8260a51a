//! The dynamic rules.
ghost use Rattle.std.specs.Prelude.{◌≡◌};
ghost use Rattle.css_base.specs.Labels.{rule_label};

/// A dynamic rule, X1 to X16 in order: a run stops at the first event that breaks one.
#[derive(Clone, Copy, PartialEq, Eq, PartialOrd, Ord, Debug)]
pub enum Rule {
    /// X1: start is met while started.
    StartTwice,
    /// X2: finish is met while not started.
    FinishWithout,
    /// X3: a dimension is below 1 or its expression faults, a row is wider than its stride, or a window spans over 2^30 bytes.
    Dimension,
    /// X4: a call's windows don't fit the local store.
    TooLarge,
    /// X5: a window isn't wholly live.
    DeadArgument,
    /// X6: a window meets a pending object or another window and isn't equal to it.
    PartialOverlap,
    /// X7: one window stands twice in a call and one of the two is written.
    AliasedArguments,
    /// X8: main touches a pending object without waiting for it.
    Unsynchronised,
    /// X9: a task's access isn't wholly inside one window or one of its frames.
    OutsideArguments,
    /// X10: a task stores into an input window.
    WroteInput,
    /// X11: a task loads a byte of an output window that it hasn't written yet.
    ReadUnwritten,
    /// X12: a task returns with a byte of an output window unwritten.
    LeftUnwritten,
    /// X13: an entry would pass a task's stack limit or open calls.
    TaskStack,
    /// X14: an entry would pass main's stack limit or open calls.
    MainStack,
    /// X15: a unit would pass the units of main or of the task call.
    Units,
    /// X16: the evaluation of a wait expression faults.
    BadWait,
}

impl Rule {
    /// Number and name as reports have them, like `X15 Units`.
    pub fn label(&self) -> &'static str
        ensures { result.now ≡ rule_label self.now }
    {
        match self {
            Rule::StartTwice => "X1 StartTwice",
            Rule::FinishWithout => "X2 FinishWithout",
            Rule::Dimension => "X3 Dimension",
            Rule::TooLarge => "X4 TooLarge",
            Rule::DeadArgument => "X5 DeadArgument",
            Rule::PartialOverlap => "X6 PartialOverlap",
            Rule::AliasedArguments => "X7 AliasedArguments",
            Rule::Unsynchronised => "X8 Unsynchronised",
            Rule::OutsideArguments => "X9 OutsideArguments",
            Rule::WroteInput => "X10 WroteInput",
            Rule::ReadUnwritten => "X11 ReadUnwritten",
            Rule::LeftUnwritten => "X12 LeftUnwritten",
            Rule::TaskStack => "X13 TaskStack",
            Rule::MainStack => "X14 MainStack",
            Rule::Units => "X15 Units",
            Rule::BadWait => "X16 BadWait",
        }
    }
}
