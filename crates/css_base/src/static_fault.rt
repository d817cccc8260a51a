//! The static rules.
ghost use Rattle.std.specs.Prelude.{◌≡◌};
ghost use Rattle.css_base.specs.Labels.{static_label};

use crate::line::Line;

/// A static rule, S1 to S24 in order, and S0 as long as a part of the language isn't built.
#[derive(Clone, Copy, PartialEq, Eq, PartialOrd, Ord, Debug)]
pub enum StaticName {
    /// S0: the text isn't of the part of the language that is built.
    NotBuilt,
    /// S1: the text is longer than 4,194,304 bytes.
    TooLong,
    /// S2: a byte that no text has outside comments.
    BadByte,
    /// S3: no token is spelled, or what was opened isn't ended.
    BadToken,
    /// S4: a `#` line of another kind, a malformed macro, or too many tokens.
    BadMacro,
    /// S5: no tree is spelled.
    Syntax,
    /// S6: more than 200 brackets are open.
    TooDeep,
    /// S7: no definition of main.
    NoMain,
    /// S8: a name is declared twice in one scope.
    Redeclared,
    /// S9: a name isn't declared, or a called function isn't defined.
    Undeclared,
    /// S10: a type rule is broken.
    TypeMismatch,
    /// S11: a place is needed.
    NotAnObject,
    /// S12: a number or character constant out of range or form.
    BadConstant,
    /// S13: a printf format and its arguments don't agree.
    BadFormat,
    /// S14: the words of a directive aren't those that its place allows.
    BadDirective,
    /// S15: a keyword that this profile leaves out.
    Unsupported,
    /// S16: a pointer parameter of a task stands in no clause.
    NoDirection,
    /// S17: a clause of a task directive is wrong.
    BadClause,
    /// S18: a function that a task reaches names a global.
    TaskGlobal,
    /// S19: a function that a task reaches calls a library function.
    TaskOutside,
    /// S20: a function that a task reaches calls a task or holds a directive.
    NestedTask,
    /// S21: a task doesn't return void.
    NotVoid,
    /// S22: a task has more than 32 parameters.
    TooManyArguments,
    /// S23: a dimension or wait expression has a side effect.
    SideEffect,
    /// S24: a type, a frame or the globals are too big.
    TooBig,
}

impl StaticName {
    /// Number and name as reports have them, like `S7 NoMain`.
    pub fn label(&self) -> &'static str
        ensures { result.now ≡ static_label self.now }
    {
        match self {
            StaticName::NotBuilt => "S0 NotBuilt",
            StaticName::TooLong => "S1 TooLong",
            StaticName::BadByte => "S2 BadByte",
            StaticName::BadToken => "S3 BadToken",
            StaticName::BadMacro => "S4 BadMacro",
            StaticName::Syntax => "S5 Syntax",
            StaticName::TooDeep => "S6 TooDeep",
            StaticName::NoMain => "S7 NoMain",
            StaticName::Redeclared => "S8 Redeclared",
            StaticName::Undeclared => "S9 Undeclared",
            StaticName::TypeMismatch => "S10 TypeMismatch",
            StaticName::NotAnObject => "S11 NotAnObject",
            StaticName::BadConstant => "S12 BadConstant",
            StaticName::BadFormat => "S13 BadFormat",
            StaticName::BadDirective => "S14 BadDirective",
            StaticName::Unsupported => "S15 Unsupported",
            StaticName::NoDirection => "S16 NoDirection",
            StaticName::BadClause => "S17 BadClause",
            StaticName::TaskGlobal => "S18 TaskGlobal",
            StaticName::TaskOutside => "S19 TaskOutside",
            StaticName::NestedTask => "S20 NestedTask",
            StaticName::NotVoid => "S21 NotVoid",
            StaticName::TooManyArguments => "S22 TooManyArguments",
            StaticName::SideEffect => "S23 SideEffect",
            StaticName::TooBig => "S24 TooBig",
        }
    }
}

/// The first static rule that a text breaks, with its line.
#[derive(Clone, Copy, PartialEq, Eq, Debug)]
pub struct StaticFault {
    pub name: StaticName,
    pub line: Line,
}

/// Why the front end has no program.
#[derive(Clone, Copy, PartialEq, Eq, Debug)]
pub enum FrontFault {
    /// The text breaks a static rule.
    Static(StaticFault),
    /// There was no memory.
    NoMemory,
}
