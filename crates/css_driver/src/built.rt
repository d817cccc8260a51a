//! How much of the program there is.
use css_words::{Built, Command, OptionName};

/// The commands and options that wait for nobody and that the program has so far. Words that ask for another are refused.
pub const PLAIN_BUILT: Built<'static> = Built {
    commands: &[Command::Check, Command::Erased],
    options: &[OptionName::Memory, OptionName::MainUnits],
};

/// All commands and options that the program has so far.
pub const BUILT: Built<'static> = Built {
    commands: &[Command::Check, Command::Erased, Command::Run],
    options: &[
        OptionName::Memory,
        OptionName::MainUnits,
        OptionName::TaskUnits,
        OptionName::LocalStore,
    ],
};
