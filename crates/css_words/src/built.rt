//! How much of the program there is.
use crate::command::Command;
use crate::options::OptionName;

/// The commands and options that the program has so far. The words of any other are refused.
#[derive(Clone, Copy)]
pub struct Built<'a> {
    /// Its commands.
    pub commands: &'a [Command],
    /// Its options.
    pub options: &'a [OptionName],
}
