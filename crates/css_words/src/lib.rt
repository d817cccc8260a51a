//! The words of the command line, read as a request.
#![tactic(auto)]

mod allowed;
mod built;
mod command;
mod fault;
mod file_name;
pub mod laws;
mod number;
mod options;
mod part;
mod reading;
mod request;
mod said;
mod table;

pub use built::Built;
pub use command::Command;
pub use fault::WordsFault;
pub use file_name::FileName;
pub use options::OptionName;
pub use reading::read_words;
pub use request::Request;
pub use table::{OptionKind, OptionRow, row};
