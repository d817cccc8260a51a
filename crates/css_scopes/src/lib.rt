//! What names mean at a place of a text: scopes, places of names, and the library's functions.
#![tactic(auto)]

mod firsts;
mod laws;
mod library;
mod meaning;
mod name_set;
mod places;
mod scope;

pub use firsts::Firsts;
pub use laws::{blocks_close, scopes_are_of_types};
pub use library::{Library, library_of};
pub use meaning::{Meaning, Where};
pub use name_set::NameSet;
pub use places::Places;
pub use scope::Scope;
