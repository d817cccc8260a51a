//! The listing of a program's code: its one spelling, and its reader.
#![tactic(auto)]

mod draft;
mod fault;
mod kind;
mod laws;
mod line;
mod listing_line;
mod numbers;
mod ops;
mod parts;
mod reading;
mod tables;
mod writing;

pub use fault::ListingFault;
pub use laws::one_code;
pub use listing_line::ListingLine;
pub use reading::read_listing;
pub use writing::listing;
