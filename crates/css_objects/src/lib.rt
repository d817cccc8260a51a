//! The table of pending objects: which windows tasks may still read or write, with the current version of each.
#![tactic(auto)]

mod laws;
mod naming;
mod ordered;
mod part;
mod pending;
mod search;
mod steps;
mod table;
mod version;

pub use laws::{
    accesses_are_judged_by_tables, calls_are_judged_by_tables, probes_read_ten_of_a_thousand,
    tables_follow_tapes, tables_have_the_pending_objects, versions_are_as_long_as_their_windows,
};
pub use naming::Named;
pub use ordered::{Found, Ordered};
pub use pending::{Pending, Probe, Version};
pub use steps::Steps;
pub use table::ObjectTable;
pub use version::Held;
