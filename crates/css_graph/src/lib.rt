//! The dependence graph, and the bundles of tasks that workers take from it.
#![tactic(auto)]

mod agenda;
mod chain;
mod chosen;
mod consumers;
mod graph;
mod node;
mod nodes;
mod queue;
mod state;

pub use chosen::Chosen;
pub use graph::Graph;
pub use state::TaskState;
