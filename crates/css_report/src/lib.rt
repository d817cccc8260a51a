//! The texts of reports: images, calls and their graph, endings, and static rules.
#![tactic(auto)]

mod calls;
mod counts;
mod depth;
mod ending;
mod graph;
mod image;
mod laws;
mod stats;

pub use calls::CallList;
pub use ending::{ending_line, static_line};
pub use graph::graph_text;
pub use image::{ImageFacts, image_facts, image_line};
pub use laws::{calls_have_stats, one_stats_line};
pub use stats::stats_line;
