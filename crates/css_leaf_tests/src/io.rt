//! Tests of what no clause says: that calls succeed, and what becomes of the real thing.

mod shelves;
mod sinks;
mod sources;
