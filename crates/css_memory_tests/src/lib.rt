//! Tests of main's memory: its parts, accesses at their edges, windows in rows, and pages.
#![tactic(auto)]

#[cfg(test)]
mod accesses;
#[cfg(test)]
mod codes;
#[cfg(test)]
mod windows;
