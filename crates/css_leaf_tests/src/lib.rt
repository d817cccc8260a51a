//! Tests of the crates at the bottom, over their public calls.
#![tactic(auto)]

#[cfg(test)]
mod base;
#[cfg(test)]
mod checks;
#[cfg(test)]
mod graph;
#[cfg(test)]
mod io;
#[cfg(test)]
mod make;
#[cfg(test)]
mod num;
#[cfg(test)]
mod place;
#[cfg(test)]
mod record;
#[cfg(test)]
mod report;
#[cfg(test)]
mod traces;
#[cfg(test)]
mod words;
