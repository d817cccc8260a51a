//! Tests of the table of pending objects, over its public calls.
#![tactic(auto)]

#[cfg(test)]
mod objects;
#[cfg(test)]
mod rules;
