//! Tests of the instructions, over the public calls.
#![tactic(auto)]

#[cfg(test)]
mod checks;
#[cfg(test)]
mod effects;
#[cfg(test)]
mod listings;
