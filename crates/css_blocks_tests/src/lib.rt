//! Tests of structured code, over the public calls.
#![tactic(auto)]

#[cfg(test)]
mod checks;
#[cfg(test)]
mod listing;
