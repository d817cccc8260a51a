//! Tests of the machine, of main's memory, and of main's memory under the rules.
#![tactic(auto)]

#[cfg(test)]
mod judged;
#[cfg(test)]
mod machine;
