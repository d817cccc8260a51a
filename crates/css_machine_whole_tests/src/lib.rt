//! Tests of the machine over all instructions.
#![tactic(auto)]

#[cfg(test)]
mod codes;
#[cfg(test)]
mod ram;
#[cfg(test)]
mod runs;
#[cfg(test)]
mod told;
