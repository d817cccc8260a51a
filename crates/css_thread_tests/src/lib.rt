//! Tests of the lock whose passes know what they have seen, and of groups of transfers and their channel.
#![tactic(auto)]

#[cfg(test)]
mod checks;
#[cfg(test)]
mod seen;
#[cfg(test)]
mod tags;
