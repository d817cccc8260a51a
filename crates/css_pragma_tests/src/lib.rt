//! Tests of the reader of directives, over texts. What is wanted comes from the grammar of directives and from the rules S14
//! and S23.
#![tactic(auto)]

#[cfg(test)]
mod accepted;
#[cfg(test)]
mod limits;
#[cfg(test)]
mod refused;
#[cfg(test)]
mod texts;
#[cfg(test)]
mod written;
