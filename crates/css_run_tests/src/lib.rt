//! Tests of a task by itself, of the yard in order, of main's run over it, and of the program where what it reads or writes fails.
#![tactic(auto)]

#[cfg(test)]
mod codes;
#[cfg(test)]
mod driver;
#[cfg(test)]
mod main_side;
#[cfg(test)]
mod task;
#[cfg(test)]
mod yard;
