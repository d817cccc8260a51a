//! Lines of a program's text.
ghost use Rattle.std.specs.Prelude.{◌≡◌, ◌≤◌, ◌<◌, ◌^◌, ◌↔◌, IsTrue};

use std::marker::Model;

/// A line of the program's text, counted from 1. Contracts see its number.
#[derive(Clone, Copy, PartialEq, Eq, PartialOrd, Ord, Debug)]
pub struct Line {
    number: u32,
}

impl Model for Line {
    ghost use Rattle.std.specs.Prelude.{ℕ, ◌≤◌};

    ghost Value = { ℕ };

    ghost view = { λ l. l.number };

    ghost invariant = { λ l. 1 ≤ l.number };

    ghost inverse = { λ n. record { number = n } };
}

impl Line {
    /// The line of this number, from 1 on.
    pub fn new(number: u32) -> Line
        requires { 1 ≤ number }
        ensures { result ≡ number }
    {
        Line { number }
    }

    /// The line's number, from 1 to 2^32 - 1.
    pub fn number(&self) -> u32
        ensures value { result ≡ self.now }
        ensures positive { 1 ≤ result }
    {
        self.number
    }
}
