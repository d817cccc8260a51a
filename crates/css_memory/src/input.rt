//! What a program reads.
ghost use Rattle.std.specs.Prelude.{◌≡◌};
ghost use Rattle.css_semantics.specs.Dialogue.{In};
ghost use Rattle.css_semantics.specs.Flat.{next_byte, input_after};

use std::marker::Model;

/// The bytes of an input that are left. Contracts see their list. Beside main's memory it is the other part of the flat world's state.
#[derive(Drop)]
pub struct Input<'a> {
    rest: &'a [u8],
}

impl<'a> Model for Input<'a> {
    ghost use Rattle.std.specs.Prelude.{ℕ, List};

    ghost Value = { List ℕ };

    ghost view = { λ i. i.rest.now };
}

impl<'a> Input<'a> {
    /// All of these bytes are left.
    pub fn new(bytes: &'a [u8]) -> Input<'a>
        ensures { result ≡ bytes.now }
    {
        Input { rest: bytes }
    }

    /// Takes the next byte; at the end 2^64 - 1, which stands for -1.
    pub fn read_byte(&mut self) -> u64
        ensures says { result ≡ next_byte self.old }
        ensures learns { self.new ≡ input_after self.old In }
    {
        match self.rest.split_first() {
            Some((byte, rest)) => {
                self.rest = rest;
                u64::from(*byte)
            }
            None => u64::MAX,
        }
    }
}
