//! The words of a command line.
ghost use Rattle.std.specs.Prelude.{◌≡◌, map, length, string_bytes, slice_get, option_map};

use std::marker::Model;

/// The words that the program was called with, word 0 included. Contracts see the list of their texts.
#[derive(Drop)]
pub struct Words {
    words: Vec<String>,
}

impl Model for Words {
    ghost use Rattle.std.specs.Prelude.{ℕ, List, map, string_bytes};

    ghost Value = { List (List ℕ) };

    ghost view = { λ w. map string_bytes w.words.items };
}

impl Words {
    /// These words. Takes no memory.
    pub fn new(words: Vec<String>) -> Words
        ensures { result ≡ map string_bytes words.items }
    {
        Words { words }
    }

    /// Lends the words in order.
    pub fn as_slice(&self) -> &[String]
        ensures { map string_bytes result.now ≡ self.now }
    {
        self.words.as_slice()
    }
}
