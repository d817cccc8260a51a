//! Names of functions.
ghost use Rattle.std.specs.Prelude.{◌≡◌, IsTrue};
ghost use Rattle.std.specs.List.{list_all};
ghost use Rattle.css_isa.specs.Names.{is_letter, is_digit, is_word_byte, is_identifier};

use std::marker::Model;

/// A function's name. Contracts see its bytes, which spell an identifier (C99 6.4.2.1).
#[derive(Drop)]
pub struct Name {
    bytes: Vec<u8>,
}

impl Model for Name {
    ghost use Rattle.std.specs.Prelude.{ℕ, List, IsTrue};
    ghost use Rattle.css_isa.specs.Names.{is_identifier};

    ghost Value = { List ℕ };

    ghost view = { λ n. n.bytes.items };

    ghost invariant = { λ n. IsTrue (is_identifier n.bytes.items) };
}

impl Name {
    /// The name of these bytes, which spell an identifier. Takes no memory.
    pub fn new(bytes: Vec<u8>) -> Name
        requires { IsTrue (is_identifier bytes.items) }
        ensures { result ≡ bytes.items }
    {
        Name { bytes }
    }

    /// Lends the bytes.
    pub fn as_slice(&self) -> &[u8]
        ensures bytes { result.now ≡ self.now }
        ensures identifier { IsTrue (is_identifier self.now) }
    {
        self.bytes.as_slice()
    }
}

/// Whether a byte is a letter or an underscore.
fn is_letter(byte: u8) -> bool
    ensures { result ≡ is_letter byte }
{
    (b'a' <= byte && byte <= b'z') || (b'A' <= byte && byte <= b'Z') || byte == b'_'
}

/// Whether a byte is a decimal digit.
fn is_digit(byte: u8) -> bool
    ensures { result ≡ is_digit byte }
{
    b'0' <= byte && byte <= b'9'
}

/// Whether all of some bytes are letters, underscores and digits.
fn are_word_bytes(bytes: &[u8]) -> bool
    ensures { result ≡ list_all is_word_byte bytes.now }
{
    bytes.iter().all(|b| is_letter(*b) || is_digit(*b))
}

/// Whether bytes spell an identifier: letters, underscores and digits, of which the first isn't a digit (C99 6.4.2.1).
pub fn is_name(bytes: &[u8]) -> bool
    ensures { result ≡ is_identifier bytes.now }
{
    !bytes.is_empty() && is_letter(bytes[0]) && are_word_bytes(bytes)
}
