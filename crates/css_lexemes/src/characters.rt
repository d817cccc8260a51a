//! The classes of a text's bytes.
ghost use Rattle.std.specs.Prelude.{◌≡◌, ◌||◌};
ghost use Rattle.css_lexemes.specs.LineKinds.{is_blank, is_digit, is_nondigit};
ghost use Rattle.css_lexemes.specs.Comments.{is_quote};

/// Whether a byte is white space: 9 to 13 and space.
pub(crate) fn is_white(byte: u8) -> bool
    ensures { result ≡ is_blank byte }
{
    (9 <= byte && byte <= 13) || byte == b' '
}

/// Whether a byte is a decimal digit (C99 6.4.2.1).
pub(crate) fn is_decimal(byte: u8) -> bool
    ensures { result ≡ is_digit byte }
{
    b'0' <= byte && byte <= b'9'
}

/// Whether a byte is a letter or an underscore (C99 6.4.2.1).
pub(crate) fn is_letter(byte: u8) -> bool
    ensures { result ≡ is_nondigit byte }
{
    (b'A' <= byte && byte <= b'Z') || (b'a' <= byte && byte <= b'z') || byte == b'_'
}

/// Whether a byte may stand in an identifier behind its first one (C99 6.4.2.1).
pub(crate) fn is_word_byte(byte: u8) -> bool
    ensures { result ≡ (is_nondigit byte || is_digit byte) }
{
    is_letter(byte) || is_decimal(byte)
}

/// Whether a byte is a quote of a character constant or of a string.
pub(crate) fn is_quotation_mark(byte: u8) -> bool
    ensures { result ≡ is_quote byte }
{
    byte == b'\'' || byte == b'"'
}
