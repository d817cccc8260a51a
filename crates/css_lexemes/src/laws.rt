//! Laws of the definitions. Each is what the contract of an empty function says.
ghost use Rattle.std.specs.Prelude.{◌≡◌, List};
ghost use Rattle.css_lexemes.specs.declared.source.SourceByte.{SourceByte};
ghost use Rattle.css_lexemes.specs.Lexemes.{ConsistsOf, Piece};
ghost use Rattle.css_lexemes.specs.Longest.{pieces_of};

/// Each line consists of pieces.
pub fn lines_have_pieces()
    ensures { (line : List SourceByte) → ConsistsOf line (pieces_of line) }
{}

/// A line consists of pieces in one way only.
pub fn pieces_are_unique()
    ensures { (line : List SourceByte) (these those : List Piece) → ConsistsOf line these → ConsistsOf line those → these ≡ those }
{}
