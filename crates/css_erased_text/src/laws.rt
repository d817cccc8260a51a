//! Laws of texts without their directives. Each is what the contract of an empty function says.
ghost use Rattle.std.specs.Prelude.{◌≡◌, ℕ, List};
ghost use Rattle.css_base.specs.Tokens.{Lexeme};
ghost use Rattle.css_lexemes.specs.Lines.{erased, newlines};
ghost use Rattle.css_lex.specs.Lexing.{SpellsTokens};
ghost use Rattle.css_lex.specs.WithoutDirectives.{HasPartedStrings, SpellsTheOthers};

/// A text without its directives has as many newlines as the text.
pub fn erasing_keeps_newlines()
    ensures { (text : List ℕ) → newlines (erased text) ≡ newlines text }
{}

/// To take the directives out twice is to take them out once.
pub fn erasing_twice_is_once()
    ensures { (text : List ℕ) → erased (erased text) ≡ erased text }
{}

/// Where a text is lexed and no two of its strings are parted by directives alone, the text without its directives is
/// lexed too: its tokens have the kinds and lines of the text's tokens that aren't directives.
pub fn erasing_takes_directives_alone()
    ensures { (text : List ℕ) (tokens : List Lexeme) → SpellsTokens text tokens → (HasPartedStrings tokens → ⊥) → SpellsTheOthers text tokens }
{}
