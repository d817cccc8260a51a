//! Laws of the definitions. Each is what the contract of an empty function says.
ghost use Rattle.std.specs.Prelude.{◌≡◌, ◌⊎◌, ℕ, List};
ghost use Rattle.css_base.specs.Tokens.{Lexeme};
ghost use Rattle.css_base.specs.declared.static_fault.StaticFault.{StaticFault};
ghost use Rattle.css_lex.specs.Lexing.{SpellsTokens, IsRefused};

/// A text spells its tokens in one way only, is refused with one fault only, and isn't both lexed and refused.
pub fn one_lexing()
    ensures tokens { (text : List ℕ) (these those : List Lexeme) → SpellsTokens text these → SpellsTokens text those → these ≡ those }
    ensures faults { (text : List ℕ) (this that : StaticFault) → IsRefused text this → IsRefused text that → this ≡ that }
    ensures apart { (text : List ℕ) (tokens : List Lexeme) (fault : StaticFault) → SpellsTokens text tokens → IsRefused text fault → ⊥ }
{}

/// Each text has tokens or a refusal.
pub fn lexed_or_refused()
    ensures { (text : List ℕ) → ((tokens : List Lexeme) × SpellsTokens text tokens) ⊎ ((fault : StaticFault) × IsRefused text fault) }
{}
