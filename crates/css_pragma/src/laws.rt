//! Laws of directives.
ghost use Rattle.std.specs.Prelude.{◌≡◌, ℕ, List};
ghost use Rattle.css_base.specs.Tokens.{Lexeme};
ghost use Rattle.css_base.specs.declared.static_fault.StaticFault.{StaticFault};
ghost use Rattle.css_tree.specs.Syntax.{Directive};
ghost use Rattle.css_pragma.specs.declared.place.Place.{Place};
ghost use Rattle.css_pragma.specs.Directives.{SpellsDirective};
ghost use Rattle.css_pragma.specs.Refusals.{IsAccepted, IsRefused};

/// In a place and a line words spell at most one directive.
pub fn one_directive()
    ensures { (place : Place) (line : ℕ) (words : List Lexeme) (d e : Directive)
        → SpellsDirective place line words d → SpellsDirective place line words e → d ≡ e }
{}

/// Words are refused by one rule.
pub fn one_refusal()
    ensures { (place : Place) (line : ℕ) (words : List Lexeme) (f g : StaticFault)
        → IsRefused place line words f → IsRefused place line words g → f ≡ g }
{}

/// Words that are accepted aren't refused.
pub fn never_both()
    ensures { (place : Place) (line : ℕ) (words : List Lexeme) (d : Directive) (f : StaticFault)
        → IsAccepted place line words d → IsRefused place line words f → ⊥ }
{}
