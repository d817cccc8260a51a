//! Laws between tokens and those of them that aren't directives. Each is what the contract of an empty function says.
ghost use Rattle.std.specs.Prelude.{◌≡◌, ℕ, List};
ghost use Rattle.css_base.specs.Tokens.{Lexeme};
ghost use Rattle.css_lex.specs.Lexing.{SpellsTokens};
ghost use Rattle.css_lexemes.specs.Lines.{erased};
ghost use Rattle.css_lex.specs.WithoutDirectives.{kinds_and_lines, without_directives, HasPartedStrings};
ghost use Rattle.css_tree.specs.Syntax.{Tree};
ghost use Rattle.css_tree.specs.Items.{SpellsProgram};
ghost use Rattle.css_tree.specs.Marks.{unmarked};
ghost use Rattle.css_parse.specs.Refusals.{IsAccepted};

use css_erased_text::erasing_takes_directives_alone;

/// Where tokens are accepted with a tree, those of them that aren't directives are accepted with the tree without its marks.
pub fn others_spell_the_unmarked()
    ensures { (tokens others : List Lexeme) (tree : Tree) → IsAccepted tokens tree
        → kinds_and_lines others ≡ kinds_and_lines (without_directives tokens) → IsAccepted others (unmarked tree) }
{}

/// In a spelled program no two strings stand one behind another, also with directives between them.
pub fn no_parted_strings()
    ensures { (tokens : List Lexeme) (tree : Tree) → SpellsProgram tokens tree → HasPartedStrings tokens → ⊥ }
{}

/// Where a text's tokens are accepted with a tree, those of the text without its directives are accepted with the tree without its
/// marks.
pub fn erased_texts_are_accepted()
    ensures { (text : List ℕ) (tokens : List Lexeme) (tree : Tree) → SpellsTokens text tokens → IsAccepted tokens tree
        → (others : List Lexeme) × SpellsTokens (erased text) others × IsAccepted others (unmarked tree) }
{
    erasing_takes_directives_alone();
    no_parted_strings();
    others_spell_the_unmarked();
}
