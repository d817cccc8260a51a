//! Laws of the grammar.
ghost use Rattle.std.specs.Prelude.{◌≡◌, List, ◌∷◌, ◌++◌, ◌≤◌};
ghost use Rattle.css_base.specs.Tokens.{Lexeme};
ghost use Rattle.css_base.specs.declared.static_fault.StaticFault.{StaticFault};
ghost use Rattle.css_tree.specs.Syntax.{Item, Tree};
ghost use Rattle.css_tree.specs.Brackets.{IsBalanced};
ghost use Rattle.css_tree.specs.Items.{SpellsItem, SpellsProgram};
ghost use Rattle.css_tree.specs.Heights.{height_of_item};
ghost use Rattle.css_parse.specs.Refusals.{Spells, IsRefused, IsAccepted};

/// Tokens spell at most one tree.
pub fn one_tree()
    ensures { (tokens : List Lexeme) (t u : Tree) → Spells tokens t → Spells tokens u → t ≡ u }
{}

/// Items aren't fronts of one another.
pub fn items_end_by_themselves()
    ensures { (some others behind rest : List Lexeme) (i j : Item) → SpellsItem some i → SpellsItem others j
        → height_of_item i ≤ 500 → height_of_item j ≤ 500 → some ++ behind ≡ others ++ rest → (some ≡ others) × (i ≡ j) }
{}

/// Behind a front that spells a tree there is a token, where not all the tokens spell one.
pub fn token_behind()
    ensures { (tokens front rest : List Lexeme) (tree : Tree) → tokens ≡ front ++ rest → Spells front tree
        → ((other : Tree) → Spells tokens other → ⊥) → (token : Lexeme) × (others : List Lexeme) × (rest ≡ token ∷ others) }
{}

/// Tokens are refused by one rule, with one line.
pub fn one_refusal()
    ensures { (tokens : List Lexeme) (f g : StaticFault) → IsRefused tokens f → IsRefused tokens g → f ≡ g }
{}

/// Tokens that are accepted aren't refused.
pub fn never_both()
    ensures { (tokens : List Lexeme) (tree : Tree) (f : StaticFault) → IsAccepted tokens tree → IsRefused tokens f → ⊥ }
{}

/// No tokens are neither accepted nor refused.
pub fn never_neither()
    ensures { (tokens : List Lexeme) → ((tree : Tree) → IsAccepted tokens tree → ⊥) → ((f : StaticFault) → IsRefused tokens f → ⊥) → ⊥ }
{}

/// A spelled program leaves no bracket open, and closes none that was open before it.
pub fn balanced_brackets()
    ensures { (tokens : List Lexeme) (tree : Tree) → SpellsProgram tokens tree → IsBalanced tokens }
{
    css_pexpr::balanced_brackets();
}
