//! Laws of the answer.
ghost use Rattle.std.specs.Prelude.{◌≡◌, ◌≤◌, ℕ, List, length};
ghost use Rattle.css_lex.specs.Lexing.{longest_text};
ghost use Rattle.css_lexemes.specs.Lines.{erased};
ghost use Rattle.css_small.specs.Tree.{Program};
ghost use Rattle.css_small.specs.Texts.{Spells};
ghost use Rattle.css_words.specs.declared.command.Command.TheVariants.{Check, Erased, Run};
ghost use Rattle.css_words.specs.declared.request.Request.{Request};
ghost use Rattle.css_driver.specs.Answer.{Answer, IsAnswer, IsTextAnswer};
ghost use Rattle.css_driver.specs.Request.{Offer, whole, Asks, IsServed};

use css_small::{never_neither, numbers_fit, one_reading};
use css_small_code::{enough_fuel, more_fuel, one_verdict, program_has_verdict};

/// A request and a text have at most one answer: one status, and the bytes of output and report.
pub fn one_text_answer()
    ensures { (request : Request) (text : List ℕ) (a b : Answer) → IsTextAnswer request text a → IsTextAnswer request text b → a ≡ b }
{
    one_reading();
    more_fuel();
    one_verdict();
}

/// Words and a text have at most one answer, whatever is offered.
pub fn one_answer()
    ensures { (offer : Offer) (words : List (List ℕ)) (text : List ℕ) (a b : Answer)
        → IsAnswer offer words text a → IsAnswer offer words text b → a ≡ b }
{
    one_text_answer();
}

/// A text that spells a program has an answer to each command, whatever the program's run may use: for `erased` the text without its
/// directives, where the text isn't too long.
pub fn programs_have_answers()
    ensures check { (request : Request) (text : List ℕ) (p : Program) → request.command ≡ Check → Spells text p
        → (a : Answer) × IsTextAnswer request text a }
    ensures erased { (request : Request) (text : List ℕ) (p : Program) → request.command ≡ Erased → length text ≤ longest_text
        → Spells (erased text) p → (a : Answer) × IsTextAnswer request text a }
    ensures run { (request : Request) (text : List ℕ) (p : Program) → request.command ≡ Run → Spells text p
        → (a : Answer) × IsTextAnswer request text a }
{
    numbers_fit();
    enough_fuel();
    program_has_verdict();
}

/// No request for a command that the program serves is without an answer, whatever the text; so no words that ask for something are.
pub fn never_unanswered()
    ensures served { (request : Request) (text : List ℕ) → IsServed request.command → ((a : Answer) → IsTextAnswer request text a → ⊥) → ⊥ }
    ensures asked { (words : List (List ℕ)) (request : Request) (text : List ℕ) → Asks whole words request
        → ((a : Answer) → IsAnswer whole words text a → ⊥) → ⊥ }
{
    never_neither();
    programs_have_answers();
}
