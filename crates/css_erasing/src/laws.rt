//! Laws between a program under the rules and the program without its directives. Each is what the contract of an empty function says.
ghost use Rattle.std.specs.Prelude.{◌≡◌, ◌≤◌, ◌++◌, ℕ, false, Some, List, All, map};
ghost use Rattle.css_base.specs.declared.limits.Limits.{Limits};
ghost use Rattle.css_lexemes.specs.Lines.{erased};
ghost use Rattle.css_semantics.specs.Dialogue.{Tape, Stops, Tired, tape_of, output};
ghost use Rattle.css_semantics.specs.Memory.{Memory, memory_after};
ghost use Rattle.css_semantics.specs.Flat.{FlatState, flat};
ghost use Rattle.css_semantics.specs.Verdict.{Verdict, verdict, judged_in};
ghost use Rattle.css_small.specs.Tree.{Program};
ghost use Rattle.css_small.specs.Numbers.{HasNumbers};
ghost use Rattle.css_small.specs.Texts.{Spells};
ghost use Rattle.css_small_code.specs.Meaning.{source};
ghost use Rattle.css_small_code.specs.Marks.{HasNoDirectives};
ghost use Rattle.css_erasing.specs.Unmarked.{unmarked};
ghost use Rattle.css_semantics.specs.Plain.{plain, entries};
ghost use Rattle.css_semantics.specs.Erased.{IsPassed, IsErased, Answers};
ghost use Rattle.css_semantics.specs.Points.{Point, points, erased_image};

use css_erased_text::erasing_twice_is_once;
use css_small::one_reading;
use css_unmarking::erased_texts_are_accepted;

/// A program's dialogue under the rules is, up to the first fault or rule, that of the program without its directives in a flat memory
/// with units enough, but for what it says of tasks.
pub fn erasing_keeps_the_dialogue()
    ensures { (limits : Limits) (start : FlatState) (fuel n : ℕ) (p : Program) → entries (tape_of (source (judged_in limits start) fuel p)) ≤ n → IsErased (source (judged_in limits start) fuel p) (source (flat start n) fuel (unmarked p)) }
{}

/// The verdict's output and ending are those of the program without its directives, up to the first fault or rule. Any fuel that gives
/// the verdict is enough for that program too, and so is any that ends it.
pub fn verdict_is_the_erased_programs()
    ensures by_as_much { (limits : Limits) (start : FlatState) (fuel enough n : ℕ) (p : Program) (v : Verdict) → verdict start.memory (source (judged_in limits start) fuel p) ≡ Some v → entries (tape_of (source (judged_in limits start) fuel p)) ≤ n → fuel ≤ enough → Answers v.ending v.output (source (flat start n) enough (unmarked p)) }
    ensures by_any { (limits : Limits) (start : FlatState) (fuel other n : ℕ) (p : Program) (v : Verdict) → verdict start.memory (source (judged_in limits start) fuel p) ≡ Some v → entries (tape_of (source (judged_in limits start) fuel p)) ≤ n → ((tape : Tape) → source (flat start n) other (unmarked p) ≡ Stops Tired tape → ⊥) → Answers v.ending v.output (source (flat start n) other (unmarked p)) }
{}

/// Each point of the program's dialogue is one of the erased program's, with the same memory and the same output behind it. The images
/// of a verdict are taken at such points, in order: the k-th is of the erased program's memory at the k-th, of all its live bytes or of
/// the window that is pending there.
pub fn points_are_the_erased_programs()
    ensures passed { (limits : Limits) (start : FlatState) (fuel enough n : ℕ) (p : Program) (newer tape : Tape) → tape_of (source (judged_in limits start) fuel p) ≡ newer ++ tape → entries (tape_of (source (judged_in limits start) fuel p)) ≤ n → fuel ≤ enough → IsPassed tape (tape_of (source (flat start n) enough (unmarked p))) }
    ensures memory { (start : Memory) (tape : Tape) → memory_after start (plain tape) ≡ memory_after start tape }
    ensures written { (tape : Tape) → output (plain tape) ≡ output tape }
    ensures images { (limits : Limits) (start : FlatState) (fuel : ℕ) (p : Program) (v : Verdict) → verdict start.memory (source (judged_in limits start) fuel p) ≡ Some v → v.images ≡ map (erased_image start.memory) (points (tape_of (source (judged_in limits start) fuel p))) }
    ensures points { (limits : Limits) (start : FlatState) (fuel enough n : ℕ) (p : Program) → entries (tape_of (source (judged_in limits start) fuel p)) ≤ n → fuel ≤ enough → All (λ (point : Point). IsPassed point.before (tape_of (source (flat start n) enough (unmarked p)))) (points (tape_of (source (judged_in limits start) fuel p))) }
{}

/// No directive stands in the program without its directives, and a program without directives is that already. Numbers stay
/// in their ranges.
pub fn unmarked_has_no_directives()
    ensures none_stands { (p : Program) → HasNoDirectives (unmarked p) }
    ensures others_stay { (p : Program) → HasNoDirectives p → p.main.is_task ≡ false → unmarked p ≡ p }
    ensures numbers_fit { (p : Program) → HasNumbers p → HasNumbers (unmarked p) }
{}

/// Where a text spells a program, the text without its directives spells the program without them.
pub fn erased_texts_spell_the_unmarked()
    ensures { (text : List ℕ) (p : Program) → Spells text p → Spells (erased text) (unmarked p) }
{
    erased_texts_are_accepted();
}

/// A text without its directives spells a program without directives.
pub fn erased_texts_have_no_directives()
    ensures { (text : List ℕ) (p : Program) → Spells (erased text) p → HasNoDirectives p }
{
    erasing_twice_is_once();
    one_reading();
    erased_texts_spell_the_unmarked();
    unmarked_has_no_directives();
}
