//! Laws of the code of expressions. Each is what the contract of an empty function says.
ghost use Rattle.std.specs.Prelude.{◌≡◌, ℕ, ℤ, Bool, List, map, All};
ghost use Rattle.css_base.specs.declared.int_type.IntType.{IntType};
ghost use Rattle.css_semantics.specs.Dialogue.{World};
ghost use Rattle.css_semantics.specs.Memory.{big_endian_bytes};
ghost use Rattle.css_core.specs.Core.{Function};
ghost use Rattle.css_core.specs.Typed.{signature, IsTypedFunction};
ghost use Rattle.css_core.specs.Expressions as core;
ghost use Rattle.css_core.specs.Expressions.{Calling};
ghost use Rattle.css_isa.specs.Cells.{cell_of, address_of};
ghost use Rattle.css_blocks.specs.Meaning.{Calls};
ghost use Rattle.css_gen_expr.specs.Calls.{width_of, Agrees};
ghost use Rattle.css_gen_expr.specs.Meaning.{GivesInRange, MeanTheirPieces};
ghost use Rattle.css_isa.specs.Code.{Code};
ghost use Rattle.css_gen_expr.specs.Standing.{HasFunctions, FindTheirCells};
ghost use Rattle.css_gen_expr.specs.Inner.{AreInner, CallsNoTasks};
ghost use Rattle.css_gen_expr.specs.Worked.{sets, sets_code, steps, steps_code, element, element_code, sum, sum_code, condition, condition_code};

/// In every world, where calls of pieces agree with those of the core language, the code of an expression means the expression, whatever
/// stands below it on the stack and whatever comes behind: it gives the value's cell, drops the value, decides between pieces, or leads
/// out of a loop.
pub fn expressions_mean_their_pieces()
    ensures { (w : World) (fs : List Function) (call : Calling) (calls : Calls) (n base : ℕ) → GivesInRange (map signature fs) call → Agrees w fs call calls → All (IsTypedFunction (map signature fs)) fs → MeanTheirPieces w fs call calls n base }
{}

/// A value's cell has its bytes, and is an address where the value is one.
pub fn cells_have_the_bytes_of_values()
    ensures bytes { (t : IntType) (v : ℤ) → big_endian_bytes (width_of t) (cell_of v) ≡ core.bytes_of t v }
    ensures address { (v : ℤ) → address_of (cell_of v) ≡ core.address_of v }
{}

/// In code that has the functions, the code of an expression finds its cells and functions, and leaves one cell more, or as many as there
/// were; its ways meet at one level.
pub fn expressions_find_their_cells()
    ensures { (target : Code) (fs : List Function) → HasFunctions target fs → All (IsTypedFunction (map signature fs)) fs → FindTheirCells target fs }
{}

/// The code of an expression that asks for no input, no output and no heap, and calls only some functions, none of them a task, makes no
/// events and calls only these.
pub fn inner_expressions_make_no_events()
    ensures { (target : Code) (may_call : ℕ → Bool) (fs : List Function) → CallsNoTasks fs may_call → AreInner target may_call fs }
{}

/// Worked code: `i = n + 1;`, `i++;`, `p[i]`, `i + n`, and `i < n && !(i >= 9)` in front of a loop.
pub fn expressions_have_this_code()
    ensures sets { sets ≡ sets_code }
    ensures steps { steps ≡ steps_code }
    ensures element { element ≡ element_code }
    ensures sum { sum ≡ sum_code }
    ensures condition { condition ≡ condition_code }
{}
