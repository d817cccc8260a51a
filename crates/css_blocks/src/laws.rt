//! Laws of pieces. Each is what the contract of an empty function says.
ghost use Rattle.std.specs.Prelude.{◌≡◌, ◌++◌, ℕ, List, length, reverse, ◌≢◌, Some, slice_get};
ghost use Rattle.css_isa.specs.Code.{Code};
ghost use Rattle.css_isa.specs.Soundness.{Plan, IsSoundBody, IsSound};
ghost use Rattle.css_blocks.specs.Layout.{Function, Program, routine_of, code_of};
ghost use Rattle.css_blocks.specs.Finds.{AreFound, Fit, IsWhole};
ghost use Rattle.css_blocks.specs.Correct.{Behaves};
ghost use Rattle.css_semantics.specs.Fronts.{Grows};
ghost use Rattle.css_isa.specs.Steps.{Begin, Stuck};
ghost use Rattle.css_isa.specs.Machine.{exec};
ghost use Rattle.css_semantics.specs.Dialogue.{World, Tape, Mode, Goes, then_do};
ghost use Rattle.css_blocks.specs.Pieces.{Invoke, Submit};
ghost use Rattle.css_blocks.specs.Meaning.{Calls, given, means};
ghost use Rattle.css_blocks.specs.Programs.{run_of};

/// The code of a program of pieces has its dialogue, in every world, where each function's piece finds what it needs.
pub fn code_has_the_dialogue()
    ensures { (p : Program) → Fit p → Behaves p (code_of p) }
{}

/// The code of a whole program of pieces is sound.
pub fn code_is_sound()
    ensures { (p : Program) → IsWhole p → (plans : List Plan) × IsSound (code_of p) plans }
{}

/// Each function's body is sound where it finds what it needs.
pub fn bodies_are_sound()
    ensures { (code : Code) (f : Function) → AreFound code f.body → (plan : Plan) × IsSoundBody code (routine_of f) plan }
{}

/// The dialogue of pieces only adds to the tape.
pub fn tapes_of_pieces_grow()
    ensures { (p : Program) → Fit p → (w : World) (k : ℕ) (arguments : List ℕ) (line : ℕ) (tape : Tape) (n : ℕ) → Grows tape (run_of w p k arguments line tape n) }
{}

/// A call finds its arguments, which lie on the stack with the last on top, and gives a cell in their place.
pub fn calls_find_their_arguments()
    ensures { (w : World) (calls : Calls) (n base line f : ℕ) (mode : Mode) (arguments stack : List ℕ) (tape : Tape)
        → means w calls n base (Invoke line f (length arguments)) mode (reverse arguments ++ stack) tape ≡ then_do (calls.call f arguments line tape) (given mode stack) }
{}

/// A task's call finds its dimensions above its arguments.
pub fn tasks_calls_find_their_dimensions()
    ensures { (w : World) (calls : Calls) (n base line f : ℕ) (mode : Mode) (arguments dimensions stack : List ℕ) (tape : Tape)
        → means w calls n base (Submit line f (length arguments) (length dimensions)) mode (reverse dimensions ++ (reverse arguments ++ stack)) tape
        ≡ then_do (calls.submit f arguments dimensions base line tape) (given mode stack) }
{}

/// The code of a whole program of pieces is never stuck, in any world.
pub fn code_is_never_stuck()
    ensures { (p : Program) → IsWhole p → (w : World) (k : ℕ) (f : Function) → slice_get p.functions k ≡ Some f → (arguments : List ℕ) → length arguments ≡ length f.parameters
        → (line : ℕ) (tape after : Tape) (n : ℕ) → exec w (code_of p) n (Begin k arguments line) tape ≢ Goes Stuck after }
{}

/// So its pieces never are.
pub fn pieces_are_never_stuck()
    ensures { (p : Program) → IsWhole p → (w : World) (k : ℕ) (f : Function) → slice_get p.functions k ≡ Some f → (arguments : List ℕ) → length arguments ≡ length f.parameters
        → (line : ℕ) (tape after : Tape) (n : ℕ) → run_of w p k arguments line tape n ≢ Goes Stuck after }
{}
