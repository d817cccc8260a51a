//! Laws of the code of whole programs. Each is what the contract of an empty function says.
ghost use Rattle.std.specs.Prelude.{◌≡◌, ◌≢◌, ℕ, List, length, Some, slice_get};
ghost use Rattle.css_semantics.specs.Dialogue.{World, Tape, Goes};
ghost use Rattle.css_core.specs.Core.{Function, Program};
ghost use Rattle.css_core.specs.Typed.{IsTypedProgram};
ghost use Rattle.css_core.specs.Confined.{IsConfined};
ghost use Rattle.css_isa.specs.Soundness.{Plan, IsSound};
ghost use Rattle.css_isa.specs.Steps.{Begin, Stuck};
ghost use Rattle.css_isa.specs.Machine.{exec};
ghost use Rattle.css_blocks.specs.Layout.{code_of};
ghost use Rattle.css_gen.specs.Functions.{program_of};
ghost use Rattle.css_gen.specs.Codes.{Codes};

/// The code of a typed program means the program, in every world, for main and for each function alone as a task's body, whatever names
/// its functions have.
pub fn code_means_the_program()
    ensures { (names : List (List ℕ)) (p : Program) → IsTypedProgram p → Codes p (code_of (program_of names p)) }
{}

/// The code of a typed program whose tasks reach neither input nor output, heap, task or directive is sound, and the machine over it is
/// never stuck, in any world.
pub fn confined_code_is_sound()
    ensures sound { (names : List (List ℕ)) (p : Program) → IsTypedProgram p → IsConfined p → (plans : List Plan) × IsSound (code_of (program_of names p)) plans }
    ensures moves { (names : List (List ℕ)) (p : Program) → IsTypedProgram p → IsConfined p → (w : World) (k : ℕ) (f : Function) → slice_get p.functions k ≡ Some f
        → (cells : List ℕ) → length cells ≡ length f.parameters → (line : ℕ) (tape after : Tape) (n : ℕ) → exec w (code_of (program_of names p)) n (Begin k cells line) tape ≢ Goes Stuck after }
{}
