//! Laws of the machine's runs. Each is what the contract of an empty function says.
ghost use Rattle.std.specs.Prelude.{◌≡◌, ◌≢◌, ◌≤◌, ◌+◌, ℕ, suc, Bool, IsTrue, List, length};
ghost use Rattle.css_semantics.specs.Dialogue.{World, Tape, Goes, tape_of, then_do};
ghost use Rattle.css_semantics.specs.Worlds.{AreOfMachine};
ghost use Rattle.css_isa.specs.Code.{Code};
ghost use Rattle.css_isa.specs.declared.code.Op.{Op};
ghost use Rattle.css_isa.specs.Effects.{effect};
ghost use Rattle.css_isa.specs.Roles.{role_of};
ghost use Rattle.css_isa.specs.Worked.{goes_on, needed_by};
ghost use Rattle.css_isa.specs.Steps.{State, Stuck, step_of};
ghost use Rattle.css_isa.specs.Soundness.{Plan, IsSound, IsAt, Fits};
ghost use Rattle.css_isa.specs.Fitting.{IsFitting, LeadsOnward};
ghost use Rattle.css_isa.specs.Machine.{exec, step, go_on};
ghost use Rattle.css_isa.specs.Quiet.{IsQuietAt};
ghost use Rattle.css_semantics.specs.Fronts.{Extends, Grows, RepliesAs, IsFront};

/// What ends with some steps ends so with more, in every world; what the steps end goes on behind the same tape.
pub fn more_steps()
    ensures { (w : World) (code : Code) (steps more : ℕ) (s : State) (tape : Tape) → Extends (exec w code steps s tape) (exec w code (steps + more) s tape) }
{}

/// A run only adds to the tape.
pub fn tapes_grow()
    ensures { (w : World) (code : Code) (steps : ℕ) (s : State) (tape : Tape) → Grows tape (exec w code steps s tape) }
{}

/// Two worlds of which one replies as the other does, on the tapes that come, make one dialogue of a run, up to where the first refuses.
pub fn alike_worlds_make_one_dialogue()
    ensures { (w w' : World) (comes : Tape → Bool) (code : Code) (steps : ℕ) (s : State) (tape : Tape) → RepliesAs w w' (λ t. IsTrue (comes t)) → IsTrue (comes tape)
        → IsFront (exec w code steps s tape) (exec w' code steps s tape) }
{}

/// A run takes a step, and goes on where that leads.
pub fn runs_take_steps()
    ensures { (w : World) (code : Code) (steps : ℕ) (s : State) (tape : Tape) → exec w code (suc steps) s tape ≡ then_do (step w code s tape) (go_on (exec w code steps)) }
{}

/// An instruction that goes on at the next place and finds its cells leaves as many as its role says, and asks what its role may.
pub fn effects_fit()
    ensures { (base : ℕ) (op : Op) (stack : List ℕ) → IsTrue (goes_on op) → needed_by op ≤ length stack → IsFitting (role_of op) (length stack) (effect base op stack) }
{}

/// A step of sound code leads to places of its plans, with fewer steps left but behind a turn and an entry.
pub fn sound_steps_lead_onward()
    ensures { (code : Code) (plans : List Plan) (s : State) (steps : ℕ) → IsSound code plans → IsAt code plans steps s → LeadsOnward code plans steps (step_of code s) }
{}

/// Sound code is never stuck, in any world.
pub fn sound_code_is_never_stuck()
    ensures { (w : World) (code : Code) (steps : ℕ) (s : State) (tape after : Tape) → Fits code s → exec w code steps s tape ≢ Goes Stuck after }
{}

/// A task's body by itself asks for its memory and its units alone, or is at fault, in every world; and so does all that it reaches.
pub fn tasks_ask_a_machine()
    ensures { (w : World) (code : Code) (plans : List Plan) (steps : ℕ) (s : State) (tape : Tape) → IsSound code plans → IsQuietAt code plans s → AreOfMachine tape
        → AreOfMachine (tape_of (exec w code steps s tape)) }
{}
