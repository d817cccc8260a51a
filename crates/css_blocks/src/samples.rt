//! Worked constructs: the code's dialogue beside the same written by hand. Each is what the contract of an empty function says.
ghost use Rattle.std.specs.Prelude.{ℕ, []};
ghost use Rattle.css_semantics.specs.Dialogue.{World, Tape};
ghost use Rattle.css_isa.specs.Steps.{Begin};
ghost use Rattle.css_isa.specs.Machine.{exec};
ghost use Rattle.css_blocks.specs.Layout.{code_of};
ghost use Rattle.css_blocks.specs.Correct.{SameDialogue};
ghost use Rattle.css_blocks.specs.Samples.{choosing, choosing_by_hand, looping, looping_by_hand, calling, calling_by_hand, submitting, submitting_by_hand};

/// A choice.
pub fn a_choice()
    ensures { (w : World) (line : ℕ) (tape : Tape) → SameDialogue (choosing_by_hand w line tape) (λ n. exec w (code_of choosing) n (Begin 0 [] line) tape) }
{}

/// A loop with both ways out.
pub fn a_loop()
    ensures { (w : World) (line : ℕ) (tape : Tape) → SameDialogue (looping_by_hand w line tape) (λ n. exec w (code_of looping) n (Begin 0 [] line) tape) }
{}

/// A call.
pub fn a_call()
    ensures { (w : World) (line : ℕ) (tape : Tape) → SameDialogue (calling_by_hand w line tape) (λ n. exec w (code_of calling) n (Begin 0 [] line) tape) }
{}

/// A call of a task, with a dimension at fault.
pub fn a_tasks_call()
    ensures { (w : World) (line : ℕ) (tape : Tape) → SameDialogue (submitting_by_hand w line tape) (λ n. exec w (code_of submitting) n (Begin 0 [] line) tape) }
{}
