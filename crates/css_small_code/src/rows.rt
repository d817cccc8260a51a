//! What worked programs come to under the rules.
ghost use Rattle.std.specs.Prelude.{◌≡◌, [], ◌∷◌, Some};
ghost use Rattle.css_semantics.specs.Dialogue.{output, tape_of};
ghost use Rattle.css_semantics.specs.Flat.{flat};
ghost use Rattle.css_semantics.specs.Verdict.{verdict, judged_in};
ghost use Rattle.css_small_code.specs.Meaning.{source};
ghost use Rattle.css_small_code.specs.WorkedPrograms.{row_limits, row_start, waits, writes_outside, never_waits, verdict_of_waits, verdict_of_writes_outside, verdict_of_never_waits, tape_of_sum, tape_of_task, tape_of_waits};

/// A task adds one to `x`, which is 4, and main waits at a barrier before it writes `48 + x`: `5` is written.
pub fn waiting_writes_five()
    ensures verdict { verdict row_start.memory (source (judged_in row_limits row_start) 20 waits) ≡ Some verdict_of_waits }
    ensures tape { tape_of (source (judged_in row_limits row_start) 20 waits) ≡ tape_of_waits }
{}

/// The task stores to the int behind `x`, outside what it was given. Without the rules, `4` is written.
pub fn writing_outside_is_refused()
    ensures verdict { verdict row_start.memory (source (judged_in row_limits row_start) 20 writes_outside) ≡ Some verdict_of_writes_outside }
    ensures tape { tape_of (source (judged_in row_limits row_start) 20 writes_outside) ≡ tape_of_sum }
    ensures unjudged { output (tape_of (source (flat row_start row_limits.main_units) 20 writes_outside)) ≡ 52 ∷ [] }
{}

/// Main loads `x`, which the task writes, and hasn't waited.
pub fn reading_unsynchronised_is_refused()
    ensures verdict { verdict row_start.memory (source (judged_in row_limits row_start) 20 never_waits) ≡ Some verdict_of_never_waits }
    ensures tape { tape_of (source (judged_in row_limits row_start) 20 never_waits) ≡ tape_of_task }
{}
