//! What worked programs come to under the rules.
ghost use Rattle.std.specs.Prelude.{◌≡◌, [], ◌∷◌, Some, codes};
ghost use Rattle.css_base.specs.declared.rule.Rule.TheVariants.{Dimension, PartialOverlap, Unsynchronised, OutsideArguments, WroteInput, TaskStack, BadWait};
ghost use Rattle.css_semantics.specs.Dialogue.{output, tape_of};
ghost use Rattle.css_semantics.specs.Flat.{flat};
ghost use Rattle.css_core.specs.Functions.{source};
ghost use Rattle.css_core.specs.Starts.{start_of};
ghost use Rattle.css_core.specs.TaskSamples.{measures_by_zero, starting_5};
ghost use Rattle.css_core.specs.WorkedRuns.{run, ending_of, output_of, images_of, returned, main_breaks, task_breaks, row_limits, writes_after_read, never_waits, waits_for_x, reads_pending_read, waits_by_zero, prints_numbers, takes_input, copies_again, stores_into_read, stores_into_written, wait_for_a, at_finish, adds_in_rows, begins_in_argument, calls_main, finish_in, calls_of};

/// A task reads what a later one writes: it gets what was there before.
pub fn write_after_read()
    ensures written { output_of (run [] writes_after_read 9) ≡ Some (codes "7 1\n") }
    ensures ends { ending_of (run [] writes_after_read 9) ≡ returned 0 }
{}

/// Main reads what a task may write: it has to wait for it. What tasks only read main may read.
pub fn pending_objects()
    ensures refused { ending_of (run [] never_waits 9) ≡ main_breaks Unsynchronised 7 }
    ensures nothing { output_of (run [] never_waits 9) ≡ Some [] }
    ensures waited { output_of (run [] waits_for_x 9) ≡ Some (codes "5\n") }
    ensures ends { ending_of (run [] waits_for_x 9) ≡ returned 0 }
    ensures only_read { output_of (run [] reads_pending_read 9) ≡ Some (codes "4\n") }
    ensures ends_too { ending_of (run [] reads_pending_read 9) ≡ returned 0 }
{}

/// A fault in a wait is the rule on waits, and one in a dimension the rule on dimensions.
pub fn faults_aside()
    ensures in_wait { ending_of (run [] waits_by_zero 9) ≡ main_breaks BadWait 7 }
    ensures in_dimension { ending_of (run [] (measures_by_zero starting_5) 9) ≡ main_breaks Dimension 6 }
    ensures before { output_of (run [] (measures_by_zero starting_5) 9) ≡ Some (codes "a") }
{}

/// Operators at the ends of their ranges.
pub fn arithmetic()
    ensures { output (tape_of (source (flat (start_of row_limits.memory [] prints_numbers) 9) 9 prints_numbers)) ≡ codes "-3 705032704 2 -1 -2147483648\n" }
{}

/// A task loads outside its windows, stores into its input, or is too deep.
pub fn tasks_are_judged()
    ensures outside { ending_of (run (codes "0") takes_input 20) ≡ task_breaks OutsideArguments 4 }
    ensures wrote_input { ending_of (run (codes "1") takes_input 20) ≡ task_breaks WroteInput 5 }
    ensures too_deep { ending_of (run (codes "2") takes_input 20) ≡ task_breaks TaskStack 1 }
    ensures allowed { ending_of (run (codes "3") takes_input 20) ≡ returned 0 }
{}

/// Main stores into what tasks only read, which then isn't pending; into what a task writes it may not.
pub fn stores_into_what_is_read()
    ensures written { output_of (run [] (stores_into_read (copies_again ∷ [])) 9) ≡ Some (codes "7 7\n") }
    ensures images { images_of (run [] (stores_into_read (copies_again ∷ [])) 9) ≡ Some (wait_for_a ∷ at_finish 7 ∷ []) }
    ensures once { output_of (run [] (stores_into_read []) 9) ≡ Some (codes "7 1\n") }
    ensures no_wait { images_of (run [] (stores_into_read []) 9) ≡ Some (at_finish 1 ∷ []) }
    ensures refused { ending_of (run [] stores_into_written 9) ≡ main_breaks Unsynchronised 7 }
{}

/// Tasks name blocks of a matrix.
pub fn strided_windows()
    ensures ends { ending_of (run [] (adds_in_rows 4 4 4) 20) ≡ returned 12 }
    ensures overlap { ending_of (run [] (adds_in_rows 4 4 2) 20) ≡ main_breaks PartialOverlap 7 }
    ensures outside { ending_of (run [] (adds_in_rows 4 5 4) 20) ≡ task_breaks OutsideArguments 3 }
    ensures too_wide { ending_of (run [] (adds_in_rows 9 4 4) 20) ≡ main_breaks Dimension 6 }
{}

/// Whether a call makes a task is asked once its arguments are evaluated, and the end of the outermost main alone acts as finish.
pub fn starts_and_ends()
    ensures begun { ending_of (run [] begins_in_argument 9) ≡ returned 5 }
    ensures called { calls_of (run [] begins_in_argument 9) ≡ Some 1 }
    ensures finished { images_of (run [] begins_in_argument 9) ≡ Some (finish_in 8 5 ∷ []) }
    ensures again { ending_of (run [] calls_main 9) ≡ returned 8 }
    ensures once { images_of (run [] calls_main 9) ≡ Some (finish_in 5 1 ∷ []) }
{}
