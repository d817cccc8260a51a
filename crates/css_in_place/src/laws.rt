//! Laws between a task by itself and its body at its call. Each is what the contract of an empty function says.
ghost use Rattle.std.specs.Prelude.{◌≡◌, ℕ, suc, false, List, Some, is_none, slice_get};
ghost use Rattle.css_base.specs.declared.limits.Limits.{Limits};
ghost use Rattle.css_base.specs.Limits.{IsInRange};
ghost use Rattle.css_semantics.specs.Dialogue.{Tape, World, tape_of};
ghost use Rattle.css_semantics.specs.Tasks.{Use, body};
ghost use Rattle.css_semantics.specs.Memory.{Memory};
ghost use Rattle.css_semantics.specs.Worlds.{AreOfMachine};
ghost use Rattle.css_semantics.specs.Flat.{FlatState, IsStart};
ghost use Rattle.css_semantics.specs.Clear.{IsClear};
ghost use Rattle.css_semantics.specs.Verdict.{judged_in};
ghost use Rattle.css_vm.specs.Code.{Routine, Code, call_of};
ghost use Rattle.css_vm.specs.Machine.{Activation, Caller, target};
ghost use Rattle.css_vm.specs.Soundness.{Spot, IsSound};
ghost use Rattle.css_record.specs.declared.task_record.TaskRecord.{TaskRecord};
ghost use Rattle.css_in_place.specs.InPlace.{IsAtCall, ArePlaced, RunsAlike, behind};
ghost use Rattle.css_in_place.specs.Records.{IsOfCall, HasInputs, FitsAtCall, by_itself, RunsAsRecord};
ghost use Rattle.css_in_place.specs.Main.{LeavesMain};
ghost use Rattle.css_in_place.specs.Waits.{ComesBack, waiting, back, WaitsFor};

/// A task's body that is run at its call has in the flat memory, under the rules, the dialogue of the task by itself. Where it returns,
/// its windows have the task's outs, and nothing else has changed.
pub fn body_in_place()
    ensures { (code : Code) (plans : List (List Spot)) → IsSound code plans → (limits : Limits) (start : FlatState) (tape : Tape) (k : ℕ) (arguments : List ℕ) (line : ℕ) (uses : List Use) (place : ℕ) → IsAtCall code limits start tape k arguments line uses place → RunsAlike code limits start tape k arguments line uses place }
{}

/// So it does against the task of a record that is made of the call.
pub fn records_in_place()
    ensures { (code : Code) (plans : List (List Spot)) → IsSound code plans → (limits : Limits) (start : FlatState) (tape : Tape) (k : ℕ) (arguments : List ℕ) (line : ℕ) (uses : List Use) (place : ℕ) → (at : IsAtCall code limits start tape k arguments line uses place) → (r : TaskRecord) → IsOfCall r (call_of k at.routine at.shape arguments at.dimensions place) line → RunsAsRecord code limits start tape k arguments line at.shape r }
{}

/// Such a record fits its code, if it has a version for each window that is read.
pub fn records_fit()
    ensures { (code : Code) (plans : List (List Spot)) → IsSound code plans → (limits : Limits) (start : FlatState) (tape : Tape) (k : ℕ) (arguments : List ℕ) (line : ℕ) (uses : List Use) (place : ℕ) → (at : IsAtCall code limits start tape k arguments line uses place) → (r : TaskRecord) → IsOfCall r (call_of k at.routine at.shape arguments at.dimensions place) line → HasInputs at.shape r → FitsAtCall code start tape at.shape r }
{}

/// While a task's body asks, and behind its return, main's output, calls, images, units and pending objects are as they were.
pub fn bodies_leave_main()
    ensures { (start : Memory) (tape asked : Tape) → is_none (body tape) ≡ false → AreOfMachine asked → LeavesMain start tape asked }
{}

/// The tape that main makes under the rules breaks none, and at each call of a task on it things stand so that the other laws speak of
/// it: the call breaks no rule, and the stack, whose place is the call's, is within main's limits.
pub fn main_calls_in_place()
    ensures clear { (code : Code) (plans : List (List Spot)) → IsSound code plans → (limits : Limits) (start : FlatState) → IsInRange limits → IsStart limits.memory start → (n : ℕ) → IsClear start.memory limits (tape_of (target (judged_in limits start) code n)) }
    ensures placed { (code : Code) (plans : List (List Spot)) → IsSound code plans → (limits : Limits) (start : FlatState) → IsInRange limits → IsStart limits.memory start → (n : ℕ) → ArePlaced code limits start (tape_of (target (judged_in limits start) code n)) }
{}

/// Where the world runs a body at a task's call, the machine has the dialogue of the body, and then goes on behind the call.
pub fn callers_wait()
    ensures { (w : World) (code : Code) (a : Activation) (callers : List Caller) (line place k : ℕ) (f : Routine) (arguments : List ℕ) (reply owed : ℕ) (rest : List ℕ) (n : ℕ) (tape : Tape) → slice_get code.functions k ≡ Some f → WaitsFor w code a callers line place k f arguments reply owed rest n tape }
{}

/// So under the rules it has the dialogue of the task of the call's record by itself.
pub fn calls_in_place()
    ensures { (code : Code) (plans : List (List Spot)) → IsSound code plans → (limits : Limits) (start : FlatState) (tape : Tape) (k : ℕ) (arguments : List ℕ) (line : ℕ) (uses : List Use) (stack_place : ℕ) → (at : IsAtCall code limits start tape k arguments line uses stack_place) → (r : TaskRecord) → IsOfCall r (call_of k at.routine at.shape arguments at.dimensions stack_place) line → (a : Activation) (callers : List Caller) (place reply owed : ℕ) (rest : List ℕ) (n : ℕ) → ComesBack (waiting (judged_in limits start) code a callers line place k at.routine arguments reply owed rest tape) (back (judged_in limits start) code a callers place rest) n (behind (by_itself code limits start tape at.shape r (suc n)) tape) }
{}
