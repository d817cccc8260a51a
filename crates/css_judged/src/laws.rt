//! Laws of main's memory under the rules. Each is what the contract of an empty function says.
ghost use Rattle.std.specs.Prelude.{◌≡◌, ◌≤◌, ℕ, ℤ, ◌+◌, ◌-◌, ◌++◌, [], ◌∷◌, List, true, false, length, fold, None, if◌then◌else◌};
ghost use Rattle.css_base.specs.Limits.{IsInRange};
ghost use Rattle.css_base.specs.declared.rule.Rule.TheVariants as rules;
ghost use Rattle.css_base.specs.declared.limits.Limits.{Limits};
ghost use Rattle.css_semantics.specs.Dialogue.{Calls, Returns, Out, Start, Finish, Barrier, End, Call, Item, Tape, Says, Refuses, item};
ghost use Rattle.css_semantics.specs.Worlds.{state_after, AreOfMachine, Follows};
ghost use Rattle.css_semantics.specs.Memory.{Memory, is_live_byte, memory_after};
ghost use Rattle.css_semantics.specs.Flat.{FlatState, IsLaidOut, IsStart};
ghost use Rattle.css_semantics.specs.Pending.{with_argument};
ghost use Rattle.css_semantics.specs.Rules.{judged_reply, all_of_window, share_byte};
ghost use Rattle.css_semantics.specs.Tasks.{plain, is_started};
ghost use Rattle.css_semantics.specs.Units.{Metered, with_units, metered, spending};
ghost use Rattle.css_semantics.specs.Verdict.{judged_in};
ghost use Rattle.css_judged.specs.Judged.{Judged, main_reply, main_after, main_place, broken_by_call, plain_argument, is_call, AreOfBody, IsMainAt};

/// Where main is at a tape, the judged world replies to a machine as main's memory does with main's units.
pub fn main_follows()
    ensures { (limits : Limits) (start : FlatState) (tape : Tape) (s : Metered Judged) → IsInRange limits → IsStart limits.memory start → IsMainAt limits start tape s
        → Follows (judged_in limits start) (metered main_reply) (spending main_after) tape s }
{}

/// Before main's entry nothing is pending, and all units are left.
pub fn main_begins()
    ensures { (limits : Limits) (start : FlatState) → IsMainAt limits start [] (with_units (record { memory = start.memory; objects = [] }) limits.main_units) }
{}

/// Behind what a machine adds, main is where its memory and its units are then.
pub fn main_stays()
    ensures { (limits : Limits) (start : FlatState) (tape : Tape) (s : Metered Judged) (more : Tape) → IsMainAt limits start tape s → AreOfMachine more
        → IsMainAt limits start (more ++ tape) (state_after (spending main_after) s more) }
{}

/// So it is behind each thing that main does itself, but for a task's call. To write and to start change nothing; behind a finish and a
/// barrier nothing is pending.
pub fn main_acts()
    ensures acts { (limits : Limits) (start : FlatState) (tape : Tape) (s : Metered Judged) (i : Item) → is_call i.action ≡ false → IsMainAt limits start tape s
        → IsMainAt limits start (i ∷ tape) (spending main_after s i.action) }
    ensures writes { (limits : Limits) (start : FlatState) (tape : Tape) (s : Metered Judged) (bytes : List ℕ) (line : ℕ) → IsMainAt limits start tape s
        → IsMainAt limits start (item (Out bytes) line ∷ tape) s }
    ensures starts { (limits : Limits) (start : FlatState) (tape : Tape) (s : Metered Judged) (line : ℕ) → IsMainAt limits start tape s
        → IsMainAt limits start (item Start line ∷ tape) s }
    ensures finishes { (limits : Limits) (start : FlatState) (tape : Tape) (s : Metered Judged) (line : ℕ) → IsMainAt limits start tape s
        → IsMainAt limits start (item Finish line ∷ tape) (with_units (record { memory = s.state.memory; objects = [] }) s.units) }
    ensures waits { (limits : Limits) (start : FlatState) (tape : Tape) (s : Metered Judged) (line : ℕ) → IsMainAt limits start tape s
        → IsMainAt limits start (item Barrier line ∷ tape) (with_units (record { memory = s.state.memory; objects = [] }) s.units) }
{}

/// What the judged world replies to what main asks itself, but for what a machine asks: rules refuse to start twice, to finish without
/// a start, and a call by what it is given.
pub fn main_asks()
    ensures writes { (limits : Limits) (start : FlatState) (tape : Tape) (s : Metered Judged) (line : ℕ) (bytes : List ℕ) → IsMainAt limits start tape s
        → judged_in limits start tape (item (Out bytes) line) ≡ Says (length bytes) }
    ensures starts { (limits : Limits) (start : FlatState) (tape : Tape) (s : Metered Judged) (line : ℕ) → IsMainAt limits start tape s
        → judged_in limits start tape (item Start line) ≡ (if is_started tape then Refuses rules.StartTwice else Says 0) }
    ensures finishes { (limits : Limits) (start : FlatState) (tape : Tape) (s : Metered Judged) (line : ℕ) → IsMainAt limits start tape s
        → judged_in limits start tape (item Finish line) ≡ (if is_started tape then Says 0 else Refuses rules.FinishWithout) }
    ensures waits { (limits : Limits) (start : FlatState) (tape : Tape) (s : Metered Judged) (line : ℕ) → IsMainAt limits start tape s
        → judged_in limits start tape (item Barrier line) ≡ Says 0 }
    ensures ends { (limits : Limits) (start : FlatState) (tape : Tape) (s : Metered Judged) (line : ℕ) (value : ℤ) → IsMainAt limits start tape s
        → judged_in limits start tape (item (End value) line) ≡ Says 0 }
    ensures calls { (limits : Limits) (start : FlatState) (tape : Tape) (s : Metered Judged) (line : ℕ) (call : Call) → IsMainAt limits start tape s
        → judged_in limits start tape (item (Calls call) line) ≡ judged_reply (broken_by_call limits s.state call.arguments) (Says 1) }
{}

/// Wherever main is, its memory has the layout that the start's has: the limits' bytes, and room for the stack of an erased program.
pub fn main_has_stack()
    ensures { (limits : Limits) (start : FlatState) (tape : Tape) (s : Metered Judged) → IsStart limits.memory start → IsMainAt limits start tape s
        → IsLaidOut limits.memory s.state.memory }
{}

/// Where no rule refuses a call of a plain task, the bytes that it is given are live and within the memory, and share none with the
/// stack of the task, which ends at main's stack place, where main's stack is within its limit.
pub fn main_gives()
    ensures live { (limits : Limits) (s : Judged) (base : ℕ) → broken_by_call limits s (plain_argument base ∷ []) ≡ None
        → all_of_window (is_live_byte s.memory) (plain base 4) ≡ true }
    ensures within { (limits : Limits) (start : FlatState) (tape : Tape) (s : Metered Judged) (base : ℕ) → IsStart limits.memory start → IsMainAt limits start tape s
        → broken_by_call limits s.state (plain_argument base ∷ []) ≡ None → base + 4 ≤ limits.memory }
    ensures clear { (limits : Limits) (start : FlatState) (tape : Tape) (s : Metered Judged) (base : ℕ) → IsStart limits.memory start → IsMainAt limits start tape s
        → length s.state.memory.stack ≤ 1048576 → broken_by_call limits s.state (plain_argument base ∷ []) ≡ None
        → share_byte (plain base 4) (plain (main_place s.state - 16384) 16384) ≡ false }
{}

/// Behind a whole call of a task main has as many units as before it, what the call is given is pending, and the memory is what the
/// task's body makes of it. What a machine adds may be a task's body.
pub fn main_calls()
    ensures calls { (limits : Limits) (start : FlatState) (tape : Tape) (s : Metered Judged) (call : Call) (called returned : ℕ) (more : Tape) (m : Memory)
        → IsMainAt limits start tape s → AreOfBody more
        → m ≡ memory_after start.memory (item Returns returned ∷ (more ++ item (Calls call) called ∷ tape))
        → IsMainAt limits start (item Returns returned ∷ (more ++ item (Calls call) called ∷ tape))
        (with_units (record { memory = m; objects = fold with_argument s.state.objects call.arguments }) s.units) }
    ensures memory { (limits : Limits) (start : FlatState) (tape : Tape) (s : Metered Judged) (call : Call) (called returned : ℕ) (more : Tape) → IsMainAt limits start tape s
        → memory_after start.memory (item Returns returned ∷ (more ++ item (Calls call) called ∷ tape)) ≡ memory_after s.state.memory more }
    ensures of_machine { (more : Tape) → AreOfMachine more → AreOfBody more }
{}
