//! Laws of the definitions. Each is what the contract of an empty function says.
ghost use Rattle.std.specs.Prelude.{◌≡◌, ◌≤◌, ◌+◌, ℕ, IfSome};
ghost use Rattle.css_base.specs.declared.limits.Limits.{Limits};
ghost use Rattle.css_semantics.specs.Dialogue.{Tape};
ghost use Rattle.css_semantics.specs.Memory.{Memory};
ghost use Rattle.css_semantics.specs.Tasks.{Window, has_byte, body, main_units};
ghost use Rattle.css_semantics.specs.Pending.{some_from, pending};
ghost use Rattle.css_semantics.specs.Rules.{share_byte};
ghost use Rattle.css_semantics.specs.WindowRanges.{window_meets, rows_share};
ghost use Rattle.css_semantics.specs.Clear.{IsClear, AreApart};

/// While no rule is broken, no two pending objects share a byte.
pub fn pending_share_no_byte()
    ensures { (start : Memory) (limits : Limits) (tape : Tape) → IsClear start limits tape → AreApart (pending tape) }
{}

/// While no rule is broken, the units that main has taken are at most main's, and those that the running task has taken are at most
/// a task's.
pub fn units_are_within()
    ensures of_main { (start : Memory) (limits : Limits) (tape : Tape) → IsClear start limits tape → main_units tape ≤ limits.main_units }
    ensures of_task { (start : Memory) (limits : Limits) (tape : Tape) → IsClear start limits tape → IfSome (body tape) (λ b. b.units ≤ limits.task_units) }
{}

/// Windows by the ranges of their rows, not byte by byte. Of a window whose rows have a byte at least, one of so many bytes, one at
/// least, is exactly where a row meets their range; two such windows share a byte exactly where a row of the one meets a row of the
/// other.
pub fn windows_meet_by_ranges()
    ensures bytes { (w : Window) (from n : ℕ) → 1 ≤ w.width → 1 ≤ n → some_from (has_byte w) from n ≡ window_meets w from (from + n) }
    ensures windows { (v w : Window) → 1 ≤ v.width → 1 ≤ w.width → share_byte v w ≡ rows_share w v.rows v.base v.width v.stride }
{}
