//! Laws of the texts of reports. Each is what the contract of an empty function says.
ghost use Rattle.std.specs.Prelude.{◌≡◌, ℕ, List};
ghost use Rattle.css_report.specs.Calls.{Shown};
ghost use Rattle.css_report.specs.Stats.{IsStatsLine};

/// Calls have at most one line of numbers.
pub fn one_stats_line()
    ensures { (calls : List Shown) (a b : List ℕ) → IsStatsLine calls a → IsStatsLine calls b → a ≡ b }
{}

/// Calls have a line of numbers.
pub fn calls_have_stats()
    ensures { (calls : List Shown) → (line : List ℕ) × IsStatsLine calls line }
{}
