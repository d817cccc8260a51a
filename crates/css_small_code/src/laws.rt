//! Laws of the meaning: what fuel does, and that each program has one verdict.
ghost use Rattle.std.specs.Prelude.{◌≡◌, ℕ, ◌+◌, Some};
ghost use Rattle.css_base.specs.declared.limits.Limits.{Limits};
ghost use Rattle.css_semantics.specs.Dialogue.{World, Tape, Stops, Tired};
ghost use Rattle.css_semantics.specs.Memory.{Memory};
ghost use Rattle.css_semantics.specs.Flat.{FlatState, flat};
ghost use Rattle.css_semantics.specs.Verdict.{Verdict, verdict, judged_in};
ghost use Rattle.css_small.specs.Tree.{Program};
ghost use Rattle.css_small.specs.Numbers.{HasNumbers};
ghost use Rattle.css_small_code.specs.Meaning.{source};
ghost use Rattle.css_small_code.specs.Fuel.{Extends};

/// More fuel changes nothing where a program ends, and else extends its tape, in every world.
pub fn more_fuel()
    ensures { (w : World) (fuel more : ℕ) (p : Program) → Extends (source w fuel p) (source w (fuel + more) p) }
{}

/// In the flat world, units end a program before a fuel of one more than they are does.
pub fn enough_fuel()
    ensures { (start : FlatState) (units : ℕ) (p : Program) (tape : Tape) → HasNumbers p → source (flat start units) (units + 1) p ≡ Stops Tired tape → ⊥ }
{}

/// Under the rules, the units of main and of its tasks end a program before a fuel of more than both may take does.
pub fn enough_fuel_judged()
    ensures { (limits : Limits) (start : FlatState) (p : Program) (tape : Tape) → HasNumbers p → source (judged_in limits start) (limits.main_units + limits.task_units + 2) p ≡ Stops Tired tape → ⊥ }
{}

/// A program has one verdict, whatever the fuel.
pub fn one_verdict()
    ensures { (start : Memory) (w : World) (p : Program) (fuel other : ℕ) (v v' : Verdict) → verdict start (source w fuel p) ≡ Some v → verdict start (source w other p) ≡ Some v' → v ≡ v' }
{}

/// Under the rules every program has a verdict, by that much fuel.
pub fn program_has_verdict()
    ensures { (limits : Limits) (start : FlatState) (p : Program) → HasNumbers p → (v : Verdict) × (verdict start.memory (source (judged_in limits start) (limits.main_units + limits.task_units + 2) p) ≡ Some v) }
{}
