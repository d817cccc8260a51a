//! What worked trees come to, computed by the prover.
ghost use Rattle.std.specs.Prelude.{◌≡◌, Ok, Err, map};
ghost use Rattle.css_base.specs.declared.static_fault.StaticName.TheVariants.{Redeclared, Undeclared, TypeMismatch, NotAnObject};
ghost use Rattle.css_types.specs.Judged.{broken};
ghost use Rattle.css_types.specs.Samples as samples;
ghost use Rattle.css_types.specs.WholeSamples as whole;

/// Trees that are core programs: a name that is hidden for a while, an array of arrays whose dimension is a constant, an initialiser.
#[tactic(auto, unfolding(crate::specs::Types::named_by, crate::specs::Scopes::library_of))]
pub fn accepted()
    ensures hides { samples.plainly samples.hides ≡ Ok samples.core_of_hides }
    ensures rows { samples.plainly samples.rows ≡ Ok samples.core_of_rows }
    ensures fills { samples.plainly samples.fills ≡ Ok samples.core_of_fills }
{}

/// Trees that break a rule, and the one that they break first in order of text.
#[tactic(auto, unfolding(crate::specs::Types::named_by, crate::specs::Scopes::library_of))]
pub fn refused()
    ensures star_first { samples.plainly samples.star_first ≡ Err (record { name = TypeMismatch; line = 2 }) }
    ensures name_first { samples.plainly samples.name_first ≡ Err (record { name = Undeclared; line = 2 }) }
    ensures twice { samples.plainly samples.twice ≡ Err (record { name = Redeclared; line = 3 }) }
    ensures no_place { samples.plainly samples.no_place ≡ Err (record { name = NotAnObject; line = 2 }) }
    ensures no_dimension { samples.plainly samples.no_dimension ≡ Err (record { name = TypeMismatch; line = 2 }) }
{}

/// Trees with globals, a string and a format, and with a task that is declared before main and defined behind it.
#[tactic(auto, unfolding(crate::specs::Types::named_by, crate::specs::Scopes::library_of))]
pub fn whole()
    ensures globals { samples.plainly whole.with_globals ≡ Ok whole.core_of_globals }
    ensures strings { samples.plainly whole.with_strings ≡ Ok whole.core_of_strings }
    ensures task { whole.with_marks whole.with_task ≡ Ok whole.core_of_task }
{}

/// A table of trees, each with the rule that it breaks first and the line.
#[tactic(auto, unfolding(crate::specs::Types::named_by, crate::specs::Scopes::library_of))]
pub fn refused_by_rule()
    ensures { map (λ r. samples.plainly r.tree) whole.refusals ≡ map (λ r. broken r.rule r.line) whole.refusals }
{}
