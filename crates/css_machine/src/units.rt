//! Units.
ghost use Rattle.std.specs.Prelude.{◌≡◌, ◌<◌, ◌-◌, IfErr, OnOk};

use css_base::{Rule, Stop};

/// Takes a unit. The rule on units, where none is left.
#[inline(always)]
pub(crate) fn take_unit(units: &mut u64) -> Result<(), Stop>
    ensures finds { OnOk result (0 < units.old) }
    ensures takes { OnOk result (units.new ≡ units.old - 1) }
    ensures spent { IfErr result (λ stop. (stop ≡ Stop.Rule Rule.Units) × (units.old ≡ 0)) }
{
    let Some(left) = units.checked_sub(1) else {
        return Err(Stop::Rule(Rule::Units));
    };
    *units = left;
    Ok(())
}
