//! Entries of functions.
ghost use Rattle.std.specs.Prelude.{◌≡◌, ◌+◌, ◌<◌, ℕ, length, map, IfOk, IfErr, OnOk};
ghost use Rattle.css_semantics.specs.Dialogue.{Enter, Says};
ghost use Rattle.css_semantics.specs.Units.{with_units, metered, spending};
ghost use Rattle.css_isa.specs.Code.{routine};
ghost use Rattle.css_isa.specs.Spaces.{bytes_of, IsRefusal};
ghost use Rattle.css_machine.specs.Steps.{StoresAll, StopsStoring, Enters, StopsEntering};

use crate::units::take_unit;
use css_base::Stop;
use css_isa::{Function, Space, Width};

/// Enters a function: pushes its frame, takes a unit, and stores each argument at the front of the frame. Gives the frame's base.
/// The rule that refuses the frame, only then the rule on units, and then what stops a store.
pub(crate) fn enter<S: Space>(
    function: &Function,
    arguments: &[u64],
    space: &mut S,
    units: &mut u64,
) -> Result<u32, Stop>
    requires { length arguments.now ≡ length function.now.params }
    ensures enters { IfOk result (λ base. Enters (metered S.reply) (spending S.learn) (routine function.now) arguments.now
        (with_units space.old units.old) base (with_units space.new units.new)) }
    ensures takes { OnOk result (units.new < units.old) }
    ensures at { IfOk result (λ base. S.place space.new ≡ base) }
    ensures above { IfOk result (λ base. base + function.now.frame ≡ S.place space.old) }
    ensures stops { IfErr result (λ stop. StopsEntering (metered S.reply) (spending S.learn) (routine function.now) arguments.now
        (with_units space.old units.old) stop) }
{
    let base = open_frame(function.frame, space, units)?;
    store_arguments(base, function.params.as_slice(), arguments, space)?;
    Ok(base)
}

// Pushes a frame, and takes a unit. The rule that refuses the frame, and only then the rule on units.
fn open_frame<S: Space>(size: u32, space: &mut S, units: &mut u64) -> Result<u32, Stop>
    ensures says { IfOk result (λ base. metered S.reply (with_units space.old units.old) (Enter size) ≡ Says base) }
    ensures learns { OnOk result (with_units space.new units.new ≡ spending S.learn (with_units space.old units.old) (Enter size)) }
    ensures takes { OnOk result (units.new < units.old) }
    ensures at { IfOk result (λ base. S.place space.new ≡ base) }
    ensures above { IfOk result (λ base. base + size ≡ S.place space.old) }
    ensures refuses { IfErr result (λ stop. IsRefusal (metered S.reply (with_units space.old units.old) (Enter size)) stop) }
{
    let base = space.push_frame(size)?;
    take_unit(units)?;
    Ok(base)
}

// Stores arguments from a frame's base on, each in 8 bytes.
fn store_arguments<S: Space>(
    base: u32,
    params: &[Width],
    arguments: &[u64],
    space: &mut S,
) -> Result<(), Stop>
    requires { length arguments.now ≡ length params.now }
    ensures stores { OnOk result ((units : ℕ) → StoresAll (metered S.reply) (spending S.learn) base (map bytes_of params.now) arguments.now
        (with_units space.old units) (with_units space.new units)) }
    ensures stops { IfErr result (λ stop. (units : ℕ) → StopsStoring (metered S.reply) (spending S.learn) base (map bytes_of params.now) arguments.now
        (with_units space.old units) stop) }
    ensures place { S.place space.new ≡ S.place space.old }
{
    let mut address = base;
    for i in 0..params.len() {
        space.store(address, params[i], arguments[i])?;
        address = address.wrapping_add(8);
    }
    Ok(())
}
