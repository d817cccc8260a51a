//! Writing to a sink, whole.
ghost use Rattle.std.specs.Prelude.{◌≡◌, ◌≤◌, ℕ, List, Option, OnOk, OnErr};
ghost use Rattle.css_io.specs.Outside.{Rose, Appends, AppendsPrefix};

use crate::failed::Failed;
use crate::sink::Sink;

/// Writes all of the bytes, in as many calls as the sink wants. On `Failed` a prefix of them was written and the count
/// rose. Takes no memory.
pub fn write_all<O: Sink>(out: &mut O, bytes: &[u8]) -> Result<(), Failed>
    ensures ok { OnOk result (Appends (O.written out.old) (O.written out.new) bytes.now) }
    ensures prefix { OnErr result (AppendsPrefix (O.written out.old) (O.written out.new) bytes.now) }
    ensures failed { OnErr result (Rose (O.faults out.old) (O.faults out.new)) }
    ensures never_falls { O.faults out.old ≤ O.faults out.new }
{
    let mut written = 0;
    while written < bytes.len() {
        written += out.write(&bytes[written..])?;
    }
    Ok(())
}
