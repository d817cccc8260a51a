//! Instructions one behind another, and the places that jumps name.
ghost use Rattle.std.specs.Prelude.{◌≡◌, ◌+◌, ◌<◌, [], ◌∷◌, ◌++◌, length, slice_set, IfOk, OnOk};
ghost use Rattle.css_small_code.specs.Code.{in_line};

use css_base::{Line, NoMemory};
use css_vm::{Instr, Op};

/// One more instruction.
pub fn emit(code: &mut Vec<Instr>, line: Line, op: Op) -> Result<(), NoMemory>
    ensures { OnOk result (code.new.items ≡ code.old.items ++ in_line line (op ∷ [])) }
{
    code.push(Instr { op, line })?;
    Ok(())
}

/// More instructions of one line.
pub fn emit_all(code: &mut Vec<Instr>, line: Line, ops: &[Op]) -> Result<(), NoMemory>
    ensures { OnOk result (code.new.items ≡ code.old.items ++ in_line line ops.now) }
{
    for op in ops {
        emit(code, line, *op)?;
    }
    Ok(())
}

/// The place so many instructions behind the last. `NoMemory` where it doesn't fit into 32 bits.
pub fn place_ahead(code: &[Instr], more: u32) -> Result<u32, NoMemory>
    ensures { IfOk result (λ place. place ≡ length code.now + more) }
{
    let end = u32::try_from(code.len()).map_err(|_| NoMemory)?;
    end.checked_add(more).ok_or(NoMemory)
}
