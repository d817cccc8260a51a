//! What a task's function takes.
ghost use Rattle.std.specs.Prelude.{◌≡◌, ℕ, List, IfOk, map};
ghost use Rattle.css_record.specs.Windows.{window};
ghost use Rattle.css_record.specs.Records.{AreGiven, arguments_by};

use css_base::NoMemory;
use css_record::Window;
use css_vm::ArgShape;
use std::alloc::Global;

/// The arguments of a task in order of parameters: a window's is its base.
pub(crate) fn arguments_of(
    alloc: Global,
    parts: &[ArgShape],
    scalars: &[u64],
    windows: &[Window],
) -> Result<Vec<u64>, NoMemory>
    requires { (parameters : List ℕ) × AreGiven parts.now parameters scalars.now (map window windows.now) }
    ensures { IfOk result (λ v. v.items ≡ arguments_by parts.now scalars.now (map window windows.now)) }
{
    let mut arguments = Vec::new(alloc);
    let mut scalars = scalars;
    let mut windows = windows;
    for part in parts {
        match part {
            ArgShape::Scalar => {
                let Some((scalar, others)) = scalars.split_first() else {
                    unreachable!()
                };
                arguments.push(*scalar)?;
                scalars = others;
            }
            ArgShape::Window { .. } => {
                let Some((window, others)) = windows.split_first() else {
                    unreachable!()
                };
                arguments.push(u64::from(window.base))?;
                windows = others;
            }
        }
    }
    Ok(arguments)
}
