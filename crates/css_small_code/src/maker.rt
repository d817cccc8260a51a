//! From a program to the machine's code.
ghost use Rattle.std.specs.Prelude.{◌≡◌, ℕ, All, map, IfOk};
ghost use Rattle.css_small.specs.Tree.{function, program};
ghost use Rattle.css_small.specs.Numbers.{IsNumbered, HasNumbers};
ghost use Rattle.css_vm.specs.Code.{routine, code_of};
ghost use Rattle.css_small_code.specs.Code.{function_code};
ghost use Rattle.css_small_code.specs.Correct.{Codes};
ghost use Rattle.css_small_code.specs.Marks.{HasNoDirectives, HasNoMarks};
ghost use Rattle.css_small_code.specs.Tasks.{TasksTakePointers};

use crate::functions::{function_of, main_of};
use css_base::NoMemory;
use css_small::Program;
use css_vm::{Code, Function};
use std::alloc::Global;

/// The code of a program, which has in every world the program's dialogue, and no marks where that has no directives. Each of its tasks
/// takes one pointer to an int. `NoMemory` where there is no memory for its instructions, or where the place of a jump doesn't fit into
/// 32 bits.
pub fn make_code(alloc: Global, tree: &Program) -> Result<Code, NoMemory>
    requires { HasNumbers (program tree.now) }
    ensures codes { IfOk result (λ code. Codes (code_of code) (program tree.now)) }
    ensures no_marks { HasNoDirectives (program tree.now) → IfOk result (λ code. HasNoMarks (code_of code)) }
    ensures pointers { IfOk result (λ code. TasksTakePointers (code_of code)) }
{
    let mut functions = functions_of(alloc, &tree.functions)?;
    let main = u32::try_from(functions.len()).map_err(|_| NoMemory)?;
    functions.push(main_of(alloc, &tree.functions, &tree.main)?)?;
    Ok(Code { functions, main })
}

fn functions_of(alloc: Global, trees: &[css_small::Function]) -> Result<Vec<Function>, NoMemory>
    requires { All (λ f. (f.parameters ≡ 1) × IsNumbered 0 f) (map function trees.now) }
    ensures { IfOk result (λ functions. map routine functions.items ≡ map function_code (map function trees.now)) }
{
    let mut functions = Vec::new(alloc);
    for tree in trees {
        functions.push(function_of(alloc, tree)?)?;
    }
    Ok(functions)
}
