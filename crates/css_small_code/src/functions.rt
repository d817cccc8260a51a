//! The code of functions and of main.
ghost use Rattle.std.specs.Prelude.{◌≡◌, ℕ, ◌+◌, ◌≤◌, map, length, Some, None, option_map, if◌then◌else◌, IfOk};
ghost use Rattle.css_small.specs.Tree.{function};
ghost use Rattle.css_small.specs.Numbers.{IsNumbered};
ghost use Rattle.css_vm.specs.Code.{shape, routine};
ghost use Rattle.css_small_code.specs.Meaning as meaning;
ghost use Rattle.css_small_code.specs.Code.{task_shape, function_code, main_code};

use crate::entry::emit_entry;
use crate::expressions::place_of;
use crate::instructions::emit_all;
use crate::statements::emit_statements;
use css_base::{Direction, NoMemory};
use css_small::Function;
use css_vm::{ArgShape, Op, TaskShape, Width};
use std::alloc::Global;

// At the closing brace: returns 0.
const END: &[Op] = &[Op::Push(0), Op::Ret];

/// The code of a function that gets a pointer.
pub fn function_of(alloc: Global, tree: &Function) -> Result<css_vm::Function, NoMemory>
    requires pointer { tree.now.parameters ≡ 1 }
    requires numbers { IsNumbered 0 (function tree.now) }
    ensures { IfOk result (λ f. routine f ≡ function_code (function tree.now)) }
{
    let mut body = Vec::new(alloc);
    emit_statements(&mut body, &[], &tree.body)?;
    emit_all(&mut body, tree.end, END)?;
    Ok(css_vm::Function {
        frame: frame_of(tree),
        params: vec![in alloc; Width::W32]?,
        task: task_of(alloc, tree)?,
        body,
    })
}

/// The code of main, which may call these functions.
pub fn main_of(
    alloc: Global,
    functions: &[Function],
    tree: &Function,
) -> Result<css_vm::Function, NoMemory>
    requires alone { tree.now.parameters ≡ 0 }
    requires numbers { IsNumbered (length functions.now) (function tree.now) }
    ensures { IfOk result (λ f. routine f ≡ main_code (map function functions.now) (function tree.now)) }
{
    let mut body = Vec::new(alloc);
    emit_entry(&mut body, functions, tree)?;
    emit_statements(&mut body, functions, &tree.body)?;
    emit_all(&mut body, tree.end, END)?;
    Ok(css_vm::Function {
        frame: frame_of(tree),
        params: Vec::new(alloc),
        task: None,
        body,
    })
}

// The bytes of a function's frame.
fn frame_of(tree: &Function) -> u32
    requires few { tree.now.parameters + tree.now.variables ≤ 1001 }
    ensures { result ≡ meaning.frame_of (function tree.now) }
{
    place_of(tree.parameters + tree.variables)
}

// What a task's calls give: an int to read and write.
fn task_of(alloc: Global, tree: &Function) -> Result<Option<TaskShape>, NoMemory>
    ensures { IfOk result (λ task. option_map shape task ≡ if tree.now.is_task then Some task_shape else None) }
{
    if !tree.is_task {
        return Ok(None);
    }
    let pointer = ArgShape::Window {
        direction: Direction::InOut,
        element: 4,
        dims: 0,
        strided: false,
    };
    Ok(Some(TaskShape {
        high: false,
        args: vec![in alloc; pointer]?,
    }))
}
