//! The machine's instructions. Cells are 64 bits.
ghost use Rattle.std.specs.Prelude.{◌≡◌, ◌+◌, ◌^◌, ◌<◌, length, slice_get};
ghost use Rattle.css_vm.specs.Code.{Routine, routine, code_of};

use crate::space::Width;
use css_base::{Direction, Line};

/// How `out` writes a cell.
#[derive(Clone, Copy, PartialEq, Eq, Debug)]
pub enum Conversion {
    /// `c`: one byte, the cell modulo 256.
    Char,
}

/// A count of bits by which a shift takes its count modulo.
#[derive(Clone, Copy, PartialEq, Eq, Debug)]
pub enum ShiftWidth {
    /// 32.
    W32,
    /// 64.
    W64,
}

/// What `conv` makes of a cell.
#[derive(Clone, Copy, PartialEq, Eq, Debug)]
pub enum Narrow {
    /// `u8`: the low 8 bits.
    U8,
    /// `s8`: the low 8 bits with their sign.
    S8,
    /// `u16`: the low 16 bits.
    U16,
    /// `s16`: the low 16 bits with their sign.
    S16,
    /// `u32`: the low 32 bits.
    U32,
    /// `s32`: the low 32 bits with their sign.
    S32,
}

/// What `mark` tells the runtime.
#[derive(Clone, Copy, PartialEq, Eq, Debug)]
pub enum MarkKind {
    /// From here on calls of tasks make tasks.
    Start,
    /// All tasks are waited for, and calls make no more.
    Finish,
    /// All tasks are waited for.
    Barrier,
    /// Asks whether calls of tasks make tasks.
    Started,
}

/// What an instruction does. `a, b -> c` shows the cells that it takes, the top last, and those that it gives. A value of a type
/// is kept extended to 64 bits, by its sign where it has one.
#[derive(Clone, Copy, PartialEq, Eq)]
pub enum Op {
    /// `-> V`: pushes a number, as its two's complement.
    Push(i64),
    /// `a ->`: drops the top.
    Drop,
    /// `-> a`: copies the cell so many places below the top onto the top.
    Dup(u32),
    /// `a, b -> b, a`.
    Swap,
    /// `-> address`: the address so many bytes behind the frame's base.
    Frame(u32),
    /// `address -> v`: loads 4 bytes, without sign.
    Load32u,
    /// `address -> v`: loads 4 bytes, extended by their sign.
    Load32s,
    /// `address, v -> v`: stores the low 4 bytes.
    Store32,
    /// `a, b -> a + b` modulo 2^64.
    Add,
    /// `a, b -> a - b` modulo 2^64.
    Sub,
    /// `a, b -> a * b` modulo 2^64.
    Mul,
    /// `a, b -> a & b`.
    And,
    /// `a, b -> a | b`.
    Or,
    /// `a, b -> a ^ b`.
    Xor,
    /// `a -> -a` modulo 2^64.
    Neg,
    /// `a -> ~a`.
    Not,
    /// `a, b -> a / b`, signed, toward zero. DivideByZero where b is 0.
    Divs,
    /// `a, b -> a % b`, signed, of the division toward zero. DivideByZero where b is 0.
    Rems,
    /// `a, b -> a << b`, the count modulo the width.
    Shl(ShiftWidth),
    /// `a, b -> a >> b`, signed, the count modulo the width.
    Shrs(ShiftWidth),
    /// `a, b -> 1` where they are equal, else 0.
    Eq,
    /// `a, b -> 1` where they differ, else 0.
    Ne,
    /// `a, b -> 1` where a is below b, signed, else 0.
    Lts,
    /// `a -> a` narrowed.
    Conv(Narrow),
    /// Goes on at this place of the body.
    Jump(u32),
    /// `a ->`: goes on at this place where a is 0.
    Jumpz(u32),
    /// Takes the arguments of the function of this number, the last on top, and gives what it returns with. Takes a unit.
    Call(u32),
    /// Takes the arguments of the task of this number, and above them its dimensions, and gives 0: makes a task of the call.
    Submit(u32),
    /// `-> 1` where calls of tasks make tasks, else 0, where it asks for that; the others take and give nothing.
    Mark(MarkKind),
    /// Takes a unit: the body of a loop is entered.
    Turn,
    /// `a -> n`: writes the top, and gives the number of bytes.
    Out(Conversion),
    /// `a ->`: leaves the function with the top.
    Ret,
}

/// An instruction with the line of the program's text that it comes from.
#[derive(Clone, Copy)]
pub struct Instr {
    pub op: Op,
    pub line: Line,
}

/// What a task is given for one of its parameters.
#[derive(Clone, Copy)]
pub enum ArgShape {
    /// An integer.
    Scalar,
    /// A pointer to memory that the task may use.
    Window {
        /// What the task does with it.
        direction: Direction,
        /// The bytes of an element, at least 1.
        element: u32,
        /// How many dimensions `submit` takes for it.
        dims: u32,
        /// Whether the dimensions are rows, width and stride.
        strided: bool,
    },
}

/// What a call of a task is.
#[derive(Drop)]
pub struct TaskShape {
    /// Whether it goes before others.
    pub high: bool,
    /// What it is given, one for each parameter.
    pub args: Vec<ArgShape>,
}

/// A function. Its parameters lie at the front of its frame, each in 8 bytes.
#[derive(Drop)]
pub struct Function {
    /// The bytes of its frame.
    pub frame: u32,
    /// The width of each parameter.
    pub params: Vec<Width>,
    /// What its calls are, where it is a task.
    pub task: Option<TaskShape>,
    /// Its instructions.
    pub body: Vec<Instr>,
}

/// A program's code.
#[derive(Drop)]
pub struct Code {
    pub functions: Vec<Function>,
    /// The number of main among the functions.
    pub main: u32,
}

impl Function {
    // The instruction at a place of the body.
    #[inline]
    pub(crate) fn instr_at(&self, place: usize) -> &Instr
        requires { place < length self.now.body.items }
        ensures is { slice_get (routine self.now).body place ≡ Some result.now }
        ensures counted { place + 1 < 2 ^ 64 }
    {
        &self.body[place]
    }
}

impl Code {
    // The function of a number.
    #[inline]
    pub(crate) fn function(&self, number: u32) -> &Function
        requires { (f : Routine) × (slice_get (code_of self.now).functions number ≡ Some f) }
        ensures { slice_get (code_of self.now).functions number ≡ Some (routine result.now) }
    {
        &self.functions[number as usize]
    }
}
