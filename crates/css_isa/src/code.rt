//! The machine's instructions, and a program's code. Cells are 64 bits.
ghost use Rattle.std.specs.Prelude.{◌≡◌, ◌+◌, ◌^◌, ◌<◌, length, slice_get};
ghost use Rattle.css_isa.specs.Code.{Routine, routine, code_of};

use crate::items::Items;
use crate::name::Name;
use crate::space::Width;
use css_base::{Bytes, Direction, Line};

/// How `out` writes a cell.
#[derive(Clone, Copy, PartialEq, Eq, Debug)]
pub enum Conversion {
    /// `c`: one byte, the cell modulo 256.
    Char,
    /// `d`: the low 32 bits as a signed number, in decimal.
    Signed,
    /// `u`: the low 32 bits as a number without sign, in decimal.
    Unsigned,
    /// `x`: the low 32 bits in lower-case hexadecimal digits.
    Hexadecimal,
    /// `q`: the whole cell as a signed number, in decimal.
    Wide,
}

/// A count of bits by which a shift takes its count modulo.
#[derive(Clone, Copy, PartialEq, Eq, Debug)]
pub enum ShiftWidth {
    /// 32.
    W32,
    /// 64.
    W64,
}

/// What `conv` makes of a cell.
#[derive(Clone, Copy, PartialEq, Eq, Debug)]
pub enum Narrow {
    /// `u8`: the low 8 bits.
    U8,
    /// `s8`: the low 8 bits with their sign.
    S8,
    /// `u16`: the low 16 bits.
    U16,
    /// `s16`: the low 16 bits with their sign.
    S16,
    /// `u32`: the low 32 bits.
    U32,
    /// `s32`: the low 32 bits with their sign.
    S32,
}

/// What `mark` tells the runtime, or asks it.
#[derive(Clone, Copy, PartialEq, Eq, Debug)]
pub enum Mark {
    /// 0: from here on calls of tasks make tasks.
    Start,
    /// 1: all tasks are waited for, and calls make no more.
    Finish,
    /// 2: all tasks are waited for.
    Barrier,
    /// 3, `address ->`: the object at an address is waited for.
    Wait,
    /// 4: what is asked from here on stands in the expressions of a wait, and so does a fault.
    InWait,
    /// 5: what is asked from here on stands in a dimension, and so does a fault.
    InDimension,
    /// 6: from here on all is as it is elsewhere.
    Outside,
    /// 7, `-> 1` where calls of tasks make tasks, else 0.
    Started,
}

/// What an instruction does. `a, b -> c` shows the cells that it takes, the top last, and those that it gives. A value of a type
/// is kept extended to 64 bits, by its sign where it has one. An address is a cell modulo 2^32.
#[derive(Clone, Copy, PartialEq, Eq)]
pub enum Op {
    /// `-> V`: pushes a number, as its two's complement.
    Push(i64),
    /// `a ->`: drops the top.
    Drop,
    /// `-> a`: copies the cell so many places below the top onto the top.
    Dup(u32),
    /// `a, b -> b, a`.
    Swap,
    /// `-> address`: the address so many bytes behind the frame's base.
    Frame(u32),
    /// `address -> v`: loads a byte, without sign.
    Load8u,
    /// `address -> v`: loads a byte, extended by its sign.
    Load8s,
    /// `address -> v`: loads 2 bytes, without sign.
    Load16u,
    /// `address -> v`: loads 2 bytes, extended by their sign.
    Load16s,
    /// `address -> v`: loads 4 bytes, without sign.
    Load32u,
    /// `address -> v`: loads 4 bytes, extended by their sign.
    Load32s,
    /// `address -> v`: loads 8 bytes.
    Load64,
    /// `address, v -> v`: stores the low byte.
    Store8,
    /// `address, v -> v`: stores the low 2 bytes.
    Store16,
    /// `address, v -> v`: stores the low 4 bytes.
    Store32,
    /// `address, v -> v`: stores all 8 bytes.
    Store64,
    /// `a, b -> a + b` modulo 2^64.
    Add,
    /// `a, b -> a - b` modulo 2^64.
    Sub,
    /// `a, b -> a * b` modulo 2^64.
    Mul,
    /// `a, b -> a & b`.
    And,
    /// `a, b -> a | b`.
    Or,
    /// `a, b -> a ^ b`.
    Xor,
    /// `a -> -a` modulo 2^64.
    Neg,
    /// `a -> ~a`.
    Not,
    /// `a, b -> a / b`, signed, toward zero. DivideByZero where b is 0.
    Divs,
    /// `a, b -> a / b` without signs. DivideByZero where b is 0.
    Divu,
    /// `a, b -> a % b`, signed, of the division toward zero. DivideByZero where b is 0.
    Rems,
    /// `a, b -> a % b` without signs. DivideByZero where b is 0.
    Remu,
    /// `a, b -> a << b`, the count modulo the width.
    Shl(ShiftWidth),
    /// `a, b -> a >> b`, signed, the count modulo the width.
    Shrs(ShiftWidth),
    /// `a, b -> a >> b` without sign, the count modulo the width.
    Shru(ShiftWidth),
    /// `a, b -> 1` where they are equal, else 0.
    Eq,
    /// `a, b -> 1` where they differ, else 0.
    Ne,
    /// `a, b -> 1` where a is below b, signed, else 0.
    Lts,
    /// `a, b -> 1` where a is below b without signs, else 0.
    Ltu,
    /// `a -> a` narrowed.
    Conv(Narrow),
    /// Goes on at this place of the body.
    Jump(u32),
    /// `a ->`: goes on at this place where a is 0.
    Jumpz(u32),
    /// Takes the arguments of the function of this number, the last on top, and gives what it returns with. Takes a unit.
    Call(u32),
    /// `a ->`: leaves the function with the top.
    Ret,
    /// Takes a unit: the body of a loop is entered.
    Turn,
    /// Takes the arguments of the task of this number, and above them its dimensions, and gives 0: makes a task of the call.
    Submit(u32),
    /// Tells the runtime something, or asks it.
    Mark(Mark),
    /// `a -> n`: writes the top, and gives the number of bytes.
    Out(Conversion),
    /// `-> byte`: takes a byte of the input; at its end gives -1.
    In,
    /// `n -> address`: takes so many bytes of the heap, and gives their address, or 0.
    Malloc,
}

/// An instruction with the line of the program's text that it comes from.
#[derive(Clone, Copy)]
pub struct Instr {
    pub op: Op,
    pub line: Line,
}

/// What a task is given for one of its parameters.
#[derive(Clone, Copy)]
pub enum ArgShape {
    /// An integer.
    Scalar,
    /// A pointer to memory that the task may use.
    Window {
        /// What the task does with it.
        direction: Direction,
        /// The bytes of an element, at least 1.
        element: u32,
        /// How many dimensions `submit` takes for it.
        dims: u32,
        /// Whether the dimensions are rows, width and stride.
        strided: bool,
    },
}

/// What a call of a task is.
#[derive(Drop)]
pub struct TaskShape {
    /// Whether it goes before others.
    pub high: bool,
    /// What it is given, one for each parameter.
    pub args: Items<ArgShape>,
}

/// A function. Its parameters lie at the front of its frame, each in 8 bytes.
#[derive(Drop)]
pub struct Function {
    pub name: Name,
    /// The width of each parameter.
    pub params: Items<Width>,
    /// The bytes of its frame.
    pub frame: u32,
    /// What its calls are, where it is a task.
    pub task: Option<TaskShape>,
    /// Its instructions.
    pub body: Items<Instr>,
}

/// First bytes of globals.
#[derive(Drop)]
pub struct Datum {
    /// The address of the first of them.
    pub address: u32,
    pub bytes: Bytes,
}

/// A program's code.
#[derive(Drop)]
pub struct Code {
    /// Where the globals end, which begin at 4,096. All their bytes that aren't in `datums` are 0 at first.
    pub globals_end: u32,
    pub datums: Items<Datum>,
    pub functions: Items<Function>,
    /// The number of main among the functions.
    pub main: u32,
}

impl Function {
    /// The instruction at a place of the body.
    #[inline]
    pub fn instr_at(&self, place: usize) -> &Instr
        requires { place < length self.now.body }
        ensures is { slice_get (routine self.now).body place ≡ Some result.now }
        ensures counted { place + 1 < 2 ^ 64 }
    {
        &self.body.as_slice()[place]
    }
}

impl Code {
    /// The function of a number.
    #[inline]
    pub fn function(&self, number: u32) -> &Function
        requires { (f : Routine) × (slice_get (code_of self.now).functions number ≡ Some f) }
        ensures { slice_get (code_of self.now).functions number ≡ Some (routine result.now) }
    {
        &self.functions.as_slice()[number as usize]
    }
}
