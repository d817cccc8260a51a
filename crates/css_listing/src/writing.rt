//! Writing a listing.
ghost use Rattle.std.specs.Prelude.{◌≡◌, ◌∷◌, ◌++◌, codes, map, OnOk, IfOk, string_bytes};
ghost use Rattle.std.specs.List.{flat_map, join_with_byte};
ghost use Rattle.css_listing.specs.declared.listing_line.ListingLine.TheVariants as lines;
ghost use Rattle.css_listing.specs.Lines.{op_name, op_operand, shift_word, narrow_word, mark_word, out_word, direction_word, part_word, high_word, width_word, line_text, task_lines, function_lines, listing};

use css_base::{Direction, NoMemory};
use css_isa::{
    ArgShape, Code, Conversion, Datum, Function, Instr, Mark, Narrow, Op, ShiftWidth, TaskShape,
    Width,
};
use std::alloc::Global;

/// The listing of a code. Where no datum is empty and each strided window has three dimensions it is the one spelling of the code,
/// which `read_listing` reads. The only error is want of memory.
pub fn listing(alloc: Global, code: &Code) -> Result<Vec<u8>, NoMemory>
    ensures { IfOk result (λ text. text.items ≡ listing code.now) }
{
    let globals_end = code.globals_end;
    let main = code.main;
    let mut text = format!(in alloc; "code {globals_end} {main}\n")?.into_bytes();
    put_datums(alloc, &mut text, code.datums.as_slice())?;
    put_functions(alloc, &mut text, code.functions.as_slice())?;
    Ok(text)
}

/// Writes the lines of globals' first bytes.
fn put_datums(alloc: Global, text: &mut Vec<u8>, datums: &[Datum]) -> Result<(), NoMemory>
    ensures { OnOk result (text.new.items ≡ text.old.items ++ flat_map line_text (map lines.Data datums.now)) }
{
    for datum in datums {
        let line = datum_text(alloc, datum)?;
        text.extend_from_slice(line.as_bytes())?;
    }
    Ok(())
}

/// The line of some first bytes.
fn datum_text(alloc: Global, datum: &Datum) -> Result<String, NoMemory>
    ensures { IfOk result (λ text. string_bytes text ≡ line_text (lines.Data datum.now)) }
{
    let address = datum.address;
    let bytes = hex::encode(alloc, datum.bytes.as_slice())?;
    Ok(format!(in alloc; "data {address} {bytes}\n")?)
}

/// Writes the lines of functions.
fn put_functions(alloc: Global, text: &mut Vec<u8>, functions: &[Function]) -> Result<(), NoMemory>
    ensures { OnOk result (text.new.items ≡ text.old.items ++ flat_map line_text (flat_map function_lines functions.now)) }
{
    for function in functions {
        put_function(alloc, text, function)?;
    }
    Ok(())
}

/// Writes the lines of a function.
fn put_function(alloc: Global, text: &mut Vec<u8>, function: &Function) -> Result<(), NoMemory>
    ensures { OnOk result (text.new.items ≡ text.old.items ++ flat_map line_text (function_lines function.now)) }
{
    put_opening(alloc, text, function)?;
    put_task(alloc, text, &function.task)?;
    put_instrs(alloc, text, function.body.as_slice())
}

/// Writes the first line of a function.
#[tactic(auto, using(crate::proofs::Written::function_line))]
fn put_opening(alloc: Global, text: &mut Vec<u8>, function: &Function) -> Result<(), NoMemory>
    ensures { OnOk result (text.new.items ≡ text.old.items ++ line_text (lines.Opens function.now.name function.now.frame function.now.params)) }
{
    let frame = format!(in alloc; " {}", function.frame)?;
    text.extend_from_slice(b"function ")?;
    text.extend_from_slice(function.name.as_slice())?;
    text.extend_from_slice(frame.as_bytes())?;
    put_widths(text, function.params.as_slice())?;
    text.push(b'\n')?;
    Ok(())
}

/// Writes a space and a word for each width.
fn put_widths(text: &mut Vec<u8>, widths: &[Width]) -> Result<(), NoMemory>
    ensures { OnOk result (text.new.items ≡ text.old.items ++ flat_map (λ w. 32 ∷ w) (map width_word widths.now)) }
{
    for width in widths {
        text.push(b' ')?;
        text.extend_from_slice(width_word(*width).as_bytes())?;
    }
    Ok(())
}

/// Writes the line of a task, where the function is one.
fn put_task(alloc: Global, text: &mut Vec<u8>, task: &Option<TaskShape>) -> Result<(), NoMemory>
    ensures { OnOk result (text.new.items ≡ text.old.items ++ flat_map line_text (task_lines task.now)) }
{
    let Some(shape) = task else {
        return Ok(());
    };
    put_shape(alloc, text, shape)
}

/// Writes the line of a task.
#[tactic(auto, using(crate::proofs::Written::task_line))]
fn put_shape(alloc: Global, text: &mut Vec<u8>, shape: &TaskShape) -> Result<(), NoMemory>
    ensures { OnOk result (text.new.items ≡ text.old.items ++ line_text (lines.Task shape.now)) }
{
    text.extend_from_slice(b"task ")?;
    text.extend_from_slice(high_word(shape.high).as_bytes())?;
    put_parts(alloc, text, shape.args.as_slice())?;
    text.push(b'\n')?;
    Ok(())
}

/// Writes a space and a word for each part.
fn put_parts(alloc: Global, text: &mut Vec<u8>, parts: &[ArgShape]) -> Result<(), NoMemory>
    ensures { OnOk result (text.new.items ≡ text.old.items ++ flat_map (λ w. 32 ∷ w) (map part_word parts.now)) }
{
    for part in parts {
        let word = part_text(alloc, *part)?;
        text.push(b' ')?;
        text.extend_from_slice(word.as_bytes())?;
    }
    Ok(())
}

/// The word of a part.
fn part_text(alloc: Global, part: ArgShape) -> Result<String, NoMemory>
    ensures { IfOk result (λ text. string_bytes text ≡ part_word part) }
{
    match part {
        ArgShape::Scalar => Ok(format!(in alloc; "s")?),
        ArgShape::Window {
            direction,
            element,
            dims,
            strided,
        } => {
            let direction = direction_word(direction);
            if strided {
                Ok(format!(in alloc; "{direction}:{element}:s")?)
            } else {
                Ok(format!(in alloc; "{direction}:{element}:{dims}")?)
            }
        }
    }
}

/// Writes the lines of instructions.
fn put_instrs(alloc: Global, text: &mut Vec<u8>, instrs: &[Instr]) -> Result<(), NoMemory>
    ensures { OnOk result (text.new.items ≡ text.old.items ++ flat_map line_text (map lines.Instr instrs.now)) }
{
    for instr in instrs {
        put_instr(alloc, text, *instr)?;
    }
    Ok(())
}

/// Writes the line of an instruction.
fn put_instr(alloc: Global, text: &mut Vec<u8>, instr: Instr) -> Result<(), NoMemory>
    ensures { OnOk result (text.new.items ≡ text.old.items ++ line_text (lines.Instr instr)) }
{
    let line = instr.line.number();
    let name = op_name(instr.op);
    let front = format!(in alloc; "i {line} {name}")?;
    text.extend_from_slice(front.as_bytes())?;
    put_operand(alloc, text, instr.op)?;
    text.push(b'\n')?;
    Ok(())
}

/// Writes a space and the operand, where there is one.
fn put_operand(alloc: Global, text: &mut Vec<u8>, op: Op) -> Result<(), NoMemory>
    ensures { OnOk result (text.new.items ≡ text.old.items ++ flat_map (λ w. 32 ∷ w) (op_operand op)) }
{
    match op {
        Op::Push(number) => put_text(text, &format!(in alloc; "{number}")?),
        Op::Dup(number)
        | Op::Frame(number)
        | Op::Jump(number)
        | Op::Jumpz(number)
        | Op::Call(number)
        | Op::Submit(number) => put_text(text, &format!(in alloc; "{number}")?),
        Op::Shl(width) | Op::Shrs(width) | Op::Shru(width) => put_text(text, shift_word(width)),
        Op::Conv(to) => put_text(text, narrow_word(to)),
        Op::Mark(mark) => put_text(text, mark_word(mark)),
        Op::Out(conversion) => put_text(text, out_word(conversion)),
        _ => Ok(()),
    }
}

/// Writes a space and a word.
fn put_text(text: &mut Vec<u8>, word: &str) -> Result<(), NoMemory>
    ensures { OnOk result (text.new.items ≡ text.old.items ++ 32 ∷ word.now) }
{
    text.push(b' ')?;
    text.extend_from_slice(word.as_bytes())?;
    Ok(())
}

fn op_name(op: Op) -> &'static str
    ensures { result.now ≡ op_name op }
{
    match op {
        Op::Push(_) => "push",
        Op::Drop => "drop",
        Op::Dup(_) => "dup",
        Op::Swap => "swap",
        Op::Frame(_) => "frame",
        Op::Load8u => "load8u",
        Op::Load8s => "load8s",
        Op::Load16u => "load16u",
        Op::Load16s => "load16s",
        Op::Load32u => "load32u",
        Op::Load32s => "load32s",
        Op::Load64 => "load64",
        Op::Store8 => "store8",
        Op::Store16 => "store16",
        Op::Store32 => "store32",
        Op::Store64 => "store64",
        Op::Add => "add",
        Op::Sub => "sub",
        Op::Mul => "mul",
        Op::And => "and",
        Op::Or => "or",
        Op::Xor => "xor",
        Op::Neg => "neg",
        Op::Not => "not",
        Op::Divs => "divs",
        Op::Divu => "divu",
        Op::Rems => "rems",
        Op::Remu => "remu",
        Op::Shl(_) => "shl",
        Op::Shrs(_) => "shrs",
        Op::Shru(_) => "shru",
        Op::Eq => "eq",
        Op::Ne => "ne",
        Op::Lts => "lts",
        Op::Ltu => "ltu",
        Op::Conv(_) => "conv",
        Op::Jump(_) => "jump",
        Op::Jumpz(_) => "jumpz",
        Op::Call(_) => "call",
        Op::Ret => "ret",
        Op::Turn => "turn",
        Op::Submit(_) => "submit",
        Op::Mark(_) => "mark",
        Op::Out(_) => "out",
        Op::In => "in",
        Op::Malloc => "malloc",
    }
}

fn shift_word(width: ShiftWidth) -> &'static str
    ensures { result.now ≡ shift_word width }
{
    match width {
        ShiftWidth::W32 => "32",
        ShiftWidth::W64 => "64",
    }
}

fn narrow_word(to: Narrow) -> &'static str
    ensures { result.now ≡ narrow_word to }
{
    match to {
        Narrow::U8 => "u8",
        Narrow::S8 => "s8",
        Narrow::U16 => "u16",
        Narrow::S16 => "s16",
        Narrow::U32 => "u32",
        Narrow::S32 => "s32",
    }
}

fn mark_word(mark: Mark) -> &'static str
    ensures { result.now ≡ mark_word mark }
{
    match mark {
        Mark::Start => "0",
        Mark::Finish => "1",
        Mark::Barrier => "2",
        Mark::Wait => "3",
        Mark::InWait => "4",
        Mark::InDimension => "5",
        Mark::Outside => "6",
        Mark::Started => "7",
    }
}

fn out_word(conversion: Conversion) -> &'static str
    ensures { result.now ≡ out_word conversion }
{
    match conversion {
        Conversion::Char => "c",
        Conversion::Signed => "d",
        Conversion::Unsigned => "u",
        Conversion::Hexadecimal => "x",
        Conversion::Wide => "q",
    }
}

fn direction_word(direction: Direction) -> &'static str
    ensures { result.now ≡ direction_word direction }
{
    match direction {
        Direction::In => "in",
        Direction::Out => "out",
        Direction::InOut => "inout",
    }
}

fn high_word(high: bool) -> &'static str
    ensures { result.now ≡ high_word high }
{
    if high { "high" } else { "plain" }
}

fn width_word(width: Width) -> &'static str
    ensures { result.now ≡ width_word width }
{
    match width {
        Width::W8 => "8",
        Width::W16 => "16",
        Width::W32 => "32",
        Width::W64 => "64",
    }
}
