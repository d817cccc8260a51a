//! From structured code to instructions, in one pass in which no jump is written back.
ghost use Rattle.std.specs.Prelude.{◌≡◌, ◌+◌, [], ◌∷◌, ◌++◌, length, IfOk, OnOk};
ghost use Rattle.css_blocks.specs.Pieces.{at_way, aimed};
ghost use Rattle.css_blocks.specs.Layout.{size, lower, ended};
ghost use Rattle.css_blocks.specs.Parts.{shape, IsSized, ways_of};

use crate::part::{Part, Targets, Way};
use css_base::{Line, NoMemory};
use css_isa::{Instr, Op};
use std::alloc::Global;

// A sum. No memory holds so many instructions where it has no place.
fn sum(a: u32, b: u32) -> Result<u32, NoMemory>
    ensures { IfOk result (λ n. n ≡ a + b) }
{
    a.checked_add(b).ok_or(NoMemory)
}

/// How many instructions a part makes. Looks into rows alone. The only error is want of memory, where there would be 2^32 of them.
pub fn size_of(part: &Part) -> Result<u32, NoMemory>
    requires { IsSized part.now }
    ensures { IfOk result (λ n. n ≡ size (shape part.now)) }
{
    match part {
        Part::Row(parts) => {
            let mut total = 0;
            for part in parts {
                total = sum(total, size_of(part)?)?;
            }
            Ok(total)
        }
        Part::Choice(_, yes, _, no, _) => sum(sum(*yes, *no)?, 2),
        Part::When(_, yes, _) => sum(*yes, 1),
        Part::Loop(_, first, _, second, _) => sum(sum(*first, *second)?, 2),
        Part::Catch(_, inside, _) => Ok(*inside),
        _ => Ok(1),
    }
}

impl Targets {
    /// The place to which a way out leads.
    pub fn at(self, way: Way) -> u32
        ensures { result ≡ at_way (ways_of self) way }
    {
        match way {
            Way::Breaks => self.breaks,
            Way::Continues => self.continues,
        }
    }

    /// With another place for one way out.
    pub fn aimed(self, way: Way, place: u32) -> Targets
        ensures { ways_of result ≡ aimed way place (ways_of self) }
    {
        match way {
            Way::Breaks => Targets {
                breaks: place,
                continues: self.continues,
            },
            Way::Continues => Targets {
                breaks: self.breaks,
                continues: place,
            },
        }
    }
}

// The place behind all instructions.
fn place(code: &Vec<Instr>) -> Result<u32, NoMemory>
    ensures { IfOk result (λ n. n ≡ length code.now.items) }
{
    u32::try_from(code.len()).map_err(|_| NoMemory)
}

// One more instruction.
fn put(code: &mut Vec<Instr>, line: Line, op: Op) -> Result<(), NoMemory>
    ensures { OnOk result (code.new.items ≡ code.old.items ++ record { op = op; line = line } ∷ []) }
{
    code.push(Instr { op, line })?;
    Ok(())
}

/// Adds the instructions of a part, whose ways out lead to these places. The only error is want of memory, also where a place would
/// be 2^32 or more.
pub fn lower(code: &mut Vec<Instr>, part: &Part, targets: Targets) -> Result<(), NoMemory>
    requires { IsSized part.now }
    ensures { OnOk result (code.new.items ≡ code.old.items ++ lower (shape part.now) (length code.old.items) (ways_of targets)) }
{
    match part {
        Part::Row(parts) => {
            for part in parts {
                lower(code, part, targets)?;
            }
            Ok(())
        }
        Part::Do(line, op) => put(code, *line, *op),
        Part::Choice(line, yes_size, yes, no_size, no) => {
            let second = sum(sum(place(code)?, 2)?, *yes_size)?;
            let end = sum(second, *no_size)?;
            put(code, *line, Op::Jumpz(second))?;
            lower(code, yes, targets)?;
            put(code, *line, Op::Jump(end))?;
            lower(code, no, targets)
        }
        Part::When(line, size, yes) => {
            let end = sum(sum(place(code)?, 1)?, *size)?;
            put(code, *line, Op::Jumpz(end))?;
            lower(code, yes, targets)
        }
        Part::Loop(line, _, first, _, second) => {
            let start = place(code)?;
            lower(code, first, targets)?;
            put(code, *line, Op::Turn)?;
            lower(code, second, targets)?;
            put(code, *line, Op::Jump(start))
        }
        Part::Catch(way, size, inside) => {
            let end = sum(place(code)?, *size)?;
            lower(code, inside, targets.aimed(*way, end))
        }
        Part::Exit(line, way) => put(code, *line, Op::Jump(targets.at(*way))),
        Part::Unless(line, way) => put(code, *line, Op::Jumpz(targets.at(*way))),
        Part::Invoke(line, function, _) => put(code, *line, Op::Call(*function)),
        Part::Submit(line, function, _, _) => put(code, *line, Op::Submit(*function)),
        Part::Leave(line) => put(code, *line, Op::Ret),
    }
}

/// The instructions of a function's part, behind which it returns 0 in a line. The only error is want of memory.
pub fn body_of(alloc: Global, part: &Part, end: Line) -> Result<Vec<Instr>, NoMemory>
    requires { IsSized part.now }
    ensures { IfOk result (λ code. code.items ≡ ended (shape part.now) end) }
{
    let behind = size_of(part)?;
    let targets = Targets {
        breaks: behind,
        continues: behind,
    };
    let mut code = Vec::new(alloc);
    lower(&mut code, part, targets)?;
    put(&mut code, end, Op::Push(0))?;
    put(&mut code, end, Op::Ret)?;
    Ok(code)
}
