//! Structured code is put together.
ghost use Rattle.std.specs.Prelude.{◌≡◌, [], ◌∷◌, ◌++◌, map, All, IfOk, OnOk};
ghost use Rattle.css_blocks.specs.Pieces as pieces;
ghost use Rattle.css_blocks.specs.Parts.{shape, IsSized};

use crate::lowering::size_of;
use crate::part::{Part, Way};
use css_base::{Line, NoMemory};
use std::alloc::Global;

/// One more part. The only error is want of memory.
pub fn add(out: &mut Vec<Part>, part: Part) -> Result<(), NoMemory>
    requires begun { All IsSized out.old.items }
    requires part { IsSized part }
    ensures sized { OnOk result (All IsSized out.new.items) }
    ensures adds { OnOk result (map shape out.new.items ≡ map shape out.old.items ++ shape part ∷ []) }
{
    out.push(part)?;
    Ok(())
}

/// Parts one after another.
pub fn row(parts: Vec<Part>) -> Part
    requires { All IsSized parts.items }
    ensures sized { IsSized result }
    ensures makes { shape result ≡ pieces.row (map shape parts.items) }
{
    Part::Row(parts)
}

/// The first where the top isn't 0, and else the second. The only error is want of memory, as in all of these.
pub fn choice(alloc: Global, line: Line, yes: Part, no: Part) -> Result<Part, NoMemory>
    requires yes { IsSized yes }
    requires no { IsSized no }
    ensures sized { IfOk result IsSized }
    ensures makes { IfOk result (λ p. shape p ≡ pieces.Choice line (shape yes) (shape no)) }
{
    let yes_size = size_of(&yes)?;
    let no_size = size_of(&no)?;
    Ok(Part::Choice(
        line,
        yes_size,
        Box::new(alloc, yes)?,
        no_size,
        Box::new(alloc, no)?,
    ))
}

/// A part where the top isn't 0.
pub fn when(alloc: Global, line: Line, yes: Part) -> Result<Part, NoMemory>
    requires { IsSized yes }
    ensures sized { IfOk result IsSized }
    ensures makes { IfOk result (λ p. shape p ≡ pieces.When line (shape yes)) }
{
    let size = size_of(&yes)?;
    Ok(Part::When(line, size, Box::new(alloc, yes)?))
}

/// The first, a turn, the second, and again.
pub fn looped(alloc: Global, line: Line, first: Part, second: Part) -> Result<Part, NoMemory>
    requires first { IsSized first }
    requires second { IsSized second }
    ensures sized { IfOk result IsSized }
    ensures makes { IfOk result (λ p. shape p ≡ pieces.Loop line (shape first) (shape second)) }
{
    let first_size = size_of(&first)?;
    let second_size = size_of(&second)?;
    Ok(Part::Loop(
        line,
        first_size,
        Box::new(alloc, first)?,
        second_size,
        Box::new(alloc, second)?,
    ))
}

/// A part of which one way out leads to its end.
pub fn caught(alloc: Global, way: Way, inside: Part) -> Result<Part, NoMemory>
    requires { IsSized inside }
    ensures sized { IfOk result IsSized }
    ensures makes { IfOk result (λ p. shape p ≡ pieces.Catch way (shape inside)) }
{
    let size = size_of(&inside)?;
    Ok(Part::Catch(way, size, Box::new(alloc, inside)?))
}

/// A loop that tests before each turn of its body, and takes a step behind it. The test gives a cell; `continue` leads to the step.
pub fn while_loop(
    alloc: Global,
    line: Line,
    test: Part,
    body: Part,
    step: Part,
) -> Result<Part, NoMemory>
    requires test { IsSized test }
    requires body { IsSized body }
    requires step { IsSized step }
    ensures sized { IfOk result IsSized }
    ensures makes { IfOk result (λ p. shape p ≡ pieces.while_loop line (shape test) (shape body) (shape step)) }
{
    let turn = caught(alloc, Way::Continues, body)?;
    let mut first = Vec::new(alloc);
    add(&mut first, test)?;
    add(&mut first, Part::Unless(line, Way::Breaks))?;
    let mut second = Vec::new(alloc);
    add(&mut second, turn)?;
    add(&mut second, step)?;
    let inside = looped(alloc, line, row(first), row(second))?;
    caught(alloc, Way::Breaks, inside)
}

/// A loop that takes a step and tests behind each turn of its body.
pub fn do_loop(
    alloc: Global,
    line: Line,
    body: Part,
    step: Part,
    test: Part,
) -> Result<Part, NoMemory>
    requires body { IsSized body }
    requires step { IsSized step }
    requires test { IsSized test }
    ensures sized { IfOk result IsSized }
    ensures makes { IfOk result (λ p. shape p ≡ pieces.do_loop line (shape body) (shape step) (shape test)) }
{
    let turn = caught(alloc, Way::Continues, body)?;
    let mut second = Vec::new(alloc);
    add(&mut second, turn)?;
    add(&mut second, step)?;
    add(&mut second, test)?;
    add(&mut second, Part::Unless(line, Way::Breaks))?;
    let inside = looped(alloc, line, row(Vec::new(alloc)), row(second))?;
    caught(alloc, Way::Breaks, inside)
}
