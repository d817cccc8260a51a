//! Types, flat.
ghost use Rattle.std.specs.Prelude.{◌≡◌, ◌≤◌, ◌+◌, ℕ, List, IfOk, IfErr, None};
ghost use Rattle.css_type_table.specs.Lists.{Lists};
ghost use Rattle.css_type_table.specs.Flat.{ctype, IsOf, IsPlain};
ghost use Rattle.css_types.specs.Types as types;
ghost use Rattle.css_types.specs.Shapes as shapes;

use css_base::{IntType, NoMemory};
use css_types::Base;

/// A type: pointers to an array of elements, which are pointers to a base. The lengths of the array and of the arrays in it are a row of a
/// `TypeTable`; without a row there is no array.
#[derive(Clone, Copy)]
pub struct CType {
    pub base: Base,
    /// The pointers that an element is.
    pub stars: u32,
    pub lengths: Option<u32>,
    /// The pointers to the array.
    pub pointers: u32,
}

/// The outermost part of a type, with what is behind it.
#[derive(Clone, Copy)]
pub enum Layer {
    Void,
    Integer(IntType),
    Pointer(CType),
    Array { count: u32, of: CType },
}

impl CType {
    /// Void, or an integer type.
    #[tactic(auto, unfolding(crate::specs::Flat::ctype))]
    pub fn of_base(base: Base) -> CType
        ensures value { (lists : Lists) → ctype lists result ≡ shapes.base base }
        ensures within { (lists : Lists) → IsOf lists result }
        ensures plain { IsPlain result }
    {
        CType {
            base,
            stars: 0,
            lengths: None,
            pointers: 0,
        }
    }

    /// An integer type.
    pub fn integer(kind: IntType) -> CType
        ensures value { (lists : Lists) → ctype lists result ≡ types.Integer kind }
        ensures within { (lists : Lists) → IsOf lists result }
        ensures plain { IsPlain result }
    {
        CType::of_base(Base::Integer(kind))
    }

    #[tactic(auto, using(crate::proofs::Layers::pointed_once_more), unfolding(crate::specs::Flat::ctype))]
    /// A pointer to the type, where its pointers can be counted.
    pub fn pointer(self) -> Result<CType, NoMemory>
        ensures value { IfOk result (λ p. (lists : Lists) → ctype lists p ≡ types.Pointer (ctype lists self)) }
        ensures within { IfOk result (λ p. (lists : Lists) → IsOf lists self → IsOf lists p) }
        ensures plain { IfOk result (λ p. IsPlain self → self.lengths ≡ None → IsPlain p) }
        ensures lengths { IfOk result (λ p. p.lengths ≡ self.lengths) }
        ensures many { IfErr result (λ _. 4294967295 ≤ self.stars + self.pointers) }
    {
        if self.lengths.is_none() && self.pointers == 0 {
            let stars = more(self.stars)?;
            return Ok(CType { stars, ..self });
        }
        let pointers = more(self.pointers)?;
        Ok(CType { pointers, ..self })
    }
}

/// One pointer more, where it can be counted.
fn more(count: u32) -> Result<u32, NoMemory>
    ensures ok { IfOk result (λ n. n ≡ count + 1) }
    ensures many { IfErr result (λ _. 4294967295 ≤ count) }
{
    match count.checked_add(1) {
        Some(n) => Ok(n),
        None => Err(NoMemory),
    }
}
