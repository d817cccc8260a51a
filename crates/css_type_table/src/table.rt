//! Types with their table.
ghost use Rattle.std.specs.Prelude.{◌≡◌, ◌<◌, ◌≤◌, ◌+◌, ◌==◌, ◌&&◌, [], ◌∷◌, length, get_or, map, IfOk, IfSome, IfNone};
ghost use Rattle.css_types.specs.Types as types;
ghost use Rattle.css_types.specs.Types.{biggest};
ghost use Rattle.css_type_table.specs.declared.ctype.CType.{CType as FlatType};
ghost use Rattle.css_type_table.specs.Lists.{Lists, list_at, IsRow, IsOnce, elements_of};
ghost use Rattle.css_type_table.specs.Flat.{ctype, element, layered, IsOf, IsPlain, IsLayerOf};
ghost use Rattle.css_types.specs.Shapes as shapes;

use crate::ctype::{CType, Layer};
use crate::rows::{Row, Rows};
use css_base::{IntType, NoMemory};
use css_num::bits;
use css_types::Base;
use std::alloc::Global;
use std::marker::Model;

/// The most bytes of a type.
const BIGGEST: u64 = 1_073_741_824;

/// The lengths of arrays, which types name. It only grows. Contracts see the lists of lengths, row by row.
#[derive(Drop)]
pub struct TypeTable {
    rows: Rows,
}

impl Model for TypeTable {
    ghost use Rattle.std.specs.Prelude.{ℕ, List};

    ghost Value = { List (List ℕ) };

    ghost view = { λ t. t.rows };
}

// ---- what a type is

impl TypeTable {
    /// No lengths. Takes no memory.
    pub fn new(alloc: Global) -> TypeTable
        ensures { result ≡ [] }
    {
        TypeTable {
            rows: Rows::new(alloc),
        }
    }

    /// The outermost part of a type.
    #[tactic(auto, using(crate::proofs::Layers::ctype_pointer, crate::proofs::Layers::ctype_array))]
    pub fn layer(&self, t: CType) -> Layer
        ensures value { ctype self.now t ≡ layered self.now result }
        ensures within { IsOf self.now t → IsLayerOf self.now result }
    {
        if t.pointers > 0 {
            return Layer::Pointer(CType {
                pointers: t.pointers - 1,
                ..t
            });
        }
        match self.row(t) {
            Some(row) => Layer::Array {
                count: row.count,
                of: CType {
                    lengths: row.rest,
                    ..t
                },
            },
            None => element_layer(t),
        }
    }

    /// The row of a type, if it has one.
    fn row(&self, t: CType) -> Option<Row>
        ensures row { IfSome result (λ r. list_at self.now t.lengths ≡ r.count ∷ list_at self.now r.rest) }
        ensures rest { IfSome result (λ r. IsRow self.now r.rest) }
        ensures elements { IfSome result (λ r. r.elements ≡ elements_of (list_at self.now t.lengths)) }
        ensures some { IfSome result (λ r. 0 < r.elements) }
        ensures few { IfSome result (λ r. r.elements ≤ biggest) }
        ensures none { IfNone result (list_at self.now t.lengths ≡ []) }
    {
        self.rows.at(t.lengths?)
    }

    /// The type of its values in the core; that of a void call is never used.
    pub fn core_type(&self, t: CType) -> IntType
        ensures { result ≡ types.core_type (ctype self.now t) }
    {
        match self.layer(t) {
            Layer::Void => IntType::Int,
            Layer::Integer(kind) => kind,
            Layer::Pointer(_) | Layer::Array { .. } => IntType::UInt,
        }
    }

    /// The bytes of an object of the type.
    #[tactic(auto, using(crate::proofs::Sizes::size_pointer, crate::proofs::Sizes::size_array))]
    pub fn size_of(&self, t: CType) -> u64
        ensures size { result ≡ types.size_of (ctype self.now t) }
        ensures few { result ≤ 8589934592 }
    {
        if t.pointers > 0 {
            return 4;
        }
        u64::from(self.elements(t)) * element_size(t)
    }

    /// The elements of a type's array, of which a type that is no array is one.
    fn elements(&self, t: CType) -> u32
        ensures count { result ≡ elements_of (list_at self.now t.lengths) }
        ensures some { 0 < result }
        ensures few { result ≤ biggest }
    {
        match self.row(t) {
            Some(row) => row.elements,
            None => 1,
        }
    }

    pub fn is_void(&self, t: CType) -> bool
        ensures { result ≡ types.is_void (ctype self.now t) }
    {
        matches!(self.layer(t), Layer::Void)
    }

    pub fn is_integer(&self, t: CType) -> bool
        ensures { result ≡ types.is_integer (ctype self.now t) }
    {
        matches!(self.layer(t), Layer::Integer(_))
    }

    pub fn is_pointer(&self, t: CType) -> bool
        ensures { result ≡ types.is_pointer (ctype self.now t) }
    {
        matches!(self.layer(t), Layer::Pointer(_))
    }

    /// Whether it is an integer type or a pointer.
    pub fn is_scalar(&self, t: CType) -> bool
        ensures { result ≡ types.is_scalar (ctype self.now t) }
    {
        matches!(self.layer(t), Layer::Integer(_) | Layer::Pointer(_))
    }

    pub fn is_array(&self, t: CType) -> bool
        ensures { result ≡ types.is_array (ctype self.now t) }
    {
        matches!(self.layer(t), Layer::Array { .. })
    }

    /// Whether it is char or signed char.
    pub fn is_character(&self, t: CType) -> bool
        ensures { result ≡ types.is_character (ctype self.now t) }
    {
        matches!(
            self.layer(t),
            Layer::Integer(IntType::UChar | IntType::SChar)
        )
    }

    /// Whether two types are one, in one step.
    pub fn is_same(&self, a: CType, b: CType) -> bool
        ensures { result ≡ types.is_same (ctype self.now a) (ctype self.now b) }
    {
        match (self.number(a), self.number(b)) {
            (None, None) => is_same_plain(a, b),
            (Some(i), Some(j)) => is_same_listed(i, j, a, b),
            _ => false,
        }
    }

    /// The number of a type's row, if it has one.
    fn number(&self, t: CType) -> Option<u32>
        ensures row { list_at self.now result ≡ list_at self.now t.lengths }
        ensures within { IsRow self.now result }
        ensures some { IfSome result (λ n. 0 < length (get_or self.now n [])) }
        ensures none { IfNone result (list_at self.now t.lengths ≡ []) }
        ensures once { IfSome result (λ _. IsOnce self.now) }
    {
        let number = t.lengths?;
        let _row = self.rows.at(number)?;
        Some(number)
    }

    /// Whether two lists of types are one.
    pub fn are_same(&self, all: &[CType], others: &[CType]) -> bool
        ensures { result ≡ types.are_same (map (ctype self.now) all.now) (map (ctype self.now) others.now) }
    {
        let mut rest = others;
        for a in all {
            let Some((b, more)) = rest.split_first() else {
                return false;
            };
            if !self.is_same(*a, *b) {
                return false;
            }
            rest = more;
        }
        rest.is_empty()
    }
}

// ---- arrays

impl TypeTable {
    /// An array of so many elements, where it isn't too big. What stood for a type stands for it still, also after an error.
    pub fn array_of(&mut self, count: u64, of: CType) -> Result<Option<CType>, NoMemory>
        requires plain { IsPlain of }
        requires object { 0 < types.size_of (ctype self.old of) }
        requires some { 0 < count }
        ensures array { IfOk result (λ r. IfSome r (λ t. ctype self.new t ≡ types.array_of count (ctype self.old of))) }
        ensures within { IfOk result (λ r. IfSome r (IsOf self.new)) }
        ensures plain { IfOk result (λ r. IfSome r IsPlain) }
        ensures object { IfOk result (λ r. IfSome r (λ t. 0 < types.size_of (ctype self.new t))) }
        ensures small { IfOk result (λ r. IfSome r (λ t. types.size_of (ctype self.new t) ≤ biggest)) }
        ensures too_big { IfOk result (λ r. IfNone r (biggest < types.size_of (types.array_of count (ctype self.old of)))) }
        ensures kept { (t : FlatType) → IsOf self.old t → ctype self.new t ≡ ctype self.old t }
        ensures still { (t : FlatType) → IsOf self.old t → IsOf self.new t }
    {
        if count > BIGGEST {
            return Ok(None);
        }
        let size = count * self.size_of(of);
        if size > BIGGEST {
            return Ok(None);
        }
        let row = Row {
            count: count as u32,
            rest: self.number(of),
            elements: count as u32 * self.elements(of),
        };
        let number = self.rows.number_of(row)?;
        Ok(Some(CType {
            lengths: Some(number),
            ..of
        }))
    }
}

// ---- elements

/// The outermost part of an element.
#[tactic(auto, using(crate::proofs::Layers::element_pointer, crate::proofs::Layers::ctype_element))]
fn element_layer(t: CType) -> Layer
    requires { t.pointers ≡ 0 }
    ensures value { (lists : Lists) → list_at lists t.lengths ≡ [] → ctype lists t ≡ layered lists result }
    ensures within { (lists : Lists) → IsOf lists t → IsLayerOf lists result }
{
    if t.stars > 0 {
        return Layer::Pointer(CType {
            stars: t.stars - 1,
            ..t
        });
    }
    match t.base {
        Base::Void => Layer::Void,
        Base::Integer(kind) => Layer::Integer(kind),
    }
}

/// The bytes of an element.
fn element_size(t: CType) -> u64
    ensures size { result ≡ types.size_of (element t) }
    ensures few { result ≤ 8 }
{
    if t.stars > 0 {
        return 4;
    }
    match t.base {
        Base::Void => 0,
        Base::Integer(kind) => u64::from(bits(kind) / 8),
    }
}

/// The pointers of a type that is no array.
fn pointers(t: CType) -> u64
    ensures { result ≡ t.pointers + t.stars }
{
    u64::from(t.pointers) + u64::from(t.stars)
}

/// Whether two types that are no arrays are one.
fn is_same_plain(a: CType, b: CType) -> bool
    ensures { result ≡ ((a.pointers + a.stars == b.pointers + b.stars) && types.is_same (shapes.base a.base) (shapes.base b.base)) }
{
    pointers(a) == pointers(b) && is_same_base(a.base, b.base)
}

/// Whether two types with these rows are one.
fn is_same_listed(i: u32, j: u32, a: CType, b: CType) -> bool
    ensures { result ≡ ((a.pointers == b.pointers) && ((i == j) && ((a.stars == b.stars) && types.is_same (shapes.base a.base) (shapes.base b.base)))) }
{
    a.pointers == b.pointers && i == j && a.stars == b.stars && is_same_base(a.base, b.base)
}

fn is_same_base(a: Base, b: Base) -> bool
    ensures { result ≡ types.is_same (shapes.base a) (shapes.base b) }
{
    match (a, b) {
        (Base::Void, Base::Void) => true,
        (Base::Integer(s), Base::Integer(t)) => code_of(s) == code_of(t),
        _ => false,
    }
}

fn code_of(t: IntType) -> u32
    ensures { result ≡ types.code_of t }
{
    match t {
        IntType::UChar => 0,
        IntType::SChar => 1,
        IntType::Short => 2,
        IntType::UShort => 3,
        IntType::Int => 4,
        IntType::UInt => 5,
        IntType::Long => 6,
        IntType::ULong => 7,
        IntType::LongLong => 8,
        IntType::ULongLong => 9,
    }
}
