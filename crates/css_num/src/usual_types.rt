//! Promotion and the usual arithmetic conversions (C99 6.3.1.1 and 6.3.1.8).

ghost use Rattle.std.specs.Prelude.{◌≡◌};
ghost use Rattle.css_num.specs.Usual.{promoted, higher_rank, mixed, common, usual_type};

use crate::types::{bits, is_signed, rank, to_unsigned};
use css_base::IntType;

/// The type after promotion: `int` for each type below it.
pub fn promote(t: IntType) -> IntType
    ensures { result ≡ promoted t }
{
    if rank(t) < rank(IntType::Int) {
        IntType::Int
    } else {
        t
    }
}

/// The type in which a binary operator, other than a shift, works on operands of these two types.
pub fn usual(a: IntType, b: IntType) -> IntType
    ensures { result ≡ usual_type a b }
{
    common_type(promote(a), promote(b))
}

fn common_type(a: IntType, b: IntType) -> IntType
    ensures { result ≡ common a b }
{
    match (is_signed(a), is_signed(b)) {
        (true, false) => mixed_type(a, b),
        (false, true) => mixed_type(b, a),
        _ => higher_ranked(a, b),
    }
}

fn higher_ranked(a: IntType, b: IntType) -> IntType
    ensures { result ≡ higher_rank a b }
{
    if rank(a) < rank(b) { b } else { a }
}

/// The common type of a signed and an unsigned type.
fn mixed_type(signed: IntType, unsigned: IntType) -> IntType
    ensures { result ≡ mixed signed unsigned }
{
    if rank(signed) <= rank(unsigned) {
        unsigned
    } else if bits(unsigned) < bits(signed) {
        signed
    } else {
        to_unsigned(signed)
    }
}
