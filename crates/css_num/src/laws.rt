//! What holds of conversions and operators at all values: each function's clause is a law.

ghost use Rattle.std.specs.Prelude.{◌≡◌, ◌^◌, ◌-◌, ◌⊎◌, ℤ, pos, negsuc, IsTrue, IfSome, int_rem, max};
ghost use Rattle.css_base.specs.declared.int_type.IntType.{IntType};
ghost use Rattle.css_num.specs.declared.operators.UnOp.{UnOp};
ghost use Rattle.css_num.specs.declared.operators.UnOp.TheVariants as unary;
ghost use Rattle.css_num.specs.declared.operators.BinOp.{BinOp};
ghost use Rattle.css_num.specs.Types.{bits_of, has_sign, rank_of, least, IsInRange};
ghost use Rattle.css_num.specs.Conversion.{representation, converted, IsCongruent};
ghost use Rattle.css_num.specs.Usual.{promoted, usual_type, IsKinOf};
ghost use Rattle.css_num.specs.Operators.{quotient, remainder, unary_type, unary_value, binary_type, binary_value};

/// A conversion gives a value of the type.
pub fn conversion_stays_in_range()
    ensures { (t : IntType) (z : ℤ) → IsInRange t (converted t z) }
{}

/// A conversion changes a number by a multiple of 2 to the type's bits.
pub fn conversion_is_modular()
    ensures { (t : IntType) (z : ℤ) → IsCongruent (2 ^ bits_of t) (converted t z) z }
{}

/// No other value of the type does.
pub fn conversion_is_unique()
    ensures { (t : IntType) (z v : ℤ)
        → IsInRange t v → IsCongruent (2 ^ bits_of t) v z → converted t z ≡ v }
{}

/// A value of the type stays as it is.
pub fn conversion_keeps_values()
    ensures { (t : IntType) (v : ℤ) → IsInRange t v → converted t v ≡ v }
{}

/// To convert twice is to convert once.
pub fn conversion_is_idempotent()
    ensures { (t : IntType) (z : ℤ) → converted t (converted t z) ≡ converted t z }
{}

/// The usual type does not depend on the order of the operands.
pub fn usual_type_is_symmetric()
    ensures { (a b : IntType) → usual_type a b ≡ usual_type b a }
{}

/// The usual type is one of the promoted types, or the unsigned type of the same rank as one.
pub fn usual_type_is_kin()
    ensures { (a b : IntType)
        → IsKinOf (usual_type a b) (promoted a) ⊎ IsKinOf (usual_type a b) (promoted b) }
{}

/// The usual type has the higher of the two ranks.
pub fn usual_type_has_higher_rank()
    ensures { (a b : IntType)
        → rank_of (usual_type a b) ≡ max (rank_of (promoted a)) (rank_of (promoted b)) }
{}

/// `~` inverts each bit of the representation.
pub fn complement_inverts_bits()
    ensures { (t : IntType) (v : ℤ)
        → representation t (unary_value unary.Complement t v)
        ≡ 2 ^ bits_of t - 1 - representation t v }
{}

/// A unary operator gives a value of its type.
pub fn unary_stays_in_range()
    ensures { (op : UnOp) (t : IntType) (v : ℤ)
        → IsInRange t v → IsInRange (unary_type op t) (unary_value op t v) }
{}

/// A binary operator gives a value of its type, if it gives one.
pub fn binary_stays_in_range()
    ensures { (op : BinOp) (t : IntType) (a b : ℤ)
        → IsInRange t a → IfSome (binary_value op t a b) (IsInRange (binary_type op t)) }
{}

/// The remainder is that of the division toward zero, which always fits.
pub fn remainder_is_exact()
    ensures { (t : IntType) (a b : ℤ) → IsInRange t a → remainder t a b ≡ int_rem a b }
{}

/// The least value of a signed type, divided by -1, is itself, and leaves 0.
pub fn least_value_over_minus_one()
    ensures quotient { (t : IntType) → IsTrue (has_sign t) → quotient t (least t) (negsuc 0) ≡ least t }
    ensures remainder { (t : IntType) → IsTrue (has_sign t) → remainder t (least t) (negsuc 0) ≡ pos 0 }
{}
