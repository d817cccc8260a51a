//! What begins an operand.
ghost use Rattle.std.specs.Prelude.{◌≡◌};
ghost use Rattle.css_tree.specs.Expressions.{unary_text};
ghost use Rattle.css_pexpr.specs.Frames.{operand_level};
ghost use Rattle.css_pexpr.specs.Signs.{prefix_text, lead_text, lead_spelled};

use css_tree::UnaryOperator;

/// An operator before its operand (C99 6.5.3).
#[derive(Clone, Copy)]
pub(crate) enum Prefix {
    /// `++`
    Increment,
    /// `--`
    Decrement,
    /// `sizeof`
    Sizeof,
    Operator(UnaryOperator),
}

/// A punctuator where an operand is wanted.
#[derive(Clone, Copy)]
pub(crate) enum Lead {
    Prefix(Prefix),
    /// `(`
    Open,
    /// `)`, behind the parenthesis of a call without arguments
    Close,
}

/// The punctuators that may stand where an operand is wanted.
const LEADS: [Lead; 10] = [
    Lead::Prefix(Prefix::Increment),
    Lead::Prefix(Prefix::Decrement),
    Lead::Prefix(Prefix::Operator(UnaryOperator::AddressOf)),
    Lead::Prefix(Prefix::Operator(UnaryOperator::Dereference)),
    Lead::Prefix(Prefix::Operator(UnaryOperator::Plus)),
    Lead::Prefix(Prefix::Operator(UnaryOperator::Minus)),
    Lead::Prefix(Prefix::Operator(UnaryOperator::Complement)),
    Lead::Prefix(Prefix::Operator(UnaryOperator::Not)),
    Lead::Open,
    Lead::Close,
];

impl Lead {
    /// How it is spelled.
    fn text(self) -> &'static [u8]
        ensures { result.now ≡ lead_text self }
    {
        match self {
            Lead::Prefix(prefix) => prefix_text(prefix),
            Lead::Open => b"(",
            Lead::Close => b")",
        }
    }
}

/// How the operator is spelled.
fn prefix_text(prefix: Prefix) -> &'static [u8]
    ensures { result.now ≡ prefix_text prefix }
{
    match prefix {
        Prefix::Increment => b"++",
        Prefix::Decrement => b"--",
        Prefix::Sizeof => b"sizeof",
        Prefix::Operator(operator) => unary_text(operator),
    }
}

/// How the operator is spelled.
fn unary_text(operator: UnaryOperator) -> &'static [u8]
    ensures { result.now ≡ unary_text operator }
{
    match operator {
        UnaryOperator::AddressOf => b"&",
        UnaryOperator::Dereference => b"*",
        UnaryOperator::Plus => b"+",
        UnaryOperator::Minus => b"-",
        UnaryOperator::Complement => b"~",
        UnaryOperator::Not => b"!",
    }
}

/// The punctuator of these bytes, where an operand is wanted.
#[tactic(auto, unfolding(crate::specs::Signs::lead_spelled))]
pub(crate) fn lead_spelled(bytes: &[u8]) -> Option<Lead>
    ensures { result ≡ lead_spelled bytes.now }
{
    LEADS.iter().copied().find(|lead| lead.text() == bytes)
}

/// The level of the operator's operand.
pub(crate) fn operand_level(prefix: Prefix) -> u8
    ensures { result ≡ operand_level prefix }
{
    match prefix {
        Prefix::Operator(_) => 13,
        Prefix::Increment | Prefix::Decrement | Prefix::Sizeof => 14,
    }
}
