//! What stands behind an operand.
ghost use Rattle.std.specs.Prelude.{◌≡◌, ◌≤◌};
ghost use Rattle.css_tree.specs.Expressions.{binary_text, assign_text, level_of};
ghost use Rattle.css_pexpr.specs.Signs.{joint_text, own_level, left_level, reduce_level, follow_text, follow_spelled};

use css_tree::{AssignOperator, BinaryOperator};

/// A punctuator between two operands, of which the left one was read.
#[derive(Clone, Copy)]
pub(crate) enum Joint {
    /// `,`
    Comma,
    Assign(AssignOperator),
    /// `?`
    Question,
    Binary(BinaryOperator),
}

/// A punctuator behind an operand.
#[derive(Clone, Copy)]
pub(crate) enum Follow {
    Joint(Joint),
    /// `:`
    Colon,
    /// `[`
    OpenBracket,
    /// `]`
    CloseBracket,
    /// `(`
    OpenParenthesis,
    /// `)`
    CloseParenthesis,
    /// `++`
    Increment,
    /// `--`
    Decrement,
}

/// The punctuators that may stand behind an operand.
const FOLLOWS: [Follow; 38] = [
    Follow::CloseParenthesis,
    Follow::Joint(Joint::Comma),
    Follow::OpenBracket,
    Follow::CloseBracket,
    Follow::OpenParenthesis,
    Follow::Increment,
    Follow::Decrement,
    Follow::Joint(Joint::Question),
    Follow::Colon,
    Follow::Joint(Joint::Assign(AssignOperator::Assign)),
    Follow::Joint(Joint::Assign(AssignOperator::Multiply)),
    Follow::Joint(Joint::Assign(AssignOperator::Divide)),
    Follow::Joint(Joint::Assign(AssignOperator::Remainder)),
    Follow::Joint(Joint::Assign(AssignOperator::Add)),
    Follow::Joint(Joint::Assign(AssignOperator::Subtract)),
    Follow::Joint(Joint::Assign(AssignOperator::ShiftLeft)),
    Follow::Joint(Joint::Assign(AssignOperator::ShiftRight)),
    Follow::Joint(Joint::Assign(AssignOperator::BitAnd)),
    Follow::Joint(Joint::Assign(AssignOperator::BitXor)),
    Follow::Joint(Joint::Assign(AssignOperator::BitOr)),
    Follow::Joint(Joint::Binary(BinaryOperator::Multiply)),
    Follow::Joint(Joint::Binary(BinaryOperator::Divide)),
    Follow::Joint(Joint::Binary(BinaryOperator::Remainder)),
    Follow::Joint(Joint::Binary(BinaryOperator::Add)),
    Follow::Joint(Joint::Binary(BinaryOperator::Subtract)),
    Follow::Joint(Joint::Binary(BinaryOperator::ShiftLeft)),
    Follow::Joint(Joint::Binary(BinaryOperator::ShiftRight)),
    Follow::Joint(Joint::Binary(BinaryOperator::Less)),
    Follow::Joint(Joint::Binary(BinaryOperator::Greater)),
    Follow::Joint(Joint::Binary(BinaryOperator::LessOrEqual)),
    Follow::Joint(Joint::Binary(BinaryOperator::GreaterOrEqual)),
    Follow::Joint(Joint::Binary(BinaryOperator::Equal)),
    Follow::Joint(Joint::Binary(BinaryOperator::NotEqual)),
    Follow::Joint(Joint::Binary(BinaryOperator::BitAnd)),
    Follow::Joint(Joint::Binary(BinaryOperator::BitXor)),
    Follow::Joint(Joint::Binary(BinaryOperator::BitOr)),
    Follow::Joint(Joint::Binary(BinaryOperator::And)),
    Follow::Joint(Joint::Binary(BinaryOperator::Or)),
];

impl Follow {
    /// How it is spelled.
    fn text(self) -> &'static [u8]
        ensures { result.now ≡ follow_text self }
    {
        match self {
            Follow::Joint(joint) => joint_text(joint),
            Follow::Colon => b":",
            Follow::OpenBracket => b"[",
            Follow::CloseBracket => b"]",
            Follow::OpenParenthesis => b"(",
            Follow::CloseParenthesis => b")",
            Follow::Increment => b"++",
            Follow::Decrement => b"--",
        }
    }
}

/// How the punctuator is spelled.
fn joint_text(joint: Joint) -> &'static [u8]
    ensures { result.now ≡ joint_text joint }
{
    match joint {
        Joint::Comma => b",",
        Joint::Assign(operator) => assign_text(operator),
        Joint::Question => b"?",
        Joint::Binary(operator) => binary_text(operator),
    }
}

/// How the operator is spelled.
fn assign_text(operator: AssignOperator) -> &'static [u8]
    ensures { result.now ≡ assign_text operator }
{
    match operator {
        AssignOperator::Assign => b"=",
        AssignOperator::Multiply => b"*=",
        AssignOperator::Divide => b"/=",
        AssignOperator::Remainder => b"%=",
        AssignOperator::Add => b"+=",
        AssignOperator::Subtract => b"-=",
        AssignOperator::ShiftLeft => b"<<=",
        AssignOperator::ShiftRight => b">>=",
        AssignOperator::BitAnd => b"&=",
        AssignOperator::BitXor => b"^=",
        AssignOperator::BitOr => b"|=",
    }
}

/// How the operator is spelled.
fn binary_text(operator: BinaryOperator) -> &'static [u8]
    ensures { result.now ≡ binary_text operator }
{
    match operator {
        BinaryOperator::Multiply => b"*",
        BinaryOperator::Divide => b"/",
        BinaryOperator::Remainder => b"%",
        BinaryOperator::Add => b"+",
        BinaryOperator::Subtract => b"-",
        BinaryOperator::ShiftLeft => b"<<",
        BinaryOperator::ShiftRight => b">>",
        BinaryOperator::Less => b"<",
        BinaryOperator::Greater => b">",
        BinaryOperator::LessOrEqual => b"<=",
        BinaryOperator::GreaterOrEqual => b">=",
        BinaryOperator::Equal => b"==",
        BinaryOperator::NotEqual => b"!=",
        BinaryOperator::BitAnd => b"&",
        BinaryOperator::BitXor => b"^",
        BinaryOperator::BitOr => b"|",
        BinaryOperator::And => b"&&",
        BinaryOperator::Or => b"||",
    }
}

/// The level of the binary operator (C99 6.5.5 to 6.5.14).
pub(crate) fn level_of(operator: BinaryOperator) -> u8
    ensures value { result ≡ level_of operator }
    ensures low { result ≤ 12 }
{
    match operator {
        BinaryOperator::Or => 3,
        BinaryOperator::And => 4,
        BinaryOperator::BitOr => 5,
        BinaryOperator::BitXor => 6,
        BinaryOperator::BitAnd => 7,
        BinaryOperator::Equal | BinaryOperator::NotEqual => 8,
        BinaryOperator::Less
        | BinaryOperator::Greater
        | BinaryOperator::LessOrEqual
        | BinaryOperator::GreaterOrEqual => 9,
        BinaryOperator::ShiftLeft | BinaryOperator::ShiftRight => 10,
        BinaryOperator::Add | BinaryOperator::Subtract => 11,
        BinaryOperator::Multiply | BinaryOperator::Divide | BinaryOperator::Remainder => 12,
    }
}

impl Joint {
    /// The level of what it makes.
    pub(crate) fn own_level(self) -> u8
        ensures { result ≡ own_level self }
    {
        match self {
            Joint::Comma => 0,
            Joint::Assign(_) => 1,
            Joint::Question => 2,
            Joint::Binary(operator) => level_of(operator),
        }
    }

    /// The level of its left operand.
    pub(crate) fn left_level(self) -> u8
        ensures { result ≡ left_level self }
    {
        match self {
            Joint::Comma => 0,
            Joint::Assign(_) => 14,
            Joint::Question => 3,
            Joint::Binary(operator) => level_of(operator),
        }
    }

    /// The level from which on what stands before it is put together.
    pub(crate) fn reduce_level(self) -> u8
        ensures { result ≡ reduce_level self }
    {
        match self {
            Joint::Comma => 0,
            Joint::Assign(_) => 13,
            Joint::Question => 3,
            Joint::Binary(operator) => level_of(operator),
        }
    }
}

/// The punctuator of these bytes, behind an operand.
#[tactic(auto, unfolding(crate::specs::Signs::follow_spelled))]
pub(crate) fn follow_spelled(bytes: &[u8]) -> Option<Follow>
    ensures { result ≡ follow_spelled bytes.now }
{
    FOLLOWS
        .iter()
        .copied()
        .find(|follow| follow.text() == bytes)
}
