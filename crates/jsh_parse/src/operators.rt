//! The operators, by their tokens, and how tightly they bind.

ghost use Rattle.std.specs.Prelude.{◌≡◌};
ghost use Rattle.jsh_parse.specs.Operators as spec;

use jsh_tree::{BinaryOperator, PostfixOperator, TokenKind, UnaryOperator};

pub fn binary_operator(kind: TokenKind) -> Option<BinaryOperator>
    ensures { result ≡ spec.binary_operator kind }
{
    match kind {
        TokenKind::OrOr => Some(BinaryOperator::OrElse),
        TokenKind::AndAnd => Some(BinaryOperator::AndAlso),
        TokenKind::Bar => Some(BinaryOperator::Or),
        TokenKind::Caret => Some(BinaryOperator::Xor),
        TokenKind::Ampersand => Some(BinaryOperator::And),
        TokenKind::EqualTo => Some(BinaryOperator::Equal),
        TokenKind::NotEqual => Some(BinaryOperator::NotEqual),
        TokenKind::LessThan => Some(BinaryOperator::Less),
        TokenKind::GreaterThan => Some(BinaryOperator::Greater),
        TokenKind::LessOrEqual => Some(BinaryOperator::LessOrEqual),
        TokenKind::GreaterOrEqual => Some(BinaryOperator::GreaterOrEqual),
        TokenKind::ShiftLeft => Some(BinaryOperator::ShiftLeft),
        TokenKind::ShiftRight => Some(BinaryOperator::ShiftRight),
        TokenKind::UnsignedShiftRight => Some(BinaryOperator::UnsignedShiftRight),
        TokenKind::Plus => Some(BinaryOperator::Add),
        TokenKind::Minus => Some(BinaryOperator::Subtract),
        TokenKind::Star => Some(BinaryOperator::Multiply),
        TokenKind::Slash => Some(BinaryOperator::Divide),
        TokenKind::Percent => Some(BinaryOperator::Remainder),
        _ => None,
    }
}

/// The level of an operator, from 0 for the one that binds least.
pub fn level_of(operator: BinaryOperator) -> u32
    ensures { result ≡ spec.level_of operator }
{
    match operator {
        BinaryOperator::OrElse => 0,
        BinaryOperator::AndAlso => 1,
        BinaryOperator::Or => 2,
        BinaryOperator::Xor => 3,
        BinaryOperator::And => 4,
        BinaryOperator::Equal | BinaryOperator::NotEqual => 5,
        BinaryOperator::Less
        | BinaryOperator::Greater
        | BinaryOperator::LessOrEqual
        | BinaryOperator::GreaterOrEqual => 6,
        BinaryOperator::ShiftLeft
        | BinaryOperator::ShiftRight
        | BinaryOperator::UnsignedShiftRight => 7,
        BinaryOperator::Add | BinaryOperator::Subtract => 8,
        BinaryOperator::Multiply | BinaryOperator::Divide | BinaryOperator::Remainder => 9,
    }
}

/// The level of the comparisons, and of `instanceof`.
pub const COMPARISON_LEVEL: u32 = 6;

/// How many levels there are.
pub const LEVELS: u32 = 10;

/// For `=` no operator, and for a compound assignment its operator.
pub fn assign_operator(kind: TokenKind) -> Option<Option<BinaryOperator>>
    ensures { result ≡ spec.assign_operator kind }
{
    match kind {
        TokenKind::Assign => Some(None),
        TokenKind::PlusAssign => Some(Some(BinaryOperator::Add)),
        TokenKind::MinusAssign => Some(Some(BinaryOperator::Subtract)),
        TokenKind::StarAssign => Some(Some(BinaryOperator::Multiply)),
        TokenKind::SlashAssign => Some(Some(BinaryOperator::Divide)),
        TokenKind::AmpersandAssign => Some(Some(BinaryOperator::And)),
        TokenKind::BarAssign => Some(Some(BinaryOperator::Or)),
        TokenKind::CaretAssign => Some(Some(BinaryOperator::Xor)),
        TokenKind::PercentAssign => Some(Some(BinaryOperator::Remainder)),
        TokenKind::ShiftLeftAssign => Some(Some(BinaryOperator::ShiftLeft)),
        TokenKind::ShiftRightAssign => Some(Some(BinaryOperator::ShiftRight)),
        TokenKind::UnsignedShiftRightAssign => Some(Some(BinaryOperator::UnsignedShiftRight)),
        _ => None,
    }
}

pub fn unary_operator(kind: TokenKind) -> Option<UnaryOperator>
    ensures { result ≡ spec.unary_operator kind }
{
    match kind {
        TokenKind::Plus => Some(UnaryOperator::Plus),
        TokenKind::Minus => Some(UnaryOperator::Minus),
        TokenKind::Bang => Some(UnaryOperator::Not),
        TokenKind::Tilde => Some(UnaryOperator::Complement),
        TokenKind::PlusPlus => Some(UnaryOperator::Increment),
        TokenKind::MinusMinus => Some(UnaryOperator::Decrement),
        _ => None,
    }
}

pub fn postfix_operator(kind: TokenKind) -> Option<PostfixOperator>
    ensures { result ≡ spec.postfix_operator kind }
{
    match kind {
        TokenKind::PlusPlus => Some(PostfixOperator::Increment),
        TokenKind::MinusMinus => Some(PostfixOperator::Decrement),
        _ => None,
    }
}
