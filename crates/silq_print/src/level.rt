//! The levels of expressions.

ghost use Rattle.std.specs.Prelude.{◌≡◌};
ghost use Rattle.silq_print.specs.Levels.{rank, level_of, left_level, right_level, sign_of, unary_sign, goes_on_at};

use silq_grammar::Terminal;
use silq_tree::{BinaryOp, UnaryOp};

/// The level of an expression's outermost sign, the loosest first; what has no sign between operands is unary.
#[derive(Clone, Copy)]
pub(crate) enum Level {
    Or,
    And,
    Comparison,
    Sum,
    Product,
    Unary,
}

/// The greater, the tighter.
pub(crate) fn rank(level: Level) -> u8
    ensures { result ≡ rank level }
{
    match level {
        Level::Or => 0,
        Level::And => 1,
        Level::Comparison => 2,
        Level::Sum => 3,
        Level::Product => 4,
        Level::Unary => 5,
    }
}

/// The level of a sign.
pub(crate) fn level_of(op: BinaryOp) -> Level
    ensures { result ≡ level_of op }
{
    match op {
        BinaryOp::Or => Level::Or,
        BinaryOp::And => Level::And,
        BinaryOp::Eq => Level::Comparison,
        BinaryOp::Ne => Level::Comparison,
        BinaryOp::Lt => Level::Comparison,
        BinaryOp::Le => Level::Comparison,
        BinaryOp::Gt => Level::Comparison,
        BinaryOp::Ge => Level::Comparison,
        BinaryOp::Add => Level::Sum,
        BinaryOp::Sub => Level::Sum,
        BinaryOp::Mul => Level::Product,
        BinaryOp::Div => Level::Product,
    }
}

/// The loosest level of its left operand without parentheses.
pub(crate) fn left_level(op: BinaryOp) -> Level
    ensures { result ≡ left_level op }
{
    match level_of(op) {
        Level::Comparison => Level::Sum,
        level => level,
    }
}

/// The loosest level of its right operand without parentheses.
pub(crate) fn right_level(op: BinaryOp) -> Level
    ensures { result ≡ right_level op }
{
    match level_of(op) {
        Level::Or => Level::And,
        Level::And => Level::Comparison,
        Level::Comparison => Level::Sum,
        Level::Sum => Level::Product,
        _ => Level::Unary,
    }
}

/// Whether the sign goes on with a chain on this level.
pub(crate) fn goes_on(op: BinaryOp, level: Level) -> bool
    ensures { result ≡ goes_on_at op level }
{
    match level_of(op) {
        Level::Comparison => false,
        own => rank(own) == rank(level),
    }
}

/// The sign between operands.
pub(crate) fn sign_of(op: BinaryOp) -> Terminal
    ensures { result ≡ sign_of op }
{
    match op {
        BinaryOp::Or => Terminal::Or,
        BinaryOp::And => Terminal::And,
        BinaryOp::Eq => Terminal::Equal,
        BinaryOp::Ne => Terminal::NotEqual,
        BinaryOp::Lt => Terminal::Below,
        BinaryOp::Le => Terminal::AtMost,
        BinaryOp::Gt => Terminal::Above,
        BinaryOp::Ge => Terminal::AtLeast,
        BinaryOp::Add => Terminal::Plus,
        BinaryOp::Sub => Terminal::Minus,
        BinaryOp::Mul => Terminal::Star,
        BinaryOp::Div => Terminal::Slash,
    }
}

/// The sign before an operand.
pub(crate) fn unary_sign(op: UnaryOp) -> Terminal
    ensures { result ≡ unary_sign op }
{
    match op {
        UnaryOp::Not => Terminal::Bang,
        UnaryOp::Neg => Terminal::Minus,
    }
}
