//! Steps: what leaves one term for each term.

use silq_mean::Receiver;
use silq_tree::{BinaryOp, NameId, UnaryOp, UpdateOp};
use silq_types::{Need, Scalar};

/// A step of a program.
#[derive(Drop)]
pub enum Step<'a> {
    /// The value of a static expression.
    GiveStatic(i64),
    /// A number with a type.
    GiveTyped(Scalar, i64),
    /// A variable, or a part of one.
    GivePart(Need, NameId, &'a [i64]),
    OneOperand(UnaryOp),
    TwoOperands(BinaryOp),
    CopyLast,
    RepeatLast,
    FlipLast,
    /// A turn by so many eighths where the last value is 1, and by so many where it is not.
    TurnBy(u64, u64),
    /// A turn by so many eighths.
    TurnAll(u64),
    /// The last value is taken over.
    Receive(Receiver),
    AssignTo(NameId, &'a [i64]),
    AssignInTurn(&'a [NameId]),
    UpdateTo(NameId, &'a [i64], UpdateOp),
    /// A variable is taken out.
    EndName(NameId),
    /// A variable is taken out with the value that it was compared with.
    EndCompared(NameId),
    EnterBlock,
    LeaveBlock,
    /// The last values become the parameters.
    EnterBody(&'a [NameId]),
    LeaveBody,
}
