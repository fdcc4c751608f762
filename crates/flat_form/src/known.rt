//! What flattening knows of values and variables.

use bit_arith::Operand;
use silq_types::{List, Shape};

/// A value with a type, and the operands that show its bits.
#[derive(Drop)]
pub struct TypedBits {
    /// Whether its type has the sign `!`.
    pub classical: bool,
    pub shape: Shape,
    /// One for each bit, the lowest first; those of an array item by item.
    pub operands: List<Operand>,
    /// Whether these are wires that whoever takes the value may keep: those of a variable that was moved, of a gate or of a call.
    pub own: bool,
    /// The number of the next wire when its expression began; 0 of a variable.
    pub began: usize,
}

/// What a value or a name shows.
#[derive(Drop)]
pub enum Known {
    /// The value of a static expression.
    Static(i64),
    /// A value with a type.
    Shown(TypedBits),
    /// A variable whose bits from a place on, so many, are under way in the right side of an assignment to them.
    Lent {
        start: usize,
        size: usize,
        value: TypedBits,
    },
    /// A variable that was moved or taken out.
    Absent,
}
