//! What typing gives for operators, where it gives the like for their operands.

ghost use Rattle.flat_typed.specs.OperatorLaws.{UnaryIsFine, BinaryIsFine};

/// An operator on one value keeps the relation where its operand does.
pub fn unary_is_fine()
    ensures { UnaryIsFine }
{}

/// And so does one on two operands where both do.
pub fn binary_is_fine()
    ensures { BinaryIsFine }
{}
