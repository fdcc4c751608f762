//! Operands: constants and signed wires.

ghost use Rattle.std.specs.Prelude.{◌≡◌};
ghost use Rattle.bit_arith.specs.Built.{negated};

use flat_core::Lit;

/// One bit that is read: a constant, or a wire with a sign.
#[derive(Clone, Copy, PartialEq, Eq)]
pub enum Operand {
    Const(bool),
    Literal(Lit),
}

impl Operand {
    /// The operand whose bit is the other one.
    pub fn negated(&self) -> Operand
        ensures { result ≡ negated self.now }
    {
        match *self {
            Operand::Const(bit) => Operand::Const(!bit),
            Operand::Literal(Lit { wire, positive }) => Operand::Literal(Lit {
                wire,
                positive: !positive,
            }),
        }
    }
}
