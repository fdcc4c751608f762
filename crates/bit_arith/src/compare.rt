//! Tests of bits and numbers.

ghost use Rattle.std.specs.Prelude.{◌≡◌, ◌++◌, ◌∷◌, [], length, false, IfOk, IfErr};
ghost use Rattle.bit_arith.specs.declared.operand.Operand.TheVariants.{Const};
ghost use Rattle.bit_arith.specs.Built.{begun, under};
ghost use Rattle.bit_arith.specs.Rows.{both, either, equal, less, matches, differ, all_of, borrow};
ghost use Rattle.bit_arith.specs.Calls.{AllSafe, no_target, Went, Refused};

use crate::builder::Builder;
use crate::made::{made, signed, top_negated};
use crate::operand::Operand;
use silq_io::LimitFault;

impl Builder {
    /// `a && b` on a new wire.
    pub fn both(&mut self, a: Operand, b: Operand) -> Result<Operand, LimitFault>
        requires safe { AllSafe (length self.old.draft.wires) no_target (under self.old.setting (a ∷ b ∷ [])) }
        ensures answer { IfOk result (λ p. p ≡ (both self.old.setting a b (begun self.old.draft)).answer) }
        ensures ok { IfOk result (λ _. Went self.old self.new (both self.old.setting a b (begun self.old.draft)).built) }
        ensures refused { IfErr result (λ e. Refused e (both self.old.setting a b (begun self.old.draft)).built) }
    {
        let wire = self.new_wire()?;
        self.flip(wire, &[a, b])?;
        Ok(made(wire))
    }

    /// `a || b`, by a new wire.
    pub fn either(&mut self, a: Operand, b: Operand) -> Result<Operand, LimitFault>
        requires safe { AllSafe (length self.old.draft.wires) no_target (under self.old.setting (a ∷ b ∷ [])) }
        ensures answer { IfOk result (λ p. p ≡ (either self.old.setting a b (begun self.old.draft)).answer) }
        ensures ok { IfOk result (λ _. Went self.old self.new (either self.old.setting a b (begun self.old.draft)).built) }
        ensures refused { IfErr result (λ e. Refused e (either self.old.setting a b (begun self.old.draft)).built) }
    {
        let neither = self.both(a.negated(), b.negated())?;
        Ok(neither.negated())
    }

    /// Whether two values are equal, bit by bit.
    pub fn equal(&mut self, a: &[Operand], b: &[Operand]) -> Result<Operand, LimitFault>
        requires lengths { length a.now ≡ length b.now }
        requires safe { AllSafe (length self.old.draft.wires) no_target (under self.old.setting (a.now ++ b.now)) }
        ensures answer { IfOk result (λ p. p ≡ (equal self.old.setting a.now b.now (begun self.old.draft)).answer) }
        ensures ok { IfOk result (λ _. Went self.old self.new (equal self.old.setting a.now b.now (begun self.old.draft)).built) }
        ensures refused { IfErr result (λ e. Refused e (equal self.old.setting a.now b.now (begun self.old.draft)).built) }
    {
        let matches = self.matches(a, b)?;
        self.all_of(matches.as_slice())
    }

    /// Whether the first number is below the second; `signed` reads both in two's complement.
    pub fn less(
        &mut self,
        a: &[Operand],
        b: &[Operand],
        signed: bool,
    ) -> Result<Operand, LimitFault>
        requires lengths { length a.now ≡ length b.now }
        requires safe { AllSafe (length self.old.draft.wires) no_target (under self.old.setting (a.now ++ b.now)) }
        ensures answer { IfOk result (λ p. p ≡ (less self.old.setting signed a.now b.now (begun self.old.draft)).answer) }
        ensures ok { IfOk result (λ _. Went self.old self.new (less self.old.setting signed a.now b.now (begun self.old.draft)).built) }
        ensures refused { IfErr result (λ e. Refused e (less self.old.setting signed a.now b.now (begun self.old.draft)).built) }
    {
        if signed {
            let a = top_negated(self.alloc, a)?;
            let b = top_negated(self.alloc, b)?;
            self.borrow(a.as_slice(), b.as_slice())
        } else {
            self.borrow(a, b)
        }
    }

    // That the bits do not differ, place by place.
    fn matches(&mut self, a: &[Operand], b: &[Operand]) -> Result<Vec<Operand>, LimitFault>
        requires lengths { length a.now ≡ length b.now }
        requires safe { AllSafe (length self.old.draft.wires) no_target (under self.old.setting (a.now ++ b.now)) }
        ensures answer { IfOk result (λ ps. ps.items ≡ (matches self.old.setting a.now b.now (begun self.old.draft)).answer) }
        ensures ok { IfOk result (λ _. Went self.old self.new (matches self.old.setting a.now b.now (begun self.old.draft)).built) }
        ensures refused { IfErr result (λ e. Refused e (matches self.old.setting a.now b.now (begun self.old.draft)).built) }
    {
        let mut matches = Vec::new(self.alloc);
        for (i, p) in a.iter().enumerate() {
            let differs = self.differ(*p, b[i])?;
            matches.push(differs.negated())?;
        }
        Ok(matches)
    }

    // Whether two bits differ: the other operand where one is constant, else a new wire.
    fn differ(&mut self, a: Operand, b: Operand) -> Result<Operand, LimitFault>
        requires safe { AllSafe (length self.old.draft.wires) no_target (under self.old.setting (a ∷ b ∷ [])) }
        ensures answer { IfOk result (λ p. p ≡ (differ self.old.setting a b (begun self.old.draft)).answer) }
        ensures ok { IfOk result (λ _. Went self.old self.new (differ self.old.setting a b (begun self.old.draft)).built) }
        ensures refused { IfErr result (λ e. Refused e (differ self.old.setting a b (begun self.old.draft)).built) }
    {
        match (self.read(a), self.read(b)) {
            (Operand::Const(bit), _) => Ok(signed(bit, b)),
            (Operand::Literal(_), Operand::Const(bit)) => Ok(signed(bit, a)),
            (Operand::Literal(_), Operand::Literal(_)) => {
                let wire = self.new_wire()?;
                self.flip_alone(wire, &[a, b])?;
                Ok(made(wire))
            }
        }
    }

    // One operand for a conjunction: one bit needs no new wire.
    fn all_of(&mut self, list: &[Operand]) -> Result<Operand, LimitFault>
        requires safe { AllSafe (length self.old.draft.wires) no_target (under self.old.setting list.now) }
        ensures answer { IfOk result (λ p. p ≡ (all_of self.old.setting list.now (begun self.old.draft)).answer) }
        ensures ok { IfOk result (λ _. Went self.old self.new (all_of self.old.setting list.now (begun self.old.draft)).built) }
        ensures refused { IfErr result (λ e. Refused e (all_of self.old.setting list.now (begun self.old.draft)).built) }
    {
        if list.len() == 1 {
            return Ok(list[0]);
        }
        let wire = self.new_wire()?;
        self.flip(wire, list)?;
        Ok(made(wire))
    }

    // The carry out of `(not a) + b`.
    fn borrow(&mut self, a: &[Operand], b: &[Operand]) -> Result<Operand, LimitFault>
        requires lengths { length a.now ≡ length b.now }
        requires safe { AllSafe (length self.old.draft.wires) no_target (under self.old.setting (a.now ++ b.now)) }
        ensures answer { IfOk result (λ p. p ≡ (borrow self.old.setting (Const false) a.now b.now (begun self.old.draft)).answer) }
        ensures ok { IfOk result (λ _. Went self.old self.new (borrow self.old.setting (Const false) a.now b.now (begun self.old.draft)).built) }
        ensures refused { IfErr result (λ e. Refused e (borrow self.old.setting (Const false) a.now b.now (begun self.old.draft)).built) }
    {
        let mut carry = Operand::Const(false);
        for (i, p) in a.iter().enumerate() {
            carry = self.carry_out(p.negated(), b[i], carry)?;
        }
        Ok(carry)
    }
}
