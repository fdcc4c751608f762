//! Carries, sums and differences of numbers, low bit first.

ghost use Rattle.std.specs.Prelude.{◌≡◌, ◌++◌, ◌∷◌, [], length, IfOk, IfErr};
ghost use Rattle.flat_core.specs.Label.{same_wire};
ghost use Rattle.bit_arith.specs.Built.{begun, under, next_wire, new_wire, made as made_of};
ghost use Rattle.bit_arith.specs.Rows.{carry, sum, difference, add_into, sub_into, carry_bit, sum_by, into_by};
ghost use Rattle.bit_arith.specs.Calls.{IsTarget, AreTargets, AllSafe, no_target, among, Went, Refused};

use crate::builder::Builder;
use crate::made::{all_made, all_negated, made};
use crate::operand::Operand;
use flat_core::WireId;
use silq_io::LimitFault;

impl Builder {
    /// The carries into each place of `a + b`: the first is the constant 0.
    pub fn carry(&mut self, a: &[Operand], b: &[Operand]) -> Result<Vec<Operand>, LimitFault>
        requires lengths { length a.now ≡ length b.now }
        requires safe { AllSafe (length self.old.draft.wires) no_target (under self.old.setting (a.now ++ b.now)) }
        ensures answer { IfOk result (λ ps. ps.items ≡ (carry self.old.setting a.now b.now (begun self.old.draft)).answer) }
        ensures ok { IfOk result (λ _. Went self.old self.new (carry self.old.setting a.now b.now (begun self.old.draft)).built) }
        ensures refused { IfErr result (λ e. Refused e (carry self.old.setting a.now b.now (begun self.old.draft)).built) }
    {
        let mut carries = Vec::new(self.alloc);
        let mut carry = Operand::Const(false);
        if a.is_empty() {
            return Ok(carries);
        }
        for i in 0..a.len() - 1 {
            carries.push(carry)?;
            carry = self.carry_out(a[i], b[i], carry)?;
        }
        carries.push(carry)?;
        Ok(carries)
    }

    /// The sum, modulo 2^n, on new wires.
    pub fn sum(&mut self, a: &[Operand], b: &[Operand]) -> Result<Vec<Operand>, LimitFault>
        requires lengths { length a.now ≡ length b.now }
        requires safe { AllSafe (length self.old.draft.wires) no_target (under self.old.setting (a.now ++ b.now)) }
        ensures answer { IfOk result (λ ps. ps.items ≡ (sum self.old.setting a.now b.now (begun self.old.draft)).answer) }
        ensures ok { IfOk result (λ _. Went self.old self.new (sum self.old.setting a.now b.now (begun self.old.draft)).built) }
        ensures refused { IfErr result (λ e. Refused e (sum self.old.setting a.now b.now (begun self.old.draft)).built) }
    {
        self.sum_by(a, a, b)
    }

    /// The difference, modulo 2^n, on new wires.
    pub fn difference(&mut self, a: &[Operand], b: &[Operand]) -> Result<Vec<Operand>, LimitFault>
        requires lengths { length a.now ≡ length b.now }
        requires safe { AllSafe (length self.old.draft.wires) no_target (under self.old.setting (a.now ++ b.now)) }
        ensures answer { IfOk result (λ ps. ps.items ≡ (difference self.old.setting a.now b.now (begun self.old.draft)).answer) }
        ensures ok { IfOk result (λ _. Went self.old self.new (difference self.old.setting a.now b.now (begun self.old.draft)).built) }
        ensures refused { IfErr result (λ e. Refused e (difference self.old.setting a.now b.now (begun self.old.draft)).built) }
    {
        let carriers = all_negated(self.alloc, a)?;
        self.sum_by(carriers.as_slice(), a, b)
    }

    /// Adds a number to wires, modulo 2^n.
    pub fn add_into(&mut self, x: &[WireId], y: &[Operand]) -> Result<(), LimitFault>
        requires lengths { length x.now ≡ length y.now }
        requires targets { AreTargets self.old.draft x.now }
        requires safe { AllSafe (length self.old.draft.wires) (among x.now) (under self.old.setting y.now) }
        ensures ok { IfOk result (λ _. Went self.old self.new (add_into self.old.setting x.now y.now (begun self.old.draft))) }
        ensures refused { IfErr result (λ e. Refused e (add_into self.old.setting x.now y.now (begun self.old.draft))) }
    {
        let carriers = all_made(self.alloc, x)?;
        self.into_by(carriers.as_slice(), x, y)
    }

    /// Subtracts a number from wires, modulo 2^n.
    pub fn sub_into(&mut self, x: &[WireId], y: &[Operand]) -> Result<(), LimitFault>
        requires lengths { length x.now ≡ length y.now }
        requires targets { AreTargets self.old.draft x.now }
        requires safe { AllSafe (length self.old.draft.wires) (among x.now) (under self.old.setting y.now) }
        ensures ok { IfOk result (λ _. Went self.old self.new (sub_into self.old.setting x.now y.now (begun self.old.draft))) }
        ensures refused { IfErr result (λ e. Refused e (sub_into self.old.setting x.now y.now (begun self.old.draft))) }
    {
        let bits = all_made(self.alloc, x)?;
        let carriers = all_negated(self.alloc, bits.as_slice())?;
        self.into_by(carriers.as_slice(), x, y)
    }

    // The carry out of one place, on a new wire.
    pub(crate) fn carry_out(
        &mut self,
        a: Operand,
        b: Operand,
        carry: Operand,
    ) -> Result<Operand, LimitFault>
        requires safe { AllSafe (length self.old.draft.wires) no_target (under self.old.setting (a ∷ b ∷ carry ∷ [])) }
        ensures answer { IfOk result (λ p. p ≡ made_of (next_wire (begun self.old.draft))) }
        ensures ok { IfOk result (λ _. Went self.old self.new (carry_bit self.old.setting (next_wire (begun self.old.draft)) a b carry (new_wire (begun self.old.draft)))) }
        ensures refused { IfErr result (λ e. Refused e (carry_bit self.old.setting (next_wire (begun self.old.draft)) a b carry (new_wire (begun self.old.draft)))) }
    {
        let wire = self.new_wire()?;
        self.carry_bit(wire, a, b, carry)?;
        Ok(made(wire))
    }

    // Flips a wire where two of three bits are 1.
    fn carry_bit(
        &mut self,
        w: WireId,
        a: Operand,
        b: Operand,
        carry: Operand,
    ) -> Result<(), LimitFault>
        requires target { IsTarget self.old.draft w }
        requires safe { AllSafe (length self.old.draft.wires) (same_wire w) (under self.old.setting (a ∷ b ∷ carry ∷ [])) }
        ensures ok { IfOk result (λ _. Went self.old self.new (carry_bit self.old.setting w a b carry (begun self.old.draft))) }
        ensures refused { IfErr result (λ e. Refused e (carry_bit self.old.setting w a b carry (begun self.old.draft))) }
    {
        self.flip(w, &[a, b])?;
        self.flip(w, &[a, carry])?;
        self.flip(w, &[b, carry])
    }

    // New wires with the sums of two bits and the carries of the first list and the last.
    fn sum_by(
        &mut self,
        carriers: &[Operand],
        a: &[Operand],
        b: &[Operand],
    ) -> Result<Vec<Operand>, LimitFault>
        requires carriers { length carriers.now ≡ length b.now }
        requires lengths { length a.now ≡ length b.now }
        requires safe { AllSafe (length self.old.draft.wires) no_target (under self.old.setting (carriers.now ++ a.now ++ b.now)) }
        ensures answer { IfOk result (λ ps. ps.items ≡ (sum_by self.old.setting carriers.now a.now b.now (begun self.old.draft)).answer) }
        ensures ok { IfOk result (λ _. Went self.old self.new (sum_by self.old.setting carriers.now a.now b.now (begun self.old.draft)).built) }
        ensures refused { IfErr result (λ e. Refused e (sum_by self.old.setting carriers.now a.now b.now (begun self.old.draft)).built) }
    {
        let wires = self.new_wires(a.len())?;
        let carries = self.carry(carriers, b)?;
        self.flip_by_three(wires.as_slice(), a, b, carries.as_slice())?;
        Ok(all_made(self.alloc, wires.as_slice())?)
    }

    // Adds the last list to wires, with the carries of the first list.
    fn into_by(
        &mut self,
        carriers: &[Operand],
        x: &[WireId],
        y: &[Operand],
    ) -> Result<(), LimitFault>
        requires carriers { length carriers.now ≡ length y.now }
        requires lengths { length x.now ≡ length y.now }
        requires targets { AreTargets self.old.draft x.now }
        requires carriers_safe { AllSafe (length self.old.draft.wires) no_target carriers.now }
        requires safe { AllSafe (length self.old.draft.wires) (among x.now) (under self.old.setting y.now) }
        ensures ok { IfOk result (λ _. Went self.old self.new (into_by self.old.setting carriers.now x.now y.now (begun self.old.draft))) }
        ensures refused { IfErr result (λ e. Refused e (into_by self.old.setting carriers.now x.now y.now (begun self.old.draft))) }
    {
        let carries = self.carry(carriers, y)?;
        self.flip_down(x, y, carries.as_slice())
    }
}
