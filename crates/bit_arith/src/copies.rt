//! Flips of many wires: copies of operands, and exclusive or.

ghost use Rattle.std.specs.Prelude.{◌≡◌, ◌++◌, ◌∷◌, [], length, map, IfOk, IfErr};
ghost use Rattle.flat_core.specs.Label.{same_wire};
ghost use Rattle.bit_arith.specs.Built.{begun, under};
ghost use Rattle.bit_arith.specs.Rows.{copy, flip_each, flip_by, flip_up, flip_down, alone, triples, pairs, products};
ghost use Rattle.bit_arith.specs.Calls.{IsTarget, AreTargets, AllSafe, no_target, among, Went, Refused};

use crate::builder::Builder;
use crate::operand::Operand;
use flat_core::WireId;
use silq_io::LimitFault;

impl Builder {
    /// New wires, each flipped by its operand.
    pub fn copy(&mut self, list: &[Operand]) -> Result<Vec<WireId>, LimitFault>
        requires safe { AllSafe (length self.old.draft.wires) no_target (under self.old.setting list.now) }
        ensures answer { IfOk result (λ ws. ws.items ≡ (copy self.old.setting list.now (begun self.old.draft)).answer) }
        ensures ok { IfOk result (λ _. Went self.old self.new (copy self.old.setting list.now (begun self.old.draft)).built) }
        ensures targets { IfOk result (λ ws. AreTargets self.new.draft ws.items) }
        ensures refused { IfErr result (λ e. Refused e (copy self.old.setting list.now (begun self.old.draft)).built) }
    {
        let wires = self.new_wires(list.len())?;
        self.flip_each(wires.as_slice(), list)?;
        Ok(wires)
    }

    /// Flips each wire by its operand, from the low end up.
    pub fn flip_each(&mut self, wires: &[WireId], list: &[Operand]) -> Result<(), LimitFault>
        requires lengths { length wires.now ≡ length list.now }
        requires targets { AreTargets self.old.draft wires.now }
        requires safe { AllSafe (length self.old.draft.wires) (among wires.now) (under self.old.setting list.now) }
        ensures ok { IfOk result (λ _. Went self.old self.new (flip_each self.old.setting wires.now list.now (begun self.old.draft))) }
        ensures refused { IfErr result (λ e. Refused e (flip_each self.old.setting wires.now list.now (begun self.old.draft))) }
    {
        for (i, wire) in wires.iter().enumerate() {
            self.flip(*wire, &[list[i]])?;
        }
        Ok(())
    }

    // Flips a wire by each operand in turn.
    pub(crate) fn flip_alone(&mut self, w: WireId, list: &[Operand]) -> Result<(), LimitFault>
        requires target { IsTarget self.old.draft w }
        requires safe { AllSafe (length self.old.draft.wires) (same_wire w) (under self.old.setting list.now) }
        ensures ok { IfOk result (λ _. Went self.old self.new (flip_by self.old.setting w (map alone list.now) (begun self.old.draft))) }
        ensures refused { IfErr result (λ e. Refused e (flip_by self.old.setting w (map alone list.now) (begun self.old.draft))) }
    {
        for p in list {
            self.flip(w, &[*p])?;
        }
        Ok(())
    }

    // Flips each wire by the operands of three lists, from the low end up.
    pub(crate) fn flip_by_three(
        &mut self,
        wires: &[WireId],
        a: &[Operand],
        b: &[Operand],
        c: &[Operand],
    ) -> Result<(), LimitFault>
        requires first { length wires.now ≡ length a.now }
        requires second { length wires.now ≡ length b.now }
        requires third { length wires.now ≡ length c.now }
        requires targets { AreTargets self.old.draft wires.now }
        requires safe { AllSafe (length self.old.draft.wires) (among wires.now) (under self.old.setting (a.now ++ b.now ++ c.now)) }
        ensures ok { IfOk result (λ _. Went self.old self.new (flip_up self.old.setting wires.now (triples a.now b.now c.now) (begun self.old.draft))) }
        ensures refused { IfErr result (λ e. Refused e (flip_up self.old.setting wires.now (triples a.now b.now c.now) (begun self.old.draft))) }
    {
        for (i, wire) in wires.iter().enumerate() {
            self.flip_alone(*wire, &[a[i], b[i], c[i]])?;
        }
        Ok(())
    }

    // Flips each wire by the operands of two lists, from the top down.
    pub(crate) fn flip_down(
        &mut self,
        wires: &[WireId],
        a: &[Operand],
        b: &[Operand],
    ) -> Result<(), LimitFault>
        requires first { length wires.now ≡ length a.now }
        requires second { length wires.now ≡ length b.now }
        requires targets { AreTargets self.old.draft wires.now }
        requires safe { AllSafe (length self.old.draft.wires) (among wires.now) (under self.old.setting (a.now ++ b.now)) }
        ensures ok { IfOk result (λ _. Went self.old self.new (flip_down self.old.setting wires.now (pairs a.now b.now) (begun self.old.draft))) }
        ensures refused { IfErr result (λ e. Refused e (flip_down self.old.setting wires.now (pairs a.now b.now) (begun self.old.draft))) }
    {
        let mut i = wires.len();
        while i > 0 {
            i -= 1;
            self.flip_alone(wires[i], &[a[i], b[i]])?;
        }
        Ok(())
    }

    // Flips each wire by the product of one operand and its own.
    pub(crate) fn flip_products(
        &mut self,
        wires: &[WireId],
        p: Operand,
        list: &[Operand],
    ) -> Result<(), LimitFault>
        requires lengths { length wires.now ≡ length list.now }
        requires targets { AreTargets self.old.draft wires.now }
        requires safe { AllSafe (length self.old.draft.wires) (among wires.now) (under self.old.setting (p ∷ list.now)) }
        ensures ok { IfOk result (λ _. Went self.old self.new (flip_up self.old.setting wires.now (products p list.now) (begun self.old.draft))) }
        ensures refused { IfErr result (λ e. Refused e (flip_up self.old.setting wires.now (products p list.now) (begun self.old.draft))) }
    {
        for (i, wire) in wires.iter().enumerate() {
            self.flip(*wire, &[p, list[i]])?;
        }
        Ok(())
    }
}
