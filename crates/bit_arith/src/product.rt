//! Products of numbers, low bit first.

ghost use Rattle.std.specs.Prelude.{◌≡◌, ◌++◌, ◌∷◌, length, IfOk, IfErr};
ghost use Rattle.bit_arith.specs.Built.{begun, under};
ghost use Rattle.bit_arith.specs.Rows.{product};
ghost use Rattle.bit_arith.specs.Multiples.{multiple_into};
ghost use Rattle.bit_arith.specs.Calls.{AreTargets, AllSafe, no_target, among, Went, Refused};

use crate::builder::Builder;
use crate::made::all_made;
use crate::operand::Operand;
use flat_core::WireId;
use silq_io::LimitFault;

impl Builder {
    /// The product, modulo 2^n, on new wires.
    pub fn product(&mut self, a: &[Operand], b: &[Operand]) -> Result<Vec<Operand>, LimitFault>
        requires lengths { length a.now ≡ length b.now }
        requires safe { AllSafe (length self.old.draft.wires) no_target (under self.old.setting (a.now ++ b.now)) }
        ensures answer { IfOk result (λ ps. ps.items ≡ (product self.old.setting a.now b.now (begun self.old.draft)).answer) }
        ensures ok { IfOk result (λ _. Went self.old self.new (product self.old.setting a.now b.now (begun self.old.draft)).built) }
        ensures refused { IfErr result (λ e. Refused e (product self.old.setting a.now b.now (begun self.old.draft)).built) }
    {
        let wires = self.new_wires(a.len())?;
        for (i, p) in a.iter().enumerate() {
            self.add_multiple(&wires[i..], *p, &b[..b.len() - i])?;
        }
        Ok(all_made(self.alloc, wires.as_slice())?)
    }

    // Adds the product of a number and one bit to wires.
    fn add_multiple(
        &mut self,
        wires: &[WireId],
        p: Operand,
        list: &[Operand],
    ) -> Result<(), LimitFault>
        requires lengths { length wires.now ≡ length list.now }
        requires targets { AreTargets self.old.draft wires.now }
        requires safe { AllSafe (length self.old.draft.wires) (among wires.now) (under self.old.setting (p ∷ list.now)) }
        ensures ok { IfOk result (λ _. Went self.old self.new (multiple_into self.old.setting wires.now p list.now (begun self.old.draft))) }
        ensures refused { IfErr result (λ e. Refused e (multiple_into self.old.setting wires.now p list.now (begun self.old.draft))) }
    {
        let multiple = self.new_wires(list.len())?;
        self.flip_products(multiple.as_slice(), p, list)?;
        let bits = all_made(self.alloc, multiple.as_slice())?;
        self.add_into(wires, bits.as_slice())
    }
}
