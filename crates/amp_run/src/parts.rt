//! The terms that a statement makes of terms.
//!
//! They are put into three lists, each of which is in text order where the terms were, so that a sort of the joined
//! lists has three long runs to merge and costs about as many steps as there are terms.

ghost use Rattle.std.specs.Prelude.{◌≡◌, ◌<◌, Bool, [], ◌∷◌, ◌++◌, length, map, All, IfOk, OnOk, if◌then◌else◌};
ghost use Rattle.amp_core.specs.Amplitude.{times};
ghost use Rattle.amp_core.specs.Size.{Small};
ghost use Rattle.sum_laws.specs.Rearranged.{Rearranged};
ghost use Rattle.sum_laws.specs.Terms.{apply, branched};
ghost use Rattle.gate_core.specs.Circuit.{qubits_of, bits_of};
ghost use Rattle.gate_core.specs.Local.{AllBelow};
ghost use Rattle.gate_core.specs.Meaning.{branches, flipped};
ghost use Rattle.amp_run.specs.Column.{column_branches, ColumnFits};
ghost use Rattle.amp_run.specs.Parts.{all_parts};

use crate::column::{Column, column_of};
use amp_core::Amp;
use gate_core::Gate;
use std::alloc::{AllocError, Global};
use sum_laws::{BitList, Terms};

// Terms: those of a value that was there before, those of a value in which one bit went from 0 to 1, and those of
// one in which it went from 1 to 0.
#[derive(Drop)]
pub struct Parts {
    kept: Terms,
    raised: Terms,
    lowered: Terms,
}

impl Parts {
    // No terms.
    fn new(alloc: Global) -> Parts
        ensures { all_parts result ≡ [] }
    {
        Parts {
            kept: Terms::new(alloc),
            raised: Terms::new(alloc),
            lowered: Terms::new(alloc),
        }
    }

    // Adds a term with the bit of q flipped.
    fn add_flipped(&mut self, q: u32, mut bits: BitList, amp: Amp) -> Result<(), AllocError>
        requires { q < length bits }
        ensures { OnOk result (Rearranged (all_parts self.old ++ (flipped bits q, amp) ∷ []) (all_parts self.new)) }
    {
        let i = q as usize;
        if bits.as_slice()[i] {
            bits.set(i, false);
            self.lowered.push((bits, amp))
        } else {
            bits.set(i, true);
            self.raised.push((bits, amp))
        }
    }

    // Adds the terms that a column makes of one.
    fn add(
        &mut self,
        alloc: Global,
        column: Column,
        bits: BitList,
        amp: Amp,
    ) -> Result<(), AllocError>
        requires small { Small amp }
        requires fits { ColumnFits (length bits) column }
        ensures { OnOk result (Rearranged (all_parts self.old ++ map (branched amp) (column_branches column bits)) (all_parts self.new)) }
    {
        match column {
            Column::Gone => Ok(()),
            Column::Turned { eighths } => self.kept.push((bits, amp.mul_w(eighths))),
            Column::Flipped { q, eighths } => self.add_flipped(q, bits, amp.mul_w(eighths)),
            Column::Halved { q } => {
                let other = BitList::from_slice(alloc, bits.as_slice())?;
                let sign = sign_of(bits.as_slice()[q as usize]);
                self.kept.push((bits, halved(&amp, sign)))?;
                self.add_flipped(q, other, halved(&amp, 0))
            }
        }
    }

    // All terms.
    pub fn joined(self) -> Result<Terms, AllocError>
        ensures { IfOk result (λ terms. terms ≡ all_parts self) }
    {
        let mut terms = self.kept;
        append(&mut terms, self.raised)?;
        append(&mut terms, self.lowered)?;
        Ok(terms)
    }
}

// The product with w^eighths over root two.
fn halved(amp: &Amp, eighths: u8) -> Amp
    requires { Small amp.now }
    ensures { result ≡ times eighths 1 amp.now }
{
    let mut product = amp.mul_w(eighths);
    product.k += 1;
    product
}

// The eighths of the Hadamard matrix from a bit to itself: -1 from 1 to 1.
fn sign_of(bit: bool) -> u8
    ensures { result ≡ (if bit then 4 else 0) }
{
    if bit { 4 } else { 0 }
}

// Adds terms after others.
fn append(terms: &mut Terms, more: Terms) -> Result<(), AllocError>
    ensures { OnOk result (terms.new ≡ terms.old ++ more) }
{
    for term in more.into_vec() {
        terms.push(term)?;
    }
    Ok(())
}

// The terms that a statement makes of terms, by the outcome bits and those measured so far.
pub fn parts_of(
    alloc: Global,
    terms: Terms,
    gate: Gate,
    outcome: &[bool],
    known: &[bool],
) -> Result<Parts, AllocError>
    requires small { All (λ t. Small t.1) terms }
    requires qubits { All (λ t. AllBelow (length t.0) (qubits_of gate)) terms }
    requires outcome_bits { AllBelow (length outcome.now) (bits_of gate) }
    requires known_bits { AllBelow (length known.now) (bits_of gate) }
    ensures { IfOk result (λ parts. Rearranged (apply (branches outcome.now known.now gate) terms) (all_parts parts)) }
{
    let mut parts = Parts::new(alloc);
    for (bits, amp) in terms.into_vec() {
        let column = column_of(gate, outcome, known, bits.as_slice());
        parts.add(alloc, column, bits, amp)?;
    }
    Ok(parts)
}
