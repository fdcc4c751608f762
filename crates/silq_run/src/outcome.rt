//! Outcomes of measurements.

ghost use Rattle.std.specs.Prelude.{◌≡◌, false, get_or, IfOk, OnOk};
ghost use Rattle.silq_mean.specs.Value.{bits_of};
ghost use Rattle.silq_mean.specs.Term.{last};
ghost use Rattle.silq_mean.specs.Effect.{agrees, told};
ghost use Rattle.silq_mean.specs.Table.{outcome_of};

use crate::term::Term;
use std::alloc::{AllocError, Global};
use sum_laws::BitList;

impl Term {
    /// The bits of the last value.
    pub(crate) fn last_bits(&self, alloc: Global) -> Result<BitList, AllocError>
        ensures { IfOk result (λ bs. bs ≡ bits_of (last self.now)) }
    {
        let mut bits = BitList::new(alloc);
        if let Some(value) = self.values.last() {
            value.push_bits(&mut bits)?;
        }
        Ok(bits)
    }

    /// Whether these bits are the outcomes that come.
    pub(crate) fn agrees(&self, outcome: &[bool], bits: &[bool]) -> Result<bool, AllocError>
        ensures { IfOk result (λ b. b ≡ agrees (outcome_of outcome.now) self.now.measured bits.now) }
    {
        let mut number = self.measured;
        for bit in bits {
            if outcome_bit(outcome, number) != *bit {
                return Ok(false);
            }
            number = number.checked_add(1).ok_or(AllocError)?;
        }
        Ok(true)
    }

    /// Counts outcomes that were told.
    pub(crate) fn tell(&mut self, bits: &[bool]) -> Result<(), AllocError>
        ensures { OnOk result (self.new ≡ told bits.now self.old) }
    {
        let measured = self
            .measured
            .checked_add(bits.len() as u64)
            .ok_or(AllocError)?;
        self.measured = measured;
        Ok(())
    }
}

/// The outcome with a number, 0 past the end.
fn outcome_bit(outcome: &[bool], number: u64) -> bool
    ensures { result ≡ outcome_of outcome.now number }
{
    outcome.get(number as usize).copied().unwrap_or(false)
}
