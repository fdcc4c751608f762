//! What a term shows at the end: its value's bits and its amplitude.

ghost use Rattle.std.specs.Prelude.{◌≡◌, ◌≤◌, flat_map, reverse, IfOk};
ghost use Rattle.amp_core.specs.Amplitude.{one, times};
ghost use Rattle.silq_mean.specs.Value.{bits_of};
ghost use Rattle.silq_mean.specs.Table.{shown};

use crate::term::Term;
use amp_core::Amp;
use std::alloc::{AllocError, Global};
use sum_laws::BitList;

impl Term {
    /// The bits of the values under way, the first value first.
    fn bits(&self, alloc: Global) -> Result<BitList, AllocError>
        ensures { IfOk result (λ bs. bs ≡ flat_map bits_of (reverse self.now.values)) }
    {
        let mut bits = BitList::new(alloc);
        for value in self.values.as_slice() {
            value.push_bits(&mut bits)?;
        }
        Ok(bits)
    }
}

impl Term {
    /// The factor.
    #[tactic(auto, using(crate::proofs::Turns::amplitude_is))]
    fn amplitude(&self) -> Result<Amp, AllocError>
        ensures { IfOk result (λ x. x ≡ times self.now.eighths self.now.halvings one) }
    {
        if self.halvings > u64::from(u32::MAX) {
            return Err(AllocError);
        }
        let turned = Amp::ONE.mul_w((self.eighths % 8) as u8);
        Ok(with_power(turned, self.halvings as u32))
    }

    /// The bits and the factor.
    pub(crate) fn row(&self, alloc: Global) -> Result<(BitList, Amp), AllocError>
        ensures { IfOk result (λ row. row ≡ shown self.now) }
    {
        let bits = self.bits(alloc)?;
        let amplitude = self.amplitude()?;
        Ok((bits, amplitude))
    }
}

/// The same numerator over another power of root two.
fn with_power(x: Amp, k: u32) -> Amp
    ensures { result ≡ record x { k = k } }
{
    Amp { k, ..x }
}
