//! From a term list to the rows of its table.

ghost use Rattle.std.specs.Prelude.{◌≡◌, ℕ, Bool, List, IfOk, OnOk};
ghost use Rattle.amp_core.specs.Size.{Small};
ghost use Rattle.sum_laws.specs.Partial.{PartialSumsSmall};
ghost use Rattle.sum_laws.specs.InOrder.{NeverFalling, terms_of, AddsRow};
ghost use Rattle.sum_laws.specs.Table.{TableOf};

use crate::bits::BitList;
use amp_core::Amp;
use std::alloc::AllocError;
use std::mem;

// Puts terms in text order of their values, those of one value in their old order.
pub fn sort(terms: &mut Vec<(BitList, Amp)>) -> Result<(), AllocError>
    ensures in_order { OnOk result (NeverFalling terms.new.items) }
    ensures each_value { (v : List Bool) → terms_of v terms.new.items ≡ terms_of v terms.old.items }
{
    terms.sort_by(|first, second| first.0.cmp(&second.0))
}

// The rows of the table of terms that are in order.
pub fn rows(terms: Vec<(BitList, Amp)>) -> Result<Vec<(BitList, Amp)>, AllocError>
    requires in_order { NeverFalling terms.items }
    requires small { (v : List Bool) → PartialSumsSmall v terms.items }
    ensures { IfOk result (λ rows. TableOf terms.items rows.items) }
{
    let mut rows = Vec::new(*terms.allocator());
    let mut terms = terms.into_iter();
    let Some(mut sum) = terms.next() else {
        return Ok(rows);
    };
    for term in terms {
        if term.0 == sum.0 {
            sum.1 = sum.1.add(&term.1);
        } else {
            add_row(&mut rows, mem::replace(&mut sum, term))?;
        }
    }
    add_row(&mut rows, sum)?;
    Ok(rows)
}

// Adds the row of a value and its whole sum, but for a sum of zero.
fn add_row(rows: &mut Vec<(BitList, Amp)>, sum: (BitList, Amp)) -> Result<(), AllocError>
    requires { Small sum.1 }
    ensures { OnOk result (AddsRow sum rows.old.items rows.new.items) }
{
    if !sum.1.is_zero() {
        rows.push((sum.0, sum.1.reduced()))?;
    }
    Ok(())
}
