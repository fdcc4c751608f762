//! Terms and their tables.

ghost use Rattle.std.specs.Prelude.{◌≤◌, Bool, List, length, IfOk};
ghost use Rattle.sum_laws.specs.Partial.{PartialSumsSmall};
ghost use Rattle.sum_laws.specs.Units.{IsUnit};

use amp_core::Amp;
use std::alloc::{AllocError, Global};
use std::test::Fail;
use sum_laws::{BitList, Table, Terms};

// A value, and w^eighths over root two^halvings.
type Single<'a> = (&'a [bool], u8, u8);

const O: bool = false;

const I: bool = true;

fn amplitude_of(eighths: u8, halvings: u8) -> Amp
    requires { halvings ≤ 50 }
    ensures { IsUnit result }
{
    Amp {
        k: u32::from(halvings),
        ..Amp::ONE.mul_w(eighths)
    }
}

fn terms_of(alloc: Global, list: &[Single<'_>]) -> Result<Terms, AllocError>
    requires { length list.now ≤ 8 }
    ensures { IfOk result (λ terms. (v : List Bool) → PartialSumsSmall v terms) }
{
    let mut terms = Terms::new(alloc);
    for (value, eighths, halvings) in list {
        let amplitude = amplitude_of(*eighths, (*halvings).min(50));
        terms.push((BitList::from_slice(alloc, value)?, amplitude))?;
    }
    Ok(terms)
}

// Whether a row of a table has this value and amplitude.
fn has_row(table: &Table, i: usize, single: &Single<'_>) -> bool {
    let (value, eighths, halvings) = *single;
    let wanted = amplitude_of(eighths, halvings.min(50));
    table.row(i) == Some((value, wanted))
}

// Whether the table of some terms, at most eight, has exactly these rows, in this order; as a list of terms too.
fn has_table(alloc: Global, terms: &[Single<'_>], rows: &[Single<'_>]) -> Result<bool, AllocError> {
    if terms.len() > 8 {
        return Ok(false);
    }
    let table = terms_of(alloc, terms)?.merged()?;
    let mut all = table.len() == rows.len() && table.is_empty() == rows.is_empty();
    for (i, row) in rows.iter().enumerate() {
        all = all && has_row(&table, i, row);
    }
    all = all && table.row(rows.len()).is_none();
    Ok(all && table.into_terms().len() == rows.len())
}

// The amplitudes of 11 and of 10 in a Bell state.
fn of_bell(alloc: Global) -> Result<[Amp; 2], AllocError> {
    let terms = terms_of(alloc, &[(&[I, I], 0, 1), (&[O, O], 0, 1)])?;
    Ok([terms.amplitude(&[I, I]), terms.amplitude(&[I, O])])
}

#[test]
fn tables_of_terms(rt: HostRuntime) -> Result<(), Fail> {
    let alloc = rt.alloc();
    let bell = has_table(
        alloc,
        &[(&[I, I], 0, 1), (&[O, O], 0, 1)],
        &[(&[O, O], 0, 1), (&[I, I], 0, 1)],
    )?;
    // Two Hadamard gates in a row: 1/2 + 1/2 at 0, and 1/2 - 1/2 at 1.
    let cancelling = has_table(
        alloc,
        &[(&[O], 0, 2), (&[I], 0, 2), (&[O], 0, 2), (&[I], 4, 2)],
        &[(&[O], 0, 0)],
    )?;
    let ordered = has_table(
        alloc,
        &[(&[I], 1, 0), (&[O, I], 2, 0), (&[], 3, 0), (&[O], 5, 0)],
        &[(&[], 3, 0), (&[O], 5, 0), (&[O, I], 2, 0), (&[I], 1, 0)],
    )?;
    let none = has_table(alloc, &[], &[])?;
    let half = Amp { k: 1, ..Amp::ONE };
    assert!(rt; [bell, cancelling, ordered, none] == [true; 4]);
    assert!(rt; of_bell(alloc)? == [half, Amp::ZERO]);
    Ok(())
}

// A list of the bits 0 and 1.
fn two_bits(alloc: Global) -> Result<BitList, AllocError> {
    let mut bits = BitList::new(alloc);
    bits.push(O)?;
    bits.push(I)?;
    Ok(bits)
}

#[test]
fn lists_of_bits(rt: HostRuntime) -> Result<(), Fail> {
    let mut bits = two_bits(rt.alloc())?;
    let copy = bits.clone()?;
    let part = BitList::from_slice(rt.alloc(), &[O])?;
    assert!(rt;
        part < bits && copy == bits && !part.is_empty() && BitList::new(rt.alloc()).is_empty()
    );
    assert!(rt; bits.get(1) == Some(&I) && bits.get(2).is_none() && bits.len() == 2);
    bits.set(0, true);
    assert!(rt; bits.as_slice() == [I, I].as_slice());
    Ok(())
}

#[test]
fn lists_of_terms(rt: HostRuntime) -> Result<(), Fail> {
    let mut terms = Terms::new(rt.alloc());
    let empty = terms.is_empty();
    terms.push((two_bits(rt.alloc())?, Amp::ONE))?;
    let first = terms.get(0).ok_or("a term")?.1;
    assert!(rt; empty && first == Amp::ONE && terms.get(1).is_none());
    assert!(rt; terms.as_slice().len() == 1 && Terms::from_vec(terms.into_vec()).len() == 1);
    Ok(())
}
