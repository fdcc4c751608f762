//! How many bits are given, and how many are wanted.

ghost use Rattle.std.specs.Prelude.{◌≡◌, length, IfOk, IfErr, OnOk, Ok};
ghost use Rattle.silq_types.specs.Types.{shape_bits};
ghost use Rattle.silq_mean.specs.Table.{total_size, wanted};
ghost use Rattle.source_table.specs.Faults.{Refuses};

use crate::fault::RunFault;
use silq_types::Shape;
use std::alloc::AllocError;

/// Tests that so many bits are given as are wanted.
pub(crate) fn expect(bits: &[bool], count: u64) -> Result<(), RunFault>
    ensures ok { OnOk result (wanted (length bits.now) count ≡ Ok tt) }
    ensures refused { IfErr result (λ f. Refuses f (wanted (length bits.now) count)) }
{
    let given = bits.len() as u64;
    if given == count {
        Ok(())
    } else {
        Err(RunFault::Bits {
            given,
            wanted: count,
        })
    }
}

/// How many bits values of these shapes have together.
pub(crate) fn total_bits(shapes: &[Shape]) -> Result<u64, AllocError>
    ensures { IfOk result (λ n. n ≡ total_size shapes.now) }
{
    let mut total: u64 = 0;
    for shape in shapes {
        total = total.checked_add(bits_of(*shape)).ok_or(AllocError)?;
    }
    Ok(total)
}

/// How many bits a value has.
fn bits_of(shape: Shape) -> u64
    ensures { result ≡ shape_bits shape }
{
    match shape {
        Shape::Bit => 1,
        Shape::UInt(width) => width as u64,
        Shape::Int(width) => width as u64,
        Shape::Array(element, len) => element.bits() * len as u64,
    }
}
