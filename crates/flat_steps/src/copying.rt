//! Operands again.

ghost use Rattle.std.specs.Prelude.{◌≡◌, IfOk};

use bit_arith::Operand;
use silq_types::List;
use std::alloc::{AllocError, Global};

/// The same operands again.
pub(crate) fn copied_operands(
    alloc: Global,
    operands: &[Operand],
) -> Result<List<Operand>, AllocError>
    ensures { IfOk result (λ ps. ps ≡ operands.now) }
{
    let mut copies = List::new(alloc);
    for operand in operands {
        copies.push(*operand)?;
    }
    Ok(copies)
}
