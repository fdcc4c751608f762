//! Operands for the bits of wires.

ghost use Rattle.std.specs.Prelude.{◌≡◌, IfOk};
ghost use Rattle.bit_arith.specs.Built.{made as made_of, all_made, all_negated, top_negated};
ghost use Rattle.bit_arith.specs.Rows.{signed};

use crate::operand::Operand;
use flat_core::{Lit, WireId};
use std::alloc::{AllocError, Global};

/// The operand for a wire's own bit.
pub(crate) fn made(wire: WireId) -> Operand
    ensures { result ≡ made_of wire }
{
    Operand::Literal(Lit {
        wire,
        positive: true,
    })
}

/// The operands for the bits of some wires.
pub(crate) fn all_made(alloc: Global, wires: &[WireId]) -> Result<Vec<Operand>, AllocError>
    ensures { IfOk result (λ ps. ps.items ≡ all_made wires.now) }
{
    wires.iter().map(|wire| made(*wire)).collect(alloc)
}

/// The opposite operands.
pub(crate) fn all_negated(alloc: Global, list: &[Operand]) -> Result<Vec<Operand>, AllocError>
    ensures { IfOk result (λ ps. ps.items ≡ all_negated list.now) }
{
    list.iter().map(|p| p.negated()).collect(alloc)
}

/// The operands with the top one negated.
pub(crate) fn top_negated(alloc: Global, list: &[Operand]) -> Result<Vec<Operand>, AllocError>
    ensures { IfOk result (λ ps. ps.items ≡ top_negated list.now) }
{
    let Some((top, lower)) = list.split_last() else {
        return Ok(Vec::new(alloc));
    };
    let mut negated = lower.to_vec(alloc)?;
    negated.push(top.negated())?;
    Ok(negated)
}

/// The other operand where a bit is 1.
pub(crate) fn signed(bit: bool, p: Operand) -> Operand
    ensures { result ≡ signed bit p }
{
    if bit { p.negated() } else { p }
}
