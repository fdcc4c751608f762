//! Wires as operands, and operands as wires.

ghost use Rattle.std.specs.Prelude.{◌≡◌, IfOk};
ghost use Rattle.bit_arith.specs.Built.{all_made};
ghost use Rattle.flat_form.specs.State.{wires_in, are_wires, only_operand};

use bit_arith::Operand;
use flat_core::{Lit, WireId};
use silq_types::List;
use std::alloc::{AllocError, Global};

/// The wires that operands name.
pub(crate) fn wires_in(alloc: Global, operands: &[Operand]) -> Result<Vec<WireId>, AllocError>
    ensures { IfOk result (λ ws. ws.items ≡ wires_in operands.now) }
{
    let mut wires = Vec::new(alloc);
    for p in operands {
        match *p {
            Operand::Const(_) => {}
            Operand::Literal(lit) => wires.push(lit.wire)?,
        }
    }
    Ok(wires)
}

/// Wires as operands.
pub(crate) fn all_made(alloc: Global, wires: &[WireId]) -> Result<List<Operand>, AllocError>
    ensures { IfOk result (λ ps. ps ≡ all_made wires.now) }
{
    let mut list = List::new(alloc);
    for wire in wires {
        list.push(Operand::Literal(Lit {
            wire: *wire,
            positive: true,
        }))?;
    }
    Ok(list)
}

/// Whether operands are the wires themselves.
pub(crate) fn are_wires(operands: &[Operand]) -> bool
    ensures { result ≡ are_wires operands.now }
{
    for p in operands {
        match *p {
            Operand::Const(_) => return false,
            Operand::Literal(lit) => {
                if !lit.positive {
                    return false;
                }
            }
        }
    }
    true
}

/// The operand of a bit.
pub(crate) fn only_operand(operands: &[Operand]) -> Operand
    ensures { result ≡ only_operand operands.now }
{
    match operands.first() {
        Some(p) => *p,
        None => Operand::Const(false),
    }
}
