//! The wires of values.

ghost use Rattle.std.specs.Prelude.{◌≡◌, length, IfOk, OnOk};
ghost use Rattle.bit_arith.specs.Built.{begun};
ghost use Rattle.bit_arith.specs.Does.{Below};
ghost use Rattle.flat_form.specs.State.{wires_in};
ghost use Rattle.flat_form.specs.Flat.{end_all, wire_lists, joined};
ghost use Rattle.flat_form.specs.Names.{AllOf};

use crate::ends::end_all;
use crate::uses::operands_of;
use crate::wires::wires_in;
use bit_arith::{Builder, Operand};
use flat_core::{End, WireList, WireLists};
use flat_form::Known;
use std::alloc::{AllocError, Global};

/// The wires that show each value.
pub(crate) fn wire_lists(alloc: Global, values: &[Known]) -> Result<WireLists, AllocError>
    ensures { IfOk result (λ ws. ws ≡ wire_lists values.now) }
{
    let mut lists = WireLists::new(alloc);
    for value in values {
        let wires = wire_list(alloc, operands_of(value))?;
        lists.push(wires)?;
    }
    Ok(lists)
}

/// The wires that operands name.
fn wire_list(alloc: Global, operands: &[Operand]) -> Result<WireList, AllocError>
    ensures { IfOk result (λ ws. ws ≡ wires_in operands.now) }
{
    let mut wires = WireList::new(alloc);
    for operand in operands {
        match *operand {
            Operand::Const(_) => {}
            Operand::Literal(literal) => wires.push(literal.wire)?,
        }
    }
    Ok(wires)
}

/// Sets the end of the wires that show values.
pub(crate) fn end_values(
    builder: &mut Builder,
    alloc: Global,
    end: End,
    values: &[Known],
) -> Result<(), AllocError>
    requires { AllOf (λ ws. Below (length builder.old.draft.wires) ws) (wire_lists values.now) }
    ensures { OnOk result (builder.new ≡ record { draft = (end_all end (joined (wire_lists values.now)) (begun builder.old.draft)).draft; setting = builder.old.setting }) }
{
    for value in values {
        let wires = wires_in(alloc, operands_of(value))?;
        end_all(builder, end, wires.as_slice());
    }
    Ok(())
}
