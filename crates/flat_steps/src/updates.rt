//! Updates, and forgotten values.

ghost use Rattle.std.specs.Prelude.{◌≡◌, ℕ, IfErr, OnOk};
ghost use Rattle.silq_mean.specs.Effect.{step, claim, update_to};
ghost use Rattle.bit_arith.specs.Built.{begun};
ghost use Rattle.bit_arith.specs.Calls.{Went, Refused};
ghost use Rattle.flat_form.specs.State.{operands_of, typed_as, part_shape, part_of, wires_in};
ghost use Rattle.flat_form.specs.Flat.{flat, update_by};
ghost use Rattle.flat_form.specs.Fine.{IsPart};
ghost use Rattle.flat_steps.specs.Changes.{MayChangeBy, zeroed};
ghost use Rattle.flat_steps.specs.Ready.{Ready};

use crate::ends::end_all;
use crate::parts::{part_of, part_shape};
use crate::state::Flattening;
use crate::typed::typed_as;
use crate::uses::operands_of;
use crate::wires::wires_in;
use bit_arith::{Builder, Operand};
use flat_core::{End, WireId};
use flat_form::{Known, TypedBits};
use silq_io::LimitFault;
use silq_tree::{NameId, UpdateOp};
use std::alloc::Global;

// Updates wires by operands.
fn update_by(
    builder: &mut Builder,
    op: UpdateOp,
    wires: &[WireId],
    operands: &[Operand],
) -> Result<(), LimitFault>
    requires { MayChangeBy builder.old wires.now operands.now }
    ensures ok { OnOk result (Went builder.old builder.new (update_by op builder.old.setting wires.now operands.now (begun builder.old.draft))) }
    ensures refused { IfErr result (λ e. Refused e (update_by op builder.old.setting wires.now operands.now (begun builder.old.draft))) }
{
    match op {
        UpdateOp::Add => builder.add_into(wires, operands),
        UpdateOp::Sub => builder.sub_into(wires, operands),
        UpdateOp::Xor => builder.flip_each(wires, operands),
    }
}

// Changes a part of a variable by a value.
fn update_part(
    builder: &mut Builder,
    alloc: Global,
    target: &TypedBits,
    indices: &[i64],
    op: UpdateOp,
    value: Known,
) -> Result<(), LimitFault>
    requires there { IsPart target.now indices.now }
    requires change { MayChangeBy builder.old (wires_in (part_of target.now.shape indices.now target.now.operands)) (operands_of (typed_as 0 (part_shape target.now.shape indices.now) value)) }
    ensures ok { OnOk result (Went builder.old builder.new (update_by op builder.old.setting (wires_in (part_of target.now.shape indices.now target.now.operands)) (operands_of (typed_as 0 (part_shape target.now.shape indices.now) value)) (begun builder.old.draft))) }
    ensures refused { IfErr result (λ e. Refused e (update_by op builder.old.setting (wires_in (part_of target.now.shape indices.now target.now.operands)) (operands_of (typed_as 0 (part_shape target.now.shape indices.now) value)) (begun builder.old.draft))) }
{
    let part = part_of(target.shape, indices, target.operands.as_slice());
    let wires = wires_in(alloc, part)?;
    let typed = typed_as(alloc, 0, part_shape(target.shape, indices), value)?;
    update_by(builder, op, wires.as_slice(), operands_of(&typed))
}

// Undoes operands on wires, which are 0 then.
fn zero_wires(
    builder: &mut Builder,
    wires: &[WireId],
    operands: &[Operand],
) -> Result<(), LimitFault>
    requires { MayChangeBy builder.old wires.now operands.now }
    ensures ok { OnOk result (Went builder.old builder.new (zeroed builder.old.setting wires.now operands.now (begun builder.old.draft))) }
    ensures refused { IfErr result (λ e. Refused e (zeroed builder.old.setting wires.now operands.now (begun builder.old.draft))) }
{
    builder.flip_each(wires, operands)?;
    end_all(builder, End::Zeroed, wires);
    Ok(())
}

// Undoes a value on the wires of a variable, which are 0 then.
fn zero_variable(
    builder: &mut Builder,
    alloc: Global,
    target: &TypedBits,
    value: &Known,
) -> Result<(), LimitFault>
    requires { MayChangeBy builder.old (wires_in target.now.operands) (operands_of (typed_as 0 target.now.shape value.now)) }
    ensures ok { OnOk result (Went builder.old builder.new (zeroed builder.old.setting (wires_in target.now.operands) (operands_of (typed_as 0 target.now.shape value.now)) (begun builder.old.draft))) }
    ensures refused { IfErr result (λ e. Refused e (zeroed builder.old.setting (wires_in target.now.operands) (operands_of (typed_as 0 target.now.shape value.now)) (begun builder.old.draft))) }
{
    let wires = wires_in(alloc, target.operands.as_slice())?;
    if let Known::Static(number) = value {
        let typed = typed_as(alloc, 0, target.shape, Known::Static(*number))?;
        return zero_wires(builder, wires.as_slice(), operands_of(&typed));
    }
    zero_wires(builder, wires.as_slice(), operands_of(value))
}

impl Flattening {
    /// Changes a variable, or a part of one, by the last value.
    pub fn update_to(
        &mut self,
        name: NameId,
        indices: &[i64],
        op: UpdateOp,
    ) -> Result<(), LimitFault>
        requires { Ready (step (update_to name indices.now op)) self.old }
        ensures ok { OnOk result (self.new ≡ flat (step (update_to name indices.now op)) self.old) }
        ensures refused { IfErr result (λ e. Refused e (flat (step (update_to name indices.now op)) self.old).built) }
    {
        let value = self.values.take_last();
        let Some(Known::Shown(target)) = self.variables.find(name) else {
            return Ok(());
        };
        update_part(&mut self.builder, self.alloc, target, indices, op, value)?;
        Ok(())
    }

    /// The variable is said to be equal to the last value, which is undone on its wires.
    pub fn claim(&mut self, name: NameId) -> Result<(), LimitFault>
        requires ready { (line : ℕ) → Ready (claim line name) self.old }
        ensures ok { OnOk result ((line : ℕ) → self.new ≡ flat (claim line name) self.old) }
        ensures refused { IfErr result (λ e. (line : ℕ) → Refused e (flat (claim line name) self.old).built) }
    {
        let Some(value) = self.values.pop() else {
            return Err(LimitFault::Memory);
        };
        if let Known::Shown(target) = self.variables.replace(name, Known::Absent) {
            zero_variable(&mut self.builder, self.alloc, &target, &value)?;
        }
        self.values.push(value)?;
        Ok(())
    }
}
