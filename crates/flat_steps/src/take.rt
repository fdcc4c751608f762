//! Wires for a new owner.

ghost use Rattle.std.specs.Prelude.{◌≡◌, ◌||◌, true, [], ◌∷◌, length, IfOk, IfErr};
ghost use Rattle.bit_arith.specs.Built.{begun, under};
ghost use Rattle.bit_arith.specs.Calls.{AllSafe, AreTargets, Safe, no_target, Went, Refused};
ghost use Rattle.flat_form.specs.State.{are_new, copied, taken, wires_in};

use crate::wires::all_made;
use bit_arith::{Builder, Operand};
use flat_form::TypedBits;
use silq_io::LimitFault;
use silq_types::List;
use std::alloc::Global;

/// The wires of a value for a new owner: its own or those that its expression made, and else copies.
pub(crate) fn taken(
    builder: &mut Builder,
    alloc: Global,
    value: TypedBits,
) -> Result<TypedBits, LimitFault>
    requires safe { AllSafe (length builder.old.draft.wires) no_target (under builder.old.setting value.operands) }
    ensures answer { IfOk result (λ v. v ≡ record value { operands = (taken builder.old.setting value (begun builder.old.draft)).answer }) }
    ensures ok { IfOk result (λ _. Went builder.old builder.new (taken builder.old.setting value (begun builder.old.draft)).built) }
    ensures targets { (value.own || are_new builder.old.draft value.began value.operands ≡ true → AreTargets builder.old.draft (wires_in value.operands)) → IfOk result (λ v. AreTargets builder.new.draft (wires_in v.operands)) }
    ensures refused { IfErr result (λ e. Refused e (taken builder.old.setting value (begun builder.old.draft)).built) }
{
    if value.own || are_new(builder, value.began, value.operands.as_slice()) {
        return Ok(value);
    }
    let operands = copied(builder, alloc, value.operands.as_slice())?;
    Ok(TypedBits { operands, ..value })
}

/// Copies of operands on new wires.
pub(crate) fn copied(
    builder: &mut Builder,
    alloc: Global,
    operands: &[Operand],
) -> Result<List<Operand>, LimitFault>
    requires safe { AllSafe (length builder.old.draft.wires) no_target (under builder.old.setting operands.now) }
    ensures answer { IfOk result (λ ps. ps ≡ (copied builder.old.setting operands.now (begun builder.old.draft)).answer) }
    ensures ok { IfOk result (λ _. Went builder.old builder.new (copied builder.old.setting operands.now (begun builder.old.draft)).built) }
    ensures targets { IfOk result (λ ps. AreTargets builder.new.draft (wires_in ps)) }
    ensures refused { IfErr result (λ e. Refused e (copied builder.old.setting operands.now (begun builder.old.draft)).built) }
{
    let wires = builder.copy(operands)?;
    Ok(all_made(alloc, wires.as_slice())?)
}

/// Whether operands are wires numbered from here on that were not measured.
fn are_new(builder: &Builder, began: usize, operands: &[Operand]) -> bool
    requires { AllSafe (length builder.now.draft.wires) no_target operands.now }
    ensures { result ≡ are_new builder.now.draft began operands.now }
{
    for p in operands {
        if !is_new(builder, began, *p) {
            return false;
        }
    }
    true
}

/// Whether an operand is such a wire.
fn is_new(builder: &Builder, began: usize, operand: Operand) -> bool
    requires { Safe (length builder.now.draft.wires) no_target operand }
    ensures { result ≡ are_new builder.now.draft began (operand ∷ []) }
{
    match operand {
        Operand::Const(_) => false,
        Operand::Literal(lit) => {
            lit.positive && began <= lit.wire.number as usize && !builder.is_measured(lit.wire)
        }
    }
}
