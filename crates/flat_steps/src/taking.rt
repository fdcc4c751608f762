//! What takes values over.

ghost use Rattle.std.specs.Prelude.{◌≡◌, length, IfOk, IfErr, OnOk};
ghost use Rattle.silq_mean.specs.Effect.{step, receive};
ghost use Rattle.bit_arith.specs.Built.{begun, under};
ghost use Rattle.bit_arith.specs.Calls.{AllSafe, no_target, Went, Refused};
ghost use Rattle.flat_form.specs.declared.known.Known.TheVariants.{Shown};
ghost use Rattle.flat_form.specs.State.{copied, kept};
ghost use Rattle.flat_form.specs.Flat.{flat, shape_for, taken_for, class_for, began_for, receive_value};
ghost use Rattle.flat_steps.specs.Ready.{Ready};

use crate::state::Flattening;
use crate::take::{copied, taken};
use crate::typed::typed_as;
use crate::wires::are_wires;
use bit_arith::Builder;
use flat_form::{Known, TypedBits};
use silq_io::LimitFault;
use silq_mean::Receiver;
use silq_types::Need;
use std::alloc::{AllocError, Global};

// A static value takes the type for which it is taken over.
fn shape_for(
    alloc: Global,
    taker: Receiver,
    began: usize,
    value: Known,
) -> Result<Known, AllocError>
    ensures { IfOk result (λ k. k ≡ shape_for taker began value) }
{
    match taker {
        Receiver::Variable => Ok(value),
        Receiver::Argument(_, ty) => typed_as(alloc, began, ty.shape, value),
        Receiver::CallResult(ty) => typed_as(alloc, began, ty.shape, value),
        Receiver::EntryOutput(ty) => typed_as(alloc, began, ty.shape, value),
    }
}

// Whether the value that was taken over is classical.
fn class_for(taker: Receiver, value: &TypedBits) -> bool
    ensures { result ≡ class_for taker value.now }
{
    match taker {
        Receiver::Variable => value.classical,
        Receiver::Argument(_, ty) => ty.classical,
        Receiver::CallResult(ty) => ty.classical,
        Receiver::EntryOutput(ty) => ty.classical,
    }
}

// Copies of a value on new wires.
fn in_copies(
    builder: &mut Builder,
    alloc: Global,
    value: TypedBits,
) -> Result<TypedBits, LimitFault>
    requires safe { AllSafe (length builder.old.draft.wires) no_target (under builder.old.setting value.operands) }
    ensures answer { IfOk result (λ v. v ≡ record value { operands = (copied builder.old.setting value.operands (begun builder.old.draft)).answer }) }
    ensures ok { OnOk result (Went builder.old builder.new (copied builder.old.setting value.operands (begun builder.old.draft)).built) }
    ensures refused { IfErr result (λ e. Refused e (copied builder.old.setting value.operands (begun builder.old.draft)).built) }
{
    let operands = copied(builder, alloc, value.operands.as_slice())?;
    Ok(TypedBits { operands, ..value })
}

// The wires of a value that others may show too, and copies where it has none.
fn kept(builder: &mut Builder, alloc: Global, value: TypedBits) -> Result<TypedBits, LimitFault>
    requires safe { AllSafe (length builder.old.draft.wires) no_target (under builder.old.setting value.operands) }
    ensures answer { IfOk result (λ v. v ≡ record value { operands = (kept builder.old.setting value (begun builder.old.draft)).answer }) }
    ensures ok { OnOk result (Went builder.old builder.new (kept builder.old.setting value (begun builder.old.draft)).built) }
    ensures refused { IfErr result (λ e. Refused e (kept builder.old.setting value (begun builder.old.draft)).built) }
{
    if are_wires(value.operands.as_slice()) {
        return Ok(value);
    }
    in_copies(builder, alloc, value)
}

// The wires of a value that is taken over.
fn taken_for(
    builder: &mut Builder,
    alloc: Global,
    taker: Receiver,
    value: TypedBits,
) -> Result<TypedBits, LimitFault>
    requires safe { AllSafe (length builder.old.draft.wires) no_target (under builder.old.setting value.operands) }
    ensures answer { IfOk result (λ v. v ≡ record value { operands = (taken_for taker builder.old.setting value (begun builder.old.draft)).answer }) }
    ensures ok { OnOk result (Went builder.old builder.new (taken_for taker builder.old.setting value (begun builder.old.draft)).built) }
    ensures refused { IfErr result (λ e. Refused e (taken_for taker builder.old.setting value (begun builder.old.draft)).built) }
{
    match taker {
        Receiver::Variable => {
            if value.classical {
                kept(builder, alloc, value)
            } else {
                taken(builder, alloc, value)
            }
        }
        Receiver::Argument(need, ty) => {
            if need == Need::Held || ty.classical {
                kept(builder, alloc, value)
            } else {
                taken(builder, alloc, value)
            }
        }
        Receiver::CallResult(_) => taken(builder, alloc, value),
        Receiver::EntryOutput(ty) => {
            if ty.classical || value.classical {
                in_copies(builder, alloc, value)
            } else {
                taken(builder, alloc, value)
            }
        }
    }
}

impl Flattening {
    // Where the expression of a value that is taken over began: that of a call's result where the call began.
    fn began_for(&self, taker: Receiver, value: &TypedBits) -> usize
        ensures { result ≡ began_for taker value.now self.now.callers }
    {
        match taker {
            Receiver::CallResult(_) => self.callers.began_or(value.began),
            _ => value.began,
        }
    }

    // Takes a value with a type over.
    fn receive_bits(&mut self, taker: Receiver, value: TypedBits) -> Result<(), LimitFault>
        requires { AllSafe (length self.old.built.draft.wires) no_target (under self.old.setting value.operands) }
        ensures ok { OnOk result (self.new ≡ receive_value taker (Shown value) self.old) }
        ensures refused { IfErr result (λ e. Refused e (receive_value taker (Shown value) self.old).built) }
    {
        let classical = class_for(taker, &value);
        let began = self.began_for(taker, &value);
        let received = taken_for(&mut self.builder, self.alloc, taker, value)?;
        self.values.push(Known::Shown(TypedBits {
            classical,
            own: true,
            began,
            ..received
        }))?;
        Ok(())
    }

    /// The last value is taken over.
    pub fn receive(&mut self, taker: Receiver) -> Result<(), LimitFault>
        requires { Ready (step (receive taker)) self.old }
        ensures ok { OnOk result (self.new ≡ flat (step (receive taker)) self.old) }
        ensures refused { IfErr result (λ e. Refused e (flat (step (receive taker)) self.old).built) }
    {
        let began = self.builder.wires();
        let value = self.values.take_last();
        let Known::Shown(value) = shape_for(self.alloc, taker, began, value)? else {
            return Err(LimitFault::Memory);
        };
        self.receive_bits(taker, value)
    }
}
