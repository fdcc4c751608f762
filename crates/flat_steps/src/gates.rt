//! Built-in functions.

ghost use Rattle.std.specs.Prelude.{◌≡◌, ◌<◌, ◌++◌, [], length, true, false, IfOk, IfErr, OnOk};
ghost use Rattle.silq_mean.specs.Effect.{step, mix, measure, copy_last, repeat_last, flip_last, turn_by, turn_all};
ghost use Rattle.bit_arith.specs.Built.{begun, under};
ghost use Rattle.bit_arith.specs.Calls.{AllSafe, AreTargets, no_target, Refused, Went};
ghost use Rattle.flat_form.specs.declared.known.Known.TheVariants.{Shown};
ghost use Rattle.flat_form.specs.State.{push, last, drop_last, build, copied, only_wire};
ghost use Rattle.flat_form.specs.Flat.{flat, give, array_of, repeated, turn_both, measure_all};
ghost use Rattle.flat_form.specs.Good.{Good};
ghost use Rattle.flat_form.specs.Fine.{IsOf, MayTake, Distinct};
ghost use Rattle.flat_steps.specs.Held.{taking, now_taken, Held};
ghost use Rattle.flat_steps.specs.Ready.{Ready};

use crate::ends::end_all;
use crate::state::Flattening;
use crate::take::{copied, taken};
use crate::wires::wires_in;
use bit_arith::{Builder, Operand};
use flat_core::{End, Lit, WireId};
use flat_form::{Known, TypedBits};
use silq_io::LimitFault;
use silq_types::{List, Scalar, Shape};
use std::alloc::{AllocError, Global};

/// The only wire of a bit.
fn only_wire(operands: &[Operand]) -> WireId
    ensures { result ≡ only_wire operands.now }
{
    match operands.first() {
        Some(Operand::Literal(lit)) => lit.wire,
        _ => WireId { number: 0 },
    }
}

/// A phase of some eighths where a wire is 1, and of others where it is 0.
fn turn_both(builder: &mut Builder, wire: WireId, one: u8, zero: u8) -> Result<(), LimitFault>
    requires there { wire.number < length builder.old.draft.wires }
    requires condition { AllSafe (length builder.old.draft.wires) no_target (under builder.old.setting []) }
    ensures ok { OnOk result (Went builder.old builder.new (turn_both one zero builder.old.setting wire (begun builder.old.draft))) }
    ensures refused { IfErr result (λ e. Refused e (turn_both one zero builder.old.setting wire (begun builder.old.draft))) }
{
    let bit = Operand::Literal(Lit {
        wire,
        positive: true,
    });
    builder.turn(zero, &[bit.negated()])?;
    builder.turn(one, &[bit])
}

/// Measures each wire.
fn measure_all(builder: &mut Builder, wires: &[WireId]) -> Result<(), LimitFault>
    requires targets { AreTargets builder.old.draft wires.now }
    requires distinct { Distinct wires.now }
    ensures ok { OnOk result (Went builder.old builder.new (measure_all builder.old.setting wires.now (begun builder.old.draft))) }
    ensures refused { IfErr result (λ e. Refused e (measure_all builder.old.setting wires.now (begun builder.old.draft))) }
{
    for wire in wires {
        builder.measure(*wire)?;
    }
    Ok(())
}

/// Operands so many times.
fn repeated(alloc: Global, times: u32, operands: &[Operand]) -> Result<List<Operand>, AllocError>
    ensures { IfOk result (λ ps. ps ≡ repeated times operands.now) }
{
    let mut list = List::new(alloc);
    for _ in 0..times {
        append(&mut list, operands)?;
    }
    Ok(list)
}

/// Adds operands at the end.
fn append(list: &mut List<Operand>, operands: &[Operand]) -> Result<(), AllocError>
    ensures { OnOk result (list.new ≡ list.old ++ operands.now) }
{
    for p in operands {
        list.push(*p)?;
    }
    Ok(())
}

/// What an array of so many values is made of.
fn array_of(shape: Shape, count: u32) -> Shape
    ensures { result ≡ array_of shape count }
{
    match shape {
        Shape::Bit => Shape::Array(Scalar::Bit, count),
        Shape::UInt(width) => Shape::Array(Scalar::UInt(width), count),
        Shape::Int(width) => Shape::Array(Scalar::Int(width), count),
        Shape::Array(_, _) => shape,
    }
}

impl Flattening {
    // Gives copies of operands as a value.
    fn give_copies(
        &mut self,
        shape: Shape,
        began: usize,
        operands: &[Operand],
    ) -> Result<(), LimitFault>
        requires { AllSafe (length self.old.built.draft.wires) no_target (under self.old.setting operands.now) }
        ensures ok { OnOk result (self.new ≡ give false shape false began (copied self.old.setting operands.now self.old.built) self.old) }
        ensures refused { IfErr result (λ e. Refused e (copied self.old.setting operands.now self.old.built).built) }
    {
        let operands = copied(&mut self.builder, self.alloc, operands)?;
        self.values.push(Known::Shown(TypedBits {
            classical: false,
            shape,
            operands,
            own: false,
            began,
        }))?;
        Ok(())
    }

    // Takes the last value for a change of its wires.
    fn take_last(&mut self) -> Result<TypedBits, LimitFault>
        requires good { Good self.old }
        requires may { IsOf (λ v. MayTake v self.old) (last self.old) }
        ensures value { IfOk result (λ v. Shown v ≡ now_taken self.old.setting (last self.old) self.old.built) }
        ensures ok { IfOk result (λ _. self.new ≡ build (taking self.old.setting (last self.old) self.old.built).built (drop_last self.old)) }
        ensures held { IfOk result (λ v. Held v self.new.built.draft self.new.setting) }
        ensures refused { IfErr result (λ e. Refused e (taking self.old.setting (last self.old) self.old.built).built) }
    {
        let Some(Known::Shown(value)) = self.values.pop() else {
            return Err(LimitFault::Memory);
        };
        taken(&mut self.builder, self.alloc, value)
    }

    // Gives a value with wires of its own.
    fn give_own(&mut self, value: TypedBits) -> Result<(), AllocError>
        ensures { OnOk result (self.new ≡ push (Shown (record value { classical = false; own = true })) self.old) }
    {
        self.values.push(Known::Shown(TypedBits {
            classical: false,
            own: true,
            ..value
        }))
    }

    /// `dup`: copies the last value.
    pub fn copy_last(&mut self) -> Result<(), LimitFault>
        requires { Ready (step copy_last) self.old }
        ensures ok { OnOk result (self.new ≡ flat (step copy_last) self.old) }
        ensures refused { IfErr result (λ e. Refused e (flat (step copy_last) self.old).built) }
    {
        let Some(Known::Shown(value)) = self.values.pop() else {
            return Err(LimitFault::Memory);
        };
        self.give_copies(value.shape, value.began, value.operands.as_slice())
    }

    /// `vector`: an array of the last value, whose length is the value before it.
    pub fn repeat_last(&mut self) -> Result<(), LimitFault>
        requires { Ready (step repeat_last) self.old }
        ensures ok { OnOk result (self.new ≡ flat (step repeat_last) self.old) }
        ensures refused { IfErr result (λ e. Refused e (flat (step repeat_last) self.old).built) }
    {
        let Some(Known::Shown(value)) = self.values.pop() else {
            return Err(LimitFault::Memory);
        };
        let Some(Known::Static(times)) = self.values.pop() else {
            return Err(LimitFault::Memory);
        };
        // No array is as long as that.
        let Ok(times) = u32::try_from(times.unsigned_abs()) else {
            return Err(LimitFault::Memory);
        };
        let operands = repeated(self.alloc, times, value.operands.as_slice())?;
        self.give_copies(
            array_of(value.shape, times),
            value.began,
            operands.as_slice(),
        )
    }

    /// `X` on the last value.
    pub fn flip_last(&mut self) -> Result<(), LimitFault>
        requires { Ready (step flip_last) self.old }
        ensures ok { OnOk result (self.new ≡ flat (step flip_last) self.old) }
        ensures refused { IfErr result (λ e. Refused e (flat (step flip_last) self.old).built) }
    {
        let bit = self.take_last()?;
        self.builder.flip(only_wire(bit.operands.as_slice()), &[])?;
        self.give_own(bit)?;
        Ok(())
    }

    /// Turns by some eighths where the last value is 1, and by others where it is 0.
    pub fn turn_by(&mut self, one: u8, zero: u8) -> Result<(), LimitFault>
        requires { Ready (step (turn_by one zero)) self.old }
        ensures ok { OnOk result (self.new ≡ flat (step (turn_by one zero)) self.old) }
        ensures refused { IfErr result (λ e. Refused e (flat (step (turn_by one zero)) self.old).built) }
    {
        let bit = self.take_last()?;
        let wire = only_wire(bit.operands.as_slice());
        turn_both(&mut self.builder, wire, one, zero)?;
        self.give_own(bit)?;
        Ok(())
    }

    /// Turns by some eighths.
    pub fn turn_all(&mut self, eighths: u8) -> Result<(), LimitFault>
        requires { Ready (step (turn_all eighths)) self.old }
        ensures ok { OnOk result (self.new ≡ flat (step (turn_all eighths)) self.old) }
        ensures refused { IfErr result (λ e. Refused e (flat (step (turn_all eighths)) self.old).built) }
    {
        self.builder.turn(eighths, &[])
    }

    /// `H` on the last value.
    pub fn mix(&mut self) -> Result<(), LimitFault>
        requires { Ready (mix) self.old }
        ensures ok { OnOk result (self.new ≡ flat (mix) self.old) }
        ensures refused { IfErr result (λ e. Refused e (flat (mix) self.old).built) }
    {
        let bit = self.take_last()?;
        self.builder.had(only_wire(bit.operands.as_slice()))?;
        self.give_own(bit)?;
        Ok(())
    }

    /// `measure` on the last value.
    pub fn measure(&mut self) -> Result<(), LimitFault>
        requires { Ready (measure) self.old }
        ensures ok { OnOk result (self.new ≡ flat (measure) self.old) }
        ensures refused { IfErr result (λ e. Refused e (flat (measure) self.old).built) }
    {
        let value = self.take_last()?;
        let wires = wires_in(self.alloc, value.operands.as_slice())?;
        measure_all(&mut self.builder, wires.as_slice())?;
        end_all(&mut self.builder, End::Measured, wires.as_slice());
        self.values.push(Known::Shown(TypedBits {
            classical: true,
            own: false,
            ..value
        }))?;
        Ok(())
    }
}
