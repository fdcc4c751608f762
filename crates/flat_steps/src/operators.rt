//! Numbers and operators.

ghost use Rattle.std.specs.Prelude.{◌≡◌, [], ◌∷◌, ◌++◌, length, map, IfOk, IfErr, OnOk};
ghost use Rattle.silq_mean.specs.Effect.{step, give_typed, one_operand, two_operands};
ghost use Rattle.bit_arith.specs.Built.{begun, under, negated};
ghost use Rattle.bit_arith.specs.Calls.{AllSafe, no_target, Refused, Went};
ghost use Rattle.flat_form.specs.State.{is_signed};
ghost use Rattle.flat_form.specs.Flat.{began_at, by_one, by_two, flat, negative, on_two_typed, shape_by, shape_by_one};
ghost use Rattle.flat_steps.specs.Ready.{Ready};
ghost use Rattle.flat_steps.specs.Joins.{compared, CanJoin};

use crate::copying::copied_operands;
use crate::state::Flattening;
use crate::typed::{as_operand, typed};
use crate::wires::only_operand;
use bit_arith::{Builder, Operand};
use flat_form::{Known, TypedBits};
use silq_io::LimitFault;
use silq_tree::{BinaryOp, UnaryOp};
use silq_types::{List, Scalar, Shape};
use std::alloc::{AllocError, Global};

/// The operands of an operator on one value.
fn by_one(
    builder: &mut Builder,
    alloc: Global,
    op: UnaryOp,
    operands: &[Operand],
) -> Result<List<Operand>, LimitFault>
    requires { AllSafe (length builder.old.draft.wires) no_target (under builder.old.setting operands.now) }
    ensures answer { IfOk result (λ ps. ps ≡ (by_one op builder.old.setting operands.now (begun builder.old.draft)).answer) }
    ensures ok { IfOk result (λ _. Went builder.old builder.new (by_one op builder.old.setting operands.now (begun builder.old.draft)).built) }
    ensures refused { IfErr result (λ e. Refused e (by_one op builder.old.setting operands.now (begun builder.old.draft)).built) }
{
    match op {
        UnaryOp::Not => Ok(all_negated(alloc, operands)?),
        UnaryOp::Neg => negative(builder, alloc, operands),
    }
}

/// The opposite operands.
fn all_negated(alloc: Global, operands: &[Operand]) -> Result<List<Operand>, AllocError>
    ensures { IfOk result (λ ps. ps ≡ map negated operands.now) }
{
    let mut list = List::new(alloc);
    for p in operands {
        list.push(p.negated())?;
    }
    Ok(list)
}

/// 0 less a number.
fn negative(
    builder: &mut Builder,
    alloc: Global,
    operands: &[Operand],
) -> Result<List<Operand>, LimitFault>
    requires { AllSafe (length builder.old.draft.wires) no_target (under builder.old.setting operands.now) }
    ensures answer { IfOk result (λ ps. ps ≡ (negative builder.old.setting operands.now (begun builder.old.draft)).answer) }
    ensures ok { IfOk result (λ _. Went builder.old builder.new (negative builder.old.setting operands.now (begun builder.old.draft)).built) }
    ensures refused { IfErr result (λ e. Refused e (negative builder.old.setting operands.now (begun builder.old.draft)).built) }
{
    let zeros = vec![in alloc; Operand::Const(false); operands.len()]?;
    let difference = builder.difference(zeros.as_slice(), operands)?;
    Ok(copied_operands(alloc, difference.as_slice())?)
}

/// The operands of an operator on two values of a type.
fn by_two(
    builder: &mut Builder,
    alloc: Global,
    op: BinaryOp,
    shape: Shape,
    first: &[Operand],
    second: &[Operand],
) -> Result<List<Operand>, LimitFault>
    requires lengths { length first.now ≡ length second.now }
    requires safe { AllSafe (length builder.old.draft.wires) no_target (under builder.old.setting (first.now ++ second.now)) }
    ensures answer { IfOk result (λ ps. ps ≡ (by_two op shape builder.old.setting first.now second.now (begun builder.old.draft)).answer) }
    ensures ok { IfOk result (λ _. Went builder.old builder.new (by_two op shape builder.old.setting first.now second.now (begun builder.old.draft)).built) }
    ensures refused { IfErr result (λ e. Refused e (by_two op shape builder.old.setting first.now second.now (begun builder.old.draft)).built) }
{
    match op {
        BinaryOp::Or => {
            let bit = builder.either(only_operand(first), only_operand(second))?;
            Ok(alone(alloc, bit)?)
        }
        BinaryOp::And => {
            let bit = builder.both(only_operand(first), only_operand(second))?;
            Ok(alone(alloc, bit)?)
        }
        BinaryOp::Add => {
            let sum = builder.sum(first, second)?;
            Ok(copied_operands(alloc, sum.as_slice())?)
        }
        BinaryOp::Sub => {
            let difference = builder.difference(first, second)?;
            Ok(copied_operands(alloc, difference.as_slice())?)
        }
        BinaryOp::Mul => {
            let product = builder.product(first, second)?;
            Ok(copied_operands(alloc, product.as_slice())?)
        }
        // The rules of typing leave no value to divide.
        BinaryOp::Div => Ok(List::new(alloc)),
        _ => {
            let bit = compared(builder, op, is_signed(shape), first, second)?;
            Ok(alone(alloc, bit)?)
        }
    }
}

/// Whether two values compare so.
fn compared(
    builder: &mut Builder,
    op: BinaryOp,
    signed: bool,
    first: &[Operand],
    second: &[Operand],
) -> Result<Operand, LimitFault>
    requires lengths { length first.now ≡ length second.now }
    requires safe { AllSafe (length builder.old.draft.wires) no_target (under builder.old.setting (first.now ++ second.now)) }
    ensures answer { IfOk result (λ p. p ≡ (compared op signed builder.old.setting first.now second.now (begun builder.old.draft)).answer) }
    ensures ok { IfOk result (λ _. Went builder.old builder.new (compared op signed builder.old.setting first.now second.now (begun builder.old.draft)).built) }
    ensures refused { IfErr result (λ e. Refused e (compared op signed builder.old.setting first.now second.now (begun builder.old.draft)).built) }
{
    match op {
        BinaryOp::Ne => Ok(builder.equal(first, second)?.negated()),
        BinaryOp::Lt => builder.less(first, second, signed),
        BinaryOp::Ge => Ok(builder.less(first, second, signed)?.negated()),
        BinaryOp::Gt => builder.less(second, first, signed),
        BinaryOp::Le => Ok(builder.less(second, first, signed)?.negated()),
        _ => builder.equal(first, second),
    }
}

/// One operand.
fn alone(alloc: Global, bit: Operand) -> Result<List<Operand>, AllocError>
    ensures { IfOk result (λ ps. ps ≡ bit ∷ []) }
{
    let mut list = List::new(alloc);
    list.push(bit)?;
    Ok(list)
}

/// Whether numbers of a type have a sign.
fn is_signed(shape: Shape) -> bool
    ensures { result ≡ is_signed shape }
{
    matches!(shape, Shape::Int(_))
}

/// What the value of an operator on one value is made of.
fn shape_by_one(op: UnaryOp, shape: Shape) -> Shape
    ensures { result ≡ shape_by_one op shape }
{
    match op {
        UnaryOp::Not => Shape::Bit,
        UnaryOp::Neg => shape,
    }
}

/// What the value of an operator on two values is made of.
fn shape_by(op: BinaryOp, shape: Shape) -> Shape
    ensures { result ≡ shape_by op shape }
{
    match op {
        BinaryOp::Add | BinaryOp::Sub | BinaryOp::Mul => shape,
        _ => Shape::Bit,
    }
}

/// Where the expression of the first of two values began; a static one made no wires.
fn began_at(first: &Known, second: &Known) -> usize
    ensures { result ≡ began_at first.now second.now }
{
    match first {
        Known::Shown(value) => value.began,
        _ => match second {
            Known::Shown(value) => value.began,
            _ => 0,
        },
    }
}

impl Flattening {
    /// Gives a number with a type.
    pub fn give_typed(&mut self, scalar: Scalar, number: i64) -> Result<(), LimitFault>
        ensures ok { OnOk result (self.new ≡ flat (step (give_typed scalar number)) self.old) }
        ensures refused { IfErr result (λ e. Refused e (flat (step (give_typed scalar number)) self.old).built) }
    {
        let began = self.builder.wires();
        let known = typed(self.alloc, began, scalar, number)?;
        self.values.push(known)?;
        Ok(())
    }

    /// The operator on the last value.
    pub fn one_operand(&mut self, op: UnaryOp) -> Result<(), LimitFault>
        requires { Ready (step (one_operand op)) self.old }
        ensures ok { OnOk result (self.new ≡ flat (step (one_operand op)) self.old) }
        ensures refused { IfErr result (λ e. Refused e (flat (step (one_operand op)) self.old).built) }
    {
        let Some(Known::Shown(value)) = self.values.pop() else {
            return Err(LimitFault::Memory);
        };
        let operands = by_one(&mut self.builder, self.alloc, op, value.operands.as_slice())?;
        self.values.push(Known::Shown(TypedBits {
            shape: shape_by_one(op, value.shape),
            operands,
            own: false,
            ..value
        }))?;
        Ok(())
    }

    /// The operator on the last two values.
    pub fn two_operands(&mut self, op: BinaryOp) -> Result<(), LimitFault>
        requires { Ready (step (two_operands op)) self.old }
        ensures ok { OnOk result (self.new ≡ flat (step (two_operands op)) self.old) }
        ensures refused { IfErr result (λ e. Refused e (flat (step (two_operands op)) self.old).built) }
    {
        let Some(second) = self.values.pop() else {
            return Err(LimitFault::Memory);
        };
        let Some(first) = self.values.pop() else {
            return Err(LimitFault::Memory);
        };
        let began = began_at(&first, &second);
        let first = as_operand(self.alloc, &second, first)?;
        let second = as_operand(self.alloc, &first, second)?;
        self.join(op, began, first, second)
    }

    // The operator on two values of a type.
    fn join(
        &mut self,
        op: BinaryOp,
        began: usize,
        first: Known,
        second: Known,
    ) -> Result<(), LimitFault>
        requires { CanJoin first second self.old }
        ensures ok { OnOk result (self.new ≡ on_two_typed op began first second self.old) }
        ensures refused { IfErr result (λ e. Refused e (on_two_typed op began first second self.old).built) }
    {
        let Known::Shown(first) = first else {
            return Err(LimitFault::Memory);
        };
        let Known::Shown(second) = second else {
            return Err(LimitFault::Memory);
        };
        let operands = by_two(
            &mut self.builder,
            self.alloc,
            op,
            first.shape,
            first.operands.as_slice(),
            second.operands.as_slice(),
        )?;
        self.values.push(Known::Shown(TypedBits {
            classical: first.classical && second.classical,
            shape: shape_by(op, first.shape),
            operands,
            own: false,
            began,
        }))?;
        Ok(())
    }
}
