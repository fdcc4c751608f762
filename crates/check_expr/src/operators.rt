//! Operators.

ghost use Rattle.std.specs.Prelude.{◌≡◌, ◌<◌, ◌&&◌, length, IfOk, IfErr};
ghost use Rattle.silq_tree.specs.Arena.{expr_at};
ghost use Rattle.silq_types.specs.Known.{Signatures};
ghost use Rattle.silq_types.specs.Types.{is_bit as bit_is, is_number as number_is, is_scalar as scalar_is};
ghost use Rattle.check_expr.specs.Expression.{unary_fits as fits_unary, binary_fits as fits_binary, binary_shape as shape_binary, typed_by as by_type, unary_value as value_unary, binary_value as value_binary};
ghost use Rattle.check_scope.specs.Context.{rules};
ghost use Rattle.check_expr.specs.Tests.{unary_tests, binary_tests};
ghost use Rattle.check_scope.specs.State.{State, scope_in};
ghost use Rattle.check_scope.specs.Steps.{Reads, Stops};

use crate::expr::ValueList;
use crate::values::{is_same_shape, typed_by};
use check_scope::context::Context;
use check_scope::fault::{CheckFault, ExprFault};
use check_scope::library::Library;
use check_scope::obey::obey;
use check_scope::rule;
use check_scope::uses::operands_clash;
use silq_tree::{BinaryOp, ExprId, Spot, UnaryOp};
use silq_types::{Shape, Ty, Value};
use std::alloc::Global;

fn is_bit(shape: Shape) -> bool
    ensures { result ≡ bit_is shape }
{
    matches!(shape, Shape::Bit)
}

fn is_number(shape: Shape) -> bool
    ensures { result ≡ number_is shape }
{
    matches!(shape, Shape::UInt(_) | Shape::Int(_))
}

fn is_scalar(shape: Shape) -> bool
    ensures { result ≡ scalar_is shape }
{
    !matches!(shape, Shape::Array(..))
}

fn unary_fits(op: UnaryOp, shape: Shape) -> bool
    ensures { result ≡ fits_unary op shape }
{
    match op {
        UnaryOp::Not => is_bit(shape),
        UnaryOp::Neg => is_number(shape),
    }
}

fn binary_fits(op: BinaryOp, shape: Shape) -> bool
    ensures { result ≡ fits_binary op shape }
{
    match op {
        BinaryOp::Or => is_bit(shape),
        BinaryOp::And => is_bit(shape),
        BinaryOp::Eq => is_scalar(shape),
        BinaryOp::Ne => is_scalar(shape),
        BinaryOp::Div => false,
        _ => is_number(shape),
    }
}

pub(crate) fn binary_shape(op: BinaryOp, shape: Shape) -> Shape
    ensures { result ≡ shape_binary op shape }
{
    match op {
        BinaryOp::Add => shape,
        BinaryOp::Sub => shape,
        BinaryOp::Mul => shape,
        _ => Shape::Bit,
    }
}

/// The rule of a sign before its operand.
fn unary_rule(op: UnaryOp, at: Spot, shape: Shape) -> Result<(), ExprFault>
    ensures reads { (met : Signatures) (s : State) → IfOk result (λ u. Reads met (rules at (unary_tests op shape)) s u s) }
    ensures stops { (met : Signatures) (s : State) → IfErr result (λ f. Stops met (rules at (unary_tests op shape)) s f s) }
{
    obey(at, &[(!unary_fits(op, shape), rule::WRONG_TYPE)])
}

/// The value of a sign before its operand.
pub(crate) fn unary_value(
    alloc: Global,
    cx: &mut Context,
    op: UnaryOp,
    at: Spot,
    value: Value,
) -> Result<ValueList, ExprFault>
    ensures reads { (met : Signatures) → IfOk result (λ vs. Reads met (value_unary op at value) cx.old vs cx.new) }
    ensures stops { (met : Signatures) → IfErr result (λ f. Stops met (value_unary op at value) cx.old f cx.new) }
{
    unary_rule(op, at, value.ty.shape)?;
    let values = typed_by(alloc, cx, value.ty.classical, value.ty.shape)?;
    Ok(values)
}

/// The rules of a sign between its operands.
fn binary_rules(
    library: &Library,
    cx: &Context,
    op: BinaryOp,
    sides: (ExprId, ExprId),
    at: Spot,
    values: (Value, Value),
) -> Result<(), ExprFault>
    requires left { sides.0.number < length library.now.nodes.exprs }
    requires right { sides.1.number < length library.now.nodes.exprs }
    ensures reads { (met : Signatures) → IfOk result (λ u. Reads met (rules at (binary_tests (scope_in library.now cx.now) op (expr_at library.now.nodes sides.0) (expr_at library.now.nodes sides.1) cx.now.vars values.0 values.1)) cx.now u cx.now) }
    ensures stops { (met : Signatures) → IfErr result (λ f. Stops met (rules at (binary_tests (scope_in library.now cx.now) op (expr_at library.now.nodes sides.0) (expr_at library.now.nodes sides.1) cx.now.vars values.0 values.1)) cx.now f cx.now) }
{
    let (x, y) = (values.0.ty.shape, values.1.ty.shape);
    let clash = match operands_clash(library, cx, sides.0, sides.1) {
        Ok(clash) => clash,
        Err(_) => return Err(ExprFault::Fault(CheckFault::Memory)),
    };
    obey(
        at,
        &[
            (
                !(is_same_shape(x, y) && binary_fits(op, x)),
                rule::WRONG_TYPE,
            ),
            (clash, rule::CONSUMED_AND_HELD),
        ],
    )
}

/// The one value that a sign between such operands gives.
fn joined_value(
    alloc: Global,
    cx: &mut Context,
    op: BinaryOp,
    x: Ty,
    y: Ty,
) -> Result<ValueList, ExprFault>
    ensures reads { (met : Signatures) → IfOk result (λ vs. Reads met (by_type (x.classical && y.classical) (shape_binary op x.shape)) cx.old vs cx.new) }
    ensures stops { (met : Signatures) → IfErr result (λ f. Stops met (by_type (x.classical && y.classical) (shape_binary op x.shape)) cx.old f cx.new) }
{
    typed_by(
        alloc,
        cx,
        x.classical && y.classical,
        binary_shape(op, x.shape),
    )
}

/// The value of a sign between its operands.
pub(crate) fn binary_value(
    library: &Library,
    cx: &mut Context,
    op: BinaryOp,
    sides: (ExprId, ExprId),
    at: Spot,
    values: (Value, Value),
) -> Result<ValueList, ExprFault>
    requires left { sides.0.number < length library.now.nodes.exprs }
    requires right { sides.1.number < length library.now.nodes.exprs }
    ensures reads { (met : Signatures) → IfOk result (λ vs. Reads met (value_binary (scope_in library.now cx.old) op (expr_at library.now.nodes sides.0) (expr_at library.now.nodes sides.1) at values.0 values.1) cx.old vs cx.new) }
    ensures stops { (met : Signatures) → IfErr result (λ f. Stops met (value_binary (scope_in library.now cx.old) op (expr_at library.now.nodes sides.0) (expr_at library.now.nodes sides.1) at values.0 values.1) cx.old f cx.new) }
{
    binary_rules(library, cx, op, sides, at, values)?;
    let list = joined_value(library.alloc(), cx, op, values.0.ty, values.1.ty)?;
    Ok(list)
}
