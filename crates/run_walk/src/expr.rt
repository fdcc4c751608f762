//! Expressions.

ghost use Rattle.std.specs.Prelude.{◌≡◌, ◌<◌, length, IfErr, OnOk, Ok};
ghost use Rattle.silq_tree.specs.Children.{place_exprs, AreExprsBelow, HasFirst};
ghost use Rattle.silq_mean.specs.Effect.{step, give_part};
ghost use Rattle.silq_mean.specs.Meaning.{taken_by};
ghost use Rattle.run_stage.specs.Stages.{carried};
ghost use Rattle.run_stage.specs.Stops.{IsStop};
ghost use Rattle.tree_walk.specs.Seen.{expr_in, exprs_in, indices_in, unary_in, binary_in};

use crate::call::call;
use check_scope::Library;
use run_stage::{Stage, WalkStop};
use silq_mean::Receiver;
use silq_run::Step;
use silq_tree::{BinaryOp, Expr, ExprId, PlaceNode, UnaryOp};
use silq_types::Need;
use tree_walk::Body;
use tree_walk::expr::{behind_first, index_values, need_or};
use tree_walk::written::{is_static, scalar_of, static_value};

/// Carries out an expression in its use.
#[cycle(walk)]
pub(crate) fn expr(
    library: &Library,
    body: &Body,
    stage: &mut Stage,
    e: ExprId,
    need: Need,
) -> Result<(), WalkStop>
    requires id { e.number < length library.now.nodes.exprs }
    requires this { body.now.this < length library.now.funs }
    ensures ok { OnOk result (carried (expr_in library.now body.now e need) stage.old ≡ Ok stage.new) }
    ensures refused { IfErr result (λ f. IsStop f (carried (expr_in library.now body.now e need) stage.old)) }
{
    if is_static(library.tree(), &body.statics, e) {
        return stage.step(&Step::GiveStatic(static_value(library.tree(), &body.statics, e)));
    }
    match library.tree().expr(e) {
        Expr::Number {
            value,
            ty: Some(ty),
            at,
        } => {
            let scalar = scalar_of(library.tree(), &body.statics, *ty, *at);
            stage.step(&Step::GiveTyped(scalar, *value))
        }
        Expr::Place { place, .. } => part(library, body, stage, *place, need),
        Expr::Call {
            fun,
            statics,
            args,
            ..
        } => call(
            library,
            body,
            stage,
            *fun,
            statics.as_slice(),
            args.as_slice(),
        ),
        Expr::Tuple { items, .. } => {
            values(library, body, stage, items.as_slice(), need, &[], &[])
        }
        Expr::Unary { op, arg, .. } => unary(library, body, stage, *op, *arg),
        Expr::Binary {
            op,
            left,
            right,
            ..
        } => binary(library, body, stage, *op, *left, *right),
        Expr::Pi { .. } => Ok(()),
        Expr::Truth { value, .. } => stage.step(&Step::GiveStatic(i64::from(*value))),
        Expr::Number {
            value,
            ty: None,
            ..
        } => stage.step(&Step::GiveStatic(*value)),
    }
}

/// A variable, or a part of one.
fn part(
    library: &Library,
    body: &Body,
    stage: &mut Stage,
    place: PlaceNode,
    need: Need,
) -> Result<(), WalkStop>
    requires parts { AreExprsBelow (length library.now.nodes.exprs) (place_exprs place) }
    requires first { HasFirst place }
    ensures ok { OnOk result (carried (step (give_part need place.name (indices_in library.now body.now place))) stage.old ≡ Ok stage.new) }
    ensures refused { IfErr result (λ f. IsStop f (carried (step (give_part need place.name (indices_in library.now body.now place))) stage.old)) }
{
    let indices = index_values(library, body, place)?;
    stage.step(&Step::GivePart(need, place.name, indices.as_slice()))
}

/// A sign before its operand.
#[cycle(walk)]
fn unary(
    library: &Library,
    body: &Body,
    stage: &mut Stage,
    op: UnaryOp,
    arg: ExprId,
) -> Result<(), WalkStop>
    requires id { arg.number < length library.now.nodes.exprs }
    requires this { body.now.this < length library.now.funs }
    ensures ok { OnOk result (carried (unary_in library.now body.now op arg) stage.old ≡ Ok stage.new) }
    ensures refused { IfErr result (λ f. IsStop f (carried (unary_in library.now body.now op arg) stage.old)) }
{
    expr(library, body, stage, arg, Need::Held)?;
    stage.step(&Step::OneOperand(op))
}

/// A sign between its operands.
#[cycle(walk)]
fn binary(
    library: &Library,
    body: &Body,
    stage: &mut Stage,
    op: BinaryOp,
    left: ExprId,
    right: ExprId,
) -> Result<(), WalkStop>
    requires left { left.number < length library.now.nodes.exprs }
    requires right { right.number < length library.now.nodes.exprs }
    requires this { body.now.this < length library.now.funs }
    ensures ok { OnOk result (carried (binary_in library.now body.now op left right) stage.old ≡ Ok stage.new) }
    ensures refused { IfErr result (λ f. IsStop f (carried (binary_in library.now body.now op left right) stage.old)) }
{
    expr(library, body, stage, left, Need::Held)?;
    expr(library, body, stage, right, Need::Held)?;
    stage.step(&Step::TwoOperands(op))
}

/// The values of expressions in turn, each in the use that is asked of it, and in the other use past that list's end, and taken over.
#[cycle(walk)]
pub(crate) fn values(
    library: &Library,
    body: &Body,
    stage: &mut Stage,
    items: &[ExprId],
    other: Need,
    needs: &[Need],
    takers: &[Receiver],
) -> Result<(), WalkStop>
    requires ids { AreExprsBelow (length library.now.nodes.exprs) items.now }
    requires this { body.now.this < length library.now.funs }
    ensures ok { OnOk result (carried (exprs_in library.now body.now items.now other needs.now takers.now) stage.old ≡ Ok stage.new) }
    ensures refused { IfErr result (λ f. IsStop f (carried (exprs_in library.now body.now items.now other needs.now takers.now) stage.old)) }
{
    let mut asked = needs;
    let mut receivers = takers;
    for item in items {
        expr(library, body, stage, *item, need_or(other, asked))?;
        receive(stage, receivers)?;
        asked = behind_first(asked);
        receivers = behind_first(receivers);
    }
    Ok(())
}

/// The first taker takes the last value over, if there is one.
pub(crate) fn receive(stage: &mut Stage, takers: &[Receiver]) -> Result<(), WalkStop>
    ensures ok { OnOk result (carried (taken_by takers.now) stage.old ≡ Ok stage.new) }
    ensures refused { IfErr result (λ f. IsStop f (carried (taken_by takers.now) stage.old)) }
{
    match takers {
        [] => Ok(()),
        [taker, ..] => stage.step(&Step::Receive(*taker)),
    }
}
