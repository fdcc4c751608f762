//! Expressions.

ghost use Rattle.std.specs.Prelude.{◌≡◌, ◌<◌, length, IfErr, OnOk};
ghost use Rattle.silq_tree.specs.Children.{place_exprs, AreExprsBelow, HasFirst};
ghost use Rattle.silq_mean.specs.Effect.{step, give_part};
ghost use Rattle.silq_mean.specs.Meaning.{taken_by};
ghost use Rattle.bit_arith.specs.Calls.{Refused};
ghost use Rattle.flat_form.specs.Flat.{flat};
ghost use Rattle.flat_steps.specs.Ready.{Ready};
ghost use Rattle.tree_walk.specs.Seen.{expr_in, exprs_in, indices_in, unary_in, binary_in};

use crate::call::call;
use check_scope::Library;
use flat_steps::Flattening;
use silq_io::LimitFault;
use silq_mean::Receiver;
use silq_tree::{BinaryOp, Expr, ExprId, PlaceNode, UnaryOp};
use silq_types::Need;
use tree_walk::Body;
use tree_walk::expr::{behind_first, index_values, need_or};
use tree_walk::written::{is_static, scalar_of, static_value};

/// Flattens an expression in its use.
#[cycle(walk)]
pub(crate) fn expr(
    library: &Library,
    body: &Body,
    state: &mut Flattening,
    e: ExprId,
    need: Need,
) -> Result<(), LimitFault>
    requires id { e.number < length library.now.nodes.exprs }
    requires this { body.now.this < length library.now.funs }
    requires ready { Ready (expr_in library.now body.now e need) state.old }
    ensures ok { OnOk result (state.new ≡ flat (expr_in library.now body.now e need) state.old) }
    ensures refused { IfErr result (λ f. Refused f (flat (expr_in library.now body.now e need) state.old).built) }
{
    if is_static(library.tree(), &body.statics, e) {
        return state.give_static(static_value(library.tree(), &body.statics, e));
    }
    match library.tree().expr(e) {
        Expr::Number {
            value,
            ty: Some(ty),
            at,
        } => {
            let scalar = scalar_of(library.tree(), &body.statics, *ty, *at);
            state.give_typed(scalar, *value)
        }
        Expr::Place { place, .. } => part(library, body, state, *place, need),
        Expr::Call {
            fun,
            statics,
            args,
            ..
        } => call(
            library,
            body,
            state,
            *fun,
            statics.as_slice(),
            args.as_slice(),
        ),
        Expr::Tuple { items, .. } => {
            values(library, body, state, items.as_slice(), need, &[], &[])
        }
        Expr::Unary { op, arg, .. } => unary(library, body, state, *op, *arg),
        Expr::Binary {
            op,
            left,
            right,
            ..
        } => binary(library, body, state, *op, *left, *right),
        Expr::Pi { .. } => Ok(()),
        Expr::Truth { value, .. } => state.give_static(i64::from(*value)),
        Expr::Number {
            value,
            ty: None,
            ..
        } => state.give_static(*value),
    }
}

/// A variable, or a part of one.
fn part(
    library: &Library,
    body: &Body,
    state: &mut Flattening,
    place: PlaceNode,
    need: Need,
) -> Result<(), LimitFault>
    requires parts { AreExprsBelow (length library.now.nodes.exprs) (place_exprs place) }
    requires first { HasFirst place }
    requires ready { Ready (step (give_part need place.name (indices_in library.now body.now place))) state.old }
    ensures ok { OnOk result (state.new ≡ flat (step (give_part need place.name (indices_in library.now body.now place))) state.old) }
    ensures refused { IfErr result (λ f. Refused f (flat (step (give_part need place.name (indices_in library.now body.now place))) state.old).built) }
{
    let indices = index_values(library, body, place)?;
    state.give_part(need, place.name, indices.as_slice())
}

/// A sign before its operand.
#[cycle(walk)]
fn unary(
    library: &Library,
    body: &Body,
    state: &mut Flattening,
    op: UnaryOp,
    arg: ExprId,
) -> Result<(), LimitFault>
    requires id { arg.number < length library.now.nodes.exprs }
    requires this { body.now.this < length library.now.funs }
    requires ready { Ready (unary_in library.now body.now op arg) state.old }
    ensures ok { OnOk result (state.new ≡ flat (unary_in library.now body.now op arg) state.old) }
    ensures refused { IfErr result (λ f. Refused f (flat (unary_in library.now body.now op arg) state.old).built) }
{
    expr(library, body, state, arg, Need::Held)?;
    state.one_operand(op)
}

/// A sign between its operands.
#[cycle(walk)]
fn binary(
    library: &Library,
    body: &Body,
    state: &mut Flattening,
    op: BinaryOp,
    left: ExprId,
    right: ExprId,
) -> Result<(), LimitFault>
    requires left { left.number < length library.now.nodes.exprs }
    requires right { right.number < length library.now.nodes.exprs }
    requires this { body.now.this < length library.now.funs }
    requires ready { Ready (binary_in library.now body.now op left right) state.old }
    ensures ok { OnOk result (state.new ≡ flat (binary_in library.now body.now op left right) state.old) }
    ensures refused { IfErr result (λ f. Refused f (flat (binary_in library.now body.now op left right) state.old).built) }
{
    expr(library, body, state, left, Need::Held)?;
    expr(library, body, state, right, Need::Held)?;
    state.two_operands(op)
}

/// The values of expressions in turn, each in the use that is asked of it, and in the other use past that list's end, and taken over.
#[cycle(walk)]
pub(crate) fn values(
    library: &Library,
    body: &Body,
    state: &mut Flattening,
    items: &[ExprId],
    other: Need,
    needs: &[Need],
    takers: &[Receiver],
) -> Result<(), LimitFault>
    requires ids { AreExprsBelow (length library.now.nodes.exprs) items.now }
    requires this { body.now.this < length library.now.funs }
    requires ready { Ready (exprs_in library.now body.now items.now other needs.now takers.now) state.old }
    ensures ok { OnOk result (state.new ≡ flat (exprs_in library.now body.now items.now other needs.now takers.now) state.old) }
    ensures refused { IfErr result (λ f. Refused f (flat (exprs_in library.now body.now items.now other needs.now takers.now) state.old).built) }
{
    let mut asked = needs;
    let mut receivers = takers;
    for item in items {
        expr(library, body, state, *item, need_or(other, asked))?;
        receive(state, receivers)?;
        asked = behind_first(asked);
        receivers = behind_first(receivers);
    }
    Ok(())
}

/// The first taker takes the last value over, if there is one.
pub(crate) fn receive(state: &mut Flattening, takers: &[Receiver]) -> Result<(), LimitFault>
    requires { Ready (taken_by takers.now) state.old }
    ensures ok { OnOk result (state.new ≡ flat (taken_by takers.now) state.old) }
    ensures refused { IfErr result (λ f. Refused f (flat (taken_by takers.now) state.old).built) }
{
    match takers {
        [] => Ok(()),
        [taker, ..] => state.receive(*taker),
    }
}
