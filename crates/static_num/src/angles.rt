//! Angles.

ghost use Rattle.std.specs.Prelude.{◌≡◌, ◌<◌, ◌↔◌, ◌||◌, false, Err, length, IfOk};
ghost use Rattle.silq_tree.specs.Arena.{expr_at};
ghost use Rattle.static_num.specs.declared.values.StaticFault.TheVariants.{NotStatic};
ghost use Rattle.static_num.specs.declared.angles.AngleFault.TheVariants.{Static};
ghost use Rattle.static_num.specs.Static.{is_static};
ghost use Rattle.static_num.specs.Angle.{is_turn, fraction, turn_of, number_turn_of, angle_of};

use crate::fraction::{Fraction, eighths_at, scale, shrink};
use crate::statics::Statics;
use crate::values::{StaticFault, is_static_at, value_at};
use silq_tree::node::{BinaryOp, Expr, ExprId, UnaryOp};
use silq_tree::tree::Tree;

/// Why an angle has no eighths of a turn.
#[derive(Clone, Copy, PartialEq, Eq)]
pub enum AngleFault {
    /// It is no multiple of pi/4.
    NotEighth,
    /// It is no angle (`NotStatic`), or its first failing operation.
    Static(StaticFault),
}

/// Whether an expression is an angle with `pi`.
#[tactic(auto, unfolding(crate::specs::Angle::is_turn), using(silq_tree::proofs::Lists::ids))]
fn is_turn_at(tree: &Tree, e: ExprId, statics: &Statics) -> bool
    requires { e.number < length tree.now.exprs }
    ensures { result ≡ is_turn statics.now (expr_at tree.now e) }
{
    match tree.expr(e) {
        Expr::Pi { .. } => true,
        Expr::Unary {
            op: UnaryOp::Neg,
            arg,
            ..
        } => is_turn_at(tree, *arg, statics),
        Expr::Binary {
            op: BinaryOp::Mul,
            left,
            right,
            ..
        } => {
            if is_static_at(tree, *left, statics) {
                is_turn_at(tree, *right, statics)
            } else {
                is_turn_at(tree, *left, statics) && is_static_at(tree, *right, statics)
            }
        }
        Expr::Binary {
            op: BinaryOp::Div,
            left,
            right,
            ..
        } => { is_turn_at(tree, *left, statics) && is_static_at(tree, *right, statics) }
        _ => false,
    }
}

/// The fraction of pi that such an angle is, or its first failing operation in walk order.
#[tactic(auto, unfolding(crate::specs::Angle::fraction), using(silq_tree::proofs::Lists::ids))]
fn fraction_at(tree: &Tree, e: ExprId, statics: &Statics) -> Result<Fraction, StaticFault>
    requires { e.number < length tree.now.exprs }
    ensures value { result ≡ fraction statics.now (expr_at tree.now e) }
    ensures positive { IfOk result (λ f. 0 < f.bottom) }
{
    match tree.expr(e) {
        Expr::Pi { .. } => Ok(Fraction {
            negative: false,
            top: 1,
            bottom: 1,
        }),
        Expr::Unary {
            op: UnaryOp::Neg,
            arg,
            ..
        } => {
            let f = fraction_at(tree, *arg, statics)?;
            scale(f, -1)
        }
        Expr::Binary {
            op: BinaryOp::Mul,
            left,
            right,
            ..
        } => {
            if is_static_at(tree, *left, statics) {
                let s = value_at(tree, *left, statics)?;
                let f = fraction_at(tree, *right, statics)?;
                scale(f, s)
            } else {
                let f = fraction_at(tree, *left, statics)?;
                let s = value_at(tree, *right, statics)?;
                scale(f, s)
            }
        }
        Expr::Binary {
            op: BinaryOp::Div,
            left,
            right,
            ..
        } => {
            let f = fraction_at(tree, *left, statics)?;
            let s = value_at(tree, *right, statics)?;
            shrink(f, s)
        }
        _ => Err(StaticFault::NotStatic),
    }
}

/// The eighths of a turn of an angle with `pi`.
fn turn(tree: &Tree, e: ExprId, statics: &Statics) -> Result<u8, AngleFault>
    requires { e.number < length tree.now.exprs }
    ensures { result ≡ turn_of statics.now (expr_at tree.now e) }
{
    match fraction_at(tree, e, statics) {
        Ok(f) => eighths_at(f),
        Err(fault) => Err(AngleFault::Static(fault)),
    }
}

/// The eighths of a turn of a static expression: only 0 has some.
fn number_turn(tree: &Tree, e: ExprId, statics: &Statics) -> Result<u8, AngleFault>
    requires { e.number < length tree.now.exprs }
    ensures { result ≡ number_turn_of statics.now (expr_at tree.now e) }
{
    match value_at(tree, e, statics) {
        Ok(0) => Ok(0),
        Ok(_) => Err(AngleFault::NotEighth),
        Err(fault) => Err(AngleFault::Static(fault)),
    }
}

/// The eighths of a turn of an angle, 0 to 7.
///
/// An angle is `pi`, `-A`, `s * A`, `A * s` or `A / s` with an angle A and a static s, or a static expression. With `pi` it is a fraction of pi, kept in lowest terms; an operation after which its numerator or denominator is outside the range of 64 bits overflows. Takes no memory.
pub fn angle(tree: &Tree, e: ExprId, statics: &Statics) -> Result<u8, AngleFault>
    requires { e.number < length tree.now.exprs }
    ensures value { result ≡ angle_of statics.now (expr_at tree.now e) }
    ensures not_static { (result ≡ Err (Static NotStatic)) ↔ ((is_static statics.now (expr_at tree.now e) || is_turn statics.now (expr_at tree.now e)) ≡ false) }
    ensures turn { IfOk result (λ k. k < 8) }
{
    if is_static_at(tree, e, statics) {
        number_turn(tree, e, statics)
    } else if is_turn_at(tree, e, statics) {
        turn(tree, e, statics)
    } else {
        Err(AngleFault::Static(StaticFault::NotStatic))
    }
}
