//! Values of static expressions.

ghost use Rattle.std.specs.Prelude.{◌≡◌, ◌<◌, ◌↔◌, false, None, Err, length};
ghost use Rattle.silq_tree.specs.Arena.{expr_at};
ghost use Rattle.static_num.specs.Static.{value_of_name, is_static, value, eval_of, applied, joined};
ghost use Rattle.static_num.specs.declared.values.StaticFault.TheVariants.{NotStatic};

use crate::statics::Statics;
use silq_tree::node::{BinaryOp, Expr, ExprId, NameId, UnaryOp};
use silq_tree::tree::Tree;

/// Why a static expression has no value.
#[derive(Clone, Copy, PartialEq, Eq)]
pub enum StaticFault {
    /// A name has no value; or there is a call, an index, a tuple, `pi` or a number with a type.
    NotStatic,
    /// The first failing operation divides by zero.
    ZeroDivisor,
    /// The first failing operation leaves the range of 64 bits.
    Overflow,
}

/// The last value of a name.
fn value_of(pairs: &[(NameId, i64)], name: NameId) -> Option<i64>
    ensures { result ≡ value_of_name pairs.now name None }
{
    let mut found = None;
    for (key, value) in pairs {
        if key.number == name.number {
            found = Some(*value);
        }
    }
    found
}

/// Whether an expression is static.
#[tactic(auto, unfolding(crate::specs::Static::is_static), using(silq_tree::proofs::Lists::ids))]
pub(crate) fn is_static_at(tree: &Tree, e: ExprId, statics: &Statics) -> bool
    requires { e.number < length tree.now.exprs }
    ensures { result ≡ is_static statics.now (expr_at tree.now e) }
{
    match tree.expr(e) {
        Expr::Number { ty, .. } => ty.is_none(),
        Expr::Truth { .. } => true,
        Expr::Place { place, .. } => {
            place.first.is_none() && value_of(statics.as_slice(), place.name).is_some()
        }
        Expr::Unary { arg, .. } => is_static_at(tree, *arg, statics),
        Expr::Binary { left, right, .. } => {
            is_static_at(tree, *left, statics) && is_static_at(tree, *right, statics)
        }
        Expr::Pi { .. } => false,
        Expr::Call { .. } => false,
        Expr::Tuple { .. } => false,
    }
}

/// What a sign before its operand gives.
fn apply(op: UnaryOp, x: i64) -> Result<i64, StaticFault>
    ensures { result ≡ applied op x }
{
    match op {
        UnaryOp::Not => Ok(i64::from(x == 0)),
        UnaryOp::Neg => x.checked_neg().ok_or(StaticFault::Overflow),
    }
}

/// What a sign between its operands gives. `/` rounds towards zero; truth is 0 or 1.
fn join(op: BinaryOp, x: i64, y: i64) -> Result<i64, StaticFault>
    ensures { result ≡ joined op x y }
{
    match op {
        BinaryOp::Or => Ok(i64::from(x != 0 || y != 0)),
        BinaryOp::And => Ok(i64::from(x != 0 && y != 0)),
        BinaryOp::Eq => Ok(i64::from(x == y)),
        BinaryOp::Ne => Ok(i64::from(x != y)),
        BinaryOp::Lt => Ok(i64::from(x < y)),
        BinaryOp::Le => Ok(i64::from(x <= y)),
        BinaryOp::Gt => Ok(i64::from(x > y)),
        BinaryOp::Ge => Ok(i64::from(x >= y)),
        BinaryOp::Add => x.checked_add(y).ok_or(StaticFault::Overflow),
        BinaryOp::Sub => x.checked_sub(y).ok_or(StaticFault::Overflow),
        BinaryOp::Mul => x.checked_mul(y).ok_or(StaticFault::Overflow),
        BinaryOp::Div => {
            if y == 0 {
                Err(StaticFault::ZeroDivisor)
            } else {
                x.checked_div(y).ok_or(StaticFault::Overflow)
            }
        }
    }
}

/// The value of an expression that is static, or its first failing operation in walk order.
#[tactic(auto, unfolding(crate::specs::Static::value), using(silq_tree::proofs::Lists::ids))]
pub(crate) fn value_at(tree: &Tree, e: ExprId, statics: &Statics) -> Result<i64, StaticFault>
    requires { e.number < length tree.now.exprs }
    ensures { result ≡ value statics.now (expr_at tree.now e) }
{
    match tree.expr(e) {
        Expr::Number { value, ty, .. } => {
            if ty.is_some() {
                return Err(StaticFault::NotStatic);
            }
            Ok(*value)
        }
        Expr::Truth { value, .. } => Ok(i64::from(*value)),
        Expr::Place { place, .. } => {
            if place.first.is_some() {
                return Err(StaticFault::NotStatic);
            }
            value_of(statics.as_slice(), place.name).ok_or(StaticFault::NotStatic)
        }
        Expr::Unary { op, arg, .. } => {
            let x = value_at(tree, *arg, statics)?;
            apply(*op, x)
        }
        Expr::Binary {
            op,
            left,
            right,
            ..
        } => {
            let x = value_at(tree, *left, statics)?;
            let y = value_at(tree, *right, statics)?;
            join(*op, x, y)
        }
        Expr::Pi { .. } => Err(StaticFault::NotStatic),
        Expr::Call { .. } => Err(StaticFault::NotStatic),
        Expr::Tuple { .. } => Err(StaticFault::NotStatic),
    }
}

/// The value of a static expression.
///
/// `NotStatic` comes exactly where it is not static, before each failing operation. Both sides of `&&` and `||` are computed. Takes no memory.
pub fn eval(tree: &Tree, e: ExprId, statics: &Statics) -> Result<i64, StaticFault>
    requires { e.number < length tree.now.exprs }
    ensures value { result ≡ eval_of statics.now (expr_at tree.now e) }
    ensures not_static { (result ≡ Err NotStatic) ↔ (is_static statics.now (expr_at tree.now e) ≡ false) }
{
    if is_static_at(tree, e, statics) {
        value_at(tree, e, statics)
    } else {
        Err(StaticFault::NotStatic)
    }
}
