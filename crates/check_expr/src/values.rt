//! Values with new places, and static values.

ghost use Rattle.std.specs.Prelude.{◌≡◌, ◌<◌, ◌^◌, ◌∷◌, [], length, nat_lt, IfOk, IfErr};
ghost use Rattle.silq_tree.specs.Arena.{expr_at};
ghost use Rattle.silq_tree.specs.Children.{scalar_exprs, AreExprsBelow};
ghost use Rattle.silq_tree.specs.Standing.{scalar_of};
ghost use Rattle.silq_types.specs.Known.{Signatures};
ghost use Rattle.silq_types.specs.Types.{at as spot_at, fits as fits_in, shape_eq, single_shape, quantum as quantum_of};
ghost use Rattle.silq_mean.specs.Written.{needed_at, scalar_type as type_of_scalar};
ghost use Rattle.silq_types.specs.declared.values.Origin.TheVariants.{Lifted};
ghost use Rattle.static_num.specs.Static.{is_static as static_is};
ghost use Rattle.check_scope.specs.Context.{give_back, of_result, is_known_name as name_is_known};
ghost use Rattle.check_expr.specs.Expression.{origin_of as origin_told, one_value as value_one, typed_by as by_type, fits_rule as rule_of_fit, static_value as value_static, typed_value as value_typed, is_tuple as tuple_is, single as single_value, suits as value_suits};
ghost use Rattle.check_scope.specs.Places.{new_value as value_new};
ghost use Rattle.check_expr.specs.Numbers.{magnitude_of};
ghost use Rattle.check_expr.specs.Asks.{types_of};
ghost use Rattle.check_scope.specs.State.{State, scope_in};
ghost use Rattle.check_scope.specs.Steps.{Reads, Stops};
ghost use Rattle.check_scope.specs.declared.fault.CheckFault.TheVariants as checks;
ghost use Rattle.check_scope.specs.declared.fault.ExprFault.TheVariants as stops;

use crate::expr::ValueList;
use check_scope::context::Context;
use check_scope::fault::{CheckFault, ExprFault};
use check_scope::header::scalar_type;
use check_scope::library::Library;
use check_scope::obey::obey;
use check_scope::rule;
use check_scope::spots::spot_of;
use silq_tree::node::ScalarNode;
use silq_tree::{Expr, ExprId, Spot};
use silq_types::{Origin, Scalar, Shape, Ty, Value};
use static_num::{StaticFault, eval};
use std::alloc::Global;

/// The fault of a rule that is broken at a place.
pub(crate) fn broken(rule: u8, at: Spot) -> ExprFault
    ensures { result ≡ stops.Fault (checks.Broken rule at) }
{
    ExprFault::Fault(CheckFault::Broken { rule, at })
}

// ---- values with new places

/// The origin of a value that is computed from static ones.
pub(crate) fn origin_of(classical: bool) -> Origin
    ensures { result ≡ origin_told classical }
{
    if classical {
        Origin::Classical
    } else {
        Origin::Lifted
    }
}

/// The list of one value.
#[tactic(auto, using(crate::proofs::Scopes::reads_alone, crate::proofs::Scopes::stops_memory))]
pub(crate) fn alone(alloc: Global, value: Value) -> Result<ValueList, ExprFault>
    ensures reads { (met : Signatures) (s : State) → IfOk result (λ vs. Reads met (give_back (value ∷ [])) s vs s) }
    ensures stops { (met : Signatures) (s : State) → IfErr result (λ f. Stops met (give_back (value ∷ [])) s f s) }
{
    let mut values = ValueList::new(alloc);
    match values.push(value) {
        Ok(()) => Ok(values),
        Err(_) => Err(ExprFault::Fault(CheckFault::Memory)),
    }
}

/// A value with a new place.
#[tactic(auto, using(check_scope::proofs::Sequence::reads_bind, check_scope::proofs::Sequence::reads_back, check_scope::proofs::Sequence::stops_bind, crate::proofs::Scopes::stops_full))]
pub(crate) fn new_value(cx: &mut Context, ty: Ty, origin: Origin) -> Result<Value, ExprFault>
    ensures reads { (met : Signatures) → IfOk result (λ v. Reads met (value_new ty origin) cx.old v cx.new) }
    ensures stops { (met : Signatures) → IfErr result (λ f. Stops met (value_new ty origin) cx.old f cx.new) }
{
    let place = cx.fresh()?;
    Ok(Value { ty, origin, place })
}

/// The one value of a type, with a new place.
#[tactic(auto, using(check_scope::proofs::Sequence::reads_bind, check_scope::proofs::Sequence::stops_bind, check_scope::proofs::Sequence::stops_later))]
pub(crate) fn one_value(
    alloc: Global,
    cx: &mut Context,
    ty: Ty,
    origin: Origin,
) -> Result<ValueList, ExprFault>
    ensures reads { (met : Signatures) → IfOk result (λ vs. Reads met (value_one ty origin) cx.old vs cx.new) }
    ensures stops { (met : Signatures) → IfErr result (λ f. Stops met (value_one ty origin) cx.old f cx.new) }
{
    let value = new_value(cx, ty, origin)?;
    let values = alone(alloc, value)?;
    Ok(values)
}

/// The one value of a type that is computed from such values, with a new place.
pub(crate) fn typed_by(
    alloc: Global,
    cx: &mut Context,
    classical: bool,
    shape: Shape,
) -> Result<ValueList, ExprFault>
    ensures reads { (met : Signatures) → IfOk result (λ vs. Reads met (by_type classical shape) cx.old vs cx.new) }
    ensures stops { (met : Signatures) → IfErr result (λ f. Stops met (by_type classical shape) cx.old f cx.new) }
{
    one_value(alloc, cx, Ty { classical, shape }, origin_of(classical))
}

// ---- numbers within types

/// Whether a number is below a power of two.
fn is_below_power(n: u64, bits: u32) -> bool
    ensures { result ≡ nat_lt n (2 ^ bits) }
{
    bits >= 64 || n < 1u64 << bits
}

/// Whether a number is one of a type's values.
pub(crate) fn fits(shape: Shape, z: i64) -> bool
    ensures { result ≡ fits_in shape z }
{
    match shape {
        Shape::Bit => z == 0 || z == 1,
        Shape::UInt(width) => z >= 0 && is_below_power(z.unsigned_abs(), width),
        Shape::Int(width) => is_below_power(magnitude(z), width.saturating_sub(1)),
        Shape::Array(..) => false,
    }
}

/// The number, or where it is below 0, how far it is below -1.
fn magnitude(z: i64) -> u64
    ensures { result ≡ magnitude_of z }
{
    if z < 0 {
        z.unsigned_abs() - 1
    } else {
        z.unsigned_abs()
    }
}

/// The type of one bit or one number.
pub(crate) fn single_type(scalar: Scalar) -> Ty
    ensures { result ≡ quantum_of (single_shape scalar) }
{
    let shape = match scalar {
        Scalar::Bit => Shape::Bit,
        Scalar::UInt(width) => Shape::UInt(width),
        Scalar::Int(width) => Shape::Int(width),
    };
    Ty {
        classical: false,
        shape,
    }
}

/// Whether two shapes are the same.
pub fn is_same_shape(a: Shape, b: Shape) -> bool
    ensures { result ≡ shape_eq a b }
{
    match (a, b) {
        (Shape::Bit, Shape::Bit) => true,
        (Shape::UInt(n), Shape::UInt(m)) => n == m,
        (Shape::Int(n), Shape::Int(m)) => n == m,
        (Shape::Array(k, n), Shape::Array(l, m)) => k == l && n == m,
        _ => false,
    }
}

// ---- static values

/// Whether an expression is static.
pub fn is_static(library: &Library, cx: &Context, e: ExprId) -> bool
    requires { e.number < length library.now.nodes.exprs }
    ensures { result ≡ static_is cx.now.statics (expr_at library.now.nodes e) }
{
    match eval(library.tree(), e, cx.statics()) {
        Err(StaticFault::NotStatic) => false,
        _ => true,
    }
}

/// The value of an expression that has to be static, told at its first token.
pub(crate) fn static_number(library: &Library, cx: &Context, e: ExprId) -> Result<i64, ExprFault>
    requires { e.number < length library.now.nodes.exprs }
    ensures reads { (met : Signatures) → IfOk result (λ z. Reads met (of_result (needed_at cx.now.statics (expr_at library.now.nodes e) (spot_at (expr_at library.now.nodes e)))) cx.now z cx.now) }
    ensures stops { (met : Signatures) → IfErr result (λ f. Stops met (of_result (needed_at cx.now.statics (expr_at library.now.nodes e) (spot_at (expr_at library.now.nodes e)))) cx.now f cx.now) }
{
    match eval(library.tree(), e, cx.statics()) {
        Ok(z) => Ok(z),
        Err(_) => Err(broken(rule::NOT_STATIC, spot_of(library, e))),
    }
}

/// A number is one of its type's values.
pub(crate) fn fits_rule(at: Spot, ty: Ty, z: i64) -> Result<(), ExprFault>
    ensures reads { (met : Signatures) (s : State) → IfOk result (λ u. Reads met (rule_of_fit at ty z) s u s) }
    ensures stops { (met : Signatures) (s : State) → IfErr result (λ f. Stops met (rule_of_fit at ty z) s f s) }
{
    obey(at, &[(!fits(ty.shape, z), rule::OUTSIDE_TYPE)])
}

/// The value of a static expression is one of its type's values.
fn static_fits(library: &Library, e: ExprId, ty: Ty, z: i64) -> Result<(), ExprFault>
    requires { e.number < length library.now.nodes.exprs }
    ensures reads { (met : Signatures) (s : State) → IfOk result (λ u. Reads met (rule_of_fit (spot_at (expr_at library.now.nodes e)) ty z) s u s) }
    ensures stops { (met : Signatures) (s : State) → IfErr result (λ f. Stops met (rule_of_fit (spot_at (expr_at library.now.nodes e)) ty z) s f s) }
{
    fits_rule(spot_of(library, e), ty, z)
}

/// A static expression takes this type.
fn static_typed(
    library: &Library,
    cx: &mut Context,
    e: ExprId,
    ty: Ty,
) -> Result<ValueList, ExprFault>
    requires { e.number < length library.now.nodes.exprs }
    ensures reads { (met : Signatures) → IfOk result (λ vs. Reads met (value_static (scope_in library.now cx.old) (expr_at library.now.nodes e) (ty ∷ [])) cx.old vs cx.new) }
    ensures stops { (met : Signatures) → IfErr result (λ f. Stops met (value_static (scope_in library.now cx.old) (expr_at library.now.nodes e) (ty ∷ [])) cx.old f cx.new) }
{
    let z = static_number(library, cx, e)?;
    static_fits(library, e, ty, z)?;
    let values = typed_by(library.alloc(), cx, ty.classical, ty.shape)?;
    Ok(values)
}

/// A static expression takes the one type that is asked where it stands.
pub(crate) fn static_value(
    library: &Library,
    cx: &mut Context,
    e: ExprId,
    wants: &[Ty],
) -> Result<ValueList, ExprFault>
    requires { e.number < length library.now.nodes.exprs }
    ensures reads { (met : Signatures) → IfOk result (λ vs. Reads met (value_static (scope_in library.now cx.old) (expr_at library.now.nodes e) wants.now) cx.old vs cx.new) }
    ensures stops { (met : Signatures) → IfErr result (λ f. Stops met (value_static (scope_in library.now cx.old) (expr_at library.now.nodes e) wants.now) cx.old f cx.new) }
{
    match wants {
        [ty] => static_typed(library, cx, e, *ty),
        _ => Err(broken(rule::OUTSIDE_TYPE, spot_of(library, e))),
    }
}

/// The type of a number at this place.
fn number_type(
    library: &Library,
    cx: &Context,
    ty: ScalarNode,
    at: Spot,
) -> Result<Scalar, ExprFault>
    requires { AreExprsBelow (length library.now.nodes.exprs) (scalar_exprs ty) }
    ensures reads { (met : Signatures) → IfOk result (λ k. Reads met (of_result (type_of_scalar cx.now.statics (name_is_known (scope_in library.now cx.now) cx.now.vars) (scalar_of (expr_at library.now.nodes) ty) at)) cx.now k cx.now) }
    ensures stops { (met : Signatures) → IfErr result (λ f. Stops met (of_result (type_of_scalar cx.now.statics (name_is_known (scope_in library.now cx.now) cx.now.vars) (scalar_of (expr_at library.now.nodes) ty) at)) cx.now f cx.now) }
{
    match scalar_type(library, cx, ty, at) {
        Ok(scalar) => Ok(scalar),
        Err(fault) => Err(ExprFault::Fault(fault)),
    }
}

/// A number with a type is one of the type's values.
fn number_fits(at: Spot, scalar: Scalar, number: i64) -> Result<(), ExprFault>
    ensures reads { (met : Signatures) (s : State) → IfOk result (λ u. Reads met (rule_of_fit at (quantum_of (single_shape scalar)) number) s u s) }
    ensures stops { (met : Signatures) (s : State) → IfErr result (λ f. Stops met (rule_of_fit at (quantum_of (single_shape scalar)) number) s f s) }
{
    fits_rule(at, single_type(scalar), number)
}

/// A number with a type, as a value with a new place.
fn number_value(cx: &mut Context, scalar: Scalar) -> Result<Value, ExprFault>
    ensures reads { (met : Signatures) → IfOk result (λ v. Reads met (value_new (quantum_of (single_shape scalar)) Lifted) cx.old v cx.new) }
    ensures stops { (met : Signatures) → IfErr result (λ f. Stops met (value_new (quantum_of (single_shape scalar)) Lifted) cx.old f cx.new) }
{
    new_value(cx, single_type(scalar), Origin::Lifted)
}

/// The value of a number with a type: the names of the width come before its size, and the size before the number.
pub(crate) fn typed_value(
    library: &Library,
    cx: &mut Context,
    number: i64,
    ty: ScalarNode,
    at: Spot,
) -> Result<Value, ExprFault>
    requires { AreExprsBelow (length library.now.nodes.exprs) (scalar_exprs ty) }
    ensures reads { (met : Signatures) → IfOk result (λ v. Reads met (value_typed (scope_in library.now cx.old) number (scalar_of (expr_at library.now.nodes) ty) at) cx.old v cx.new) }
    ensures stops { (met : Signatures) → IfErr result (λ f. Stops met (value_typed (scope_in library.now cx.old) number (scalar_of (expr_at library.now.nodes) ty) at) cx.old f cx.new) }
{
    let scalar = number_type(library, cx, ty, at)?;
    number_fits(at, scalar, number)?;
    let value = number_value(cx, scalar)?;
    Ok(value)
}

// ---- one value, of a type

/// Whether an expression is a tuple.
pub fn is_tuple(library: &Library, e: ExprId) -> bool
    requires { e.number < length library.now.nodes.exprs }
    ensures { result ≡ tuple_is (expr_at library.now.nodes e) }
{
    match library.tree().expr(e) {
        Expr::Tuple { .. } => true,
        _ => false,
    }
}

/// One value, where just one may stand.
pub fn single(library: &Library, e: ExprId, values: &ValueList) -> Result<Value, ExprFault>
    requires { e.number < length library.now.nodes.exprs }
    ensures reads { (met : Signatures) (s : State) → IfOk result (λ v. Reads met (single_value (expr_at library.now.nodes e) values.now) s v s) }
    ensures stops { (met : Signatures) (s : State) → IfErr result (λ f. Stops met (single_value (expr_at library.now.nodes e) values.now) s f s) }
{
    if is_tuple(library, e) {
        return Err(broken(rule::WRONG_TYPE, spot_of(library, e)));
    }
    match values.as_slice() {
        [value] => Ok(*value),
        _ => Err(broken(rule::RESULT_COUNT, spot_of(library, e))),
    }
}

/// The value has the type that is asked, `!` aside, and is classical where that is asked.
pub fn suits(library: &Library, e: ExprId, want: Option<Ty>, value: Value) -> Result<(), ExprFault>
    requires { e.number < length library.now.nodes.exprs }
    ensures reads { (met : Signatures) (s : State) → IfOk result (λ u. Reads met (value_suits (expr_at library.now.nodes e) (types_of want) value) s u s) }
    ensures stops { (met : Signatures) (s : State) → IfErr result (λ f. Stops met (value_suits (expr_at library.now.nodes e) (types_of want) value) s f s) }
{
    match want {
        Some(ty) => obey(
            spot_of(library, e),
            &[
                (!is_same_shape(ty.shape, value.ty.shape), rule::WRONG_TYPE),
                (ty.classical && !value.ty.classical, rule::NOT_CLASSICAL),
            ],
        ),
        None => Ok(()),
    }
}
