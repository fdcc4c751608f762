//! Calls of built-in functions.

ghost use Rattle.std.specs.Prelude.{◌≡◌, ◌<◌, length, pos, not, ◌&&◌, IfSome, IfOk, IfErr, Option, Some, None, is_some, ◌∷◌, []};
ghost use Rattle.silq_tree.specs.Arena.{expr_at};
ghost use Rattle.silq_tree.specs.Children.{AreExprsBelow};
ghost use Rattle.silq_tree.specs.Standing.{expressions_of};
ghost use Rattle.silq_types.specs.Known.{Signatures};
ghost use Rattle.silq_types.specs.Rules.{wrong_type, bad_size};
ghost use Rattle.silq_types.specs.Types.{is_bit as is_bit_shape, is_linear as is_linear_origin, count};
ghost use Rattle.silq_mean.specs.Written.{is_count as is_count_up_to, most_items};
ghost use Rattle.static_num.specs.Static.{is_static as is_static_expression};
ghost use Rattle.silq_types.specs.declared.need.Need.TheVariants as needs;
ghost use Rattle.check_scope.specs.declared.fault.CheckFault.TheVariants as checks;
ghost use Rattle.check_scope.specs.declared.fault.ExprFault.TheVariants as stops;
ghost use Rattle.check_expr.specs.Asks.{asked_as};
ghost use Rattle.check_expr.specs.Expression.{call_built_in as call_of_built_in, call_gate as call_of_gate, built_in_rules as rules_of_built_in, gate_values as values_of_gate, gate_value as value_of_gate, flip_value as value_flipped, gate_origin as origin_of_gate, many as many_values, repeated as shape_repeated, vector_value as value_of_vector, length_value as value_of_length, is_typed as is_typed_number, all_typed as are_typed_numbers, may_hold as mark_may_hold, unnamed_rule as rule_of_unnamed, asked_by_built_in};
ghost use Rattle.check_scope.specs.State.{State, scope_in};
ghost use Rattle.check_expr.specs.Calls.{items, walk_of, later_of};
ghost use Rattle.check_scope.specs.Context.{rules};
ghost use Rattle.check_scope.specs.Steps.{Reads, Stops};

use crate::asked::Ask;
use crate::expr::{ValueList, arguments};
use crate::values::{alone, broken, is_static, one_value, static_number};
use check_scope::context::Context;
use check_scope::fault::{CheckFault, ExprFault};
use check_scope::library::Library;
use check_scope::obey::obey;
use check_scope::places::known_names;
use check_scope::rule;
use silq_io::What;
use silq_tree::{Expr, ExprId, Mark, Spot, Tree};
use silq_types::{BuiltIn, Known, Need, Origin, Scalar, Shape, Ty, Value};
use std::alloc::Global;

/// The fault of something that is not supported.
fn unsupported(what: What, at: Spot) -> ExprFault
    ensures { result ≡ stops.Fault (checks.Unsupported what at) }
{
    ExprFault::Fault(CheckFault::Unsupported { what, at })
}

/// A Linear value without a name may not stand in a held use.
pub(crate) fn unnamed_rule(at: Spot, need: Need, linear: bool) -> Result<(), ExprFault>
    ensures reads { (met : Signatures) (s : State) → IfOk result (λ u. Reads met (rule_of_unnamed at need linear) s u s) }
    ensures stops { (met : Signatures) (s : State) → IfErr result (λ f. Stops met (rule_of_unnamed at need linear) s f s) }
{
    obey(at, &[(need != Need::Consumed && linear, rule::LINEAR_LEFT)])
}

/// What a gate makes of an origin.
fn gate_origin(gate: BuiltIn, origin: Origin) -> Origin
    ensures { result ≡ origin_of_gate gate origin }
{
    match (gate, origin) {
        (BuiltIn::XGate, Origin::Lifted) => Origin::Lifted,
        _ => Origin::Linear,
    }
}

/// Whether an origin is Linear.
pub(crate) fn is_linear(origin: Origin) -> bool
    ensures { result ≡ is_linear_origin origin }
{
    matches!(origin, Origin::Linear)
}

/// A gate is for one bit.
fn bit_rule(at: Spot, shape: Shape) -> Result<(), ExprFault>
    ensures reads { (met : Signatures) (s : State) → IfOk result (λ u. Reads met (rules at ((not (is_bit_shape shape), wrong_type) ∷ [])) s u s) }
    ensures stops { (met : Signatures) (s : State) → IfErr result (λ f. Stops met (rules at ((not (is_bit_shape shape), wrong_type) ∷ [])) s f s) }
{
    let is_bit = matches!(shape, Shape::Bit);
    obey(at, &[(!is_bit, rule::WRONG_TYPE)])
}

/// The value behind `X`, `H`, `Y` or `Z`, which keep the place.
fn flip_value(
    alloc: Global,
    gate: BuiltIn,
    at: Spot,
    need: Need,
    value: Value,
) -> Result<ValueList, ExprFault>
    ensures reads { (met : Signatures) (s : State) → IfOk result (λ vs. Reads met (value_flipped gate at need value) s vs s) }
    ensures stops { (met : Signatures) (s : State) → IfErr result (λ f. Stops met (value_flipped gate at need value) s f s) }
{
    bit_rule(at, value.ty.shape)?;
    let origin = gate_origin(gate, value.origin);
    unnamed_rule(at, need, is_linear(origin))?;
    let classical = false;
    let shape = value.ty.shape;
    let place = value.place;
    alone(
        alloc,
        Value {
            ty: Ty { classical, shape },
            origin,
            place,
        },
    )
}

/// The value behind a gate, `dup` or `measure`.
fn gate_value(
    alloc: Global,
    cx: &mut Context,
    gate: BuiltIn,
    at: Spot,
    need: Need,
    value: Value,
) -> Result<ValueList, ExprFault>
    ensures reads { (met : Signatures) → IfOk result (λ vs. Reads met (value_of_gate gate at need value) cx.old vs cx.new) }
    ensures stops { (met : Signatures) → IfErr result (λ f. Stops met (value_of_gate gate at need value) cx.old f cx.new) }
{
    let shape = value.ty.shape;
    match gate {
        BuiltIn::Dup => one_value(
            alloc,
            cx,
            Ty {
                classical: false,
                shape,
            },
            Origin::Lifted,
        ),
        BuiltIn::Measure => one_value(
            alloc,
            cx,
            Ty {
                classical: true,
                shape,
            },
            Origin::Classical,
        ),
        _ => flip_value(alloc, gate, at, need, value),
    }
}

/// The same, where it has one argument.
fn gate_values(
    alloc: Global,
    cx: &mut Context,
    gate: BuiltIn,
    at: Spot,
    need: Need,
    values: &[Value],
) -> Result<ValueList, ExprFault>
    ensures reads { (met : Signatures) → IfOk result (λ vs. Reads met (values_of_gate gate at need values.now) cx.old vs cx.new) }
    ensures stops { (met : Signatures) → IfErr result (λ f. Stops met (values_of_gate gate at need values.now) cx.old f cx.new) }
{
    match values {
        [value] => gate_value(alloc, cx, gate, at, need, *value),
        _ => Err(broken(rule::WRONG_TYPE, at)),
    }
}

/// What so many of a value are made of.
pub(crate) fn repeated(shape: Shape, len: u32) -> Shape
    ensures { result ≡ shape_repeated shape (pos len) }
{
    match shape {
        Shape::Bit => Shape::Array(Scalar::Bit, len),
        Shape::UInt(width) => Shape::Array(Scalar::UInt(width), len),
        Shape::Int(width) => Shape::Array(Scalar::Int(width), len),
        Shape::Array(element, _) => Shape::Array(element, len),
    }
}

/// So many of one value.
fn many(
    alloc: Global,
    cx: &mut Context,
    at: Spot,
    values: &[Value],
    len: u32,
) -> Result<ValueList, ExprFault>
    ensures reads { (met : Signatures) → IfOk result (λ vs. Reads met (many_values at values.now (pos len)) cx.old vs cx.new) }
    ensures stops { (met : Signatures) → IfErr result (λ f. Stops met (many_values at values.now (pos len)) cx.old f cx.new) }
{
    match values {
        [value] => {
            let shape = repeated(value.ty.shape, len);
            one_value(
                alloc,
                cx,
                Ty {
                    classical: false,
                    shape,
                },
                Origin::Lifted,
            )
        }
        _ => Err(broken(rule::WRONG_TYPE, at)),
    }
}

/// The function's mark in whose body the call stands.
pub(crate) fn mark_of(library: &Library, cx: &Context) -> Mark
    requires { cx.now.this < length library.now.funs }
    ensures { result ≡ (scope_in library.now cx.now).this.mark }
{
    library.fun(cx.this()).mark
}

/// Whether a function with this mark may call a built-in function.
fn may_hold(mark: Mark, fun: BuiltIn) -> bool
    ensures { result ≡ mark_may_hold mark fun }
{
    let is_qfree = matches!(mark, Mark::Qfree | Mark::Lifted);
    match fun {
        BuiltIn::HGate => !is_qfree,
        BuiltIn::YGate => !is_qfree,
        BuiltIn::ZGate => !is_qfree,
        BuiltIn::Measure => matches!(mark, Mark::Plain),
        _ => true,
    }
}

/// The rules of a call of a built-in function before its arguments.
#[tactic(auto, using(crate::proofs::Called::counted))]
fn built_in_rules(
    library: &Library,
    cx: &Context,
    fun: BuiltIn,
    statics: &[ExprId],
    args: &[ExprId],
    arity: usize,
    at: Spot,
) -> Result<(), ExprFault>
    requires { cx.now.this < length library.now.funs }
    ensures reads { (met : Signatures) → IfOk result (λ u. Reads met (rules_of_built_in (scope_in library.now cx.now) fun (items library.now statics.now) (items library.now args.now) arity at) cx.now u cx.now) }
    ensures stops { (met : Signatures) → IfErr result (λ f. Stops met (rules_of_built_in (scope_in library.now cx.now) fun (items library.now statics.now) (items library.now args.now) arity at) cx.now f cx.now) }
{
    let against = !may_hold(mark_of(library, cx), fun);
    let measured = matches!(fun, BuiltIn::Measure) && cx.is_run_time();
    obey(
        at,
        &[
            (against, rule::AGAINST_MARK),
            (measured, rule::MEASURED_IN_BRANCH),
            (!(statics.len() == 0), rule::NOT_STATIC),
            (!(args.len() == arity), rule::WRONG_TYPE),
        ],
    )
}

/// The length where it is static; any other is told after the value is walked.
fn length_value(library: &Library, cx: &Context, e: ExprId) -> Result<i64, ExprFault>
    requires { e.number < length library.now.nodes.exprs }
    ensures reads { (met : Signatures) → IfOk result (λ z. Reads met (value_of_length (scope_in library.now cx.now) (expr_at library.now.nodes e)) cx.now z cx.now) }
    ensures stops { (met : Signatures) → IfErr result (λ f. Stops met (value_of_length (scope_in library.now cx.now) (expr_at library.now.nodes e)) cx.now f cx.now) }
{
    if is_static(library, cx, e) {
        static_number(library, cx, e)
    } else {
        Ok(0)
    }
}

/// Whether an expression is a number with a type.
fn is_typed(tree: &Tree, e: ExprId) -> bool
    requires { e.number < length tree.now.exprs }
    ensures { result ≡ is_typed_number (expr_at tree.now e) }
{
    match tree.expr(e) {
        Expr::Number { ty, .. } => ty.is_some(),
        _ => false,
    }
}

/// Whether each is a number with a type.
#[tactic(auto, using(silq_tree::proofs::Lists::ids))]
fn all_typed(tree: &Tree, items: &[ExprId]) -> bool
    requires { AreExprsBelow (length tree.now.exprs) items.now }
    ensures { result ≡ are_typed_numbers (expressions_of (expr_at tree.now) items.now) }
{
    for e in items {
        if !is_typed(tree, *e) {
            return false;
        }
    }
    true
}

/// The length as a count, where it is 1 to 4,096.
pub(crate) fn as_count(len: i64) -> Option<u32>
    ensures some { is_some result ≡ is_count_up_to most_items len }
    ensures value { IfSome result (λ n. pos n ≡ len) }
{
    if 0 < len && len <= 4096 {
        Some(len as u32)
    } else {
        None
    }
}

/// Whether a call of `vector` has a static length and a number with a type.
fn is_plain(library: &Library, cx: &Context, len: ExprId, rest: &[ExprId]) -> bool
    requires len { len.number < length library.now.nodes.exprs }
    requires rest { AreExprsBelow (length library.now.nodes.exprs) rest.now }
    ensures { result ≡ (is_static_expression cx.now.statics (expr_at library.now.nodes len) && are_typed_numbers (items library.now rest.now)) }
{
    is_static(library, cx, len) && all_typed(library.tree(), rest)
}

/// The rules of a call of `vector` after its arguments; they give the length.
#[tactic(auto, unfolding(check_scope::specs::Context::rules))]
fn vector_rules(at: Spot, plain: bool, len: i64) -> Result<u32, ExprFault>
    ensures reads { (met : Signatures) (s : State) → IfOk result (λ n. Reads met (rules at ((not plain, wrong_type) ∷ (not (is_count_up_to most_items len), bad_size) ∷ [])) s tt s) }
    ensures stops { (met : Signatures) (s : State) → IfErr result (λ f. Stops met (rules at ((not plain, wrong_type) ∷ (not (is_count_up_to most_items len), bad_size) ∷ [])) s f s) }
    ensures len { IfOk result (λ n. pos n ≡ len) }
{
    if !plain {
        return Err(broken(rule::WRONG_TYPE, at));
    }
    match as_count(len) {
        Some(n) => Ok(n),
        None => Err(broken(rule::BAD_SIZE, at)),
    }
}

/// The value of a call of `vector` with a length and further arguments.
#[cycle(expression)]
fn vector_of(
    library: &Library,
    cx: &mut Context,
    at: Spot,
    len: ExprId,
    rest: &[ExprId],
    known: &Known,
) -> Result<ValueList, ExprFault>
    requires len { len.number < length library.now.nodes.exprs }
    requires rest { AreExprsBelow (length library.now.nodes.exprs) rest.now }
    requires this { cx.old.this < length library.now.funs }
    ensures reads { IfOk result (λ vs. Reads known.now (value_of_vector (scope_in library.now cx.old) at (items library.now (len ∷ rest.now)) (later_of library.now cx.old (len ∷ rest.now))) cx.old vs cx.new) }
    ensures stops { IfErr result (λ f. Stops known.now (value_of_vector (scope_in library.now cx.old) at (items library.now (len ∷ rest.now)) (later_of library.now cx.old (len ∷ rest.now))) cx.old f cx.new) }
{
    let plain = is_plain(library, cx, len, rest);
    known_names(library, cx, len)?;
    let count = length_value(library, cx, len)?;
    let values = arguments(library, cx, rest, Need::Held, &[], known)?;
    let count = vector_rules(at, plain, count)?;
    many(library.alloc(), cx, at, values.as_slice(), count)
}

/// The value of a call of `vector`.
#[cycle(expression)]
fn vector_value(
    library: &Library,
    cx: &mut Context,
    at: Spot,
    args: &[ExprId],
    known: &Known,
) -> Result<ValueList, ExprFault>
    requires ids { AreExprsBelow (length library.now.nodes.exprs) args.now }
    requires this { cx.old.this < length library.now.funs }
    ensures reads { IfOk result (λ vs. Reads known.now (value_of_vector (scope_in library.now cx.old) at (items library.now args.now) (later_of library.now cx.old args.now)) cx.old vs cx.new) }
    ensures stops { IfErr result (λ f. Stops known.now (value_of_vector (scope_in library.now cx.old) at (items library.now args.now) (later_of library.now cx.old args.now)) cx.old f cx.new) }
{
    match args {
        [] => Err(broken(rule::WRONG_TYPE, at)),
        [len, rest @ ..] => vector_of(library, cx, at, *len, rest, known),
    }
}

/// What a gate asks of its argument.
fn ask_of(gate: BuiltIn) -> Ask
    ensures { asked_as result ∷ [] ≡ asked_by_built_in gate }
{
    let need = match gate {
        BuiltIn::Dup => Need::Held,
        _ => Need::Consumed,
    };
    Ask { need, want: None }
}

/// The values of a call of a gate, of `dup` or of `measure`.
#[cycle(expression)]
fn call_gate(
    library: &Library,
    cx: &mut Context,
    gate: BuiltIn,
    statics: &[ExprId],
    args: &[ExprId],
    at: Spot,
    need: Need,
    known: &Known,
) -> Result<ValueList, ExprFault>
    requires ids { AreExprsBelow (length library.now.nodes.exprs) args.now }
    requires this { cx.old.this < length library.now.funs }
    ensures reads { IfOk result (λ vs. Reads known.now (call_of_gate (scope_in library.now cx.old) gate (items library.now statics.now) (items library.now args.now) at need (walk_of library.now cx.old args.now)) cx.old vs cx.new) }
    ensures stops { IfErr result (λ f. Stops known.now (call_of_gate (scope_in library.now cx.old) gate (items library.now statics.now) (items library.now args.now) at need (walk_of library.now cx.old args.now)) cx.old f cx.new) }
{
    built_in_rules(library, cx, gate, statics, args, 1, at)?;
    let values = arguments(library, cx, args, Need::Held, &[ask_of(gate)], known)?;
    gate_values(library.alloc(), cx, gate, at, need, values.as_slice())
}

/// The values of a call of a built-in function.
#[cycle(expression)]
pub(crate) fn call_built_in(
    library: &Library,
    cx: &mut Context,
    fun: BuiltIn,
    statics: &[ExprId],
    args: &[ExprId],
    at: Spot,
    need: Need,
    known: &Known,
) -> Result<ValueList, ExprFault>
    requires ids { AreExprsBelow (length library.now.nodes.exprs) args.now }
    requires this { cx.old.this < length library.now.funs }
    ensures reads { IfOk result (λ vs. Reads known.now (call_of_built_in (scope_in library.now cx.old) fun (items library.now statics.now) (items library.now args.now) at need (walk_of library.now cx.old args.now) (later_of library.now cx.old args.now)) cx.old vs cx.new) }
    ensures stops { IfErr result (λ f. Stops known.now (call_of_built_in (scope_in library.now cx.old) fun (items library.now statics.now) (items library.now args.now) at need (walk_of library.now cx.old args.now) (later_of library.now cx.old args.now)) cx.old f cx.new) }
{
    match fun {
        BuiltIn::RotateX => Err(unsupported(What::RotX, at)),
        BuiltIn::RotateY => Err(unsupported(What::RotY, at)),
        BuiltIn::RotateZ => Err(unsupported(What::RotZ, at)),
        BuiltIn::Vector => {
            built_in_rules(library, cx, fun, statics, args, 2, at)?;
            vector_value(library, cx, at, args, known)
        }
        _ => call_gate(library, cx, fun, statics, args, at, need, known),
    }
}
