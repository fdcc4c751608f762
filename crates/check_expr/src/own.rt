//! Calls of functions of the program.

ghost use Rattle.std.specs.Prelude.{◌≡◌, ◌<◌, ◌==◌, ◌&&◌, not, length, map, pos, int_lt, IfOk, IfErr, Option, Some, None, ◌∷◌, []};
ghost use Rattle.silq_tree.specs.Children.{AreExprsBelow};
ghost use Rattle.silq_types.specs.Known.{Signatures};
ghost use Rattle.silq_types.specs.Rules.{against_mark, measured_in_branch, not_static, wrong_type, consumed_twice, consumed_and_held};
ghost use Rattle.silq_types.specs.Types.{count};
ghost use Rattle.silq_mean.specs.Written.{header_of};
ghost use Rattle.check_expr.specs.Asks.{asked_as, all_asked};
ghost use Rattle.check_expr.specs.Calls.{items, walk_of, instance_values as values_of_instance};
ghost use Rattle.check_scope.specs.Context.{rules, of_result};
ghost use Rattle.check_expr.specs.Expression.{is_run_time as is_in_run_time, may_call as mark_may_call, is_qfree as mark_is_qfree, is_unmarked as mark_is_unmarked, natural as rule_of_natural, static_arguments as arguments_static, asked_by, all_lifted as all_are_lifted, result_origin as origin_of_result, placed as value_placed, argument_at as value_at, result_values as values_of_results, lone_linear as is_lone_linear, call_own as call_of_own, exact_place};
ghost use Rattle.silq_types.specs.Programs.{paired as names_paired};
ghost use Rattle.check_scope.specs.Library.{function_at, found_at};
ghost use Rattle.check_scope.specs.State.{State, scope_in};
ghost use Rattle.check_scope.specs.Steps.{Reads, Stops};
ghost use Rattle.check_scope.specs.Uses.{argument_uses, some_pair, both_consume, consume_and_hold};
ghost use Rattle.silq_types.specs.Calls.{param_need};

use crate::asked::Ask;
use crate::built_in::{is_linear, mark_of, unnamed_rule};
use crate::expr::{ValueList, arguments};
use crate::signatures::signature;
use crate::values::new_value;
use check_scope::context::Context;
use check_scope::fault::ExprFault;
use check_scope::header::{Header, header_types};
use check_scope::library::Library;
use check_scope::obey::obey;
use check_scope::places::needed;
use check_scope::rule;
use check_scope::spots::spot_of;
use check_scope::uses::{UseList, argument_parts, consume_held, consume_twice, needs_of_own};
use silq_tree::{ExprId, FunId, Mark, NameId, Spot};
use silq_types::{InstanceKey, Known, List, Need, Origin, Param, Returned, StaticList, Ty, Value};
use static_num::Statics;
use std::alloc::{AllocError, Global};

/// Whether a function with this mark permutes basis states.
fn is_qfree(mark: Mark) -> bool
    ensures { result ≡ mark_is_qfree mark }
{
    matches!(mark, Mark::Qfree | Mark::Lifted)
}

/// Whether a function has no mark.
fn is_unmarked(mark: Mark) -> bool
    ensures { result ≡ mark_is_unmarked mark }
{
    matches!(mark, Mark::Plain)
}

/// Whether a function of the first mark may call one of the second.
fn may_call(caller: Mark, callee: Mark) -> bool
    ensures { result ≡ mark_may_call caller callee }
{
    match caller {
        Mark::Plain => true,
        Mark::Mfree => !is_unmarked(callee),
        Mark::Qfree => is_qfree(callee),
        Mark::Lifted => is_qfree(callee),
    }
}

/// The rules of a call of a function by its mark and its static arguments.
#[tactic(auto, using(crate::proofs::Called::counted))]
fn mark_rules(
    library: &Library,
    cx: &Context,
    fun: u32,
    statics: &[ExprId],
    at: Spot,
) -> Result<(), ExprFault>
    requires fun { fun < length library.now.funs }
    requires this { cx.now.this < length library.now.funs }
    ensures reads { (met : Signatures) → IfOk result (λ u. Reads met (rules at ((not (mark_may_call (scope_in library.now cx.now).this.mark (function_at library.now fun).mark), against_mark) ∷ (mark_is_unmarked (function_at library.now fun).mark && is_in_run_time (scope_in library.now cx.now), measured_in_branch) ∷ (not (count (items library.now statics.now) == length (function_at library.now fun).statics), not_static) ∷ [])) cx.now u cx.now) }
    ensures stops { (met : Signatures) → IfErr result (λ f. Stops met (rules at ((not (mark_may_call (scope_in library.now cx.now).this.mark (function_at library.now fun).mark), against_mark) ∷ (mark_is_unmarked (function_at library.now fun).mark && is_in_run_time (scope_in library.now cx.now), measured_in_branch) ∷ (not (count (items library.now statics.now) == length (function_at library.now fun).statics), not_static) ∷ [])) cx.now f cx.now) }
{
    let callee = library.fun(fun);
    let against = !may_call(mark_of(library, cx), callee.mark);
    let measured = is_unmarked(callee.mark) && cx.is_run_time();
    obey(
        at,
        &[
            (against, rule::AGAINST_MARK),
            (measured, rule::MEASURED_IN_BRANCH),
            (!(statics.len() == callee.statics.len()), rule::NOT_STATIC),
        ],
    )
}

/// Whether a number is below 0.
fn is_negative(value: i64) -> bool
    ensures { result ≡ int_lt value (pos 0) }
{
    value < 0
}

/// A static argument is not negative.
fn natural(at: Spot, value: i64) -> Result<(), ExprFault>
    ensures reads { (met : Signatures) (s : State) → IfOk result (λ u. Reads met (rule_of_natural at value) s u s) }
    ensures stops { (met : Signatures) (s : State) → IfErr result (λ f. Stops met (rule_of_natural at value) s f s) }
{
    obey(at, &[(is_negative(value), rule::NOT_STATIC)])
}

/// The values of static arguments.
#[tactic(auto, using(silq_tree::proofs::Lists::ids))]
fn static_arguments(
    library: &Library,
    cx: &Context,
    args: &[ExprId],
) -> Result<StaticList, ExprFault>
    requires { AreExprsBelow (length library.now.nodes.exprs) args.now }
    ensures reads { (met : Signatures) → IfOk result (λ vs. Reads met (arguments_static (items library.now args.now) (scope_in library.now cx.now)) cx.now vs cx.now) }
    ensures stops { (met : Signatures) → IfErr result (λ f. Stops met (arguments_static (items library.now args.now) (scope_in library.now cx.now)) cx.now f cx.now) }
{
    let mut values = StaticList::new(library.alloc());
    for e in args {
        let value = needed(library, cx, *e)?;
        natural(spot_of(library, *e), value)?;
        values.push(value)?;
    }
    Ok(values)
}

/// Static names with their values.
fn paired(alloc: Global, names: &[NameId], values: &[i64]) -> Result<Statics, AllocError>
    ensures { IfOk result (λ pairs. pairs ≡ names_paired names.now values.now) }
{
    let mut pairs = Statics::new(alloc);
    for (name, value) in names.iter().zip(values) {
        pairs.push((*name, *value))?;
    }
    Ok(pairs)
}

/// What a parameter asks of its argument.
fn ask_of(param: &Param) -> Ask
    ensures { asked_as result ≡ asked_by param.now }
{
    let need = if param.held {
        Need::Held
    } else {
        Need::Consumed
    };
    Ask {
        need,
        want: Some(param.ty),
    }
}

/// What the parameters ask of a call's arguments.
fn asks_of(alloc: Global, params: &[Param]) -> Result<List<Ask>, AllocError>
    ensures { IfOk result (λ asks. all_asked asks ≡ map asked_by params.now) }
{
    let mut asks = List::new(alloc);
    for param in params {
        asks.push(ask_of(param))?;
    }
    Ok(asks)
}

/// How many parameters a function has.
fn param_count(library: &Library, fun: u32) -> usize
    requires { fun < length library.now.funs }
    ensures { result ≡ length (function_at library.now fun).params }
{
    library.fun(fun).params.len()
}

/// The parts that the arguments of a call of a function name.
fn own_parts(
    library: &Library,
    cx: &Context,
    fun: u32,
    args: &[ExprId],
) -> Result<List<UseList>, AllocError>
    requires fun { fun < length library.now.funs }
    requires ids { AreExprsBelow (length library.now.nodes.exprs) args.now }
    ensures { IfOk result (λ parts. parts ≡ (argument_uses (items library.now args.now) (scope_in library.now cx.now) cx.now.vars (map (param_need (function_at library.now fun)) (function_at library.now fun).params))) }
{
    let needs = needs_of_own(library, Some(fun))?;
    argument_parts(library, cx, args, needs.as_slice())
}

/// The rules of a call of a function by its arguments, before they are walked.
fn argument_rules(
    library: &Library,
    cx: &Context,
    fun: u32,
    args: &[ExprId],
    at: Spot,
) -> Result<(), ExprFault>
    requires fun { fun < length library.now.funs }
    requires ids { AreExprsBelow (length library.now.nodes.exprs) args.now }
    ensures reads { (met : Signatures) → IfOk result (λ u. Reads met (rules at ((not (count (items library.now args.now) == length (function_at library.now fun).params), wrong_type) ∷ (some_pair both_consume (argument_uses (items library.now args.now) (scope_in library.now cx.now) cx.now.vars (map (param_need (function_at library.now fun)) (function_at library.now fun).params)), consumed_twice) ∷ (some_pair consume_and_hold (argument_uses (items library.now args.now) (scope_in library.now cx.now) cx.now.vars (map (param_need (function_at library.now fun)) (function_at library.now fun).params)), consumed_and_held) ∷ [])) cx.now u cx.now) }
    ensures stops { (met : Signatures) → IfErr result (λ f. Stops met (rules at ((not (count (items library.now args.now) == length (function_at library.now fun).params), wrong_type) ∷ (some_pair both_consume (argument_uses (items library.now args.now) (scope_in library.now cx.now) cx.now.vars (map (param_need (function_at library.now fun)) (function_at library.now fun).params)), consumed_twice) ∷ (some_pair consume_and_hold (argument_uses (items library.now args.now) (scope_in library.now cx.now) cx.now.vars (map (param_need (function_at library.now fun)) (function_at library.now fun).params)), consumed_and_held) ∷ [])) cx.now f cx.now) }
{
    let params = param_count(library, fun);
    let parts = own_parts(library, cx, fun, args)?;
    let twice = consume_twice(parts.as_slice());
    let held = consume_held(parts.as_slice());
    obey(
        at,
        &[
            (!(args.len() == params), rule::WRONG_TYPE),
            (twice, rule::CONSUMED_TWICE),
            (held, rule::CONSUMED_AND_HELD),
        ],
    )
}

/// Whether each consumed argument is Lifted or a copy.
fn all_lifted(params: &[Param], values: &[Value]) -> bool
    ensures { result ≡ all_are_lifted params.now values.now }
{
    for (param, value) in params.iter().zip(values) {
        if !param.held && is_linear(value.origin) {
            return false;
        }
    }
    true
}

/// The origin of a result.
fn result_origin(lifts: bool, ty: Ty) -> Origin
    ensures { result ≡ origin_of_result lifts ty }
{
    if ty.classical {
        Origin::Classical
    } else if lifts {
        Origin::Lifted
    } else {
        Origin::Linear
    }
}

/// The argument whose place a result has.
fn argument_at(values: &[Value], from: Option<u32>) -> Option<Value>
    ensures { result ≡ value_at values.now from }
{
    match from {
        None => None,
        Some(j) => values.get(j as usize).copied(),
    }
}

/// A result with the place of an argument, or with a new place.
fn placed(
    cx: &mut Context,
    given: Option<Value>,
    ty: Ty,
    origin: Origin,
) -> Result<Value, ExprFault>
    ensures reads { (met : Signatures) → IfOk result (λ v. Reads met (value_placed given ty origin) cx.old v cx.new) }
    ensures stops { (met : Signatures) → IfErr result (λ f. Stops met (value_placed given ty origin) cx.old f cx.new) }
{
    match given {
        None => new_value(cx, ty, origin),
        Some(value) => Ok(Value {
            ty,
            origin,
            place: value.place,
        }),
    }
}

/// A value of a call whose arguments have these values.
fn result_value(
    cx: &mut Context,
    lifts: bool,
    values: &[Value],
    returned: Returned,
) -> Result<Value, ExprFault>
    ensures reads { (met : Signatures) → IfOk result (λ v. Reads met (value_placed (value_at values.now returned.from) returned.ty (origin_of_result lifts returned.ty)) cx.old v cx.new) }
    ensures stops { (met : Signatures) → IfErr result (λ f. Stops met (value_placed (value_at values.now returned.from) returned.ty (origin_of_result lifts returned.ty)) cx.old f cx.new) }
{
    let given = argument_at(values, returned.from);
    let origin = result_origin(lifts, returned.ty);
    placed(cx, given, returned.ty, origin)
}

/// The values of a call whose arguments have these values.
fn result_values(
    alloc: Global,
    cx: &mut Context,
    lifts: bool,
    values: &[Value],
    results: &[Returned],
) -> Result<ValueList, ExprFault>
    ensures reads { (met : Signatures) → IfOk result (λ vs. Reads met (values_of_results lifts values.now results.now) cx.old vs cx.new) }
    ensures stops { (met : Signatures) → IfErr result (λ f. Stops met (values_of_results lifts values.now results.now) cx.old f cx.new) }
{
    let mut given = ValueList::new(alloc);
    for returned in results {
        let value = result_value(cx, lifts, values, *returned)?;
        given.push(value)?;
    }
    Ok(given)
}

/// Whether a call has one value, and it is Linear.
fn lone_linear(values: &[Value]) -> bool
    ensures { result ≡ is_lone_linear values.now }
{
    match values {
        [value] => is_linear(value.origin),
        _ => false,
    }
}

/// The static names of a function with their values.
fn own_statics(library: &Library, fun: u32, values: &[i64]) -> Result<Statics, AllocError>
    requires { fun < length library.now.funs }
    ensures { IfOk result (λ pairs. pairs ≡ names_paired (function_at library.now fun).statics values.now) }
{
    paired(library.alloc(), library.fun(fun).statics.as_slice(), values)
}

/// The types of a function's parameters and results under static values.
fn own_header(library: &Library, fun: u32, values: &[i64]) -> Result<Header, ExprFault>
    requires { fun < length library.now.funs }
    ensures reads { (met : Signatures) (s : State) → IfOk result (λ h. Reads met (of_result (header_of (names_paired (function_at library.now fun).statics values.now) exact_place (function_at library.now fun))) s (record { params = h.params; results = h.results }) s) }
    ensures stops { (met : Signatures) (s : State) → IfErr result (λ f. Stops met (of_result (header_of (names_paired (function_at library.now fun).statics values.now) exact_place (function_at library.now fun))) s f s) }
{
    let statics = own_statics(library, fun, values)?;
    match header_types(library, &statics, fun, None) {
        Ok(header) => Ok(header),
        Err(fault) => Err(ExprFault::Fault(fault)),
    }
}

/// Whether a call of a function with such arguments gives Lifted values.
fn lifts(library: &Library, fun: u32, params: &[Param], values: &[Value]) -> bool
    requires { fun < length library.now.funs }
    ensures { result ≡ (mark_is_qfree (function_at library.now fun).mark && all_are_lifted params.now values.now) }
{
    is_qfree(library.fun(fun).mark) && all_lifted(params, values)
}

/// The values of a call of an instance, where its arguments have these values.
fn instance_values(
    library: &Library,
    cx: &mut Context,
    lifts: bool,
    values: &[Value],
    results: &[Returned],
    at: Spot,
    need: Need,
) -> Result<ValueList, ExprFault>
    ensures reads { (met : Signatures) → IfOk result (λ vs. Reads met (values_of_instance lifts values.now results.now at need) cx.old vs cx.new) }
    ensures stops { (met : Signatures) → IfErr result (λ f. Stops met (values_of_instance lifts values.now results.now at need) cx.old f cx.new) }
{
    let given = result_values(library.alloc(), cx, lifts, values, results)?;
    unnamed_rule(at, need, lone_linear(given.as_slice()))?;
    Ok(given)
}

/// The values of a call of a function of the program, by its number.
#[cycle(expression)]
pub(crate) fn call_own(
    library: &Library,
    cx: &mut Context,
    fun: u32,
    statics: &[ExprId],
    args: &[ExprId],
    at: Spot,
    need: Need,
    known: &Known,
) -> Result<ValueList, ExprFault>
    requires fun { fun < length library.now.funs }
    requires static_ids { AreExprsBelow (length library.now.nodes.exprs) statics.now }
    requires ids { AreExprsBelow (length library.now.nodes.exprs) args.now }
    requires this { cx.old.this < length library.now.funs }
    ensures reads { IfOk result (λ vs. Reads known.now (call_of_own (scope_in library.now cx.old) (found_at library.now fun) (items library.now statics.now) (items library.now args.now) at need (walk_of library.now cx.old args.now)) cx.old vs cx.new) }
    ensures stops { IfErr result (λ f. Stops known.now (call_of_own (scope_in library.now cx.old) (found_at library.now fun) (items library.now statics.now) (items library.now args.now) at need (walk_of library.now cx.old args.now)) cx.old f cx.new) }
{
    mark_rules(library, cx, fun, statics, at)?;
    let numbers = static_arguments(library, cx, statics)?;
    let header = own_header(library, fun, numbers.as_slice())?;
    argument_rules(library, cx, fun, args, at)?;
    let asks = asks_of(library.alloc(), header.params.as_slice())?;
    let values = arguments(library, cx, args, Need::Held, asks.as_slice(), known)?;
    let key = InstanceKey {
        fun: FunId { number: fun },
        statics: numbers,
    };
    let signed = signature(cx, key, known)?;
    let lifted = lifts(library, fun, header.params.as_slice(), values.as_slice());
    instance_values(
        library,
        cx,
        lifted,
        values.as_slice(),
        signed.results.as_slice(),
        at,
        need,
    )
}
