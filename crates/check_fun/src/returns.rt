//! Returned values.

ghost use Rattle.std.specs.Prelude.{◌≡◌, ◌<◌, ◌≤◌, length, IfOk, IfErr, OnOk};
ghost use Rattle.silq_tree.specs.Arena.{expr_at};
ghost use Rattle.check_expr.specs.Asks.{types_of};
ghost use Rattle.check_fun.specs.Counting.{Runs, Fails, checker_at};
ghost use Rattle.check_expr.specs.Expression.{expr as expr_of};
ghost use Rattle.check_scope.specs.State.{State, scope_in};
ghost use Rattle.check_fun.specs.Statement.{first_type as type_first, returned as values_returned, returned_one as one_returned};
ghost use Rattle.check_fun.specs.Stepping.{lone_value};
ghost use Rattle.check_scope.specs.Walk.{Checker, Counts};
ghost use Rattle.check_scope.specs.declared.fault.CheckFault.TheVariants as checks;
ghost use Rattle.silq_types.specs.declared.need.Need.TheVariants as needs;

use crate::asking::values;
use crate::plain::suits_now;
use crate::steps_of_block::single_now;
use crate::tally::Tally;
use check_expr::expr::ValueList;
use check_expr::values::is_tuple;
use check_scope::context::Context;
use check_scope::fault::CheckFault;
use check_scope::library::Library;
use silq_tree::ExprId;
use silq_types::{List, Need, Ty, TyList, Value};

/// The types of the results.
fn wanted(library: &Library, cx: &Context) -> Result<TyList, CheckFault>
    ensures types { IfOk result (λ types. types ≡ cx.now.results) }
    ensures memory { IfErr result (λ f. f ≡ checks.Memory) }
{
    let mut types: TyList = List::new(library.alloc());
    for ty in cx.results() {
        match types.push(*ty) {
            Ok(()) => (),
            Err(_) => return Err(CheckFault::Memory),
        }
    }
    Ok(types)
}

/// The type of the first result.
fn first_wanted(cx: &Context) -> Option<Ty>
    ensures { types_of result ≡ type_first cx.now.results }
{
    match cx.results() {
        [] => None,
        [first, ..] => Some(*first),
    }
}

/// The values of an expression, of which the first has this type.
#[cycle(statement)]
fn first_values(
    library: &Library,
    cx: &mut Context,
    tally: &mut Tally,
    e: ExprId,
    want: Option<Ty>,
) -> Result<ValueList, CheckFault>
    requires id { e.number < length library.now.nodes.exprs }
    requires this { cx.old.this < length library.now.funs }
    requires depth { cx.old.depth ≤ 64 }
    ensures runs { IfOk result (λ vs. Runs (checker_at library.now cx.old) (expr_of (expr_at library.now.nodes e) (scope_in library.now cx.old) needs.Consumed (types_of want)) cx.old tally.old vs cx.new tally.new) }
    ensures fails { IfErr result (λ f. Fails (checker_at library.now cx.old) (expr_of (expr_at library.now.nodes e) (scope_in library.now cx.old) needs.Consumed (types_of want)) cx.old tally.old f) }
{
    match want {
        Some(ty) => values(library, cx, tally, e, Need::Consumed, &[ty]),
        None => values(library, cx, tally, e, Need::Consumed, &[]),
    }
}

/// One value, of this type.
fn is_lone(
    library: &Library,
    e: ExprId,
    found: &[Value],
    want: Option<Ty>,
) -> Result<(), CheckFault>
    requires { e.number < length library.now.nodes.exprs }
    ensures runs { (check : Checker) (s : State) (c : Counts) → OnOk result (Runs check (lone_value (expr_at library.now.nodes e) (types_of want) found.now) s c found.now s c) }
    ensures fails { (check : Checker) (s : State) (c : Counts) → IfErr result (λ f. Fails check (lone_value (expr_at library.now.nodes e) (types_of want) found.now) s c f) }
{
    match single_now(library, e, found) {
        Ok(value) => suits_now(library, e, want, value),
        Err(fault) => Err(fault),
    }
}

/// The one value that is returned.
#[cycle(statement)]
fn returned_one(
    library: &Library,
    cx: &mut Context,
    tally: &mut Tally,
    e: ExprId,
) -> Result<ValueList, CheckFault>
    requires id { e.number < length library.now.nodes.exprs }
    requires this { cx.old.this < length library.now.funs }
    requires depth { cx.old.depth ≤ 64 }
    ensures runs { IfOk result (λ vs. Runs (checker_at library.now cx.old) (one_returned (expr_at library.now.nodes e) (scope_in library.now cx.old)) cx.old tally.old vs cx.new tally.new) }
    ensures fails { IfErr result (λ f. Fails (checker_at library.now cx.old) (one_returned (expr_at library.now.nodes e) (scope_in library.now cx.old)) cx.old tally.old f) }
{
    let want = first_wanted(cx);
    match first_values(library, cx, tally, e, want) {
        Ok(found) => match is_lone(library, e, found.as_slice(), want) {
            Ok(()) => Ok(found),
            Err(fault) => Err(fault),
        },
        Err(fault) => Err(fault),
    }
}

/// The values of a tuple that is returned: the items take the types of the results in turn.
#[cycle(statement)]
fn returned_tuple(
    library: &Library,
    cx: &mut Context,
    tally: &mut Tally,
    e: ExprId,
) -> Result<ValueList, CheckFault>
    requires id { e.number < length library.now.nodes.exprs }
    requires this { cx.old.this < length library.now.funs }
    requires depth { cx.old.depth ≤ 64 }
    ensures runs { IfOk result (λ vs. Runs (checker_at library.now cx.old) (expr_of (expr_at library.now.nodes e) (scope_in library.now cx.old) needs.Consumed cx.old.results) cx.old tally.old vs cx.new tally.new) }
    ensures fails { IfErr result (λ f. Fails (checker_at library.now cx.old) (expr_of (expr_at library.now.nodes e) (scope_in library.now cx.old) needs.Consumed cx.old.results) cx.old tally.old f) }
{
    match wanted(library, cx) {
        Ok(types) => values(library, cx, tally, e, Need::Consumed, types.as_slice()),
        Err(fault) => Err(fault),
    }
}

/// The values that are returned: the items of a tuple take the types of the results in turn, one value that of the first.
#[cycle(statement)]
pub(crate) fn returned(
    library: &Library,
    cx: &mut Context,
    tally: &mut Tally,
    e: ExprId,
) -> Result<ValueList, CheckFault>
    requires id { e.number < length library.now.nodes.exprs }
    requires this { cx.old.this < length library.now.funs }
    requires depth { cx.old.depth ≤ 64 }
    ensures runs { IfOk result (λ vs. Runs (checker_at library.now cx.old) (values_returned (expr_at library.now.nodes e) (scope_in library.now cx.old)) cx.old tally.old vs cx.new tally.new) }
    ensures fails { IfErr result (λ f. Fails (checker_at library.now cx.old) (values_returned (expr_at library.now.nodes e) (scope_in library.now cx.old)) cx.old tally.old f) }
{
    if is_tuple(library, e) {
        returned_tuple(library, cx, tally, e)
    } else {
        returned_one(library, cx, tally, e)
    }
}
