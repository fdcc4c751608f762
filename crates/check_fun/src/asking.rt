//! Expressions, with the instances that they call checked where they are met.

ghost use Rattle.std.specs.Prelude.{◌≡◌, ◌<◌, ◌≤◌, length, IfOk, IfErr};
ghost use Rattle.silq_tree.specs.Arena.{expr_at};
ghost use Rattle.check_fun.specs.Counting.{Runs, Fails, checker_at};
ghost use Rattle.check_expr.specs.Expression.{expr as expr_of};
ghost use Rattle.check_scope.specs.State.{scope_in};

use crate::instance::instance;
use crate::tally::Tally;
use check_expr::expr::{ValueList, expr};
use check_scope::context::Context;
use check_scope::fault::{CheckFault, ExprFault};
use check_scope::library::Library;
use silq_tree::ExprId;
use silq_types::{Need, Ty};

/// The values of an expression.
#[cycle(statement)]
pub(crate) fn values(
    library: &Library,
    cx: &mut Context,
    tally: &mut Tally,
    e: ExprId,
    need: Need,
    wants: &[Ty],
) -> Result<ValueList, CheckFault>
    requires id { e.number < length library.now.nodes.exprs }
    requires this { cx.old.this < length library.now.funs }
    requires depth { cx.old.depth ≤ 64 }
    ensures runs { IfOk result (λ vs. Runs (checker_at library.now cx.old) (expr_of (expr_at library.now.nodes e) (scope_in library.now cx.old) need wants.now) cx.old tally.old vs cx.new tally.new) }
    ensures fails { IfErr result (λ f. Fails (checker_at library.now cx.old) (expr_of (expr_at library.now.nodes e) (scope_in library.now cx.old) need wants.now) cx.old tally.old f) }
{
    cx.begin();
    'asking: loop {
        match expr(library, cx, e, need, wants, tally.known()) {
            Ok(values) => return Ok(values),
            Err(ExprFault::Fault(fault)) => return Err(fault),
            Err(ExprFault::Wanted(key)) => {
                let before = cx.this();
                let depth = cx.depth() + 1;
                match instance(library, before, key, depth, tally) {
                    Ok(()) => {}
                    Err(fault) => return Err(fault),
                }
            }
        }
    }
}
