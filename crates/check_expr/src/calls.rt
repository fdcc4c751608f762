//! Calls: of built-in functions, and of functions of the program.

ghost use Rattle.std.specs.Prelude.{◌<◌, length, IfOk, IfErr};
ghost use Rattle.silq_tree.specs.Arena.{expr_at};
ghost use Rattle.silq_tree.specs.Children.{AreExprsBelow};
ghost use Rattle.silq_tree.specs.Standing.{expressions_of};
ghost use Rattle.silq_types.specs.declared.need.Need.TheVariants as needs;
ghost use Rattle.check_expr.specs.Expression.{call_found, arguments, later_arguments};
ghost use Rattle.check_scope.specs.State.{scope_in};
ghost use Rattle.check_scope.specs.Steps.{Reads, Stops};
ghost use Rattle.silq_types.specs.Calls.{built_in, find_fun};

use crate::built_in::call_built_in;
use crate::expr::ValueList;
use crate::own::call_own;
use crate::values::broken;
use check_scope::context::Context;
use check_scope::fault::ExprFault;
use check_scope::library::Library;
use check_scope::rule;
use silq_tree::{ExprId, NameId, Spot};
use silq_types::{Known, Need};

/// The values of a call of the function with this name.
#[cycle(expression)]
pub(crate) fn call(
    library: &Library,
    cx: &mut Context,
    fun: NameId,
    statics: &[ExprId],
    args: &[ExprId],
    at: Spot,
    need: Need,
    known: &Known,
) -> Result<ValueList, ExprFault>
    requires static_ids { AreExprsBelow (length library.now.nodes.exprs) statics.now }
    requires ids { AreExprsBelow (length library.now.nodes.exprs) args.now }
    requires this { cx.old.this < length library.now.funs }
    ensures reads { IfOk result (λ vs. Reads known.now (call_found (scope_in library.now cx.old) (built_in library.now.words fun) (find_fun (scope_in library.now cx.old).before fun) (expressions_of (expr_at library.now.nodes) statics.now) (expressions_of (expr_at library.now.nodes) args.now) at need (λ asked. arguments (expressions_of (expr_at library.now.nodes) args.now) (scope_in library.now cx.old) needs.Held asked) (later_arguments (expressions_of (expr_at library.now.nodes) args.now) (scope_in library.now cx.old))) cx.old vs cx.new) }
    ensures stops { IfErr result (λ f. Stops known.now (call_found (scope_in library.now cx.old) (built_in library.now.words fun) (find_fun (scope_in library.now cx.old).before fun) (expressions_of (expr_at library.now.nodes) statics.now) (expressions_of (expr_at library.now.nodes) args.now) at need (λ asked. arguments (expressions_of (expr_at library.now.nodes) args.now) (scope_in library.now cx.old) needs.Held asked) (later_arguments (expressions_of (expr_at library.now.nodes) args.now) (scope_in library.now cx.old))) cx.old f cx.new) }
{
    match library.built_in(fun) {
        Some(word) => call_built_in(library, cx, word, statics, args, at, need, known),
        None => match library.find(fun, cx.this()) {
            Some(number) => call_own(library, cx, number, statics, args, at, need, known),
            None => Err(broken(rule::NAME_TAKEN, at)),
        },
    }
}
