//! Ends of blocks and of variables.

ghost use Rattle.std.specs.Prelude.{◌≡◌, true, IfErr, OnOk, drop, length, not, ◌==◌, ◌∷◌, [], Some, IfOk};
ghost use Rattle.silq_types.specs.Rules.{bad_return};
ghost use Rattle.silq_types.specs.declared.values.Value.{Value as Values};
ghost use Rattle.check_scope.specs.Context.{give_back};
ghost use Rattle.check_fun.specs.Counting.{Runs, Fails};
ghost use Rattle.check_fun.specs.Statement.{none_left, end_from as end_of, end_var as var_ended};
ghost use Rattle.check_scope.specs.State.{State};
ghost use Rattle.check_scope.specs.Walk.{Checker, Counts};

use crate::bind::is_live_linear;
use check_scope::context::Context;
use check_scope::fault::CheckFault;
use check_scope::rule;
use silq_tree::Spot;
use silq_types::Var;

/// A variable ends here.
pub(crate) fn end_var(cx: &mut Context, var: Var)
    ensures { (check : Checker) (c : Counts) → Runs check (var_ended var) cx.old c tt cx.new c }
{
    cx.replace(Var {
        part: var.part,
        ty: var.ty,
        origin: var.origin,
        place: var.place,
        consumed: true,
    });
}
