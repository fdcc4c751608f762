//! The rounds of loops.

ghost use Rattle.std.specs.Prelude.{◌<◌, ◌≤◌, ◌-ℤ◌, length, IfErr, OnOk};
ghost use Rattle.silq_tree.specs.Arena.{expr_at, stmt_at};
ghost use Rattle.silq_tree.specs.Children.{AreStmtsBelow};
ghost use Rattle.silq_tree.specs.Standing.{block_of};
ghost use Rattle.check_fun.specs.Branches.{round_of};
ghost use Rattle.check_fun.specs.Counting.{Runs, Fails, checker_at};
ghost use Rattle.check_scope.specs.State.{scope_in};
ghost use Rattle.check_fun.specs.Statement.{rounds as rounds_of};
ghost use Rattle.silq_types.specs.Programs.{distance};

use crate::block::plain;
use crate::tally::Tally;
use check_scope::context::Context;
use check_scope::fault::CheckFault;
use check_scope::library::Library;
use silq_tree::{Block, NameId};

/// Checks a loop's body with this value of its variable.
#[cycle(statement)]
fn round(
    library: &Library,
    cx: &mut Context,
    tally: &mut Tally,
    name: NameId,
    value: i64,
    body: &Block,
) -> Result<(), CheckFault>
    requires body { AreStmtsBelow (length library.now.nodes.stmts) body.now.items }
    requires this { cx.old.this < length library.now.funs }
    requires depth { cx.old.depth ≤ 64 }
    ensures runs { OnOk result (Runs (checker_at library.now cx.old) (round_of (scope_in library.now cx.old) name (block_of (expr_at library.now.nodes) (stmt_at library.now.nodes) body.now) value) cx.old tally.old tt cx.new tally.new) }
    ensures fails { IfErr result (λ f. Fails (checker_at library.now cx.old) (round_of (scope_in library.now cx.old) name (block_of (expr_at library.now.nodes) (stmt_at library.now.nodes) body.now) value) cx.old tally.old f) }
{
    let Ok(()) = cx.bind(name, value) else {
        return Err(CheckFault::Memory);
    };
    plain(library, cx, tally, body.items.as_slice(), body.end)?;
    cx.unbind();
    Ok(())
}

/// Checks the rounds of a loop in turn, from its first value to the one behind its last. Each round of a body that is not empty
/// counts at least one statement, so that the limit ends a long loop.
#[cycle(statement)]
pub(crate) fn rounds(
    library: &Library,
    cx: &mut Context,
    tally: &mut Tally,
    name: NameId,
    first: i64,
    past: i64,
    body: &Block,
) -> Result<(), CheckFault>
    requires body { AreStmtsBelow (length library.now.nodes.stmts) body.now.items }
    requires this { cx.old.this < length library.now.funs }
    requires depth { cx.old.depth ≤ 64 }
    ensures runs { OnOk result (Runs (checker_at library.now cx.old) (rounds_of (round_of (scope_in library.now cx.old) name (block_of (expr_at library.now.nodes) (stmt_at library.now.nodes) body.now)) first (distance (past -ℤ first))) cx.old tally.old tt cx.new tally.new) }
    ensures fails { IfErr result (λ f. Fails (checker_at library.now cx.old) (rounds_of (round_of (scope_in library.now cx.old) name (block_of (expr_at library.now.nodes) (stmt_at library.now.nodes) body.now)) first (distance (past -ℤ first))) cx.old tally.old f) }
{
    let mut value = first;
    while value < past {
        round(library, cx, tally, name, value, body)?;
        value += 1;
    }
    Ok(())
}
