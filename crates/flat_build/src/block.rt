//! Blocks, choices and loops.

ghost use Rattle.std.specs.Prelude.{◌≡◌, ◌<◌, length, IfErr, OnOk};
ghost use Rattle.silq_tree.specs.Children.{AreStmtsBelow, else_stmts};
ghost use Rattle.silq_mean.specs.Effect.{choice};
ghost use Rattle.bit_arith.specs.Calls.{Refused};
ghost use Rattle.flat_form.specs.Flat.{flat};
ghost use Rattle.flat_steps.specs.Ready.{Ready};
ghost use Rattle.tree_walk.specs.Seen.{stmts_in, block_in, else_in, taken_in, choose_in, loop_in, with_value};

use crate::expr::expr;
use crate::statement::statement;
use check_scope::Library;
use flat_steps::Flattening;
use silq_io::LimitFault;
use silq_tree::{Else, ExprId, NameId, StmtId};
use silq_types::Need;
use tree_walk::Body;
use tree_walk::block::holds;
use tree_walk::written::{is_static, static_value};

/// Flattens statements in turn.
#[cycle(walk)]
pub(crate) fn statements(
    library: &Library,
    body: &Body,
    state: &mut Flattening,
    ids: &[StmtId],
) -> Result<(), LimitFault>
    requires ids { AreStmtsBelow (length library.now.nodes.stmts) ids.now }
    requires this { body.now.this < length library.now.funs }
    requires ready { Ready (stmts_in library.now body.now ids.now) state.old }
    ensures ok { OnOk result (state.new ≡ flat (stmts_in library.now body.now ids.now) state.old) }
    ensures refused { IfErr result (λ f. Refused f (flat (stmts_in library.now body.now ids.now) state.old).built) }
{
    for id in ids {
        statement(library, body, state, *id)?;
    }
    Ok(())
}

/// A block, at whose end its variables are taken out.
#[cycle(walk)]
fn block(
    library: &Library,
    body: &Body,
    state: &mut Flattening,
    ids: &[StmtId],
) -> Result<(), LimitFault>
    requires ids { AreStmtsBelow (length library.now.nodes.stmts) ids.now }
    requires this { body.now.this < length library.now.funs }
    requires ready { Ready (block_in library.now body.now ids.now) state.old }
    ensures ok { OnOk result (state.new ≡ flat (block_in library.now body.now ids.now) state.old) }
    ensures refused { IfErr result (λ f. Refused f (flat (block_in library.now body.now ids.now) state.old).built) }
{
    state.enter_block()?;
    statements(library, body, state, ids)?;
    state.leave_block();
    Ok(())
}

/// What stands behind `else`: a block, or a statement in one.
#[cycle(walk)]
fn otherwise(
    library: &Library,
    body: &Body,
    state: &mut Flattening,
    other: &Else,
) -> Result<(), LimitFault>
    requires ids { AreStmtsBelow (length library.now.nodes.stmts) (else_stmts other.now) }
    requires this { body.now.this < length library.now.funs }
    requires ready { Ready (else_in library.now body.now other.now) state.old }
    ensures ok { OnOk result (state.new ≡ flat (else_in library.now body.now other.now) state.old) }
    ensures refused { IfErr result (λ f. Refused f (flat (else_in library.now body.now other.now) state.old).built) }
{
    match other {
        Else::Block(inner) => block(library, body, state, inner.items.as_slice()),
        Else::Choice(id) => {
            state.enter_block()?;
            statement(library, body, state, *id)?;
            state.leave_block();
            Ok(())
        }
    }
}

/// A choice: where its condition is static, the branch that is taken.
#[cycle(walk)]
pub(crate) fn choose(
    library: &Library,
    body: &Body,
    state: &mut Flattening,
    cond: ExprId,
    then: &[StmtId],
    other: &Else,
) -> Result<(), LimitFault>
    requires cond { cond.number < length library.now.nodes.exprs }
    requires then { AreStmtsBelow (length library.now.nodes.stmts) then.now }
    requires other { AreStmtsBelow (length library.now.nodes.stmts) (else_stmts other.now) }
    requires this { body.now.this < length library.now.funs }
    requires ready { Ready (choose_in library.now body.now cond then.now other.now) state.old }
    ensures ok { OnOk result (state.new ≡ flat (choose_in library.now body.now cond then.now other.now) state.old) }
    ensures refused { IfErr result (λ f. Refused f (flat (choose_in library.now body.now cond then.now other.now) state.old).built) }
{
    if is_static(library.tree(), &body.statics, cond) {
        let first = holds(library, body, cond);
        taken(library, body, state, first, then, other)
    } else {
        expr(library, body, state, cond, Need::Held)?;
        both(library, body, state, then, other)
    }
}

/// The branch that is taken.
#[cycle(walk)]
fn taken(
    library: &Library,
    body: &Body,
    state: &mut Flattening,
    first: bool,
    then: &[StmtId],
    other: &Else,
) -> Result<(), LimitFault>
    requires then { AreStmtsBelow (length library.now.nodes.stmts) then.now }
    requires other { AreStmtsBelow (length library.now.nodes.stmts) (else_stmts other.now) }
    requires this { body.now.this < length library.now.funs }
    requires ready { Ready (taken_in library.now body.now first then.now other.now) state.old }
    ensures ok { OnOk result (state.new ≡ flat (taken_in library.now body.now first then.now other.now) state.old) }
    ensures refused { IfErr result (λ f. Refused f (flat (taken_in library.now body.now first then.now other.now) state.old).built) }
{
    if first {
        block(library, body, state, then)
    } else {
        otherwise(library, body, state, other)
    }
}

/// Both branches of a choice by the last value.
#[cycle(walk)]
fn both(
    library: &Library,
    body: &Body,
    state: &mut Flattening,
    then: &[StmtId],
    other: &Else,
) -> Result<(), LimitFault>
    requires then { AreStmtsBelow (length library.now.nodes.stmts) then.now }
    requires other { AreStmtsBelow (length library.now.nodes.stmts) (else_stmts other.now) }
    requires this { body.now.this < length library.now.funs }
    requires ready { Ready (choice (block_in library.now body.now then.now) (else_in library.now body.now other.now)) state.old }
    ensures ok { OnOk result (state.new ≡ flat (choice (block_in library.now body.now then.now) (else_in library.now body.now other.now)) state.old) }
    ensures refused { IfErr result (λ f. Refused f (flat (choice (block_in library.now body.now then.now) (else_in library.now body.now other.now)) state.old).built) }
{
    let chosen = state.first_branch()?;
    block(library, body, state, then)?;
    state.second_branch(chosen)?;
    otherwise(library, body, state, other)?;
    state.end_choice(chosen);
    Ok(())
}

/// The rounds of a loop in turn. Rounds of an empty body do nothing, so that many of them end at once; each other round counts at least
/// one statement, so that the limit ends a long loop.
#[cycle(walk)]
pub(crate) fn unroll(
    library: &Library,
    body: &Body,
    state: &mut Flattening,
    name: NameId,
    low: ExprId,
    high: ExprId,
    ids: &[StmtId],
) -> Result<(), LimitFault>
    requires low { low.number < length library.now.nodes.exprs }
    requires high { high.number < length library.now.nodes.exprs }
    requires ids { AreStmtsBelow (length library.now.nodes.stmts) ids.now }
    requires this { body.now.this < length library.now.funs }
    requires ready { Ready (loop_in library.now body.now name low high ids.now) state.old }
    ensures ok { OnOk result (state.new ≡ flat (loop_in library.now body.now name low high ids.now) state.old) }
    ensures refused { IfErr result (λ f. Refused f (flat (loop_in library.now body.now name low high ids.now) state.old).built) }
{
    if ids.is_empty() {
        return Ok(());
    }
    let past = static_value(library.tree(), &body.statics, high);
    let mut value = static_value(library.tree(), &body.statics, low);
    while value < past {
        round(library, body, state, name, value, ids)?;
        value += 1;
    }
    Ok(())
}

/// One round of a loop.
#[cycle(walk)]
fn round(
    library: &Library,
    body: &Body,
    state: &mut Flattening,
    name: NameId,
    value: i64,
    ids: &[StmtId],
) -> Result<(), LimitFault>
    requires ids { AreStmtsBelow (length library.now.nodes.stmts) ids.now }
    requires this { body.now.this < length library.now.funs }
    requires ready { Ready (block_in library.now (with_value body.now name value) ids.now) state.old }
    ensures ok { OnOk result (state.new ≡ flat (block_in library.now (with_value body.now name value) ids.now) state.old) }
    ensures refused { IfErr result (λ f. Refused f (flat (block_in library.now (with_value body.now name value) ids.now) state.old).built) }
{
    let inner = body.with_value(library.alloc(), name, value)?;
    block(library, &inner, state, ids)
}
