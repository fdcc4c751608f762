//! Blocks, choices and loops.

ghost use Rattle.std.specs.Prelude.{◌≡◌, ◌<◌, length, IfErr, OnOk, Ok};
ghost use Rattle.silq_tree.specs.Children.{AreStmtsBelow, else_stmts};
ghost use Rattle.silq_mean.specs.Effect.{choice};
ghost use Rattle.run_stage.specs.Stages.{carried};
ghost use Rattle.run_stage.specs.Stops.{IsStop};
ghost use Rattle.tree_walk.specs.Seen.{stmts_in, block_in, else_in, taken_in, choose_in, loop_in, with_value};

use crate::expr::expr;
use crate::statement::statement;
use check_scope::Library;
use run_stage::{Choice, Stage, WalkStop};
use silq_run::Step;
use silq_tree::{Else, ExprId, NameId, StmtId};
use silq_types::Need;
use tree_walk::Body;
use tree_walk::block::holds;
use tree_walk::written::{is_static, static_value};

/// Carries out statements in turn.
#[cycle(walk)]
pub(crate) fn statements(
    library: &Library,
    body: &Body,
    stage: &mut Stage,
    ids: &[StmtId],
) -> Result<(), WalkStop>
    requires ids { AreStmtsBelow (length library.now.nodes.stmts) ids.now }
    requires this { body.now.this < length library.now.funs }
    ensures ok { OnOk result (carried (stmts_in library.now body.now ids.now) stage.old ≡ Ok stage.new) }
    ensures refused { IfErr result (λ f. IsStop f (carried (stmts_in library.now body.now ids.now) stage.old)) }
{
    for id in ids {
        statement(library, body, stage, *id)?;
    }
    Ok(())
}

/// A block, at whose end its variables are taken out.
#[cycle(walk)]
fn block(library: &Library, body: &Body, stage: &mut Stage, ids: &[StmtId]) -> Result<(), WalkStop>
    requires ids { AreStmtsBelow (length library.now.nodes.stmts) ids.now }
    requires this { body.now.this < length library.now.funs }
    ensures ok { OnOk result (carried (block_in library.now body.now ids.now) stage.old ≡ Ok stage.new) }
    ensures refused { IfErr result (λ f. IsStop f (carried (block_in library.now body.now ids.now) stage.old)) }
{
    stage.step(&Step::EnterBlock)?;
    statements(library, body, stage, ids)?;
    stage.step(&Step::LeaveBlock)
}

/// What stands behind `else`: a block, or a statement in one.
#[cycle(walk)]
fn otherwise(
    library: &Library,
    body: &Body,
    stage: &mut Stage,
    other: &Else,
) -> Result<(), WalkStop>
    requires ids { AreStmtsBelow (length library.now.nodes.stmts) (else_stmts other.now) }
    requires this { body.now.this < length library.now.funs }
    ensures ok { OnOk result (carried (else_in library.now body.now other.now) stage.old ≡ Ok stage.new) }
    ensures refused { IfErr result (λ f. IsStop f (carried (else_in library.now body.now other.now) stage.old)) }
{
    match other {
        Else::Block(inner) => block(library, body, stage, inner.items.as_slice()),
        Else::Choice(id) => {
            stage.step(&Step::EnterBlock)?;
            statement(library, body, stage, *id)?;
            stage.step(&Step::LeaveBlock)
        }
    }
}

/// A choice: where its condition is static, the branch that is taken.
#[cycle(walk)]
pub(crate) fn choose(
    library: &Library,
    body: &Body,
    stage: &mut Stage,
    cond: ExprId,
    then: &[StmtId],
    other: &Else,
) -> Result<(), WalkStop>
    requires cond { cond.number < length library.now.nodes.exprs }
    requires then { AreStmtsBelow (length library.now.nodes.stmts) then.now }
    requires other { AreStmtsBelow (length library.now.nodes.stmts) (else_stmts other.now) }
    requires this { body.now.this < length library.now.funs }
    ensures ok { OnOk result (carried (choose_in library.now body.now cond then.now other.now) stage.old ≡ Ok stage.new) }
    ensures refused { IfErr result (λ f. IsStop f (carried (choose_in library.now body.now cond then.now other.now) stage.old)) }
{
    if is_static(library.tree(), &body.statics, cond) {
        let first = holds(library, body, cond);
        taken(library, body, stage, first, then, other)
    } else {
        expr(library, body, stage, cond, Need::Held)?;
        both(library, body, stage, then, other)
    }
}

/// The branch that is taken.
#[cycle(walk)]
fn taken(
    library: &Library,
    body: &Body,
    stage: &mut Stage,
    first: bool,
    then: &[StmtId],
    other: &Else,
) -> Result<(), WalkStop>
    requires then { AreStmtsBelow (length library.now.nodes.stmts) then.now }
    requires other { AreStmtsBelow (length library.now.nodes.stmts) (else_stmts other.now) }
    requires this { body.now.this < length library.now.funs }
    ensures ok { OnOk result (carried (taken_in library.now body.now first then.now other.now) stage.old ≡ Ok stage.new) }
    ensures refused { IfErr result (λ f. IsStop f (carried (taken_in library.now body.now first then.now other.now) stage.old)) }
{
    if first {
        block(library, body, stage, then)
    } else {
        otherwise(library, body, stage, other)
    }
}

/// A choice by the last value: both branches in turn, or one of them where one term is carried.
#[cycle(walk)]
fn both(
    library: &Library,
    body: &Body,
    stage: &mut Stage,
    then: &[StmtId],
    other: &Else,
) -> Result<(), WalkStop>
    requires then { AreStmtsBelow (length library.now.nodes.stmts) then.now }
    requires other { AreStmtsBelow (length library.now.nodes.stmts) (else_stmts other.now) }
    requires this { body.now.this < length library.now.funs }
    ensures ok { OnOk result (carried (choice (block_in library.now body.now then.now) (else_in library.now body.now other.now)) stage.old ≡ Ok stage.new) }
    ensures refused { IfErr result (λ f. IsStop f
        (carried (choice (block_in library.now body.now then.now) (else_in library.now body.now other.now)) stage.old)) }
{
    match stage.begin_choice()? {
        Choice::One(first) => taken(library, body, stage, first, then, other),
        Choice::Both(way) => {
            block(library, body, stage, then)?;
            let firsts = stage.second_way(way)?;
            otherwise(library, body, stage, other)?;
            stage.end_choice(firsts)
        }
    }
}

/// The rounds of a loop in turn. Rounds of an empty body do nothing, so that many of them end at once; each other round counts at least
/// one statement, so that the limit ends a long loop.
#[cycle(walk)]
pub(crate) fn unroll(
    library: &Library,
    body: &Body,
    stage: &mut Stage,
    name: NameId,
    low: ExprId,
    high: ExprId,
    ids: &[StmtId],
) -> Result<(), WalkStop>
    requires low { low.number < length library.now.nodes.exprs }
    requires high { high.number < length library.now.nodes.exprs }
    requires ids { AreStmtsBelow (length library.now.nodes.stmts) ids.now }
    requires this { body.now.this < length library.now.funs }
    ensures ok { OnOk result (carried (loop_in library.now body.now name low high ids.now) stage.old ≡ Ok stage.new) }
    ensures refused { IfErr result (λ f. IsStop f (carried (loop_in library.now body.now name low high ids.now) stage.old)) }
{
    if ids.is_empty() {
        return Ok(());
    }
    let past = static_value(library.tree(), &body.statics, high);
    let mut value = static_value(library.tree(), &body.statics, low);
    while value < past {
        round(library, body, stage, name, value, ids)?;
        value += 1;
    }
    Ok(())
}

/// One round of a loop.
#[cycle(walk)]
fn round(
    library: &Library,
    body: &Body,
    stage: &mut Stage,
    name: NameId,
    value: i64,
    ids: &[StmtId],
) -> Result<(), WalkStop>
    requires ids { AreStmtsBelow (length library.now.nodes.stmts) ids.now }
    requires this { body.now.this < length library.now.funs }
    ensures ok { OnOk result (carried (block_in library.now (with_value body.now name value) ids.now) stage.old ≡ Ok stage.new) }
    ensures refused { IfErr result (λ f. IsStop f (carried (block_in library.now (with_value body.now name value) ids.now) stage.old)) }
{
    let inner = body.with_value(library.alloc(), name, value)?;
    block(library, &inner, stage, ids)
}
