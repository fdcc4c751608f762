//! Statements.

ghost use Rattle.std.specs.Prelude.{◌≡◌, ◌<◌, length, IfErr, IfSome, OnOk, Ok};
ghost use Rattle.silq_tree.specs.Children.{place_exprs, AreExprsBelow, HasFirst};
ghost use Rattle.run_stage.specs.Stages.{carried};
ghost use Rattle.run_stage.specs.Stops.{IsStop};
ghost use Rattle.tree_walk.specs.Seen.{stmt_in, items_in, assign_in, spread_in, update_in, forget_in, return_in, acts};

use crate::block::{choose, unroll};
use crate::expr::{expr, receive, values};
use check_scope::Library;
use run_stage::{Stage, WalkStop};
use silq_mean::Receiver;
use silq_run::Step;
use silq_tree::{Expr, ExprId, NameId, PlaceNode, Stmt, StmtId, UpdateOp};
use silq_types::Need;
use tree_walk::Body;
use tree_walk::expr::index_values;
use tree_walk::statement::variables;
use tree_walk::written::eighths;

/// Carries out a statement, on its line.
#[cycle(walk)]
pub(crate) fn statement(
    library: &Library,
    body: &Body,
    stage: &mut Stage,
    id: StmtId,
) -> Result<(), WalkStop>
    requires id { id.number < length library.now.nodes.stmts }
    requires this { body.now.this < length library.now.funs }
    ensures ok { OnOk result (carried (stmt_in library.now body.now id) stage.old ≡ Ok stage.new) }
    ensures refused { IfErr result (λ f. IsStop f (carried (stmt_in library.now body.now id) stage.old)) }
{
    stage.begin_statement()?;
    act(library, body, stage, id)
}

/// What a statement does on its line.
#[cycle(walk)]
fn act(library: &Library, body: &Body, stage: &mut Stage, id: StmtId) -> Result<(), WalkStop>
    requires id { id.number < length library.now.nodes.stmts }
    requires this { body.now.this < length library.now.funs }
    ensures ok { OnOk result (carried (acts (stmt_in library.now body.now id)) stage.old ≡ Ok stage.new) }
    ensures refused { IfErr result (λ f. IsStop f (carried (acts (stmt_in library.now body.now id)) stage.old)) }
{
    match library.tree().stmt(id) {
        Stmt::Assign { target, value, .. } => assign(library, body, stage, *target, *value),
        Stmt::Spread { names, value, .. } => {
            spread(library, body, stage, names.as_slice(), *value)
        }
        Stmt::Update {
            target,
            op,
            value,
            ..
        } => update(library, body, stage, *target, *op, *value),
        Stmt::Forget { name, value, at } => forget(library, body, stage, at.line, *name, *value),
        Stmt::Phase { angle, .. } => {
            stage.step(&Step::TurnAll(u64::from(eighths(library.tree(), &body.statics, *angle))))
        }
        Stmt::If {
            cond,
            then,
            other,
            ..
        } => choose(library, body, stage, *cond, then.items.as_slice(), other),
        Stmt::For {
            name,
            low,
            high,
            body: inner,
            ..
        } => unroll(
            library,
            body,
            stage,
            *name,
            *low,
            *high,
            inner.items.as_slice(),
        ),
        Stmt::Return { value, .. } => returned(library, body, stage, *value),
        Stmt::Call { call, .. } => expr(library, body, stage, *call, Need::Consumed),
    }
}

/// `:=` at a variable or a part.
#[cycle(walk)]
fn assign(
    library: &Library,
    body: &Body,
    stage: &mut Stage,
    target: PlaceNode,
    value: ExprId,
) -> Result<(), WalkStop>
    requires parts { AreExprsBelow (length library.now.nodes.exprs) (place_exprs target) }
    requires first { HasFirst target }
    requires id { value.number < length library.now.nodes.exprs }
    requires this { body.now.this < length library.now.funs }
    ensures ok { OnOk result (carried (assign_in library.now body.now target value) stage.old ≡ Ok stage.new) }
    ensures refused { IfErr result (λ f. IsStop f (carried (assign_in library.now body.now target value) stage.old)) }
{
    let indices = index_values(library, body, target)?;
    expr(library, body, stage, value, Need::Consumed)?;
    stage.step(&Step::Receive(Receiver::Variable))?;
    stage.step(&Step::AssignTo(target.name, indices.as_slice()))
}

/// `:=` at a tuple of names.
#[cycle(walk)]
fn spread(
    library: &Library,
    body: &Body,
    stage: &mut Stage,
    names: &[NameId],
    value: ExprId,
) -> Result<(), WalkStop>
    requires id { value.number < length library.now.nodes.exprs }
    requires this { body.now.this < length library.now.funs }
    ensures ok { OnOk result (carried (spread_in library.now body.now names.now value) stage.old ≡ Ok stage.new) }
    ensures refused { IfErr result (λ f. IsStop f (carried (spread_in library.now body.now names.now value) stage.old)) }
{
    let takers = variables(library.alloc(), names)?;
    items(library, body, stage, value, takers.as_slice())?;
    stage.step(&Step::AssignInTurn(names))
}

/// The values of a tuple, each of them taken over, or that of another expression.
#[cycle(walk)]
fn items(
    library: &Library,
    body: &Body,
    stage: &mut Stage,
    e: ExprId,
    takers: &[Receiver],
) -> Result<(), WalkStop>
    requires id { e.number < length library.now.nodes.exprs }
    requires this { body.now.this < length library.now.funs }
    ensures ok { OnOk result (carried (items_in library.now body.now e takers.now) stage.old ≡ Ok stage.new) }
    ensures refused { IfErr result (λ f. IsStop f (carried (items_in library.now body.now e takers.now) stage.old)) }
{
    if let Expr::Tuple { items, .. } = library.tree().expr(e) {
        return values(
            library,
            body,
            stage,
            items.as_slice(),
            Need::Consumed,
            &[],
            takers,
        );
    }
    expr(library, body, stage, e, Need::Consumed)?;
    receive(stage, takers)
}

/// `+=`, `-=` or `^=`.
#[cycle(walk)]
fn update(
    library: &Library,
    body: &Body,
    stage: &mut Stage,
    target: PlaceNode,
    op: UpdateOp,
    value: ExprId,
) -> Result<(), WalkStop>
    requires parts { AreExprsBelow (length library.now.nodes.exprs) (place_exprs target) }
    requires first { HasFirst target }
    requires id { value.number < length library.now.nodes.exprs }
    requires this { body.now.this < length library.now.funs }
    ensures ok { OnOk result (carried (update_in library.now body.now target op value) stage.old ≡ Ok stage.new) }
    ensures refused { IfErr result (λ f. IsStop f (carried (update_in library.now body.now target op value) stage.old)) }
{
    let indices = index_values(library, body, target)?;
    expr(library, body, stage, value, Need::Held)?;
    stage.step(&Step::UpdateTo(target.name, indices.as_slice(), op))
}

/// `forget`, without or with a value.
#[cycle(walk)]
fn forget(
    library: &Library,
    body: &Body,
    stage: &mut Stage,
    line: u32,
    name: NameId,
    value: Option<ExprId>,
) -> Result<(), WalkStop>
    requires id { IfSome value (λ e. e.number < length library.now.nodes.exprs) }
    requires this { body.now.this < length library.now.funs }
    ensures ok { OnOk result (carried (forget_in library.now body.now line name value) stage.old ≡ Ok stage.new) }
    ensures refused { IfErr result (λ f. IsStop f (carried (forget_in library.now body.now line name value) stage.old)) }
{
    match value {
        None => stage.step(&Step::EndName(name)),
        Some(e) => {
            expr(library, body, stage, e, Need::Held)?;
            stage.claim(line, name)?;
            stage.step(&Step::EndCompared(name))
        }
    }
}

/// `return`, without or with values.
#[cycle(walk)]
fn returned(
    library: &Library,
    body: &Body,
    stage: &mut Stage,
    value: Option<ExprId>,
) -> Result<(), WalkStop>
    requires id { IfSome value (λ e. e.number < length library.now.nodes.exprs) }
    requires this { body.now.this < length library.now.funs }
    ensures ok { OnOk result (carried (return_in library.now body.now value) stage.old ≡ Ok stage.new) }
    ensures refused { IfErr result (λ f. IsStop f (carried (return_in library.now body.now value) stage.old)) }
{
    match value {
        None => Ok(()),
        Some(e) => items(library, body, stage, e, body.results.as_slice()),
    }
}
