//! Statements.

ghost use Rattle.std.specs.Prelude.{◌≡◌, ◌<◌, length, IfErr, IfSome, OnOk};
ghost use Rattle.silq_tree.specs.Children.{place_exprs, AreExprsBelow, HasFirst};
ghost use Rattle.bit_arith.specs.Calls.{Refused};
ghost use Rattle.flat_form.specs.Flat.{flat};
ghost use Rattle.flat_steps.specs.Ready.{Ready};
ghost use Rattle.tree_walk.specs.Seen.{stmt_in, items_in, assign_in, spread_in, update_in, forget_in, return_in, acts};

use crate::block::{choose, unroll};
use crate::expr::{expr, receive, values};
use check_scope::Library;
use flat_steps::Flattening;
use silq_io::LimitFault;
use silq_mean::Receiver;
use silq_tree::{Expr, ExprId, NameId, PlaceNode, Stmt, StmtId, UpdateOp};
use silq_types::Need;
use tree_walk::Body;
use tree_walk::expr::index_values;
use tree_walk::statement::{line_of, variables};
use tree_walk::written::eighths;

/// Flattens a statement, on its line.
#[cycle(walk)]
pub(crate) fn statement(
    library: &Library,
    body: &Body,
    state: &mut Flattening,
    id: StmtId,
) -> Result<(), LimitFault>
    requires id { id.number < length library.now.nodes.stmts }
    requires this { body.now.this < length library.now.funs }
    requires ready { Ready (stmt_in library.now body.now id) state.old }
    ensures ok { OnOk result (state.new ≡ flat (stmt_in library.now body.now id) state.old) }
    ensures refused { IfErr result (λ f. Refused f (flat (stmt_in library.now body.now id) state.old).built) }
{
    let outer = state.begin_statement(line_of(library.tree().stmt(id)))?;
    act(library, body, state, id)?;
    state.end_statement(outer);
    Ok(())
}

/// What a statement does on its line.
#[cycle(walk)]
fn act(library: &Library, body: &Body, state: &mut Flattening, id: StmtId) -> Result<(), LimitFault>
    requires id { id.number < length library.now.nodes.stmts }
    requires this { body.now.this < length library.now.funs }
    requires ready { Ready (acts (stmt_in library.now body.now id)) state.old }
    ensures ok { OnOk result (state.new ≡ flat (acts (stmt_in library.now body.now id)) state.old) }
    ensures refused { IfErr result (λ f. Refused f (flat (acts (stmt_in library.now body.now id)) state.old).built) }
{
    match library.tree().stmt(id) {
        Stmt::Assign { target, value, .. } => assign(library, body, state, *target, *value),
        Stmt::Spread { names, value, .. } => {
            spread(library, body, state, names.as_slice(), *value)
        }
        Stmt::Update {
            target,
            op,
            value,
            ..
        } => update(library, body, state, *target, *op, *value),
        Stmt::Forget { name, value, .. } => forget(library, body, state, *name, *value),
        Stmt::Phase { angle, .. } => {
            state.turn_all(eighths(library.tree(), &body.statics, *angle))
        }
        Stmt::If {
            cond,
            then,
            other,
            ..
        } => choose(library, body, state, *cond, then.items.as_slice(), other),
        Stmt::For {
            name,
            low,
            high,
            body: inner,
            ..
        } => unroll(
            library,
            body,
            state,
            *name,
            *low,
            *high,
            inner.items.as_slice(),
        ),
        Stmt::Return { value, .. } => returned(library, body, state, *value),
        Stmt::Call { call, .. } => expr(library, body, state, *call, Need::Consumed),
    }
}

/// `:=` at a variable or a part.
#[cycle(walk)]
fn assign(
    library: &Library,
    body: &Body,
    state: &mut Flattening,
    target: PlaceNode,
    value: ExprId,
) -> Result<(), LimitFault>
    requires parts { AreExprsBelow (length library.now.nodes.exprs) (place_exprs target) }
    requires first { HasFirst target }
    requires id { value.number < length library.now.nodes.exprs }
    requires this { body.now.this < length library.now.funs }
    requires ready { Ready (assign_in library.now body.now target value) state.old }
    ensures ok { OnOk result (state.new ≡ flat (assign_in library.now body.now target value) state.old) }
    ensures refused { IfErr result (λ f. Refused f (flat (assign_in library.now body.now target value) state.old).built) }
{
    let indices = index_values(library, body, target)?;
    expr(library, body, state, value, Need::Consumed)?;
    state.receive(Receiver::Variable)?;
    state.assign_to(target.name, indices.as_slice())
}

/// `:=` at a tuple of names.
#[cycle(walk)]
fn spread(
    library: &Library,
    body: &Body,
    state: &mut Flattening,
    names: &[NameId],
    value: ExprId,
) -> Result<(), LimitFault>
    requires id { value.number < length library.now.nodes.exprs }
    requires this { body.now.this < length library.now.funs }
    requires ready { Ready (spread_in library.now body.now names.now value) state.old }
    ensures ok { OnOk result (state.new ≡ flat (spread_in library.now body.now names.now value) state.old) }
    ensures refused { IfErr result (λ f. Refused f (flat (spread_in library.now body.now names.now value) state.old).built) }
{
    let takers = variables(library.alloc(), names)?;
    items(library, body, state, value, takers.as_slice())?;
    state.assign_in_turn(names)
}

/// The values of a tuple, each of them taken over, or that of another expression.
#[cycle(walk)]
fn items(
    library: &Library,
    body: &Body,
    state: &mut Flattening,
    e: ExprId,
    takers: &[Receiver],
) -> Result<(), LimitFault>
    requires id { e.number < length library.now.nodes.exprs }
    requires this { body.now.this < length library.now.funs }
    requires ready { Ready (items_in library.now body.now e takers.now) state.old }
    ensures ok { OnOk result (state.new ≡ flat (items_in library.now body.now e takers.now) state.old) }
    ensures refused { IfErr result (λ f. Refused f (flat (items_in library.now body.now e takers.now) state.old).built) }
{
    if let Expr::Tuple { items, .. } = library.tree().expr(e) {
        return values(
            library,
            body,
            state,
            items.as_slice(),
            Need::Consumed,
            &[],
            takers,
        );
    }
    expr(library, body, state, e, Need::Consumed)?;
    receive(state, takers)
}

/// `+=`, `-=` or `^=`.
#[cycle(walk)]
fn update(
    library: &Library,
    body: &Body,
    state: &mut Flattening,
    target: PlaceNode,
    op: UpdateOp,
    value: ExprId,
) -> Result<(), LimitFault>
    requires parts { AreExprsBelow (length library.now.nodes.exprs) (place_exprs target) }
    requires first { HasFirst target }
    requires id { value.number < length library.now.nodes.exprs }
    requires this { body.now.this < length library.now.funs }
    requires ready { Ready (update_in library.now body.now target op value) state.old }
    ensures ok { OnOk result (state.new ≡ flat (update_in library.now body.now target op value) state.old) }
    ensures refused { IfErr result (λ f. Refused f (flat (update_in library.now body.now target op value) state.old).built) }
{
    let indices = index_values(library, body, target)?;
    expr(library, body, state, value, Need::Held)?;
    state.update_to(target.name, indices.as_slice(), op)
}

/// `forget`, without or with a value.
#[cycle(walk)]
fn forget(
    library: &Library,
    body: &Body,
    state: &mut Flattening,
    name: NameId,
    value: Option<ExprId>,
) -> Result<(), LimitFault>
    requires id { IfSome value (λ e. e.number < length library.now.nodes.exprs) }
    requires this { body.now.this < length library.now.funs }
    requires ready { Ready (forget_in library.now body.now 0 name value) state.old }
    ensures ok { OnOk result (state.new ≡ flat (forget_in library.now body.now 0 name value) state.old) }
    ensures refused { IfErr result (λ f. Refused f (flat (forget_in library.now body.now 0 name value) state.old).built) }
{
    match value {
        None => state.end_name(name),
        Some(e) => {
            expr(library, body, state, e, Need::Held)?;
            state.claim(name)?;
            state.end_compared(name)
        }
    }
}

/// `return`, without or with values.
#[cycle(walk)]
fn returned(
    library: &Library,
    body: &Body,
    state: &mut Flattening,
    value: Option<ExprId>,
) -> Result<(), LimitFault>
    requires id { IfSome value (λ e. e.number < length library.now.nodes.exprs) }
    requires this { body.now.this < length library.now.funs }
    requires ready { Ready (return_in library.now body.now value) state.old }
    ensures ok { OnOk result (state.new ≡ flat (return_in library.now body.now value) state.old) }
    ensures refused { IfErr result (λ f. Refused f (flat (return_in library.now body.now value) state.old).built) }
{
    match value {
        None => Ok(()),
        Some(e) => items(library, body, state, e, body.results.as_slice()),
    }
}
