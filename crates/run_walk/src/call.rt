//! Calls.

ghost use Rattle.std.specs.Prelude.{◌≡◌, ◌<◌, length, IfErr, OnOk, Ok};
ghost use Rattle.silq_tree.specs.Children.{AreExprsBelow};
ghost use Rattle.silq_mean.specs.Meaning.{gate};
ghost use Rattle.run_stage.specs.Stages.{carried};
ghost use Rattle.run_stage.specs.Stops.{IsStop};
ghost use Rattle.tree_walk.specs.Seen.{call_in, built_in_call_in, arguments_in, own_call_in, run_in};

use crate::block::statements;
use crate::expr::values;
use check_scope::Library;
use check_scope::uses::needs_of_own;
use run_stage::{Stage, WalkStop};
use silq_run::Step;
use silq_tree::{ExprId, NameId};
use silq_types::{BuiltIn, Need};
use tree_walk::Body;
use tree_walk::call::{callee, needs_of};
use tree_walk::written::{names, takers};

/// The arguments of a call, and the call.
#[cycle(walk)]
pub(crate) fn call(
    library: &Library,
    body: &Body,
    stage: &mut Stage,
    name: NameId,
    statics: &[ExprId],
    args: &[ExprId],
) -> Result<(), WalkStop>
    requires statics { AreExprsBelow (length library.now.nodes.exprs) statics.now }
    requires args { AreExprsBelow (length library.now.nodes.exprs) args.now }
    requires this { body.now.this < length library.now.funs }
    ensures ok { OnOk result (carried (call_in library.now body.now name statics.now args.now) stage.old ≡ Ok stage.new) }
    ensures refused { IfErr result (λ f. IsStop f (carried (call_in library.now body.now name statics.now args.now) stage.old)) }
{
    match library.built_in(name) {
        Some(word) => built_in_call(library, body, stage, word, args),
        None => match library.find(name, body.this) {
            Some(fun) => own_call(library, body, stage, fun, statics, args),
            None => values(library, body, stage, args, Need::Held, &[], &[]),
        },
    }
}

/// A call of a built-in function.
#[cycle(walk)]
fn built_in_call(
    library: &Library,
    body: &Body,
    stage: &mut Stage,
    word: BuiltIn,
    args: &[ExprId],
) -> Result<(), WalkStop>
    requires args { AreExprsBelow (length library.now.nodes.exprs) args.now }
    requires this { body.now.this < length library.now.funs }
    ensures ok { OnOk result (carried (built_in_call_in library.now body.now word args.now) stage.old ≡ Ok stage.new) }
    ensures refused { IfErr result (λ f. IsStop f (carried (built_in_call_in library.now body.now word args.now) stage.old)) }
{
    values(library, body, stage, args, Need::Held, needs_of(word), &[])?;
    apply(stage, word)
}

/// A built-in function on its arguments, which are the last values.
fn apply(stage: &mut Stage, word: BuiltIn) -> Result<(), WalkStop>
    ensures ok { OnOk result (carried (gate word) stage.old ≡ Ok stage.new) }
    ensures refused { IfErr result (λ f. IsStop f (carried (gate word) stage.old)) }
{
    match word {
        BuiltIn::Dup => stage.step(&Step::CopyLast),
        BuiltIn::Vector => stage.step(&Step::RepeatLast),
        BuiltIn::XGate => stage.step(&Step::FlipLast),
        BuiltIn::ZGate => stage.step(&Step::TurnBy(4, 0)),
        BuiltIn::YGate => {
            stage.step(&Step::TurnBy(6, 2))?;
            stage.step(&Step::FlipLast)
        }
        BuiltIn::HGate => stage.mix(),
        BuiltIn::Measure => stage.measure(),
        // no accepted program has these
        BuiltIn::RotateX => Ok(()),
        BuiltIn::RotateY => Ok(()),
        BuiltIn::RotateZ => Ok(()),
    }
}

/// The arguments of a call, each taken over by its parameter.
#[cycle(walk)]
fn arguments(
    library: &Library,
    body: &Body,
    stage: &mut Stage,
    inner: &Body,
    args: &[ExprId],
) -> Result<(), WalkStop>
    requires args { AreExprsBelow (length library.now.nodes.exprs) args.now }
    requires this { body.now.this < length library.now.funs }
    requires inner { inner.now.this < length library.now.funs }
    ensures ok { OnOk result (carried (arguments_in library.now body.now inner.now args.now) stage.old ≡ Ok stage.new) }
    ensures refused { IfErr result (λ f. IsStop f (carried (arguments_in library.now body.now inner.now args.now) stage.old)) }
{
    let needs = needs_of_own(library, Some(inner.this))?;
    let takers = takers(library, inner.this, &inner.statics)?;
    values(
        library,
        body,
        stage,
        args,
        Need::Held,
        needs.as_slice(),
        takers.as_slice(),
    )
}

/// A call of an earlier function.
#[cycle(walk)]
fn own_call(
    library: &Library,
    body: &Body,
    stage: &mut Stage,
    fun: u32,
    statics: &[ExprId],
    args: &[ExprId],
) -> Result<(), WalkStop>
    requires statics { AreExprsBelow (length library.now.nodes.exprs) statics.now }
    requires args { AreExprsBelow (length library.now.nodes.exprs) args.now }
    requires this { body.now.this < length library.now.funs }
    requires earlier { fun < body.now.this }
    ensures ok { OnOk result (carried (own_call_in library.now body.now fun statics.now args.now) stage.old ≡ Ok stage.new) }
    ensures refused { IfErr result (λ f. IsStop f (carried (own_call_in library.now body.now fun statics.now args.now) stage.old)) }
{
    let inner = callee(library, body, fun, statics)?;
    arguments(library, body, stage, &inner, args)?;
    run_body(library, &inner, stage)?;
    stage.step(&Step::LeaveBody)
}

/// The body of a function, with the last values as its environment.
#[cycle(walk)]
pub(crate) fn run_body(library: &Library, body: &Body, stage: &mut Stage) -> Result<(), WalkStop>
    requires this { body.now.this < length library.now.funs }
    ensures ok { OnOk result (carried (run_in library.now body.now) stage.old ≡ Ok stage.new) }
    ensures refused { IfErr result (λ f. IsStop f (carried (run_in library.now body.now) stage.old)) }
{
    let fun = library.fun(body.this);
    let parameters = names(library, body.this)?;
    stage.step(&Step::EnterBody(parameters.as_slice()))?;
    statements(library, body, stage, fun.body.items.as_slice())
}
