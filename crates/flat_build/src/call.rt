//! Calls.

ghost use Rattle.std.specs.Prelude.{◌≡◌, ◌<◌, length, IfErr, OnOk};
ghost use Rattle.silq_tree.specs.Children.{AreExprsBelow};
ghost use Rattle.silq_mean.specs.Meaning.{gate};
ghost use Rattle.bit_arith.specs.Calls.{Refused};
ghost use Rattle.flat_form.specs.Flat.{flat};
ghost use Rattle.flat_steps.specs.Ready.{Ready};
ghost use Rattle.tree_walk.specs.Seen.{call_in, built_in_call_in, arguments_in, own_call_in, run_in};

use crate::block::statements;
use crate::expr::values;
use check_scope::Library;
use check_scope::uses::needs_of_own;
use flat_steps::Flattening;
use silq_io::LimitFault;
use silq_tree::{ExprId, NameId};
use silq_types::{BuiltIn, Need};
use tree_walk::Body;
use tree_walk::call::{callee, needs_of};
use tree_walk::written::{names, takers};

/// The arguments of a call, and the call.
#[cycle(walk)]
pub(crate) fn call(
    library: &Library,
    body: &Body,
    state: &mut Flattening,
    name: NameId,
    statics: &[ExprId],
    args: &[ExprId],
) -> Result<(), LimitFault>
    requires statics { AreExprsBelow (length library.now.nodes.exprs) statics.now }
    requires args { AreExprsBelow (length library.now.nodes.exprs) args.now }
    requires this { body.now.this < length library.now.funs }
    requires ready { Ready (call_in library.now body.now name statics.now args.now) state.old }
    ensures ok { OnOk result (state.new ≡ flat (call_in library.now body.now name statics.now args.now) state.old) }
    ensures refused { IfErr result (λ f. Refused f (flat (call_in library.now body.now name statics.now args.now) state.old).built) }
{
    match library.built_in(name) {
        Some(word) => built_in_call(library, body, state, word, args),
        None => match library.find(name, body.this) {
            Some(fun) => own_call(library, body, state, fun, statics, args),
            None => values(library, body, state, args, Need::Held, &[], &[]),
        },
    }
}

/// A call of a built-in function.
#[cycle(walk)]
fn built_in_call(
    library: &Library,
    body: &Body,
    state: &mut Flattening,
    word: BuiltIn,
    args: &[ExprId],
) -> Result<(), LimitFault>
    requires args { AreExprsBelow (length library.now.nodes.exprs) args.now }
    requires this { body.now.this < length library.now.funs }
    requires ready { Ready (built_in_call_in library.now body.now word args.now) state.old }
    ensures ok { OnOk result (state.new ≡ flat (built_in_call_in library.now body.now word args.now) state.old) }
    ensures refused { IfErr result (λ f. Refused f (flat (built_in_call_in library.now body.now word args.now) state.old).built) }
{
    values(library, body, state, args, Need::Held, needs_of(word), &[])?;
    apply(state, word)
}

/// A built-in function on its arguments, which are the last values.
fn apply(state: &mut Flattening, word: BuiltIn) -> Result<(), LimitFault>
    requires { Ready (gate word) state.old }
    ensures ok { OnOk result (state.new ≡ flat (gate word) state.old) }
    ensures refused { IfErr result (λ f. Refused f (flat (gate word) state.old).built) }
{
    match word {
        BuiltIn::Dup => state.copy_last(),
        BuiltIn::Vector => state.repeat_last(),
        BuiltIn::XGate => state.flip_last(),
        BuiltIn::ZGate => state.turn_by(4, 0),
        BuiltIn::YGate => {
            state.turn_by(6, 2)?;
            state.flip_last()
        }
        BuiltIn::HGate => state.mix(),
        BuiltIn::Measure => state.measure(),
        // no accepted program has these
        BuiltIn::RotateX => Ok(()),
        BuiltIn::RotateY => Ok(()),
        BuiltIn::RotateZ => Ok(()),
    }
}

/// The arguments of a call, each taken over by its parameter.
#[cycle(walk)]
fn arguments(
    library: &Library,
    body: &Body,
    state: &mut Flattening,
    inner: &Body,
    args: &[ExprId],
) -> Result<(), LimitFault>
    requires args { AreExprsBelow (length library.now.nodes.exprs) args.now }
    requires this { body.now.this < length library.now.funs }
    requires inner { inner.now.this < length library.now.funs }
    requires ready { Ready (arguments_in library.now body.now inner.now args.now) state.old }
    ensures ok { OnOk result (state.new ≡ flat (arguments_in library.now body.now inner.now args.now) state.old) }
    ensures refused { IfErr result (λ f. Refused f (flat (arguments_in library.now body.now inner.now args.now) state.old).built) }
{
    let needs = needs_of_own(library, Some(inner.this))?;
    let takers = takers(library, inner.this, &inner.statics)?;
    values(
        library,
        body,
        state,
        args,
        Need::Held,
        needs.as_slice(),
        takers.as_slice(),
    )
}

/// A call of an earlier function.
#[cycle(walk)]
fn own_call(
    library: &Library,
    body: &Body,
    state: &mut Flattening,
    fun: u32,
    statics: &[ExprId],
    args: &[ExprId],
) -> Result<(), LimitFault>
    requires statics { AreExprsBelow (length library.now.nodes.exprs) statics.now }
    requires args { AreExprsBelow (length library.now.nodes.exprs) args.now }
    requires this { body.now.this < length library.now.funs }
    requires earlier { fun < body.now.this }
    requires ready { Ready (own_call_in library.now body.now fun statics.now args.now) state.old }
    ensures ok { OnOk result (state.new ≡ flat (own_call_in library.now body.now fun statics.now args.now) state.old) }
    ensures refused { IfErr result (λ f. Refused f (flat (own_call_in library.now body.now fun statics.now args.now) state.old).built) }
{
    let inner = callee(library, body, fun, statics)?;
    arguments(library, body, state, &inner, args)?;
    run(library, &inner, state)?;
    state.leave_body()
}

/// The body of a function, with the last values as its environment.
#[cycle(walk)]
pub(crate) fn run(library: &Library, body: &Body, state: &mut Flattening) -> Result<(), LimitFault>
    requires this { body.now.this < length library.now.funs }
    requires ready { Ready (run_in library.now body.now) state.old }
    ensures ok { OnOk result (state.new ≡ flat (run_in library.now body.now) state.old) }
    ensures refused { IfErr result (λ f. Refused f (flat (run_in library.now body.now) state.old).built) }
{
    let fun = library.fun(body.this);
    let parameters = names(library, body.this)?;
    state.enter_body(parameters.as_slice())?;
    statements(library, body, state, fun.body.items.as_slice())
}
