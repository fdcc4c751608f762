//! Entries.

ghost use Rattle.std.specs.Prelude.{◌≡◌, ◌<◌, length, IfOk, IfErr, OnOk, None};
ghost use Rattle.flat_core.specs.Drafts.{empty_draft, FitsEnds};
ghost use Rattle.bit_arith.specs.Calls.{Refused};
ghost use Rattle.flat_form.specs.Flat.{flat, flattened};
ghost use Rattle.flat_form.specs.Jobs.{FineJob};
ghost use Rattle.flat_steps.specs.Ready.{Ready};
ghost use Rattle.tree_walk.specs.Seen.{entry_in, job_at};
ghost use Rattle.tree_walk.specs.Written.{give_names};

use crate::call::run;
use check_scope::Library;
use flat_core::Flat;
use flat_steps::Flattening;
use silq_io::LimitFault;
use silq_tree::NameId;
use silq_types::Need;
use tree_walk::Body;
use tree_walk::call::instance;
use tree_walk::written::{held_names, shapes};

/// The flat form of a function with static values, as an entry.
pub fn flatten(library: &Library, fun: u32, statics: &[i64]) -> Result<Flat, LimitFault>
    requires fun { fun < length library.now.funs }
    requires fine { FineJob (job_at library.now fun statics.now) }
    requires ends { FitsEnds (flattened (job_at library.now fun statics.now)).form }
    ensures ok { IfOk result (λ f. f ≡ (flattened (job_at library.now fun statics.now)).form) }
    ensures within { IfOk result (λ _. (flattened (job_at library.now fun statics.now)).over ≡ None) }
    ensures refused { IfErr result (λ e. Refused e (record { draft = empty_draft; over = (flattened (job_at library.now fun statics.now)).over })) }
{
    let body = instance(library, fun, statics, true)?;
    let sizes = shapes(library, fun, &body.statics)?;
    let mut state = Flattening::begin(library.alloc(), sizes.as_slice())?;
    let ins = state.wire_lists()?;
    carry_out(library, &body, &mut state)?;
    let form = state.finish(ins)?;
    Ok(form)
}

/// The body of an entry, and then the values of its const parameters.
fn carry_out(library: &Library, body: &Body, state: &mut Flattening) -> Result<(), LimitFault>
    requires this { body.now.this < length library.now.funs }
    requires ready { Ready (entry_in library.now body.now) state.old }
    ensures ok { OnOk result (state.new ≡ flat (entry_in library.now body.now) state.old) }
    ensures refused { IfErr result (λ f. Refused f (flat (entry_in library.now body.now) state.old).built) }
{
    let held = held_names(library, body.this)?;
    run(library, body, state)?;
    give_held(state, held.as_slice())
}

/// The values of variables in turn, which stay.
fn give_held(state: &mut Flattening, names: &[NameId]) -> Result<(), LimitFault>
    requires { Ready (give_names names.now) state.old }
    ensures ok { OnOk result (state.new ≡ flat (give_names names.now) state.old) }
    ensures refused { IfErr result (λ f. Refused f (flat (give_names names.now) state.old).built) }
{
    for name in names {
        state.give_part(Need::Held, *name, &[])?;
    }
    Ok(())
}
