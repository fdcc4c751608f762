//! Entries.

ghost use Rattle.std.specs.Prelude.{◌≡◌, ◌<◌, length, IfErr, OnOk, Ok};
ghost use Rattle.run_stage.specs.Stages.{carried};
ghost use Rattle.run_stage.specs.Stops.{IsStop};
ghost use Rattle.tree_walk.specs.Seen.{entry_in};
ghost use Rattle.tree_walk.specs.Written.{give_names};

use crate::call::run_body;
use check_scope::Library;
use run_stage::{Stage, WalkStop};
use silq_run::Step;
use silq_tree::NameId;
use silq_types::Need;
use tree_walk::Body;
use tree_walk::written::held_names;

/// Carries the body of an entry, and then the values of its const parameters, out on a stage.
pub fn carry_out(library: &Library, body: &Body, stage: &mut Stage) -> Result<(), WalkStop>
    requires this { body.now.this < length library.now.funs }
    ensures ok { OnOk result (carried (entry_in library.now body.now) stage.old ≡ Ok stage.new) }
    ensures refused { IfErr result (λ f. IsStop f (carried (entry_in library.now body.now) stage.old)) }
{
    let held = held_names(library, body.this)?;
    run_body(library, body, stage)?;
    give_held(stage, held.as_slice())
}

/// The values of variables in turn, which stay.
fn give_held(stage: &mut Stage, names: &[NameId]) -> Result<(), WalkStop>
    ensures ok { OnOk result (carried (give_names names.now) stage.old ≡ Ok stage.new) }
    ensures refused { IfErr result (λ f. IsStop f (carried (give_names names.now) stage.old)) }
{
    for name in names {
        stage.step(&Step::GivePart(Need::Held, *name, &[]))?;
    }
    Ok(())
}
