//! The walks of a run: the counts, the number of outcomes, and all terms.

ghost use Rattle.std.specs.Prelude.{◌≡◌, ◌<◌, [], ◌∷◌, length, IfOk, IfErr, OnOk, IsOk};
ghost use Rattle.silq_mean.specs.Effect.{counts, outcomes as outcomes_in, run};
ghost use Rattle.silq_mean.specs.Table.{TooMany, Stopped, as_mean_fault, begins, inputs, outcome_of};
ghost use Rattle.tree_walk.specs.Seen.{entry_in};
ghost use Rattle.source_table.specs.declared.fault.RunFault.TheVariants.{Memory};
ghost use Rattle.source_table.specs.Faults.{Refuses};
ghost use Rattle.source_table.specs.Runs.{no_counts, Shows};

use crate::fault::RunFault;
use check_scope::Library;
use run_stage::Stage;
use run_walk::carry_out;
use silq_types::Shape;
use sum_laws::Terms;
use tree_walk::Body;

/// Counts the statements and the H of an entry.
pub(crate) fn count(library: &Library, body: &Body) -> Result<(), RunFault>
    requires this { body.now.this < length library.now.funs }
    ensures ok { OnOk result (IsOk (counts (entry_in library.now body.now) no_counts)) }
    ensures refused { IfErr result (λ f. Refuses f (as_mean_fault TooMany (counts (entry_in library.now body.now) no_counts))) }
{
    let mut stage = Stage::count();
    carry_out(library, body, &mut stage)?;
    Ok(())
}

/// How many outcomes an entry has, from these input bits on.
pub(crate) fn outcomes(
    library: &Library,
    body: &Body,
    shapes: &[Shape],
    input: &[bool],
) -> Result<u64, RunFault>
    requires this { body.now.this < length library.now.funs }
    ensures ok { IfOk result (λ n. n ≡ outcomes_in (entry_in library.now body.now) (begins (inputs shapes.now input.now))) }
    ensures refused { IfErr result (λ f. f ≡ Memory) }
{
    let mut stage = Stage::sample(library.alloc(), shapes, input)?;
    carry_out(library, body, &mut stage)?;
    Ok(stage.outcomes())
}

/// What the terms of an entry show at its end, from these input bits on and for these outcomes.
pub(crate) fn rows(
    library: &Library,
    body: &Body,
    shapes: &[Shape],
    input: &[bool],
    outcome: &[bool],
) -> Result<Terms, RunFault>
    requires this { body.now.this < length library.now.funs }
    ensures shown { IfOk result (λ rows. Shows rows (run (outcome_of outcome.now) 0 (entry_in library.now body.now)
        (begins (inputs shapes.now input.now) ∷ []))) }
    ensures refused { IfErr result (λ f. Refuses f (as_mean_fault Stopped (run (outcome_of outcome.now) 0 (entry_in library.now body.now)
        (begins (inputs shapes.now input.now) ∷ [])))) }
{
    let alloc = library.alloc();
    let mut stage = Stage::run(alloc, shapes, input, outcome)?;
    carry_out(library, body, &mut stage)?;
    Ok(stage.rows(alloc)?)
}
