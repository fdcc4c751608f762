//! The run of an accepted program.

ghost use Rattle.std.specs.Prelude.{◌≡◌, ◌<◌, length, IfOk, IfErr, List, Ok};
ghost use Rattle.silq_mean.specs.Table.{IsMeanTable, run_job};
ghost use Rattle.silq_mean.specs.Term.{Term};
ghost use Rattle.tree_walk.specs.Seen.{job_at};
ghost use Rattle.source_table.specs.Faults.{Refuses};
ghost use Rattle.source_table.specs.Runs.{job_in, Shows};

use crate::bits::{expect, total_bits};
use crate::fault::RunFault;
use crate::walks;
use check_scope::Library;
use silq_types::Shape;
use sum_laws::{Table, Terms};
use tree_walk::Body;
use tree_walk::call::instance;
use tree_walk::written::shapes;

/// The exact table of what a function with static values means on these input bits and for these outcomes.
pub(crate) fn run(
    library: &Library,
    fun: u32,
    statics: &[i64],
    input: &[bool],
    outcome: &[bool],
) -> Result<Table, RunFault>
    requires fun { fun < length library.now.funs }
    ensures table { IfOk result (λ t. IsMeanTable (job_at library.now fun statics.now) input.now outcome.now t) }
    ensures ran { IfOk result (λ _. (ts : List Term) × (run_job (job_at library.now fun statics.now) input.now outcome.now ≡ Ok ts)) }
    ensures refused { IfErr result (λ f. Refuses f (run_job (job_at library.now fun statics.now) input.now outcome.now)) }
{
    let body = instance(library, fun, statics, true)?;
    let sizes = shapes(library, fun, &body.statics)?;
    let rows = terms(library, &body, sizes.as_slice(), input, outcome)?;
    let table = rows.merged()?;
    Ok(table)
}

/// What the terms at the end show, unmerged: the counts come first, then the lengths, and then all terms at once.
fn terms(
    library: &Library,
    body: &Body,
    shapes: &[Shape],
    input: &[bool],
    outcome: &[bool],
) -> Result<Terms, RunFault>
    requires this { body.now.this < length library.now.funs }
    ensures shown { IfOk result (λ rows. Shows rows (run_job (job_in library.now body.now shapes.now) input.now outcome.now)) }
    ensures refused { IfErr result (λ f. Refuses f (run_job (job_in library.now body.now shapes.now) input.now outcome.now)) }
{
    walks::count(library, body)?;
    let size = total_bits(shapes)?;
    expect(input, size)?;
    let told = walks::outcomes(library, body, shapes, input)?;
    expect(outcome, told)?;
    walks::rows(library, body, shapes, input, outcome)
}
