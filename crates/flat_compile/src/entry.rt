//! The compilation of an entry.

ghost use Rattle.std.specs.Prelude.{◌≡◌, ◌≢◌, ◌<◌, ◌≤◌, [], length, OnOk, IfErr, IsErrOf, IfOk, ℕ, List, Contains, Some};
ghost use Rattle.silq_io.specs.Counts.{Rose};
ghost use Rattle.silq_io.specs.Sinks.{Adds, Breaks};
ghost use Rattle.silq_io.specs.declared.limit.OverLimit.{OverLimit};
ghost use Rattle.flat_form.specs.Jobs.{EndsWell, FineJob};
ghost use Rattle.tree_walk.specs.Seen.{job_at};
ghost use Rattle.graph_core.specs.Circuit.{circuit_graph};
ghost use Rattle.graph_core.specs.Digraph.{IsAcyclic, IsCycle};
ghost use Rattle.topo_order.specs.GivenCycle.{IsGivenCycle};
ghost use Rattle.move_plan.specs.Live.{width};
ghost use Rattle.move_plan.specs.Progress.{IsPlan};
ghost use Rattle.reqomp.specs.Search.{IsFirstFit};
ghost use Rattle.flat_compile.specs.Ends.{BreaksPlan, HasGivenCycle, NeedsMore, OfFlat, PassesFirst, PutsPlan, text_for};
ghost use Rattle.flat_compile.specs.declared.cycle.CyclePlace.{CyclePlace};
ghost use Rattle.flat_compile.specs.declared.fault.CompileFault.TheVariants as faults;

use crate::cycle::places;
use crate::fault::CompileFault;
use crate::output::Output;
use check_scope::Library;
use flat_build::flatten;
use flat_core::Flat;
use graph_core::Vertex;
use move_plan::Plan;
use plan_report::{put_report, report_of};
use plan_write::{WriteFault, write_plan};
use reqomp::{PlanFault, plan};
use silq_io::{LimitFault, Sink};
use std::alloc::Global;

/// Compiles a function with static values as an entry, within a budget of qubits, and puts the text of its circuit, or its report: its flat
/// form, the moves of the first level of recomputation, from 0 to 16, that fits the budget, and their gates.
///
/// Nothing is put before all refusals but that of the sink are past; want of memory alone may come at any time before that.
pub fn compile<S: Sink>(
    alloc: Global,
    library: &Library,
    fun: u32,
    statics: &[i64],
    budget: u32,
    output: Output,
    out: &mut S,
) -> Result<(), CompileFault>
    requires fun { fun < length library.now.funs }
    requires fine { FineJob (job_at library.now fun statics.now) }
    requires ends { EndsWell (job_at library.now fun statics.now) }
    requires few { budget ≤ 100000 }
    ensures done { OnOk result (OfFlat (PutsPlan output budget (S.put_so_far out.old) (S.put_so_far out.new)) (job_at library.now fun statics.now)) }
    ensures limit { (over : OverLimit) → IsErrOf result (faults.Limit over) → PassesFirst over (job_at library.now fun statics.now) }
    ensures cycle { (places : List CyclePlace) → IsErrOf result (faults.Cycle places) → OfFlat (HasGivenCycle places) (job_at library.now fun statics.now) }
    ensures over_budget { (least : ℕ) → IsErrOf result (faults.OverBudget least) → OfFlat (NeedsMore budget least) (job_at library.now fun statics.now) }
    ensures failed { IsErrOf result faults.Failed → Rose (S.faults out.old) (S.faults out.new) }
    ensures broken { IsErrOf result faults.Failed → OfFlat (BreaksPlan output budget (S.put_so_far out.old) (S.put_so_far out.new)) (job_at library.now fun statics.now) }
    ensures refused { IfErr result (λ fault. fault ≢ faults.Failed → Adds (S.put_so_far out.old) (S.put_so_far out.new) []) }
    ensures count { S.faults out.old ≤ S.faults out.new }
{
    let flat = match flatten(library, fun, statics) {
        Ok(flat) => flat,
        Err(LimitFault::Memory) => return Err(CompileFault::Memory),
        Err(LimitFault::Limit(over)) => return Err(CompileFault::Limit(over)),
    };
    let plan = match plan_of(alloc, &flat, budget) {
        Ok(plan) => plan,
        Err(fault) => return Err(fault),
    };
    put_plan(alloc, &flat, &plan, budget, output, out)
}

// The plan of the first level that fits the budget, or why there is none.
fn plan_of(alloc: Global, flat: &Flat, budget: u32) -> Result<Plan, CompileFault>
    ensures acyclic { IfOk result (λ p. IsAcyclic (circuit_graph flat.now)) }
    ensures first { IfOk result (λ p. IsFirstFit flat.now budget p.level p.moves) }
    ensures width { IfOk result (λ p. p.width ≡ width flat.now p.moves) }
    ensures cycle { (places : List CyclePlace) → IsErrOf result (faults.Cycle places) → HasGivenCycle places flat.now }
    ensures over_budget { (least : ℕ) → IsErrOf result (faults.OverBudget least) → NeedsMore budget least flat.now }
    ensures others { IfErr result (λ fault. fault ≢ faults.Failed × ((over : OverLimit) → fault ≢ faults.Limit over)) }
{
    match plan(alloc, flat, budget) {
        Ok(plan) => Ok(plan),
        Err(PlanFault::Memory) => Err(CompileFault::Memory),
        Err(PlanFault::Cycle(cycle)) => Err(cycle_fault(alloc, flat, cycle.vertices())),
        Err(PlanFault::OverBudget { least }) => Err(CompileFault::OverBudget { least }),
    }
}

// The fault of a circuit graph with this cycle.
fn cycle_fault(alloc: Global, flat: &Flat, vertices: &[Vertex]) -> CompileFault
    requires given { IsGivenCycle (circuit_graph flat.now) vertices.now }
    requires cycle { IsCycle (circuit_graph flat.now) vertices.now }
    ensures cycle { (places : List CyclePlace) → result ≡ faults.Cycle places → HasGivenCycle places flat.now }
    ensures over_budget { (least : ℕ) → result ≢ faults.OverBudget least }
    ensures others { result ≢ faults.Failed × ((over : OverLimit) → result ≢ faults.Limit over) }
{
    match places(alloc, flat, vertices) {
        Ok(places) => CompileFault::Cycle(places),
        Err(_) => CompileFault::Memory,
    }
}

// Puts the text or the report of a plan.
fn put_plan<S: Sink>(
    alloc: Global,
    flat: &Flat,
    plan: &Plan,
    budget: u32,
    output: Output,
    out: &mut S,
) -> Result<(), CompileFault>
    requires few { budget ≤ 100000 }
    requires acyclic { IsAcyclic (circuit_graph flat.now) }
    requires first { IsFirstFit flat.now budget plan.now.level plan.now.moves }
    requires width { plan.now.width ≡ width flat.now plan.now.moves }
    ensures done { OnOk result (PutsPlan output budget (S.put_so_far out.old) (S.put_so_far out.new) flat.now) }
    ensures failed { IsErrOf result faults.Failed → Rose (S.faults out.old) (S.faults out.new) }
    ensures broken { IsErrOf result faults.Failed → BreaksPlan output budget (S.put_so_far out.old) (S.put_so_far out.new) flat.now }
    ensures refused { IfErr result (λ fault. fault ≢ faults.Failed → Adds (S.put_so_far out.old) (S.put_so_far out.new) []) }
    ensures others { IfErr result (λ fault. ((over : OverLimit) → fault ≢ faults.Limit over) × ((places : List CyclePlace) → fault ≢ faults.Cycle places) × ((least : ℕ) → fault ≢ faults.OverBudget least)) }
    ensures count { S.faults out.old ≤ S.faults out.new }
{
    match output {
        Output::Text => put_text(alloc, flat, plan, out),
        Output::Report => put_lines(alloc, flat, plan, out),
    }
}

// Puts the text of a plan.
fn put_text<S: Sink>(
    alloc: Global,
    flat: &Flat,
    plan: &Plan,
    out: &mut S,
) -> Result<(), CompileFault>
    requires valid { IsPlan flat.now plan.now.moves }
    requires width { plan.now.width ≡ width flat.now plan.now.moves }
    requires few { plan.now.width ≤ 100000 }
    ensures done { OnOk result (Adds (S.put_so_far out.old) (S.put_so_far out.new) (text_for Output.Text flat.now plan.now.moves plan.now.level)) }
    ensures failed { IsErrOf result faults.Failed → Rose (S.faults out.old) (S.faults out.new) }
    ensures broken { IsErrOf result faults.Failed → Breaks (S.put_so_far out.old) (S.put_so_far out.new) (text_for Output.Text flat.now plan.now.moves plan.now.level) }
    ensures refused { IfErr result (λ fault. fault ≢ faults.Failed → Adds (S.put_so_far out.old) (S.put_so_far out.new) []) }
    ensures others { IfErr result (λ fault. ((over : OverLimit) → fault ≢ faults.Limit over) × ((places : List CyclePlace) → fault ≢ faults.Cycle places) × ((least : ℕ) → fault ≢ faults.OverBudget least)) }
    ensures count { S.faults out.old ≤ S.faults out.new }
{
    match write_plan(alloc, flat, plan.moves.as_slice(), plan.width as u32, out) {
        Ok(()) => Ok(()),
        Err(WriteFault::Memory) => Err(CompileFault::Memory),
        Err(WriteFault::Failed) => Err(CompileFault::Failed),
    }
}

// Puts the report of a plan.
fn put_lines<S: Sink>(
    alloc: Global,
    flat: &Flat,
    plan: &Plan,
    out: &mut S,
) -> Result<(), CompileFault>
    requires valid { IsPlan flat.now plan.now.moves }
    requires width { plan.now.width ≡ width flat.now plan.now.moves }
    requires few { plan.now.width ≤ 100000 }
    ensures done { OnOk result (Adds (S.put_so_far out.old) (S.put_so_far out.new) (text_for Output.Report flat.now plan.now.moves plan.now.level)) }
    ensures failed { IsErrOf result faults.Failed → Rose (S.faults out.old) (S.faults out.new) }
    ensures broken { IsErrOf result faults.Failed → Breaks (S.put_so_far out.old) (S.put_so_far out.new) (text_for Output.Report flat.now plan.now.moves plan.now.level) }
    ensures refused { IfErr result (λ fault. fault ≢ faults.Failed → Adds (S.put_so_far out.old) (S.put_so_far out.new) []) }
    ensures others { IfErr result (λ fault. ((over : OverLimit) → fault ≢ faults.Limit over) × ((places : List CyclePlace) → fault ≢ faults.Cycle places) × ((least : ℕ) → fault ≢ faults.OverBudget least)) }
    ensures count { S.faults out.old ≤ S.faults out.new }
{
    let Ok(report) = report_of(alloc, flat, plan.moves.as_slice(), plan.width, plan.level) else {
        return Err(CompileFault::Memory);
    };
    match put_report(out, &report) {
        Ok(()) => Ok(()),
        Err(_) => Err(CompileFault::Failed),
    }
}
