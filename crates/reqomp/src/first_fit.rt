//! The first level whose moves fit a budget of qubits.

ghost use Rattle.std.specs.Prelude.{◌≡◌, ℕ, suc, ◌≤◌, List, length, Some, IfOk, IsErrOf};
ghost use Rattle.graph_core.specs.declared.vertex.Vertex.{Vertex};
ghost use Rattle.graph_core.specs.Circuit.{circuit_graph};
ghost use Rattle.graph_core.specs.Digraph.{IsAcyclic, IsCycle};
ghost use Rattle.topo_order.specs.GivenCycle.{IsGivenCycle};
ghost use Rattle.topo_order.specs.OrderOf.{IsOrderOf};
ghost use Rattle.unqomp.specs.GraphOf.{IsGraphOf};
ghost use Rattle.move_plan.specs.declared.moves.Move.{Move};
ghost use Rattle.move_plan.specs.Live.{width};
ghost use Rattle.move_plan.specs.Track.{IsMadeFor};
ghost use Rattle.reqomp.specs.declared.first_fit.PlanFault.TheVariants as faults;
ghost use Rattle.reqomp.specs.Level.{IsLevel, last_level};
ghost use Rattle.reqomp.specs.Search.{Fits, IsFirstFit, IsLeastBelow};
ghost use Rattle.reqomp.specs.Trying.{IsOutcome, IsPlanOf};

use crate::circuit_moves::moves_in_order;
use crate::levels::{Outcome, Planner};
use flat_core::Flat;
use graph_core::Graph;
use move_plan::{Plan, Rows};
use std::alloc::{AllocError, Global};
use topo_order::{Cycle, OrderFault, VertexOrder, order};
use unqomp::graph_of;

/// Why there is no plan.
#[derive(Drop)]
pub enum PlanFault {
    /// No memory.
    Memory,
    /// The circuit graph has a cycle.
    Cycle(Cycle),
    /// No level fits the budget: the least width of the levels that are there and not too long, in qubits.
    OverBudget { least: usize },
}

impl From<AllocError> for PlanFault {
    ghost from_gives = { λ _ e. e ≡ faults.Memory };

    fn from(_error: AllocError) -> PlanFault {
        PlanFault::Memory
    }
}

// The plan of level 0, by the ready order of the circuit graph.
fn plan_level_zero(
    alloc: Global,
    flat: &Flat,
    circuit: &Graph,
    ids: &VertexOrder,
    rows: &mut Rows,
) -> Result<Plan, AllocError>
    requires circuit { IsGraphOf flat.now circuit.now }
    requires order { IsOrderOf circuit.now ids.now }
    requires made { IsMadeFor flat.now rows.old }
    ensures plan { IfOk result (IsPlanOf flat.now 0) }
    ensures rows { rows.new ≡ rows.old }
{
    let _steps = flat.steps();
    let moves = moves_in_order(alloc, flat, circuit, ids)?;
    let width = rows.width(flat, moves.as_slice());
    Ok(Plan {
        moves,
        width,
        level: 0,
    })
}

// Goes through the levels, where the circuit graph has this ready order.
fn first_fit(
    alloc: Global,
    flat: &Flat,
    circuit: Graph,
    ids: &VertexOrder,
    budget: u32,
) -> Result<Outcome, AllocError>
    requires circuit { IsGraphOf flat.now circuit }
    requires order { IsOrderOf circuit ids.now }
    ensures { IfOk result (IsOutcome flat.now budget (suc last_level)) }
{
    let mut rows = Rows::new(alloc, flat)?;
    let zero = plan_level_zero(alloc, flat, &circuit, ids, &mut rows)?;
    if zero.width <= budget as usize {
        return Ok(Outcome::Fitting(zero));
    }
    let mut planner = Planner::new(alloc, flat, circuit, rows)?;
    planner.try_levels(alloc, flat, budget, zero.width)
}

/// The plan of the first level, from 0 to 16, whose moves are at most 600,000 and need no more qubits than the budget.
/// Where the circuit graph has a cycle, the cycle is given that `order` gives. It fails else where no level fits, and
/// where memory runs out.
pub fn plan(alloc: Global, flat: &Flat, budget: u32) -> Result<Plan, PlanFault>
    ensures ok { IfOk result (λ p. IsFirstFit flat.now budget p.level p.moves) }
    ensures width { IfOk result (λ p. p.width ≡ width flat.now p.moves) }
    ensures acyclic { IfOk result (λ p. IsAcyclic (circuit_graph flat.now)) }
    ensures cycle { (cycle : List Vertex) → IsErrOf result (faults.Cycle cycle) → IsCycle (circuit_graph flat.now) cycle }
    ensures given { (cycle : List Vertex) → IsErrOf result (faults.Cycle cycle) → IsGivenCycle (circuit_graph flat.now) cycle }
    ensures over { (least : ℕ) → IsErrOf result (faults.OverBudget least) → (k : ℕ) (moves : List Move) → IsLevel flat.now k moves → ¬ Fits flat.now budget moves }
    ensures least { (least : ℕ) → IsErrOf result (faults.OverBudget least) → IsLeastBelow flat.now (suc last_level) (Some least) }
    ensures over_acyclic { (least : ℕ) → IsErrOf result (faults.OverBudget least) → IsAcyclic (circuit_graph flat.now) }
{
    let circuit = graph_of(alloc, flat)?;
    let ids = match order(alloc, &circuit) {
        Ok(ids) => ids,
        Err(OrderFault::Memory) => return Err(PlanFault::Memory),
        Err(OrderFault::Cycle(cycle)) => return Err(PlanFault::Cycle(cycle)),
    };
    match first_fit(alloc, flat, circuit, &ids, budget)? {
        Outcome::Fitting(plan) => Ok(plan),
        Outcome::Over { least } => Err(PlanFault::OverBudget { least }),
    }
}
