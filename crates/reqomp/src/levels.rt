//! The levels above 0, tried in turn.

ghost use Rattle.std.specs.Prelude.{◌≡◌, ℕ, suc, ◌+◌, ◌<◌, ◌≤◌, ◌^◌, length, Some, None, IfOk, OnOk, MatchOption};
ghost use Rattle.flat_core.specs.Form.{FlatForm};
ghost use Rattle.unqomp.specs.GraphOf.{IsGraphOf};
ghost use Rattle.move_plan.specs.Track.{IsMadeFor};
ghost use Rattle.reqomp.specs.Level.{last_level};
ghost use Rattle.reqomp.specs.Search.{IsWidthOf, IsLeastBelow, NoneFitsBelow};
ghost use Rattle.reqomp.specs.Simple.{simple_wires, marked_at};
ghost use Rattle.reqomp.specs.Trying.{HasOrderMoves, IsOutcome, IsPlanOf, IsPlanner};

use crate::groups::groups_of;
use crate::marked::{marks_at, simple_wires};
use crate::near::{Near, near_vertices};
use crate::ordered::ordered_moves;
use crate::pass_back::Search;
use flat_core::{Flat, WireList};
use graph_core::Graph;
use move_plan::{MoveList, Plan, Rows};
use std::alloc::{AllocError, Global};

/// What the levels of a form are planned from.
#[derive(Drop)]
pub struct Planner {
    pub circuit: Graph,
    pub near: Vec<Near>,
    pub simple: WireList,
    pub search: Search,
    pub rows: Rows,
}

/// What some levels in turn give for a budget of qubits.
#[derive(Drop)]
pub enum Outcome {
    /// The plan of the first level that fits.
    Fitting(Plan),
    /// None of them fits: the least width of those that are there, in qubits.
    Over { least: usize },
}

// How many wires a level marks.
fn marked_count(flat: &Flat, simple: &WireList, level: u8) -> usize
    requires simple { simple.now ≡ simple_wires flat.now }
    requires within { level ≤ last_level }
    ensures { result ≡ length (marked_at flat.now level) }
{
    let _steps = flat.steps();
    (simple.len() * level as usize + 15) / 16
}

// The plan of a level's moves, where they are valid.
fn plan_if_valid(flat: &Flat, rows: &mut Rows, moves: MoveList, level: u8) -> Option<Plan>
    requires made { IsMadeFor flat.now rows.old }
    requires within { level ≤ last_level }
    requires moves { HasOrderMoves flat.now level moves }
    requires few { length moves ≤ 600000 }
    ensures plan { MatchOption result (IsWidthOf flat.now level None) (IsPlanOf flat.now level) }
    ensures rows { rows.new ≡ rows.old }
{
    if !rows.valid(flat, moves.as_slice()) {
        return None;
    }
    let width = rows.width(flat, moves.as_slice());
    Some(Plan {
        moves,
        width,
        level,
    })
}

// Whether a plan fits a budget, or else the least of its width and that of the levels before.
fn weigh(plan: Plan, budget: u32, least: usize) -> Outcome
    ensures { (f : FlatForm) (k : ℕ) → IsPlanOf f k plan → NoneFitsBelow f budget k → IsLeastBelow f k (Some least) → IsOutcome f budget (suc k) result }
{
    if plan.width <= budget as usize {
        Outcome::Fitting(plan)
    } else {
        Outcome::Over {
            least: least.min(plan.width),
        }
    }
}

impl Planner {
    /// For the levels of a form.
    pub fn new(
        alloc: Global,
        flat: &Flat,
        circuit: Graph,
        rows: Rows,
    ) -> Result<Planner, AllocError>
        requires circuit { IsGraphOf flat.now circuit }
        requires rows { IsMadeFor flat.now rows }
        ensures planner { IfOk result (IsPlanner flat.now) }
        ensures unused { IfOk result (λ planner. planner.search.newest ≡ 0) }
    {
        let near = near_vertices(alloc, &circuit)?;
        let simple = simple_wires(alloc, flat)?;
        let search = Search::new(alloc, flat)?;
        Ok(Planner {
            circuit,
            near,
            simple,
            search,
            rows,
        })
    }

    // The plan of a level, or none where it is missing or too long.
    fn plan_level(
        &mut self,
        alloc: Global,
        flat: &Flat,
        level: u8,
    ) -> Result<Option<Plan>, AllocError>
        requires planner { IsPlanner flat.now self.old }
        requires within { level ≤ last_level }
        requires room { self.old.search.newest + 2 ^ 32 < 2 ^ 64 }
        ensures planner { OnOk result (IsPlanner flat.now self.new) }
        ensures newest { OnOk result (self.new.search.newest ≤ self.old.search.newest + 2 ^ 32) }
        ensures plan { IfOk result (λ found. MatchOption found (IsWidthOf flat.now level None) (IsPlanOf flat.now level)) }
    {
        let marks = marks_at(alloc, flat, &self.simple, level)?;
        let Some(groups) = groups_of(alloc, flat, &self.circuit, &marks, &mut self.search)? else {
            return Ok(None);
        };
        match ordered_moves(alloc, flat, &self.circuit, &self.near, &marks, &groups)? {
            None => Ok(None),
            Some(moves) => Ok(plan_if_valid(flat, &mut self.rows, moves, level)),
        }
    }

    // Goes on by a level, after levels that do not fit and have this least width.
    fn try_level(
        &mut self,
        alloc: Global,
        flat: &Flat,
        budget: u32,
        level: u8,
        least: usize,
    ) -> Result<Outcome, AllocError>
        requires planner { IsPlanner flat.now self.old }
        requires first { 1 ≤ level }
        requires within { level ≤ last_level }
        requires room { self.old.search.newest + 2 ^ 32 < 2 ^ 64 }
        requires none { NoneFitsBelow flat.now budget level }
        requires least { IsLeastBelow flat.now level (Some least) }
        ensures planner { OnOk result (IsPlanner flat.now self.new) }
        ensures newest { OnOk result (self.new.search.newest ≤ self.old.search.newest + 2 ^ 32) }
        ensures outcome { IfOk result (IsOutcome flat.now budget (suc level)) }
    {
        let before = marked_count(flat, &self.simple, level - 1);
        if marked_count(flat, &self.simple, level) == before {
            return Ok(Outcome::Over { least });
        }
        match self.plan_level(alloc, flat, level)? {
            None => Ok(Outcome::Over { least }),
            Some(plan) => Ok(weigh(plan, budget, least)),
        }
    }

    /// Goes through the levels above 0, where level 0 has this width and does not fit.
    pub fn try_levels(
        &mut self,
        alloc: Global,
        flat: &Flat,
        budget: u32,
        zero: usize,
    ) -> Result<Outcome, AllocError>
        requires planner { IsPlanner flat.now self.old }
        requires unused { self.old.search.newest ≡ 0 }
        requires none { NoneFitsBelow flat.now budget 1 }
        requires least { IsLeastBelow flat.now 1 (Some zero) }
        ensures { IfOk result (IsOutcome flat.now budget (suc last_level)) }
    {
        let mut least = zero;
        for level in 1..17 {
            match self.try_level(alloc, flat, budget, level, least)? {
                Outcome::Fitting(plan) => return Ok(Outcome::Fitting(plan)),
                Outcome::Over { least: less } => least = less,
            }
        }
        Ok(Outcome::Over { least })
    }
}
