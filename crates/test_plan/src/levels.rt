//! Plans within a budget: the first level that fits, or the least width.

use reqomp::{PlanFault, plan};
use silq_io::LimitFault;
use std::alloc::Global;
use test_forms::{TableFault, Worked, worked_form};

// What a budget of qubits gives.
#[derive(Clone, Copy, PartialEq, Eq)]
enum Wanted {
    // The level, its width, and how many moves it has.
    Plan(u8, usize, usize),
    // The least width.
    Over(usize),
    Cycle,
}

// Of two conjunctions either one is held while it is used again, in 7 qubits, or each is done again where it is used.
// Two conjunctions that rest on one another are both held at the use.
static ROWS: [(Worked, u32, Wanted); 7] = [
    (Worked::TwoAnds, 100000, Wanted::Plan(0, 7, 7)),
    (Worked::TwoAnds, 7, Wanted::Plan(0, 7, 7)),
    (Worked::TwoAnds, 6, Wanted::Plan(9, 6, 9)),
    (Worked::TwoAnds, 5, Wanted::Over(6)),
    (Worked::XorOfAnds, 6, Wanted::Plan(0, 6, 5)),
    (Worked::XorOfAnds, 5, Wanted::Over(6)),
    (Worked::Cycle, 100000, Wanted::Cycle),
];

fn answer(alloc: Global, worked: Worked, budget: u32) -> Result<Wanted, TableFault> {
    let flat = worked_form(alloc, worked)?;
    match plan(alloc, &flat, budget) {
        Ok(found) => Ok(Wanted::Plan(found.level, found.width, found.moves.len())),
        Err(PlanFault::OverBudget { least }) => Ok(Wanted::Over(least)),
        Err(PlanFault::Cycle(_)) => Ok(Wanted::Cycle),
        Err(PlanFault::Memory) => Err(TableFault::Draft(LimitFault::Memory)),
    }
}

#[test]
fn first_levels_that_fit(rt: HostRuntime) {
    for (worked, budget, wanted) in &ROWS {
        assert!(rt; matches!(answer(rt.alloc(), *worked, *budget), Ok(given) if given == *wanted));
    }
}
