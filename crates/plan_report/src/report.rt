//! The report of a list of moves.

ghost use Rattle.std.specs.Prelude.{◌≡◌, ◌≤◌, IfOk};
ghost use Rattle.move_plan.specs.Progress.{IsPlan};
ghost use Rattle.move_plan.specs.Live.{width as spec_width};
ghost use Rattle.plan_report.specs.Told.{report_of_plan};

use crate::gates::count_gates;
use flat_core::Flat;
use move_plan::Move;
use qubit_alloc::Placer;
use std::alloc::{AllocError, Global};

/// What is told of a compiled program.
#[derive(Clone, Copy, PartialEq, Eq)]
pub struct Report {
    /// The wires of the flat form, at most 100,000.
    pub wires: usize,
    /// The steps of the flat form, at most 200,000.
    pub steps: usize,
    /// The outcome bits of the flat form, one for each measurement, at most 4,096.
    pub outcomes: u32,
    /// The level of recomputation: at 0 each temporary value is computed once, at 16 each that may be is computed anew for
    /// each use.
    pub level: u8,
    /// The moves: steps that are done or undone, and wires that are freed by an outcome.
    pub moves: usize,
    /// The qubits of the circuit.
    pub width: usize,
    /// The statements of the circuit's text that act on qubits: each gate, each `measure`, and each `if` with its gate as
    /// one. Declarations and notes are not counted.
    pub gates: usize,
}

/// The report of a valid list of moves of a flat form, on so many qubits, that was made at this level. It fails only where
/// memory runs out.
pub fn report_of(
    alloc: Global,
    flat: &Flat,
    moves: &[Move],
    width: usize,
    level: u8,
) -> Result<Report, AllocError>
    requires plan { IsPlan flat.now moves.now }
    requires fits { spec_width flat.now moves.now ≤ width }
    requires few { width ≤ 100000 }
    ensures report { IfOk result (λ report. report ≡ report_of_plan flat.now moves.now width level) }
{
    let mut placer = Placer::new(alloc, flat, width)?;
    let gates = count_gates(&mut placer, flat, moves);
    Ok(Report {
        wires: flat.wires(),
        steps: flat.steps(),
        outcomes: flat.outcomes(),
        level,
        moves: moves.len(),
        width,
        gates,
    })
}
