//! What is kept of each wire and of each step.

ghost use Rattle.std.specs.Prelude.{◌≡◌, ◌+◌, ◌<◌, ◌^◌, length, IfSome};
ghost use Rattle.flat_core.specs.Label.{EachNamed};
ghost use Rattle.flat_core.specs.Rows.{kept_label, row_for, marked};

use crate::step::{End, Step, WireId};

/// What is kept of a wire: whether it is an input, its end, its label after all steps so far, and whether one of
/// them measures it.
#[derive(Clone, Copy, PartialEq, Eq)]
pub struct WireRow {
    pub input: bool,
    pub ending: End,
    pub label: u32,
    pub measured: bool,
}

/// What is kept of a step: beside its line, the labels before it of the wires that it names, 0 where there is none.
#[derive(Clone, Copy, PartialEq, Eq)]
pub struct StepRow {
    pub step: Step,
    pub line: u32,
    pub main: u32,
    pub first: u32,
    pub second: u32,
}

// The label that is kept of a wire, 0 for none.
fn label_of(rows: &[WireRow], w: Option<WireId>) -> u32
    requires { IfSome w (λ w. w.number < length rows.now) }
    ensures { result ≡ kept_label rows.now w }
{
    match w {
        Some(w) => rows[w.number as usize].label,
        None => 0,
    }
}

/// What is kept of a step that comes next.
pub fn row_of(rows: &[WireRow], step: Step, line: u32) -> StepRow
    requires { EachNamed (λ w. w.number < length rows.now) step }
    ensures { result ≡ row_for rows.now step line }
{
    StepRow {
        step,
        line,
        main: label_of(rows, step.main_wire()),
        first: label_of(rows, step.first_wire()),
        second: label_of(rows, step.second_wire()),
    }
}

/// Keeps for the main wire of a step what the step does: an M measures it, and an X or an H raises its label.
pub fn mark(rows: &mut Vec<WireRow>, main: Option<WireId>, measures: bool)
    requires there { IfSome main (λ w. w.number < length rows.old.items) }
    requires room { kept_label rows.old.items main + 1 < 2 ^ 32 }
    ensures { rows.new.items ≡ marked rows.old.items main measures }
{
    if let Some(w) = main {
        let row = &mut rows[w.number as usize];
        if measures {
            row.measured = true;
        } else {
            row.label += 1;
        }
    }
}
