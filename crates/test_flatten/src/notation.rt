//! How a flat form is written in one line.
//!
//! `in A B out C; ends oodd; outcomes 0; 1: STEP STEP 2: STEP`. The lists of the inputs and of the outs are each the numbers of its wires,
//! joined by points, low bit first. A letter for each wire says what becomes of it: `o` output, `d` dropped, `m` measured, `z` zeroed. A
//! line number stands before the first step of that line, and before each step at which the line changes.
//!
//! A step is `X4` (wire 4 is flipped), `X4(0)`, `X4(0,!1)` (where wire 0 is 1 and wire 1 is 0), `H4`, `H4(0)`, `P3(0)` (three eighths of a
//! turn where wire 0 is 1) or `M4=2` (wire 4 is measured into outcome 2).

use flat_core::{End, Flat, Lit, Step, StepId, WireId, WireList, WireLists};
use std::alloc::{AllocError, Global};

// The letter of an end.
fn letter(end: End) -> char {
    match end {
        End::Output => 'o',
        End::Dropped => 'd',
        End::Measured => 'm',
        End::Zeroed => 'z',
    }
}

// The letters of all wires.
fn ends(alloc: Global, flat: &Flat) -> Result<String, AllocError> {
    let mut letters = String::new(alloc);
    let wires = u32::try_from(flat.wires()).unwrap_or(0);
    for number in 0..wires {
        letters.push(letter(flat.end(WireId { number })))?;
    }
    Ok(letters)
}

// The numbers of the wires of one list.
fn joined(alloc: Global, wires: &WireList) -> Result<String, AllocError> {
    let mut text = String::new(alloc);
    for i in 0..wires.len() {
        if let Some(wire) = wires.get(i) {
            let number = wire.number;
            let joint = if i == 0 { "" } else { "." };
            text.push_str(&format!(in alloc; "{joint}{number}")?)?;
        }
    }
    Ok(text)
}

// The lists, each behind a blank.
fn lists(alloc: Global, lists: &WireLists) -> Result<String, AllocError> {
    let mut text = String::new(alloc);
    for i in 0..lists.len() {
        if let Some(wires) = lists.get(i) {
            text.push(' ')?;
            text.push_str(&joined(alloc, wires)?)?;
        }
    }
    Ok(text)
}

// A control.
fn control(alloc: Global, lit: Lit) -> Result<String, AllocError> {
    let sign = if lit.positive { "" } else { "!" };
    let number = lit.wire.number;
    format!(in alloc; "{sign}{number}")
}

// No, one or two controls in parentheses.
fn controls(alloc: Global, first: Option<Lit>, second: Option<Lit>) -> Result<String, AllocError> {
    match (first, second) {
        (None, None) => Ok(String::new(alloc)),
        (Some(lit), None) | (None, Some(lit)) => {
            let one = control(alloc, lit)?;
            format!(in alloc; "({one})")
        }
        (Some(a), Some(b)) => {
            let one = control(alloc, a)?;
            let two = control(alloc, b)?;
            format!(in alloc; "({one},{two})")
        }
    }
}

// A step.
fn step(alloc: Global, step: Step) -> Result<String, AllocError> {
    match step {
        Step::X {
            target,
            first,
            second,
        } => {
            let under = controls(alloc, first, second)?;
            let number = target.number;
            format!(in alloc; "X{number}{under}")
        }
        Step::H { target, control } => {
            let under = controls(alloc, control, None)?;
            let number = target.number;
            format!(in alloc; "H{number}{under}")
        }
        Step::P { eighths, control } => {
            let under = controls(alloc, Some(control), None)?;
            format!(in alloc; "P{eighths}{under}")
        }
        Step::M { wire, number } => {
            let measured = wire.number;
            format!(in alloc; "M{measured}={number}")
        }
    }
}

// All steps, with their lines.
fn steps(alloc: Global, flat: &Flat) -> Result<String, AllocError> {
    let mut text = String::new(alloc);
    let mut line = 0;
    for number in 0..flat.steps() {
        let id = StepId {
            number: number as u32,
        };
        let now = flat.line(id);
        if now != line {
            text.push_str(&format!(in alloc; " {now}:")?)?;
            line = now;
        }
        let this = step(alloc, flat.step(id))?;
        text.push_str(&format!(in alloc; " {this}")?)?;
    }
    Ok(text)
}

/// A flat form in one line.
pub fn spell(alloc: Global, flat: &Flat) -> Result<String, AllocError> {
    let ins = lists(alloc, flat.ins())?;
    let outs = lists(alloc, flat.outs())?;
    let ends = ends(alloc, flat)?;
    let outcomes = flat.outcomes();
    let steps = steps(alloc, flat)?;
    format!(in alloc; "in{ins} out{outs}; ends {ends}; outcomes {outcomes};{steps}")
}
