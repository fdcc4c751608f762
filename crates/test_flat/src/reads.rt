//! What a draft and a flat form tell of themselves.

use flat_core::{Draft, End, Flat, Step, StepId, WireId, WireLists};
use silq_io::LimitFault;
use std::alloc::Global;
use test_forms::{Worked, worked_form};

// Of a draft with one input wire that one step flips: the step's number, how many wires and outcomes there are, and of the wire its
// label, whether it is an input and whether it is measured.
fn first_wire(alloc: Global) -> Result<(u32, usize, u32, u32, bool, bool), LimitFault> {
    let mut draft = Draft::new(alloc);
    let w = draft.wire(true)?;
    let flip = Step::X {
        target: w,
        first: None,
        second: None,
    };
    let s = draft.step(flip, 7)?;
    draft.end(w, End::Output);
    Ok((
        s.number,
        draft.wires(),
        draft.outcomes(),
        draft.label(w),
        draft.is_input(w),
        draft.is_measured(w),
    ))
}

#[test]
fn a_draft_with_a_wire_and_a_step(rt: HostRuntime) {
    let told = first_wire(rt.alloc());
    assert!(rt; matches!(told, Ok((0, 1, 0, 1, true, false))));
}

// The label of a step's target before it.
fn target_label(flat: &Flat, s: StepId) -> Option<u32> {
    if s.number as usize >= flat.steps() {
        return None;
    }
    match flat.step(s) {
        Step::X { target, .. } | Step::H { target, .. } => Some(flat.label_before(s, target)),
        Step::P { .. } | Step::M { .. } => None,
    }
}

// The line of a step.
fn line_of(flat: &Flat, s: StepId) -> Option<u32> {
    if (s.number as usize) < flat.steps() {
        Some(flat.line(s))
    } else {
        None
    }
}

// Whether a wire is an input, whether it is measured at the end, and its last label.
fn told_of(flat: &Flat, w: WireId) -> Option<(bool, bool, u32)> {
    if (w.number as usize) < flat.wires() {
        let measured = flat.end(w) == End::Measured;
        Some((flat.is_input(w), measured, flat.top(w)))
    } else {
        None
    }
}

// The number of the first wire of the first list.
fn first_of(lists: &WireLists) -> Option<u32> {
    let list = lists.get(0)?;
    list.get(0).map(|w| w.number)
}

// Whether the form of a teleportation tells what its table says.
fn tells_its_table(flat: &Flat) -> bool {
    let sixth = StepId { number: 6 };
    (flat.steps(), flat.wires(), flat.outcomes()) == (9, 4, 2)
        && (line_of(flat, sixth), target_label(flat, sixth)) == (Some(7), Some(1))
        && told_of(flat, WireId { number: 0 }) == Some((true, true, 1))
        && told_of(flat, WireId { number: 1 }) == Some((false, true, 2))
        && (first_of(flat.ins()), first_of(flat.outs())) == (Some(0), Some(2))
}

#[test]
fn a_form_tells_its_table(rt: HostRuntime) {
    let flat = worked_form(rt.alloc(), Worked::Teleportation).ok();
    assert!(rt; flat.is_some_and(|flat| tells_its_table(&flat)));
}
