//! From a table to its flat form.

ghost use Rattle.std.specs.Prelude.{◌≡◌, ◌<◌, ◌↔◌, length, IsTrue, IfOk, OnOk};
ghost use Rattle.flat_core.specs.declared.step.WireId.{WireId};
ghost use Rattle.flat_core.specs.declared.step.StepId.{StepId};
ghost use Rattle.flat_core.specs.Label.{wire_id, wire_in, step_in};
ghost use Rattle.flat_core.specs.Drafts.{empty_draft};
ghost use Rattle.test_forms.specs.Table.{wire_form_of, wire_forms_of, steps_of, form_of, with_entry, with_entries, with_steps, WireFits, StepFits};

use crate::checks::may_follow;
use crate::entries::{StepEntry, WireEntry};
use crate::lists::{Side, side_of};
use flat_core::{Draft, End, Flat, Step, WireId};
use silq_io::LimitFault;
use std::alloc::{AllocError, AllocFailed, Global};

/// Why a table has no flat form.
#[derive(Drop)]
pub enum TableFault {
    /// The draft refused a wire or a step.
    Draft(LimitFault),
    /// A rule of flat forms is broken.
    Broken,
}

impl From<LimitFault> for TableFault {
    fn from(fault: LimitFault) -> TableFault {
        TableFault::Draft(fault)
    }
}

impl From<AllocError> for TableFault {
    fn from(_error: AllocError) -> TableFault {
        TableFault::Draft(LimitFault::Memory)
    }
}

impl<T: Drop> From<AllocFailed<T>> for TableFault {
    fn from(_error: AllocFailed<T>) -> TableFault {
        TableFault::Draft(LimitFault::Memory)
    }
}

// Adds a wire with its end.
fn add_wire(draft: &mut Draft, entry: WireEntry) -> Result<(), TableFault>
    ensures { OnOk result (draft.new ≡ with_entry draft.old entry) }
{
    let w = draft.wire(entry.input)?;
    draft.end(w, entry.end);
    Ok(())
}

// Adds all wires.
fn add_wires(draft: &mut Draft, wires: &[WireEntry]) -> Result<(), TableFault>
    ensures { OnOk result (draft.new ≡ with_entries draft.old wires.now) }
{
    for entry in wires {
        add_wire(draft, *entry)?;
    }
    Ok(())
}

// Adds all steps, as far as each may come next.
fn add_steps(draft: &mut Draft, steps: &[StepEntry]) -> Result<(), TableFault>
    ensures { OnOk result (draft.new ≡ with_steps draft.old steps.now) }
{
    for entry in steps {
        if !may_follow(draft, entry.step) {
            return Err(TableFault::Broken);
        }
        draft.step(entry.step, entry.line)?;
    }
    Ok(())
}

// Whether a wire's end fits: a Dropped wire is new, and a Measured one has an M.
fn wire_fits(draft: &Draft, entry: WireEntry, w: WireId) -> bool
    requires { w.number < length draft.now.wires }
    ensures { IsTrue result ↔ WireFits draft.now.steps (wire_form_of entry) w }
{
    match entry.end {
        End::Dropped => !entry.input,
        End::Measured => draft.is_measured(w),
        End::Output | End::Zeroed => true,
    }
}

// Whether the ends of all wires fit.
fn wires_fit(draft: &Draft, wires: &[WireEntry]) -> bool
    requires { length wires.now ≡ length draft.now.wires }
    ensures { IsTrue result ↔ ((w : WireId) → w.number < length wires.now → WireFits draft.now.steps (wire_in (wire_forms_of wires.now) w) w) }
{
    let _count = draft.outcomes();
    for i in 0..wires.len() {
        if !wire_fits(draft, wires[i], WireId { number: i as u32 }) {
            return false;
        }
    }
    true
}

// Whether a step fits the end of its wire: a Dropped wire has no H, and only a Measured one an M.
fn step_fits(wires: &[WireEntry], step: Step) -> bool
    ensures { IsTrue result ↔ StepFits (wire_forms_of wires.now) step }
{
    match step {
        Step::X { .. } | Step::P { .. } => true,
        Step::H { target, .. } => {
            !matches!(wires.get(target.number as usize), Some(entry) if entry.end == End::Dropped)
        }
        Step::M { wire, .. } => {
            matches!(wires.get(wire.number as usize), Some(entry) if entry.end == End::Measured)
        }
    }
}

// Whether all steps fit the ends.
fn steps_fit(wires: &[WireEntry], steps: &[StepEntry]) -> bool
    ensures { IsTrue result ↔ ((s : StepId) → s.number < length steps.now → StepFits (wire_forms_of wires.now) (step_in (steps_of steps.now) s)) }
{
    for i in 0..steps.len() {
        if !step_fits(wires, steps[i].step) {
            return false;
        }
    }
    true
}

/// The flat form with these wires and steps. Its one list of ins names all input wires, and its one list of outs all
/// Output wires, in their order. A table that breaks a rule of flat forms is refused.
pub fn flat_of(alloc: Global, wires: &[WireEntry], steps: &[StepEntry]) -> Result<Flat, TableFault>
    ensures { IfOk result (λ flat. flat ≡ form_of wires.now steps.now) }
{
    let mut draft = Draft::new(alloc);
    add_wires(&mut draft, wires)?;
    add_steps(&mut draft, steps)?;
    let _count = draft.outcomes();
    if !wires_fit(&draft, wires) || !steps_fit(wires, steps) {
        return Err(TableFault::Broken);
    }
    let ins = side_of(alloc, wires, Side::Ins)?;
    let outs = side_of(alloc, wires, Side::Outs)?;
    Ok(draft.finish(ins, outs))
}
