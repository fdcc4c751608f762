//! The uses of a flat form.

ghost use Rattle.std.specs.Prelude.{◌≡◌, ◌<◌, ◌++◌, length, true, false, OnOk, IfSome, MatchOption};
ghost use Rattle.flat_core.specs.Label.{Names, step_at, used};
ghost use Rattle.flat_core.specs.Ends.{undone};
ghost use Rattle.flat_core.specs.Sound.{IsFlat};
ghost use Rattle.unqomp.specs.Making.{target_of};
ghost use Rattle.unqomp.specs.UseList.{uses_if_any, uses_by, uses_at, wires_of_pair};

use flat_core::{End, Flat, Step, StepId, WireId};
use graph_core::Vertex;
use std::alloc::AllocError;

/// A user needs a wire at a label.
#[derive(Clone, Copy, PartialEq, Eq)]
pub struct Use {
    pub user: Vertex,
    pub wire: WireId,
    pub label: u32,
}

/// The target of a step, where it is an X on a Dropped wire, which is undone again.
pub fn undone_target(flat: &Flat, s: StepId) -> Option<WireId>
    requires sound { IsFlat flat.now }
    requires there { s.number < length flat.now.steps }
    ensures { MatchOption result (undone flat.now s ≡ false) (λ w. (undone flat.now s ≡ true) × (target_of (step_at flat.now s) ≡ Some w)) }
{
    match flat.step(s) {
        Step::X { target, .. } if flat.end(target) == End::Dropped => Some(target),
        _ => None,
    }
}

/// The wires that a step uses: those of its controls, or the one that it measures.
pub fn used_wires(step: Step) -> (Option<WireId>, Option<WireId>)
    ensures { wires_of_pair result.0 result.1 ≡ used step }
{
    match step {
        Step::M { wire, .. } => (Some(wire), None),
        _ => (step.first_wire(), step.second_wire()),
    }
}

// Adds a use of a wire, if there is one.
fn push_use(
    flat: &Flat,
    s: StepId,
    user: Vertex,
    wire: Option<WireId>,
    uses: &mut Vec<Use>,
) -> Result<(), AllocError>
    requires there { s.number < length flat.now.steps }
    requires named { IfSome wire (λ w. Names (step_at flat.now s) w) }
    ensures { OnOk result (uses.new.items ≡ uses.old.items ++ uses_if_any flat.now user s wire) }
{
    if let Some(wire) = wire {
        let label = flat.label_before(s, wire);
        uses.push(Use { user, wire, label })?;
    }
    Ok(())
}

// Adds the uses of a step for one user.
fn push_uses(flat: &Flat, s: StepId, user: Vertex, uses: &mut Vec<Use>) -> Result<(), AllocError>
    requires { s.number < length flat.now.steps }
    ensures { OnOk result (uses.new.items ≡ uses.old.items ++ uses_by flat.now user s) }
{
    let (first, second) = used_wires(flat.step(s));
    push_use(flat, s, user, first, uses)?;
    push_use(flat, s, user, second, uses)
}

/// The uses of a step, done and undone, in the place of those that the list had.
pub fn uses_of_step(flat: &Flat, s: StepId, uses: &mut Vec<Use>) -> Result<(), AllocError>
    requires sound { IsFlat flat.now }
    requires there { s.number < length flat.now.steps }
    ensures { OnOk result (uses.new.items ≡ uses_at flat.now s) }
{
    uses.clear();
    push_uses(flat, s, Vertex::Forward(s), uses)?;
    match undone_target(flat, s) {
        None => Ok(()),
        Some(_) => push_uses(flat, s, Vertex::Reverse(s), uses),
    }
}
