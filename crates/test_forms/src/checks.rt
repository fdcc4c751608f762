//! What a step has to meet to be the next one of a draft.

ghost use Rattle.std.specs.Prelude.{◌≡◌, ◌<◌, ◌↔◌, ◌⊎◌, true, false, length, IsTrue, IfSome};
ghost use Rattle.flat_core.specs.Label.{wire_in, label_after, EachNamed, EachControl, Apart, WiresDiffer, main_wire};
ghost use Rattle.flat_core.specs.Sound.{count_measures, HasNumber, HasEighths};
ghost use Rattle.flat_core.specs.Drafts.{IsNextStep, is_measured};

use flat_core::{Draft, Step, WireId};

// Whether a wire is there, if one is named.
fn is_there(draft: &Draft, w: Option<WireId>) -> bool
    ensures { IsTrue result ↔ IfSome w (λ w. w.number < length draft.now.wires) }
{
    match w {
        Some(w) => (w.number as usize) < draft.wires(),
        None => true,
    }
}

// Whether all wires that a step names are there.
fn are_there(draft: &Draft, step: Step) -> bool
    ensures { IsTrue result ↔ EachNamed (λ w. w.number < length draft.now.wires) step }
{
    is_there(draft, step.main_wire())
        && is_there(draft, step.first_wire())
        && is_there(draft, step.second_wire())
}

// Whether two wires differ, if both are named.
fn differ(a: Option<WireId>, b: Option<WireId>) -> bool
    ensures { IsTrue result ↔ Apart a b }
{
    match (a, b) {
        (Some(a), Some(b)) => a.number != b.number,
        _ => true,
    }
}

// Whether all wires that a step names differ.
fn all_differ(step: Step) -> bool
    ensures { IsTrue result ↔ WiresDiffer step }
{
    let main = step.main_wire();
    let first = step.first_wire();
    let second = step.second_wire();
    differ(main, first) && differ(main, second) && differ(first, second)
}

// Whether a wire is an input or has a label above 0, if one is named.
fn is_known(draft: &Draft, w: Option<WireId>) -> bool
    requires { IfSome w (λ w. w.number < length draft.now.wires) }
    ensures { IsTrue result ↔ IfSome w (λ w. ((wire_in draft.now.wires w).input ≡ true) ⊎ (0 < label_after draft.now.steps w)) }
{
    match w {
        Some(w) => draft.is_input(w) || draft.label(w) > 0,
        None => true,
    }
}

// Whether each control of a step is an input or has a label above 0.
fn are_known(draft: &Draft, step: Step) -> bool
    requires { EachNamed (λ w. w.number < length draft.now.wires) step }
    ensures { IsTrue result ↔ EachControl (λ w. ((wire_in draft.now.wires w).input ≡ true) ⊎ (0 < label_after draft.now.steps w)) step }
{
    is_known(draft, step.first_wire()) && is_known(draft, step.second_wire())
}

// Whether a wire has no M, if one is named.
fn is_unmeasured(draft: &Draft, w: Option<WireId>) -> bool
    requires { IfSome w (λ w. w.number < length draft.now.wires) }
    ensures { IsTrue result ↔ IfSome w (λ w. is_measured draft.now.steps w ≡ false) }
{
    match w {
        Some(w) => !draft.is_measured(w),
        None => true,
    }
}

// Whether the eighths of a P are 1 to 7.
fn has_eighths(step: Step) -> bool
    ensures { IsTrue result ↔ HasEighths step }
{
    match step {
        Step::P { eighths, .. } => 0 < eighths && eighths < 8,
        _ => true,
    }
}

// Whether an M has the next number.
fn has_number(draft: &Draft, step: Step) -> bool
    ensures { IsTrue result ↔ HasNumber (count_measures draft.now.steps) step }
{
    match step {
        Step::M { number, .. } => number == draft.outcomes(),
        _ => true,
    }
}

/// Whether a step may be the next one of a draft.
pub fn may_follow(draft: &Draft, step: Step) -> bool
    ensures { IsTrue result ↔ IsNextStep draft.now step }
{
    are_there(draft, step)
        && all_differ(step)
        && are_known(draft, step)
        && is_unmeasured(draft, step.main_wire())
        && has_eighths(step)
        && has_number(draft, step)
}
