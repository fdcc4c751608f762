//! The simple wires of a flat form, and which of them a level marks.

ghost use Rattle.std.specs.Prelude.{◌≡◌, ◌+◌, ◌<◌, ◌≤◌, List, length, IfOk, IfSome};
ghost use Rattle.std.specs.Option.{option_to_list};
ghost use Rattle.flat_core.specs.declared.step.WireId.{WireId};
ghost use Rattle.flat_core.specs.Label.{Names, step_at};
ghost use Rattle.flat_core.specs.Sound.{IsFlat};
ghost use Rattle.reqomp.specs.Level.{last_level};
ghost use Rattle.reqomp.specs.Marking.{AreFlagsOf, AreTopFlags, AreFirstSteps, AreJumps, AreMarks, low_noted};
ghost use Rattle.reqomp.specs.Redone.{changes_one};
ghost use Rattle.reqomp.specs.Simple.{simple_wires, simple_at};

use flat_core::{End, Flat, Step, StepId, WireId, WireList};
use std::alloc::{AllocError, Global};
use unqomp::used_wires;

/// The wires that a level marks.
#[derive(Drop)]
pub struct Marks {
    /// The level, from 0 to 16.
    pub level: u8,
    /// Whether each wire is marked.
    pub flags: Vec<bool>,
    /// For each step the last one before it that changes a marked wire, or step 0 where there is none.
    pub jumps: Vec<u32>,
}

// Takes the flag of a wire that a step uses, if any, where the wire is not at its top.
fn note_use(flat: &Flat, flags: &mut [bool], s: StepId, wire: Option<WireId>)
    requires sound { IsFlat flat.now }
    requires there { s.number < length flat.now.steps }
    requires named { IfSome wire (λ w. Names (step_at flat.now s) w) }
    requires as_many { length flags.old ≡ length flat.now.wires }
    ensures { flags.new ≡ low_noted flat.now s wire flags.old }
{
    if let Some(w) = wire {
        if flat.label_before(s, w) != flat.top(w) {
            flags[w.number as usize] = false;
        }
    }
}

// Takes the flags of the wires that a step uses before their tops.
fn note_step(flat: &Flat, flags: &mut [bool], s: StepId)
    requires sound { IsFlat flat.now }
    requires there { s.number < length flat.now.steps }
    requires flags { AreTopFlags flat.now s.number flags.old }
    ensures { AreTopFlags flat.now (s.number + 1) flags.new }
{
    let (first, second) = used_wires(flat.step(s));
    note_use(flat, flags, s, first);
    note_use(flat, flags, s, second);
}

// Of each wire, whether it is used at its top only.
fn used_at_tops(alloc: Global, flat: &Flat) -> Result<Vec<bool>, AllocError>
    ensures { IfOk result (λ flags. AreTopFlags flat.now (length flat.now.steps) flags.items) }
{
    let mut flags = vec![in alloc; true; flat.wires()]?;
    for i in 0..flat.steps() {
        note_step(flat, &mut flags, StepId { number: i as u32 });
    }
    Ok(flags)
}

// The wire that a step changes, where it is simple and the step is its first one.
fn simple_target(flat: &Flat, at_top: &[bool], s: StepId) -> Option<WireId>
    requires sound { IsFlat flat.now }
    requires there { s.number < length flat.now.steps }
    requires flags { AreTopFlags flat.now (length flat.now.steps) at_top.now }
    ensures { option_to_list result ≡ simple_at flat.now s.number (step_at flat.now s) }
{
    match flat.step(s) {
        Step::X { target, .. } => {
            let is_first = flat.label_before(s, target) == 0;
            let is_simple = flat.end(target) == End::Dropped && at_top[target.number as usize];
            if is_first && is_simple {
                Some(target)
            } else {
                None
            }
        }
        Step::H { .. } | Step::P { .. } | Step::M { .. } => None,
    }
}

/// The simple wires in the order of their first steps.
pub fn simple_wires(alloc: Global, flat: &Flat) -> Result<WireList, AllocError>
    ensures { IfOk result (λ wires. wires ≡ simple_wires flat.now) }
{
    let at_top = used_at_tops(alloc, flat)?;
    let mut wires = WireList::new(alloc);
    for i in 0..flat.steps() {
        if let Some(w) = simple_target(flat, &at_top, StepId { number: i as u32 }) {
            wires.push(w)?;
        }
    }
    Ok(wires)
}

/// Whether a step changes a wire that has a flag.
pub fn changes_flagged(flat: &Flat, flags: &[bool], s: StepId) -> bool
    requires sound { IsFlat flat.now }
    requires there { s.number < length flat.now.steps }
    requires as_many { length flags.now ≡ length flat.now.wires }
    ensures { (wires : List WireId) → AreFlagsOf flags.now wires → result ≡ changes_one wires (step_at flat.now s) }
{
    match flat.step(s) {
        Step::X { target, .. } | Step::H { target, .. } => flags[target.number as usize],
        Step::P { .. } | Step::M { .. } => false,
    }
}

// For each step the last one before it that changes a wire that has a flag, or step 0 where there is none.
fn jumps_of(alloc: Global, flat: &Flat, flags: &[bool]) -> Result<Vec<u32>, AllocError>
    requires as_many { length flags.now ≡ length flat.now.wires }
    ensures { IfOk result (λ jumps. (wires : List WireId) → AreFlagsOf flags.now wires → AreJumps flat.now wires jumps.items) }
{
    let mut jumps = vec![in alloc; 0; flat.steps()]?;
    let mut last = 0;
    for i in 0..flat.steps() {
        jumps[i] = last;
        if changes_flagged(flat, flags, StepId { number: i as u32 }) {
            last = i as u32;
        }
    }
    Ok(jumps)
}

/// The wires that a level marks: the first sixteenths of the simple wires, as many as the level says, rounded up.
pub fn marks_at(
    alloc: Global,
    flat: &Flat,
    simple: &WireList,
    level: u8,
) -> Result<Marks, AllocError>
    requires simple { simple.now ≡ simple_wires flat.now }
    requires within { level ≤ last_level }
    ensures level { IfOk result (λ marks. marks.level ≡ level) }
    ensures marked { IfOk result (λ marks. AreMarks flat.now marks) }
{
    let _steps = flat.steps();
    let mut flags = vec![in alloc; false; flat.wires()]?;
    let count = (simple.len() * level as usize + 15) / 16;
    for i in 0..count {
        let w = simple.get(i).unwrap();
        flags[w.number as usize] = true;
    }
    let jumps = jumps_of(alloc, flat, &flags)?;
    Ok(Marks {
        level,
        flags,
        jumps,
    })
}

// Notes a step as the first one of the wire that it changes, where it is.
fn note_first(flat: &Flat, first: &mut [u32], s: StepId)
    requires sound { IsFlat flat.now }
    requires there { s.number < length flat.now.steps }
    requires first { AreFirstSteps flat.now first.old }
    ensures { AreFirstSteps flat.now first.new }
{
    match flat.step(s) {
        Step::X { target, .. } | Step::H { target, .. } => {
            if flat.label_before(s, target) == 0 {
                first[target.number as usize] = s.number;
            }
        }
        Step::P { .. } | Step::M { .. } => {}
    }
}

/// For each wire the first step that changes it, and 0 for a wire that no step changes.
pub fn first_steps(alloc: Global, flat: &Flat) -> Result<Vec<u32>, AllocError>
    ensures { IfOk result (λ first. AreFirstSteps flat.now first.items) }
{
    let mut first = vec![in alloc; 0; flat.wires()]?;
    for i in 0..flat.steps() {
        note_first(flat, &mut first, StepId { number: i as u32 });
    }
    Ok(first)
}
