//! Worked forms, of which tests show values, graphs, moves and texts.

use crate::entries::{at, flip, hadamard, input, measure, new, off, on, phase};
use crate::table::{TableFault, flat_of};
use flat_core::End::{Dropped, Measured, Output, Zeroed};
use flat_core::Flat;
use std::alloc::Global;

/// The worked forms by name.
#[derive(Clone, Copy)]
pub enum Worked {
    /// A flip of what was copied before: its circuit graph has a cycle.
    Cycle,
    /// A flip under the conjunction of three inputs.
    XorOfAnds,
    /// A copy is undone before its source is changed.
    HadamardAfterUncopy,
    /// Two conjunctions, of which the first is used twice.
    TwoAnds,
    /// The sum of two numbers of three bits.
    Adder,
    /// Two measured wires, and a phase under a conjunction.
    Teleportation,
    /// Each kind of step, of control and of end.
    EveryKind,
    /// Two Hadamard gates under a control.
    ControlledHadamards,
    /// A Hadamard gate and a flip under controls with both signs.
    BothSigns,
    /// A wire that is 0 in the end, and outputs that nothing touches.
    Untouched,
}

/// The form of a name.
pub fn worked_form(alloc: Global, worked: Worked) -> Result<Flat, TableFault> {
    match worked {
        Worked::Cycle => cycle(alloc),
        Worked::XorOfAnds => xor_of_ands(alloc),
        Worked::HadamardAfterUncopy => hadamard_after_uncopy(alloc),
        Worked::TwoAnds => two_ands(alloc),
        Worked::Adder => adder(alloc),
        Worked::Teleportation => teleportation(alloc),
        Worked::EveryKind => every_kind(alloc),
        Worked::ControlledHadamards => controlled_hadamards(alloc),
        Worked::BothSigns => both_signs(alloc),
        Worked::Untouched => untouched(alloc),
    }
}

// `y := dup(x); x := H(x); if y { x := X(x); }`, each statement on its line.
fn cycle(alloc: Global) -> Result<Flat, TableFault> {
    flat_of(
        alloc,
        &[input(Output), new(Dropped)],
        &[
            at(3, flip(1, on(0), None)),
            at(4, hadamard(0, None)),
            at(5, flip(0, on(1), None)),
        ],
    )
}

// `z := a && b && c; if z { x := X(x); }`.
fn xor_of_ands(alloc: Global) -> Result<Flat, TableFault> {
    flat_of(
        alloc,
        &[
            input(Output),
            input(Output),
            input(Output),
            input(Output),
            new(Dropped),
            new(Dropped),
        ],
        &[
            at(1, flip(4, on(0), on(1))),
            at(1, flip(5, on(4), on(2))),
            at(2, flip(3, on(5), None)),
        ],
    )
}

// `y := dup(x); x := H(x); if y { z := X(z); }`.
fn hadamard_after_uncopy(alloc: Global) -> Result<Flat, TableFault> {
    flat_of(
        alloc,
        &[input(Output), input(Output), new(Dropped)],
        &[
            at(1, flip(2, on(0), None)),
            at(2, hadamard(0, None)),
            at(3, flip(1, on(2), None)),
        ],
    )
}

// `t1 := a && b; t2 := c && d;` and then x is flipped under t1, under t2 and under t1.
fn two_ands(alloc: Global) -> Result<Flat, TableFault> {
    flat_of(
        alloc,
        &[
            input(Output),
            input(Output),
            input(Output),
            input(Output),
            input(Output),
            new(Dropped),
            new(Dropped),
        ],
        &[
            at(1, flip(5, on(0), on(1))),
            at(1, flip(6, on(2), on(3))),
            at(2, flip(4, on(5), None)),
            at(3, flip(4, on(6), None)),
            at(4, flip(4, on(5), None)),
        ],
    )
}

// `x += y` on three bits: x is wires 0 to 2, y is wires 3 to 5, and the carries are wires 6 and 7.
fn adder(alloc: Global) -> Result<Flat, TableFault> {
    flat_of(
        alloc,
        &[
            input(Output),
            input(Output),
            input(Output),
            input(Output),
            input(Output),
            input(Output),
            new(Dropped),
            new(Dropped),
        ],
        &[
            at(1, flip(6, on(0), on(3))),
            at(1, flip(7, on(1), on(4))),
            at(1, flip(7, on(1), on(6))),
            at(1, flip(7, on(4), on(6))),
            at(1, flip(2, on(5), None)),
            at(1, flip(2, on(7), None)),
            at(1, flip(1, on(4), None)),
            at(1, flip(1, on(6), None)),
            at(1, flip(0, on(3), None)),
        ],
    )
}

// Teleportation of wire 0 to wire 2. Wire 3 is the conjunction under which the sign is turned.
fn teleportation(alloc: Global) -> Result<Flat, TableFault> {
    flat_of(
        alloc,
        &[input(Measured), new(Measured), new(Output), new(Dropped)],
        &[
            at(1, hadamard(1, None)),
            at(2, flip(2, on(1), None)),
            at(3, flip(1, on(0), None)),
            at(4, hadamard(0, None)),
            at(5, measure(0, 0)),
            at(6, measure(1, 1)),
            at(7, flip(2, on(1), None)),
            at(8, flip(3, on(0), on(2))),
            at(8, phase(4, 3)),
        ],
    )
}

// Each kind of step, of control and of end: wire 0 is an input, wire 1 a result, wire 2 is measured, wire 3 dropped,
// and wire 4 is 0 again.
fn every_kind(alloc: Global) -> Result<Flat, TableFault> {
    flat_of(
        alloc,
        &[
            input(Output),
            new(Output),
            new(Measured),
            new(Dropped),
            new(Zeroed),
        ],
        &[
            at(1, flip(3, None, None)),
            at(2, flip(3, off(0), None)),
            at(3, hadamard(1, None)),
            at(4, hadamard(1, on(0))),
            at(5, phase(3, 1)),
            at(6, flip(2, on(1), off(3))),
            at(7, measure(2, 0)),
            at(8, flip(4, on(1), on(0))),
            at(9, flip(4, on(1), on(0))),
        ],
    )
}

// `if c { x := H(x); x := H(x); }`: c is wire 0 and x is wire 1.
fn controlled_hadamards(alloc: Global) -> Result<Flat, TableFault> {
    flat_of(
        alloc,
        &[input(Output), input(Output)],
        &[at(1, hadamard(1, on(0))), at(1, hadamard(1, on(0)))],
    )
}

// A Hadamard gate on wire 1 where wire 0 is 0, and a flip of wire 2 where wire 0 is 1 and wire 1 is 0.
fn both_signs(alloc: Global) -> Result<Flat, TableFault> {
    flat_of(
        alloc,
        &[input(Output), input(Output), input(Output)],
        &[at(1, hadamard(1, off(0))), at(2, flip(2, on(0), off(1)))],
    )
}

// Three outputs, of which the second is an input, and a wire that is known to be 0.
fn untouched(alloc: Global) -> Result<Flat, TableFault> {
    flat_of(
        alloc,
        &[new(Output), input(Output), new(Output), new(Zeroed)],
        &[],
    )
}
