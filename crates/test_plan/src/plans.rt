//! Lists of moves that are valid, and lists that are not.

use crate::words;
use move_plan::Rows;
use std::alloc::Global;
use test_forms::{TableFault, Worked, worked_form};

// Valid moves of a form, and their width. Of the two conjunctions each temporary is undone after each use and done again: one wire
// less than in the ready order.
static VALID: [(Worked, usize, &str); 2] = [
    (
        Worked::TwoAnds,
        6,
        "up0 do2 down0 up1 do3 down1 up0 do4 down0",
    ),
    (
        Worked::EveryKind,
        5,
        "up0 up1 do2 do3 do4 do5 do6 do7 do8 down1 down0 free2 free4",
    ),
];

// Moves of a form that are not valid, and why. But for that they are those of the ready order, or in step order.
static REFUSED: [(Worked, &str, &str); 20] = [
    (
        Worked::XorOfAnds,
        "done twice",
        "up0 up1 do2 do2 down1 down0",
    ),
    (
        Worked::XorOfAnds,
        "undone before done",
        "down0 up0 up1 do2 down1",
    ),
    (
        Worked::XorOfAnds,
        "a Do of a step that is undone",
        "do0 up1 do2 down1 down0",
    ),
    (
        Worked::XorOfAnds,
        "an Up of a step that lasts",
        "up0 up1 up2 down1 down0",
    ),
    (Worked::XorOfAnds, "a step forgotten", "up0 up1 down1 down0"),
    (Worked::XorOfAnds, "the end forgotten", "up0 up1 do2 down1"),
    (Worked::XorOfAnds, "nothing done", ""),
    (
        Worked::XorOfAnds,
        "a control at another label",
        "up0 up1 do2 down0 down1",
    ),
    (
        Worked::XorOfAnds,
        "no such step",
        "up0 up1 do2 down1 down0 up3",
    ),
    (
        Worked::XorOfAnds,
        "no such step by far",
        "up0 up1 do2 down1 down0 do4294967295",
    ),
    (
        Worked::XorOfAnds,
        "no such wire",
        "up0 up1 do2 down1 down0 free6",
    ),
    (
        Worked::XorOfAnds,
        "an output freed",
        "up0 up1 do2 down1 down0 free3",
    ),
    (
        Worked::Teleportation,
        "a phase done twice",
        "do0 do1 do2 do3 do4 do5 do6 free1 up7 do8 do8 down7 free0",
    ),
    (
        Worked::Teleportation,
        "freed before its measure",
        "do0 do1 do2 do3 do4 do6 free1 do5 up7 do8 down7 free0",
    ),
    (
        Worked::Teleportation,
        "freed without its measure",
        "do0 do1 do2 do3 do4 do6 free1 up7 do8 down7 free0",
    ),
    (
        Worked::Teleportation,
        "never freed",
        "do0 do1 do2 do3 do4 do5 do6 free1 up7 do8 down7",
    ),
    (
        Worked::Teleportation,
        "used after it was freed",
        "do0 do1 do2 do3 do4 do5 free1 do6 up7 do8 down7 free0",
    ),
    (
        Worked::EveryKind,
        "freed below its top",
        "up0 up1 do2 do3 do4 do5 do6 do7 free4 do8 down1 down0 free2",
    ),
    (
        Worked::EveryKind,
        "freed twice",
        "up0 up1 do2 do3 do4 do5 do6 do7 do8 down1 down0 free2 free4 free4",
    ),
    (
        Worked::EveryKind,
        "undone in step order",
        "up0 up1 do2 do3 do4 do5 do6 do7 do8 down0 down1 free2 free4",
    ),
];

// The width of a list of moves, if it is valid.
fn width_of(alloc: Global, form: Worked, moves: &str) -> Result<Option<usize>, TableFault> {
    let flat = worked_form(alloc, form)?;
    let moves = words::moves(alloc, moves)?;
    let mut rows = Rows::new(alloc, &flat)?;
    if rows.valid(&flat, moves.as_slice()) {
        Ok(Some(rows.width(&flat, moves.as_slice())))
    } else {
        Ok(None)
    }
}

#[test]
fn valid_moves(rt: HostRuntime) {
    for (form, width, moves) in &VALID {
        let found = width_of(rt.alloc(), *form, moves).unwrap_or(None);
        assert!(rt; found == Some(*width), "{moves}");
    }
}

#[test]
fn refused_moves(rt: HostRuntime) {
    for (form, why, moves) in &REFUSED {
        let found = width_of(rt.alloc(), *form, moves).unwrap_or(Some(0));
        assert!(rt; found.is_none(), "{why}");
    }
}
