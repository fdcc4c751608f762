//! The gates of moves.

use crate::teleportation::one;
use gate_core::{Gate, OneKind};
use gate_emit::emit::emit;
use gate_emit::{Control, PlacedMove, QubitMove};

#[test]
fn gates_of_moves(rt: HostRuntime) {
    let at_zero = Control {
        qubit: 3,
        positive: false,
    };
    let phase = emit(&PlacedMove::Unitary(QubitMove::PhaseBy {
        eighths: 3,
        control: at_zero,
    }));
    let wanted = [
        one(OneKind::X, 3),
        one(OneKind::S, 3),
        one(OneKind::T, 3),
        one(OneKind::X, 3),
    ];
    assert!(rt; phase.as_slice() == wanted.as_slice());

    let hadamard = emit(&PlacedMove::Unitary(QubitMove::HadamardBy {
        control: at_zero,
        target: 5,
    }));
    let wanted = [
        one(OneKind::X, 3),
        one(OneKind::S, 5),
        one(OneKind::H, 5),
        one(OneKind::T, 5),
        Gate::Cx { c: 3, t: 5 },
        one(OneKind::Tdg, 5),
        one(OneKind::H, 5),
        one(OneKind::Sdg, 5),
        one(OneKind::X, 3),
    ];
    assert!(rt; hadamard.as_slice() == wanted.as_slice());
    assert!(rt; emit(&PlacedMove::Released).as_slice().is_empty());
}
