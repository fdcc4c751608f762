//! Teleportation of qubit 0 to qubit 2, with a measure of each other qubit.

use gate_core::{Gate, OneKind, PlainGate};

/// A gate on one qubit.
pub fn one(kind: OneKind, q: u32) -> Gate {
    Gate::One { kind, q }
}

/// A flip of a qubit where a bit is 1.
pub fn if_x(bit: u32, q: u32) -> Gate {
    let kind = OneKind::X;
    let gate = PlainGate::One { kind, q };
    Gate::If {
        bit,
        value: 1,
        gate,
    }
}

/// Its gates, on three qubits and two bits.
pub fn teleportation() -> [Gate; 12] {
    [
        one(OneKind::H, 1),
        Gate::Cx { c: 1, t: 2 },
        Gate::Cx { c: 0, t: 1 },
        one(OneKind::H, 0),
        Gate::Measure { q: 0, bit: 0 },
        Gate::Measure { q: 1, bit: 1 },
        Gate::Cx { c: 1, t: 2 },
        if_x(1, 1),
        Gate::Ccx { a: 0, b: 2, t: 1 },
        one(OneKind::Z, 1),
        Gate::Ccx { a: 0, b: 2, t: 1 },
        if_x(0, 0),
    ]
}
