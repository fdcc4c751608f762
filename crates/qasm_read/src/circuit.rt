//! What a text spells.

ghost use Rattle.std.specs.Prelude.{◌≡◌};
ghost use Rattle.qasm_read.specs.State.{read_form};

use crate::state::State;
use gate_core::{Circuit, QubitLists};
use std::marker::Model;

/// What a text spells: a circuit, and the qubits of each parameter and of each returned value.
#[derive(Drop)]
pub struct ReadCircuit {
    /// The circuit.
    pub circuit: Circuit,
    /// The qubits of each parameter, in the order of the `in` lines.
    pub ins: QubitLists,
    /// The qubits of each returned value, in the order of the `out` lines.
    pub outs: QubitLists,
}

impl Model for ReadCircuit {
    ghost use Rattle.qasm_read.specs.State.{ReadForm};

    ghost Value = { ReadForm };

    ghost view = { λ c. record { circuit = c.circuit; ins = c.ins; outs = c.outs } };
}

impl<'s> State<'s> {
    /// What the items read so far spell, where they are all.
    pub(crate) fn into_read(self) -> ReadCircuit
        ensures { result ≡ read_form self.entry }
    {
        ReadCircuit {
            circuit: self.circuit,
            ins: self.ins.into_lists(),
            outs: self.outs.into_lists(),
        }
    }
}
