//! What the items so far have given.

ghost use Rattle.std.specs.Prelude.{◌≡◌, ◌↔◌, length, IsTrue, Contains};
ghost use Rattle.gate_core.specs.Circuit.{measured_bits};
ghost use Rattle.qasm_read.specs.State.{at_start};

use crate::named::Named;
use crate::registers::Registers;
use gate_core::Circuit;
use std::alloc::Global;
use std::marker::Model;

/// What the items so far have given: the registers of both kinds, the statements and the qubits
/// that comment lines name.
#[derive(Drop)]
pub(crate) struct State<'s> {
    /// Whether the file of the gates was included.
    pub(crate) included: bool,
    pub(crate) qubits: Registers<'s>,
    pub(crate) bits: Registers<'s>,
    pub(crate) circuit: Circuit,
    pub(crate) ins: Named,
    pub(crate) outs: Named,
}

impl<'s> Model for State<'s> {
    ghost use Rattle.qasm_read.specs.State as spec;
    ghost use Rattle.qasm_read.specs.Stored.{HasAll};

    ghost Value = { spec.State };

    ghost view = { λ s. record {
      included = s.included;
      qubits = s.qubits;
      bits = s.bits;
      gates = s.circuit.gates;
      ins = s.ins;
      outs = s.outs;
    } };

    ghost invariant = { λ s. HasAll s.circuit s.qubits s.bits };
}

impl<'s> State<'s> {
    /// The state before the first item. Takes no memory.
    pub(crate) fn at_start(alloc: Global) -> State<'s>
        ensures { result ≡ at_start }
    {
        State {
            included: false,
            qubits: Registers::new(alloc),
            bits: Registers::new(alloc),
            circuit: Circuit::new(alloc, 0, 0),
            ins: Named::new(alloc),
            outs: Named::new(alloc),
        }
    }

    /// How many statements.
    pub(crate) fn len(&self) -> usize
        ensures { result ≡ length self.now.gates }
    {
        self.circuit.len()
    }

    /// Whether a statement measures into this bit.
    pub(crate) fn is_measured(&self, bit: u32) -> bool
        ensures { IsTrue result ↔ Contains (measured_bits self.now.gates) bit }
    {
        self.circuit.is_measured(bit)
    }
}
