//! Writing the text of a circuit, piece by piece.

ghost use Rattle.std.specs.Prelude.{◌≡◌, ℕ, ◌≤◌, List, [], ◌∷◌, OnOk, OnErr};
ghost use Rattle.silq_io.specs.Counts.{Rose};
ghost use Rattle.silq_io.specs.Sinks.{Adds, Breaks};
ghost use Rattle.qasm_write.specs.Written.{head_text, gate_line, out_text};

use crate::line::put_gate;
use crate::list::{put_lists, put_outcomes, put_start};
use gate_core::{Gate, QubitLists};
use silq_io::{Failed, Sink};

/// Writes the text of a circuit to a sink, without memory of its own: the head, then each gate, then the end.
/// A call fails only where the sink did, and then a proper front of its text was put.
#[derive(Drop)]
pub struct QasmWriter<'a, S: Sink> {
    out: &'a mut S,
}

impl<'a, S: Sink> QasmWriter<'a, S> {
    /// A writer to this sink.
    pub fn new(out: &'a mut S) -> QasmWriter<'a, S>
        ensures same_sink { result.out.ghost_name ≡ out.entry.ghost_name }
        ensures now { result.out.now ≡ out.old }
    {
        QasmWriter { out }
    }

    /// Puts the lines before the gates: the registers of so many qubits and outcomes, and the qubits of each parameter.
    pub fn head(&mut self, width: u32, outcomes: u32, ins: &QubitLists) -> Result<(), Failed>
        ensures same_sink { self.new.out.ghost_name ≡ self.old.out.ghost_name }
        ensures ok { OnOk result (Adds (S.put_so_far self.old.out.now) (S.put_so_far self.new.out.now) (head_text width outcomes ins.now)) }
        ensures count { S.faults self.old.out.now ≤ S.faults self.new.out.now }
        ensures failed { OnErr result (Rose (S.faults self.old.out.now) (S.faults self.new.out.now)) }
        ensures broken { OnErr result (Breaks (S.put_so_far self.old.out.now) (S.put_so_far self.new.out.now) (head_text width outcomes ins.now)) }
    {
        put_start(self.out, width)?;
        put_outcomes(self.out, outcomes)?;
        put_lists(self.out, "in", ins.as_slice())
    }

    /// Puts the line of a gate.
    pub fn gate(&mut self, g: Gate) -> Result<(), Failed>
        ensures same_sink { self.new.out.ghost_name ≡ self.old.out.ghost_name }
        ensures ok { OnOk result (Adds (S.put_so_far self.old.out.now) (S.put_so_far self.new.out.now) (gate_line g)) }
        ensures count { S.faults self.old.out.now ≤ S.faults self.new.out.now }
        ensures failed { OnErr result (Rose (S.faults self.old.out.now) (S.faults self.new.out.now)) }
        ensures broken { OnErr result (Breaks (S.put_so_far self.old.out.now) (S.put_so_far self.new.out.now) (gate_line g)) }
    {
        put_gate(self.out, g)
    }

    /// Puts the lines behind the gates: the qubits of each returned value.
    pub fn finish(&mut self, outs: &QubitLists) -> Result<(), Failed>
        ensures same_sink { self.new.out.ghost_name ≡ self.old.out.ghost_name }
        ensures ok { OnOk result (Adds (S.put_so_far self.old.out.now) (S.put_so_far self.new.out.now) (out_text outs.now)) }
        ensures count { S.faults self.old.out.now ≤ S.faults self.new.out.now }
        ensures failed { OnErr result (Rose (S.faults self.old.out.now) (S.faults self.new.out.now)) }
        ensures broken { OnErr result (Breaks (S.put_so_far self.old.out.now) (S.put_so_far self.new.out.now) (out_text outs.now)) }
    {
        put_lists(self.out, "out", outs.as_slice())
    }
}
