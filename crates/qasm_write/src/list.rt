//! The lines that name registers, and the qubits of parameters and returned values.

ghost use Rattle.std.specs.Prelude.{◌≡◌, ℕ, ◌≤◌, List, [], ◌∷◌, OnOk, OnErr};
ghost use Rattle.silq_io.specs.Counts.{Rose};
ghost use Rattle.silq_io.specs.Sinks.{Adds, Breaks};
ghost use Rattle.qasm_write.specs.Written.{qubit_texts, list_line, list_lines, outcome_lines, start_text};

use crate::piece::{Piece, put_pieces};
use gate_core::QubitList;
use silq_io::{Failed, Sink, put_all};

// Puts the two first lines, and the register of the qubits where there is one.
pub fn put_start<S: Sink>(out: &mut S, width: u32) -> Result<(), Failed>
    ensures ok { OnOk result (Adds (S.put_so_far out.old) (S.put_so_far out.new) (start_text width)) }
    ensures count { S.faults out.old ≤ S.faults out.new }
    ensures failed { OnErr result (Rose (S.faults out.old) (S.faults out.new)) }
    ensures broken { OnErr result (Breaks (S.put_so_far out.old) (S.put_so_far out.new) (start_text width)) }
{
    if width == 0 {
        return put_all(out, b"OPENQASM 2.0;\ninclude \"qelib1.inc\";\n");
    }
    put_pieces(
        out,
        &[
            Piece::Text("OPENQASM 2.0;\ninclude \"qelib1.inc\";\nqreg q["),
            Piece::Number(u64::from(width)),
            Piece::Text("];\n"),
        ],
    )
}

// Puts a register of one bit for each outcome.
pub fn put_outcomes<S: Sink>(out: &mut S, outcomes: u32) -> Result<(), Failed>
    ensures ok { OnOk result (Adds (S.put_so_far out.old) (S.put_so_far out.new) (outcome_lines 0 outcomes)) }
    ensures count { S.faults out.old ≤ S.faults out.new }
    ensures failed { OnErr result (Rose (S.faults out.old) (S.faults out.new)) }
    ensures broken { OnErr result (Breaks (S.put_so_far out.old) (S.put_so_far out.new) (outcome_lines 0 outcomes)) }
{
    for outcome in 0..outcomes {
        put_pieces(
            out,
            &[
                Piece::Text("creg m"),
                Piece::Number(u64::from(outcome)),
                Piece::Text("[1];\n"),
            ],
        )?;
    }
    Ok(())
}

// Puts each qubit with a blank before it.
fn put_qubits<S: Sink>(out: &mut S, qubits: &[u32]) -> Result<(), Failed>
    ensures ok { OnOk result (Adds (S.put_so_far out.old) (S.put_so_far out.new) (qubit_texts qubits.now)) }
    ensures count { S.faults out.old ≤ S.faults out.new }
    ensures failed { OnErr result (Rose (S.faults out.old) (S.faults out.new)) }
    ensures broken { OnErr result (Breaks (S.put_so_far out.old) (S.put_so_far out.new) (qubit_texts qubits.now)) }
{
    for qubit in qubits {
        put_pieces(out, &[Piece::Text(" "), Piece::Qubit(*qubit)])?;
    }
    Ok(())
}

// Puts the line of one list.
fn put_list<S: Sink>(out: &mut S, kind: &str, number: usize, list: &QubitList) -> Result<(), Failed>
    ensures ok { OnOk result (Adds (S.put_so_far out.old) (S.put_so_far out.new) (list_line kind.now number list.now)) }
    ensures count { S.faults out.old ≤ S.faults out.new }
    ensures failed { OnErr result (Rose (S.faults out.old) (S.faults out.new)) }
    ensures broken { OnErr result (Breaks (S.put_so_far out.old) (S.put_so_far out.new) (list_line kind.now number list.now)) }
{
    put_pieces(
        out,
        &[
            Piece::Text("// silqc "),
            Piece::Text(kind),
            Piece::Text(" "),
            Piece::Number(number as u64),
        ],
    )?;
    put_qubits(out, list.as_slice())?;
    put_all(out, b"\n")
}

// Puts a line for each list, numbered from 0.
pub fn put_lists<S: Sink>(out: &mut S, kind: &str, lists: &[QubitList]) -> Result<(), Failed>
    ensures ok { OnOk result (Adds (S.put_so_far out.old) (S.put_so_far out.new) (list_lines kind.now 0 lists.now)) }
    ensures count { S.faults out.old ≤ S.faults out.new }
    ensures failed { OnErr result (Rose (S.faults out.old) (S.faults out.new)) }
    ensures broken { OnErr result (Breaks (S.put_so_far out.old) (S.put_so_far out.new) (list_lines kind.now 0 lists.now)) }
{
    for (number, list) in lists.iter().enumerate() {
        put_list(out, kind, number, list)?;
    }
    Ok(())
}
