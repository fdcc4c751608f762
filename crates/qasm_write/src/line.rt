//! The lines of gates.

ghost use Rattle.std.specs.Prelude.{◌≡◌, ℕ, ◌≤◌, List, ◌++◌, OnOk, OnErr, codes};
ghost use Rattle.silq_io.specs.Counts.{Rose};
ghost use Rattle.silq_io.specs.Sinks.{Adds, Breaks};
ghost use Rattle.qasm_write.specs.Written.{qubit_text, kind_text, plain_line, gate_line};

use crate::piece::{Piece, put_pieces};
use gate_core::{Gate, OneKind, PlainGate};
use silq_io::{Failed, Sink};

// The word of a gate on one qubit.
fn word_of(kind: OneKind) -> &'static str
    ensures { result.now ≡ kind_text kind }
{
    match kind {
        OneKind::Id => "id",
        OneKind::X => "x",
        OneKind::Y => "y",
        OneKind::Z => "z",
        OneKind::H => "h",
        OneKind::S => "s",
        OneKind::Sdg => "sdg",
        OneKind::T => "t",
        OneKind::Tdg => "tdg",
    }
}

// Puts the line of a gate on one qubit.
fn put_one<S: Sink>(out: &mut S, kind: OneKind, q: u32) -> Result<(), Failed>
    ensures ok { OnOk result (Adds (S.put_so_far out.old) (S.put_so_far out.new) (plain_line (PlainGate.One kind q))) }
    ensures count { S.faults out.old ≤ S.faults out.new }
    ensures failed { OnErr result (Rose (S.faults out.old) (S.faults out.new)) }
    ensures broken { OnErr result (Breaks (S.put_so_far out.old) (S.put_so_far out.new) (plain_line (PlainGate.One kind q))) }
{
    put_pieces(
        out,
        &[
            Piece::Text(word_of(kind)),
            Piece::Text(" "),
            Piece::Qubit(q),
            Piece::Text(";\n"),
        ],
    )
}

// Puts the line of a controlled X.
fn put_cx<S: Sink>(out: &mut S, c: u32, t: u32) -> Result<(), Failed>
    ensures ok { OnOk result (Adds (S.put_so_far out.old) (S.put_so_far out.new) (plain_line (PlainGate.Cx c t))) }
    ensures count { S.faults out.old ≤ S.faults out.new }
    ensures failed { OnErr result (Rose (S.faults out.old) (S.faults out.new)) }
    ensures broken { OnErr result (Breaks (S.put_so_far out.old) (S.put_so_far out.new) (plain_line (PlainGate.Cx c t))) }
{
    put_pieces(
        out,
        &[
            Piece::Text("cx "),
            Piece::Qubit(c),
            Piece::Text(","),
            Piece::Qubit(t),
            Piece::Text(";\n"),
        ],
    )
}

// Puts the line of a controlled Z.
fn put_cz<S: Sink>(out: &mut S, c: u32, t: u32) -> Result<(), Failed>
    ensures ok { OnOk result (Adds (S.put_so_far out.old) (S.put_so_far out.new) (plain_line (PlainGate.Cz c t))) }
    ensures count { S.faults out.old ≤ S.faults out.new }
    ensures failed { OnErr result (Rose (S.faults out.old) (S.faults out.new)) }
    ensures broken { OnErr result (Breaks (S.put_so_far out.old) (S.put_so_far out.new) (plain_line (PlainGate.Cz c t))) }
{
    put_pieces(
        out,
        &[
            Piece::Text("cz "),
            Piece::Qubit(c),
            Piece::Text(","),
            Piece::Qubit(t),
            Piece::Text(";\n"),
        ],
    )
}

// Puts the line of an X under two controls.
fn put_ccx<S: Sink>(out: &mut S, a: u32, b: u32, t: u32) -> Result<(), Failed>
    ensures ok { OnOk result (Adds (S.put_so_far out.old) (S.put_so_far out.new) (plain_line (PlainGate.Ccx a b t))) }
    ensures count { S.faults out.old ≤ S.faults out.new }
    ensures failed { OnErr result (Rose (S.faults out.old) (S.faults out.new)) }
    ensures broken { OnErr result (Breaks (S.put_so_far out.old) (S.put_so_far out.new) (plain_line (PlainGate.Ccx a b t))) }
{
    put_pieces(
        out,
        &[
            Piece::Text("ccx "),
            Piece::Qubit(a),
            Piece::Text(","),
            Piece::Qubit(b),
            Piece::Text(","),
            Piece::Qubit(t),
            Piece::Text(";\n"),
        ],
    )
}

// Puts the line of a gate that an `if` may hold.
fn put_plain<S: Sink>(out: &mut S, gate: PlainGate) -> Result<(), Failed>
    ensures ok { OnOk result (Adds (S.put_so_far out.old) (S.put_so_far out.new) (plain_line gate)) }
    ensures count { S.faults out.old ≤ S.faults out.new }
    ensures failed { OnErr result (Rose (S.faults out.old) (S.faults out.new)) }
    ensures broken { OnErr result (Breaks (S.put_so_far out.old) (S.put_so_far out.new) (plain_line gate)) }
{
    match gate {
        PlainGate::One { kind, q } => put_one(out, kind, q),
        PlainGate::Cx { c, t } => put_cx(out, c, t),
        PlainGate::Cz { c, t } => put_cz(out, c, t),
        PlainGate::Ccx { a, b, t } => put_ccx(out, a, b, t),
    }
}

// Puts the line of a measurement.
fn put_measure<S: Sink>(out: &mut S, q: u32, bit: u32) -> Result<(), Failed>
    ensures ok { OnOk result (Adds (S.put_so_far out.old) (S.put_so_far out.new) (gate_line (Gate.Measure q bit))) }
    ensures count { S.faults out.old ≤ S.faults out.new }
    ensures failed { OnErr result (Rose (S.faults out.old) (S.faults out.new)) }
    ensures broken { OnErr result (Breaks (S.put_so_far out.old) (S.put_so_far out.new) (gate_line (Gate.Measure q bit))) }
{
    put_pieces(
        out,
        &[
            Piece::Text("measure "),
            Piece::Qubit(q),
            Piece::Text(" -> m"),
            Piece::Number(u64::from(bit)),
            Piece::Text("[0];\n"),
        ],
    )
}

// Puts the line of a gate under a condition.
fn put_if<S: Sink>(out: &mut S, bit: u32, value: u64, gate: PlainGate) -> Result<(), Failed>
    ensures ok { OnOk result (Adds (S.put_so_far out.old) (S.put_so_far out.new) (gate_line (Gate.If bit value gate))) }
    ensures count { S.faults out.old ≤ S.faults out.new }
    ensures failed { OnErr result (Rose (S.faults out.old) (S.faults out.new)) }
    ensures broken { OnErr result (Breaks (S.put_so_far out.old) (S.put_so_far out.new) (gate_line (Gate.If bit value gate))) }
{
    put_pieces(
        out,
        &[
            Piece::Text("if (m"),
            Piece::Number(u64::from(bit)),
            Piece::Text("=="),
            Piece::Number(value),
            Piece::Text(") "),
        ],
    )?;
    put_plain(out, gate)
}

// Puts the line of a gate.
pub fn put_gate<S: Sink>(out: &mut S, gate: Gate) -> Result<(), Failed>
    ensures ok { OnOk result (Adds (S.put_so_far out.old) (S.put_so_far out.new) (gate_line gate)) }
    ensures count { S.faults out.old ≤ S.faults out.new }
    ensures failed { OnErr result (Rose (S.faults out.old) (S.faults out.new)) }
    ensures broken { OnErr result (Breaks (S.put_so_far out.old) (S.put_so_far out.new) (gate_line gate)) }
{
    match gate {
        Gate::One { kind, q } => put_one(out, kind, q),
        Gate::Cx { c, t } => put_cx(out, c, t),
        Gate::Cz { c, t } => put_cz(out, c, t),
        Gate::Ccx { a, b, t } => put_ccx(out, a, b, t),
        Gate::Measure { q, bit } => put_measure(out, q, bit),
        Gate::If { bit, value, gate } => put_if(out, bit, value, gate),
    }
}
