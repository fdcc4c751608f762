//! The pieces of which a line is made.

ghost use Rattle.std.specs.Prelude.{◌≡◌, ℕ, ◌≤◌, List, OnOk, OnErr, decimal};
ghost use Rattle.silq_io.specs.Counts.{Rose};
ghost use Rattle.silq_io.specs.Sinks.{Adds, Breaks};
ghost use Rattle.qasm_write.specs.Written.{qubit_text};
ghost use Rattle.qasm_write.specs.Pieces.{piece_text, pieces_text};

use itoa::Buffer;
use silq_io::{Failed, Sink, put_all};

/// A piece of a line.
#[derive(Clone, Copy)]
pub enum Piece<'a> {
    /// A number in digits, without leading zeros.
    Number(u64),
    /// Its bytes as they are.
    Text(&'a str),
    /// A qubit by its number, as `q[2]`.
    Qubit(u32),
}

// Puts a number in digits.
fn put_number<S: Sink>(out: &mut S, number: u64) -> Result<(), Failed>
    ensures ok { OnOk result (Adds (S.put_so_far out.old) (S.put_so_far out.new) (decimal number)) }
    ensures count { S.faults out.old ≤ S.faults out.new }
    ensures failed { OnErr result (Rose (S.faults out.old) (S.faults out.new)) }
    ensures broken { OnErr result (Breaks (S.put_so_far out.old) (S.put_so_far out.new) (decimal number)) }
{
    let mut buffer = Buffer::new();
    put_all(out, buffer.format(number).as_bytes())
}

// Puts a qubit.
#[tactic(auto, using(crate::proofs::Parts::parts))]
fn put_qubit<S: Sink>(out: &mut S, qubit: u32) -> Result<(), Failed>
    ensures ok { OnOk result (Adds (S.put_so_far out.old) (S.put_so_far out.new) (qubit_text qubit)) }
    ensures count { S.faults out.old ≤ S.faults out.new }
    ensures failed { OnErr result (Rose (S.faults out.old) (S.faults out.new)) }
    ensures broken { OnErr result (Breaks (S.put_so_far out.old) (S.put_so_far out.new) (qubit_text qubit)) }
{
    put_all(out, b"q[")?;
    put_number(out, u64::from(qubit))?;
    put_all(out, b"]")
}

// Puts a piece.
fn put_piece<S: Sink>(out: &mut S, piece: Piece) -> Result<(), Failed>
    ensures ok { OnOk result (Adds (S.put_so_far out.old) (S.put_so_far out.new) (piece_text piece.entry)) }
    ensures count { S.faults out.old ≤ S.faults out.new }
    ensures failed { OnErr result (Rose (S.faults out.old) (S.faults out.new)) }
    ensures broken { OnErr result (Breaks (S.put_so_far out.old) (S.put_so_far out.new) (piece_text piece.entry)) }
{
    match piece {
        Piece::Number(number) => put_number(out, number),
        Piece::Text(text) => put_all(out, text.as_bytes()),
        Piece::Qubit(qubit) => put_qubit(out, qubit),
    }
}

// Puts pieces one after another.
pub fn put_pieces<S: Sink>(out: &mut S, pieces: &[Piece]) -> Result<(), Failed>
    ensures ok { OnOk result (Adds (S.put_so_far out.old) (S.put_so_far out.new) (pieces_text pieces.now)) }
    ensures count { S.faults out.old ≤ S.faults out.new }
    ensures failed { OnErr result (Rose (S.faults out.old) (S.faults out.new)) }
    ensures broken { OnErr result (Breaks (S.put_so_far out.old) (S.put_so_far out.new) (pieces_text pieces.now)) }
{
    for piece in pieces {
        put_piece(out, *piece)?;
    }
    Ok(())
}
