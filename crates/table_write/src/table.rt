//! The lines of whole tables.

ghost use Rattle.std.specs.Prelude.{◌≤◌, All, OnOk, OnErr, length};
ghost use Rattle.silq_io.specs.Counts.{Rose};
ghost use Rattle.silq_io.specs.Sinks.{Adds, Breaks};
ghost use Rattle.table_write.specs.Lines.{source_line, circuit_line, source_text, circuit_text};

use crate::piece::{Piece, put_pieces};
use amp_core::Amp;
use silq_io::{Failed, Sink};
use sum_laws::Table;

// Puts `OUT A B C D K`.
fn put_source_line<S: Sink>(out: &mut S, bits: &[bool], x: Amp) -> Result<(), Failed>
    ensures ok { OnOk result (Adds (S.put_so_far out.old) (S.put_so_far out.new) (source_line (bits.now, x))) }
    ensures count { S.faults out.old ≤ S.faults out.new }
    ensures failed { OnErr result (Rose (S.faults out.old) (S.faults out.new)) }
    ensures broken { OnErr result (Breaks (S.put_so_far out.old) (S.put_so_far out.new) (source_line (bits.now, x))) }
{
    put_pieces(
        out,
        &[
            Piece::Bits(bits),
            Piece::Text(" "),
            Piece::Number(x.a),
            Piece::Text(" "),
            Piece::Number(x.b),
            Piece::Text(" "),
            Piece::Number(x.c),
            Piece::Text(" "),
            Piece::Number(x.d),
            Piece::Text(" "),
            Piece::Number(i128::from(x.k)),
            Piece::Text("\n"),
        ],
    )
}

// Puts `OUT REST A B C D K`, where OUT has so many bits.
fn put_circuit_line<S: Sink>(out: &mut S, outs: usize, bits: &[bool], x: Amp) -> Result<(), Failed>
    requires { outs ≤ length bits.now }
    ensures ok { OnOk result (Adds (S.put_so_far out.old) (S.put_so_far out.new) (circuit_line outs (bits.now, x))) }
    ensures count { S.faults out.old ≤ S.faults out.new }
    ensures failed { OnErr result (Rose (S.faults out.old) (S.faults out.new)) }
    ensures broken { OnErr result (Breaks (S.put_so_far out.old) (S.put_so_far out.new) (circuit_line outs (bits.now, x))) }
{
    let (shown, others) = bits.split_at(outs);
    put_pieces(out, &[Piece::Bits(shown), Piece::Text(" ")])?;
    put_source_line(out, others, x)
}

/// Puts a line for each row of a source's table: its bits, and its amplitude (A + B w + C w^2 + D w^3) / root two^K as A, B, C, D and K,
/// with w the eighth root of unity. It fails only where the sink did, and then a proper front of the lines was put.
pub fn put_source_table<S: Sink>(out: &mut S, table: &Table) -> Result<(), Failed>
    ensures ok { OnOk result (Adds (S.put_so_far out.old) (S.put_so_far out.new) (source_text table.now)) }
    ensures count { S.faults out.old ≤ S.faults out.new }
    ensures failed { OnErr result (Rose (S.faults out.old) (S.faults out.new)) }
    ensures broken { OnErr result (Breaks (S.put_so_far out.old) (S.put_so_far out.new) (source_text table.now)) }
{
    for i in 0..table.len() {
        let (bits, x) = table.row(i).unwrap();
        put_source_line(out, bits, x)?;
    }
    Ok(())
}

/// The same of a circuit's table, where the first `outs` bits of each row are those of the outs, and the others stand behind a blank.
pub fn put_circuit_table<S: Sink>(out: &mut S, table: &Table, outs: usize) -> Result<(), Failed>
    requires { All (λ row. outs ≤ length row.0) table.now }
    ensures ok { OnOk result (Adds (S.put_so_far out.old) (S.put_so_far out.new) (circuit_text outs table.now)) }
    ensures count { S.faults out.old ≤ S.faults out.new }
    ensures failed { OnErr result (Rose (S.faults out.old) (S.faults out.new)) }
    ensures broken { OnErr result (Breaks (S.put_so_far out.old) (S.put_so_far out.new) (circuit_text outs table.now)) }
{
    for i in 0..table.len() {
        let (bits, x) = table.row(i).unwrap();
        put_circuit_line(out, outs, bits, x)?;
    }
    Ok(())
}
