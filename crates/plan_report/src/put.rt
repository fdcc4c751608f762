//! The lines of a report.

ghost use Rattle.std.specs.Prelude.{◌≤◌, OnOk, OnErr};
ghost use Rattle.silq_io.specs.Counts.{Rose};
ghost use Rattle.silq_io.specs.Sinks.{Adds, Breaks};
ghost use Rattle.plan_report.specs.Lines.{report_text};

use crate::report::Report;
use qasm_write::{Piece, put_pieces};
use silq_io::{Failed, Sink};

/// Puts the seven lines of a report, each a word, a blank, a number in digits and a line feed. It fails only where the
/// sink did, and then a proper front of them was put.
pub fn put_report<S: Sink>(out: &mut S, report: &Report) -> Result<(), Failed>
    ensures ok { OnOk result (Adds (S.put_so_far out.old) (S.put_so_far out.new) (report_text report.now)) }
    ensures count { S.faults out.old ≤ S.faults out.new }
    ensures failed { OnErr result (Rose (S.faults out.old) (S.faults out.new)) }
    ensures broken { OnErr result (Breaks (S.put_so_far out.old) (S.put_so_far out.new) (report_text report.now)) }
{
    put_pieces(
        out,
        &[
            Piece::Text("wires "),
            Piece::Number(report.wires as u64),
            Piece::Text("\nsteps "),
            Piece::Number(report.steps as u64),
            Piece::Text("\noutcomes "),
            Piece::Number(u64::from(report.outcomes)),
            Piece::Text("\nlevel "),
            Piece::Number(u64::from(report.level)),
            Piece::Text("\nmoves "),
            Piece::Number(report.moves as u64),
            Piece::Text("\nwidth "),
            Piece::Number(report.width as u64),
            Piece::Text("\ngates "),
            Piece::Number(report.gates as u64),
            Piece::Text("\n"),
        ],
    )
}
