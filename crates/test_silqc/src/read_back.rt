//! Tables of the circuits that `compile` writes, read back.

use crate::commands::{GROVER, written};
use crate::tables::{ADDER, FORGET, MIXED_TWICE, TELEPORTATION};
use std::alloc::{AllocError, Global};

// A program, the words that compile it, those that ask for the table of its text, and the lines of that.
#[derive(Clone, Copy)]
struct Row<'a> {
    program: &'a [u8],
    compile: &'a [&'a str],
    amps: &'a [&'a str],
    lines: &'a [u8],
}

// The table of `main` on these bits and for these outcomes.
fn of_main<'a>(program: &'a [u8], amps: &'a [&'a str], lines: &'a [u8]) -> Row<'a> {
    Row {
        program,
        compile: &["compile", "one.slq", "main"],
        amps,
        lines,
    }
}

// Whether the text of a program has the table that it is to have.
fn is_met(alloc: Global, row: &Row) -> Result<bool, AllocError> {
    let text = written(alloc, row.compile, row.program)?;
    let lines = written(alloc, row.amps, &text)?;
    Ok(lines.as_slice() == row.lines)
}

// The number of the first row whose table is another, from 0.
fn first_missed(alloc: Global, rows: &[Row]) -> Option<usize> {
    for (number, row) in rows.iter().enumerate() {
        if !is_met(alloc, row).unwrap_or(false) {
            return Some(number);
        }
    }
    None
}

#[test]
fn of_written_circuits(rt: HostRuntime) {
    let rows = [
        of_main(
            b"def main() { return; }",
            &["amps", "one.slq", "none", "none"],
            b"- - 1 0 0 0 0\n",
        ),
        of_main(
            b"def main() { phase(pi/4); }",
            &["amps", "one.slq", "none", "none"],
            b"- 0 0 1 0 0 0\n",
        ),
        of_main(
            ADDER,
            &["amps", "one.slq", "111100", "none"],
            b"000100 00 1 0 0 0 0\n",
        ),
        of_main(
            b"def main(x:uint[2], const y:uint[2]):uint[2] { z := x + y; x += y; forget(z = x); return x; }",
            &["amps", "one.slq", "1110", "none"],
            b"0010 000 1 0 0 0 0\n",
        ),
        of_main(
            FORGET,
            &["amps", "one.slq", "0", "none"],
            b"- 0 1 0 0 0 0\n",
        ),
        of_main(
            TELEPORTATION,
            &["amps", "one.slq", "1", "01"],
            b"1 00 1 0 0 0 2\n",
        ),
        of_main(
            MIXED_TWICE,
            &["amps", "one.slq", "10", "none"],
            b"01 - 1 0 0 0 0\n",
        ),
        Row {
            program: GROVER,
            compile: &["compile", "one.slq", "grover", "4", "2"],
            amps: &["amps", "one.slq", "none", "1001"],
            lines: b"1001 0000000000 61 0 0 0 12\n",
        },
    ];
    assert!(rt; first_missed(rt.alloc(), &rows).is_none());
}
