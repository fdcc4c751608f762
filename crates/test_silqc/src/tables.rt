//! Tables of sources and of circuits, and how their commands are refused.

use crate::commands::{Case, GROVER, ONE, ONE_TEXT, compiled, first_missed, refused};

// The table of `main` on these bits and for these outcomes.
fn meant<'a>(words: &'a [&'a str], bytes: &'a [u8], out: &'a [u8]) -> Case<'a> {
    Case {
        words,
        ..compiled(bytes, out)
    }
}

// A table that is refused with a note.
fn untold<'a>(words: &'a [&'a str], bytes: &'a [u8], code: u8, note: &'a [u8]) -> Case<'a> {
    Case {
        words,
        ..refused(bytes, code, note)
    }
}

pub(crate) const FORGET: &[u8] = b"def main(y:B) { forget(y = 0:B); }";

const FORGET_TEXT: &[u8] =
    b"OPENQASM 2.0;\ninclude \"qelib1.inc\";\nqreg q[1];\n// silqc in 0 q[0]\n";

pub(crate) const ADDER: &[u8] =
    b"def main(x:uint[3], const y:uint[3]):uint[3] { x += y; return x; }";

pub(crate) const TELEPORTATION: &[u8] =
    b"def main(s:B):B { a := H(0:B); b := dup(a); if s { a := X(a); } s := H(s); m := measure(s); n := measure(a); if n { b := X(b); } if m { b := Z(b); } return b; }";

const TELEPORTATION_TEXT: &[u8] = b"OPENQASM 2.0;
include \"qelib1.inc\";
qreg q[3];
creg m0[1];
creg m1[1];
// silqc in 0 q[0]
h q[1];
cx q[1],q[2];
cx q[0],q[1];
h q[0];
measure q[0] -> m0[0];
measure q[1] -> m1[0];
if (m1==1) x q[2];
if (m0==1) z q[2];
if (m0==1) x q[0];
if (m1==1) x q[1];
// silqc out 0 q[2]
";

pub(crate) const MIXED_TWICE: &[u8] =
    b"def main(const c:B, x:B):B { if c { x := H(x); x := H(x); } return x; }";

const ROUNDS: &[u8] = b"def main[n:!N](x:B):B { for i in [0..n) { x := H(x); } return x; }";

#[test]
fn of_sources(rt: HostRuntime) {
    let cases = [
        meant(
            &["mean", "one.slq", "main", "0", "none"],
            ONE,
            b"0 1 0 0 0 1\n1 1 0 0 0 1\n",
        ),
        meant(
            &["mean", "one.slq", "main", "1", "none"],
            ONE,
            b"0 1 0 0 0 1\n1 -1 0 0 0 1\n",
        ),
        meant(
            &["mean", "one.slq", "main", "none", "none"],
            b"def main() { return; }",
            b"- 1 0 0 0 0\n",
        ),
        meant(
            &["mean", "one.slq", "main", "none", "none"],
            b"def main() { phase(pi/4); }",
            b"- 0 1 0 0 0\n",
        ),
        meant(
            &["mean", "one.slq", "main", "111100", "none"],
            ADDER,
            b"000100 1 0 0 0 0\n",
        ),
        meant(
            &["mean", "one.slq", "main", "0", "none"],
            FORGET,
            b"- 1 0 0 0 0\n",
        ),
        meant(
            &["mean", "one.slq", "main", "1", "01"],
            TELEPORTATION,
            b"1 1 0 0 0 2\n",
        ),
        meant(
            &["mean", "one.slq", "main", "10", "none"],
            MIXED_TWICE,
            b"01 1 0 0 0 0\n",
        ),
        meant(
            &["mean", "one.slq", "main", "0", "none", "10"],
            ROUNDS,
            b"0 1 0 0 0 0\n",
        ),
        // one round of the search finds 9 with the amplitude -11/16
        meant(
            &["mean", "one.slq", "grover", "none", "1001", "4", "1"],
            GROVER,
            b"1001 -11 0 0 0 8\n",
        ),
        // an outcome that no term has
        meant(
            &["mean", "one.slq", "main", "0", "1"],
            b"def main(x:B):!B { return measure(x); }",
            b"",
        ),
    ];
    assert!(rt; first_missed(rt.alloc(), &cases).is_none());
}

#[test]
fn refused_sources(rt: HostRuntime) {
    let cases = [
        untold(
            &["mean", "one.slq", "main", "1", "none"],
            FORGET,
            14,
            b"silqc: forget is false on line 1\n",
        ),
        untold(
            &["mean", "one.slq", "main", "none", "none"],
            FORGET,
            13,
            b"silqc: bits: given 0, wanted 1\n",
        ),
        untold(
            &["mean", "one.slq", "main", "1", "0"],
            TELEPORTATION,
            13,
            b"silqc: bits: given 1, wanted 2\n",
        ),
        // the input is told before the outcome
        untold(
            &["mean", "one.slq", "main", "none", "0"],
            TELEPORTATION,
            13,
            b"silqc: bits: given 0, wanted 1\n",
        ),
        // the counts come before the bits
        untold(
            &["mean", "one.slq", "main", "none", "none", "51"],
            ROUNDS,
            8,
            b"silqc: limit: hgates 51\n",
        ),
        untold(
            &["mean", "one.slq", "main", "0", "none"],
            b"def main(x:B):B { y := x; return x; }",
            6,
            b"silqc: 1:34: type: K4\n",
        ),
        untold(
            &["mean", "one.slq", "none", "0", "none"],
            ONE,
            5,
            b"silqc: 1:1: names: K1\n",
        ),
        Case {
            room: 15,
            out: b"0 1 0 0 0 1\n1 1",
            ..untold(
                &["mean", "one.slq", "main", "0", "none"],
                ONE,
                11,
                b"silqc: writing failed\n",
            )
        },
    ];
    assert!(rt; first_missed(rt.alloc(), &cases).is_none());
}

#[test]
fn of_circuits(rt: HostRuntime) {
    let cases = [
        meant(
            &["amps", "one.slq", "0", "none"],
            ONE_TEXT,
            b"0 - 1 0 0 0 1\n1 - 1 0 0 0 1\n",
        ),
        meant(
            &["amps", "one.slq", "none", "none"],
            b"OPENQASM 2.0;\ninclude \"qelib1.inc\";\n",
            b"- - 1 0 0 0 0\n",
        ),
        meant(
            &["amps", "one.slq", "0", "none"],
            FORGET_TEXT,
            b"- 0 1 0 0 0 0\n",
        ),
        meant(
            &["amps", "one.slq", "1", "01"],
            TELEPORTATION_TEXT,
            b"1 00 1 0 0 0 2\n",
        ),
        meant(
            &["amps", "one.slq", "1", "10"],
            TELEPORTATION_TEXT,
            b"1 00 1 0 0 0 2\n",
        ),
        meant(
            &["amps", "one.slq", "none", "none"],
            b"OPENQASM 2.0;\nqreg q[20];",
            b"- 00000000000000000000 1 0 0 0 0\n",
        ),
        // the outs in their order, and then the other qubits by number
        meant(
            &["amps", "one.slq", "10", "none"],
            b"OPENQASM 2.0;include \"qelib1.inc\";qreg q[4];\n// silqc in 0 q[3] q[1]\nx q[0];\n// silqc out 0 q[2]\n// silqc out 1 q[3]\n",
            b"01 10 1 0 0 0 0\n",
        ),
    ];
    assert!(rt; first_missed(rt.alloc(), &cases).is_none());
}

#[test]
fn refused_circuits(rt: HostRuntime) {
    let cases = [
        untold(
            &["amps", "one.slq", "none", "none"],
            b"OPENQASM 2.0;\ninclude \"qelib1.inc\";\nqreg q[2];\ncx q[0],q[0];\n",
            4,
            b"silqc: 4:9: syntax: repeated\n",
        ),
        untold(
            &["amps", "one.slq", "none", "none"],
            b"OPENQASM 2.0;\ninclude \"qelib1.inc\";\ngate g a { }\n",
            7,
            b"silqc: 3:1: unsupported: definition\n",
        ),
        untold(
            &["amps", "one.slq", "none", "none"],
            b"OPENQASM 2.0;\ninclude \"qelib1.inc\";\nqreg q[2];\nh q[2];\n",
            4,
            b"silqc: 4:3: syntax: index\n",
        ),
        untold(
            &["amps", "one.slq", "none", "none"],
            ONE,
            4,
            b"silqc: 1:1: syntax: form\n",
        ),
        untold(
            &["amps", "one.slq", "none", "none"],
            b"OPENQASM 2.0;\n\xff",
            4,
            b"silqc: 2:1: syntax: utf8\n",
        ),
        untold(
            &["amps", "one.slq", "none", "none"],
            b"OPENQASM 2.0;\nqreg q[21];",
            8,
            b"silqc: limit: qubits 21\n",
        ),
        untold(
            &["amps", "one.slq", "none", "none"],
            ONE_TEXT,
            13,
            b"silqc: bits: given 0, wanted 1\n",
        ),
        untold(
            &["amps", "one.slq", "0", "1"],
            ONE_TEXT,
            13,
            b"silqc: bits: given 1, wanted 0\n",
        ),
        untold(
            &["amps", "two.slq", "0", "none"],
            ONE_TEXT,
            3,
            b"silqc: reading failed\n",
        ),
        Case {
            room: 4,
            out: b"0 - ",
            ..untold(
                &["amps", "one.slq", "0", "none"],
                ONE_TEXT,
                11,
                b"silqc: writing failed\n",
            )
        },
    ];
    assert!(rt; first_missed(rt.alloc(), &cases).is_none());
}
