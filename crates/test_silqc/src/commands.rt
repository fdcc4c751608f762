//! Commands, and how each has to end: its status, its text and its note.

use crate::slow::Slow;
use silq_io::{MemFiles, MemSink, Words};
use silqc::silqc;
use silqc::status::Status;
use std::alloc::{AllocError, Global};

pub(crate) const ONE: &[u8] = b"def main(x:B):B { x := H(x); return x; }";

pub(crate) const ONE_TEXT: &[u8] =
    b"OPENQASM 2.0;\ninclude \"qelib1.inc\";\nqreg q[1];\n// silqc in 0 q[0]\nh q[0];\n// silqc out 0 q[0]\n";

const TWO: &[u8] = b"def main(a:B, b:B):B\xc3\x97B { a := H(a); b := X(b); return (a, b); }";

const TWO_TEXT: &[u8] =
    b"OPENQASM 2.0;\ninclude \"qelib1.inc\";\nqreg q[2];\n// silqc in 0 q[0]\n// silqc in 1 q[1]\nh q[0];\nx q[1];\n// silqc out 0 q[0]\n// silqc out 1 q[1]\n";

const TWO_ANDS: &[u8] = b"def main(const a:B, const b:B, const c:B, const d:B, x:B):B {
  t1 := a && b;
  t2 := c && d;
  if t1 { x := X(x); }
  if t2 { x := X(x); }
  if t1 { x := X(x); }
  return x;
}
";

const HELD_TEXT: &[u8] = b"OPENQASM 2.0;
include \"qelib1.inc\";
qreg q[7];
// silqc in 0 q[0]
// silqc in 1 q[1]
// silqc in 2 q[2]
// silqc in 3 q[3]
// silqc in 4 q[4]
ccx q[0],q[1],q[5];
ccx q[2],q[3],q[6];
cx q[5],q[4];
cx q[6],q[4];
ccx q[2],q[3],q[6];
cx q[5],q[4];
ccx q[0],q[1],q[5];
// silqc out 0 q[4]
// silqc out 1 q[0]
// silqc out 2 q[1]
// silqc out 3 q[2]
// silqc out 4 q[3]
";

const REDONE_TEXT: &[u8] = b"OPENQASM 2.0;
include \"qelib1.inc\";
qreg q[6];
// silqc in 0 q[0]
// silqc in 1 q[1]
// silqc in 2 q[2]
// silqc in 3 q[3]
// silqc in 4 q[4]
ccx q[0],q[1],q[5];
cx q[5],q[4];
ccx q[0],q[1],q[5];
ccx q[2],q[3],q[5];
cx q[5],q[4];
ccx q[2],q[3],q[5];
ccx q[0],q[1],q[5];
cx q[5],q[4];
ccx q[0],q[1],q[5];
// silqc out 0 q[4]
// silqc out 1 q[0]
// silqc out 2 q[1]
// silqc out 3 q[2]
// silqc out 4 q[3]
";

// The words of a command.
fn words_of(alloc: Global, words: &[&str]) -> Result<Words, AllocError> {
    let mut list = Words::new(alloc);
    for word in words {
        list.push(word)?;
    }
    Ok(list)
}

// The file `one.slq` with these bytes, whose calls with these numbers fail.
fn file_of(alloc: Global, bytes: &[u8], fails: &[u64]) -> Result<MemFiles, AllocError> {
    let name = String::from_str(alloc, "one.slq")?;
    let mut files = Vec::new(alloc);
    files.push((name, Vec::from_slice(alloc, bytes)?))?;
    MemFiles::new(alloc, files, Vec::from_slice(alloc, fails)?)
}

// A command over `one.slq`, and how it has to end.
#[derive(Clone, Copy)]
pub(crate) struct Case<'a> {
    pub(crate) words: &'a [&'a str],
    pub(crate) bytes: &'a [u8],
    pub(crate) file_fails: &'a [u64],
    pub(crate) room: usize,
    pub(crate) code: u8,
    pub(crate) out: &'a [u8],
    pub(crate) note: &'a [u8],
}

// The most bytes of a text.
pub(crate) const ROOM: usize = 1000;

const COMPILE: &[&str] = &["compile", "one.slq", "main", "--budget", "1"];

// A command of these words that is refused with a note.
pub(crate) fn no_job<'a>(words: &'a [&'a str]) -> Case<'a> {
    Case {
        words,
        bytes: ONE,
        file_fails: &[],
        room: ROOM,
        code: 2,
        out: b"",
        note: b"silqc: the words are not a job\n",
    }
}

// These bytes compiled to a text.
pub(crate) fn compiled<'a>(bytes: &'a [u8], out: &'a [u8]) -> Case<'a> {
    Case {
        words: COMPILE,
        bytes,
        file_fails: &[],
        room: ROOM,
        code: 0,
        out,
        note: b"",
    }
}

// `ONE` compiled to its text by these words.
fn asked<'a>(words: &'a [&'a str]) -> Case<'a> {
    Case {
        words,
        ..compiled(ONE, ONE_TEXT)
    }
}

// These bytes refused with a note.
pub(crate) fn refused<'a>(bytes: &'a [u8], code: u8, note: &'a [u8]) -> Case<'a> {
    Case {
        words: COMPILE,
        bytes,
        file_fails: &[],
        room: ROOM,
        code,
        out: b"",
        note,
    }
}

// A check of these bytes, and how it has to end.
fn checked<'a>(bytes: &'a [u8], code: u8, note: &'a [u8]) -> Case<'a> {
    Case {
        words: &["check", "one.slq", "main"],
        ..refused(bytes, code, note)
    }
}

// Whether a command ends as its case says.
fn is_met(alloc: Global, case: &Case) -> Result<bool, AllocError> {
    let words = words_of(alloc, case.words)?;
    let mut files = file_of(alloc, case.bytes, case.file_fails)?;
    let mut out = MemSink::new(alloc, case.room, Vec::new(alloc))?;
    let mut notes = MemSink::new(alloc, 200, Vec::new(alloc))?;
    let status = silqc(alloc, &words, &mut files, &mut out, &mut notes);
    Ok(status.code() == case.code && out.bytes() == case.out && notes.bytes() == case.note)
}

// What a command writes over `one.slq` with these bytes.
pub(crate) fn written(alloc: Global, words: &[&str], bytes: &[u8]) -> Result<Vec<u8>, AllocError> {
    let words = words_of(alloc, words)?;
    let mut files = file_of(alloc, bytes, &[])?;
    let mut out = MemSink::new(alloc, 100_000, Vec::new(alloc))?;
    let mut notes = MemSink::new(alloc, 200, Vec::new(alloc))?;
    silqc(alloc, &words, &mut files, &mut out, &mut notes);
    Vec::from_slice(alloc, out.bytes())
}

// The number of the first case that ends otherwise, from 0.
pub(crate) fn first_missed(alloc: Global, cases: &[Case]) -> Option<usize> {
    for (number, case) in cases.iter().enumerate() {
        if !is_met(alloc, case).unwrap_or(false) {
            return Some(number);
        }
    }
    None
}

#[test]
fn words(rt: HostRuntime) {
    let cases = [
        no_job(&[]),
        no_job(&["compile", "one.slq"]),
        no_job(&["compile", "one.slq", "main", "--budget", "0"]),
        no_job(&["compile", "one.slq", "main", "--budget=100001"]),
        no_job(&[
            "compile", "one.slq", "main", "--budget", "1", "--budget", "1",
        ]),
        no_job(&["compile", "one.slq", "main", "-"]),
        no_job(&["compile", "--help"]),
        no_job(&["check", "one.slq", "main", "--budget", "1"]),
        no_job(&["make", "one.slq", "main", "--budget", "1"]),
        asked(&["compile", "one.slq", "main"]),
        asked(&["compile", "one.slq", "main", "--budget=7"]),
        asked(&["--budget", "1", "compile", "--", "one.slq", "main"]),
        no_job(&["mean", "one.slq", "main", "0"]),
        no_job(&["mean", "one.slq", "main", "2", "none"]),
        no_job(&["mean", "one.slq", "main", "0", "none", "--budget", "1"]),
        no_job(&["amps", "one.slq", "0"]),
        no_job(&["amps", "one.slq", "0", "none", "1"]),
        no_job(&["gen", "7", "10001"]),
        no_job(&["gen", "7", "4", "--budget", "1"]),
    ];
    assert!(rt; first_missed(rt.alloc(), &cases).is_none());
}

pub(crate) const GROVER: &[u8] =
    b"def good[n:!N](const x:uint[n]) lifted : B { return x + 3 == 12; }
def spread[n:!N](x:uint[n]) mfree : uint[n] {
  for i in [0..n) { x[i] := H(x[i]); }
  return x;
}
def grover[n:!N, k:!N]() : !uint[n] {
  x := 0:uint[n];
  x := spread[n](x);
  for j in [0..k) {
    if good[n](x) { phase(pi); }
    x := spread[n](x);
    if x == 0 { phase(pi); }
    x := spread[n](x);
  }
  return measure(x);
}
";

const FOUR_LINES: &[u8] = b"def main(const a:B^8, x:B):B {
t0 := a[4] && a[5]; if t0 { x := X(x); }
if a[5] { x := H(x); }
t2 := a[2] && a[6]; if t2 { x := X(x); }
if a[3] { x := H(x); }
return x;
}
";

// The report of these bytes by these words.
fn reported<'a>(words: &'a [&'a str], bytes: &'a [u8], out: &'a [u8]) -> Case<'a> {
    Case {
        words,
        ..compiled(bytes, out)
    }
}

#[test]
fn reports(rt: HostRuntime) {
    let cases = [
        reported(
            &["report", "one.slq", "main", "--budget", "1"],
            ONE,
            b"wires 1\nsteps 1\noutcomes 0\nlevel 0\nmoves 1\nwidth 1\ngates 1\n",
        ),
        reported(
            &["report", "one.slq", "main", "--budget", "6"],
            TWO_ANDS,
            b"wires 7\nsteps 5\noutcomes 0\nlevel 9\nmoves 9\nwidth 6\ngates 9\n",
        ),
        reported(
            &["report", "one.slq", "main"],
            TWO_ANDS,
            b"wires 7\nsteps 5\noutcomes 0\nlevel 0\nmoves 7\nwidth 7\ngates 7\n",
        ),
        reported(
            &["report", "one.slq", "main"],
            FOUR_LINES,
            b"wires 11\nsteps 6\noutcomes 0\nlevel 0\nmoves 8\nwidth 10\ngates 20\n",
        ),
        reported(
            &["report", "one.slq", "grover", "4", "2"],
            GROVER,
            b"wires 34\nsteps 72\noutcomes 4\nlevel 0\nmoves 116\nwidth 14\ngates 164\n",
        ),
        // the program of four lines is that of the number 7, and no file is read
        Case {
            words: &["gen", "7", "4"],
            file_fails: &[1],
            ..compiled(
                ONE,
                b"wires 11\nsteps 6\noutcomes 0\nlevel 0\nmoves 8\nwidth 10\ngates 20\n",
            )
        },
        Case {
            words: &["gen", "7", "4"],
            room: 8,
            out: b"wires 11",
            ..refused(ONE, 11, b"silqc: writing failed\n")
        },
        Case {
            words: &["report", "one.slq", "main", "--budget", "5"],
            ..refused(TWO_ANDS, 10, b"silqc: over budget: least 6, budget 5\n")
        },
        Case {
            words: &["report", "one.slq", "main", "--budget", "1"],
            room: 20,
            out: b"wires 1\nsteps 1\noutc",
            ..refused(ONE, 11, b"silqc: writing failed\n")
        },
    ];
    assert!(rt; first_missed(rt.alloc(), &cases).is_none());
}

#[test]
fn files_and_sinks(rt: HostRuntime) {
    let unread = b"silqc: reading failed\n".as_slice();
    let cases = [
        Case {
            words: &["compile", "two.slq", "main", "--budget", "1"],
            ..refused(ONE, 3, unread)
        },
        Case {
            file_fails: &[3],
            ..refused(ONE, 3, unread)
        },
        Case {
            room: 40,
            out: &ONE_TEXT[..40],
            ..refused(ONE, 11, b"silqc: writing failed\n")
        },
        Case {
            room: 0,
            ..refused(b"def main() { return; }", 11, b"silqc: writing failed\n")
        },
    ];
    assert!(rt; first_missed(rt.alloc(), &cases).is_none());
}

#[test]
fn texts(rt: HostRuntime) {
    let sized = b"def main[n:!N](x:B):B { for i in [0..n) { x := H(x); } return x; }".as_slice();
    let cases = [
        compiled(ONE, ONE_TEXT),
        compiled(
            b"/* H */ def main(x:\xf0\x9d\x94\xb9):B{// here\n x:=H(x);return x;}",
            ONE_TEXT,
        ),
        Case {
            words: &["compile", "one.slq", "main", "--budget", "2"],
            ..compiled(TWO, TWO_TEXT)
        },
        Case {
            words: &["compile", "one.slq", "main", "001"],
            ..compiled(sized, ONE_TEXT)
        },
        compiled(
            b"def main() { return; }",
            b"OPENQASM 2.0;\ninclude \"qelib1.inc\";\n",
        ),
        // Both conjunctions are held until their last use, or each is done again where it is used.
        Case {
            words: &["compile", "one.slq", "main"],
            ..compiled(TWO_ANDS, HELD_TEXT)
        },
        Case {
            words: &["compile", "one.slq", "main", "--budget", "7"],
            ..compiled(TWO_ANDS, HELD_TEXT)
        },
        Case {
            words: &["compile", "one.slq", "main", "--budget", "6"],
            ..compiled(TWO_ANDS, REDONE_TEXT)
        },
    ];
    assert!(rt; first_missed(rt.alloc(), &cases).is_none());
}

#[test]
fn no_programs(rt: HostRuntime) {
    let cases = [
        refused(
            b"def main(x:B) { x = H(x); }",
            4,
            b"silqc: 1:19: syntax: form\n",
        ),
        refused(b"def \xc3", 4, b"silqc: 1:5: syntax: utf8\n"),
        refused(
            b"\xf0\x9d\x94\xb9\n\xc3\x97\xff",
            4,
            b"silqc: 2:2: syntax: utf8\n",
        ),
        refused(
            b"def main(x:B):B {\n x /* ",
            4,
            b"silqc: 2:4: syntax: comment\n",
        ),
        refused(
            b"def main(x:B):B { x := 9223372036854775808; return x; }",
            4,
            b"silqc: 1:24: syntax: number\n",
        ),
        refused(b"", 5, b"silqc: 1:1: names: K1\n"),
        refused(
            b"def main() { y := H(0:B); }",
            6,
            b"silqc: 1:27: type: K11\n",
        ),
        refused(
            b"def main[n:!N](x:B):B { return x; }",
            6,
            b"silqc: 1:1: type: K21\n",
        ),
        refused(
            b"def main() { phase(pi/8); }",
            7,
            b"silqc: 1:20: unsupported: angle\n",
        ),
        refused(
            b"def main() { for i in [0..1000000) { phase(0); } }",
            8,
            b"silqc: limit: walked 1000001\n",
        ),
    ];
    assert!(rt; first_missed(rt.alloc(), &cases).is_none());
}

#[test]
fn no_circuits(rt: HostRuntime) {
    let cases = [
        refused(
            b"def main(x:B):B { y := dup(x); x := H(x); if y { x := X(x); } return x; }",
            9,
            b"silqc: cycle: F1@1 F2@1 R0@1\n",
        ),
        refused(
            b"def main(x:B):B {\n  y := dup(x);\n  x := H(x);\n  x ^= y;\n  return x;\n}",
            9,
            b"silqc: cycle: F1@3 F2@4 R0@2\n",
        ),
        refused(TWO, 10, b"silqc: over budget: least 2, budget 1\n"),
        refused(
            b"def main(x:B, z:B):B\xc3\x97B { y := dup(x); x := H(x); if y { z := X(z); } return (x,z); }",
            10,
            b"silqc: over budget: least 3, budget 1\n",
        ),
        Case {
            words: &["compile", "one.slq", "main", "--budget=5"],
            ..refused(TWO_ANDS, 10, b"silqc: over budget: least 6, budget 5\n")
        },
    ];
    assert!(rt; first_missed(rt.alloc(), &cases).is_none());
}

#[test]
fn checks(rt: HostRuntime) {
    let sized = b"def main[n:!N](x:B):B { return x; }".as_slice();
    let cases = [
        no_job(&["check", "one.slq"]),
        no_job(&["check", "one.slq", "main", "1234567890123456789"]),
        checked(ONE, 0, b""),
        Case {
            words: &["check", "one.slq", "main", "003"],
            ..checked(sized, 0, b"")
        },
        checked(sized, 6, b"silqc: 1:1: type: K21\n"),
        checked(
            b"def main() { y := H(0:B); }",
            6,
            b"silqc: 1:27: type: K11\n",
        ),
        checked(b"", 5, b"silqc: 1:1: names: K1\n"),
        checked(
            b"def main(x:B):B { x := rotX(x); return x; }",
            7,
            b"silqc: 1:24: unsupported: rotX\n",
        ),
        checked(
            b"def main() { for i in [0..1000000) { phase(0); } }",
            8,
            b"silqc: limit: walked 1000001\n",
        ),
    ];
    assert!(rt; first_missed(rt.alloc(), &cases).is_none());
}

// How a command ends that reads these bytes and writes, one byte at a time, and whether it writes this text.
fn ends_slowly(
    alloc: Global,
    words: &[&str],
    bytes: &[u8],
    text: &[u8],
) -> Result<(Status, bool), AllocError> {
    let words = words_of(alloc, words)?;
    let mut files = Slow {
        inner: file_of(alloc, bytes, &[])?,
    };
    let mut out = Slow {
        inner: MemSink::new(alloc, ROOM, Vec::new(alloc))?,
    };
    let mut notes = MemSink::new(alloc, 200, Vec::new(alloc))?;
    let status = silqc(alloc, &words, &mut files, &mut out, &mut notes);
    Ok((status, out.inner.bytes() == text))
}

#[test]
fn one_byte_at_a_time(rt: HostRuntime) {
    let words = ["compile", "one.slq", "main", "--budget", "000001"];
    let ending = ends_slowly(rt.alloc(), &words, ONE, ONE_TEXT);
    assert!(rt; matches!(ending, Ok((Status::Done, true))));
    let words = ["compile", "one.slq", "main", "--budget=6"];
    let ending = ends_slowly(rt.alloc(), &words, TWO_ANDS, REDONE_TEXT);
    assert!(rt; matches!(ending, Ok((Status::Done, true))));
}

// Whether a text of so many blanks between these bytes ends a command with this status and note.
fn blanks_end(
    alloc: Global,
    bytes: (&[u8], &[u8]),
    count: usize,
    code: u8,
    note: &[u8],
) -> Result<bool, AllocError> {
    let mut text = Vec::from_slice(alloc, bytes.0)?;
    text.extend_from_slice(&vec![in alloc; b' '; count]?)?;
    text.extend_from_slice(bytes.1)?;
    is_met(alloc, &refused(&text, code, note))
}

#[test]
fn the_longest_text(rt: HostRuntime) {
    let long = b"silqc: 1:1: syntax: long\n";
    let cases: [((&[u8], &[u8]), usize, u8, &[u8]); 7] = [
        ((b"", b""), 1_048_576, 5, b"silqc: 1:1: names: K1\n"),
        ((b"", b""), 1_048_577, 4, long),
        // One more byte than the limit is looked at: bytes that are no text come first, a character that its end cuts is none of them.
        (
            (b"def \xff", b""),
            1_048_576,
            4,
            b"silqc: 1:5: syntax: utf8\n",
        ),
        (
            (b"", b"\xff"),
            1_048_576,
            4,
            b"silqc: 1:1048577: syntax: utf8\n",
        ),
        ((b"", b"\xff"), 1_048_577, 4, long),
        ((b"", b"\xc3\x97"), 1_048_575, 4, long),
        ((b"", b"\xc3\x97"), 1_048_576, 4, long),
    ];
    for (bytes, count, code, note) in cases {
        let met = blanks_end(rt.alloc(), bytes, count, code, note);
        assert!(rt; met.unwrap_or(false), "{count} blanks");
    }
}

#[test]
fn too_many_steps(rt: HostRuntime) {
    let case = refused(
        b"def main(x:B):B { for i in [0..200001) { x := X(x); } return x; }",
        8,
        b"silqc: limit: steps 200001\n",
    );
    assert!(rt; is_met(rt.alloc(), &case).unwrap_or(false));
}
