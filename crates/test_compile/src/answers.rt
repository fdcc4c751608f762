//! What is put for a program, or why nothing is.

ghost use Rattle.std.specs.Prelude.{◌≤◌};

use crate::refusals::refusal;
use flat_compile::Output;
use silq_compile::compile_text;
use silq_io::MemSink;
use std::alloc::{AllocError, Global};

// The lines with which each text begins.
const HEAD: &str = "OPENQASM 2.0;\ninclude \"qelib1.inc\";\n";

// The most bytes of a text.
const ROOM: usize = 16_000_000;

// The values of static parameters, divided by blanks.
fn statics_of(alloc: Global, words: &str) -> Result<Vec<i64>, AllocError> {
    let mut values = Vec::new(alloc);
    for word in words.split_ascii_whitespace() {
        values.push(word.parse::<i64>().unwrap_or(-1))?;
    }
    Ok(values)
}

// What was put, without its two first lines.
fn text_in(alloc: Global, bytes: &[u8]) -> Result<String, AllocError> {
    let text = str::from_utf8(bytes).unwrap_or("no text");
    String::from_str(alloc, text.strip_prefix(HEAD).unwrap_or("another head"))
}

/// The text of the circuit of the function `entry` of a text with these static values, without its two first lines, or the refusal.
pub fn answer(
    alloc: Global,
    text: &str,
    entry: &str,
    statics: &str,
    budget: u32,
) -> Result<String, AllocError>
    requires { budget ≤ 100000 }
{
    let statics = statics_of(alloc, statics)?;
    let mut out = MemSink::new(alloc, ROOM, Vec::new(alloc))?;
    match compile_text(alloc, text, entry, &statics, budget, Output::Text, &mut out) {
        Ok(()) => text_in(alloc, out.bytes()),
        Err(fault) if out.bytes().is_empty() => refusal(alloc, fault, budget),
        Err(_) => String::from_str(alloc, "a text and a refusal"),
    }
}

// Whether a line is that of a gate, a measure or a conditioned gate.
fn is_gate(line: &str) -> bool {
    let others = ["qreg ", "creg ", "// "];
    !others.iter().any(|word| line.starts_with(word))
}

// The first line of a text, and the number of its gates.
fn summary(alloc: Global, text: &str) -> Result<String, AllocError> {
    let first = text.lines().next().unwrap_or("");
    let gates = text.lines().filter(|line| is_gate(line)).count();
    format!(in alloc; "{first} {gates} gates")
}

/// Whether an answer is the wanted one: the same, or one with this summary.
pub fn is_wanted(alloc: Global, got: &str, wanted: &str) -> Result<bool, AllocError> {
    if wanted.ends_with(" gates") {
        let summary = summary(alloc, got)?;
        return Ok(summary.as_str() == wanted);
    }
    Ok(got == wanted)
}
