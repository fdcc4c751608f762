//! The table of a program, and that of its circuit.

use crate::command::answer;
use std::alloc::{AllocError, Global};

// These words as a command; empty ones are left out.
fn command_of(alloc: Global, words: &[&str]) -> Result<String, AllocError> {
    let mut command = String::new(alloc);
    for word in words {
        if !word.is_empty() {
            command.push_str(if command.is_empty() { "" } else { " " })?;
            command.push_str(word)?;
        }
    }
    Ok(command)
}

// The first word of a command, and the rest.
fn split_word(command: &str) -> (&str, &str) {
    command.split_once(' ').unwrap_or((command, ""))
}

// Whether the bits are zeros, or none.
fn are_zeros(bits: &str) -> bool {
    bits == "-" || bits.chars().all(|bit| bit == '0')
}

// Whether a line of a circuit's table is that of the source, with a 0 for each other qubit.
fn is_line(source: &str, circuit: &str) -> bool {
    let Some((out, amplitude)) = source.split_once(' ') else {
        return false;
    };
    let Some((shown, behind)) = circuit.split_once(' ') else {
        return false;
    };
    let Some((rest, same)) = behind.split_once(' ') else {
        return false;
    };
    out == shown && amplitude == same && are_zeros(rest)
}

// Whether all lines of a circuit's table are those of the source.
fn are_lines(source: &str, circuit: &str) -> bool {
    let mut lines = circuit.lines();
    for line in source.lines() {
        let Some(other) = lines.next() else {
            return false;
        };
        if !is_line(line, other) {
            return false;
        }
    }
    lines.next().is_none()
}

// What a `mean` command asks.
#[derive(Clone, Copy)]
struct Asked<'a> {
    file: &'a str,
    entry: &'a str,
    bits: &'a str,
    outcome: &'a str,
    statics: &'a str,
}

// What the words behind `mean` ask.
fn asked_by(words: &str) -> Asked<'_> {
    let (file, rest) = split_word(words);
    let (entry, rest) = split_word(rest);
    let (bits, rest) = split_word(rest);
    let (outcome, statics) = split_word(rest);
    Asked {
        file,
        entry,
        bits,
        outcome,
        statics,
    }
}

// The text that `compile` writes of the program.
fn circuit_of(alloc: Global, asked: Asked, program: &str) -> Result<String, AllocError> {
    let words = ["compile", asked.file, asked.entry, asked.statics];
    let command = command_of(alloc, &words)?;
    answer(alloc, &command, program)
}

// The table that `amps` writes of a circuit.
fn table_of(alloc: Global, asked: Asked, circuit: &str) -> Result<String, AllocError> {
    let words = ["amps", asked.file, asked.bits, asked.outcome];
    let command = command_of(alloc, &words)?;
    answer(alloc, &command, circuit)
}

/// Whether `amps` writes, of the text that `compile` writes, the table that this `mean` command is to write of the program.
pub fn is_of_circuit(
    alloc: Global,
    command: &str,
    program: &str,
    table: &str,
) -> Result<bool, AllocError> {
    let (_, words) = split_word(command);
    let asked = asked_by(words);
    let circuit = circuit_of(alloc, asked, program)?;
    let shown = table_of(alloc, asked, &circuit)?;
    Ok(are_lines(table, &shown))
}
