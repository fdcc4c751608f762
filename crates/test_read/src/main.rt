#![tactic(auto)]
//! Compares what the OpenQASM texts of a table are read as with the wanted answers, which are told from the rules by hand.
//!
//! A line of `stdin` is a row `TEXT`, a tab, `ANSWER`; or a heading, which begins with `#`; or a head, which begins with `@` and stands
//! before the texts of the rows below it, up to the next head. A text is spelled as `test_lines` says, and so has no tab of its own; one
//! that begins with `#` or `@` is spelled with a backslash before it. `notation` says how an answer is written.

mod notation;

use notation::{circuit_text, fault_text};
use qasm_read::read;
use std::alloc::{AllocError, Global};
use std::io::{self, BufRead, BufReader};
use test_lines::text_of;

// What a text is read as.
fn answer(alloc: Global, text: &str) -> Result<String, AllocError> {
    match read(alloc, text) {
        Ok(circuit) => circuit_text(alloc, &circuit),
        Err(fault) => fault_text(alloc, fault),
    }
}

// Whether the answer to a row below a head is the wanted one. Another one is printed.
fn is_met(rt: &impl Print, alloc: Global, number: u64, head: &str, row: &str) -> io::Result<bool> {
    let (text, wanted) = row.split_once('\t').unwrap_or((row, "an answer"));
    let text = text_of(alloc, &format!(in alloc; "{head}{text}")?)?;
    let got = answer(alloc, &text)?;
    let met = got.as_str() == wanted;
    if !met {
        println!(rt; "line {number}: got {got}, wanted {wanted}")?;
    }
    Ok(met)
}

fn main(rt: HostRuntime) -> io::Result<()> {
    let alloc = rt.alloc();
    let mut head = String::new(alloc);
    let mut number: u64 = 0;
    let mut rows: u64 = 0;
    let mut differ: u64 = 0;
    for line in BufReader::new(alloc, rt.reader())?.lines(alloc) {
        let line = line?;
        number = number.wrapping_add(1);
        if let Some(text) = line.strip_prefix('@') {
            head = String::from_str(alloc, text)?;
        } else if !line.starts_with('#') {
            rows = rows.wrapping_add(1);
            let met = is_met(&rt, alloc, number, &head, &line)?;
            differ = differ.wrapping_add(u64::from(!met));
        }
    }
    println!(rt; "{rows} rows, {differ} differ")
}
