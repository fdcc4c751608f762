#![tactic(auto)]
//! Compares the flat forms of the programs of a table with the wanted ones, which are told by hand from the rules of the flat form.
//!
//! A line of `stdin` is a row `ENTRY STATIC..|TEXT`, a tab, `FORM`, or a heading, which begins with `#`. The entry and its static values
//! are divided by single blanks, a text is spelled as `test_lines` says, and `notation` says how a form is written.

mod forms;
mod notation;

use forms::form_of;
use std::alloc::{AllocError, Global};
use std::io::{self, BufRead, BufReader};
use test_lines::text_of;

// The values of the static parameters of an entry, divided by blanks.
fn statics_of(alloc: Global, words: &str) -> Result<Vec<i64>, AllocError> {
    let mut values = Vec::new(alloc);
    for word in words.split_ascii_whitespace() {
        values.push(word.parse::<i64>().unwrap_or(-1))?;
    }
    Ok(values)
}

// The form of a row's program.
fn answer(alloc: Global, words: &str, text: &str) -> Result<String, AllocError> {
    let (entry, rest) = words.split_once(' ').unwrap_or((words, ""));
    let statics = statics_of(alloc, rest)?;
    form_of(alloc, text, entry, &statics)
}

// Prints a form that is not the wanted one.
fn print_missed(rt: &impl Print, number: u64, got: &str, wanted: &str) -> io::Result<()> {
    println!(rt; "line {number}:\n  got    {got}\n  wanted {wanted}")
}

// Whether the form of a row is the wanted one. Another one is printed.
fn is_met(rt: &impl Print, alloc: Global, number: u64, row: &str) -> io::Result<bool> {
    let (program, wanted) = row.split_once('\t').unwrap_or((row, "a form"));
    let (words, text) = program.split_once('|').unwrap_or((program, ""));
    let text = text_of(alloc, text)?;
    let got = answer(alloc, words, &text)?;
    let met = got.as_str() == wanted;
    if !met {
        print_missed(rt, number, &got, wanted)?;
    }
    Ok(met)
}

fn main(rt: HostRuntime) -> io::Result<()> {
    let alloc = rt.alloc();
    let mut number: u64 = 0;
    let mut rows: u64 = 0;
    let mut differ: u64 = 0;
    for line in BufReader::new(alloc, rt.reader())?.lines(alloc) {
        let line = line?;
        number = number.wrapping_add(1);
        if !line.starts_with('#') {
            rows = rows.wrapping_add(1);
            let met = is_met(&rt, alloc, number, &line)?;
            differ = differ.wrapping_add(u64::from(!met));
        }
    }
    println!(rt; "{rows} rows, {differ} differ")
}
