#![tactic(auto)]
//! Compares the texts of the programs of a table, or why they have none, with the wanted ones, which are told by hand.
//!
//! A line of `stdin` is a row `BUDGET ENTRY STATIC..|TEXT`, a tab, `ANSWER`, or a heading, which begins with `#`. The budget, the entry and
//! its static values are divided by single blanks, and texts are spelled as `test_lines` says. The answer is the text of the circuit without
//! its two first lines, or `silqc: WHY` for a program that has none; where it ends in `gates`, the text's first line behind those two and the
//! number of its gates are compared alone.

mod answers;
mod refusals;

use answers::{answer, is_wanted};
use std::alloc::{AllocError, Global};
use std::io::{self, BufRead, BufReader};
use test_lines::text_of;

// Prints an answer that is not the wanted one.
fn print_missed(rt: &impl Print, number: u64, got: &str) -> io::Result<()> {
    println!(rt; "line {number}: got\n{got}")
}

// The answer for the words and the text of a row.
fn answered(alloc: Global, words: &str, text: &str) -> Result<String, AllocError> {
    let (budget, rest) = words.split_once(' ').unwrap_or((words, ""));
    let (entry, statics) = rest.split_once(' ').unwrap_or((rest, ""));
    let budget = budget.parse::<u32>().unwrap_or(0).min(100_000);
    answer(alloc, text, entry, statics, budget)
}

// Whether the answer of a row is the wanted one. Another one is printed.
fn is_met(rt: &impl Print, alloc: Global, number: u64, row: &str) -> io::Result<bool> {
    let (program, wanted) = row.split_once('\t').unwrap_or((row, "an answer"));
    let (words, text) = program.split_once('|').unwrap_or((program, ""));
    let text = text_of(alloc, text)?;
    let got = answered(alloc, words, &text)?;
    let wanted = text_of(alloc, wanted)?;
    let met = is_wanted(alloc, &got, &wanted)?;
    if !met {
        print_missed(rt, number, &got)?;
    }
    Ok(met)
}

fn main(rt: HostRuntime) -> io::Result<()> {
    let alloc = rt.alloc();
    let mut number: u64 = 0;
    let mut rows: u64 = 0;
    let mut differ: u64 = 0;
    for line in BufReader::new(alloc, rt.reader())?.lines(alloc) {
        let line = line?;
        number = number.wrapping_add(1);
        if !line.starts_with('#') {
            rows = rows.wrapping_add(1);
            let met = is_met(&rt, alloc, number, &line)?;
            differ = differ.wrapping_add(u64::from(!met));
        }
    }
    println!(rt; "{rows} rows, {differ} differ")
}
