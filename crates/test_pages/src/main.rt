#![tactic(auto)]
//! Compares what the commands of the user's pages write with what these pages say.
//!
//! A line of `stdin` is a row `WORDS|TEXT`, a tab, `ANSWER`, or a heading, which begins with `#` and names the page of the next rows.
//! The words, divided by single blanks, are those of a command; the second one names the file. Behind them may stand `>/dev/full`, as
//! in a shell. The text is that of the file, and the answer is all that the command writes, the note last; both are spelled as
//! `test_lines` says. Where the text is empty there is no such file, and in it the character U+FFFD stands for the byte 255.
//!
//! Where a command `mean` writes a table, the table that `amps` writes of the program's circuit has to be the same, with a 0 for each
//! other qubit.
//!
//! `docs/check.sh --write` makes the rows from the pages, where they are told by hand.

mod command;
mod table;

use command::answer;
use std::alloc::Global;
use std::io::{self, BufRead, BufReader};
use table::is_of_circuit;
use test_lines::text_of;

// Prints an answer that is not the wanted one.
fn print_missed(rt: &impl Print, number: u64, words: &str, got: &str) -> io::Result<()> {
    println!(rt; "line {number}: {words}: got\n{got}")
}

// Whether the answer is the table of a program.
fn is_table(words: &str, answer: &str) -> bool {
    words.starts_with("mean ") && !answer.starts_with("silqc: ")
}

// Whether the answer of a row is the wanted one. Another one is printed.
fn is_met(rt: &impl Print, alloc: Global, number: u64, row: &str) -> io::Result<bool> {
    let (command, wanted) = row.split_once('\t').unwrap_or((row, "an answer"));
    let (words, text) = command.split_once('|').unwrap_or((command, ""));
    let text = text_of(alloc, text)?;
    let wanted = text_of(alloc, wanted)?;
    let got = answer(alloc, words, &text)?;
    let met = got.as_str() == wanted.as_str();
    if !met {
        print_missed(rt, number, words, &got)?;
    }
    if met && is_table(words, &wanted) && !is_of_circuit(alloc, words, &text, &wanted)? {
        println!(rt; "line {number}: {words}: the circuit has another table")?;
        return Ok(false);
    }
    Ok(met)
}

fn main(rt: HostRuntime) -> io::Result<()> {
    let alloc = rt.alloc();
    let mut number: u64 = 0;
    let mut rows: u64 = 0;
    let mut differ: u64 = 0;
    for line in BufReader::new(alloc, rt.reader())?.lines(alloc) {
        let line = line?;
        number = number.wrapping_add(1);
        if !line.starts_with('#') {
            rows = rows.wrapping_add(1);
            let met = is_met(&rt, alloc, number, &line)?;
            differ = differ.wrapping_add(u64::from(!met));
        }
    }
    println!(rt; "{rows} rows, {differ} differ")
}
