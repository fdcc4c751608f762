#![tactic(auto)]
//! Compares what is read from texts, and printed as texts, with the wanted answers of a table, which are told by hand.
//!
//! A line of `stdin` is a row `KIND TEXT`, a tab, `ANSWER`, or a heading, which begins with `#` and says what the next rows show.
//! In both parts `\n`, `\r` and `\t` stand for a line feed, a carriage return and a tab. The kinds:
//!
//! - `tokens`: the kind, the text, the bytes before it, the line and the column of each token, and then the end or the fault.
//! - `lone`: the kind of the words of the text, each of which is one token.
//! - `number`: the number that the text begins with.
//! - `static`: the value of the text as a static expression, in which `n` stands for 4, and its eighths of a turn as an angle.
//! - `print`: the text that the program is printed as.

mod numbers;
mod prints;
mod tokens;

use std::alloc::{AllocError, Global};
use std::io::{self, BufRead, BufReader};

// The text that a part of a row stands for.
fn spelled(alloc: Global, part: &str) -> Result<String, AllocError> {
    let lines = part.replace(alloc, "\\n", "\n")?;
    let returns = lines.replace(alloc, "\\r", "\r")?;
    returns.replace(alloc, "\\t", "\t")
}

// The answer to the part of a row before the tab.
fn answer(alloc: Global, input: &str) -> Result<String, AllocError> {
    let (kind, text) = input.split_once(' ').unwrap_or((input, ""));
    match kind {
        "tokens" => tokens::tokens(alloc, text),
        "lone" => tokens::lone(alloc, text),
        "number" => tokens::first_number(alloc, text),
        "static" => numbers::value_and_turn(alloc, text),
        "print" => prints::printed(alloc, text),
        _ => String::from_str(alloc, "no such kind"),
    }
}

// Whether the answer to a row is the wanted one. Another one is printed.
fn is_met(rt: &impl Print, alloc: Global, number: u64, row: &str) -> io::Result<bool> {
    let (input, wanted) = row.split_once('\t').unwrap_or((row, "no answer"));
    let got = answer(alloc, &spelled(alloc, input)?)?;
    let wanted = spelled(alloc, wanted)?;
    let met = got == wanted;
    if !met {
        println!(rt; "line {number}: got {got}, wanted {wanted}")?;
    }
    Ok(met)
}

fn main(rt: HostRuntime) -> io::Result<()> {
    let alloc = rt.alloc();
    let mut number: u64 = 0;
    let mut rows: u64 = 0;
    let mut differ: u64 = 0;
    for line in BufReader::new(alloc, rt.reader())?.lines(alloc) {
        let line = line?;
        number = number.wrapping_add(1);
        if !line.starts_with('#') {
            rows = rows.wrapping_add(1);
            let met = is_met(&rt, alloc, number, &line)?;
            differ = differ.wrapping_add(u64::from(!met));
        }
    }
    println!(rt; "{rows} rows, {differ} differ")
}
