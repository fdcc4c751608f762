#![tactic(auto)]
//! Compares the parser's answers to the texts of a table with the wanted ones, which are told from the grammar by hand.
//!
//! A line of `stdin` is a row `TEXT`, a tab, `ANSWER`, or a heading, which begins with `#` and says what the next rows show. A text
//! is spelled as `test_lines` says, and so has no tab of its own; one that begins with `#` is spelled with a backslash before it.

use silq_lex::LexCause;
use silq_parse::{ParseFault, parse};
use std::alloc::{AllocError, Global};
use std::io::{self, BufRead, BufReader};
use test_lines::text_of;

// The word for what no token is.
fn cause_word(cause: LexCause) -> &'static str {
    match cause {
        LexCause::Character => "character",
        LexCause::Number => "number",
        LexCause::Comment => "comment",
    }
}

// The answer to a text: `fine`, or where its first fault stands and what it is.
fn answer(alloc: Global, text: &str) -> Result<String, AllocError> {
    let (line, col, word) = match parse(alloc, text) {
        Ok(_) => return String::from_str(alloc, "fine"),
        Err(ParseFault::Memory) => return String::from_str(alloc, "memory"),
        Err(ParseFault::Long) => return String::from_str(alloc, "long"),
        Err(ParseFault::Syntax { line, col }) => (line, col, "form"),
        Err(ParseFault::Deep { line, col }) => (line, col, "deep"),
        Err(ParseFault::Lex(fault)) => (fault.line, fault.col, cause_word(fault.cause)),
    };
    format!(in alloc; "{line}:{col} {word}")
}

// Whether the answer to a row is the wanted one. Another one is printed.
fn is_met(rt: &impl Print, alloc: Global, number: u64, row: &str) -> io::Result<bool> {
    let (text, wanted) = row.split_once('\t').unwrap_or((row, "no answer"));
    let text = text_of(alloc, text)?;
    let got = answer(alloc, &text)?;
    let met = got.as_str() == wanted;
    if !met {
        println!(rt; "line {number}: got {got}, wanted {wanted}")?;
    }
    Ok(met)
}

fn main(rt: HostRuntime) -> io::Result<()> {
    let alloc = rt.alloc();
    let mut number: u64 = 0;
    let mut rows: u64 = 0;
    let mut differ: u64 = 0;
    for line in BufReader::new(alloc, rt.reader())?.lines(alloc) {
        let line = line?;
        number = number.wrapping_add(1);
        if !line.starts_with('#') {
            rows = rows.wrapping_add(1);
            let met = is_met(&rt, alloc, number, &line)?;
            differ = differ.wrapping_add(u64::from(!met));
        }
    }
    println!(rt; "{rows} rows, {differ} differ")
}
