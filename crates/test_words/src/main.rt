#![tactic(auto)]
//! Compares whether the lists of words of a table are jobs with what the table wants.
//!
//! A line of `stdin` is a row `job` or `none` and each word behind a tab, or a heading, which begins with `#`. So a row that ends in
//! a tab ends in an empty word.

use cli_words::{WordFault, read_job, texts};
use silq_io::Words;
use std::alloc::{AllocError, Global};
use std::io::{self, BufRead, BufReader};

// The words of a row, each behind a tab.
fn words_of(alloc: Global, row: &str) -> Result<Words, AllocError> {
    let mut words = Words::new(alloc);
    for word in row.split('\t').skip(1) {
        words.push(word)?;
    }
    Ok(words)
}

// What the words of a row are read as.
fn answer(alloc: Global, row: &str) -> Result<&'static str, AllocError> {
    let words = words_of(alloc, row)?;
    let list = texts(alloc, &words)?;
    Ok(match read_job(alloc, list.as_slice()) {
        Ok(_) => "job",
        Err(WordFault::NotAJob) => "none",
        Err(WordFault::Memory) => "memory",
    })
}

// Whether the answer to a row is the wanted one. Another one is printed.
fn is_met(rt: &impl Print, alloc: Global, number: u64, row: &str) -> io::Result<bool> {
    let (wanted, _) = row.split_once('\t').unwrap_or((row, ""));
    let got = answer(alloc, row)?;
    let met = got == wanted;
    if !met {
        println!(rt; "line {number}: got {got}, wanted {wanted}")?;
    }
    Ok(met)
}

fn main(rt: HostRuntime) -> io::Result<()> {
    let alloc = rt.alloc();
    let mut number: u64 = 0;
    let mut rows: u64 = 0;
    let mut differ: u64 = 0;
    for line in BufReader::new(alloc, rt.reader())?.lines(alloc) {
        let line = line?;
        number = number.wrapping_add(1);
        if !line.starts_with('#') {
            rows = rows.wrapping_add(1);
            let met = is_met(&rt, alloc, number, &line)?;
            differ = differ.wrapping_add(u64::from(!met));
        }
    }
    println!(rt; "{rows} rows, {differ} differ")
}
