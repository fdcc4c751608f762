#![tactic(auto)]
//! Compares the notes of the command `check` on the programs of a table with the wanted ones, which are told from the rules of
//! typing by hand.
//!
//! A line of `stdin` is a row `ENTRY STATIC..|TEXT`, a tab, `NOTE`, or a heading, which begins with `#` and says which rule the next
//! rows show. The words behind the file's name are divided by single blanks, a text is spelled as `test_lines` says and so has no
//! tab of its own, and the note is `fine` where there is none.

use silq_io::{MemFiles, MemSink, Words};
use silqc::silqc;
use std::alloc::{AllocError, Global};
use std::io::{self, BufRead, BufReader};
use test_lines::text_of;

// The name of the file that holds a text.
const FILE: &str = "row.slq";

// The words `check row.slq ENTRY STATIC..`.
fn words_of(alloc: Global, rest: &str) -> Result<Words, AllocError> {
    let mut words = Words::new(alloc);
    words.push("check")?;
    words.push(FILE)?;
    for word in rest.split(' ') {
        words.push(word)?;
    }
    Ok(words)
}

// A file of that name with this text.
fn file_of(alloc: Global, text: &str) -> Result<MemFiles, AllocError> {
    let name = String::from_str(alloc, FILE)?;
    let mut files = Vec::new(alloc);
    files.push((name, Vec::from_slice(alloc, text.as_bytes())?))?;
    MemFiles::new(alloc, files, Vec::new(alloc))
}

// The note of the command on a text, without its line feed, or what the status says where there is none.
fn answer(alloc: Global, words: &str, text: &str) -> Result<String, AllocError> {
    let words = words_of(alloc, words)?;
    let mut files = file_of(alloc, text)?;
    let mut out = MemSink::new(alloc, 0, Vec::new(alloc))?;
    let mut notes = MemSink::new(alloc, 200, Vec::new(alloc))?;
    let status = silqc(alloc, &words, &mut files, &mut out, &mut notes);
    let note = str::from_utf8(notes.bytes()).unwrap_or("no text");
    let note = note.strip_suffix('\n').unwrap_or(note);
    let is_fine = note.is_empty() && status.code() == 0;
    String::from_str(alloc, if is_fine { "fine" } else { note })
}

// Prints a note that is not the wanted one.
fn print_missed(rt: &impl Print, number: u64, got: &str, wanted: &str) -> io::Result<()> {
    println!(rt; "line {number}: got {got}, wanted {wanted}")
}

// Whether the note of a row is the wanted one. Another one is printed.
fn is_met(rt: &impl Print, alloc: Global, number: u64, row: &str) -> io::Result<bool> {
    let (program, wanted) = row.split_once('\t').unwrap_or((row, "a note"));
    let (words, text) = program.split_once('|').unwrap_or((program, ""));
    let text = text_of(alloc, text)?;
    let got = answer(alloc, words, &text)?;
    let met = got.as_str() == wanted;
    if !met {
        print_missed(rt, number, &got, wanted)?;
    }
    Ok(met)
}

fn main(rt: HostRuntime) -> io::Result<()> {
    let alloc = rt.alloc();
    let mut number: u64 = 0;
    let mut rows: u64 = 0;
    let mut differ: u64 = 0;
    for line in BufReader::new(alloc, rt.reader())?.lines(alloc) {
        let line = line?;
        number = number.wrapping_add(1);
        if !line.starts_with('#') {
            rows = rows.wrapping_add(1);
            let met = is_met(&rt, alloc, number, &line)?;
            differ = differ.wrapping_add(u64::from(!met));
        }
    }
    println!(rt; "{rows} rows, {differ} differ")
}
