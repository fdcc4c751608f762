#![tactic(auto)]
//! The program: reads the words, and calls `silqc` over the files and streams of the system.

use silq_io::{DiskFiles, StdSink, Words};
use silqc::silqc;
use silqc::status::Status;
use std::process::ExitCode;
use std::{env, io};

fn main(rt: HostRuntime) -> ExitCode {
    let words = match read_words(&rt) {
        Ok(words) => words,
        // A word that is not UTF-8 is no word of a job, as no word is.
        Err(error) if error.kind() == io::ErrorKind::InvalidData => Words::new(rt.alloc()),
        Err(_) => return ExitCode::from(Status::Memory.code()),
    };
    let mut files = DiskFiles::new(&rt);
    let mut out = StdSink::new(rt.stdout());
    let mut notes = StdSink::new(rt.stderr());
    let status = silqc(rt.alloc(), &words, &mut files, &mut out, &mut notes);
    ExitCode::from(status.code())
}

// The words after the program's name.
fn read_words(rt: &HostRuntime) -> io::Result<Words> {
    let mut words = Words::new(rt.alloc());
    for word in env::args(rt)?.skip(1) {
        words.push(word.as_str())?;
    }
    Ok(words)
}
