//! Programs that are printed.

use silq_io::MemSink;
use silq_parse::parse;
use silq_print::print::print;
use std::alloc::{AllocError, Global};

/// The text that a program is printed as, at most 1,000 bytes.
pub fn printed(alloc: Global, text: &str) -> Result<String, AllocError> {
    let Ok(program) = parse(alloc, text) else {
        return String::from_str(alloc, "no program");
    };
    let mut out = MemSink::new(alloc, 1000, Vec::new(alloc))?;
    if print(&program, &mut out).is_err() {
        return String::from_str(alloc, "no room");
    }
    match str::from_utf8(out.bytes()) {
        Ok(printed) => String::from_str(alloc, printed),
        Err(_) => String::from_str(alloc, "no text"),
    }
}
