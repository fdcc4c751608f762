//! The flat form of a program.

use crate::notation::spell;
use check_fun::check::check;
use flat_build::flatten;
use silq_io::LimitFault;
use silq_parse::parse;
use std::alloc::{AllocError, Global};

// What a limit is called, with the count at which the work stopped.
fn limit(alloc: Global, fault: LimitFault) -> Result<String, AllocError> {
    match fault {
        LimitFault::Memory => String::from_str(alloc, "no memory"),
        LimitFault::Limit(over) => {
            let name = over.which.name();
            let count = over.count;
            format!(in alloc; "limit {name} {count}")
        }
    }
}

/// The flat form of the function `entry` of a text with these values of its static parameters, or why it has none.
pub fn form_of(
    alloc: Global,
    text: &str,
    entry: &str,
    statics: &[i64],
) -> Result<String, AllocError> {
    let program = match parse(alloc, text) {
        Ok(program) => program,
        Err(_) => return String::from_str(alloc, "no program"),
    };
    let checked = match check(alloc, program, entry, statics) {
        Ok(checked) => checked,
        Err(_) => return String::from_str(alloc, "refused"),
    };
    let key = &checked.entry;
    match flatten(&checked.library, key.fun.number, key.statics.as_slice()) {
        Ok(flat) => spell(alloc, &flat),
        Err(fault) => limit(alloc, fault),
    }
}
