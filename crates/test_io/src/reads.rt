//! A file in pieces.

use silq_io::{Failed, Files};

/// What `begin` answers, what takes of no byte and then three times of two bytes answer, and the row of the two bytes after that.
pub type Reading = (Result<(), Failed>, [Result<usize, Failed>; 4], [u8; 2]);

/// Begins a file and takes from it.
pub fn by_twos<F: Files>(files: &mut F, name: &str) -> Reading {
    let mut pair = [0u8; 2];
    let begun = files.begin(name);
    let taken = [
        files.take(name, &mut []),
        files.take(name, &mut pair),
        files.take(name, &mut pair),
        files.take(name, &mut pair),
    ];
    (begun, taken, pair)
}
