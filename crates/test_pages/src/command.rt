//! Commands, and what they write.

use silq_io::{MemFiles, MemSink, Words};
use silqc::silqc;
use std::alloc::{AllocError, Global};

// The words behind a command whose output goes to a device that takes nothing.
const TO_FULL: &str = " >/dev/full";

// The most bytes of a text.
const ROOM: usize = 4_000_000;

// The words of a command.
fn words_of(alloc: Global, words: &str) -> Result<Words, AllocError> {
    let mut list = Words::new(alloc);
    for word in words.split(' ') {
        list.push(word)?;
    }
    Ok(list)
}

// The bytes of a text, in which U+FFFD stands for 255.
fn bytes_of(alloc: Global, text: &str) -> Result<Vec<u8>, AllocError> {
    let mut bytes = Vec::new(alloc);
    for letter in text.chars() {
        if letter == '\u{FFFD}' {
            bytes.push(255)?;
        } else {
            bytes.extend_from_slice(letter.encode_utf8(&mut [0; 4]).as_bytes())?;
        }
    }
    Ok(bytes)
}

// The file that the second of these words names, with this text, if it has any.
fn files_of(alloc: Global, words: &str, text: &str) -> Result<MemFiles, AllocError> {
    let mut files = Vec::new(alloc);
    if !text.is_empty() {
        let name = words.split(' ').nth(1).unwrap_or("");
        files.push((String::from_str(alloc, name)?, bytes_of(alloc, text)?))?;
    }
    MemFiles::new(alloc, files, Vec::new(alloc))
}

// The words of a command, and how many bytes its output takes.
fn split_room(command: &str) -> (&str, usize) {
    match command.strip_suffix(TO_FULL) {
        Some(words) => (words, 0),
        None => (command, ROOM),
    }
}

/// All that a command writes over a file of this text: its text, and its note behind that.
pub fn answer(alloc: Global, command: &str, text: &str) -> Result<String, AllocError> {
    let (words, room) = split_room(command);
    let mut files = files_of(alloc, words, text)?;
    let mut out = MemSink::new(alloc, room, Vec::new(alloc))?;
    let mut notes = MemSink::new(alloc, 1000, Vec::new(alloc))?;
    let status = silqc(
        alloc,
        &words_of(alloc, words)?,
        &mut files,
        &mut out,
        &mut notes,
    );
    if (status.code() == 0) != notes.bytes().is_empty() {
        return String::from_str(alloc, "a status that does not fit its note");
    }
    let mut written = String::from_str(alloc, str::from_utf8(out.bytes()).unwrap_or("no text"))?;
    written.push_str(str::from_utf8(notes.bytes()).unwrap_or("no note"))?;
    Ok(written)
}
