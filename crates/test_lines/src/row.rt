//! How a line spells a text.
//!
//! `\n` is a line feed, `\t` a tab and `\r` a carriage return; a backslash before any other character is that character,
//! and at the end it is nothing. A line `N*TEXT`, where N is a decimal number below 2^32 (digits, in front of which a plus may
//! stand), is N times the text that TEXT spells. Any other line is the text that it spells itself.

ghost use Rattle.std.specs.Prelude.{◌≡◌, IfOk, MatchOption, Some, None};
ghost use Rattle.std.specs.String.{string_bytes};
ghost use Rattle.test_lines.specs.Spelled.{escaped, spelled_text, times, counted, row_text};

use std::alloc::{AllocError, Global};

/// The text that a line spells.
pub fn text_of(alloc: Global, line: &str) -> Result<String, AllocError>
    ensures { IfOk result (λ text. string_bytes text ≡ row_text line.now) }
{
    match counted(line) {
        Some((count, rest)) => {
            let text = unescape(alloc, rest)?;
            repeat(alloc, &text, count)
        }
        None => unescape(alloc, line),
    }
}

// The number before the first `*`, and what stands behind that.
fn counted(line: &str) -> Option<(u32, &str)>
    ensures { MatchOption result (counted line.now ≡ None) (λ row. counted line.now ≡ Some (row.0, row.1.now)) }
{
    let (number, rest) = line.split_once('*')?;
    match number.parse::<u32>() {
        Ok(count) => Some((count, rest)),
        Err(_) => None,
    }
}

// So many times a text.
fn repeat(alloc: Global, text: &str, count: u32) -> Result<String, AllocError>
    ensures { IfOk result (λ all. string_bytes all ≡ times count text.now) }
{
    let mut all = String::new(alloc);
    for _ in 0..count {
        all.push_str(text)?;
    }
    Ok(all)
}

// What a character behind a backslash stands for.
fn meant(letter: char) -> char
    ensures { result ≡ escaped letter }
{
    match letter {
        'n' => '\n',
        't' => '\t',
        'r' => '\r',
        other => other,
    }
}

// The text with its escapes read.
fn unescape(alloc: Global, line: &str) -> Result<String, AllocError>
    ensures { IfOk result (λ text. string_bytes text ≡ spelled_text line.now) }
{
    let mut text = String::new(alloc);
    let mut behind = false;
    for letter in line.chars() {
        if behind {
            text.push(meant(letter))?;
            behind = false;
        } else if letter == '\\' {
            behind = true;
        } else {
            text.push(letter)?;
        }
    }
    Ok(text)
}
