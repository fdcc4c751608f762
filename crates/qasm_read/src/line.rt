//! Comment lines that name qubits.

ghost use Rattle.std.specs.Prelude.{◌≡◌, ◌<◌, ◌==◌, not, true, nat_lt, bytes_eq, chars, length, option_map, IfOk, OnOk, IfNone, IfSome};
ghost use Rattle.std.specs.List.{list_all};
ghost use Rattle.std.specs.Str.{IsUtf8};
ghost use Rattle.silq_lex.specs.Characters.{is_digit};
ghost use Rattle.silq_lex.specs.Runs.{run};
ghost use Rattle.qasm_read.specs.Lines as spec;
ghost use Rattle.qasm_read.specs.Lines.{between_spaces, with_line, with_lines, written_number};
ghost use Rattle.qasm_read.specs.Written.{Cuts, in_64_bits, is_headed, is_marked, is_numbered, texts_of};

use crate::named::Named;
use crate::registers::Registers;
use crate::state::State;
use std::alloc::{AllocError, Global};

/// The text before the first of these ASCII characters, and the text behind it.
fn cut(text: &str, c: char) -> Option<(&str, &str)>
    requires { c < 128 }
    ensures none { IfNone result (run (λ d. not (d == c)) (chars text.now) ≡ chars text.now) }
    ensures some { IfSome result (λ p. Cuts c (chars text.now) (chars p.0.now) (chars p.1.now)) }
    ensures text { IfSome result (λ p. IsUtf8 p.1.now) }
    ensures shorter { IfSome result (λ p. length p.1.now < length text.now) }
{
    text.split_once(c)
}

/// What stands between the spaces of a line.
fn between_spaces<'t>(alloc: Global, text: &'t str) -> Result<Vec<&'t str>, AllocError>
    ensures { IfOk result (λ words. texts_of words.items ≡ between_spaces (chars text.now)) }
{
    let mut words = Vec::new(alloc);
    let mut left = text;
    while let Some((word, rest)) = cut(left, ' ') {
        words.push(word)?;
        left = rest;
    }
    words.push(left)?;
    Ok(words)
}

/// Whether all bytes are digits.
fn are_digits(bytes: &[u8]) -> bool
    ensures { result ≡ list_all is_digit bytes.now }
{
    let mut left = bytes;
    while let [byte, rest @ ..] = left {
        if *byte < b'0' || b'9' < *byte {
            return false;
        }
        left = rest;
    }
    true
}

/// Whether these are digits without a leading zero, or the digit 0.
fn is_plain(bytes: &[u8]) -> bool
    ensures { result ≡ spec.is_plain bytes.now }
{
    match bytes {
        [] => false,
        [b'0', rest @ ..] => rest.is_empty(),
        _ => are_digits(bytes),
    }
}

/// The number that is written so, where it has at most 64 bits.
fn written_number(text: &str) -> Option<u64>
    ensures { result ≡ in_64_bits (written_number (chars text.now)) }
{
    if is_plain(text.as_bytes()) {
        text.parse::<u64>().ok()
    } else {
        None
    }
}

/// The qubit that is written so, as `q[0]`.
fn qubit_named(registers: &Registers, text: &str) -> Option<u32>
    ensures { result ≡ spec.qubit_named registers.now (chars text.now) }
{
    let (name, rest) = cut(text, '[')?;
    let (digits, behind) = cut(rest, ']')?;
    registers.bits_of(name)?;
    let index = written_number(digits)?;
    if behind.is_empty() {
        registers.bit_of(name, index)
    } else {
        None
    }
}

/// All the qubits that are written so.
fn qubits_named(
    alloc: Global,
    registers: &Registers,
    texts: &[&str],
) -> Result<Option<Vec<u32>>, AllocError>
    ensures { IfOk result (λ found. option_map (λ qs. qs.items) found ≡ spec.qubits_named registers.now (texts_of texts.now)) }
{
    let mut found = Vec::new(alloc);
    for text in texts {
        match qubit_named(registers, text) {
            Some(q) => found.push(q)?,
            None => return Ok(None),
        }
    }
    Ok(Some(found))
}

/// Whether a text is this word of ASCII characters.
fn is_word(text: &str, word: &str) -> bool
    requires { list_all (λ c. nat_lt c 128) word.now ≡ true }
    ensures { result ≡ bytes_eq (chars text.now) word.now }
{
    text == word
}

/// Whether this number is written so.
fn is_written(text: &str, number: u64) -> bool
    ensures { result ≡ spec.is_written (chars text.now) number }
{
    match written_number(text) {
        Some(written) => written == number,
        None => false,
    }
}

/// Whether these are the words `//` and `silqc`.
fn is_marked(slashes: &str, silqc: &str) -> bool
    ensures { result ≡ is_marked (chars slashes.now) (chars silqc.now) }
{
    is_word(slashes, "//") && is_word(silqc, "silqc")
}

/// Whether these are this kind and this number.
fn is_numbered(kind: &str, number: u64, word: &str, digits: &str) -> bool
    requires { list_all (λ c. nat_lt c 128) kind.now ≡ true }
    ensures { result ≡ is_numbered kind.now number (chars word.now) (chars digits.now) }
{
    is_word(word, kind) && is_written(digits, number)
}

/// Whether words begin with `//`, `silqc`, this kind and this number, and more of them follow.
fn is_headed(kind: &str, number: u64, words: &[&str]) -> bool
    requires { list_all (λ c. nat_lt c 128) kind.now ≡ true }
    ensures { result ≡ is_headed kind.now number (texts_of words.now) }
{
    let [slashes, silqc, word, digits, _, ..] = words else {
        return false;
    };
    is_marked(slashes, silqc) && is_numbered(kind, number, word, digits)
}

/// The qubits that the words of a line name, where it is the next line of this kind.
fn named_by(
    alloc: Global,
    registers: &Registers,
    kind: &str,
    named: &Named,
    words: &[&str],
) -> Result<Option<Vec<u32>>, AllocError>
    requires { list_all (λ c. nat_lt c 128) kind.now ≡ true }
    ensures { IfOk result (λ found. option_map (λ qs. qs.items) found ≡ spec.named_by registers.now kind.now named.now (texts_of words.now)) }
{
    if !is_headed(kind, named.len() as u64, words) {
        return Ok(None);
    }
    match qubits_named(alloc, registers, words.split_at(4).1)? {
        Some(qubits) => named.if_new(alloc, qubits),
        None => Ok(None),
    }
}

impl<'s> State<'s> {
    /// Reads a comment line. It fails only where memory runs out; the state is of no further use
    /// then.
    pub(crate) fn line(&mut self, alloc: Global, text: &str) -> Result<(), AllocError>
        ensures { OnOk result (self.new ≡ with_line self.old (chars text.now)) }
    {
        let words = between_spaces(alloc, text)?;
        let ins = named_by(alloc, &self.qubits, "in", &self.ins, &words)?;
        let outs = named_by(alloc, &self.qubits, "out", &self.outs, &words)?;
        self.ins.add(ins)?;
        self.outs.add(outs)
    }

    /// Reads comment lines in turn. It fails only where memory runs out; the state is of no
    /// further use then.
    pub(crate) fn lines(&mut self, alloc: Global, texts: &[&str]) -> Result<(), AllocError>
        ensures { OnOk result (self.new ≡ with_lines self.old (texts_of texts.now)) }
    {
        for text in texts {
            self.line(alloc, text)?;
        }
        Ok(())
    }
}
