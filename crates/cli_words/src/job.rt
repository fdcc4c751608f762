//! The job of the words.

ghost use Rattle.std.specs.Prelude.{◌≡◌, ◌≤◌, ◌<◌, ◌^◌, [], ◌∷◌, ◌++◌, ℤ, List, codes, map, if◌then◌else◌};
ghost use Rattle.std.specs.Prelude.{IfErr, IfOk, IfSome, None, OnOk, Some, option_and_then};
ghost use Rattle.std.specs.List.{list_any};
ghost use Rattle.std.specs.Str.{bytes_eq};
ghost use Rattle.cli_words.specs.Job as asked;
ghost use Rattle.cli_words.specs.Job.{amps_job, bare_job, bits_of, file_job, gen_job, job_in, job_of, mean_job, plain_job, size_of, statics_of};
ghost use Rattle.cli_words.specs.Parts.{AreTexts, Text, between, budget_of, is_number_of, number_of, parts_of};
ghost use Rattle.cli_words.specs.Told.{told, IsInRange};

use crate::{WordFault, part, plain_of, push_values, word_fault};
use clap::ArgMatches;
use std::alloc::{AllocError, Global};

/// A function of a file, with the values of its static parameters.
#[derive(Drop)]
pub struct Source<'a> {
    pub file: &'a str,
    pub entry: &'a str,
    pub statics: Vec<i64>,
}

/// What the words ask for.
#[derive(Drop)]
pub enum Job<'a> {
    Compile {
        source: Source<'a>,
        budget: u32,
    },
    Report {
        source: Source<'a>,
        budget: u32,
    },
    Check {
        source: Source<'a>,
    },
    Mean {
        source: Source<'a>,
        bits: Vec<bool>,
        outcome: Vec<bool>,
    },
    Amps {
        file: &'a str,
        bits: Vec<bool>,
        outcome: Vec<bool>,
    },
    Gen {
        number: u64,
        size: u32,
    },
}

/// The job of the words.
pub fn read_job<'a>(alloc: Global, words: &'a [&'a str]) -> Result<Job<'a>, WordFault>
    requires { AreTexts (map (λ s. s.now) words.now) }
    ensures ok { IfOk result (λ j. job_of (map (λ s. s.now) words.now) ≡ Some (told j)) }
    ensures range { IfOk result (λ j. IsInRange j) }
    ensures err { IfErr result (λ e. e ≡ WordFault.NotAJob → job_of (map (λ s. s.now) words.now) ≡ None) }
{
    match part(alloc, words) {
        Ok(matches) => job_in(alloc, &matches),
        Err(error) => Err(word_fault(&error)),
    }
}

// The job of the parts that the matches have.
fn job_in<'a>(alloc: Global, matches: &ArgMatches<'a>) -> Result<Job<'a>, WordFault>
    ensures ok { IfOk result (λ j. job_in (parts_of matches.now) ≡ Some (told j)) }
    ensures range { IfOk result (λ j. IsInRange j) }
    ensures err { IfErr result (λ e. e ≡ WordFault.NotAJob → job_in (parts_of matches.now) ≡ None) }
{
    let plain = plain_of(alloc, matches)?;
    let mut budgets = Vec::new(alloc);
    push_values(&mut budgets, matches, "budget")?;
    if has_dash(plain.as_slice()) {
        return Err(WordFault::NotAJob);
    }
    plain_job(alloc, plain.as_slice(), budgets.as_slice())
}

// Whether a word is `-` alone.
fn has_dash(words: &[&str]) -> bool
    ensures { result ≡ list_any (λ w. bytes_eq w (codes "-")) (map (λ s. s.now) words.now) }
{
    for word in words {
        if is_word(word, "-") {
            return true;
        }
    }
    false
}

// Whether a word is this one.
fn is_word(word: &str, text: &str) -> bool
    ensures { result ≡ bytes_eq word.now text.now }
{
    word == text
}

// The job of the plain words, the first of which is its name.
fn plain_job<'a>(alloc: Global, plain: &[&'a str], budgets: &[&str]) -> Result<Job<'a>, WordFault>
    ensures ok { IfOk result (λ j. plain_job (map (λ s. s.now) plain.now) (map (λ s. s.now) budgets.now) ≡ Some (told j)) }
    ensures range { IfOk result (λ j. IsInRange j) }
    ensures err { IfErr result (λ e. e ≡ WordFault.NotAJob → plain_job (map (λ s. s.now) plain.now) (map (λ s. s.now) budgets.now) ≡ None) }
{
    match plain {
        [] => Err(WordFault::NotAJob),
        [command, args @ ..] => named_job(alloc, command, args, budgets),
    }
}

// The job with this name.
fn named_job<'a>(
    alloc: Global,
    command: &str,
    args: &[&'a str],
    budgets: &[&str],
) -> Result<Job<'a>, WordFault>
    ensures ok { IfOk result (λ j. plain_job (command.now ∷ map (λ s. s.now) args.now) (map (λ s. s.now) budgets.now) ≡ Some (told j)) }
    ensures range { IfOk result (λ j. IsInRange j) }
    ensures err { IfErr result (λ e. e ≡ WordFault.NotAJob
        → plain_job (command.now ∷ map (λ s. s.now) args.now) (map (λ s. s.now) budgets.now) ≡ None) }
{
    if is_word(command, "compile") {
        return compile_job(alloc, args, budgets);
    }
    if is_word(command, "report") {
        return report_job(alloc, args, budgets);
    }
    if !budgets.is_empty() {
        return Err(WordFault::NotAJob);
    }
    bare_job(alloc, command, args)
}

// FILE ENTRY STATIC.. with a budget, compiled.
fn compile_job<'a>(alloc: Global, args: &[&'a str], budgets: &[&str]) -> Result<Job<'a>, WordFault>
    ensures ok { IfOk result (λ j. option_and_then (λ b. file_job (λ f e s. asked.compile f e s b) (map (λ s. s.now) args.now))
        (budget_of (map (λ s. s.now) budgets.now)) ≡ Some (told j)) }
    ensures range { IfOk result (λ j. IsInRange j) }
    ensures err { IfErr result (λ e. e ≡ WordFault.NotAJob → option_and_then (λ b. file_job (λ f e s. asked.compile f e s b) (map (λ s. s.now) args.now))
        (budget_of (map (λ s. s.now) budgets.now)) ≡ None) }
{
    match read_budget(budgets) {
        Some(budget) => {
            let source = file_source(alloc, args)?;
            Ok(Job::Compile { source, budget })
        }
        None => Err(WordFault::NotAJob),
    }
}

// FILE ENTRY STATIC.. with a budget, whose size is told.
fn report_job<'a>(alloc: Global, args: &[&'a str], budgets: &[&str]) -> Result<Job<'a>, WordFault>
    ensures ok { IfOk result (λ j. option_and_then (λ b. file_job (λ f e s. asked.report f e s b) (map (λ s. s.now) args.now))
        (budget_of (map (λ s. s.now) budgets.now)) ≡ Some (told j)) }
    ensures range { IfOk result (λ j. IsInRange j) }
    ensures err { IfErr result (λ e. e ≡ WordFault.NotAJob → option_and_then (λ b. file_job (λ f e s. asked.report f e s b) (map (λ s. s.now) args.now))
        (budget_of (map (λ s. s.now) budgets.now)) ≡ None) }
{
    match read_budget(budgets) {
        Some(budget) => {
            let source = file_source(alloc, args)?;
            Ok(Job::Report { source, budget })
        }
        None => Err(WordFault::NotAJob),
    }
}

// A job that takes no option.
fn bare_job<'a>(alloc: Global, command: &str, args: &[&'a str]) -> Result<Job<'a>, WordFault>
    ensures ok { IfOk result (λ j. bare_job command.now (map (λ s. s.now) args.now) ≡ Some (told j)) }
    ensures range { IfOk result (λ j. IsInRange j) }
    ensures err { IfErr result (λ e. e ≡ WordFault.NotAJob → bare_job command.now (map (λ s. s.now) args.now) ≡ None) }
{
    if is_word(command, "check") {
        return check_job(alloc, args);
    }
    if is_word(command, "mean") {
        return mean_job(alloc, args);
    }
    if is_word(command, "amps") {
        return amps_job(alloc, args);
    }
    if is_word(command, "gen") {
        return gen_job(args);
    }
    Err(WordFault::NotAJob)
}

// FILE ENTRY STATIC..
fn check_job<'a>(alloc: Global, args: &[&'a str]) -> Result<Job<'a>, WordFault>
    ensures ok { IfOk result (λ j. file_job asked.check (map (λ s. s.now) args.now) ≡ Some (told j)) }
    ensures range { IfOk result (λ j. IsInRange j) }
    ensures err { IfErr result (λ e. e ≡ WordFault.NotAJob → file_job asked.check (map (λ s. s.now) args.now) ≡ None) }
{
    let source = file_source(alloc, args)?;
    Ok(Job::Check { source })
}

// FILE ENTRY BITS OUTCOME STATIC..
fn mean_job<'a>(alloc: Global, args: &[&'a str]) -> Result<Job<'a>, WordFault>
    ensures ok { IfOk result (λ j. mean_job (map (λ s. s.now) args.now) ≡ Some (told j)) }
    ensures range { IfOk result (λ j. IsInRange j) }
    ensures err { IfErr result (λ e. e ≡ WordFault.NotAJob → mean_job (map (λ s. s.now) args.now) ≡ None) }
{
    match args {
        [file, entry, bits, outcome, numbers @ ..] => {
            let bits = read_bits(alloc, bits)?;
            let outcome = read_bits(alloc, outcome)?;
            match named_source(alloc, file, entry, numbers) {
                Ok(source) => Ok(Job::Mean {
                    source,
                    bits,
                    outcome,
                }),
                Err(fault) => Err(fault),
            }
        }
        _ => Err(WordFault::NotAJob),
    }
}

// FILE BITS OUTCOME
fn amps_job<'a>(alloc: Global, args: &[&'a str]) -> Result<Job<'a>, WordFault>
    ensures ok { IfOk result (λ j. amps_job (map (λ s. s.now) args.now) ≡ Some (told j)) }
    ensures range { IfOk result (λ j. IsInRange j) }
    ensures err { IfErr result (λ e. e ≡ WordFault.NotAJob → amps_job (map (λ s. s.now) args.now) ≡ None) }
{
    match args {
        [file, bits, outcome] => {
            if file.is_empty() {
                return Err(WordFault::NotAJob);
            }
            let bits = read_bits(alloc, bits)?;
            let outcome = read_bits(alloc, outcome)?;
            Ok(Job::Amps {
                file,
                bits,
                outcome,
            })
        }
        _ => Err(WordFault::NotAJob),
    }
}

// NUMBER SIZE
fn gen_job<'a>(args: &[&'a str]) -> Result<Job<'a>, WordFault>
    ensures ok { IfOk result (λ j. gen_job (map (λ s. s.now) args.now) ≡ Some (told j)) }
    ensures range { IfOk result (λ j. IsInRange j) }
    ensures err { IfErr result (λ e. e ≡ WordFault.NotAJob → gen_job (map (λ s. s.now) args.now) ≡ None) }
{
    match args {
        [number, size] => match (read_number(number, 18), read_size(size)) {
            (Some(number), Some(size)) => Ok(Job::Gen { number, size }),
            _ => Err(WordFault::NotAJob),
        },
        _ => Err(WordFault::NotAJob),
    }
}

// FILE ENTRY STATIC..
fn file_source<'a>(alloc: Global, args: &[&'a str]) -> Result<Source<'a>, WordFault>
    ensures ok { IfOk result (λ s. (make : Text → Text → List ℤ → asked.Job)
        → file_job make (map (λ w. w.now) args.now) ≡ Some (make s.file.now s.entry.now s.statics.items)) }
    ensures err { IfErr result (λ e. e ≡ WordFault.NotAJob → (make : Text → Text → List ℤ → asked.Job) → file_job make (map (λ w. w.now) args.now) ≡ None) }
{
    match args {
        [file, entry, numbers @ ..] => named_source(alloc, file, entry, numbers),
        _ => Err(WordFault::NotAJob),
    }
}

// A file that is not empty, an entry, and the static values.
fn named_source<'a>(
    alloc: Global,
    file: &'a str,
    entry: &'a str,
    numbers: &[&str],
) -> Result<Source<'a>, WordFault>
    ensures ok { IfOk result (λ s. (make : Text → Text → List ℤ → asked.Job)
        → file_job make (file.now ∷ entry.now ∷ map (λ w. w.now) numbers.now) ≡ Some (make s.file.now s.entry.now s.statics.items)) }
    ensures err { IfErr result (λ e. e ≡ WordFault.NotAJob
        → (make : Text → Text → List ℤ → asked.Job) → file_job make (file.now ∷ entry.now ∷ map (λ w. w.now) numbers.now) ≡ None) }
{
    if file.is_empty() {
        return Err(WordFault::NotAJob);
    }
    let statics = read_statics(alloc, numbers)?;
    Ok(Source {
        file,
        entry,
        statics,
    })
}

// The static values of the words.
fn read_statics(alloc: Global, words: &[&str]) -> Result<Vec<i64>, WordFault>
    ensures ok { IfOk result (λ values. statics_of (map (λ s. s.now) words.now) ≡ Some values.items) }
    ensures err { IfErr result (λ e. e ≡ WordFault.NotAJob → statics_of (map (λ s. s.now) words.now) ≡ None) }
{
    let mut values = Vec::new(alloc);
    for word in words {
        match read_number(word, 18) {
            Some(value) => push_value(&mut values, value as i64)?,
            None => return Err(WordFault::NotAJob),
        }
    }
    Ok(values)
}

// Adds a value at the end.
fn push_value(values: &mut Vec<i64>, value: i64) -> Result<(), AllocError>
    ensures { OnOk result (values.new.items ≡ values.old.items ++ value ∷ []) }
{
    values.push(value)?;
    Ok(())
}

// Adds a bit at the end.
fn push_bit(bits: &mut Vec<bool>, bit: bool) -> Result<(), AllocError>
    ensures { OnOk result (bits.new.items ≡ bits.old.items ++ bit ∷ []) }
{
    bits.push(bit)?;
    Ok(())
}

// The bits of a word.
fn read_bits(alloc: Global, word: &str) -> Result<Vec<bool>, WordFault>
    ensures ok { IfOk result (λ bits. bits_of word.now ≡ Some bits.items) }
    ensures err { IfErr result (λ e. e ≡ WordFault.NotAJob → bits_of word.now ≡ None) }
{
    if is_word(word, "none") {
        return Ok(Vec::new(alloc));
    }
    let digits = word.as_bytes();
    if digits.is_empty() || digits.len() > 4096 {
        return Err(WordFault::NotAJob);
    }
    let mut bits = Vec::new(alloc);
    for digit in digits {
        if *digit != b'0' && *digit != b'1' {
            return Err(WordFault::NotAJob);
        }
        push_bit(&mut bits, *digit == b'1')?;
    }
    Ok(bits)
}

// The budget, where the option is given no more than one word.
fn read_budget(budgets: &[&str]) -> Option<u32>
    ensures value { result ≡ budget_of (map (λ s. s.now) budgets.now) }
    ensures range { IfSome result (λ b. (0 < b) × (b ≤ 100000)) }
{
    match budgets {
        [] => Some(4096),
        [word] => value_between(read_number(word, 6)?, 100_000),
        _ => None,
    }
}

// The size of a program.
fn read_size(word: &str) -> Option<u32>
    ensures value { result ≡ size_of word.now }
    ensures range { IfSome result (λ n. (0 < n) × (n ≤ 10000)) }
{
    value_between(read_number(word, 5)?, 10_000)
}

// A value of 1 to this.
fn value_between(value: u64, high: u32) -> Option<u32>
    ensures value { result ≡ between 1 high value }
    ensures range { IfSome result (λ n. (0 < n) × (n ≤ high)) }
{
    if value < 1 || value > u64::from(high) {
        return None;
    }
    Some(value as u32)
}

// The number that a word of so many digits tells.
fn read_number(word: &str, most: usize) -> Option<u64>
    requires { most ≤ 18 }
    ensures value { result ≡ (if is_number_of most word.now then Some (number_of word.now) else None) }
    ensures small { IfSome result (λ n. n < 10 ^ 18) }
{
    let digits = word.as_bytes();
    if digits.is_empty() || digits.len() > most {
        return None;
    }
    let mut value: u64 = 0;
    for digit in digits {
        if !digit.is_ascii_digit() {
            return None;
        }
        value = value * 10 + u64::from(*digit - b'0');
    }
    Some(value)
}
