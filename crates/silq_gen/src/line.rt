//! The lines of a generated program, each by the value that it has.

ghost use Rattle.std.specs.Prelude.{◌≡◌, ◌<◌, ◌++◌, IfOk};
ghost use Rattle.std.specs.String.{string_bytes};
ghost use Rattle.silq_gen.specs.Generated.{next_value, first_bit, second_bit, hadamard_line, flip_line, phase_line, controlled_line, line_text};

use std::alloc::AllocError;

/// Values are below this number.
pub const VALUES: u32 = 65_536;

// Bits that the parameter `a` has.
const BITS: u32 = 8;

// Kinds of lines.
const KINDS: u32 = 4;

/// The value behind this one.
pub fn next_value(value: u32) -> u32
    requires { value < VALUES }
    ensures next { result ≡ next_value value }
    ensures below { result < VALUES }
{
    (value * 25_173 + 13_849) % VALUES
}

// The bit of `a` that a value names first.
fn first_bit(value: u32) -> u32
    ensures { result ≡ first_bit value }
{
    value % BITS
}

// The other bit of `a` that a value names.
fn second_bit(value: u32) -> u32
    ensures { result ≡ second_bit value }
{
    let first = first_bit(value);
    let second = value / BITS % BITS;
    if second == first {
        (first + 1) % BITS
    } else {
        second
    }
}

// Adds a line with a Hadamard gate.
fn add_hadamard(text: &mut String) -> Result<(), AllocError>
    ensures { IfOk result (λ _. string_bytes text.new ≡ string_bytes text.old ++ hadamard_line) }
{
    text.push_str("x := H(x);\n")
}

// Adds a line that flips `x` where both bits of `a` are set.
fn add_flip(text: &mut String, line: u32, first: u32, second: u32) -> Result<(), AllocError>
    ensures { IfOk result (λ _. string_bytes text.new ≡ string_bytes text.old ++ flip_line line first second) }
{
    writeln!(
        text,
        "t{line} := a[{first}] && a[{second}]; if t{line} {{ x := X(x); }}"
    )
}

// Adds a line with a phase where the bit of `a` is set.
fn add_phase(text: &mut String, bit: u32) -> Result<(), AllocError>
    ensures { IfOk result (λ _. string_bytes text.new ≡ string_bytes text.old ++ phase_line bit) }
{
    writeln!(text, "if a[{bit}] {{ phase(pi/4); }}")
}

// Adds a line with a Hadamard gate where the bit of `a` is set.
fn add_controlled(text: &mut String, bit: u32) -> Result<(), AllocError>
    ensures { IfOk result (λ _. string_bytes text.new ≡ string_bytes text.old ++ controlled_line bit) }
{
    writeln!(text, "if a[{bit}] {{ x := H(x); }}")
}

/// Adds the line with this number, whose value this is.
pub fn add_line(text: &mut String, line: u32, value: u32) -> Result<(), AllocError>
    ensures { IfOk result (λ _. string_bytes text.new ≡ string_bytes text.old ++ line_text line value) }
{
    let bit = first_bit(value);
    // The digits above those of the two bits tell the kind of line.
    match value / (BITS * BITS) % KINDS {
        0 => add_hadamard(text),
        1 => add_flip(text, line, bit, second_bit(value)),
        2 => add_phase(text, bit),
        _ => add_controlled(text, bit),
    }
}
