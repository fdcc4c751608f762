//! The text of a generated program.

ghost use Rattle.std.specs.Prelude.{◌≡◌, IfOk};
ghost use Rattle.std.specs.String.{string_bytes};
ghost use Rattle.silq_gen.specs.Generated.{generated};

use crate::line::{VALUES, add_line, next_value};
use std::alloc::{AllocError, Global};

/// The text of the program that a number and a size give: a function `main` of eight constant bits and a qubit, with so many
/// lines between its head and its `return`. The same number and size give the same text at each run, so that the compiler can be
/// tried on programs of any size. It fails only for want of memory.
pub fn generated(alloc: Global, number: u64, size: u32) -> Result<String, AllocError>
    ensures { IfOk result (λ text. string_bytes text ≡ generated number size) }
{
    let mut text = String::from_str(alloc, "def main(const a:B^8, x:B):B {\n")?;
    let mut value = (number % u64::from(VALUES)) as u32;
    for line in 0..size {
        value = next_value(value);
        add_line(&mut text, line, value)?;
    }
    text.push_str("return x;\n}\n")?;
    Ok(text)
}
