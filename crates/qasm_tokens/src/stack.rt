//! The symbols that are expected at a place, as a stack: the next one stands last.

ghost use Rattle.std.specs.Prelude.{◌≡◌, ◌++◌, reverse, IfOk, OnOk};
ghost use Rattle.grammar_core.specs.Table.{may_stop};
ghost use Rattle.qasm_tokens.specs.Table.{table};
ghost use Rattle.qasm_tokens.specs.Stacks.{Steps};

use crate::kind::Kind;
use crate::symbol::Symbol;
use std::alloc::AllocError;

/// Puts symbols in front of those that are expected.
pub(crate) fn put(stack: &mut Vec<Symbol>, symbols: &[Symbol]) -> Result<(), AllocError>
    ensures { OnOk result (reverse stack.new.items ≡ symbols.now ++ reverse stack.old.items) }
{
    let mut left = symbols;
    while let Some((last, rest)) = left.split_last() {
        stack.push(*last)?;
        left = rest;
    }
    Ok(())
}

/// Goes on behind a token. Whether it may come here; if not, the stack is of no further use.
pub(crate) fn step(stack: &mut Vec<Symbol>, kind: Kind) -> Result<bool, AllocError>
    ensures { IfOk result (λ may_come. Steps (reverse stack.old.items) kind may_come (reverse stack.new.items)) }
{
    while let Some(symbol) = stack.pop() {
        if let Some(symbols) = symbol.begin(kind) {
            put(stack, symbols)?;
            return Ok(true);
        }
        if !symbol.can_be_empty() {
            return Ok(false);
        }
    }
    Ok(false)
}

/// Whether nothing more has to come.
pub(crate) fn may_stop(stack: &[Symbol]) -> bool
    ensures { result ≡ may_stop table (reverse stack.now) }
{
    stack.iter().all(|symbol| symbol.can_be_empty())
}
