//! The gates that the tokens of an item spell.

ghost use Rattle.std.specs.Prelude.{◌≡◌, ◌^◌, ◌<◌, Some, IfOk, filter_map};
ghost use Rattle.gate_core.specs.Local.{as_gate};
ghost use Rattle.qasm_tokens.specs.Cursors.{token_of};
ghost use Rattle.qasm_read.specs.Read.{IsSpelled, operand_of, operands_of};
ghost use Rattle.qasm_read.specs.Refusals.{bit_named};
ghost use Rattle.qasm_read.specs.Statements as spec;

use crate::operand::{Index, Operand};
use crate::registers::{Bits, Registers};
use gate_core::{Gate, PlainGate};
use qasm_tokens::{Kind, Token, number, same_kind};
use std::alloc::{AllocError, Global};

/// The bit that an operand names.
pub(crate) fn bit_named(registers: &Registers, operand: &Operand) -> Option<u32>
    ensures { result ≡ bit_named registers.now (operand_of operand.now) }
{
    match operand.index {
        Index::At(_, index) => registers.bit_of(operand.name.text, u64::from(index)),
        _ => None,
    }
}

/// The bits that operands name.
pub(crate) fn bits_named(
    alloc: Global,
    registers: &Registers,
    operands: &[Operand],
) -> Result<Vec<u32>, AllocError>
    ensures { IfOk result (λ found. found.items ≡ filter_map (λ o. bit_named registers.now o) (operands_of operands.now)) }
{
    let mut found = Vec::new(alloc);
    for operand in operands {
        if let Some(bit) = bit_named(registers, operand) {
            found.push(bit)?;
        }
    }
    Ok(found)
}

/// A gate by the kind of its name and its qubits.
pub(crate) fn plain_of(kind: Kind, qubits: &[u32]) -> Option<PlainGate>
    ensures { result ≡ spec.plain_of kind qubits.now }
{
    match (kind, qubits) {
        (Kind::One(kind), [q]) => Some(PlainGate::One { kind, q: *q }),
        (Kind::Cx, [c, t]) => Some(PlainGate::Cx { c: *c, t: *t }),
        (Kind::Cz, [c, t]) => Some(PlainGate::Cz { c: *c, t: *t }),
        (Kind::Ccx, [a, b, t]) => Some(PlainGate::Ccx {
            a: *a,
            b: *b,
            t: *t,
        }),
        _ => None,
    }
}

/// A plain gate as a statement.
pub(crate) fn as_gate(gate: PlainGate) -> Gate
    ensures { result ≡ as_gate gate }
{
    match gate {
        PlainGate::One { kind, q } => Gate::One { kind, q },
        PlainGate::Cx { c, t } => Gate::Cx { c, t },
        PlainGate::Cz { c, t } => Gate::Cz { c, t },
        PlainGate::Ccx { a, b, t } => Gate::Ccx { a, b, t },
    }
}

/// The number that a token spells.
pub(crate) fn value_of(token: &Token) -> Option<u32>
    requires { IsSpelled token.now }
    ensures { result ≡ spec.value_of (Some (token_of token.now)) }
{
    if same_kind(Kind::Number, token.kind) {
        Some(number(token.text))
    } else {
        None
    }
}

/// The statement that holds a gate where a bit has a value.
pub(crate) fn if_from(
    bits: Option<Bits>,
    value: Option<u32>,
    gate: Option<PlainGate>,
) -> Option<Gate>
    ensures { result ≡ spec.if_from bits value gate }
{
    let bit = bits?.first;
    let value = u64::from(value?);
    let gate = gate?;
    Some(Gate::If { bit, value, gate })
}
