//! The first refusal of an item.

ghost use Rattle.std.specs.Prelude.{◌≡◌, ◌||◌, [], ◌∷◌, ◌++◌, All, IfOk, chars, drop, slice_get};
ghost use Rattle.silq_io.specs.declared.fault.What.TheVariants as what;
ghost use Rattle.silq_io.specs.declared.limit.LimitKind.TheVariants as limits;
ghost use Rattle.gate_core.specs.Circuit.{measured_bits};
ghost use Rattle.qasm_tokens.specs.Cursors.{token_of};
ghost use Rattle.qasm_read.specs.Read.{IsSpelled, operand_of, operands_of, tokens_of};
ghost use Rattle.qasm_read.specs.Refusals as spec;
ghost use Rattle.qasm_read.specs.Registers.{has};
ghost use Rattle.qasm_read.specs.Refusals.{first_refusal, refusals_of};
ghost use Rattle.qasm_read.specs.Seen.{Sees};

use crate::gate::bit_named;
use crate::operand::{Index, Operand, operands};
use crate::refusal::{Refusal, above, bad, earlier, unsupported, where_};
use crate::registers::{Bits, Registers};
use crate::state::State;
use qasm_tokens::{Kind, Token, same_kind};
use silq_io::{LimitKind, SyntaxCause, What};
use std::alloc::{AllocError, Global};
use std::collections::BTreeSet;

/// The refusal of an operand whose register or index is not there.
#[tactic(auto, using(crate::proofs::Order::first_refusals))]
fn name_refusal(registers: &Registers, operand: &Operand) -> Option<Refusal>
    ensures { result ≡ first_refusal (spec.name_refusals registers.now (operand_of operand.now)) }
{
    let known = registers.has(operand.name.text);
    let has_index = operand.index.has_index();
    let no_bit = bit_named(registers, operand).is_none();
    earlier(
        where_(!known, bad(operand.name.at, SyntaxCause::Undeclared)),
        where_(
            known && has_index && no_bit,
            bad(operand.name.at, SyntaxCause::Index),
        ),
    )
}

/// The refusal of an operand of a gate or of a measure, which has an index.
#[tactic(auto, using(crate::proofs::Order::first_refusals))]
fn operand_refusal(registers: &Registers, operand: &Operand) -> Option<Refusal>
    ensures { result ≡ first_refusal (spec.operand_refusals registers.now (operand_of operand.now)) }
{
    earlier(
        where_(
            operand.index.is_bare(),
            unsupported(operand.name.at, What::Register),
        ),
        name_refusal(registers, operand),
    )
}

/// The refusal of the operands of a barrier.
fn barrier_refusal(state: &State, operands: &[Operand]) -> Option<Refusal>
    ensures { result ≡ first_refusal (spec.barrier_refusals state.now (operands_of operands.now)) }
{
    let mut first = None;
    for operand in operands {
        first = earlier(first, name_refusal(&state.qubits, operand));
    }
    first
}

/// Puts the bit that an operand names to those seen, and says whether it was among them.
#[tactic(auto, using(crate::proofs::Seen::sees))]
fn see(seen: &mut BTreeSet<u32>, bit: Option<u32>) -> Result<bool, AllocError>
    ensures { IfOk result (λ was. Sees seen.old bit was seen.new) }
{
    match bit {
        Some(bit) => Ok(!seen.insert(bit)?),
        None => Ok(false),
    }
}

/// The refusal of the operands of a gate: none of them stands twice.
fn qubits_refusal(
    alloc: Global,
    registers: &Registers,
    operands: &[Operand],
) -> Result<Option<Refusal>, AllocError>
    ensures { IfOk result (λ r. r ≡ first_refusal (spec.qubit_refusals registers.now [] (operands_of operands.now))) }
{
    let mut seen = BTreeSet::new(alloc);
    let mut first = None;
    for operand in operands {
        let is_repeated = see(&mut seen, bit_named(registers, operand))?;
        let repeated = where_(is_repeated, bad(operand.name.at, SyntaxCause::Repeated));
        let here = operand_refusal(registers, operand);
        first = earlier(earlier(first, here), repeated);
    }
    Ok(first)
}

/// The refusal of a statement above the limit, where no Syntax stands in its item.
fn count_refusal(state: &State, whole: bool, first: &Token) -> Option<Refusal>
    ensures { result ≡ first_refusal (spec.count_refusals state.now whole (token_of first.now)) }
{
    let is_full = state.len() >= 6_000_000;
    where_(
        whole && is_full,
        above(first.at, LimitKind::Gates, 6_000_000),
    )
}

/// The refusal of a gate by its name, with the tokens behind it.
#[tactic(auto, using(crate::proofs::Order::first_refusals))]
fn gate_refusal(
    alloc: Global,
    state: &State,
    name: &Token,
    tokens: &[Token],
) -> Result<Option<Refusal>, AllocError>
    requires { All IsSpelled tokens.now }
    ensures { IfOk result (λ r. r ≡ first_refusal (spec.gate_refusals state.now (token_of name.now) (tokens_of tokens.now))) }
{
    let operands = operands(alloc, tokens)?;
    let behind = qubits_refusal(alloc, &state.qubits, &operands)?;
    let early = where_(!state.included, bad(name.at, SyntaxCause::Undeclared));
    Ok(earlier(early, behind))
}

/// Whether a bit was measured before.
fn is_remeasured(state: &State, bit: Option<u32>) -> bool
    ensures { result ≡ spec.is_among (spec.all_some (measured_bits state.now.gates)) bit }
{
    match bit {
        Some(bit) => state.is_measured(bit),
        None => false,
    }
}

/// The refusal of the bit of a measure, which was not measured before.
#[tactic(auto, using(crate::proofs::Order::first_refusals))]
fn bit_refusal(state: &State, first: &Token, operand: &Operand) -> Option<Refusal>
    ensures { result ≡ first_refusal (spec.operand_refusals state.now.bits (operand_of operand.now)
        ++ spec.where_ (spec.is_among (spec.measured state.now) (spec.bit_named state.now.bits (operand_of operand.now)))
        (spec.unsupported first.now.at what.Remeasure)) }
{
    let is_again = is_remeasured(state, bit_named(&state.bits, operand));
    let again = where_(is_again, unsupported(first.at, What::Remeasure));
    earlier(operand_refusal(&state.bits, operand), again)
}

/// The refusal of the qubit and the bit of a measure.
#[tactic(auto, using(crate::proofs::Order::first_refusals))]
fn pair_refusal(state: &State, first: &Token, qubit: &Operand, bit: &Operand) -> Option<Refusal>
    ensures { result ≡ first_refusal (spec.measure_refusals state.now (token_of first.now) (operand_of qubit.now ∷ operand_of bit.now ∷ [])) }
{
    let of_bit = bit_refusal(state, first, bit);
    earlier(operand_refusal(&state.qubits, qubit), of_bit)
}

/// The refusal of a measure's operands.
fn measure_refusal(state: &State, first: &Token, operands: &[Operand]) -> Option<Refusal>
    ensures { result ≡ first_refusal (spec.measure_refusals state.now (token_of first.now) (operands_of operands.now)) }
{
    match operands {
        [] => None,
        [qubit] => operand_refusal(&state.qubits, qubit),
        [qubit, bit, ..] => pair_refusal(state, first, qubit, bit),
    }
}

/// The refusal of a declared size: it is not 0, and all bits together are within the limit.
#[tactic(auto, using(crate::proofs::Order::first_refusals))]
fn size_refusal(
    registers: &Registers,
    whole: bool,
    first: &Token,
    which: LimitKind,
    most: u32,
    index: Index,
) -> Option<Refusal>
    ensures { result ≡ first_refusal (spec.size_refusals registers.now whole (token_of first.now) which most index) }
{
    let Index::At(at, size) = index else {
        return None;
    };
    let is_above = u64::from(registers.width()) + u64::from(size) > u64::from(most);
    earlier(
        where_(size == 0, bad(at, SyntaxCause::Index)),
        where_(whole && is_above, above(first.at, which, most)),
    )
}

/// Whether there is a register of this name, of either kind.
fn is_declared(state: &State, name: &str) -> bool
    ensures { result ≡ (has state.now.qubits (chars name.now) || has state.now.bits (chars name.now)) }
{
    let of_qubits = state.qubits.has(name);
    let of_bits = state.bits.has(name);
    of_qubits || of_bits
}

/// The refusal of the declaration of a register with this name and size.
#[tactic(auto, using(crate::proofs::Order::first_refusals))]
fn register_refusal(
    state: &State,
    registers: &Registers,
    whole: bool,
    first: &Token,
    which: LimitKind,
    most: u32,
    operand: &Operand,
) -> Option<Refusal>
    ensures { result
        ≡ first_refusal (spec.declaration_refusals state.now registers.now whole (token_of first.now) which most (operand_of operand.now ∷ [])) }
{
    let name = operand.name;
    earlier(
        where_(
            is_declared(state, name.text),
            bad(name.at, SyntaxCause::Repeated),
        ),
        size_refusal(registers, whole, first, which, most, operand.index),
    )
}

/// The refusal of a declaration, which adds to these registers.
fn declaration_refusal(
    state: &State,
    registers: &Registers,
    whole: bool,
    first: &Token,
    which: LimitKind,
    most: u32,
    operands: &[Operand],
) -> Option<Refusal>
    ensures { result
        ≡ first_refusal (spec.declaration_refusals state.now registers.now whole (token_of first.now) which most (operands_of operands.now)) }
{
    match operands {
        [operand, ..] => register_refusal(state, registers, whole, first, which, most, operand),
        [] => None,
    }
}

/// The refusal of the register of an `if`, by its name and its bits.
fn wide_refusal(first: &Token, name: &Token, bits: Option<Bits>) -> Option<Refusal>
    ensures { result ≡ first_refusal (spec.wide_refusals (token_of first.now) (token_of name.now) bits) }
{
    match bits {
        Some(bits) => where_(bits.size != 1, unsupported(first.at, What::WideIf)),
        None => Some(bad(name.at, SyntaxCause::Undeclared)),
    }
}

/// The refusal of the register of an `if`, with the tokens behind `if`.
fn condition_refusal(state: &State, first: &Token, tokens: &[Token]) -> Option<Refusal>
    ensures { result ≡ first_refusal (spec.condition_refusals state.now (token_of first.now) (slice_get (tokens_of tokens.now) 1)) }
{
    match tokens {
        [_, name, ..] => wide_refusal(first, name, state.bits.bits_of(name.text)),
        _ => None,
    }
}

/// The refusal of what an `if` holds.
fn held_refusal(
    alloc: Global,
    state: &State,
    first: &Token,
    tokens: &[Token],
) -> Result<Option<Refusal>, AllocError>
    requires { All IsSpelled tokens.now }
    ensures { IfOk result (λ r. r ≡ first_refusal (spec.held_refusals state.now (token_of first.now) (tokens_of tokens.now))) }
{
    let [word, rest @ ..] = tokens else {
        return Ok(None);
    };
    match word.kind {
        Kind::Measure | Kind::Reset | Kind::Barrier => Ok(Some(unsupported(first.at, What::If))),
        Kind::Lower | Kind::Upper => Ok(Some(unsupported(first.at, What::Gate))),
        Kind::One(_) | Kind::Cx | Kind::Cz | Kind::Ccx => gate_refusal(alloc, state, word, rest),
        _ => Ok(None),
    }
}

/// What an `if` holds: the tokens behind `(`, a name, `==`, a number and `)`.
#[tactic(auto, using(crate::proofs::Held::held))]
fn held_in<'t, 's>(tokens: &'t [Token<'s>]) -> &'t [Token<'s>]
    requires { All IsSpelled tokens.now }
    ensures held { tokens_of result.now ≡ drop 5 (tokens_of tokens.now) }
    ensures spelled { All IsSpelled result.now }
{
    match tokens {
        [_, _, _, _, _, held @ ..] => held,
        _ => &[],
    }
}

/// The refusal of an `if`, with the tokens behind it.
#[tactic(auto, using(crate::proofs::Order::first_refusals))]
fn if_refusal(
    alloc: Global,
    state: &State,
    first: &Token,
    tokens: &[Token],
) -> Result<Option<Refusal>, AllocError>
    requires { All IsSpelled tokens.now }
    ensures { IfOk result (λ r. r ≡ first_refusal (spec.if_refusals state.now (token_of first.now) (tokens_of tokens.now))) }
{
    let condition = condition_refusal(state, first, tokens);
    let held = held_refusal(alloc, state, first, held_in(tokens))?;
    Ok(earlier(condition, held))
}

/// The refusal of another file than that of the gates.
fn include_refusal(first: &Token, tokens: &[Token]) -> Option<Refusal>
    ensures { result ≡ first_refusal (spec.include_refusals (token_of first.now) (tokens_of tokens.now)) }
{
    match tokens {
        [file, ..] => where_(
            same_kind(Kind::OtherFile, file.kind),
            unsupported(first.at, What::Include),
        ),
        [] => None,
    }
}

/// The refusal of a declaration of qubits, with the tokens behind `qreg`.
fn qubits_declared_refusal(
    alloc: Global,
    state: &State,
    whole: bool,
    first: &Token,
    tokens: &[Token],
) -> Result<Option<Refusal>, AllocError>
    requires { All IsSpelled tokens.now }
    ensures { IfOk result
        (λ r. r ≡ first_refusal (spec.declaration_refusals state.now state.now.qubits whole (token_of first.now)
        limits.Qubits 100000 (spec.operands (tokens_of tokens.now)))) }
{
    let operands = operands(alloc, tokens)?;
    Ok(declaration_refusal(
        state,
        &state.qubits,
        whole,
        first,
        LimitKind::Qubits,
        100_000,
        &operands,
    ))
}

/// The refusal of a declaration of classical bits, with the tokens behind `creg`.
fn bits_declared_refusal(
    alloc: Global,
    state: &State,
    whole: bool,
    first: &Token,
    tokens: &[Token],
) -> Result<Option<Refusal>, AllocError>
    requires { All IsSpelled tokens.now }
    ensures { IfOk result
        (λ r. r ≡ first_refusal (spec.declaration_refusals state.now state.now.bits whole (token_of first.now)
        limits.Outcomes 4096 (spec.operands (tokens_of tokens.now)))) }
{
    let operands = operands(alloc, tokens)?;
    Ok(declaration_refusal(
        state,
        &state.bits,
        whole,
        first,
        LimitKind::Outcomes,
        4096,
        &operands,
    ))
}

/// The refusal of a measure as a statement, with the tokens behind `measure`.
#[tactic(auto, using(crate::proofs::Order::first_refusals))]
fn measure_item_refusal(
    alloc: Global,
    state: &State,
    whole: bool,
    first: &Token,
    tokens: &[Token],
) -> Result<Option<Refusal>, AllocError>
    requires { All IsSpelled tokens.now }
    ensures { IfOk result
        (λ r. r ≡ first_refusal (spec.measure_refusals state.now (token_of first.now) (spec.operands (tokens_of tokens.now))
        ++ spec.count_refusals state.now whole (token_of first.now))) }
{
    let operands = operands(alloc, tokens)?;
    let measure = measure_refusal(state, first, &operands);
    Ok(earlier(measure, count_refusal(state, whole, first)))
}

/// The refusal of an `if` as a statement, with the tokens behind `if`.
#[tactic(auto, using(crate::proofs::Order::first_refusals))]
fn if_item_refusal(
    alloc: Global,
    state: &State,
    whole: bool,
    first: &Token,
    tokens: &[Token],
) -> Result<Option<Refusal>, AllocError>
    requires { All IsSpelled tokens.now }
    ensures { IfOk result
        (λ r. r ≡ first_refusal (spec.if_refusals state.now (token_of first.now) (tokens_of tokens.now)
        ++ spec.count_refusals state.now whole (token_of first.now))) }
{
    let held = if_refusal(alloc, state, first, tokens)?;
    Ok(earlier(held, count_refusal(state, whole, first)))
}

/// The refusal of a gate as a statement, with the tokens behind its name.
#[tactic(auto, using(crate::proofs::Order::first_refusals))]
fn gate_item_refusal(
    alloc: Global,
    state: &State,
    whole: bool,
    first: &Token,
    tokens: &[Token],
) -> Result<Option<Refusal>, AllocError>
    requires { All IsSpelled tokens.now }
    ensures { IfOk result
        (λ r. r ≡ first_refusal (spec.gate_refusals state.now (token_of first.now) (tokens_of tokens.now)
        ++ spec.count_refusals state.now whole (token_of first.now))) }
{
    let gate = gate_refusal(alloc, state, first, tokens)?;
    Ok(earlier(gate, count_refusal(state, whole, first)))
}

/// The refusal of the operands that tokens behind `barrier` spell.
fn barrier_item_refusal(
    alloc: Global,
    state: &State,
    tokens: &[Token],
) -> Result<Option<Refusal>, AllocError>
    requires { All IsSpelled tokens.now }
    ensures { IfOk result (λ r. r ≡ first_refusal (spec.barrier_refusals state.now (spec.operands (tokens_of tokens.now)))) }
{
    let operands = operands(alloc, tokens)?;
    Ok(barrier_refusal(state, &operands))
}

/// The refusal of an item by its first token, with the tokens behind it.
fn refusal_by(
    alloc: Global,
    state: &State,
    whole: bool,
    first: &Token,
    tokens: &[Token],
) -> Result<Option<Refusal>, AllocError>
    requires { All IsSpelled tokens.now }
    ensures { IfOk result (λ r. r ≡ first_refusal (spec.refusals_by state.now whole (token_of first.now) (tokens_of tokens.now) first.now.kind)) }
{
    match first.kind {
        Kind::Include => Ok(include_refusal(first, tokens)),
        Kind::Qreg => qubits_declared_refusal(alloc, state, whole, first, tokens),
        Kind::Creg => bits_declared_refusal(alloc, state, whole, first, tokens),
        Kind::Measure => measure_item_refusal(alloc, state, whole, first, tokens),
        Kind::If => if_item_refusal(alloc, state, whole, first, tokens),
        Kind::Barrier => barrier_item_refusal(alloc, state, tokens),
        Kind::Definition => Ok(Some(unsupported(first.at, What::Definition))),
        Kind::Reset => Ok(Some(unsupported(first.at, What::Reset))),
        Kind::Lower | Kind::Upper => Ok(Some(unsupported(first.at, What::Gate))),
        Kind::One(_) | Kind::Cx | Kind::Cz | Kind::Ccx => {
            gate_item_refusal(alloc, state, whole, first, tokens)
        }
        _ => Ok(None),
    }
}

/// The first refusal of an item, by place and then by class; `whole` says that no Syntax stands
/// in the item.
#[tactic(auto, using(crate::proofs::Held::refused_first))]
pub(crate) fn refusal_of(
    alloc: Global,
    state: &State,
    whole: bool,
    tokens: &[Token],
) -> Result<Option<Refusal>, AllocError>
    requires { All IsSpelled tokens.now }
    ensures { IfOk result (λ r. r ≡ first_refusal (refusals_of state.now whole (tokens_of tokens.now))) }
{
    match tokens {
        [first, rest @ ..] => refusal_by(alloc, state, whole, first, rest),
        [] => Ok(None),
    }
}
