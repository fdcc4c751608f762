//! What an item that is not refused does.

ghost use Rattle.std.specs.Prelude.{◌≡◌, ◌^◌, ◌<◌, ◌++◌, [], true, All, IfOk, OnErr, OnOk, filter_map};
ghost use Rattle.qasm_read.specs.Read.{IsSpelled, operands_of, tokens_of};
ghost use Rattle.qasm_read.specs.Refusals as refusals;
ghost use Rattle.qasm_read.specs.Refusals.{bit_named, refusals_of};
ghost use Rattle.qasm_read.specs.Added.{MayAdd, gate_behind};
ghost use Rattle.qasm_read.specs.Declarations.{MayDeclare};
ghost use Rattle.qasm_read.specs.Statements as spec;
ghost use Rattle.qasm_read.specs.Statements.{after, declared_by};

use crate::gate::{as_gate, bit_named, bits_named, if_from, plain_of, value_of};
use crate::operand::{Index, Operand, operands};
use crate::registers::Registers;
use crate::state::State;
use gate_core::{Gate, PlainGate};
use qasm_tokens::{Kind, Token};
use std::alloc::{AllocError, Global};

/// Adds the register that the first of these operands declares.
fn declare<'s>(registers: &mut Registers<'s>, operands: &[Operand<'s>]) -> Result<(), AllocError>
    requires { MayDeclare registers.old (operands_of operands.now) }
    ensures ok { OnOk result (registers.new ≡ registers.old ++ declared_by (operands_of operands.now)) }
    ensures err { OnErr result (registers.new ≡ registers.old) }
{
    let [operand, ..] = operands else {
        return Ok(());
    };
    match operand.index {
        Index::At(_, size) => registers.declare(operand.name.text, size),
        _ => Ok(()),
    }
}

impl<'s> State<'s> {
    /// The gate whose name has this kind, with the tokens behind the name.
    fn plain_from(
        &self,
        alloc: Global,
        kind: Kind,
        tokens: &[Token],
    ) -> Result<Option<PlainGate>, AllocError>
        requires { All IsSpelled tokens.now }
        ensures { IfOk result (λ gate. gate ≡ spec.plain_of kind (filter_map (λ o. bit_named self.now.qubits o) (refusals.operands (tokens_of tokens.now)))) }
    {
        let operands = operands(alloc, tokens)?;
        let qubits = bits_named(alloc, &self.qubits, &operands)?;
        Ok(plain_of(kind, &qubits))
    }

    /// The measurement of the first of two operands into the second.
    fn measure_of(&self, operands: &[Operand]) -> Option<Gate>
        ensures { result ≡ spec.measure_of self.now (operands_of operands.now) }
    {
        match operands {
            [q, c] => {
                let q = bit_named(&self.qubits, q)?;
                let bit = bit_named(&self.bits, c)?;
                Some(Gate::Measure { q, bit })
            }
            _ => None,
        }
    }

    /// The statement that the tokens behind an `if` spell.
    fn if_of(&self, alloc: Global, tokens: &[Token]) -> Result<Option<Gate>, AllocError>
        requires { All IsSpelled tokens.now }
        ensures { IfOk result (λ gate. gate ≡ spec.if_of self.now (tokens_of tokens.now)) }
    {
        let [_, name, _, value, _, word, rest @ ..] = tokens else {
            return Ok(None);
        };
        let gate = self.plain_from(alloc, word.kind, rest)?;
        Ok(if_from(self.bits.bits_of(name.text), value_of(value), gate))
    }

    /// Adds a statement, where there is one.
    fn add(&mut self, gate: Option<Gate>) -> Result<(), AllocError>
        requires { MayAdd self.old gate }
        ensures { OnOk result (self.new ≡ spec.with_gate self.old gate) }
    {
        match gate {
            Some(gate) => self.circuit.push(gate),
            None => Ok(()),
        }
    }

    /// Adds the gate whose name has this kind, with the tokens behind the name.
    fn add_plain(&mut self, alloc: Global, kind: Kind, tokens: &[Token]) -> Result<(), AllocError>
        requires spelled { All IsSpelled tokens.now }
        requires accepted { MayAdd self.old (gate_behind self.old kind (tokens_of tokens.now)) }
        ensures { OnOk result (self.new ≡ spec.with_gate self.old (gate_behind self.old kind (tokens_of tokens.now))) }
    {
        let gate = self.plain_from(alloc, kind, tokens)?;
        self.add(gate.map(|gate| as_gate(gate)))
    }

    /// Adds the measurement that the tokens behind `measure` spell.
    fn add_measure(&mut self, alloc: Global, tokens: &[Token]) -> Result<(), AllocError>
        requires spelled { All IsSpelled tokens.now }
        requires accepted { MayAdd self.old (spec.measure_of self.old (refusals.operands (tokens_of tokens.now))) }
        ensures { OnOk result (self.new ≡ spec.with_gate self.old (spec.measure_of self.old (refusals.operands (tokens_of tokens.now)))) }
    {
        let operands = operands(alloc, tokens)?;
        let gate = self.measure_of(&operands);
        self.add(gate)
    }

    /// Adds the statement that the tokens behind `if` spell.
    fn add_if(&mut self, alloc: Global, tokens: &[Token]) -> Result<(), AllocError>
        requires spelled { All IsSpelled tokens.now }
        requires accepted { MayAdd self.old (spec.if_of self.old (tokens_of tokens.now)) }
        ensures { OnOk result (self.new ≡ spec.with_gate self.old (spec.if_of self.old (tokens_of tokens.now))) }
    {
        let gate = self.if_of(alloc, tokens)?;
        self.add(gate)
    }

    /// Adds the register of qubits that the tokens behind `qreg` declare.
    fn declare_qubits(&mut self, alloc: Global, tokens: &[Token<'s>]) -> Result<(), AllocError>
        requires spelled { All IsSpelled tokens.now }
        requires allowed { MayDeclare self.old.qubits (refusals.operands (tokens_of tokens.now)) }
        ensures { OnOk result (self.new ≡ record self.old { qubits = self.old.qubits ++ declared_by (refusals.operands (tokens_of tokens.now)) }) }
    {
        let operands = operands(alloc, tokens)?;
        declare(&mut self.qubits, &operands)?;
        self.circuit.widen(self.qubits.width(), self.bits.width());
        Ok(())
    }

    /// Adds the register of classical bits that the tokens behind `creg` declare.
    fn declare_bits(&mut self, alloc: Global, tokens: &[Token<'s>]) -> Result<(), AllocError>
        requires spelled { All IsSpelled tokens.now }
        requires allowed { MayDeclare self.old.bits (refusals.operands (tokens_of tokens.now)) }
        ensures { OnOk result (self.new ≡ record self.old { bits = self.old.bits ++ declared_by (refusals.operands (tokens_of tokens.now)) }) }
    {
        let operands = operands(alloc, tokens)?;
        declare(&mut self.bits, &operands)?;
        self.circuit.widen(self.qubits.width(), self.bits.width());
        Ok(())
    }

    /// Does what a whole item without a refusal says. It fails only where memory runs out; the
    /// state is of no further use then.
    pub(crate) fn apply(&mut self, alloc: Global, tokens: &[Token<'s>]) -> Result<(), AllocError>
        requires spelled { All IsSpelled tokens.now }
        requires allowed { refusals_of self.old true (tokens_of tokens.now) ≡ [] }
        ensures { OnOk result (self.new ≡ after self.old (tokens_of tokens.now)) }
    {
        let [first, rest @ ..] = tokens else {
            return Ok(());
        };
        match first.kind {
            Kind::Include => {
                self.included = true;
                Ok(())
            }
            Kind::Qreg => self.declare_qubits(alloc, rest),
            Kind::Creg => self.declare_bits(alloc, rest),
            Kind::Measure => self.add_measure(alloc, rest),
            Kind::If => self.add_if(alloc, rest),
            Kind::One(_) | Kind::Cx | Kind::Cz | Kind::Ccx => {
                self.add_plain(alloc, first.kind, rest)
            }
            _ => Ok(()),
        }
    }
}
