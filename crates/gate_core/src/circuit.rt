//! Circuits: statements over numbered qubits and classical bits.

ghost use Rattle.std.specs.Prelude.{◌≡◌, ◌≤◌, ◌<◌, ◌↔◌, ℕ, List, [], ◌∷◌, ◌++◌, length, slice_get, IsTrue, IsNone, OnOk, OnErr, Contains};
ghost use Rattle.gate_core.specs.Circuit.{Accepts, AddsAll, IsSound, measured_bits, measured_by};
ghost use Rattle.gate_core.specs.Local.{AllBelow, AllDiffer, gate_qubits};

use crate::gate::{Gate, PlainGate};
use std::alloc::{AllocError, Global};
use std::collections::BTreeSet;
use std::marker::Model;

/// A circuit: so many qubits and classical bits, and the statements in order. Each statement
/// is on different qubits, in range, and no bit is measured twice.
#[derive(Drop)]
pub struct Circuit {
    qubits: u32,
    bits: u32,
    gates: Vec<Gate>,
    measured: BTreeSet<u32>,
}

impl Model for Circuit {
    ghost use Rattle.gate_core.specs.Circuit.{CircuitForm, IsKept};

    ghost Value = { CircuitForm };

    ghost view = { λ c. record { qubits = c.qubits; bits = c.bits; gates = c.gates.items } };

    ghost invariant = { λ c. IsKept c.qubits c.bits c.gates.items c.measured.keys };
}

impl Circuit {
    /// A circuit with no statements.
    pub fn new(alloc: Global, qubits: u32, bits: u32) -> Circuit
        ensures { result ≡ record { qubits = qubits; bits = bits; gates = [] } }
    {
        Circuit {
            qubits,
            bits,
            gates: Vec::new(alloc),
            measured: BTreeSet::new(alloc),
        }
    }

    /// How many qubits.
    pub fn qubits(&self) -> u32
        ensures { result ≡ self.now.qubits }
    {
        self.qubits
    }

    /// How many classical bits.
    pub fn bits(&self) -> u32
        ensures { result ≡ self.now.bits }
    {
        self.bits
    }

    /// How many statements.
    pub fn len(&self) -> usize
        ensures count { result ≡ length self.now.gates }
        ensures sound { IsSound self.now.qubits self.now.bits self.now.gates }
    {
        self.gates.len()
    }

    /// Whether there are no statements.
    pub fn is_empty(&self) -> bool
        ensures { IsTrue result ↔ (self.now.gates ≡ []) }
    {
        self.gates.is_empty()
    }

    /// The statement with this number, counted from 0.
    pub fn gate(&self, i: usize) -> Option<Gate>
        ensures statement { result ≡ slice_get self.now.gates i }
        ensures none { IsNone result ↔ (length self.now.gates ≤ i) }
    {
        self.gates.get(i).copied()
    }

    /// Whether a statement measures into this bit.
    pub fn is_measured(&self, bit: u32) -> bool
        ensures { IsTrue result ↔ Contains (measured_bits self.now.gates) bit }
    {
        self.measured.contains(&bit)
    }

    /// The same statements on more qubits and classical bits, or as many.
    pub fn widen(&mut self, qubits: u32, bits: u32)
        requires qubits { self.old.qubits ≤ qubits }
        requires bits { self.old.bits ≤ bits }
        ensures { self.new ≡ record self.old { qubits = qubits; bits = bits } }
    {
        self.qubits = qubits;
        self.bits = bits;
    }

    /// Whether a statement may be added.
    pub fn accepts(&self, gate: Gate) -> bool
        ensures { IsTrue result ↔ Accepts self.now gate }
    {
        match gate {
            Gate::One { kind: _, q } => q < self.qubits,
            Gate::Cx { c, t } => two_fit(self.qubits, c, t),
            Gate::Cz { c, t } => two_fit(self.qubits, c, t),
            Gate::Ccx { a, b, t } => three_fit(self.qubits, a, b, t),
            Gate::Measure { q, bit } => q < self.qubits
                && bit < self.bits
                && !self.is_measured(bit),
            Gate::If {
                bit,
                value: _,
                gate,
            } => bit < self.bits && plain_fits(self.qubits, gate),
        }
    }

    /// Adds a statement at the end. It fails only where memory runs out.
    pub fn push(&mut self, gate: Gate) -> Result<(), AllocError>
        requires { Accepts self.old gate }
        ensures ok { OnOk result (self.new ≡ record self.old { gates = self.old.gates ++ gate ∷ [] }) }
        ensures err { OnErr result (self.new ≡ self.old) }
    {
        self.gates.reserve(1)?;
        add_measured(&mut self.measured, gate)?;
        self.gates.push(gate).unwrap();
        Ok(())
    }
}

// Puts the bit that a statement measures into a set, if it is a measure.
fn add_measured(measured: &mut BTreeSet<u32>, gate: Gate) -> Result<(), AllocError>
    ensures ok { OnOk result (AddsAll measured.old.keys measured.new.keys (measured_by gate)) }
    ensures err { OnErr result (measured.new.keys ≡ measured.old.keys) }
{
    if let Gate::Measure { q: _, bit } = gate {
        measured.insert(bit)?;
    }
    Ok(())
}

// Whether two qubits are below n and differ.
fn two_fit(n: u32, a: u32, b: u32) -> bool
    ensures { IsTrue result ↔ AllBelow n (a ∷ b ∷ []) × AllDiffer (a ∷ b ∷ []) }
{
    a < n && b < n && a != b
}

// Whether three qubits are below n and differ.
fn three_fit(n: u32, a: u32, b: u32, c: u32) -> bool
    ensures { IsTrue result ↔ AllBelow n (a ∷ b ∷ c ∷ []) × AllDiffer (a ∷ b ∷ c ∷ []) }
{
    two_fit(n, a, b) && two_fit(n, b, c) && a != c
}

// Whether the qubits of a gate are below n and differ.
fn plain_fits(n: u32, gate: PlainGate) -> bool
    ensures { IsTrue result ↔ AllBelow n (gate_qubits gate) × AllDiffer (gate_qubits gate) }
{
    match gate {
        PlainGate::One { kind: _, q } => q < n,
        PlainGate::Cx { c, t } => two_fit(n, c, t),
        PlainGate::Cz { c, t } => two_fit(n, c, t),
        PlainGate::Ccx { a, b, t } => three_fit(n, a, b, t),
    }
}
