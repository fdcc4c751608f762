//! Lists of lists of qubits.

ghost use Rattle.std.specs.Prelude.{◌≡◌, ◌↔◌, ◌≤◌, ℕ, List, [], ◌∷◌, ◌++◌, length, slice_get, IsTrue, IsNone, OnOk, OnErr, option_copied};

use std::alloc::{AllocError, Global};
use std::marker::Model;

/// A list of qubits, by their numbers.
#[derive(Drop)]
pub struct QubitList {
    qubits: Vec<u32>,
}

impl Model for QubitList {
    ghost Value = { List ℕ };

    ghost view = { λ l. l.qubits.items };
}

impl QubitList {
    /// No qubits.
    pub fn new(alloc: Global) -> QubitList
        ensures { result ≡ [] }
    {
        QubitList {
            qubits: Vec::new(alloc),
        }
    }

    /// How many qubits.
    pub fn len(&self) -> usize
        ensures { result ≡ length self.now }
    {
        self.qubits.len()
    }

    /// Whether there are none.
    pub fn is_empty(&self) -> bool
        ensures { IsTrue result ↔ (self.now ≡ []) }
    {
        self.qubits.is_empty()
    }

    /// The qubit at a place, counted from 0.
    pub fn get(&self, i: usize) -> Option<&u32>
        ensures qubit { option_copied result ≡ slice_get self.now i }
        ensures none { IsNone result ↔ (length self.now ≤ i) }
    {
        self.qubits.get(i)
    }

    /// The qubits.
    pub fn as_slice(&self) -> &[u32]
        ensures { result.now ≡ self.now }
    {
        self.qubits.as_slice()
    }

    /// Adds a qubit at the end. It fails only where memory runs out.
    pub fn push(&mut self, qubit: u32) -> Result<(), AllocError>
        ensures ok { OnOk result (self.new ≡ self.old ++ qubit ∷ []) }
        ensures err { OnErr result (self.new ≡ self.old) }
    {
        self.qubits.push(qubit)?;
        Ok(())
    }
}

/// A list of lists of qubits, as one list for each parameter of a program.
#[derive(Drop)]
pub struct QubitLists {
    lists: Vec<QubitList>,
}

impl Model for QubitLists {
    ghost Value = { List (List ℕ) };

    ghost view = { λ l. l.lists.items };
}

impl QubitLists {
    /// No lists.
    pub fn new(alloc: Global) -> QubitLists
        ensures { result ≡ [] }
    {
        QubitLists {
            lists: Vec::new(alloc),
        }
    }

    /// How many lists.
    pub fn len(&self) -> usize
        ensures { result ≡ length self.now }
    {
        self.lists.len()
    }

    /// Whether there are none.
    pub fn is_empty(&self) -> bool
        ensures { IsTrue result ↔ (self.now ≡ []) }
    {
        self.lists.is_empty()
    }

    /// The list at a place, counted from 0.
    pub fn get(&self, i: usize) -> Option<&QubitList>
        ensures list { option_copied result ≡ slice_get self.now i }
        ensures none { IsNone result ↔ (length self.now ≤ i) }
    {
        self.lists.get(i)
    }

    /// The lists.
    pub fn as_slice(&self) -> &[QubitList]
        ensures { result.now ≡ self.now }
    {
        self.lists.as_slice()
    }

    /// Adds a list at the end. It fails only where memory runs out, and then the list is dropped.
    pub fn push(&mut self, list: QubitList) -> Result<(), AllocError>
        ensures ok { OnOk result (self.new ≡ self.old ++ list ∷ []) }
        ensures err { OnErr result (self.new ≡ self.old) }
    {
        self.lists.push(list)?;
        Ok(())
    }
}
