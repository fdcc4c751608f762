//! The qubits that comment lines name.

ghost use Rattle.std.specs.Prelude.{◌≡◌, [], ◌∷◌, ◌++◌, length, option_map, flat_map, IfOk, OnOk};
ghost use Rattle.gate_core.specs.Circuit.{AddsAll};
ghost use Rattle.qasm_read.specs.Lines as spec;
ghost use Rattle.qasm_read.specs.Lines.{add_list};
ghost use Rattle.qasm_read.specs.News.{PutsNew, TellsNew};

use gate_core::{QubitList, QubitLists};
use std::alloc::{AllocError, Global};
use std::collections::BTreeSet;
use std::marker::Model;

/// The qubits that the comment lines of one kind name, a list for each line, with the set of them all.
#[derive(Drop)]
pub(crate) struct Named {
    alloc: Global,
    lists: QubitLists,
    qubits: BTreeSet<u32>,
}

impl Model for Named {
    ghost use Rattle.std.specs.Prelude.{ℕ, List};
    ghost use Rattle.qasm_read.specs.Stored.{IsNamed};

    ghost Value = { List (List ℕ) };

    ghost view = { λ n. n.lists };

    ghost invariant = { λ n. IsNamed n.lists n.qubits.keys };
}

impl Named {
    /// No lists. Takes no memory.
    pub(crate) fn new(alloc: Global) -> Named
        ensures { result ≡ [] }
    {
        Named {
            alloc,
            lists: QubitLists::new(alloc),
            qubits: BTreeSet::new(alloc),
        }
    }

    /// How many lists.
    pub(crate) fn len(&self) -> usize
        ensures { result ≡ length self.now }
    {
        self.lists.len()
    }

    /// The lists, in order.
    pub(crate) fn into_lists(self) -> QubitLists
        ensures { result ≡ self }
    {
        let Named { lists, .. } = self;
        lists
    }

    /// These qubits, where they are all new and none stands twice.
    pub(crate) fn if_new(
        &self,
        alloc: Global,
        qubits: Vec<u32>,
    ) -> Result<Option<Vec<u32>>, AllocError>
        ensures { IfOk result (λ found. option_map (λ qs. qs.items) found ≡ spec.if_new self.now qubits.items) }
    {
        if self.are_new(alloc, &qubits)? {
            Ok(Some(qubits))
        } else {
            Ok(None)
        }
    }

    /// Whether all these qubits are new and none stands twice.
    pub(crate) fn are_new(&self, alloc: Global, qubits: &[u32]) -> Result<bool, AllocError>
        ensures { IfOk result (λ new. new ≡ spec.are_new (flat_map (λ l. l) self.now) qubits.now) }
    {
        are_new(alloc, &self.qubits, qubits)
    }

    /// Adds the list that a line gives, if any. It fails only where memory runs out; all lists are gone then.
    pub(crate) fn add(&mut self, qubits: Option<Vec<u32>>) -> Result<(), AllocError>
        ensures { OnOk result (self.new ≡ add_list self.old (option_map (λ qs. qs.items) qubits)) }
    {
        match qubits {
            Some(qubits) => self.push(&qubits),
            None => Ok(()),
        }
    }

    /// Adds a list at the end. It fails only where memory runs out; all lists are gone then.
    fn push(&mut self, qubits: &[u32]) -> Result<(), AllocError>
        ensures { OnOk result (self.new ≡ self.old ++ qubits.now ∷ []) }
    {
        match put_list(self.alloc, &mut self.lists, &mut self.qubits, qubits) {
            Ok(()) => Ok(()),
            Err(error) => {
                self.lists = QubitLists::new(self.alloc);
                self.qubits.clear();
                Err(error)
            }
        }
    }
}

/// Puts a qubit of a line into the set of those that the line has so far. Whether it is new there and among those seen before.
fn put_new(seen: &BTreeSet<u32>, line: &mut BTreeSet<u32>, qubit: u32) -> Result<bool, AllocError>
    ensures { IfOk result (λ new. PutsNew new seen.now.keys line.old.keys qubit line.new.keys) }
{
    if seen.contains(&qubit) {
        return Ok(false);
    }
    Ok(line.insert(qubit)?)
}

/// Whether none of these qubits was seen before, and none stands twice.
fn are_new(alloc: Global, seen: &BTreeSet<u32>, qubits: &[u32]) -> Result<bool, AllocError>
    ensures { IfOk result (λ new. TellsNew seen.now.keys qubits.now new) }
{
    let mut line = BTreeSet::new(alloc);
    for qubit in qubits {
        if !put_new(seen, &mut line, *qubit)? {
            return Ok(false);
        }
    }
    Ok(true)
}

/// Puts qubits into a set.
fn put_all(set: &mut BTreeSet<u32>, qubits: &[u32]) -> Result<(), AllocError>
    ensures { OnOk result (AddsAll set.old.keys set.new.keys qubits.now) }
{
    for qubit in qubits {
        set.insert(*qubit)?;
    }
    Ok(())
}

/// A list of these qubits.
fn list_of(alloc: Global, qubits: &[u32]) -> Result<QubitList, AllocError>
    ensures { IfOk result (λ list. list ≡ qubits.now) }
{
    let mut list = QubitList::new(alloc);
    for qubit in qubits {
        list.push(*qubit)?;
    }
    Ok(list)
}

/// Adds a list at the end, and its qubits to the set.
fn put_list(
    alloc: Global,
    lists: &mut QubitLists,
    set: &mut BTreeSet<u32>,
    qubits: &[u32],
) -> Result<(), AllocError>
    ensures set { OnOk result (AddsAll set.old.keys set.new.keys qubits.now) }
    ensures list { OnOk result (lists.new ≡ lists.old ++ qubits.now ∷ []) }
{
    put_all(set, qubits)?;
    let list = list_of(alloc, qubits)?;
    lists.push(list)
}
