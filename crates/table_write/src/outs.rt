//! The rows of a circuit in the order of their lines.

ghost use Rattle.std.specs.Prelude.{◌≡◌, ◌<◌, ◌^◌, ◌==◌, ◌++◌, ◌∷◌, [], All, IfOk, OnOk, if◌then◌else◌, length, map};
ghost use Rattle.std.specs.List.{list_any};
ghost use Rattle.sum_laws.specs.Table.{TableOf};
ghost use Rattle.sum_laws.specs.Terms.{pick};
ghost use Rattle.sum_laws.specs.Units.{StandsFor};
ghost use Rattle.gate_core.specs.Local.{AllBelow, AllDiffer, HasWidth};
ghost use Rattle.table_write.specs.Outs.{rest_of, shown_bits};

use std::alloc::{AllocError, Global};
use sum_laws::{BitList, Table, Terms};

// Adds a qubit that is none of the outs.
fn push_other(order: &mut Vec<u32>, outs: &[u32], qubit: u32) -> Result<(), AllocError>
    ensures { OnOk result (order.new.items ≡ order.old.items ++ (if list_any (λ out. out == qubit) outs.now then [] else qubit ∷ [])) }
{
    if outs.contains(&qubit) {
        return Ok(());
    }
    order.push(qubit)?;
    Ok(())
}

// The qubits in the order in which their bits are shown.
fn shown_order(alloc: Global, qubits: u32, outs: &[u32]) -> Result<Vec<u32>, AllocError>
    ensures { IfOk result (λ order. order.items ≡ outs.now ++ rest_of qubits outs.now) }
{
    let mut order = Vec::from_slice(alloc, outs)?;
    for qubit in 0..qubits {
        push_other(&mut order, outs, qubit)?;
    }
    Ok(order)
}

// The bits of these qubits, in their order.
fn picked(alloc: Global, order: &[u32], bits: &[bool]) -> Result<BitList, AllocError>
    requires { All (λ qubit. qubit < length bits.now) order.now }
    ensures { IfOk result (λ list. list ≡ pick order.now bits.now) }
{
    let mut list = BitList::new(alloc);
    for qubit in order {
        list.push(bits[*qubit as usize])?;
    }
    Ok(list)
}

// The rows with the bits of each in this order.
fn turned(alloc: Global, order: &[u32], table: &Table) -> Result<Terms, AllocError>
    requires { All (λ row. All (λ qubit. qubit < length row.0) order.now) table.now }
    ensures { IfOk result (λ terms. terms ≡ map (λ row. (pick order.now row.0, row.1)) table.now) }
{
    let mut terms = Terms::new(alloc);
    for i in 0..table.len() {
        let (bits, amp) = table.row(i).unwrap();
        terms.push((picked(alloc, order, bits)?, amp))?;
    }
    Ok(terms)
}

/// The table with the bits of each row in another order: those of the outs first, in their order, then those of all other qubits by number.
pub fn by_outs(alloc: Global, qubits: u32, outs: &[u32], table: &Table) -> Result<Table, AllocError>
    requires differ { AllDiffer outs.now }
    requires in_range { AllBelow qubits outs.now }
    requires wide { HasWidth qubits table.now }
    requires small { StandsFor (2 ^ 50) 50 table.now }
    ensures { IfOk result (λ t. TableOf (map (λ row. (shown_bits qubits outs.now row.0, row.1)) table.now) t) }
{
    let order = shown_order(alloc, qubits, outs)?;
    turned(alloc, &order, table)?.merged()
}
