//! Wires that take a qubit, and wires that give theirs back.

ghost use Rattle.std.specs.Prelude.{◌≡◌, ◌<◌, ◌≤◌, length, get_or, None, IfSome};
ghost use Rattle.qubit_alloc.specs.State.{SeatsIfAny, GivesIfAny, unless};

use crate::free::FreeQubits;
use flat_core::WireId;

/// Gives a wire the least free qubit, if there is a wire and it has none.
pub fn seat(qubits: &mut Vec<Option<u32>>, free: &mut FreeQubits, w: Option<WireId>)
    requires there { IfSome w (λ v. v.number < length qubits.old.items) }
    requires some { IfSome w (λ v. get_or qubits.old.items v.number None ≡ None → 0 < length free.old.items) }
    ensures seats { SeatsIfAny w qubits.old.items free.old.items qubits.new.items free.new.items }
    ensures rows { length qubits.new.items ≡ length qubits.old.items }
    ensures room { free.new.room ≡ free.old.room }
{
    let Some(w) = w else {
        return;
    };
    let at = w.number as usize;
    match qubits[at] {
        Some(_) => {}
        None => qubits[at] = Some(free.take_least()),
    }
}

/// Takes the qubit of a wire back, if there is a wire and it has one.
pub fn leave(qubits: &mut Vec<Option<u32>>, free: &mut FreeQubits, w: Option<WireId>)
    requires there { IfSome w (λ v. v.number < length qubits.old.items) }
    requires room { IfSome w (λ v. IfSome (get_or qubits.old.items v.number None) (λ q. length free.old.items < free.old.room)) }
    ensures gives { GivesIfAny w qubits.old.items free.old.items qubits.new.items free.new.items }
    ensures rows { length qubits.new.items ≡ length qubits.old.items }
    ensures room { free.old.room ≤ free.new.room }
{
    let Some(w) = w else {
        return;
    };
    let at = w.number as usize;
    match qubits[at] {
        Some(qubit) => {
            qubits[at] = None;
            free.add(qubit);
        }
        None => {}
    }
}

/// A wire, if there is no other one.
pub fn unless(other: Option<WireId>, w: Option<WireId>) -> Option<WireId>
    ensures { result ≡ unless other w }
{
    match other {
        Some(_) => None,
        None => w,
    }
}
