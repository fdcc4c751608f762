//! The free qubits, of which the least is taken first.

ghost use Rattle.std.specs.Prelude.{◌≡◌, ◌∷◌, [], ◌<◌, ◌≤◌, length, IfOk, All};
ghost use Rattle.std.specs.List.Sorted.{IsPermutation};

use std::alloc::{AllocError, Global};
use std::cmp::Reverse;
use std::collections::BinaryHeap;
use std::marker::Model;

/// The qubits on which no wire stands.
#[derive(Drop)]
pub struct FreeQubits {
    heap: BinaryHeap<Reverse<u32>>,
}

impl Model for FreeQubits {
    ghost use Rattle.std.specs.Prelude.{map};
    ghost use Rattle.std.specs.BinaryHeap.{heap_items, heap_capacity, IsHeap};
    ghost use Rattle.std.specs.Ordering.{nat_cmp};
    ghost use Rattle.qubit_alloc.specs.Free.{FreeList};

    ghost Value = { FreeList };

    ghost view = { λ q. record { items = map (λ x. x.0) (heap_items q.heap); room = heap_capacity q.heap } };

    ghost invariant = { λ q. IsHeap (λ x y. nat_cmp y.0 x.0) (heap_items q.heap) };
}

impl FreeQubits {
    /// None, with room for so many.
    pub fn with_room(alloc: Global, room: usize) -> Result<FreeQubits, AllocError>
        ensures items { IfOk result (λ q. q.items ≡ []) }
        ensures room { IfOk result (λ q. room ≤ q.room) }
    {
        let heap = BinaryHeap::with_capacity(alloc, room)?;
        Ok(FreeQubits { heap })
    }

    /// Adds a qubit, for which there is room.
    pub fn add(&mut self, qubit: u32)
        requires { length self.old.items < self.old.room }
        ensures items { IsPermutation (qubit ∷ self.old.items) self.new.items }
        ensures room { self.old.room ≤ self.new.room }
    {
        let _ = self.heap.push(Reverse(qubit));
    }

    /// Takes the least qubit out.
    pub fn take_least(&mut self) -> u32
        requires { 0 < length self.old.items }
        ensures items { IsPermutation self.old.items (result ∷ self.new.items) }
        ensures least { All (λ x. result ≤ x) self.old.items }
        ensures room { self.new.room ≡ self.old.room }
    {
        let Some(Reverse(qubit)) = self.heap.pop() else {
            return 0;
        };
        qubit
    }
}
