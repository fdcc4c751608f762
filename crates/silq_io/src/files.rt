//! Files that are read by name.

ghost use Rattle.std.specs.Prelude.{◌≡◌, ◌≢◌, ℕ, ◌<◌, ◌≤◌, List, [], length, Option, IsSome, Ok, IfOk, OnOk, OnErr};
ghost use Rattle.silq_io.specs.Counts.{Rose};
ghost use Rattle.silq_io.specs.Reads.{Opens, Takes, IsSpent};

use crate::fault::Failed;

/// Files that are read by name, each from its start.
pub trait Files {
    /// The bytes under a name, where that is told. No call changes them.
    ghost held: { Self → List ℕ → Option (List ℕ) };

    /// The bytes not yet taken under a name, where that is told.
    ghost left: { Self → List ℕ → Option (List ℕ) };

    /// How many faults there were under a name: a u64 that never falls.
    ghost faults: { Self → List ℕ → ℕ };

    /// Opens the file: all of its bytes are left then.
    fn begin(&mut self, name: &str) -> Result<(), Failed>
        ensures held { (other : List ℕ) → held self.new other ≡ held self.old other }
        ensures opened { OnOk result (Opens (held self.old name.now) (left self.new name.now)) }
        ensures counts { (other : List ℕ) → faults self.old other ≤ faults self.new other }
        ensures failed { OnErr result (Rose (faults self.old name.now) (faults self.new name.now)) }
        ensures others { (other : List ℕ) → other ≢ name.now → IsSome (held self.old other) → faults self.new other ≡ faults self.old other };

    /// Moves a front of what is left into the front of the buffer, and answers its length: 0 for a buffer
    /// that is not empty means that nothing is left.
    fn take(&mut self, name: &str, buf: &mut [u8]) -> Result<usize, Failed>
        ensures held { (other : List ℕ) → held self.new other ≡ held self.old other }
        ensures within { IfOk result (λ n. n ≤ length buf.old) }
        ensures taken { IfOk result (λ n. Takes (left self.old name.now) (left self.new name.now) buf.old buf.new n) }
        ensures end { 0 < length buf.old → result ≡ Ok 0 → IsSpent (left self.old name.now) }
        ensures nothing { buf.old ≡ [] → result ≡ Ok 0 }
        ensures nothing_counted { buf.old ≡ [] → (other : List ℕ) → faults self.new other ≡ faults self.old other }
        ensures counts { (other : List ℕ) → faults self.old other ≤ faults self.new other }
        ensures failed { OnErr result (Rose (faults self.old name.now) (faults self.new name.now)) }
        ensures others { (other : List ℕ) → other ≢ name.now → IsSome (held self.old other) → faults self.new other ≡ faults self.old other };

    /// What is left is told wherever the bytes are.
    ghost left_is_told: { (files : Self) (name : List ℕ) → IsSome (held files name) → IsSome (left files name) };
}
