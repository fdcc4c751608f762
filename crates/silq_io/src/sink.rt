//! Sinks that take bytes.

ghost use Rattle.std.specs.Prelude.{◌≡◌, ℕ, ◌<◌, ◌≤◌, List, [], length, take, Option, Ok, IfOk, OnOk, OnErr};
ghost use Rattle.silq_io.specs.Counts.{Rose};
ghost use Rattle.silq_io.specs.Sinks.{Adds, Breaks};

use crate::fault::Failed;

/// What takes bytes.
pub trait Sink {
    /// The bytes taken so far, where that is told.
    ghost put_so_far: { Self → Option (List ℕ) };

    /// How many faults there were: a u64 that never falls.
    ghost faults: { Self → ℕ };

    /// Takes a front of the bytes, at least one where there is one, and answers how many.
    fn put(&mut self, bytes: &[u8]) -> Result<usize, Failed>
        ensures within { IfOk result (λ n. n ≤ length bytes.now) }
        ensures some { 0 < length bytes.now → IfOk result (λ n. 0 < n) }
        ensures added { IfOk result (λ n. Adds (put_so_far self.old) (put_so_far self.new) (take n bytes.now)) }
        ensures nothing { bytes.now ≡ [] → result ≡ Ok 0 }
        ensures nothing_counted { bytes.now ≡ [] → faults self.new ≡ faults self.old }
        ensures count { faults self.old ≤ faults self.new }
        ensures failed { OnErr result (Rose (faults self.old) (faults self.new)) }
        ensures kept { OnErr result (Adds (put_so_far self.old) (put_so_far self.new) []) };
}

/// Puts all of the bytes, in as many pieces as the sink takes.
pub fn put_all<S: Sink>(out: &mut S, bytes: &[u8]) -> Result<(), Failed>
    ensures ok { OnOk result (Adds (S.put_so_far out.old) (S.put_so_far out.new) bytes.now) }
    ensures count { S.faults out.old ≤ S.faults out.new }
    ensures failed { OnErr result (Rose (S.faults out.old) (S.faults out.new)) }
    ensures broken { OnErr result (Breaks (S.put_so_far out.old) (S.put_so_far out.new) bytes.now) }
{
    let mut done = 0;
    while done < bytes.len() {
        done += out.put(&bytes[done..])?;
    }
    Ok(())
}
