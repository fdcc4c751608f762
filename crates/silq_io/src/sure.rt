//! Files and a sink that never fail and take no memory.

ghost use Rattle.std.specs.Prelude.{◌≡◌, ◌≢◌, ◌+◌, ◌-◌, ◌^◌, ◌<◌, ◌≤◌, ◌++◌, ℕ, List, [], length, min, take, drop, Some, Ok, IsOk, IfOk, OnOk, OnErr, IsSome, refl};
ghost use Rattle.silq_io.specs.Counts.{Rose};
ghost use Rattle.silq_io.specs.Reads.{Opens, Takes, IsSpent};
ghost use Rattle.silq_io.specs.Sinks.{Adds};
ghost use Rattle.silq_io.specs.Sure.{sure_held, sure_left, sure_faults, fitted, row_faults, poured};

use crate::fault::Failed;
use crate::files::Files;
use crate::sink::Sink;
use std::marker::Model;

/// The same bytes under every name, with one place for all names, which stands at the start. No call fails.
#[derive(Drop)]
pub struct SureFiles<'a> {
    bytes: &'a [u8],
    left: &'a [u8],
}

impl<'a> Model for SureFiles<'a> {
    ghost use Rattle.silq_io.specs.Sure.{SureStore};

    ghost Value = { SureStore };

    ghost view = { λ f. record { bytes = f.bytes.now; left = f.left.now } };
}

impl<'a> SureFiles<'a> {
    /// These bytes, all of them left.
    pub fn new(bytes: &'a [u8]) -> SureFiles<'a>
        ensures { result ≡ record { bytes = bytes.now; left = bytes.now } }
    {
        SureFiles { bytes, left: bytes }
    }
}

impl Files for SureFiles<'_> {
    ghost held = { sure_held };

    ghost left = { sure_left };

    ghost faults = { sure_faults };

    fn begin(&mut self, _name: &str) -> Result<(), Failed>
        ensures sure { IsOk result }
        ensures after { self.new ≡ record self.old { left = self.old.bytes } }
        ensures held { (other : List ℕ) → sure_held self.new other ≡ sure_held self.old other }
        ensures opened { OnOk result (Opens (sure_held self.old _name.now) (sure_left self.new _name.now)) }
        ensures counts { (other : List ℕ) → sure_faults self.old other ≤ sure_faults self.new other }
        ensures failed { OnErr result (Rose (sure_faults self.old _name.now) (sure_faults self.new _name.now)) }
        ensures others { (other : List ℕ) → other ≢ _name.now → IsSome (sure_held self.old other) → sure_faults self.new other ≡ sure_faults self.old other }
    {
        self.left = self.bytes;
        Ok(())
    }

    fn take(&mut self, _name: &str, buf: &mut [u8]) -> Result<usize, Failed>
        ensures sure { result ≡ Ok (min (length buf.old) (length self.old.left)) }
        ensures bytes { IfOk result (λ n. buf.new ≡ take n self.old.left ++ drop n buf.old) }
        ensures after { self.new ≡ record self.old { left = drop (length buf.old) self.old.left } }
        ensures held { (other : List ℕ) → sure_held self.new other ≡ sure_held self.old other }
        ensures within { IfOk result (λ n. n ≤ length buf.old) }
        ensures taken { IfOk result (λ n. Takes (sure_left self.old _name.now) (sure_left self.new _name.now) buf.old buf.new n) }
        ensures end { 0 < length buf.old → result ≡ Ok 0 → IsSpent (sure_left self.old _name.now) }
        ensures nothing { buf.old ≡ [] → result ≡ Ok 0 }
        ensures nothing_counted { buf.old ≡ [] → (other : List ℕ) → sure_faults self.new other ≡ sure_faults self.old other }
        ensures counts { (other : List ℕ) → sure_faults self.old other ≤ sure_faults self.new other }
        ensures failed { OnErr result (Rose (sure_faults self.old _name.now) (sure_faults self.new _name.now)) }
        ensures others { (other : List ℕ) → other ≢ _name.now → IsSome (sure_held self.old other) → sure_faults self.new other ≡ sure_faults self.old other }
    {
        let count = self.left.len().min(buf.len());
        buf[..count].copy_from_slice(&self.left[..count]);
        self.left = &self.left[count..];
        Ok(count)
    }

    ghost left_is_told = { λ _ _ _. refl };
}

/// A row that keeps the bytes that fit, in order, and counts the rest. No put fails.
#[derive(Drop)]
pub struct SureSink<'a> {
    row: &'a mut [u8],
    kept: usize,
    rest: u64,
}

impl<'a> Model for SureSink<'a> {
    ghost use Rattle.std.specs.Prelude.{◌≤◌, length, take};
    ghost use Rattle.silq_io.specs.Sure.{SureRow};

    ghost Value = { SureRow };

    ghost view = { λ s. record { bytes = take s.kept s.row.now; room = length s.row.now; rest = s.rest } };

    ghost invariant = { λ s. s.kept ≤ length s.row.now };
}

impl<'a> SureSink<'a> {
    /// An empty sink over this row.
    pub fn new(row: &'a mut [u8]) -> SureSink<'a>
        ensures { result ≡ record { bytes = []; room = length row.old; rest = 0 } }
    {
        SureSink {
            row,
            kept: 0,
            rest: 0,
        }
    }

    /// The bytes that fitted.
    pub fn bytes(&self) -> &[u8]
        ensures { result.now ≡ self.now.bytes }
    {
        &self.row[..self.kept]
    }

    /// How many bytes did not fit, up to the greatest u64.
    pub fn rest(&self) -> u64
        ensures { result ≡ self.now.rest }
    {
        self.rest
    }
}

impl Sink for SureSink<'_> {
    ghost put_so_far = { fitted };

    ghost faults = { row_faults };

    fn put(&mut self, bytes: &[u8]) -> Result<usize, Failed>
        ensures sure { result ≡ Ok (length bytes.now) }
        ensures after { self.new ≡ poured self.old bytes.now }
        ensures within { IfOk result (λ n. n ≤ length bytes.now) }
        ensures some { 0 < length bytes.now → IfOk result (λ n. 0 < n) }
        ensures added { IfOk result (λ n. Adds (fitted self.old) (fitted self.new) (take n bytes.now)) }
        ensures nothing { bytes.now ≡ [] → result ≡ Ok 0 }
        ensures nothing_counted { bytes.now ≡ [] → row_faults self.new ≡ row_faults self.old }
        ensures count { row_faults self.old ≤ row_faults self.new }
        ensures failed { OnErr result (Rose (row_faults self.old) (row_faults self.new)) }
        ensures kept { OnErr result (Adds (fitted self.old) (fitted self.new) []) }
    {
        let fits = bytes.len().min(self.row.len() - self.kept);
        self.row[self.kept..self.kept + fits].copy_from_slice(&bytes[..fits]);
        self.kept += fits;
        self.rest = self.rest.saturating_add((bytes.len() - fits) as u64);
        Ok(bytes.len())
    }
}
