//! Files in memory, and a sink in memory, whose calls fail where they are told to.

ghost use Rattle.std.specs.Prelude.{◌≡◌, refl, ℕ, List, ◌+◌, ◌<◌, ◌≤◌, ◌++◌, [], string_bytes, not, length, min, take, drop, is_ok, position, Some, Ok, IfOk, OnOk, OnErr, IsSome, ◌≢◌};
ghost use Rattle.std.specs.Option.{ForSome};
ghost use Rattle.silq_io.specs.Counts.{raised, next_fails, called};
ghost use Rattle.silq_io.specs.Counts.{Rose};
ghost use Rattle.silq_io.specs.Reads.{Opens, Takes, IsSpent};
ghost use Rattle.silq_io.specs.Memory.{is_named, held_in, left_in, faults_in, failed, can_begin, begun, taken, first_bytes, named_bytes, stored, room_left, can_put, put_to};
ghost use Rattle.silq_io.specs.Sinks.{Adds};

use crate::count::one_more;
use crate::fault::Failed;
use crate::files::Files;
use crate::sink::Sink;
use std::alloc::{AllocError, Global};
use std::marker::Model;

/// The calls on a device in memory, numbered from 1, and the numbers of those that fail.
#[derive(Drop)]
struct Numbered {
    made: u64,
    failing: Vec<u64>,
}

impl Model for Numbered {
    ghost use Rattle.silq_io.specs.Counts.{Calls};

    ghost Value = { Calls };

    ghost view = { λ n. record { made = n.made; failing = n.failing.items } };
}

impl Numbered {
    /// Counts a call, and answers whether it fails.
    fn fails(&mut self) -> bool
        ensures answer { result ≡ next_fails self.old }
        ensures after { self.new ≡ called self.old }
    {
        self.made = one_more(self.made);
        self.failing.contains(&self.made)
    }
}

/// A file in memory.
#[derive(Drop)]
struct MemFile {
    name: String,
    bytes: Vec<u8>,
    at: usize,
    faults: u64,
}

impl Model for MemFile {
    ghost use Rattle.std.specs.Prelude.{◌≤◌, drop, length, string_bytes};
    ghost use Rattle.silq_io.specs.Memory.{StoredFile};

    ghost Value = { StoredFile };

    ghost view = { λ f. record { name = string_bytes f.name; bytes = f.bytes.items; left = drop f.at f.bytes.items; faults = f.faults } };

    ghost invariant = { λ f. f.at ≤ length f.bytes.items };
}

impl MemFile {
    /// A file that was not begun.
    fn new(name: String, bytes: Vec<u8>) -> MemFile
        ensures { result ≡ record { name = string_bytes name; bytes = bytes.items; left = []; faults = 0 } }
    {
        let at = bytes.len();
        MemFile {
            name,
            bytes,
            at,
            faults: 0,
        }
    }

    fn is_named(&self, name: &str) -> bool
        ensures { result ≡ is_named name.now self.now }
    {
        self.name.as_str() == name
    }

    fn begin(&mut self)
        ensures { self.new ≡ record self.old { left = self.old.bytes } }
    {
        self.at = 0;
    }

    fn fail(&mut self)
        ensures { self.new ≡ record self.old { faults = raised self.old.faults } }
    {
        self.faults = one_more(self.faults);
    }

    /// Takes as many bytes as fit.
    fn take(&mut self, buf: &mut [u8]) -> usize
        ensures count { result ≡ min (length buf.old) (length self.old.left) }
        ensures bytes { buf.new ≡ take result self.old.left ++ drop result buf.old }
        ensures after { self.new ≡ record self.old { left = drop (length buf.old) self.old.left } }
    {
        let left = &self.bytes[self.at..];
        let count = left.len().min(buf.len());
        buf[..count].copy_from_slice(&left[..count]);
        self.at += count;
        count
    }
}

/// Where the file with a name stands.
fn place(files: &[MemFile], name: &str) -> Option<usize>
    ensures { result ≡ position (is_named name.now) files.now }
{
    files.iter().position(|file| file.is_named(name))
}

/// Files in memory, whose calls are numbered from 1. The calls with the numbers in `fails` fail, and
/// `begin` of a name that is not there. The names that are not there share one count of faults.
#[derive(Drop)]
pub struct MemFiles {
    files: Vec<MemFile>,
    other_faults: u64,
    calls: Numbered,
}

impl Model for MemFiles {
    ghost use Rattle.silq_io.specs.Memory.{Store};

    ghost Value = { Store };

    ghost view = { λ m. record { files = m.files.items; other_faults = m.other_faults; calls = m.calls } };
}

impl MemFiles {
    /// Files with these names and bytes, of which none was begun. Where a name stands twice, the first counts.
    pub fn new(
        alloc: Global,
        files: Vec<(String, Vec<u8>)>,
        fails: Vec<u64>,
    ) -> Result<MemFiles, AllocError>
        ensures made { IfOk result (λ m. m ≡ stored files.items fails.items) }
        ensures held { IfOk result (λ m. (name : List ℕ) → held_in m name ≡ first_bytes (named_bytes files.items) name) }
    {
        let files = files
            .into_iter()
            .map(|(name, bytes)| MemFile::new(name, bytes))
            .collect(alloc)?;
        Ok(MemFiles {
            files,
            other_faults: 0,
            calls: Numbered {
                made: 0,
                failing: fails,
            },
        })
    }

    /// Counts a fault at the file at this place, or at the names that are not there.
    fn fail(&mut self, place: Option<usize>)
        requires { ForSome place (λ i. i < length self.old.files) }
        ensures { (name : List ℕ) → place ≡ position (is_named name) self.old.files → self.new ≡ failed self.old name }
    {
        match place {
            Some(i) => {
                let file = &mut self.files[i];
                file.fail();
            }
            None => self.other_faults = one_more(self.other_faults),
        }
    }

    /// Begins a file, or counts a fault under its name.
    fn open(&mut self, name: &str) -> Result<(), Failed>
        ensures answer { is_ok result ≡ can_begin self.old name.now }
        ensures after { self.new ≡ begun self.old name.now }
    {
        let fails = self.calls.fails();
        let at = place(&self.files, name);
        match at {
            Some(i) if !fails => {
                let file = &mut self.files[i];
                file.begin();
                Ok(())
            }
            _ => {
                self.fail(at);
                Err(Failed)
            }
        }
    }

    /// Takes as many bytes as fit into a buffer that is not empty, or counts a fault under the name.
    fn read(&mut self, name: &str, buf: &mut [u8]) -> Result<usize, Failed>
        requires { 0 < length buf.old }
        ensures answer { is_ok result ≡ not (next_fails self.old.calls) }
        ensures moved { IfOk result (λ n. n ≡ min (length buf.old) (length (left_in self.old name.now))) }
        ensures bytes { IfOk result (λ n. buf.new ≡ take n (left_in self.old name.now) ++ drop n buf.old) }
        ensures kept { OnErr result (buf.new ≡ buf.old) }
        ensures after { self.new ≡ taken self.old name.now (length buf.old) }
    {
        let fails = self.calls.fails();
        let at = place(&self.files, name);
        if fails {
            self.fail(at);
            return Err(Failed);
        }
        match at {
            Some(i) => {
                let file = &mut self.files[i];
                Ok(file.take(buf))
            }
            None => Ok(0),
        }
    }
}

impl Files for MemFiles {
    ghost held = { held_in };

    ghost left = { λ m name. Some (left_in m name) };

    ghost faults = { faults_in };

    fn begin(&mut self, name: &str) -> Result<(), Failed>
        ensures answer { is_ok result ≡ can_begin self.old name.now }
        ensures after { self.new ≡ begun self.old name.now }
        ensures held { (other : List ℕ) → held_in self.new other ≡ held_in self.old other }
        ensures opened { OnOk result (Opens (held_in self.old name.now) (Some (left_in self.new name.now))) }
        ensures counts { (other : List ℕ) → faults_in self.old other ≤ faults_in self.new other }
        ensures failed { OnErr result (Rose (faults_in self.old name.now) (faults_in self.new name.now)) }
        ensures others { (other : List ℕ) → other ≢ name.now → IsSome (held_in self.old other) → faults_in self.new other ≡ faults_in self.old other }
    {
        self.open(name)
    }

    fn take(&mut self, name: &str, buf: &mut [u8]) -> Result<usize, Failed>
        ensures answer { 0 < length buf.old → is_ok result ≡ not (next_fails self.old.calls) }
        ensures moved { IfOk result (λ n. n ≡ min (length buf.old) (length (left_in self.old name.now))) }
        ensures bytes { IfOk result (λ n. buf.new ≡ take n (left_in self.old name.now) ++ drop n buf.old) }
        ensures kept { OnErr result (buf.new ≡ buf.old) }
        ensures after { self.new ≡ taken self.old name.now (length buf.old) }
        ensures held { (other : List ℕ) → held_in self.new other ≡ held_in self.old other }
        ensures within { IfOk result (λ n. n ≤ length buf.old) }
        ensures taken { IfOk result (λ n. Takes (Some (left_in self.old name.now)) (Some (left_in self.new name.now)) buf.old buf.new n) }
        ensures end { 0 < length buf.old → result ≡ Ok 0 → IsSpent (Some (left_in self.old name.now)) }
        ensures nothing { buf.old ≡ [] → result ≡ Ok 0 }
        ensures nothing_counted { buf.old ≡ [] → (other : List ℕ) → faults_in self.new other ≡ faults_in self.old other }
        ensures counts { (other : List ℕ) → faults_in self.old other ≤ faults_in self.new other }
        ensures failed { OnErr result (Rose (faults_in self.old name.now) (faults_in self.new name.now)) }
        ensures others { (other : List ℕ) → other ≢ name.now → IsSome (held_in self.old other) → faults_in self.new other ≡ faults_in self.old other }
    {
        if buf.is_empty() {
            return Ok(0);
        }
        self.read(name, buf)
    }

    ghost left_is_told = { λ m name told. refl };
}

/// A sink in memory, which takes a number of bytes in all. Its puts of some bytes are numbered from 1. Those
/// with the numbers in `fails` fail, and those when no room is left.
#[derive(Drop)]
pub struct MemSink {
    bytes: Vec<u8>,
    room: usize,
    faults: u64,
    puts: Numbered,
}

impl Model for MemSink {
    ghost use Rattle.std.specs.Prelude.{◌≤◌, vec_len, vec_capacity};
    ghost use Rattle.silq_io.specs.Memory.{StoredSink};

    ghost Value = { StoredSink };

    ghost view = { λ s. record { bytes = s.bytes.items; room = s.room; faults = s.faults; puts = s.puts } };

    ghost invariant = { λ s. (vec_len s.bytes ≤ s.room) × (s.room ≤ vec_capacity s.bytes) };
}

impl MemSink {
    /// An empty sink, with memory for all that it takes.
    pub fn new(alloc: Global, room: usize, fails: Vec<u64>) -> Result<MemSink, AllocError>
        ensures { IfOk result (λ s. s ≡ record { bytes = []; room = room; faults = 0; puts = record { made = 0; failing = fails.items } }) }
    {
        Ok(MemSink {
            bytes: Vec::with_capacity(alloc, room)?,
            room,
            faults: 0,
            puts: Numbered {
                made: 0,
                failing: fails,
            },
        })
    }

    /// The bytes taken so far.
    pub fn bytes(&self) -> &[u8]
        ensures { result.now ≡ self.now.bytes }
    {
        &self.bytes
    }
}

impl Sink for MemSink {
    ghost put_so_far = { λ s. Some s.bytes };

    ghost faults = { λ s. s.faults };

    fn put(&mut self, bytes: &[u8]) -> Result<usize, Failed>
        ensures answer { 0 < length bytes.now → is_ok result ≡ can_put self.old }
        ensures moved { IfOk result (λ n. n ≡ min (length bytes.now) (room_left self.old)) }
        ensures after { self.new ≡ put_to self.old bytes.now }
        ensures within { IfOk result (λ n. n ≤ length bytes.now) }
        ensures some { 0 < length bytes.now → IfOk result (λ n. 0 < n) }
        ensures added { IfOk result (λ n. Adds (Some self.old.bytes) (Some self.new.bytes) (take n bytes.now)) }
        ensures nothing { bytes.now ≡ [] → result ≡ Ok 0 }
        ensures nothing_counted { bytes.now ≡ [] → self.new.faults ≡ self.old.faults }
        ensures count { self.old.faults ≤ self.new.faults }
        ensures failed { OnErr result (Rose self.old.faults self.new.faults) }
        ensures kept { OnErr result (Adds (Some self.old.bytes) (Some self.new.bytes) []) }
    {
        if bytes.is_empty() {
            return Ok(0);
        }
        let fails = self.puts.fails();
        let left = self.room - self.bytes.len();
        if fails || left == 0 {
            self.faults = one_more(self.faults);
            return Err(Failed);
        }
        let count = bytes.len().min(left);
        self.bytes.extend_from_slice(&bytes[..count]).unwrap();
        Ok(count)
    }
}
