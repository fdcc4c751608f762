//! The edge to the system: its files, and its outputs.

ghost use Rattle.std.specs.Prelude.{◌≡◌, ◌≢◌, ◌<◌, ◌≤◌, ℕ, List, [], length, take, Option, None, Some, Ok, is_ok, not, true, false, IfOk, OnOk, OnErr, IsErr, IsSome, MatchResult, if◌then◌else◌};
ghost use Rattle.std.specs.Io.KnownBytes.{ReadConsumes, WriteAppends};
ghost use Rattle.silq_io.specs.Counts.{Rose, raised};
ghost use Rattle.silq_io.specs.Reads.{Opens, Takes, IsSpent};
ghost use Rattle.silq_io.specs.Sinks.{Adds};

use crate::count::one_more;
use crate::fault::Failed;
use crate::files::Files;
use crate::sink::Sink;
use std::fs::File;
use std::io::{Read, Write};
use std::rt;

/// The files of the system. They tell no bytes, and one count of errors stands for all names.
#[derive(Drop)]
pub struct DiskFiles<R: rt::Files> {
    system: R,
    file: Option<R::File>,
    faults: u64,
}

impl<R: rt::Files> DiskFiles<R> {
    ghost use Rattle.silq_io.specs.Disk.{open_file, disk_faults};

    /// Over this system, with no file begun and no fault so far.
    pub fn new(system: R) -> DiskFiles<R>
        ensures file { open_file result ≡ None }
        ensures faults { disk_faults result ≡ 0 }
    {
        DiskFiles {
            system,
            file: None,
            faults: 0,
        }
    }
}

impl<R: rt::Files> Files for DiskFiles<R> {
    ghost use Rattle.silq_io.specs.Disk.{open_file, open_left, disk_faults};

    ghost held = { λ _ _. None };

    ghost left = { λ _ _. None };

    ghost faults = { λ files _. disk_faults files };

    fn begin(&mut self, name: &str) -> Result<(), Failed>
        ensures file { MatchResult result (λ _. IsSome (open_file self.new)) (λ _. open_file self.new ≡ open_file self.old) }
        ensures faults { disk_faults self.new ≡ (if is_ok result then disk_faults self.old else raised (disk_faults self.old)) }
        ensures counts { (other : List ℕ) → disk_faults self.old ≤ disk_faults self.new }
        ensures failed { OnErr result (Rose (disk_faults self.old) (disk_faults self.new)) }
    {
        match File::open(&self.system, name) {
            Ok(file) => {
                self.file = Some(file);
                Ok(())
            }
            Err(_) => {
                self.faults = one_more(self.faults);
                Err(Failed)
            }
        }
    }

    fn take(&mut self, _name: &str, buf: &mut [u8]) -> Result<usize, Failed>
        ensures read { ReadConsumes (open_left R.File.remaining self.old) (open_left R.File.remaining self.new) result buf.new }
        ensures none { 0 < length buf.old → open_file self.old ≡ None → IsErr result }
        ensures untouched { buf.old ≡ [] → self.new ≡ self.old }
        ensures faults { disk_faults self.new ≡ (if is_ok result then disk_faults self.old else raised (disk_faults self.old)) }
        ensures within { IfOk result (λ n. n ≤ length buf.old) }
        ensures nothing { buf.old ≡ [] → result ≡ Ok 0 }
        ensures nothing_counted { buf.old ≡ [] → (other : List ℕ) → disk_faults self.new ≡ disk_faults self.old }
        ensures counts { (other : List ℕ) → disk_faults self.old ≤ disk_faults self.new }
        ensures failed { OnErr result (Rose (disk_faults self.old) (disk_faults self.new)) }
    {
        if buf.is_empty() {
            return Ok(0);
        }
        let read = match &mut self.file {
            Some(file) => file.read(buf).ok(),
            None => None,
        };
        match read {
            Some(count) => Ok(count),
            None => {
                self.faults = one_more(self.faults);
                Err(Failed)
            }
        }
    }

    ghost left_is_told = { λ _ _ told. told };
}

/// An output, such as the standard output. It tells no bytes, and counts its errors.
#[derive(Drop)]
pub struct StdSink<W: Write> {
    out: W,
    faults: u64,
}

impl<W: Write> StdSink<W> {
    ghost use Rattle.silq_io.specs.Disk.{output_of, output_faults};

    /// Over this output, without a fault so far.
    pub fn new(out: W) -> StdSink<W>
        ensures output { output_of result ≡ out }
        ensures faults { output_faults result ≡ 0 }
    {
        StdSink { out, faults: 0 }
    }
}

impl<W: Write> Sink for StdSink<W> {
    ghost use Rattle.silq_io.specs.Disk.{output_of, output_faults};

    ghost put_so_far = { λ _. None };

    ghost faults = { output_faults };

    fn put(&mut self, bytes: &[u8]) -> Result<usize, Failed>
        ensures written { WriteAppends (W.contents (output_of self.old)) (W.contents (output_of self.new)) result bytes.now }
        ensures untouched { bytes.now ≡ [] → self.new ≡ self.old }
        ensures faults { output_faults self.new ≡ (if is_ok result then output_faults self.old else raised (output_faults self.old)) }
        ensures within { IfOk result (λ n. n ≤ length bytes.now) }
        ensures some { 0 < length bytes.now → IfOk result (λ n. 0 < n) }
        ensures nothing { bytes.now ≡ [] → result ≡ Ok 0 }
        ensures nothing_counted { bytes.now ≡ [] → output_faults self.new ≡ output_faults self.old }
        ensures count { output_faults self.old ≤ output_faults self.new }
        ensures failed { OnErr result (Rose (output_faults self.old) (output_faults self.new)) }
    {
        if bytes.is_empty() {
            return Ok(0);
        }
        match self.out.write(bytes) {
            Ok(count) if count > 0 => Ok(count),
            _ => {
                self.faults = one_more(self.faults);
                Err(Failed)
            }
        }
    }
}
