//! Reading a file.

ghost use Rattle.std.specs.Prelude.{◌≡◌, ◌≢◌, ℕ, ◌<◌, ◌≤◌, ◌+◌, ◌^◌, List, length, IfOk, OnOk, IsErrOf, IsSome, Option, vec_len};
ghost use Rattle.silq_io.specs.Counts.{Rose};
ghost use Rattle.silq_io.specs.Reads.{IsSpent};
ghost use Rattle.file_text.specs.Reading.{AreRead, IsPartRead};
ghost use Rattle.file_text.specs.declared.file.ReadError.TheVariants.{Memory, Failed as ReadFailed};

use silq_io::{Failed, Files};
use std::alloc::{AllocError, Global};

/// Why a file was not read.
#[derive(Clone, Copy, PartialEq, Eq)]
pub enum ReadError {
    /// No memory.
    Memory,
    /// A fault of the outside.
    Failed,
}

impl From<AllocError> for ReadError {
    ghost from_gives = { λ _ error. error ≡ Memory };

    fn from(_: AllocError) -> Self {
        ReadError::Memory
    }
}

impl From<Failed> for ReadError {
    ghost from_gives = { λ _ error. error ≡ ReadFailed };

    fn from(_: Failed) -> Self {
        ReadError::Failed
    }
}

// How many bytes are taken at once.
const PIECE: usize = 4096;

/// The bytes of a file, or where there are more than the limit, the first of them, one more than the limit.
pub fn read_file<F: Files>(
    alloc: Global,
    files: &mut F,
    name: &str,
    limit: usize,
) -> Result<Vec<u8>, ReadError>
    requires { limit < 2 ^ 32 }
    ensures read { IfOk result (λ bytes. AreRead limit (F.held files.old name.now) (F.left files.new name.now) bytes.items) }
    ensures within { IfOk result (λ bytes. length bytes.items ≤ limit + 1) }
    ensures held { (other : List ℕ) → F.held files.new other ≡ F.held files.old other }
    ensures failed { IsErrOf result ReadError.Failed → Rose (F.faults files.old name.now) (F.faults files.new name.now) }
    ensures counts { (other : List ℕ) → F.faults files.old other ≤ F.faults files.new other }
    ensures others { (other : List ℕ) → other ≢ name.now → IsSome (F.held files.old other) → F.faults files.new other ≡ F.faults files.old other }
{
    files.begin(name)?;
    let mut bytes = Vec::new(alloc);
    while bytes.len() <= limit {
        if take_piece(files, name, &mut bytes, limit)? == 0 {
            return Ok(bytes);
        }
    }
    Ok(bytes)
}

// Takes a piece of what is left, and answers its length: 0 where nothing is left.
fn take_piece<F: Files>(
    files: &mut F,
    name: &str,
    bytes: &mut Vec<u8>,
    limit: usize,
) -> Result<usize, ReadError>
    requires limit { limit < 2 ^ 32 }
    requires room { vec_len bytes.old ≤ limit }
    ensures part { IfOk result (λ _. (all : Option (List ℕ)) → IsPartRead all (F.left files.old name.now) bytes.old.items → IsPartRead all (F.left files.new name.now) bytes.new.items) }
    ensures grown { IfOk result (λ count. vec_len bytes.new ≡ vec_len bytes.old + count) }
    ensures within { OnOk result (vec_len bytes.new ≤ limit + 1) }
    ensures end { IfOk result (λ count. count ≡ 0 → IsSpent (F.left files.old name.now)) }
    ensures held { (other : List ℕ) → F.held files.new other ≡ F.held files.old other }
    ensures failed { IsErrOf result ReadError.Failed → Rose (F.faults files.old name.now) (F.faults files.new name.now) }
    ensures counts { (other : List ℕ) → F.faults files.old other ≤ F.faults files.new other }
    ensures others { (other : List ℕ) → other ≢ name.now → IsSome (F.held files.old other) → F.faults files.new other ≡ F.faults files.old other }
{
    let mut piece = [0u8; PIECE];
    let room = PIECE.min(limit + 1 - bytes.len());
    let count = files.take(name, &mut piece[..room])?;
    bytes.extend_from_slice(&piece[..count])?;
    Ok(count)
}
