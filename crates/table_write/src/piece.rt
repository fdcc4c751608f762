//! The pieces of which a line is made.

ghost use Rattle.std.specs.Prelude.{◌≤◌, OnOk, OnErr, codes, if◌then◌else◌};
ghost use Rattle.std.specs.Fmt.{signed_decimal};
ghost use Rattle.silq_io.specs.Counts.{Rose};
ghost use Rattle.silq_io.specs.Sinks.{Adds, Breaks};
ghost use Rattle.table_write.specs.Lines.{bit_texts, bits_text, piece_text, pieces_text};

use itoa::Buffer;
use silq_io::{Failed, Sink, put_all};

/// A piece of a line.
#[derive(Clone, Copy)]
pub enum Piece<'a> {
    /// Bits one behind the other; no bits are `-`.
    Bits(&'a [bool]),
    /// A number in digits, without leading zeros, `-` before a negative one.
    Number(i128),
    /// Its bytes as they are.
    Text(&'a str),
}

// Puts a bit.
fn put_bit<S: Sink>(out: &mut S, bit: bool) -> Result<(), Failed>
    ensures ok { OnOk result (Adds (S.put_so_far out.old) (S.put_so_far out.new) (if bit then codes "1" else codes "0")) }
    ensures count { S.faults out.old ≤ S.faults out.new }
    ensures failed { OnErr result (Rose (S.faults out.old) (S.faults out.new)) }
    ensures broken { OnErr result (Breaks (S.put_so_far out.old) (S.put_so_far out.new) (if bit then codes "1" else codes "0")) }
{
    if bit {
        put_all(out, b"1")
    } else {
        put_all(out, b"0")
    }
}

// Puts bits one behind the other.
fn put_each_bit<S: Sink>(out: &mut S, bits: &[bool]) -> Result<(), Failed>
    ensures ok { OnOk result (Adds (S.put_so_far out.old) (S.put_so_far out.new) (bit_texts bits.now)) }
    ensures count { S.faults out.old ≤ S.faults out.new }
    ensures failed { OnErr result (Rose (S.faults out.old) (S.faults out.new)) }
    ensures broken { OnErr result (Breaks (S.put_so_far out.old) (S.put_so_far out.new) (bit_texts bits.now)) }
{
    for bit in bits {
        put_bit(out, *bit)?;
    }
    Ok(())
}

// Puts the bits of a value.
fn put_bits<S: Sink>(out: &mut S, bits: &[bool]) -> Result<(), Failed>
    ensures ok { OnOk result (Adds (S.put_so_far out.old) (S.put_so_far out.new) (bits_text bits.now)) }
    ensures count { S.faults out.old ≤ S.faults out.new }
    ensures failed { OnErr result (Rose (S.faults out.old) (S.faults out.new)) }
    ensures broken { OnErr result (Breaks (S.put_so_far out.old) (S.put_so_far out.new) (bits_text bits.now)) }
{
    match bits {
        [] => put_all(out, b"-"),
        [_, ..] => put_each_bit(out, bits),
    }
}

// Puts a number in digits.
fn put_number<S: Sink>(out: &mut S, number: i128) -> Result<(), Failed>
    ensures ok { OnOk result (Adds (S.put_so_far out.old) (S.put_so_far out.new) (signed_decimal number)) }
    ensures count { S.faults out.old ≤ S.faults out.new }
    ensures failed { OnErr result (Rose (S.faults out.old) (S.faults out.new)) }
    ensures broken { OnErr result (Breaks (S.put_so_far out.old) (S.put_so_far out.new) (signed_decimal number)) }
{
    let mut buffer = Buffer::new();
    put_all(out, buffer.format(number).as_bytes())
}

// Puts a piece.
fn put_piece<S: Sink>(out: &mut S, piece: Piece) -> Result<(), Failed>
    ensures ok { OnOk result (Adds (S.put_so_far out.old) (S.put_so_far out.new) (piece_text piece.entry)) }
    ensures count { S.faults out.old ≤ S.faults out.new }
    ensures failed { OnErr result (Rose (S.faults out.old) (S.faults out.new)) }
    ensures broken { OnErr result (Breaks (S.put_so_far out.old) (S.put_so_far out.new) (piece_text piece.entry)) }
{
    match piece {
        Piece::Bits(bits) => put_bits(out, bits),
        Piece::Number(number) => put_number(out, number),
        Piece::Text(text) => put_all(out, text.as_bytes()),
    }
}

/// Puts pieces one behind the other.
pub fn put_pieces<S: Sink>(out: &mut S, pieces: &[Piece]) -> Result<(), Failed>
    ensures ok { OnOk result (Adds (S.put_so_far out.old) (S.put_so_far out.new) (pieces_text pieces.now)) }
    ensures count { S.faults out.old ≤ S.faults out.new }
    ensures failed { OnErr result (Rose (S.faults out.old) (S.faults out.new)) }
    ensures broken { OnErr result (Breaks (S.put_so_far out.old) (S.put_so_far out.new) (pieces_text pieces.now)) }
{
    for piece in pieces {
        put_piece(out, *piece)?;
    }
    Ok(())
}
