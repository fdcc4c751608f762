//! Registers of one kind, by name.

ghost use Rattle.std.specs.Prelude.{◌≡◌, ◌≤◌, ◌+◌, ◌<◌, ◌^◌, [], ◌∷◌, ◌++◌, false, chars, OnOk, OnErr, IfOk, IfSome};
ghost use Rattle.qasm_read.specs.Registers.{bit_of, bits_of, has, width};

use indexmap::IndexMap;
use std::alloc::{AllocError, Global};
use std::marker::Model;

/// A register's first bit, and how many it has.
#[derive(Clone, Copy)]
pub struct Bits {
    pub first: u32,
    pub size: u32,
}

/// The registers of one kind, of qubits or of classical bits, in order of declaration.
#[derive(Drop)]
pub(crate) struct Registers<'s> {
    by_name: IndexMap<&'s str, Bits>,
    total: u32,
}

impl<'s> Model for Registers<'s> {
    ghost use Rattle.std.specs.Prelude.{List};
    ghost use Rattle.qasm_read.specs.Registers.{Register};
    ghost use Rattle.qasm_read.specs.Stored.{IsStored, registers_of};

    ghost Value = { List Register };

    ghost view = { λ r. registers_of r.by_name.entries };

    ghost invariant = { λ r. IsStored r.by_name.entries r.total };
}

impl<'s> Registers<'s> {
    /// No registers. Takes no memory.
    pub(crate) fn new(alloc: Global) -> Registers<'s>
        ensures { result ≡ [] }
    {
        Registers {
            by_name: IndexMap::new(alloc),
            total: 0,
        }
    }

    /// How many bits there are.
    pub(crate) fn width(&self) -> u32
        ensures { result ≡ width self.now }
    {
        self.total
    }

    /// The bits of a register, and that their numbers have 32 bits.
    fn stored(&self, name: &str) -> Option<Bits>
        ensures value { result ≡ bits_of self.now (chars name.now) }
        ensures fits { IfSome result (λ bits. bits.first + bits.size < 2 ^ 32) }
    {
        self.by_name.get(name).copied()
    }

    /// The bits of a register.
    pub(crate) fn bits_of(&self, name: &str) -> Option<Bits>
        ensures { result ≡ bits_of self.now (chars name.now) }
    {
        self.stored(name)
    }

    /// Whether there is a register of this name.
    pub(crate) fn has(&self, name: &str) -> bool
        ensures { result ≡ has self.now (chars name.now) }
    {
        self.bits_of(name).is_some()
    }

    /// The bit with this index in the register of this name.
    pub(crate) fn bit_of(&self, name: &str, index: u64) -> Option<u32>
        ensures { result ≡ bit_of self.now (chars name.now) index }
    {
        let bits = self.stored(name)?;
        if index < u64::from(bits.size) {
            Some(bits.first + index as u32)
        } else {
            None
        }
    }

    /// Adds a register at the end. It fails only where memory runs out.
    pub(crate) fn declare(&mut self, name: &'s str, size: u32) -> Result<(), AllocError>
        requires is_new { has self.old (chars name.now) ≡ false }
        requires fits { width self.old + size < 2 ^ 32 }
        ensures ok { OnOk result (self.new ≡ self.old ++ record { name = chars name.now; size = size } ∷ []) }
        ensures err { OnErr result (self.new ≡ self.old) }
    {
        let bits = Bits {
            first: self.total,
            size,
        };
        match self.by_name.insert(name, bits) {
            Ok(_) => {
                self.total += size;
                Ok(())
            }
            Err(_) => Err(AllocError),
        }
    }
}
