//! Lists of numbers: the items of an array.

ghost use Rattle.std.specs.Prelude.{◌≡◌, [], ◌∷◌, ◌++◌, replicate, set, get_or, IfOk, OnOk};
ghost use Rattle.silq_mean.specs.Value.{all_equal};

use std::alloc::{AllocError, Global};
use std::marker::Model;

/// The numbers of an array.
#[derive(Drop)]
pub(crate) struct Numbers {
    items: Vec<u64>,
}

impl Model for Numbers {
    ghost use Rattle.std.specs.Prelude.{ℕ, List};

    ghost Value = { List ℕ };

    ghost view = { λ n. n.items.items };
}

impl Numbers {
    /// So many times the same number.
    pub(crate) fn repeated(alloc: Global, count: u64, a: u64) -> Result<Numbers, AllocError>
        ensures { IfOk result (λ n. n ≡ replicate count a) }
    {
        Ok(Numbers {
            items: vec![in alloc; a; count as usize]?,
        })
    }

    /// The same numbers.
    pub(crate) fn copied(&self, alloc: Global) -> Result<Numbers, AllocError>
        ensures { IfOk result (λ n. n ≡ self.now) }
    {
        Ok(Numbers {
            items: Vec::from_slice(alloc, self.items.as_slice())?,
        })
    }

    /// The number at a place, 0 where there is none.
    pub(crate) fn get_or_zero(&self, place: u64) -> u64
        ensures { result ≡ get_or self.now place 0 }
    {
        self.items.get(place as usize).copied().unwrap_or(0)
    }

    /// Writes the number at a place, if there is one.
    pub(crate) fn set(&mut self, place: u64, a: u64)
        ensures { self.new ≡ set self.old place a }
    {
        if let Some(item) = self.items.get_mut(place as usize) {
            *item = a;
        }
    }

    /// No numbers.
    pub(crate) fn new(alloc: Global) -> Numbers
        ensures { result ≡ [] }
    {
        Numbers {
            items: Vec::new(alloc),
        }
    }

    /// Adds a number at the end.
    pub(crate) fn push(&mut self, a: u64) -> Result<(), AllocError>
        ensures { OnOk result (self.new ≡ self.old ++ a ∷ []) }
    {
        self.items.push(a)?;
        Ok(())
    }

    /// Whether they are the same numbers in the same order.
    #[tactic(auto, using(crate::proofs::Combined::same_items))]
    pub(crate) fn same(&self, other: &Numbers) -> bool
        ensures { result ≡ all_equal self.now other.now }
    {
        self.items.as_slice() == other.items.as_slice()
    }

    /// The numbers in order.
    pub(crate) fn as_slice(&self) -> &[u64]
        ensures { result.now ≡ self.now }
    {
        self.items.as_slice()
    }
}
