//! Lists of bits.

ghost use Rattle.std.specs.Prelude.{◌≡◌, ◌↔◌, ◌<◌, ◌≤◌, ◌==◌, ◌++◌, ◌∷◌, [], Bool, List, length, IsNone, IfOk, OnOk, OnErr, slice_get, slice_set};
ghost use Rattle.std.specs.Option.{option_copied};
ghost use Rattle.std.proofs.Common.{rules};
ghost use Rattle.std.specs.Bool.{beq};
ghost use Rattle.std.specs.Cmp.{bool_cmp_total, partial_order_from_own_ties};
ghost use Rattle.std.specs.Cmp.Lexicographic.{slice_cmp, pointwise, lists_total};
ghost use Rattle.std.specs.Cmp.Rules.{comparing};
ghost use Rattle.std.specs.Ordering.{bool_cmp, as_partial_cmp};
ghost use Rattle.sum_laws.specs.TextOrder.{ties_are_equal};

use std::alloc::{AllocError, Global};
use std::cmp::Ordering;
use std::marker::Model;

/// A list of bits, as the value of a term.
#[derive(Clone, Drop)]
pub struct BitList {
    items: Vec<bool>,
}

impl Model for BitList {
    ghost Value = { List Bool };

    ghost view = { λ b. b.items.items };
}

impl BitList {
    /// No bits. It takes no memory yet, and takes what it needs later from `alloc`.
    pub fn new(alloc: Global) -> BitList
        ensures { result ≡ [] }
    {
        BitList {
            items: Vec::new(alloc),
        }
    }

    /// A copy of some bits.
    pub fn from_slice(alloc: Global, bits: &[bool]) -> Result<BitList, AllocError>
        ensures { IfOk result (λ list. list ≡ bits.now) }
    {
        Ok(BitList {
            items: Vec::from_slice(alloc, bits)?,
        })
    }

    /// How many bits.
    pub fn len(&self) -> usize
        ensures { result ≡ length self.now }
    {
        self.items.len()
    }

    /// Whether there is no bit.
    pub fn is_empty(&self) -> bool
        ensures { result ≡ (length self.now == 0) }
    {
        self.items.is_empty()
    }

    /// The bit at a place, where there is one.
    pub fn get(&self, i: usize) -> Option<&bool>
        ensures value { option_copied result ≡ slice_get self.now i }
        ensures none { IsNone result ↔ (length self.now ≤ i) }
    {
        self.items.get(i)
    }

    /// Adds a bit at the end. Where memory is refused, nothing changes.
    pub fn push(&mut self, item: bool) -> Result<(), AllocError>
        ensures ok { OnOk result (self.new ≡ self.old ++ item ∷ []) }
        ensures err { OnErr result (self.new ≡ self.old) }
    {
        self.items.push(item)?;
        Ok(())
    }

    /// Writes the bit at a place.
    pub fn set(&mut self, i: usize, bit: bool)
        requires { i < length self.old }
        ensures { self.new ≡ slice_set self.old i bit }
    {
        self.items[i] = bit;
    }

    /// The bits.
    pub fn as_slice(&self) -> &[bool]
        ensures { result.now ≡ self.now }
    {
        self.items.as_slice()
    }
}

/// The same bits.
impl PartialEq for BitList {
    ghost eq = { pointwise beq };

    ghost laws = { Prim.search (comparing, rules) };

    fn eq(&self, other: &BitList) -> bool {
        self.items == other.items
    }
}

impl Eq for BitList {
    ghost laws = { Prim.search (comparing, rules) };
}

impl PartialOrd for BitList {
    ghost partial_cmp = { as_partial_cmp (slice_cmp bool_cmp) };

    ghost laws = { partial_order_from_own_ties (Prim.search (comparing, rules)) ties_are_equal };

    fn partial_cmp(&self, other: &BitList) -> Option<Ordering> {
        Some(self.cmp(other))
    }
}

/// Text order: 0 before 1, the first bit first, a part of a list before the list.
impl Ord for BitList {
    ghost cmp = { slice_cmp bool_cmp };

    ghost total = { lists_total bool_cmp_total };

    ghost matches_partial_cmp = { Prim.search (comparing, rules) };

    ghost matches_eq = { ties_are_equal };

    fn cmp(&self, other: &BitList) -> Ordering {
        self.items.cmp(&other.items)
    }
}
