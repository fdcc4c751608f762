//! Lists that grow at their ends.

ghost use Rattle.std.specs.Prelude.{◌≡◌, ◌≤◌, [], ◌∷◌, ◌++◌, length, take, drop, slice_get, OnOk, OnErr};
ghost use Rattle.std.specs.Option.{option_copied};
ghost use Rattle.std.specs.Cmp.Lexicographic.{pointwise};
ghost use Rattle.std.specs.Cmp.Rules.{comparing};
ghost use Rattle.std.specs.Hash as fed;
ghost use Rattle.std.specs.Hash.{items_Alike};
ghost use Rattle.std.proofs.Common.{rules};

use crate::signature::{Param, Returned};
use crate::types::Ty;
use std::alloc::{AllocError, Global};
use std::hash::{Hash, Hasher};
use std::marker::Model;

/// Types, as those of the values of a tuple.
pub type TyList = List<Ty>;

/// The parameters of a signature.
pub type ParamList = List<Param>;

/// The results of a signature.
pub type ResultList = List<Returned>;

/// The static values of an instance.
pub type StaticList = List<i64>;

/// A list that grows at its end.
#[derive(Drop)]
pub struct List<T> {
    items: Vec<T>,
}

impl<T> Model for List<T> {
    ghost use Rattle.std.specs.Prelude.{List as Listed};

    ghost Value = { Listed T };

    ghost view = { λ list. list.items.items };
}

impl<T> List<T> {
    /// No items. Takes no memory.
    pub fn new(alloc: Global) -> List<T>
        ensures { result ≡ [] }
    {
        List {
            items: Vec::new(alloc),
        }
    }

    /// How many items.
    pub fn len(&self) -> usize
        ensures { result ≡ length self.now }
    {
        self.items.len()
    }

    /// The item with this number, from 0.
    pub fn get(&self, i: usize) -> Option<&T>
        ensures { option_copied result ≡ slice_get self.now i }
    {
        self.items.get(i)
    }

    /// The items in order.
    pub fn as_slice(&self) -> &[T]
        ensures { result.now ≡ self.now }
    {
        self.items.as_slice()
    }
}

impl<T: Drop> List<T> {
    /// Adds an item at the end.
    pub fn push(&mut self, item: T) -> Result<(), AllocError>
        ensures ok { OnOk result (self.new ≡ self.old ++ item ∷ []) }
        ensures err { OnErr result (self.new ≡ self.old) }
    {
        self.items.push(item)?;
        Ok(())
    }
}

impl<T: Copy> List<T> {
    /// Puts items in the place of those from `start` on up to `end`. Where they are as many it takes no memory.
    pub fn replace(&mut self, start: usize, end: usize, items: &[T]) -> Result<(), AllocError>
        requires order { start ≤ end }
        requires inside { end ≤ length self.old }
        ensures ok { OnOk result (self.new ≡ take start self.old ++ (items.now ++ drop end self.old)) }
        ensures err { OnErr result (self.new ≡ self.old) }
    {
        if items.len() == end - start {
            self.items[start..end].copy_from_slice(items);
            return Ok(());
        }
        let mut all = Vec::from_slice(*self.items.allocator(), &self.items[..start])?;
        all.extend_from_slice(items)?;
        all.extend_from_slice(&self.items[end..])?;
        self.items = all;
        Ok(())
    }
}

impl<T: PartialEq> PartialEq for List<T> {
    ghost eq = { pointwise T.eq };

    ghost laws = { Prim.search (comparing, rules) };

    fn eq(&self, other: &List<T>) -> bool {
        self.items == other.items
    }
}

impl<T: Eq> Eq for List<T> {
    ghost laws = { Prim.search (comparing, rules) };
}

impl<T: Hash> Hash for List<T> {
    ghost hash_input = { fed.slice T.hash_input };

    ghost respects_eq = { (items_Alike (record { fed = T.respects_eq })).fed };

    fn hash<H: Hasher>(&self, state: &mut H) {
        self.items.hash(state);
    }
}
