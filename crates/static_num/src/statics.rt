//! The values of static names.

ghost use Rattle.std.specs.Prelude.{◌≡◌, ◌<◌, ◌-◌, [], ◌∷◌, ◌++◌, length, take, slice_get, OnOk, OnErr};
ghost use Rattle.std.specs.Option.{option_copied};

use silq_tree::node::NameId;
use std::alloc::{AllocError, Global};
use std::marker::Model;

/// The values of static parameters and loop variables. Of several pairs with one name the last counts.
#[derive(Drop)]
pub struct Statics {
    pairs: Vec<(NameId, i64)>,
}

impl Model for Statics {
    ghost use Rattle.std.specs.Prelude.{List, ℤ};
    ghost use Rattle.silq_tree.specs.declared.node.NameId.{NameId};

    ghost Value = { List (NameId × ℤ) };

    ghost view = { λ statics. statics.pairs.items };
}

impl Statics {
    /// No values. Takes no memory.
    pub fn new(alloc: Global) -> Statics
        ensures { result ≡ [] }
    {
        Statics {
            pairs: Vec::new(alloc),
        }
    }

    /// How many pairs.
    pub fn len(&self) -> usize
        ensures { result ≡ length self.now }
    {
        self.pairs.len()
    }

    /// The pair with this number, from 0.
    pub fn get(&self, i: usize) -> Option<&(NameId, i64)>
        ensures { option_copied result ≡ slice_get self.now i }
    {
        self.pairs.get(i)
    }

    /// Adds a pair at the end.
    pub fn push(&mut self, item: (NameId, i64)) -> Result<(), AllocError>
        ensures ok { OnOk result (self.new ≡ self.old ++ item ∷ []) }
        ensures err { OnErr result (self.new ≡ self.old) }
    {
        self.pairs.push(item)?;
        Ok(())
    }

    /// Takes away the last pair. Takes no memory.
    pub fn pop(&mut self)
        requires { 0 < length self.old }
        ensures { self.new ≡ take (length self.old - 1) self.old }
    {
        self.pairs.pop();
    }

    /// The pairs in order.
    pub fn as_slice(&self) -> &[(NameId, i64)]
        ensures { result.now ≡ self.now }
    {
        self.pairs.as_slice()
    }
}
