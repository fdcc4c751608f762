//! Lists of wires.

ghost use Rattle.std.specs.Prelude.{◌≡◌, ◌++◌, ◌∷◌, [], length, slice_get, OnOk, OnErr};
ghost use Rattle.std.specs.Option.{option_copied};

use crate::step::WireId;
use std::alloc::{AllocError, Global};
use std::marker::Model;

/// A list of wires.
#[derive(Drop)]
pub struct WireList {
    items: Vec<WireId>,
}

impl Model for WireList {
    ghost use Rattle.std.specs.Prelude.{List};
    ghost use Rattle.flat_core.specs.declared.step.WireId.{WireId};

    ghost Value = { List WireId };

    ghost view = { λ l. l.items.items };
}

impl WireList {
    /// No wires.
    pub fn new(alloc: Global) -> WireList
        ensures { result ≡ [] }
    {
        WireList {
            items: Vec::new(alloc),
        }
    }

    /// How many wires.
    pub fn len(&self) -> usize
        ensures { result ≡ length self.now }
    {
        self.items.len()
    }

    /// The wire at a place, if there is one.
    pub fn get(&self, i: usize) -> Option<&WireId>
        ensures { option_copied result ≡ slice_get self.now i }
    {
        self.items.get(i)
    }

    /// Adds a wire at the end.
    pub fn push(&mut self, item: WireId) -> Result<(), AllocError>
        ensures ok { OnOk result (self.new ≡ self.old ++ item ∷ []) }
        ensures err { OnErr result (self.new ≡ self.old) }
    {
        self.items.push(item)?;
        Ok(())
    }
}

/// A list of lists of wires: one for each parameter, or for each result.
#[derive(Drop)]
pub struct WireLists {
    items: Vec<WireList>,
}

impl Model for WireLists {
    ghost use Rattle.std.specs.Prelude.{List};
    ghost use Rattle.flat_core.specs.declared.step.WireId.{WireId};

    ghost Value = { List (List WireId) };

    ghost view = { λ l. l.items.items };
}

impl WireLists {
    /// No lists.
    pub fn new(alloc: Global) -> WireLists
        ensures { result ≡ [] }
    {
        WireLists {
            items: Vec::new(alloc),
        }
    }

    /// How many lists.
    pub fn len(&self) -> usize
        ensures { result ≡ length self.now }
    {
        self.items.len()
    }

    /// The list at a place, if there is one.
    pub fn get(&self, i: usize) -> Option<&WireList>
        ensures { option_copied result ≡ slice_get self.now i }
    {
        self.items.get(i)
    }

    /// Adds a list at the end.
    pub fn push(&mut self, item: WireList) -> Result<(), AllocError>
        ensures ok { OnOk result (self.new ≡ self.old ++ item ∷ []) }
        ensures err { OnErr result (self.new ≡ self.old) }
    {
        self.items.push(item)?;
        Ok(())
    }
}
