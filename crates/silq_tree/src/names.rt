//! The names of a program.

ghost use Rattle.std.specs.Prelude.{◌≡◌, ◌-◌, ◌^◌, ◌<◌, [], length, slice_get, Some, IfOk, OnOk, OnErr};
ghost use Rattle.silq_tree.specs.Texts.{with_name, AreDifferent, KeepsNames};

use crate::node::NameId;
use indexmap::IndexSet;
use std::alloc::{AllocError, Global};
use std::marker::Model;

/// Names, each with a number of its own. It is seen as the list of their texts.
#[derive(Drop)]
pub struct Names {
    alloc: Global,
    texts: IndexSet<String>,
}

impl Model for Names {
    ghost use Rattle.std.specs.Prelude.{ℕ, List, map, string_bytes};
    ghost use Rattle.silq_tree.specs.Texts.{AreDifferent};

    ghost Value = { List (List ℕ) };

    ghost view = { λ names. map string_bytes names.texts.keys };

    ghost invariant = { λ names. AreDifferent (map string_bytes names.texts.keys) };
}

impl Names {
    /// No names. Takes no memory.
    pub fn new(alloc: Global) -> Names
        ensures { result ≡ [] }
    {
        Names {
            alloc,
            texts: IndexSet::new(alloc),
        }
    }

    /// How many names.
    pub fn len(&self) -> usize
        ensures { result ≡ length self.now }
    {
        self.texts.len()
    }

    /// The number of a text: its own where it is there, else the next one.
    pub fn intern(&mut self, text: &str) -> Result<NameId, AllocError>
        requires { length self.old < 2 ^ 32 - 1 }
        ensures names { OnOk result (self.new ≡ with_name self.old text.now) }
        ensures text { IfOk result (λ id. slice_get self.new id.number ≡ Some text.now) }
        ensures kept { OnOk result (KeepsNames self.old self.new) }
        ensures err { OnErr result (self.new ≡ self.old) }
        ensures different { AreDifferent self.new }
    {
        if let Some(index) = self.texts.get_index_of(text) {
            let number = index as u32;
            return Ok(NameId { number });
        }
        let owned = String::from_str(self.alloc, text)?;
        let (index, _) = self.texts.insert_full(owned)?;
        let number = index as u32;
        Ok(NameId { number })
    }

    /// The text of a name.
    pub fn text(&self, id: NameId) -> &str
        requires { id.number < length self.now }
        ensures { slice_get self.now id.number ≡ Some result.now }
    {
        self.texts.as_slice()[id.number as usize].as_str()
    }
}
