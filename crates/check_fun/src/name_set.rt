//! Sets of names.

ghost use Rattle.std.specs.Prelude.{◌≡◌, not, ◌||◌, [], IfOk, OnOk};
ghost use Rattle.silq_tree.specs.declared.node.NameId.{NameId as Named};
ghost use Rattle.silq_types.specs.Types.{same_name};
ghost use Rattle.check_fun.specs.Statement.{any_name};

use indexmap::IndexSet;
use silq_tree::NameId;
use std::alloc::{AllocError, Global};
use std::marker::Model;

/// Names, each once.
#[derive(Drop)]
pub(crate) struct NameSet {
    names: IndexSet<NameId>,
}

impl Model for NameSet {
    ghost use Rattle.std.specs.Prelude.{List};
    ghost use Rattle.silq_tree.specs.declared.node.NameId.{NameId as Name};

    ghost Value = { List Name };

    ghost view = { λ set. set.names.keys };
}

impl NameSet {
    /// No names. Takes no memory.
    pub(crate) fn new(alloc: Global) -> NameSet
        ensures { result ≡ [] }
    {
        NameSet {
            names: IndexSet::new(alloc),
        }
    }

    /// Whether it has a name.
    pub(crate) fn has(&self, name: NameId) -> bool
        ensures { result ≡ any_name (λ y. same_name y name) self.now }
    {
        self.names.contains(&name)
    }

    /// Adds a name, and tells whether it is new.
    pub(crate) fn add(&mut self, name: NameId) -> Result<bool, AllocError>
        ensures new { IfOk result (λ new. new ≡ not (any_name (λ y. same_name y name) self.old)) }
        ensures added { OnOk result ((x : Named) → any_name (λ y. same_name y x) self.new ≡ (same_name name x || any_name (λ y. same_name y x) self.old)) }
    {
        let new = self.names.insert(name)?;
        Ok(new)
    }
}
