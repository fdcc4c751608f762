//! Names in the order in which they were pushed, with an index by name.

ghost use Rattle.std.specs.Prelude.{◌≡◌, ◌<◌, ◌-◌, [], ◌∷◌, ◌++◌, Some, length, take, slice_get, OnOk, OnErr};
ghost use Rattle.check_scope.specs.NameIndex.{last_below};

use indexmap::IndexMap;
use silq_tree::NameId;
use std::alloc::{AllocError, Global};
use std::marker::Model;

/// A name, and the number before its own at which it stands too.
#[derive(Clone, Copy)]
struct Link {
    name: NameId,
    before: Option<usize>,
}

/// A list of names that are found from its end. It is seen as the list.
#[derive(Drop)]
pub(crate) struct NameIndex {
    // the last number of each name that was ever pushed; none where all of them were taken away
    last: IndexMap<u32, Option<usize>>,
    links: Vec<Link>,
}

impl Model for NameIndex {
    ghost use Rattle.std.specs.Prelude.{ℕ, List, nat_eq};
    ghost use Rattle.silq_tree.specs.declared.node.NameId.{NameId as Name};
    ghost use Rattle.indexmap.specs.IndexMap.{get};
    ghost use Rattle.check_scope.specs.NameIndex.{names_of, Indexes};

    ghost Value = { List Name };

    ghost view = { λ index. names_of index.links.items };

    ghost invariant = { λ index. Indexes (λ (n : ℕ). get nat_eq index.last n) index.links.items };
}

impl NameIndex {
    /// No names. Takes no memory.
    pub(crate) fn new(alloc: Global) -> NameIndex
        ensures { result ≡ [] }
    {
        NameIndex {
            last: IndexMap::new(alloc),
            links: Vec::new(alloc),
        }
    }

    /// How many names.
    pub(crate) fn len(&self) -> usize
        ensures { result ≡ length self.now }
    {
        self.links.len()
    }

    /// The last number of a name.
    pub(crate) fn last(&self, name: NameId) -> Option<usize>
        ensures { result ≡ last_below self.now (length self.now) name }
    {
        match self.last.get(&name.number) {
            None => None,
            Some(last) => *last,
        }
    }

    /// The last number below this one at which its name stands too.
    pub(crate) fn before(&self, i: usize) -> Option<usize>
        requires { i < length self.now }
        ensures { (x : NameId) → slice_get self.now i ≡ Some x → result ≡ last_below self.now i x }
    {
        self.links[i].before
    }

    /// The last number of a name below n.
    pub(crate) fn last_before(&self, name: NameId, n: usize) -> Option<usize>
        ensures { result ≡ last_below self.now n name }
    {
        let mut found = self.last(name);
        while let Some(i) = found {
            if i < n {
                return Some(i);
            }
            found = self.before(i);
        }
        None
    }

    /// Adds a name at the end.
    pub(crate) fn push(&mut self, name: NameId) -> Result<(), AllocError>
        ensures ok { OnOk result (self.new ≡ self.old ++ name ∷ []) }
        ensures err { OnErr result (self.new ≡ self.old) }
    {
        let before = self.last(name);
        let number = self.links.len();
        self.links.push(Link { name, before })?;
        match self.last.insert(name.number, Some(number)) {
            Ok(_) => Ok(()),
            Err(_) => {
                self.links.pop();
                Err(AllocError)
            }
        }
    }

    /// Takes away the last name.
    fn pop(&mut self)
        requires { 0 < length self.old }
        ensures { self.new ≡ take (length self.old - 1) self.old }
    {
        if let Some(link) = self.links.pop() {
            if let Some(last) = self.last.get_mut(&link.name.number) {
                *last = link.before;
            }
        }
    }

    /// Keeps the first n names. Takes no memory, and time in what is taken away.
    pub(crate) fn truncate(&mut self, n: usize)
        ensures { self.new ≡ take n self.old }
    {
        while self.len() > n {
            self.pop();
        }
    }
}
