//! Values under way, and the calls under way.

ghost use Rattle.std.specs.Prelude.{◌≡◌, [], ◌∷◌, ◌++◌, take, drop, reverse, IfSome, IfNone, IfOk, OnOk};
ghost use Rattle.flat_form.specs.State.{began_or, first};

use crate::variables::Variables;
use flat_form::Known;
use std::alloc::{AllocError, Global};
use std::marker::Model;

/// Values under way.
#[derive(Drop)]
pub(crate) struct Values {
    // the last one at the end
    items: Vec<Known>,
}

impl Model for Values {
    ghost use Rattle.std.specs.Prelude.{List, reverse};
    ghost use Rattle.flat_form.specs.declared.known.Known.{Known};

    // the last one first
    ghost Value = { List Known };

    ghost view = { λ v. reverse v.items.items };
}

impl Values {
    /// No values.
    pub(crate) fn new(alloc: Global) -> Values
        ensures { result ≡ [] }
    {
        Values {
            items: Vec::new(alloc),
        }
    }

    /// Adds a value.
    pub(crate) fn push(&mut self, value: Known) -> Result<(), AllocError>
        ensures { OnOk result (self.new ≡ value ∷ self.old) }
    {
        self.items.push(value)?;
        Ok(())
    }

    /// Takes the last value, if there is one.
    pub(crate) fn pop(&mut self) -> Option<Known>
        ensures value { IfSome result (λ k. self.old ≡ k ∷ self.new) }
        ensures none { IfNone result ((self.old ≡ []) × (self.new ≡ [])) }
    {
        self.items.pop()
    }

    /// Takes the last value, `Absent` if there is none.
    pub(crate) fn take_last(&mut self) -> Known
        ensures value { result ≡ first self.old }
        ensures rest { self.new ≡ drop 1 self.old }
    {
        self.pop().unwrap_or(Known::Absent)
    }

    /// The last value, if there is one.
    pub(crate) fn last(&self) -> Option<&Known>
        ensures value { IfSome result (λ k. self.now ≡ k.now ∷ drop 1 self.now) }
        ensures none { IfNone result (self.now ≡ []) }
    {
        self.items.last()
    }

    /// The values in order.
    pub(crate) fn as_slice(&self) -> &[Known]
        ensures { result.now ≡ reverse self.now }
    {
        self.items.as_slice()
    }

    /// Takes the last values, so many, as values of their own, of which the first one is the last.
    pub(crate) fn turn_over(&mut self, count: usize) -> Result<Values, AllocError>
        ensures turned { IfOk result (λ t. t ≡ reverse (take count self.old)) }
        ensures rest { OnOk result (self.new ≡ drop count self.old) }
    {
        let mut turned = Values::new(*self.items.allocator());
        for _ in 0..count {
            let Some(value) = self.pop() else {
                return Ok(turned);
            };
            turned.push(value)?;
        }
        Ok(turned)
    }

    /// Adds values, which stay in their order.
    pub(crate) fn extend(&mut self, mut later: Values) -> Result<(), AllocError>
        ensures { OnOk result (self.new ≡ later ++ self.old) }
    {
        self.items.append(&mut later.items)?;
        Ok(())
    }
}

/// What a call under way will go on with: the variables and values of its caller.
#[derive(Drop)]
pub(crate) struct Caller {
    /// The number of the next wire when the expression of the call began.
    pub(crate) began: usize,
    pub(crate) variables: Variables,
    pub(crate) values: Values,
}

/// The callers of the function that is under way.
#[derive(Drop)]
pub(crate) struct Callers {
    // the nearest at the end
    items: Vec<Caller>,
}

impl Model for Caller {
    ghost use Rattle.flat_form.specs.State.{Caller as KnownCaller};

    ghost Value = { KnownCaller };

    ghost view = { λ c. record { began = c.began; env = c.variables; values = c.values } };
}

impl Model for Callers {
    ghost use Rattle.std.specs.Prelude.{List, reverse};
    ghost use Rattle.flat_form.specs.State.{Caller as KnownCaller};

    // the nearest first
    ghost Value = { List KnownCaller };

    ghost view = { λ c. reverse c.items.items };
}

impl Callers {
    /// No callers.
    pub(crate) fn new(alloc: Global) -> Callers
        ensures { result ≡ [] }
    {
        Callers {
            items: Vec::new(alloc),
        }
    }

    /// Adds the caller of a function that is entered.
    pub(crate) fn push(&mut self, caller: Caller) -> Result<(), AllocError>
        ensures { OnOk result (self.new ≡ caller ∷ self.old) }
    {
        self.items.push(caller)?;
        Ok(())
    }

    /// Where the call under way began, `other` outside all calls.
    pub(crate) fn began_or(&self, other: usize) -> usize
        ensures { result ≡ began_or other self.now }
    {
        match self.items.last() {
            Some(caller) => caller.began,
            None => other,
        }
    }

    /// Takes the nearest caller, if there is one.
    pub(crate) fn pop(&mut self) -> Option<Caller>
        ensures caller { IfSome result (λ c. self.old ≡ c ∷ self.new) }
        ensures none { IfNone result ((self.old ≡ []) × (self.new ≡ [])) }
    {
        self.items.pop()
    }
}
