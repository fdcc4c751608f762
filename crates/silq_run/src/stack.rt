//! Values under way, and the calls under way.

ghost use Rattle.std.specs.Prelude.{◌≡◌, [], ◌∷◌, ◌++◌, take, drop, reverse, IfSome, IfNone, IfOk, OnOk};
ghost use Rattle.silq_mean.specs.Term.{first};

use crate::value::Value;
use crate::variables::Variables;
use std::alloc::{AllocError, Global};
use std::marker::Model;

/// Values under way.
#[derive(Drop)]
pub(crate) struct Values {
    // the last one at the end
    items: Vec<Value>,
}

impl Model for Values {
    ghost use Rattle.std.specs.Prelude.{List, reverse};
    ghost use Rattle.silq_mean.specs.Value.{Value as Meant};

    // the last one first
    ghost Value = { List Meant };

    ghost view = { λ v. reverse v.items.items };
}

impl Values {
    /// No values.
    pub(crate) fn new(alloc: Global) -> Values
        ensures { result ≡ [] }
    {
        Values {
            items: Vec::new(alloc),
        }
    }

    /// The same values.
    pub(crate) fn copied(&self, alloc: Global) -> Result<Values, AllocError>
        ensures { IfOk result (λ v. v ≡ self.now) }
    {
        let mut items = Vec::new(alloc);
        for value in self.items.as_slice() {
            let same = value.copied(alloc)?;
            items.push(same)?;
        }
        Ok(Values { items })
    }

    /// Adds a value.
    pub(crate) fn push(&mut self, value: Value) -> Result<(), AllocError>
        ensures { OnOk result (self.new ≡ value ∷ self.old) }
    {
        self.items.push(value)?;
        Ok(())
    }

    /// Takes the last value, if there is one.
    pub(crate) fn pop(&mut self) -> Option<Value>
        ensures value { IfSome result (λ k. self.old ≡ k ∷ self.new) }
        ensures none { IfNone result ((self.old ≡ []) × (self.new ≡ [])) }
    {
        self.items.pop()
    }

    /// Takes the last value, none if there is none.
    pub(crate) fn take_last(&mut self) -> Value
        ensures value { result ≡ first self.old }
        ensures rest { self.new ≡ drop 1 self.old }
    {
        self.pop().unwrap_or(Value::gone())
    }

    /// The last value, if there is one.
    pub(crate) fn last(&self) -> Option<&Value>
        ensures value { IfSome result (λ k. self.now ≡ k.now ∷ drop 1 self.now) }
        ensures none { IfNone result (self.now ≡ []) }
    {
        self.items.last()
    }

    /// The values in order.
    pub(crate) fn as_slice(&self) -> &[Value]
        ensures { result.now ≡ reverse self.now }
    {
        self.items.as_slice()
    }

    /// Takes the last values, so many, as values of their own, of which the first one is the last.
    pub(crate) fn turn_over(&mut self, count: usize) -> Result<Values, AllocError>
        ensures turned { IfOk result (λ t. t ≡ reverse (take count self.old)) }
        ensures rest { OnOk result (self.new ≡ drop count self.old) }
    {
        let mut turned = Values::new(*self.items.allocator());
        for _ in 0..count {
            let Some(value) = self.pop() else {
                return Ok(turned);
            };
            turned.push(value)?;
        }
        Ok(turned)
    }

    /// Adds values, which stay in their order.
    pub(crate) fn extend(&mut self, mut later: Values) -> Result<(), AllocError>
        ensures { OnOk result (self.new ≡ later ++ self.old) }
    {
        self.items.append(&mut later.items)?;
        Ok(())
    }
}

/// What a call under way will go on with: the variables and values of its caller.
#[derive(Drop)]
pub(crate) struct Caller {
    pub(crate) variables: Variables,
    pub(crate) values: Values,
}

/// The callers of the function that is under way.
#[derive(Drop)]
pub(crate) struct Callers {
    // the nearest at the end
    items: Vec<Caller>,
}

impl Model for Caller {
    ghost use Rattle.silq_mean.specs.Term.{Caller as MeantCaller};

    ghost Value = { MeantCaller };

    ghost view = { λ c. record { env = c.variables; values = c.values } };
}

impl Model for Callers {
    ghost use Rattle.std.specs.Prelude.{List, reverse};
    ghost use Rattle.silq_mean.specs.Term.{Caller as MeantCaller};

    // the nearest first
    ghost Value = { List MeantCaller };

    ghost view = { λ c. reverse c.items.items };
}

impl Caller {
    /// The same variables and values.
    fn copied(&self, alloc: Global) -> Result<Caller, AllocError>
        ensures { IfOk result (λ c. c ≡ self.now) }
    {
        let variables = self.variables.copied(alloc)?;
        let values = self.values.copied(alloc)?;
        Ok(Caller { variables, values })
    }
}

impl Callers {
    /// No callers.
    pub(crate) fn new(alloc: Global) -> Callers
        ensures { result ≡ [] }
    {
        Callers {
            items: Vec::new(alloc),
        }
    }

    /// The same callers.
    pub(crate) fn copied(&self, alloc: Global) -> Result<Callers, AllocError>
        ensures { IfOk result (λ c. c ≡ self.now) }
    {
        let mut items = Vec::new(alloc);
        for caller in self.items.as_slice() {
            let same = caller.copied(alloc)?;
            items.push(same)?;
        }
        Ok(Callers { items })
    }

    /// Adds the caller of a function that is entered.
    pub(crate) fn push(&mut self, caller: Caller) -> Result<(), AllocError>
        ensures { OnOk result (self.new ≡ caller ∷ self.old) }
    {
        self.items.push(caller)?;
        Ok(())
    }

    /// Takes the nearest caller, if there is one.
    pub(crate) fn pop(&mut self) -> Option<Caller>
        ensures caller { IfSome result (λ c. self.old ≡ c ∷ self.new) }
        ensures none { IfNone result ((self.old ≡ []) × (self.new ≡ [])) }
    {
        self.items.pop()
    }
}
