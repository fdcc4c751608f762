//! Terms, and what steps do to one.

ghost use Rattle.std.specs.Prelude.{◌≡◌, if◌then◌else◌, IfOk, OnOk};
ghost use Rattle.silq_mean.specs.Value.{of_one, of_two, repeated, flipped, typed, is_one, part};
ghost use Rattle.silq_mean.specs.Effect.{after, received};
ghost use Rattle.silq_mean.specs.Term.{push, last, on_last, on_last_two, drop_last, turn, hadamard, value_of, assign_part, update_part, assign_all, take_out, enter, leave, equals_last};
ghost use Rattle.silq_run.specs.Steps.{meant};

use crate::stack::{Caller, Callers, Values};
use crate::step::Step;
use crate::value::Value;
use crate::variables::Variables;
use silq_mean::Receiver;
use silq_tree::{BinaryOp, NameId, UnaryOp, UpdateOp};
use silq_types::Scalar;
use std::alloc::{AllocError, Global};
use std::marker::Model;
use std::mem;

/// An environment with a factor.
#[derive(Drop)]
pub(crate) struct Term {
    pub(crate) variables: Variables,
    /// The values of the expressions under way.
    pub(crate) values: Values,
    /// What calls under way will go on with.
    pub(crate) callers: Callers,
    /// The factor is w^eighths / root two^halvings, where w is the eighth root of 1.
    pub(crate) eighths: u64,
    pub(crate) halvings: u64,
    /// How many outcomes were told.
    pub(crate) measured: u64,
}

impl Model for Term {
    ghost use Rattle.silq_mean.specs.Term.{Term as Meant};

    ghost Value = { Meant };

    ghost view = { λ t. record { env = t.variables; values = t.values; callers = t.callers; eighths = t.eighths; halvings = t.halvings; measured = t.measured } };
}

impl Term {
    /// Carries a step out.
    pub(crate) fn step(&mut self, alloc: Global, step: &Step) -> Result<(), AllocError>
        ensures { OnOk result (self.new ≡ after (meant step.now) self.old) }
    {
        match step {
            Step::GiveStatic(number) => self.values.push(Value::whole(*number)),
            Step::GiveTyped(scalar, number) => self.give_typed(*scalar, *number),
            Step::GivePart(_, name, indices) => self.give_part(alloc, *name, indices),
            Step::OneOperand(op) => self.one_operand(*op),
            Step::TwoOperands(op) => self.two_operands(*op),
            Step::CopyLast => self.copy_last(),
            Step::RepeatLast => self.repeat_last(alloc),
            Step::FlipLast => self.flip_last(),
            Step::TurnBy(one, zero) => self.turn_by(*one, *zero),
            Step::TurnAll(eighths) => self.turn(*eighths),
            Step::Receive(receiver) => self.receive(*receiver),
            Step::AssignTo(name, indices) => self.assign_part(alloc, *name, indices),
            Step::AssignInTurn(names) => self.assign_all(names),
            Step::UpdateTo(name, indices, op) => self.update_part(alloc, *name, indices, *op),
            Step::EndName(name) => self.variables.bind(*name, Value::gone()),
            Step::EndCompared(name) => self.end_compared(*name),
            Step::EnterBlock => self.variables.open(),
            Step::LeaveBlock => {
                self.variables.close();
                Ok(())
            }
            Step::EnterBody(names) => self.enter(alloc, names),
            Step::LeaveBody => self.leave(alloc),
        }
    }

    /// The same term.
    pub(crate) fn copied(&self, alloc: Global) -> Result<Term, AllocError>
        ensures { IfOk result (λ t. t ≡ self.now) }
    {
        let variables = self.variables.copied(alloc)?;
        let values = self.values.copied(alloc)?;
        let callers = self.callers.copied(alloc)?;
        Ok(Term {
            variables,
            values,
            callers,
            eighths: self.eighths,
            halvings: self.halvings,
            measured: self.measured,
        })
    }

    // ---- values

    fn give_typed(&mut self, scalar: Scalar, number: i64) -> Result<(), AllocError>
        ensures { OnOk result (self.new ≡ push self.old (typed scalar number)) }
    {
        let value = Value::typed(scalar, number)?;
        self.values.push(value)
    }

    // What a variable shows.
    fn shown(&self, alloc: Global, name: NameId) -> Result<Value, AllocError>
        ensures { IfOk result (λ v. v ≡ value_of self.now.env name) }
    {
        match self.variables.find(name) {
            Some(value) => value.copied(alloc),
            None => Ok(Value::gone()),
        }
    }

    fn give_part(&mut self, alloc: Global, name: NameId, indices: &[i64]) -> Result<(), AllocError>
        ensures { OnOk result (self.new ≡ push self.old (part (value_of self.old.env name) indices.now)) }
    {
        let value = self.shown(alloc, name)?;
        let part = value.part(alloc, indices)?;
        self.values.push(part)
    }

    fn one_operand(&mut self, op: UnaryOp) -> Result<(), AllocError>
        ensures { OnOk result (self.new ≡ on_last (of_one op) self.old) }
    {
        let value = self.values.take_last();
        let new = value.of_one(op)?;
        self.values.push(new)
    }

    fn two_operands(&mut self, op: BinaryOp) -> Result<(), AllocError>
        ensures { OnOk result (self.new ≡ on_last_two (of_two op) self.old) }
    {
        let second = self.values.take_last();
        let first = self.values.take_last();
        let new = first.of_two(op, second)?;
        self.values.push(new)
    }

    fn copy_last(&mut self) -> Result<(), AllocError>
        ensures { OnOk result (self.new ≡ on_last (λ v. v) self.old) }
    {
        let value = self.values.take_last();
        self.values.push(value)
    }

    fn repeat_last(&mut self, alloc: Global) -> Result<(), AllocError>
        ensures { OnOk result (self.new ≡ on_last_two repeated self.old) }
    {
        let value = self.values.take_last();
        let count = self.values.take_last();
        let new = value.repeated(alloc, &count)?;
        self.values.push(new)
    }

    fn flip_last(&mut self) -> Result<(), AllocError>
        ensures { OnOk result (self.new ≡ on_last flipped self.old) }
    {
        let value = self.values.take_last();
        let new = value.flipped()?;
        self.values.push(new)
    }

    fn receive(&mut self, receiver: Receiver) -> Result<(), AllocError>
        ensures { OnOk result (self.new ≡ on_last (received receiver) self.old) }
    {
        let value = self.values.take_last();
        let new = received(receiver, value)?;
        self.values.push(new)
    }

    // ---- factors

    /// Turns the factor by so many eighths. A factor of more than 2^64 eighths has no room.
    fn turn(&mut self, eighths: u64) -> Result<(), AllocError>
        ensures { OnOk result (self.new ≡ turn eighths self.old) }
    {
        let sum = self.eighths.checked_add(eighths).ok_or(AllocError)?;
        self.eighths = sum;
        Ok(())
    }

    fn turn_by(&mut self, one: u64, zero: u64) -> Result<(), AllocError>
        ensures { OnOk result (self.new ≡ turn (if is_one (last self.old) then one else zero) self.old) }
    {
        if self.has_one_last() {
            self.turn(one)
        } else {
            self.turn(zero)
        }
    }

    /// Whether the last value is 1.
    pub(crate) fn has_one_last(&self) -> bool
        ensures { result ≡ is_one (last self.now) }
    {
        match self.values.last() {
            Some(value) => value.is_one(),
            None => false,
        }
    }

    /// One of the two terms after H on the last value: the new value is this bit.
    pub(crate) fn hadamard(&mut self, bit: bool) -> Result<(), AllocError>
        ensures { OnOk result (self.new ≡ hadamard bit self.old) }
    {
        let value = self.values.take_last();
        let eighths = if value.is_one() && bit { 4 } else { 0 };
        self.turn(eighths)?;
        let halvings = self.halvings.checked_add(1).ok_or(AllocError)?;
        self.halvings = halvings;
        self.values.push(Value::truth(bit))
    }

    // ---- variables

    fn assign_part(
        &mut self,
        alloc: Global,
        name: NameId,
        indices: &[i64],
    ) -> Result<(), AllocError>
        ensures { OnOk result (self.new ≡ assign_part name indices.now self.old) }
    {
        let value = self.values.take_last();
        let old = self.shown(alloc, name)?;
        let new = old.with_part(indices, value)?;
        self.variables.bind(name, new)
    }

    fn update_part(
        &mut self,
        alloc: Global,
        name: NameId,
        indices: &[i64],
        op: UpdateOp,
    ) -> Result<(), AllocError>
        ensures { OnOk result (self.new ≡ update_part name indices.now op self.old) }
    {
        let by = self.values.take_last();
        let old = self.shown(alloc, name)?;
        let part = old.part(alloc, indices)?;
        let updated = part.updated(alloc, op, by)?;
        let new = old.with_part(indices, updated)?;
        self.variables.bind(name, new)
    }

    fn assign_all(&mut self, names: &[NameId]) -> Result<(), AllocError>
        ensures { OnOk result (self.new ≡ assign_all names.now self.old) }
    {
        let values = self.values.turn_over(names.len())?;
        self.variables.bind_all(names, values)
    }

    fn end_compared(&mut self, name: NameId) -> Result<(), AllocError>
        ensures { OnOk result (self.new ≡ drop_last (take_out name self.old)) }
    {
        self.values.take_last();
        self.variables.bind(name, Value::gone())
    }

    /// Whether a variable is equal to the last value.
    #[tactic(auto, using(crate::proofs::Combined::gone_unequal))]
    pub(crate) fn equals_last(&self, name: NameId) -> Result<bool, AllocError>
        ensures { IfOk result (λ b. b ≡ equals_last name self.now) }
    {
        let Some(value) = self.variables.find(name) else {
            return Ok(false);
        };
        let Some(last) = self.values.last() else {
            return Ok(false);
        };
        value.equals(last)
    }

    // ---- calls

    fn enter(&mut self, alloc: Global, parameters: &[NameId]) -> Result<(), AllocError>
        ensures { OnOk result (self.new ≡ enter parameters.now self.old) }
    {
        let arguments = self.values.turn_over(parameters.len())?;
        let variables = Variables::of_parameters(alloc, parameters, arguments)?;
        let caller = Caller {
            variables: mem::replace(&mut self.variables, variables),
            values: mem::replace(&mut self.values, Values::new(alloc)),
        };
        self.callers.push(caller)
    }

    fn leave(&mut self, alloc: Global) -> Result<(), AllocError>
        ensures { OnOk result (self.new ≡ leave self.old) }
    {
        let Some(caller) = self.callers.pop() else {
            return Ok(());
        };
        let Caller {
            variables,
            mut values,
        } = caller;
        let results = mem::replace(&mut self.values, Values::new(alloc));
        values.extend(results)?;
        self.variables = variables;
        self.values = values;
        Ok(())
    }
}

/// The value as what takes it over has it.
fn received(receiver: Receiver, value: Value) -> Result<Value, AllocError>
    ensures { IfOk result (λ v. v ≡ received receiver value) }
{
    match receiver {
        Receiver::Variable => Ok(value),
        Receiver::Argument(_, ty) => value.typed_as(ty.shape),
        Receiver::CallResult(ty) => value.typed_as(ty.shape),
        Receiver::EntryOutput(ty) => value.typed_as(ty.shape),
    }
}
