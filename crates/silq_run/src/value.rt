//! Values, and what operators do to them.

ghost use Rattle.std.specs.Prelude.{◌≡◌, IfOk};
ghost use Rattle.silq_mean.specs.Value.{whole, single, array, gone, truth_value, is_one, on_number, on_numbers, of_one, of_two_typed, of_two, flipped, repeated, typed, typed_as, typed_like};

use crate::number;
use crate::numbers::Numbers;
use silq_tree::{BinaryOp, UnaryOp};
use silq_types::{Scalar, Shape};
use std::alloc::{AllocError, Global};
use std::marker::Model;

/// What a value is.
#[derive(Drop)]
pub(crate) enum Kind {
    /// The value of a static expression, which takes its type where it stands.
    Whole(i64),
    Single(Scalar, u64),
    Array(Scalar, Numbers),
    /// What a name shows whose variable was taken out.
    Gone,
}

/// A value of a variable, or one under way.
#[derive(Drop)]
pub(crate) struct Value {
    pub(crate) kind: Kind,
}

impl Model for Value {
    ghost use Rattle.silq_mean.specs.Value.{Value as Meant};
    ghost use Rattle.silq_run.specs.Shown.{shown};

    ghost Value = { Meant };

    ghost view = { λ v. shown v.kind };
}

impl Value {
    /// A number without a type.
    pub(crate) fn whole(number: i64) -> Value
        ensures { result ≡ whole number }
    {
        Value {
            kind: Kind::Whole(number),
        }
    }

    /// A number of a type.
    pub(crate) fn single(scalar: Scalar, a: u64) -> Value
        ensures { result ≡ single scalar a }
    {
        Value {
            kind: Kind::Single(scalar, a),
        }
    }

    /// An array of numbers of a type.
    pub(crate) fn array(scalar: Scalar, items: Numbers) -> Value
        ensures { result ≡ array scalar items }
    {
        Value {
            kind: Kind::Array(scalar, items),
        }
    }

    /// No value.
    pub(crate) fn gone() -> Value
        ensures { result ≡ gone }
    {
        Value { kind: Kind::Gone }
    }

    /// A bit.
    pub(crate) fn truth(b: bool) -> Value
        ensures { result ≡ truth_value b }
    {
        Value::single(Scalar::Bit, u64::from(b))
    }

    /// A static number as a number of a type.
    pub(crate) fn typed(scalar: Scalar, number: i64) -> Result<Value, AllocError>
        ensures { IfOk result (λ v. v ≡ typed scalar number) }
    {
        let a = number::typed(scalar, number)?;
        Ok(Value::single(scalar, a))
    }

    /// The same value.
    pub(crate) fn copied(&self, alloc: Global) -> Result<Value, AllocError>
        ensures { IfOk result (λ v. v ≡ self.now) }
    {
        match &self.kind {
            Kind::Whole(number) => Ok(Value::whole(*number)),
            Kind::Single(scalar, a) => Ok(Value::single(*scalar, *a)),
            Kind::Array(scalar, items) => {
                let same = items.copied(alloc)?;
                Ok(Value::array(*scalar, same))
            }
            Kind::Gone => Ok(Value::gone()),
        }
    }

    /// Whether it is the number 1 of a type.
    pub(crate) fn is_one(&self) -> bool
        ensures { result ≡ is_one self.now }
    {
        match &self.kind {
            Kind::Single(_, a) => *a == 1,
            Kind::Whole(_) => false,
            Kind::Array(_, _) => false,
            Kind::Gone => false,
        }
    }

    /// A static value takes the type.
    pub(crate) fn typed_as(self, shape: Shape) -> Result<Value, AllocError>
        ensures { IfOk result (λ v. v ≡ typed_as shape self) }
    {
        let Kind::Whole(number) = self.kind else {
            return Ok(self);
        };
        match shape {
            Shape::Bit => Value::typed(Scalar::Bit, number),
            Shape::UInt(width) => Value::typed(Scalar::UInt(width), number),
            Shape::Int(width) => Value::typed(Scalar::Int(width), number),
            Shape::Array(_, _) => Ok(Value::whole(number)),
        }
    }

    /// A static value takes the type of the other.
    pub(crate) fn typed_like(self, other: &Value) -> Result<Value, AllocError>
        ensures { IfOk result (λ v. v ≡ typed_like other.now self) }
    {
        let Kind::Single(scalar, _) = &other.kind else {
            return Ok(self);
        };
        let Kind::Whole(number) = self.kind else {
            return Ok(self);
        };
        Value::typed(*scalar, number)
    }

    /// What a sign before its operand gives.
    pub(crate) fn of_one(&self, op: UnaryOp) -> Result<Value, AllocError>
        ensures { IfOk result (λ v. v ≡ of_one op self.now) }
    {
        match &self.kind {
            Kind::Single(scalar, a) => on_number(op, *scalar, *a),
            Kind::Whole(_) => Ok(Value::gone()),
            Kind::Array(_, _) => Ok(Value::gone()),
            Kind::Gone => Ok(Value::gone()),
        }
    }

    /// What a sign between its operands gives.
    pub(crate) fn of_two(self, op: BinaryOp, other: Value) -> Result<Value, AllocError>
        ensures { IfOk result (λ v. v ≡ of_two op self other) }
    {
        match other.kind {
            Kind::Single(scalar, b) => self.of_two_typed(op, scalar, b),
            Kind::Whole(number) => self.with_whole(op, number),
            Kind::Array(_, _) => Ok(Value::gone()),
            Kind::Gone => Ok(Value::gone()),
        }
    }

    // The second operand has a type.
    fn of_two_typed(&self, op: BinaryOp, scalar: Scalar, b: u64) -> Result<Value, AllocError>
        ensures { IfOk result (λ v. v ≡ of_two op self.now (single scalar b)) }
    {
        match &self.kind {
            Kind::Single(first, a) => on_numbers(op, *first, *a, b),
            Kind::Whole(number) => {
                let a = number::typed(scalar, *number)?;
                on_numbers(op, scalar, a, b)
            }
            Kind::Array(_, _) => Ok(Value::gone()),
            Kind::Gone => Ok(Value::gone()),
        }
    }

    // The second operand is a number without a type.
    fn with_whole(&self, op: BinaryOp, number: i64) -> Result<Value, AllocError>
        ensures { IfOk result (λ v. v ≡ of_two op self.now (whole number)) }
    {
        match &self.kind {
            Kind::Single(scalar, a) => {
                let b = number::typed(*scalar, number)?;
                on_numbers(op, *scalar, *a, b)
            }
            Kind::Whole(_) => Ok(Value::gone()),
            Kind::Array(_, _) => Ok(Value::gone()),
            Kind::Gone => Ok(Value::gone()),
        }
    }

    /// The other bit.
    pub(crate) fn flipped(&self) -> Result<Value, AllocError>
        ensures { IfOk result (λ v. v ≡ flipped self.now) }
    {
        self.of_one(UnaryOp::Not)
    }

    /// This value so many times, as an array.
    pub(crate) fn repeated(self, alloc: Global, count: &Value) -> Result<Value, AllocError>
        ensures { IfOk result (λ v. v ≡ repeated count.now self) }
    {
        let Kind::Whole(number) = &count.kind else {
            return Ok(Value::gone());
        };
        let Kind::Single(scalar, a) = self.kind else {
            return Ok(Value::gone());
        };
        let items = Numbers::repeated(alloc, number.unsigned_abs(), a)?;
        Ok(Value::array(scalar, items))
    }
}

// What a sign before a number gives.
fn on_number(op: UnaryOp, scalar: Scalar, a: u64) -> Result<Value, AllocError>
    ensures { IfOk result (λ v. v ≡ on_number op scalar a) }
{
    match op {
        UnaryOp::Not => Ok(Value::truth(a != 1)),
        UnaryOp::Neg => {
            let negative = number::negative(scalar, a)?;
            Ok(Value::single(scalar, negative))
        }
    }
}

// What a sign between numbers gives.
pub(crate) fn on_numbers(op: BinaryOp, scalar: Scalar, a: u64, b: u64) -> Result<Value, AllocError>
    ensures { IfOk result (λ v. v ≡ on_numbers op scalar a b) }
{
    match op {
        BinaryOp::Or => Ok(Value::truth(a == 1 || b == 1)),
        BinaryOp::And => Ok(Value::truth(a == 1 && b == 1)),
        BinaryOp::Eq => Ok(Value::truth(a == b)),
        BinaryOp::Ne => Ok(Value::truth(a != b)),
        BinaryOp::Lt => Ok(Value::truth(number::is_less(scalar, a, b)?)),
        BinaryOp::Le => Ok(Value::truth(!number::is_less(scalar, b, a)?)),
        BinaryOp::Gt => Ok(Value::truth(number::is_less(scalar, b, a)?)),
        BinaryOp::Ge => Ok(Value::truth(!number::is_less(scalar, a, b)?)),
        BinaryOp::Add => Ok(Value::single(scalar, number::sum(scalar, a, b)?)),
        BinaryOp::Sub => Ok(Value::single(scalar, number::difference(scalar, a, b)?)),
        BinaryOp::Mul => Ok(Value::single(scalar, number::product(scalar, a, b)?)),
        BinaryOp::Div => Ok(Value::gone()),
    }
}
