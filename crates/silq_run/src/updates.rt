//! Updates of values, and whether values are equal.

ghost use Rattle.std.specs.Prelude.{◌≡◌, IfOk};
ghost use Rattle.silq_tree.specs.declared.node.UpdateOp.TheVariants as updates;
ghost use Rattle.silq_types.specs.Types.{scalar_bits};
ghost use Rattle.silq_types.specs.declared.types.Scalar.{Scalar};
ghost use Rattle.silq_mean.specs.Value.{whole, single, array, of_two_typed, update_typed, updated, all_exclusive_or, equal_values};

use crate::number;
use crate::numbers::Numbers;
use crate::value::{Kind, Value, on_numbers};
use silq_tree::{BinaryOp, UpdateOp};
use silq_types::Scalar;
use std::alloc::{AllocError, Global};

impl Value {
    /// The value after an update by another.
    #[tactic(auto, using(crate::proofs::Combined::added, crate::proofs::Combined::subtracted))]
    pub(crate) fn updated(
        &self,
        alloc: Global,
        op: UpdateOp,
        by: Value,
    ) -> Result<Value, AllocError>
        ensures { IfOk result (λ v. v ≡ updated op self.now by) }
    {
        let other = by.typed_like(self)?;
        match op {
            UpdateOp::Add => self.joined(BinaryOp::Add, &other),
            UpdateOp::Sub => self.joined(BinaryOp::Sub, &other),
            UpdateOp::Xor => self.exclusive_or(alloc, &other),
        }
    }

    // What a sign between numbers of types gives.
    fn joined(&self, op: BinaryOp, other: &Value) -> Result<Value, AllocError>
        ensures { IfOk result (λ v. v ≡ of_two_typed op self.now other.now) }
    {
        let Kind::Single(scalar, a) = &self.kind else {
            return Ok(Value::gone());
        };
        let Kind::Single(_, b) = &other.kind else {
            return Ok(Value::gone());
        };
        on_numbers(op, *scalar, *a, *b)
    }

    // The exclusive or, of arrays item by item.
    fn exclusive_or(&self, alloc: Global, other: &Value) -> Result<Value, AllocError>
        ensures { IfOk result (λ v. v ≡ update_typed updates.Xor self.now other.now) }
    {
        match &self.kind {
            Kind::Single(scalar, a) => {
                let Kind::Single(_, b) = &other.kind else {
                    return Ok(Value::gone());
                };
                let c = number::exclusive_or(*scalar, *a, *b)?;
                Ok(Value::single(*scalar, c))
            }
            Kind::Array(scalar, items) => {
                let Kind::Array(_, others) = &other.kind else {
                    return Ok(Value::gone());
                };
                let cs = all_exclusive_or(alloc, *scalar, items.as_slice(), others.as_slice())?;
                Ok(Value::array(*scalar, cs))
            }
            Kind::Whole(_) => Ok(Value::gone()),
            Kind::Gone => Ok(Value::gone()),
        }
    }

    /// Whether the value is equal to another.
    #[tactic(auto, using(crate::proofs::Combined::gone_unequal))]
    pub(crate) fn equals(&self, other: &Value) -> Result<bool, AllocError>
        ensures { IfOk result (λ b. b ≡ equal_values self.now other.now) }
    {
        match &other.kind {
            Kind::Single(_, b) => Ok(self.is_number(*b)),
            Kind::Whole(number) => self.is_whole(*number),
            Kind::Array(_, items) => Ok(self.is_array(items)),
            Kind::Gone => Ok(false),
        }
    }

    // Whether it is this number.
    fn is_number(&self, b: u64) -> bool
        ensures { (k : Scalar) → result ≡ equal_values self.now (single k b) }
    {
        let Kind::Single(_, a) = &self.kind else {
            return false;
        };
        *a == b
    }

    // Whether it is the number of its type that is equal to a static one.
    fn is_whole(&self, number: i64) -> Result<bool, AllocError>
        ensures { IfOk result (λ b. b ≡ equal_values self.now (whole number)) }
    {
        let Kind::Single(scalar, a) = &self.kind else {
            return Ok(false);
        };
        let b = number::typed(*scalar, number)?;
        Ok(*a == b)
    }

    // Whether it is an array of these items.
    fn is_array(&self, others: &Numbers) -> bool
        ensures { (k : Scalar) → result ≡ equal_values self.now (array k others.now) }
    {
        let Kind::Array(_, items) = &self.kind else {
            return false;
        };
        items.same(others)
    }
}

// The exclusive or of numbers in turn, as long as there are both.
fn all_exclusive_or(
    alloc: Global,
    scalar: Scalar,
    firsts: &[u64],
    seconds: &[u64],
) -> Result<Numbers, AllocError>
    ensures { IfOk result (λ cs. cs ≡ all_exclusive_or (scalar_bits scalar) firsts.now seconds.now) }
{
    let mut joined = Numbers::new(alloc);
    let mut rest = seconds;
    for a in firsts {
        let [b, others @ ..] = rest else {
            return Ok(joined);
        };
        let c = number::exclusive_or(scalar, *a, *b)?;
        joined.push(c)?;
        rest = others;
    }
    Ok(joined)
}
