//! What the use of a variable gives, and what it leaves; and what an assignment puts there.

ghost use Rattle.std.specs.Prelude.{◌≡◌, ◌<◌, ◌≤◌, ◌+◌, ◌&&◌, not, length, IfOk};
ghost use Rattle.silq_types.specs.Types.{shape_bits};
ghost use Rattle.silq_types.specs.Calls.{is_consumed};
ghost use Rattle.flat_form.specs.declared.known.Known.TheVariants.{Shown};
ghost use Rattle.flat_form.specs.State.{part_shape, part_start, operands_of};
ghost use Rattle.flat_form.specs.Flat.{part_used, use_part, after_use, moved, assigned};
ghost use Rattle.flat_form.specs.Fine.{IsPart, MayUse, IsLent};
ghost use Rattle.flat_steps.specs.Sizes.{HasBits, IsSized};

use crate::copying::copied_operands;
use crate::parts::{bits, part_of, part_shape, part_start};
use bit_arith::Operand;
use flat_form::{Known, TypedBits};
use silq_types::Need;
use std::alloc::{AllocError, Global};

/// What the use of a variable gives.
#[derive(Drop)]
pub(crate) struct Use {
    pub(crate) given: Known,
    /// What the variable shows behind the use.
    pub(crate) left: Known,
}

/// Uses a variable, or a part of one. In a consumed use a quantum variable is moved, and a part of one is lent.
pub(crate) fn used(
    alloc: Global,
    began: usize,
    need: Need,
    indices: &[i64],
    known: Known,
) -> Result<Use, AllocError>
    requires part { MayUse indices.now known }
    requires size { IsSized known }
    ensures given { IfOk result (λ u. u.given ≡ use_part began need indices.now known) }
    ensures left { IfOk result (λ u. u.left ≡ after_use need indices.now known) }
{
    match known {
        Known::Shown(value) => used_value(alloc, began, need, indices, value),
        Known::Lent { start, size, value } => {
            let part = part_used(alloc, began, need, indices, &value)?;
            Ok(Use {
                given: Known::Shown(part),
                left: Known::Lent { start, size, value },
            })
        }
        Known::Static(number) => Ok(Use {
            given: Known::Static(number),
            left: Known::Static(number),
        }),
        Known::Absent => Ok(Use {
            given: Known::Absent,
            left: Known::Absent,
        }),
    }
}

/// Uses a variable no part of which is lent.
fn used_value(
    alloc: Global,
    began: usize,
    need: Need,
    indices: &[i64],
    value: TypedBits,
) -> Result<Use, AllocError>
    requires part { IsPart value indices.now }
    requires size { HasBits value }
    ensures given { IfOk result (λ u. u.given ≡ part_used began need indices.now value) }
    ensures left { IfOk result (λ u. u.left ≡ after_use need indices.now (Shown value)) }
{
    if !is_moved(need, value.classical) {
        let part = part_used(alloc, began, need, indices, &value)?;
        return Ok(Use {
            given: Known::Shown(part),
            left: Known::Shown(value),
        });
    }
    if indices.is_empty() {
        return Ok(Use {
            given: Known::Shown(TypedBits {
                own: true,
                began,
                ..value
            }),
            left: Known::Absent,
        });
    }
    let part = part_used(alloc, began, need, indices, &value)?;
    Ok(Use {
        given: Known::Shown(part),
        left: Known::Lent {
            start: part_start(value.shape, indices),
            size: bits(part_shape(value.shape, indices)),
            value,
        },
    })
}

/// The part of a value to which indices lead, with copies of its operands.
fn part_used(
    alloc: Global,
    began: usize,
    need: Need,
    indices: &[i64],
    value: &TypedBits,
) -> Result<TypedBits, AllocError>
    requires { IsPart value.now indices.now }
    ensures { IfOk result (λ v. Shown v ≡ part_used began need indices.now value.now) }
{
    let part = part_of(value.shape, indices, value.operands.as_slice());
    Ok(TypedBits {
        classical: value.classical,
        shape: part_shape(value.shape, indices),
        operands: copied_operands(alloc, part)?,
        own: is_moved(need, value.classical),
        began,
    })
}

/// Whether a use moves the value away.
fn is_moved(need: Need, classical: bool) -> bool
    ensures { result ≡ (is_consumed need && not classical) }
{
    match need {
        Need::Consumed => !classical,
        Need::Held => false,
    }
}

/// What a variable shows to whose lent part a value is assigned.
pub(crate) fn assigned(indices: &[i64], old: Known, new: Known) -> Result<Known, AllocError>
    requires indices { 0 < length indices.now }
    requires lent { IsLent indices.now old new }
    ensures { IfOk result (λ k. k ≡ assigned indices.now old new) }
{
    match old {
        Known::Lent {
            start,
            size,
            mut value,
        } => {
            let end = start + size;
            value.operands.replace(start, end, operands_of(&new))?;
            Ok(Known::Shown(value))
        }
        other => Ok(other),
    }
}

/// The operands that show a value.
pub(crate) fn operands_of(known: &Known) -> &[Operand]
    ensures { result.now ≡ operands_of known.now }
{
    match known {
        Known::Shown(value) => value.operands.as_slice(),
        _ => &[],
    }
}
