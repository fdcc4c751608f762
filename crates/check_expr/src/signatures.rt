//! The signatures of instances where they are called.

ghost use Rattle.std.specs.Prelude.{◌≡◌, IfOk, IfErr, Option, Some, None};
ghost use Rattle.silq_io.specs.declared.limit.LimitKind.TheVariants.{Instances, Depth};
ghost use Rattle.check_scope.specs.Context.{signature as signature_of_instance};
ghost use Rattle.check_scope.specs.Steps.{Reads, Stops};
ghost use Rattle.check_scope.specs.Walk.{too_deep as is_too_deep, met_as};
ghost use Rattle.check_expr.specs.Calls.{met_new};

use check_scope::context::Context;
use check_scope::fault::{CheckFault, ExprFault};
use silq_io::LimitKind;
use silq_types::{InstanceKey, Known, Signature};

/// The most instances that may be open, each called by the one before.
const DEEPEST: u64 = 64;

/// The most instances of a program.
const MOST_INSTANCES: u128 = 4096;

/// Whether a call of an instance of this height is too deep, with so many open instances.
fn too_deep(depth: u32, height: u32) -> bool
    ensures { result ≡ is_too_deep depth height }
{
    DEEPEST < u64::from(depth) + u64::from(height)
}

/// The limit that a call of a new instance passes, with so many open instances and so many that were checked.
fn limit_of_new(depth: u32, checked: usize) -> Option<LimitKind>
    ensures { met_as depth checked None ≡ met_new result }
{
    if too_deep(depth, 1) {
        return Some(LimitKind::Depth);
    }
    if MOST_INSTANCES < checked as u128 + u128::from(depth) + 1 {
        return Some(LimitKind::Instances);
    }
    None
}

/// The signature of an instance, where it is known and the call is not too deep. It raises the height of the walk.
pub(crate) fn signature<'a>(
    cx: &mut Context,
    key: InstanceKey,
    known: &'a Known,
) -> Result<&'a Signature, ExprFault>
    ensures reads { IfOk result (λ s. Reads known.now (signature_of_instance key) cx.old s.now cx.new) }
    ensures stops { IfErr result (λ f. Stops known.now (signature_of_instance key) cx.old f cx.new) }
{
    match known.get(&key) {
        Some(found) => {
            if too_deep(cx.depth(), found.height) {
                return Err(ExprFault::Fault(CheckFault::Limit(LimitKind::Depth)));
            }
            cx.raise(found.height);
            Ok(found)
        }
        None => match limit_of_new(cx.depth(), known.len()) {
            Some(limit) => Err(ExprFault::Fault(CheckFault::Limit(limit))),
            None => Err(ExprFault::Wanted(key)),
        },
    }
}
