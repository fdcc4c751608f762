//! The rules of one node.

ghost use Rattle.std.specs.Prelude.{IfOk, IfErr};
ghost use Rattle.silq_types.specs.Known.{Signatures};
ghost use Rattle.check_scope.specs.Context.{rules};
ghost use Rattle.check_scope.specs.State.{State};
ghost use Rattle.check_scope.specs.Steps.{Reads, Stops};

use crate::fault::{CheckFault, ExprFault};
use silq_tree::Spot;

/// Breaks the first rule whose test holds: each pair is whether a rule is broken, and its number.
pub fn obey(at: Spot, tests: &[(bool, u8)]) -> Result<(), ExprFault>
    ensures reads { (met : Signatures) (s : State) → IfOk result (λ u. Reads met (rules at tests.now) s u s) }
    ensures stops { (met : Signatures) (s : State) → IfErr result (λ f. Stops met (rules at tests.now) s f s) }
{
    for (broken, rule) in tests {
        if *broken {
            return Err(ExprFault::Fault(CheckFault::Broken { rule: *rule, at }));
        }
    }
    Ok(())
}
