//! The check of one instance.

ghost use Rattle.std.specs.Prelude.{◌≡◌, ◌<◌, ◌≤◌, length, Ok, None, IfErr, OnOk};
ghost use Rattle.silq_types.specs.declared.signature.Signature.{Signature as Signed};
ghost use Rattle.silq_types.specs.Known.{signature_of};
ghost use Rattle.check_scope.specs.Headers.{spot_or};
ghost use Rattle.check_scope.specs.Library.{before_at, function_at};
ghost use Rattle.check_fun.specs.Program.{instances, check_one as one_of};
ghost use Rattle.check_scope.specs.Steps.{IsFirst};

use crate::body::whole_body;
use crate::params::{add_params, static_values};
use crate::results::signature_of_body;
use crate::tally::Tally;
use check_scope::context::Context;
use check_scope::fault::CheckFault;
use check_scope::header::header_types;
use check_scope::library::Library;
use silq_tree::Spot;
use silq_types::InstanceKey;

/// Where a fault stands that is no place of the file.
const START: Spot = Spot { line: 1, col: 1 };

/// Checks an instance that is not known, of a function before the one with a number, with so many open instances, itself one of them.
#[cycle(statement)]
pub(crate) fn instance(
    library: &Library,
    before: u32,
    key: InstanceKey,
    depth: u32,
    tally: &mut Tally,
) -> Result<(), CheckFault>
    requires before { before ≤ length library.now.funs }
    requires depth { depth ≤ 64 }
    requires new { signature_of tally.old.met key ≡ None }
    ensures known { OnOk result ((s : Signed) × (instances library.now.words (before_at library.now before) depth key tally.old ≡ Ok (s, tally.new))) }
    ensures fault { IfErr result (λ f. IsFirst f (instances library.now.words (before_at library.now before) depth key tally.old)) }
{
    let fun = key.fun.number;
    if fun >= before {
        return Err(CheckFault::Broken { rule: 1, at: START });
    }
    check_one(library, fun, None, key, depth, tally)
}

/// Checks an instance of the function with a number, and keeps its signature. Faults of its header stand at their types, or where a
/// place is given, there.
#[cycle(statement)]
pub(crate) fn check_one(
    library: &Library,
    fun: u32,
    at: Option<Spot>,
    key: InstanceKey,
    depth: u32,
    tally: &mut Tally,
) -> Result<(), CheckFault>
    requires fun { fun < length library.now.funs }
    requires depth { depth ≤ 64 }
    requires new { signature_of tally.old.met key ≡ None }
    requires key { key.fun.number ≡ fun }
    ensures known { OnOk result ((s : Signed) × (one_of (instances library.now.words (before_at library.now fun)) library.now.words (before_at library.now fun) (function_at library.now fun) (spot_or at) depth key tally.old ≡ Ok (s, tally.new))) }
    ensures fault { IfErr result (λ f. IsFirst f (one_of (instances library.now.words (before_at library.now fun)) library.now.words (before_at library.now fun) (function_at library.now fun) (spot_or at) depth key tally.old)) }
{
    let node = library.fun(fun);
    let Ok(statics) = static_values(library, node.statics.as_slice(), key.statics.as_slice()) else {
        return Err(CheckFault::Memory);
    };
    let header = match header_types(library, &statics, fun, at) {
        Ok(header) => header,
        Err(fault) => return Err(fault),
    };
    let mut cx = Context::new(library.alloc(), fun, header.results, statics, depth);
    let Ok(()) = add_params(library, &mut cx, node.params.as_slice(), &header.params) else {
        return Err(CheckFault::Memory);
    };
    let values = match whole_body(library, &mut cx, tally, &node.body) {
        Ok(values) => values,
        Err(fault) => return Err(fault),
    };
    let Ok(signature) = signature_of_body(library.alloc(), &cx, header.params, node.mark, &values)
    else {
        return Err(CheckFault::Memory);
    };
    match tally.add(key, signature) {
        Ok(()) => Ok(()),
        Err(_) => Err(CheckFault::Memory),
    }
}
