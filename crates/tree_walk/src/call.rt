//! Calls.

ghost use Rattle.std.specs.Prelude.{◌≡◌, ◌<◌, length, IfOk};
ghost use Rattle.silq_tree.specs.Children.{AreExprsBelow};
ghost use Rattle.silq_types.specs.Calls.{needs_of_built_in};
ghost use Rattle.tree_walk.specs.Seen.{instance_in, callee_in};

use crate::body::Body;
use crate::written::{paired, results, static_values};
use check_scope::Library;
use silq_tree::ExprId;
use silq_types::{BuiltIn, Need};
use std::alloc::AllocError;

/// How a built-in function uses its arguments; past the end of the list they are held.
pub fn needs_of(word: BuiltIn) -> &'static [Need]
    ensures { result.now ≡ needs_of_built_in word }
{
    match word {
        BuiltIn::HGate => &[Need::Consumed],
        BuiltIn::XGate => &[Need::Consumed],
        BuiltIn::YGate => &[Need::Consumed],
        BuiltIn::ZGate => &[Need::Consumed],
        BuiltIn::Measure => &[Need::Consumed],
        _ => &[],
    }
}

/// What the body of a called function sees.
pub fn callee(
    library: &Library,
    body: &Body,
    fun: u32,
    statics: &[ExprId],
) -> Result<Body, AllocError>
    requires statics { AreExprsBelow (length library.now.nodes.exprs) statics.now }
    requires fun { fun < length library.now.funs }
    ensures { IfOk result (λ inner. inner ≡ callee_in library.now body.now fun statics.now) }
{
    let alloc = library.alloc();
    let numbers = static_values(alloc, library.tree(), &body.statics, statics)?;
    instance(library, fun, numbers.as_slice(), false)
}

/// What the body of a function with static values sees, as an entry or in a call.
pub fn instance(
    library: &Library,
    fun: u32,
    values: &[i64],
    entry: bool,
) -> Result<Body, AllocError>
    requires fun { fun < length library.now.funs }
    ensures { IfOk result (λ inner. inner ≡ instance_in library.now fun values.now entry) }
{
    let names = library.fun(fun).statics.as_slice();
    let statics = paired(library.alloc(), names, values)?;
    let results = results(library, fun, &statics, entry)?;
    Ok(Body {
        this: fun,
        statics,
        results,
    })
}
