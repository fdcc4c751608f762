//! The names in the headers of a program.

ghost use Rattle.std.specs.Prelude.{◌≡◌, ◌<◌, ◌||◌, not, length, false, true, Ok, map, [], Err, IfOk, IfErr, OnOk, IfSome, IsNone};
ghost use Rattle.silq_tree.specs.declared.node.NameId.{NameId as Named};
ghost use Rattle.silq_tree.specs.Arena.{expr_at};
ghost use Rattle.silq_tree.specs.Standing.{param_of};
ghost use Rattle.silq_types.specs.Rules.{rule};
ghost use Rattle.silq_types.specs.Types.{same_name};
ghost use Rattle.check_scope.specs.Library.{functions_of, function_at};
ghost use Rattle.check_fun.specs.Program.{repeats, shares_name, param_names as names_of_params, header_names as names_of_header, all_headers};
ghost use Rattle.check_fun.specs.Statement.{any_name};
ghost use Rattle.check_scope.specs.Steps.{IsFirst};

use crate::name_set::NameSet;
use check_scope::fault::CheckFault;
use check_scope::library::Library;
use check_scope::rule::NAME_TAKEN;
use silq_tree::node::ParamNode;
use silq_tree::{NameId, Spot};
use std::alloc::{AllocError, Global};

/// The names as a set, or None where one is repeated.
fn distinct(alloc: Global, names: &[NameId]) -> Result<Option<NameSet>, AllocError>
    ensures repeated { IfOk result (λ set. IsNone set → repeats names.now ≡ true) }
    ensures distinct { IfOk result (λ set. IfSome set (λ s. repeats names.now ≡ false)) }
    ensures names { IfOk result (λ set. IfSome set (λ s. (x : Named) → any_name (λ y. same_name y x) s ≡ any_name (λ y. same_name y x) names.now)) }
{
    let mut set = NameSet::new(alloc);
    let mut i = names.len();
    'names: while i > 0 {
        i -= 1;
        if !set.add(names[i])? {
            return Ok(None);
        }
    }
    Ok(Some(set))
}

/// Whether a parameter has one of the names.
fn has_param(set: &NameSet, params: &[ParamNode], library: &Library) -> bool
    ensures { result ≡ shares_name set.now (map (param_of (expr_at library.now.nodes)) params.now) }
{
    for param in params {
        if set.has(param.name) {
            return true;
        }
    }
    false
}

/// The place of the first parameter with the name of an earlier one.
fn second_param(library: &Library, params: &[ParamNode]) -> Result<Option<Spot>, AllocError>
    ensures one { IfOk result (λ at. IsNone at → names_of_params [] (map (param_of (expr_at library.now.nodes)) params.now) ≡ Ok tt) }
    ensures two { IfOk result (λ at. IfSome at (λ s. names_of_params [] (map (param_of (expr_at library.now.nodes)) params.now) ≡ Err (rule 2 s))) }
{
    let mut taken = NameSet::new(library.alloc());
    for param in params {
        if !taken.add(param.name)? {
            return Ok(Some(param.at));
        }
    }
    Ok(None)
}

/// Whether a function's name is built in or not new, or one of its static names is shared.
fn is_taken(built_in: bool, new: bool, shared: bool) -> bool
    ensures { result ≡ (built_in || (not new || shared)) }
{
    built_in || !new || shared
}

/// The names of one header: that of the function is no earlier function's and no built-in one's, and those of its static parameters
/// and its parameters differ. The function's name is then among the earlier ones.
fn header_names(library: &Library, fun: u32, earlier: &mut NameSet) -> Result<(), CheckFault>
    requires { fun < length library.now.funs }
    ensures fine { OnOk result (names_of_header library.now.words earlier.old (function_at library.now fun) ≡ Ok tt) }
    ensures fault { IfErr result (λ f. IsFirst f (names_of_header library.now.words earlier.old (function_at library.now fun))) }
    ensures added { OnOk result ((x : Named) → any_name (λ y. same_name y x) earlier.new ≡ (same_name (function_at library.now fun).name x || any_name (λ y. same_name y x) earlier.old)) }
{
    let node = library.fun(fun);
    let Ok(new) = earlier.add(node.name) else {
        return Err(CheckFault::Memory);
    };
    let Ok(statics) = distinct(library.alloc(), node.statics.as_slice()) else {
        return Err(CheckFault::Memory);
    };
    let taken = CheckFault::Broken {
        rule: NAME_TAKEN,
        at: node.at,
    };
    let Some(statics) = statics else {
        return Err(taken);
    };
    let is_built_in = library.built_in(node.name).is_some();
    let is_shared = has_param(&statics, node.params.as_slice(), library);
    if is_taken(is_built_in, new, is_shared) {
        return Err(taken);
    }
    match second_param(library, node.params.as_slice()) {
        Ok(None) => Ok(()),
        Ok(Some(at)) => Err(CheckFault::Broken {
            rule: NAME_TAKEN,
            at,
        }),
        Err(_) => Err(CheckFault::Memory),
    }
}

/// The names of all headers, in the order of the file.
pub(crate) fn headers(library: &Library) -> Result<(), CheckFault>
    ensures fine { OnOk result (all_headers library.now.words [] (functions_of library.now) ≡ Ok tt) }
    ensures fault { IfErr result (λ f. IsFirst f (all_headers library.now.words [] (functions_of library.now))) }
{
    let count = library.len();
    if count > u32::MAX as usize {
        return Err(CheckFault::Memory);
    }
    let mut earlier = NameSet::new(library.alloc());
    for fun in 0..count as u32 {
        match header_names(library, fun, &mut earlier) {
            Ok(()) => {}
            Err(fault) => return Err(fault),
        }
    }
    Ok(())
}
