//! The entry of a program: its name, the rules of its header, and the check of its instance.

ghost use Rattle.std.specs.Prelude.{◌≡◌, ◌<◌, reverse, map, length, Ok, Err, Some, IfOk, IfErr, OnOk};
ghost use Rattle.silq_tree.specs.declared.node.ExprId.{ExprId as Expressed};
ghost use Rattle.silq_tree.specs.Arena.{expr_at, stmt_at};
ghost use Rattle.silq_tree.specs.Standing.{fun_grown, param_of};
ghost use Rattle.silq_tree.specs.Syntax.{Expression};
ghost use Rattle.silq_types.specs.declared.signature.Signature.{Signature as Signed};
ghost use Rattle.silq_types.specs.Known.{signature_of};
ghost use Rattle.check_fun.specs.Entry.{number_of_name, program_of};
ghost use Rattle.check_scope.specs.Library.{functions_of, function_at, found_at};
ghost use Rattle.check_fun.specs.Program.{has_negative as one_negative, has_classical as one_classical, entry_rules as rules_of_entry, check_entry as entry_of};
ghost use Rattle.check_scope.specs.declared.fault.CheckFault.TheVariants.{Broken};
ghost use Rattle.check_scope.specs.Steps.{IsFirst};
ghost use Rattle.silq_types.specs.Calls.{find_fun};

use crate::instance::check_one;
use crate::tally::Tally;
use check_scope::fault::CheckFault;
use check_scope::library::Library;
use check_scope::rule::{NOT_STATIC, UNKNOWN_NAME};
use silq_tree::node::ParamNode;
use silq_tree::{Fun, FunId, NameId, Names, Spot};
use silq_types::{InstanceKey, Known, StaticList};
use std::alloc::{AllocError, Global};

/// The number of a text among these names. There is no memory for names that have no number.
pub(crate) fn name_with_text(names: &Names, text: &str) -> Result<Option<NameId>, AllocError>
    ensures { IfOk result (λ name. name ≡ number_of_name names.now text.now) }
{
    let len = u32::try_from(names.len()).map_err(|_| AllocError)?;
    for number in 0..len {
        let id = NameId { number };
        if names.text(id) == text {
            return Ok(Some(id));
        }
    }
    Ok(None)
}

/// The fault of an entry that is no function of the program; it has no place in the text.
pub(crate) fn unknown_entry() -> CheckFault
    ensures { result ≡ Broken 1 (record { line = 1; col = 1 }) }
{
    CheckFault::Broken {
        rule: UNKNOWN_NAME,
        at: Spot { line: 1, col: 1 },
    }
}

/// Whether one of the values is negative.
fn has_negative(values: &[i64]) -> bool
    ensures { result ≡ one_negative values.now }
{
    for value in values {
        if *value < 0 {
            return true;
        }
    }
    false
}

/// Whether one of the parameters is classical.
fn has_classical(params: &[ParamNode]) -> bool
    ensures { (at : Expressed → Expression) → result ≡ one_classical (map (param_of at) params.now) }
{
    for param in params {
        if param.ty.classical {
            return true;
        }
    }
    false
}

/// The rules of an entry: it has as many static parameters as there are values, none of which is negative, and no classical
/// parameters.
fn entry_rules(library: &Library, fun: &Fun, statics: &[i64]) -> Result<(), CheckFault>
    ensures fine { OnOk result (rules_of_entry (fun_grown (expr_at library.now.nodes) (stmt_at library.now.nodes) fun.now) statics.now ≡ Ok tt) }
    ensures fault { IfErr result (λ f. IsFirst f (rules_of_entry (fun_grown (expr_at library.now.nodes) (stmt_at library.now.nodes) fun.now) statics.now)) }
{
    if fun.statics.len() != statics.len()
        || has_negative(statics)
        || has_classical(fun.params.as_slice())
    {
        return Err(CheckFault::Broken {
            rule: NOT_STATIC,
            at: fun.at,
        });
    }
    Ok(())
}

/// The instance of a function with these static values.
fn instance_key(alloc: Global, fun: u32, statics: &[i64]) -> Result<InstanceKey, AllocError>
    ensures { IfOk result (λ k. k ≡ record { fun = record { number = fun }; statics = statics.now }) }
{
    let mut list = StaticList::new(alloc);
    for value in statics {
        list.push(*value)?;
    }
    Ok(InstanceKey {
        fun: FunId { number: fun },
        statics: list,
    })
}

/// Walks the instance of the function with a number with these values, whose rules hold.
fn walk_entry(
    library: &Library,
    number: u32,
    at: Spot,
    statics: &[i64],
) -> Result<(InstanceKey, Known), CheckFault>
    requires fun { number < length library.now.funs }
    requires at { at ≡ (function_at library.now number).at }
    requires rules { rules_of_entry (function_at library.now number) statics.now ≡ Ok tt }
    ensures key { IfOk result (λ r. r.0 ≡ record { fun = record { number = number }; statics = statics.now }) }
    ensures accepted { IfOk result (λ r. (s : Signed) × (entry_of (program_of library.now) statics.now (Some (found_at library.now number)) ≡ Ok (record { entry = s; met = r.1 })) × (signature_of r.1 r.0 ≡ Some s)) }
    ensures refused { IfErr result (λ f. IsFirst f (entry_of (program_of library.now) statics.now (Some (found_at library.now number)))) }
{
    let Ok(key) = instance_key(library.alloc(), number, statics) else {
        return Err(CheckFault::Memory);
    };
    let Ok(entry) = instance_key(library.alloc(), number, statics) else {
        return Err(CheckFault::Memory);
    };
    let mut tally = Tally::new(library.alloc());
    match check_one(library, number, Some(at), key, 1, &mut tally) {
        Ok(()) => Ok((entry, tally.into_known())),
        Err(fault) => Err(fault),
    }
}

/// The rules of the function with a number as an entry with these values, and its instance.
fn check_found(
    library: &Library,
    number: u32,
    statics: &[i64],
) -> Result<(InstanceKey, Known), CheckFault>
    requires { number < length library.now.funs }
    ensures key { IfOk result (λ r. r.0 ≡ record { fun = record { number = number }; statics = statics.now }) }
    ensures accepted { IfOk result (λ r. (s : Signed) × (entry_of (program_of library.now) statics.now (Some (found_at library.now number)) ≡ Ok (record { entry = s; met = r.1 })) × (signature_of r.1 r.0 ≡ Some s)) }
    ensures refused { IfErr result (λ f. IsFirst f (entry_of (program_of library.now) statics.now (Some (found_at library.now number)))) }
{
    let fun = library.fun(number);
    match entry_rules(library, fun, statics) {
        Ok(()) => walk_entry(library, number, fun.at, statics),
        Err(fault) => Err(fault),
    }
}

/// Checks a program from the function with a name: the entry with its static values, and the instances that the walk meets.
pub(crate) fn check_entry(
    library: &Library,
    name: NameId,
    statics: &[i64],
) -> Result<(InstanceKey, Known), CheckFault>
    ensures below { IfOk result (λ r. r.0.fun.number < length library.now.funs) }
    ensures found { IfOk result (λ r. find_fun (reverse (functions_of library.now)) name ≡ Some (found_at library.now r.0.fun.number)) }
    ensures values { IfOk result (λ r. r.0.statics ≡ statics.now) }
    ensures accepted { IfOk result (λ r. (s : Signed) × (entry_of (program_of library.now) statics.now (find_fun (reverse (functions_of library.now)) name) ≡ Ok (record { entry = s; met = r.1 })) × (signature_of r.1 r.0 ≡ Some s)) }
    ensures refused { IfErr result (λ f. IsFirst f (entry_of (program_of library.now) statics.now (find_fun (reverse (functions_of library.now)) name))) }
{
    let Ok(count) = u32::try_from(library.len()) else {
        return Err(CheckFault::Memory);
    };
    match library.find(name, count) {
        Some(number) => check_found(library, number, statics),
        None => Err(unknown_entry()),
    }
}
