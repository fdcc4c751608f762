//! The check of a program.

ghost use Rattle.std.specs.Prelude.{◌≡◌, ◌<◌, length, option_and_then, reverse, Ok, Some, IfOk, IfErr};
ghost use Rattle.silq_tree.specs.Arena.{program_at};
ghost use Rattle.silq_types.specs.declared.signature.Signature.{Signature};
ghost use Rattle.silq_types.specs.Known.{signature_of};
ghost use Rattle.check_fun.specs.Entry.{check_named, number_of_name};
ghost use Rattle.check_scope.specs.Library.{AreFunsBelow, found_at, functions_of};
ghost use Rattle.check_scope.specs.Steps.{IsFirst};
ghost use Rattle.silq_types.specs.Calls.{find_fun};
ghost use Rattle.silq_types.specs.Words.{words_of};

use crate::entry::{check_entry, name_with_text, unknown_entry};
use crate::headers::headers;
use check_scope::fault::CheckFault;
use check_scope::library::Library;
use silq_tree::Program;
use silq_types::{InstanceKey, Known};
use std::alloc::Global;

/// A program that is accepted from an entry.
#[derive(Drop)]
pub struct Checked {
    pub library: Library,
    /// The entry with its static values.
    pub entry: InstanceKey,
    /// The signatures of the instances that the walk met, the entry's among them, in the order in which their checks ended.
    pub known: Known,
}

/// Checks a program from the function `entry` with these static values: accepted, with the function of that name as its entry,
/// or the first broken rule, unsupported item or passed limit in the order of the walk.
pub fn check(
    alloc: Global,
    program: Program,
    entry: &str,
    statics: &[i64],
) -> Result<Checked, CheckFault>
    requires { AreFunsBelow (length program.tree.funs) program.funs }
    ensures library { IfOk result (λ c. c.library ≡ record { nodes = program.tree; words = words_of program.names; funs = program.funs }) }
    ensures below { IfOk result (λ c. c.entry.fun.number < length c.library.funs) }
    ensures found { IfOk result (λ c. option_and_then (find_fun (reverse (functions_of c.library))) (number_of_name program.names entry.now) ≡ Some (found_at c.library c.entry.fun.number)) }
    ensures values { IfOk result (λ c. c.entry.statics ≡ statics.now) }
    ensures accepted { IfOk result (λ c. (s : Signature) × (check_named (record { words = words_of program.names; funs = program_at program.tree program.funs }) (number_of_name program.names entry.now) statics.now ≡ Ok (record { entry = s; met = c.known })) × (signature_of c.known c.entry ≡ Some s)) }
    ensures refused { IfErr result (λ f. IsFirst f (check_named (record { words = words_of program.names; funs = program_at program.tree program.funs }) (number_of_name program.names entry.now) statics.now)) }
{
    let Ok(name) = name_with_text(&program.names, entry) else {
        return Err(CheckFault::Memory);
    };
    let Ok(library) = Library::new(alloc, program) else {
        return Err(CheckFault::Memory);
    };
    if let Err(fault) = headers(&library) {
        return Err(fault);
    }
    let Some(name) = name else {
        return Err(unknown_entry());
    };
    match check_entry(&library, name, statics) {
        Ok((entry, known)) => Ok(Checked {
            library,
            entry,
            known,
        }),
        Err(fault) => Err(fault),
    }
}
