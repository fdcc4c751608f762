//! What typing gives for calls of the program's own functions. Each function has an empty body, and its contract is the law.

ghost use Rattle.flat_typed.specs.CallLaws.{OwnCallIsFine, InputsAreFirst};

/// A call of one of the program's own functions that is accepted needs nothing that flattening lacks, and keeps the relation, where its arguments
/// do and the signatures that typing is given tell what the functions' bodies do.
pub fn own_call_is_fine()
    ensures { OwnCallIsFine }
{}

/// No effect makes an input wire.
pub fn inputs_are_first()
    ensures { InputsAreFirst }
{}
