#![tactic(auto)]
//! What typing gives to flattening: a relation between a typing context and a state of flattening, and laws on how it moves.
//!
//! The relation stands in `specs/Relation`: the environment is read off the context and a function that gives each place its operands, and
//! no wire has two owners. `specs/Done` and `specs/Calls` say what each kind of effect does to it, and `specs/Lemmas` has the statements that
//! lead to the theorem that each accepted program is one that flattening can take (`programs::accepted_is_flattenable`). Each function has an
//! empty body, and its contract is the law.

pub mod built_ins;
pub mod calls;
pub mod handed;
pub mod in_turn;
pub mod operators;
pub mod places;
pub mod programs;
pub mod statements;
pub mod steps;

ghost use Rattle.flat_typed.specs.Laws.{ForgetIsFine, OwnMayChange, BlocksClose, BodiesSee, CallsStand};
ghost use Rattle.flat_typed.specs.Uses.{OperandsApart, ConsumedMayChange, PlacesAreThere, UsesAreThere};

/// A statement `forget x;` that is accepted needs nothing that flattening lacks, and keeps the relation.
pub fn forget_is_fine()
    ensures { ForgetIsFine }
{}

/// A value that is handed on with wires of its own may be changed: whatever else is known names none of its wires.
pub fn own_may_change()
    ensures { OwnMayChange }
{}

/// The end of a block keeps the relation.
pub fn blocks_close()
    ensures { BlocksClose }
{}

/// Where no part is consumed in two operands, and none is consumed in one and held in the other, the value of one names no wire that the
/// other consumes.
pub fn operands_apart()
    ensures { OperandsApart }
{}

/// What an expression consumes has an owner, and no condition in force guards it.
pub fn consumed_may_change()
    ensures { ConsumedMayChange }
{}

/// The part that an accepted use of a place names is a part of a variable that is not consumed, and nothing that is under way overlaps it.
pub fn places_are_there()
    ensures { PlacesAreThere }
{}

/// The scope in which the meaning of a body is told is that in which its typing is walked.
pub fn bodies_see()
    ensures { BodiesSee }
{}

/// A function that is found by its name stands at its number, and a call of it does what its body does, with the functions before it.
pub fn calls_stand()
    ensures { CallsStand }
{}

/// So are the parts that an accepted expression uses, each in the variables that stood before it; and the expression leaves the parts, types
/// and places of all variables.
pub fn uses_are_there()
    ensures { UsesAreThere }
{}
