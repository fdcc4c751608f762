//! What typing gives for statements, where it gives the like for their expressions. Each function has an empty body, and its contract is the law.
//! Where statements stand within others, a premise here is that they keep places apart and the names of static values free (`Keeps`); the
//! theorem takes the forms of `specs/Settled`, which hold of each statement.

ghost use Rattle.flat_typed.specs.Lemmas.{BlocksAreFine};
ghost use Rattle.flat_typed.specs.StatementLaws.{PhaseIsFine, CallIsFine, ForgetValueIsFine, UpdateIsFine, NextIsFine, LoopIsFine, StaticChoiceIsFine};

/// A block whose statements keep the relation, and after which its variables are dropped, keeps it.
pub fn blocks_are_fine()
    ensures { BlocksAreFine }
{}

/// A `phase` that is accepted keeps the relation.
pub fn phase_is_fine()
    ensures { PhaseIsFine }
{}

/// A call as a statement keeps the relation where its expression does.
pub fn call_is_fine()
    ensures { CallIsFine }
{}

/// A `forget` of a value keeps the relation where its expression does.
pub fn forget_value_is_fine()
    ensures { ForgetValueIsFine }
{}

/// An update keeps the relation where its expression does.
pub fn update_is_fine()
    ensures { UpdateIsFine }
{}

/// Two statements one behind the other keep the relation where each does.
pub fn next_is_fine()
    ensures { NextIsFine }
{}

/// A loop keeps the relation where its statements do.
pub fn loop_is_fine()
    ensures { LoopIsFine }
{}

/// A choice by a static condition keeps the relation where the statements of both blocks do.
pub fn static_choice_is_fine()
    ensures { StaticChoiceIsFine }
{}
