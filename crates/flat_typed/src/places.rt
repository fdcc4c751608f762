//! What typing gives for numbers and places as expressions, and for assignments to parts. Each function has an empty body, and its contract is the
//! law.

ghost use Rattle.flat_typed.specs.PlaceLaws.{NumbersAreFine, PlacesAreFine, PartAssignmentsAreFine};

/// Numbers, numbers with a type and truth values that are accepted are given, and the relation stands behind them.
pub fn numbers_are_fine()
    ensures { NumbersAreFine }
{}

/// A variable or a part of one that an accepted expression uses may be used so, and the relation stands behind it; so may a part that an
/// assignment took out.
pub fn places_are_fine()
    ensures { PlacesAreFine }
{}

/// An assignment to a part keeps the relation where its right side does.
pub fn part_assignments_are_fine()
    ensures { PartAssignmentsAreFine }
{}
