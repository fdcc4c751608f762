//! What typing gives for assignments to names, where it gives the like for the values that the names take over.

ghost use Rattle.flat_typed.specs.AssignmentLaws.{AssignNameIsFine, SpreadTupleIsFine, SpreadValueIsFine};

/// An assignment to a name keeps the relation where handing its value over does.
pub fn assign_name_is_fine()
    ensures { AssignNameIsFine }
{}

/// An assignment of a tuple to several names keeps the relation where handing its items over does.
pub fn spread_tuple_is_fine()
    ensures { SpreadTupleIsFine }
{}

/// So does an assignment of the values of one expression, where the expression does and handing over its one value does.
pub fn spread_value_is_fine()
    ensures { SpreadValueIsFine }
{}
