//! What each row of steps does to the values of wires, each law a contract over the definitions alone.

ghost use Rattle.bit_arith.specs.Laws.{FlipsWhereAllHold, CopiesBits, FlipsEach, BothIsAnd, EitherIsOr, EqualTellsSame, LessTellsOrder, CarryCarries, SumAdds, DifferenceSubtracts, ProductMultiplies, AddIntoAdds, SubIntoSubtracts, TurnTurns, ConjunctionTellsAll, HadSplits, MeasureMeasures, FlipsKeepOneTerm, GrowthKeeps, DraftsAreFresh, NumbersTell};

/// `flip` flips its target where the condition in force and all operands hold, and else changes nothing.
pub fn flips_where_all_hold()
    ensures { FlipsWhereAllHold }
{}

/// Copies are new wires, all different, that show the operands' bits.
pub fn copies_bits()
    ensures { CopiesBits }
{}

/// `flip_each` is exclusive or, place by place.
pub fn flips_each()
    ensures { FlipsEach }
{}

/// `both` answers whether both bits are 1.
pub fn both_is_and()
    ensures { BothIsAnd }
{}

/// `either` answers whether one of two bits is 1.
pub fn either_is_or()
    ensures { EitherIsOr }
{}

/// `equal` answers whether two lists of bits are the same.
pub fn equal_tells_same()
    ensures { EqualTellsSame }
{}

/// `less` answers whether the first number is below the second, also of numbers with a sign.
pub fn less_tells_order()
    ensures { LessTellsOrder }
{}

/// `carry` answers the carries into the places of a sum.
pub fn carry_carries()
    ensures { CarryCarries }
{}

/// `sum` adds modulo 2^n, on new wires.
pub fn sum_adds()
    ensures { SumAdds }
{}

/// `difference` subtracts modulo 2^n, on new wires.
pub fn difference_subtracts()
    ensures { DifferenceSubtracts }
{}

/// `product` multiplies modulo 2^n, on new wires.
pub fn product_multiplies()
    ensures { ProductMultiplies }
{}

/// `add_into` adds to its wires modulo 2^n.
pub fn add_into_adds()
    ensures { AddIntoAdds }
{}

/// `sub_into` subtracts from its wires modulo 2^n.
pub fn sub_into_subtracts()
    ensures { SubIntoSubtracts }
{}

/// `turn` makes one term of each term, whose eighths grow where the condition in force and all operands hold.
pub fn turn_turns()
    ensures { TurnTurns }
{}

/// `and` answers whether all operands hold, and changes nothing where the first does not.
pub fn conjunction_tells_all()
    ensures { ConjunctionTellsAll }
{}

/// `had` makes two terms of each term where the condition in force holds.
pub fn had_splits()
    ensures { HadSplits }
{}

/// `measure` keeps the terms that agree with its outcome bit.
pub fn measure_measures()
    ensures { MeasureMeasures }
{}

/// X steps make one term of each term, with the row after them.
pub fn flips_keep_one_term()
    ensures { FlipsKeepOneTerm }
{}

/// What a row leaves as it was: a wire that no step changes, and that blank wires are 0.
pub fn growth_keeps()
    ensures { GrowthKeeps }
{}

/// In a draft nothing changes a wire before it is made.
pub fn drafts_are_fresh()
    ensures { DraftsAreFresh }
{}

/// Bits and their number tell one another.
pub fn numbers_tell()
    ensures { NumbersTell }
{}
