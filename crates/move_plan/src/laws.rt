//! Laws of valid lists of moves, each a contract over the definitions alone.

ghost use Rattle.move_plan.specs.Valid.{FormsAgree};
ghost use Rattle.move_plan.specs.AsMoves.{OrdersAreValid};
ghost use Rattle.move_plan.specs.Laws.{MovesGivePaths, MovesGiveAmplitudes, OthersAreZero, IdleAreZero};

/// To be valid by the moves before each move, and by the progress so far, is one.
pub fn forms_agree()
    ensures { FormsAgree }
{}

/// Every valid list of moves gives, whatever one adds up over the terms, what the paths give, with 0 on all wires but
/// the Output wires.
pub fn moves_give_paths()
    ensures { MovesGivePaths }
{}

/// Every valid list of moves gives to each value of some Output wires the sum of the weights of the paths that agree
/// with the outcome bits and have that value at the tops.
pub fn moves_give_amplitudes()
    ensures { MovesGiveAmplitudes }
{}

/// After a valid list of moves each wire but the Output wires is 0 in each term.
pub fn others_are_zero()
    ensures { OthersAreZero }
{}

/// After any moves that may come each wire that is not live is 0 in each term.
pub fn idle_are_zero()
    ensures { IdleAreZero }
{}

/// Each linear order of the circuit graph of a flat form, read as moves, is valid.
pub fn orders_are_valid()
    ensures { OrdersAreValid }
{}
