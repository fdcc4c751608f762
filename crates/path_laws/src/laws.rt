//! Laws that join what a program means to the paths of its flat form, each a contract over the definitions alone.

ghost use Rattle.path_laws.specs.Laws.{MeaningGivesPaths, OutcomesAreCounted, TermsFit, ParametersComeFirst, ParametersHaveTheirBits, EachPathHasATerm, EachPathHasAnOutcome, HonestGivesZeros};

/// The amplitude that a program gives to a value is the sum of the weights of the paths of its flat form that agree with the outcome bits
/// and have that value on the wires of the results.
pub fn meaning_gives_paths()
    ensures { MeaningGivesPaths }
{}

/// The flat form has as many outcome bits as the program.
pub fn outcomes_are_counted()
    ensures { OutcomesAreCounted }
{}

/// Each term at the end of a program has told as many outcomes as the flat form has, and each of its values has as many bits as the form
/// has wires for it.
pub fn terms_fit()
    ensures { TermsFit }
{}

/// The wires of the parameters are the first ones, in their order.
pub fn parameters_come_first()
    ensures { ParametersComeFirst }
{}

/// Each parameter has a wire for each bit of its type.
pub fn parameters_have_their_bits()
    ensures { ParametersHaveTheirBits }
{}

/// A path that counts has its term among those that the steps make one by one.
pub fn each_path_has_a_term()
    ensures { EachPathHasATerm }
{}

/// Each path of a flat form agrees with some outcome bits.
pub fn each_path_has_an_outcome()
    ensures { EachPathHasAnOutcome }
{}

/// Where each forget of a program is true, each wire that the flat form says is Zeroed is 0 at its top on each path whose weight is not zero.
pub fn honest_gives_zeros()
    ensures { HonestGivesZeros }
{}
