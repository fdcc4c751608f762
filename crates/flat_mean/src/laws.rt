//! Laws of paths, each a contract over the definitions alone.

ghost use Rattle.flat_mean.specs.Laws.{StepsGivePaths, StepsGiveAmplitudes, WeightsTellPossible};

/// Doing the steps one by one on terms gives, whatever one adds up over the terms, what the paths give.
pub fn steps_give_paths()
    ensures { StepsGivePaths }
{}

/// Doing the steps one by one on terms gives to each value of some wires the sum of the weights of the paths that
/// agree with the outcome bits and have that value at the tops.
pub fn steps_give_amplitudes()
    ensures { StepsGiveAmplitudes }
{}

/// The weight of a path is zero exactly where the path is impossible: no power of w over a power of root two is zero.
pub fn weights_tell_possible()
    ensures { WeightsTellPossible }
{}
