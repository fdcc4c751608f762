//! Laws of flat forms, each a contract over the definitions alone.

ghost use Rattle.flat_laws.specs.Laws.{EffectsFollow, FlatHasTheMeaning, ZeroedEndAtZero, EndsFit, WithinLimitsFlat};

/// Step by step the terms of the flat form show those of the source, in the same order; where the condition in force does not hold the
/// steps leave each term as it is.
pub fn effects_follow()
    ensures { EffectsFollow }
{}

/// The flat form of a program gives the list of bits and amplitudes that its source gives.
pub fn flat_has_the_meaning()
    ensures { FlatHasTheMeaning }
{}

/// Where each forget of a program is true, each wire that the flat form says is Zeroed is 0 on every term at the end.
pub fn zeroed_are_zero()
    ensures { ZeroedEndAtZero }
{}

/// The ends and the lists of the form that is made of a program fit: what is measured has its M, the lists of parameters name the inputs,
/// and those of results the wires that are returned.
pub fn ends_fit()
    ensures { EndsFit }
{}

/// Within all limits the form that is made of a program is a flat form.
pub fn within_limits_flat()
    ensures { WithinLimitsFlat }
{}
