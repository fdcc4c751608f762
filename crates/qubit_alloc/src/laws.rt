//! Laws of placing, each a contract over the definitions alone.

ghost use Rattle.qubit_alloc.specs.Laws.{LiveWiresApart, OutputsApart, InputsStandFirst, PlacedMovesAgree, PlacedPlansAgree, CircuitGivesPaths, OtherQubitsZero};

/// After each first part of a valid list of moves the live wires stand on different qubits below the width.
pub fn live_wires_apart()
    ensures { LiveWiresApart }
{}

/// After a valid list of moves all Output wires stand on different qubits below the width.
pub fn outputs_apart()
    ensures { OutputsApart }
{}

/// The qubits begin with the input bits in their order, and with 0 on all others.
pub fn inputs_stand_first()
    ensures { InputsStandFirst }
{}

/// Any moves that may come give on their qubits what they give on wires, and 0 on all other qubits.
pub fn placed_moves_agree()
    ensures { PlacedMovesAgree }
{}

/// A valid list of moves gives on its qubits what it gives on wires, read at the Output wires, and 0 on all others.
pub fn placed_plans_agree()
    ensures { PlacedPlansAgree }
{}

/// A valid list of moves, on qubits, gives to each value of some Output wires the sum of the weights of the paths
/// that agree with the outcome bits and have that value at the tops.
pub fn circuit_gives_paths()
    ensures { CircuitGivesPaths }
{}

/// After a valid list of moves each qubit on which no Output wire stands is 0 in each term.
pub fn other_qubits_zero()
    ensures { OtherQubitsZero }
{}
