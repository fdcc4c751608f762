//! Laws of placed moves and of the circuit of a plan, each a contract over the definitions alone.

ghost use Rattle.plan_gates.specs.Laws.{GatesGivePaths, InputsBeginInOrder, OneMoreMoveAddsItsGates, PlacedMovesActOnBits, PlacedMovesCanBeEmitted, PlacersTellLists, PlansFit};

/// A placed move does to the bits of all qubits, term by term, what it does to the values of the qubits, and so does a
/// list of them.
pub fn placed_moves_act_on_bits()
    ensures { PlacedMovesActOnBits }
{}

/// What placing tells of a move that may come is what its gates ask for.
pub fn placed_moves_can_be_emitted()
    ensures { PlacedMovesCanBeEmitted }
{}

/// The gates of a list of moves, one move more, are its gates followed by those of the new move.
pub fn one_more_move_adds_its_gates()
    ensures { OneMoreMoveAddsItsGates }
{}

/// What `qubit_lists` gives for the wires of the parameters before the moves, and for those of the results after them, are
/// the qubits of the circuit's inputs and outputs.
pub fn placers_tell_lists()
    ensures { PlacersTellLists }
{}

/// Where the wires of the parameters are the first ones in their order, a row that begins with some input bits has these
/// bits, in their order, on the wires of the parameters.
pub fn inputs_begin_in_order()
    ensures { InputsBeginInOrder }
{}

/// The gates of a valid list of moves are the statements of a circuit of its width or more: in range, on different
/// qubits, and no bit is measured twice. The qubits of the inputs differ, and so do those of the outputs.
pub fn plans_fit()
    ensures { PlansFit }
{}

/// The circuit of a valid list of moves gives what the paths of the flat form give: to each value of the results the sum
/// of the weights of the paths that agree with the outcome bits and have that value at the tops, and to each value with
/// a 1 on another qubit nothing.
pub fn gates_give_paths()
    ensures { GatesGivePaths }
{}
