//! Laws of the gates of a move, each a contract over the definitions alone.

ghost use Rattle.gate_emit.specs.Laws.{GatesActAsTheirMove, GatesActAsTheirMoves, GatesOfMovesAreSound, MovesLeaveOtherQubits};

/// On any different qubits of any register, the gates of a unitary move give each bit list the
/// amplitude that the move itself gives, the global phase included.
pub fn gates_act_as_their_move()
    ensures { GatesActAsTheirMove }
{}

/// The gates of a whole list of moves, measures and frees among them, give each bit list the
/// amplitude that the moves give.
pub fn gates_act_as_their_moves()
    ensures { GatesActAsTheirMoves }
{}

/// The gates of such a list are the statements of a circuit: in range, on different qubits, and
/// no bit is measured twice.
pub fn gates_of_moves_are_sound()
    ensures { GatesOfMovesAreSound }
{}

/// A unitary move changes none but its own qubits.
pub fn moves_leave_other_qubits()
    ensures { MovesLeaveOtherQubits }
{}
