//! Laws of circuits, each a contract over the definitions alone.

ghost use Rattle.gate_core.specs.Laws.{JoinedCircuitsRunInTurn, JoinedTermsRunApart, RunsKeepEqualAmplitudes, RunsKeepWidth, MeasuredBitsAreKnown, OtherOutcomesAreNotRead, GatesActOnTheirQubits, SmallActionsAreLargeActions};

/// Of two joined circuits the second runs on what the first gives.
pub fn joined_circuits_run_in_turn()
    ensures { JoinedCircuitsRunInTurn }
{}

/// A circuit runs on each term by itself.
pub fn joined_terms_run_apart()
    ensures { JoinedTermsRunApart }
{}

/// A circuit takes terms with equal amplitudes to terms with equal amplitudes.
pub fn runs_keep_equal_amplitudes()
    ensures { RunsKeepEqualAmplitudes }
{}

/// In a circuit's meaning each value has one bit for each qubit.
pub fn runs_keep_width()
    ensures { RunsKeepWidth }
{}

/// A measured bit has its outcome, and another one what it had before.
pub fn measured_bits_are_known()
    ensures { MeasuredBitsAreKnown }
{}

/// An outcome bit that no statement measures is not looked at.
pub fn other_outcomes_are_not_read()
    ensures { OtherOutcomesAreNotRead }
{}

/// Gates on some qubits act as on a register of these qubits alone, and change no other qubit.
pub fn gates_act_on_their_qubits()
    ensures { GatesActOnTheirQubits }
{}

/// What gates do to each basis state of their qubits alone, they do to any terms of the large register.
pub fn small_actions_are_large_actions()
    ensures { SmallActionsAreLargeActions }
{}
