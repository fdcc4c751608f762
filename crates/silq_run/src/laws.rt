//! Laws of all terms at once. Each function has an empty body: its contract is the law.

ghost use Rattle.silq_run.specs.Laws.{PartsRunInTurn, StatementsRun, ChoicesRun, WholeRuns};

/// Parts of an effect are carried out in turn.
pub fn parts_run_in_turn()
    ensures { PartsRunInTurn }
{}

/// A statement is carried out as what it holds.
pub fn statements_run()
    ensures { StatementsRun }
{}

/// A choice is carried out as its ways in turn, and both are joined.
pub fn choices_run()
    ensures { ChoicesRun }
{}

/// From the first term of a job on this gives what the definition of `run` gives.
pub fn whole_runs()
    ensures { WholeRuns }
{}
