//! Laws of stages. Each function has an empty body: its contract is the law.

ghost use Rattle.run_stage.specs.Laws.{NothingIsCarried, PartsAreCarriedInTurn, JobsAreCarried};

/// Where there is nothing to do a stage stays.
pub fn nothing_is_carried()
    ensures { NothingIsCarried }
{}

/// Parts of an effect are carried out in turn.
pub fn parts_are_carried_in_turn()
    ensures { PartsAreCarriedInTurn }
{}

/// The stages of a job in turn give what the definition of a run gives.
pub fn jobs_are_carried()
    ensures { JobsAreCarried }
{}
