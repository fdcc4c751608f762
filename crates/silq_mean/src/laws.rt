//! Laws of the definitions. Each function has an empty body: its contract is the law.

ghost use Rattle.silq_mean.specs.Laws.{RunRearranges, RunHolds, TrueForgetsPass, RunGivesTheMeaning};

/// Where nothing is refused, running all terms at once gives the terms of the meaning in another order.
pub fn run_rearranges()
    ensures { RunRearranges }
{}

/// And each forget was true on each term that reached it.
pub fn run_holds()
    ensures { RunHolds }
{}

/// So it is for a whole program.
pub fn run_gives_the_meaning()
    ensures { RunGivesTheMeaning }
{}

/// Where each forget is true on each term that reaches it, none is called false.
pub fn true_forgets_pass()
    ensures { TrueForgetsPass }
{}
