//! What the circuit of a plan gives, as a contract over the definitions alone.

ghost use Rattle.plan_laws.specs.Laws.{PlansGiveTheSource};

/// The circuit of a valid list of moves of a program's flat form gives the program: on each honest input and for each choice of the outcome
/// bits exactly the source's amplitudes, with every other qubit at zero.
pub fn plans_give_the_source()
    ensures { PlansGiveTheSource }
{}
