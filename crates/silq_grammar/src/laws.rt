//! Laws of the grammar, each a function without a body.

ghost use Rattle.silq_grammar.specs.Laws.{OneTree};
ghost use Rattle.silq_grammar.specs.Nest.{NestFollowsGrammar};
ghost use Rattle.silq_grammar.specs.Place.{ProgramsAreFine, TableFollowsGrammar};

/// The table says of tokens what the grammar says: which are programs, where others first go wrong, and where the nest is too
/// deep.
pub fn table_follows_grammar()
    ensures follows { TableFollowsGrammar }
    ensures programs { ProgramsAreFine }
    ensures nest { NestFollowsGrammar }
{}

/// Only one program spells given tokens.
pub fn one_tree()
    ensures { OneTree }
{}
