//! Laws of the grammar, each a function without a body.

ghost use Rattle.qasm_tokens.specs.Grammar.{TableFollowsGrammar};

/// What the table accepts are the texts of the grammar, and what it goes on with are their beginnings.
pub fn table_follows_grammar()
    ensures { TableFollowsGrammar }
{}
