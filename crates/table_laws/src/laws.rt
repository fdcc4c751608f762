//! The laws of the two tables, each a function without a body.

ghost use Rattle.table_laws.specs.Laws.{CompiledTablesAgree, CompiledTextsAreReadBack, TablesAgree};

/// The table of a circuit of a program is the table of the program, with a 0 for each other qubit.
pub fn tables_agree()
    ensures { TablesAgree }
{}

/// The text of a compiled source is read back as a circuit of what its entry means.
pub fn compiled_texts_are_read_back()
    ensures { CompiledTextsAreReadBack }
{}

/// The table of the text of a compiled source is the table of the source, with a 0 for each other qubit.
pub fn compiled_tables_agree()
    ensures { CompiledTablesAgree }
{}
