//! Laws of written texts, each a function without a body.

ghost use Rattle.read_laws.specs.Laws.{WrittenTextsReadBack};

/// What the writer writes is read back as the same circuit and the same lists.
pub fn written_texts_read_back()
    ensures { WrittenTextsReadBack }
{}
