//! Laws of flat forms, each a contract over the definitions alone.

ghost use Rattle.flat_core.specs.Laws.{FlatKeepsEnds, DraftsBecomeFlat};

/// What changes a Dropped wire is undone again, and nothing changes a wire after its measure.
pub fn flat_keeps_ends()
    ensures { FlatKeepsEnds }
{}

/// A draft becomes a flat form where its ends and the lists fit.
pub fn drafts_become_flat()
    ensures { DraftsBecomeFlat }
{}
