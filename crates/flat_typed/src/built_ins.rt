//! The law on calls of built-in functions.

ghost use Rattle.flat_typed.specs.BuiltIns.{BuiltInIsFine};

/// An accepted call of a built-in function needs nothing that flattening lacks, and the relation stands behind it, where its arguments do so.
pub fn built_in_is_fine()
    ensures { BuiltInIsFine }
{}
