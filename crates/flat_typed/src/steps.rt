//! Laws on single steps.

ghost use Rattle.flat_typed.specs.Steps.{RowsTouch};

/// Rows of steps change, measure and end their own wires and new ones alone, and all but H leave each wire as plain as it was.
pub fn rows_touch()
    ensures { RowsTouch }
{}
