//! What typing gives for values that are taken over in turn. The function has an empty body, and its contract is the law.

ghost use Rattle.flat_typed.specs.ArgumentLaws.{ListsAreFine};

/// Values that are taken over in turn, as arguments, results and values for names are, need nothing that flattening lacks, and keep the relation,
/// where each of their expressions does.
pub fn lists_are_fine()
    ensures { ListsAreFine }
{}
