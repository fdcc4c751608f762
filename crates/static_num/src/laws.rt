//! Laws of angles, each a contract over the definitions alone.

ghost use Rattle.static_num.specs.Laws.{FractionsAreLowest};

/// An angle with `pi` is a fraction of pi in lowest terms with a denominator above 0.
pub fn fractions_are_lowest()
    ensures { FractionsAreLowest }
{}
