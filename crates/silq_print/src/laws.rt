//! Laws of printed texts, each a function without a body.

ghost use Rattle.silq_print.specs.Laws.{DerivedStands, PlacesAside, PrintedReadsBack};

/// Tokens that differ in places alone are programs together, and of trees that differ in places alone.
pub fn places_aside()
    ensures { PlacesAside }
{}

/// What a program is written as has its tree, places aside, and is within the limits where the program is.
pub fn written_as_it_stands()
    ensures { DerivedStands }
{}

/// What a program is written as is a text without a fault, its length aside, and reads back as that program, places aside.
pub fn printed_reads_back()
    ensures { PrintedReadsBack }
{}
