//! Laws of generated programs, each a contract over the definitions alone.

ghost use Rattle.silq_gen.specs.Laws.{BitsDiffer, ProgramsAreShort, SevenIsAsTold};

/// The two bits that a line names are bits of the parameter, and differ.
pub fn bits_differ()
    ensures { BitsDiffer }
{}

/// A program of at most 10,000 lines has at most 700,000 bytes.
pub fn programs_are_short()
    ensures { ProgramsAreShort }
{}

/// The program of four lines that the number 7 gives.
pub fn seven_is_as_told()
    ensures { SevenIsAsTold }
{}
