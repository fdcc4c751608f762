//! Faults of the outside and of a text.

ghost use Rattle.std.specs.Prelude.{◌≡◌};
ghost use Rattle.silq_io.specs.Names.{cause_name, what_name};

/// A fault of the outside: a device that did not read or did not write.
#[derive(Clone, Copy, PartialEq, Eq)]
pub struct Failed;

/// Why a text has no tree.
#[derive(Clone, Copy, PartialEq, Eq)]
pub enum SyntaxCause {
    /// The bytes are not UTF-8.
    Utf8,
    /// A character that begins no token.
    Character,
    /// A number that is too great.
    Number,
    /// A comment without its end.
    Comment,
    /// A token that cannot come there, or an end that comes too early.
    Form,
    /// Nesting that is too deep.
    Deep,
    /// A text that is too long.
    Long,
    /// OpenQASM: a register that is not there or of the other kind, or a gate before the include.
    Undeclared,
    /// OpenQASM: an index that is out of range, or a register of size 0.
    Index,
    /// OpenQASM: a qubit that stands twice in one gate, or a register that is declared twice.
    Repeated,
}

impl SyntaxCause {
    /// The word by which the cause is printed.
    pub fn name(&self) -> &'static str
        ensures { result.now ≡ cause_name self.now }
    {
        match self {
            SyntaxCause::Utf8 => "utf8",
            SyntaxCause::Character => "character",
            SyntaxCause::Number => "number",
            SyntaxCause::Comment => "comment",
            SyntaxCause::Form => "form",
            SyntaxCause::Deep => "deep",
            SyntaxCause::Long => "long",
            SyntaxCause::Undeclared => "undeclared",
            SyntaxCause::Index => "index",
            SyntaxCause::Repeated => "repeated",
        }
    }
}

/// What is refused by name, since it is not supported.
#[derive(Clone, Copy, PartialEq, Eq)]
pub enum What {
    /// Silq: the gate `rotX`.
    RotX,
    /// Silq: the gate `rotY`.
    RotY,
    /// Silq: the gate `rotZ`.
    RotZ,
    /// Silq: an angle that is no multiple of pi/4.
    Angle,
    /// OpenQASM: a word in a gate's place that is none of the gates that are read.
    Gate,
    /// OpenQASM: a `gate` or an `opaque` definition.
    Definition,
    /// OpenQASM: `reset`.
    Reset,
    /// OpenQASM: a register without an index in a gate or a measure.
    Register,
    /// OpenQASM: an `if` whose register has not one bit.
    WideIf,
    /// OpenQASM: `measure`, `reset` or `barrier` under an `if`.
    If,
    /// OpenQASM: another file that is included.
    Include,
    /// OpenQASM: a `measure` of a bit that was measured before.
    Remeasure,
}

impl What {
    /// The words by which it is printed.
    pub fn name(&self) -> &'static str
        ensures { result.now ≡ what_name self.now }
    {
        match self {
            What::RotX => "rotX",
            What::RotY => "rotY",
            What::RotZ => "rotZ",
            What::Angle => "angle",
            What::Gate => "gate",
            What::Definition => "definition",
            What::Reset => "reset",
            What::Register => "register",
            What::WideIf => "wide if",
            What::If => "if",
            What::Include => "include",
            What::Remeasure => "remeasure",
        }
    }
}
