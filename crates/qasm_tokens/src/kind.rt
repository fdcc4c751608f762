//! What a token is to the grammar.

use gate_core::OneKind;

/// What a token is to the grammar.
#[derive(Clone, Copy)]
pub enum Kind {
    /// `OPENQASM`.
    OpenQasm,
    /// `2.0`.
    Version,
    /// `include`.
    Include,
    /// `qreg`.
    Qreg,
    /// `creg`.
    Creg,
    /// `measure`.
    Measure,
    /// `if`.
    If,
    /// `barrier`.
    Barrier,
    /// `gate` or `opaque`.
    Definition,
    /// `reset`.
    Reset,
    /// The word of a gate on one qubit.
    One(OneKind),
    /// `cx`.
    Cx,
    /// `cz`.
    Cz,
    /// `ccx`.
    Ccx,
    /// Any other word that starts with a lower-case letter.
    Lower,
    /// Any other word that starts with an upper-case letter.
    Upper,
    /// A number of at most 32 bits.
    Number,
    /// A greater number.
    TooGreat,
    /// `"qelib1.inc"`.
    Library,
    /// The name of another file, in quotes.
    OtherFile,
    /// `;`.
    Semicolon,
    /// `,`.
    Comma,
    /// `(`.
    LeftParen,
    /// `)`.
    RightParen,
    /// `[`.
    LeftBracket,
    /// `]`.
    RightBracket,
    /// `->`.
    Arrow,
    /// `==`.
    Equal,
    /// A character that begins no token.
    Stray,
}
