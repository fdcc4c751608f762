//! The functions that are built in.

/// A built-in function.
#[derive(Clone, Copy, PartialEq, Eq)]
pub enum BuiltIn {
    /// `H`
    HGate,
    /// `X`
    XGate,
    /// `Y`
    YGate,
    /// `Z`
    ZGate,
    /// `dup`
    Dup,
    /// `measure`
    Measure,
    /// `vector`
    Vector,
    /// `rotX`, which is refused by name.
    RotateX,
    /// `rotY`, which is refused by name.
    RotateY,
    /// `rotZ`, which is refused by name.
    RotateZ,
}
