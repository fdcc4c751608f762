//! Moves on qubits.

/// A control: a qubit, and whether it holds where the qubit is 1 or where it is 0.
#[derive(Clone, Copy, PartialEq, Eq)]
pub struct Control {
    pub qubit: u32,
    /// Whether it holds at 1.
    pub positive: bool,
}

/// A unitary move. Its qubits differ.
#[derive(Clone, Copy, PartialEq, Eq)]
pub enum QubitMove {
    /// Exchanges 0 and 1 of the target.
    Flip {
        target: u32,
    },
    /// The same where the control holds.
    FlipBy {
        control: Control,
        target: u32,
    },
    /// The same where both controls hold.
    FlipByTwo {
        first: Control,
        second: Control,
        target: u32,
    },
    /// The Hadamard matrix on the target.
    Hadamard {
        target: u32,
    },
    /// The same where the control holds.
    HadamardBy {
        control: Control,
        target: u32,
    },
    /// Times w^eighths where the control holds, with w the eighth root of unity: 1 to 7 eighths.
    PhaseBy {
        eighths: u8,
        control: Control,
    },
}

/// A move of a plan, on the qubits of its wires.
#[derive(Clone, Copy, PartialEq, Eq)]
pub enum PlacedMove {
    /// A unitary move.
    Unitary(QubitMove),
    /// Measures a qubit into a classical bit.
    Measured { qubit: u32, bit: u32 },
    /// Frees a qubit that was measured into the bit: it is flipped where the bit is 1, and so is 0.
    Cleared { qubit: u32, bit: u32 },
    /// Frees a qubit that is 0: nothing is to be done.
    Released,
}
