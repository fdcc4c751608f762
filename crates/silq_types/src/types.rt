//! Types.

ghost use Rattle.std.specs.Prelude.{◌≡◌, ◌<◌, ◌^◌};
ghost use Rattle.silq_types.specs.Types.{scalar_bits, shape_bits};

/// The type of one bit or one number.
#[derive(Clone, Copy, PartialEq, Eq)]
pub enum Scalar {
    Bit,
    /// `uint` with its width in bits, 1 to 64.
    UInt(u32),
    /// `int` with its width in bits, 1 to 64.
    Int(u32),
}

/// What a value is made of. No value is of a tuple or of the unit type: a call or a tuple gives several values, or none.
#[derive(Clone, Copy, PartialEq, Eq)]
pub enum Shape {
    Bit,
    /// `uint` with its width in bits, 1 to 64.
    UInt(u32),
    /// `int` with its width in bits, 1 to 64.
    Int(u32),
    /// The elements' type, and how many there are, 1 to 4,096.
    Array(Scalar, u32),
}

/// The type of a value.
#[derive(Clone, Copy, PartialEq, Eq)]
pub struct Ty {
    /// Whether it has the sign `!`.
    pub classical: bool,
    pub shape: Shape,
}

impl Scalar {
    /// How many bits a value has. Takes no memory.
    pub fn bits(&self) -> u64
        ensures { result ≡ scalar_bits self.now }
    {
        match self {
            Scalar::Bit => 1,
            Scalar::UInt(width) => *width as u64,
            Scalar::Int(width) => *width as u64,
        }
    }
}

impl Ty {
    /// How many bits a value has. Takes no memory.
    pub fn bits(&self) -> u64
        requires { shape_bits self.now.shape < 2 ^ 64 }
        ensures { result ≡ shape_bits self.now.shape }
    {
        match &self.shape {
            Shape::Bit => 1,
            Shape::UInt(width) => *width as u64,
            Shape::Int(width) => *width as u64,
            Shape::Array(element, len) => element.bits() * *len as u64,
        }
    }
}
