use circuit_tables::Receiver;
use mot_base::Party;
use share_types::Bits;

/// What a statement does. `x` and `y` are the numbers of the operands' statements, counted from 0.
#[derive(Clone, Copy, Debug, PartialEq, Eq)]
pub enum Form {
    /// An input of a party, shared by sum.
    InputA { party: Party },
    /// An input of a party of so many bits, shared by XOR.
    InputB { party: Party, width: u8 },
    /// An input of a party of so many bits, shared as BMR keys.
    InputY { party: Party, width: u8 },
    /// A word.
    ConstA { c: u64 },
    /// A vector.
    ConstB { c: Bits },
    /// A vector.
    ConstY { c: Bits },
    /// The sum modulo 2^64.
    AddA { x: u32, y: u32 },
    /// The difference modulo 2^64.
    SubA { x: u32, y: u32 },
    /// The product modulo 2^64.
    MulA { x: u32, y: u32 },
    /// The sum with a constant modulo 2^64.
    AddConstA { x: u32, c: u64 },
    /// The product with a constant modulo 2^64.
    MulConstA { x: u32, c: u64 },
    /// XOR bit by bit.
    XorB { x: u32, y: u32 },
    /// XOR bit by bit.
    XorY { x: u32, y: u32 },
    /// AND bit by bit.
    AndB { x: u32, y: u32 },
    /// AND bit by bit.
    AndY { x: u32, y: u32 },
    /// The other bit at each place.
    NotB { x: u32 },
    /// The other bit at each place.
    NotY { x: u32 },
    /// The `width` bits from bit `at` on.
    SliceB { x: u32, at: u8, width: u8 },
    /// The `width` bits from bit `at` on.
    SliceY { x: u32, at: u8, width: u8 },
    /// The bits of `x` below those of `y`.
    JoinB { x: u32, y: u32 },
    /// The bits of `x` below those of `y`.
    JoinY { x: u32, y: u32 },
    /// The word as a vector of 64 bits that is shared as BMR keys.
    A2Y { x: u32 },
    /// The word as a vector of 64 bits that is shared by XOR.
    A2B { x: u32 },
    /// The vector, shared as BMR keys.
    B2Y { x: u32 },
    /// The vector, shared by XOR.
    Y2B { x: u32 },
    /// The number of the vector as a word.
    B2A { x: u32 },
    /// The number of the vector as a word.
    Y2A { x: u32 },
    /// The value of `x` is told to a receiver.
    Output { x: u32, to: Receiver },
}
