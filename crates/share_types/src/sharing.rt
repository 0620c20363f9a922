ghost use Rattle.std.specs.Prelude.{◌≡◌};
ghost use Rattle.share_types.specs.Wires.{sharing_of, width_of};

use mot_base::MAX_WIDTH;

/// The ways in which parties share a wire.
#[derive(Clone, Copy, Debug, PartialEq, Eq)]
pub enum Sharing {
    /// A sum of share words modulo 2^64: arithmetic GMW.
    A,
    /// An XOR of shares: Boolean GMW.
    B,
    /// BMR keys, with free XOR and point-and-permute.
    Y,
}

/// How a wire is shared and, where it holds a vector, the vector's width.
#[derive(Clone, Copy, Debug, PartialEq, Eq)]
pub enum WireType {
    /// A word modulo 2^64 as a sum of share words: arithmetic GMW.
    A,
    /// A vector of bits as an XOR of shares: Boolean GMW.
    B(u8),
    /// A vector of bits as BMR keys, with free XOR and point-and-permute.
    Y(u8),
}

impl WireType {
    /// How the value is shared.
    pub fn sharing(self) -> Sharing
        ensures { result ≡ sharing_of self }
    {
        match self {
            WireType::A => Sharing::A,
            WireType::B(_) => Sharing::B,
            WireType::Y(_) => Sharing::Y,
        }
    }

    /// How many bits the value has: 64 where it is a word.
    pub fn width(self) -> u8
        ensures { result ≡ width_of self }
    {
        match self {
            WireType::A => MAX_WIDTH,
            WireType::B(width) | WireType::Y(width) => width,
        }
    }
}
