ghost use Rattle.std.specs.Prelude.{◌≡◌};

use crate::{Bits, Keys};

/// One party's part of a multiplication triple: over all parties, the sum of the `c` is the product of
/// the sum of the `a` and the sum of the `b`, modulo 2^64 (Beaver 1991).
#[derive(Clone, Copy, Debug, PartialEq, Eq)]
pub struct MultTriple {
    pub a: u64,
    pub b: u64,
    pub c: u64,
}

/// One party's part of bit triples, one for each place of the three vectors, which have one width: over all
/// parties, the XOR of the `c` is the AND of the XOR of the `a` and the XOR of the `b`.
#[derive(Clone, Copy, Debug, PartialEq, Eq)]
pub struct BitTriple {
    pub a: Bits,
    pub b: Bits,
    pub c: Bits,
    pub ghost width_of_b: { b.width ≡ a.width },
    pub ghost width_of_c: { c.width ≡ a.width },
}

/// One party's part of a bit that is shared both ways: over all parties, the XOR of the `bit` is the sum of
/// the `word`, modulo 2^64.
#[derive(Clone, Copy, Debug, PartialEq, Eq)]
pub struct SharedBit {
    pub bit: bool,
    pub word: u64,
}

/// One party's part of a bit and of its product with each party's offset, the key of owner `j` at place `j`:
/// over all parties, the XOR of these keys is the offset of `j` where the XOR of the `bit` is 1, and else 0.
#[derive(Debug, Drop)]
pub struct KeyBit {
    pub bit: bool,
    pub times: Keys,
}
