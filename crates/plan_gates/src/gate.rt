ghost use Rattle.std.specs.Prelude.{◌≡◌, Some, None, slice_get};
ghost use Rattle.plan_gates.specs.Gate.{kind_of, operands, receiver_of, is_of_keys, is_conversion};
ghost use Rattle.plan_gates.specs.Operands.{listed};

use mot_base::Party;
use share_types::{Bits, Receiver};

/// What a gate does. `x`, `y`, `u`, `v`, `m`, `o` and `t` are the numbers of earlier gates, `k` is the number of an input
/// of the circuit, and the `at` of `InB` and `InOnline` is the first bit of that input's value. Each gate gives one value.
/// A wire that is shared as keys has two gates, one for the mask and one for the masked bits with their keys.
#[derive(Clone, Copy, Debug, PartialEq, Eq)]
pub enum GateKind {
    /// An input of a party, shared by sum.
    InA {
        party: Party,
        k: u32,
    },
    /// A word.
    ConstA {
        c: u64,
    },
    /// The sum modulo 2^64.
    AddA {
        x: u32,
        y: u32,
    },
    /// The difference modulo 2^64.
    SubA {
        x: u32,
        y: u32,
    },
    /// The sum with a constant modulo 2^64.
    AddConstA {
        x: u32,
        c: u64,
    },
    /// The product with a constant modulo 2^64.
    MulConstA {
        x: u32,
        c: u64,
    },
    /// The product modulo 2^64, which needs a multiplication triple.
    MulA {
        x: u32,
        y: u32,
    },
    /// A word is told to a receiver.
    OutA {
        x: u32,
        to: Receiver,
    },
    /// Bits of an input of a party, shared by XOR.
    InB {
        party: Party,
        k: u32,
        at: u32,
        width: u8,
    },
    /// A vector.
    ConstB {
        c: Bits,
    },
    /// XOR bit by bit.
    XorB {
        x: u32,
        y: u32,
    },
    /// XOR with a constant, bit by bit.
    XorConstB {
        x: u32,
        c: Bits,
    },
    /// The `width` bits from bit `at` on.
    SliceB {
        x: u32,
        at: u8,
        width: u8,
    },
    /// The bits of `x` below those of `y`.
    JoinB {
        x: u32,
        y: u32,
    },
    /// AND bit by bit, which needs a bit triple for each bit.
    AndB {
        x: u32,
        y: u32,
    },
    /// A vector is told to a receiver.
    OutB {
        x: u32,
        to: Receiver,
    },
    /// A fresh mask, which needs a key record for each bit.
    KeyMask {
        width: u8,
    },
    /// The mask of a constant: its bits.
    ConstMask {
        c: Bits,
    },
    /// The XOR of two masks.
    XorMask {
        u: u32,
        v: u32,
    },
    /// A mask of which the bits of a constant are flipped. Its masked bits are those of `u`.
    FlipMask {
        u: u32,
        c: Bits,
    },
    /// The `width` bits of a mask from bit `at` on.
    SliceMask {
        u: u32,
        at: u8,
        width: u8,
    },
    /// The bits of the mask `u` below those of `v`.
    JoinMask {
        u: u32,
        v: u32,
    },
    /// Bits of an input of a party behind the mask `m`, with a key for each.
    InOnline {
        party: Party,
        k: u32,
        at: u32,
        m: u32,
    },
    /// A party's share of the word `x`, which is shared by sum, behind the mask `m`, with a key for each bit.
    ShareAOnline {
        party: Party,
        x: u32,
        m: u32,
    },
    /// A party's share of the vector `x`, which is shared by XOR, behind the mask `m`, with a key for each bit.
    ShareBOnline {
        party: Party,
        x: u32,
        m: u32,
    },
    /// The masked bits of a constant: zeros.
    ZeroOnline {
        width: u8,
    },
    /// The XOR of masked bits.
    XorOnline {
        u: u32,
        v: u32,
    },
    /// The `width` masked bits from bit `at` on.
    SliceOnline {
        u: u32,
        at: u8,
        width: u8,
    },
    /// The masked bits of `u` below those of `v`.
    JoinOnline {
        u: u32,
        v: u32,
    },
    /// The garbled table of an AND of two wires with the masks `u` and `v`, whose result has the mask `m`. It needs a bit
    /// triple and a key record for each bit.
    Garble {
        u: u32,
        v: u32,
        m: u32,
    },
    /// The masked bits of the result of the table `t`, from those of both wires.
    EvalY {
        t: u32,
        u: u32,
        v: u32,
    },
    /// The wire with the mask `m` and the masked bits `o`, shared by XOR.
    YToB {
        m: u32,
        o: u32,
    },
    /// The number of the vector `x` as a word, which needs a shared bit for each bit of `x`.
    BToA {
        x: u32,
    },
}

/// The operands of a gate in order, of which there are at most three.
#[derive(Clone, Copy, Debug, PartialEq, Eq)]
pub struct Operands {
    pub first: Option<u32>,
    pub second: Option<u32>,
    pub third: Option<u32>,
}

impl GateKind {
    /// The gates whose values a gate uses.
    pub fn operands(self) -> Operands
        ensures all { listed result ≡ operands (kind_of self) }
        ensures first { result.first ≡ slice_get (operands (kind_of self)) 0 }
    {
        match self {
            GateKind::AddA { x, y }
            | GateKind::SubA { x, y }
            | GateKind::MulA { x, y }
            | GateKind::XorB { x, y }
            | GateKind::JoinB { x, y }
            | GateKind::AndB { x, y } => first_two(Some(x), Some(y)),
            GateKind::XorMask { u, v }
            | GateKind::JoinMask { u, v }
            | GateKind::XorOnline { u, v }
            | GateKind::JoinOnline { u, v } => first_two(Some(u), Some(v)),
            GateKind::YToB { m, o } => first_two(Some(m), Some(o)),
            GateKind::ShareAOnline { x, m, .. } | GateKind::ShareBOnline { x, m, .. } => {
                first_two(Some(x), Some(m))
            }
            GateKind::Garble { u, v, m } => three(u, v, m),
            GateKind::EvalY { t, u, v } => three(t, u, v),
            GateKind::AddConstA { x, .. }
            | GateKind::MulConstA { x, .. }
            | GateKind::OutA { x, .. }
            | GateKind::XorConstB { x, .. }
            | GateKind::SliceB { x, .. }
            | GateKind::OutB { x, .. }
            | GateKind::BToA { x } => first_two(Some(x), None),
            GateKind::FlipMask { u, .. }
            | GateKind::SliceMask { u, .. }
            | GateKind::SliceOnline { u, .. } => first_two(Some(u), None),
            GateKind::InOnline { m, .. } => first_two(Some(m), None),
            GateKind::InA { .. }
            | GateKind::ConstA { .. }
            | GateKind::InB { .. }
            | GateKind::ConstB { .. }
            | GateKind::KeyMask { .. }
            | GateKind::ConstMask { .. }
            | GateKind::ZeroOnline { .. } => first_two(None, None),
        }
    }

    /// Who is told the value of a gate, if it is an output.
    pub fn receiver(self) -> Option<Receiver>
        ensures { result ≡ receiver_of (kind_of self) }
    {
        match self {
            GateKind::OutA { to, .. } | GateKind::OutB { to, .. } => Some(to),
            _ => None,
        }
    }

    /// Whether a gate enters a party's share of a value behind a mask, or makes a word of a vector.
    pub fn is_conversion(self) -> bool
        ensures { result ≡ is_conversion (kind_of self) }
    {
        match self {
            GateKind::ShareAOnline { .. } | GateKind::ShareBOnline { .. } | GateKind::BToA { .. } =>
                true,
            _ => false,
        }
    }

    /// Whether a gate is one of those that wires shared as keys have, or that a conversion has.
    pub fn is_of_keys(self) -> bool
        ensures { result ≡ is_of_keys (kind_of self) }
    {
        match self {
            GateKind::KeyMask { .. }
            | GateKind::ConstMask { .. }
            | GateKind::XorMask { .. }
            | GateKind::FlipMask { .. }
            | GateKind::SliceMask { .. }
            | GateKind::JoinMask { .. }
            | GateKind::InOnline { .. }
            | GateKind::ZeroOnline { .. }
            | GateKind::XorOnline { .. }
            | GateKind::SliceOnline { .. }
            | GateKind::JoinOnline { .. }
            | GateKind::Garble { .. }
            | GateKind::EvalY { .. }
            | GateKind::YToB { .. } => true,
            _ => self.is_conversion(),
        }
    }
}

/// Three operands.
fn three(first: u32, second: u32, third: u32) -> Operands
    ensures { result ≡ record { first = Some first; second = Some second; third = Some third } }
{
    Operands {
        first: Some(first),
        second: Some(second),
        third: Some(third),
    }
}

/// At most two operands.
fn first_two(first: Option<u32>, second: Option<u32>) -> Operands
    ensures { result ≡ record { first = first; second = second; third = None } }
{
    Operands {
        first,
        second,
        third: None,
    }
}
