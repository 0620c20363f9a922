ghost use Rattle.std.specs.Prelude.{◌≡◌};
ghost use Rattle.bristol_reader.specs.Kinds.{is_arity, is_constant, kind_of, name_of};

/// What a gate does with its input bits.
#[derive(Clone, Copy, Debug, PartialEq, Eq)]
pub enum BristolKind {
    /// Two inputs: whether they differ.
    Xor,
    /// Two inputs: whether both are 1.
    And,
    /// The other bit.
    Inv,
    /// The constant that stands in place of its input wire.
    Eq,
    /// The same bit.
    Eqw,
    /// `2n` inputs and `n` outputs, of which output `i` is input `i` and input `n + i`.
    Mand,
}

impl BristolKind {
    /// The name that stands last in the line of a gate.
    pub(crate) fn name(self) -> &'static [u8]
        ensures { result.now ≡ name_of self }
    {
        match self {
            BristolKind::Xor => b"XOR",
            BristolKind::And => b"AND",
            BristolKind::Inv => b"INV",
            BristolKind::Eq => b"EQ",
            BristolKind::Eqw => b"EQW",
            BristolKind::Mand => b"MAND",
        }
    }

    /// Whether a gate of this kind has so many inputs and so many outputs.
    pub(crate) fn has(self, ins: u64, outs: u64) -> bool
        ensures { result ≡ is_arity self ins outs }
    {
        match self {
            BristolKind::Xor | BristolKind::And => ins == 2 && outs == 1,
            BristolKind::Inv | BristolKind::Eq | BristolKind::Eqw => ins == 1 && outs == 1,
            BristolKind::Mand => outs >= 1 && ins % 2 == 0 && ins / 2 == outs,
        }
    }

    /// Whether the one input of a gate of this kind is no wire, but the constant 0 or 1 itself.
    pub(crate) fn is_constant(self) -> bool
        ensures { result ≡ is_constant self }
    {
        match self {
            BristolKind::Eq => true,
            _ => false,
        }
    }
}

/// The kind of a name.
pub(crate) fn kind_of(word: &[u8]) -> Option<BristolKind>
    ensures { result ≡ kind_of word.now }
{
    static KINDS: [BristolKind; 6] = [
        BristolKind::Xor,
        BristolKind::And,
        BristolKind::Inv,
        BristolKind::Eq,
        BristolKind::Eqw,
        BristolKind::Mand,
    ];
    KINDS.iter().copied().find(|kind| word == kind.name())
}
