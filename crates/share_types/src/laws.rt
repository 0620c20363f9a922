//! What the words of the definitions have to do with one another. A law is the contract of a function that
//! does nothing.

ghost use Rattle.share_types.specs.BitLaws.{NumberOfBits, BitsOfNumber, NumberIsBelow, XorIsBitwise, AndIsBitwise, NotIsBitwise, SliceIsCut, JoinIsAppended};
ghost use Rattle.share_types.specs.PartyLaws.{TotalIsSum, XorTotalIsXor};

/// Lists of bits of one length and numbers of that many bits stand for one another.
pub fn bits_are_numbers()
    ensures number { NumberOfBits }
    ensures bits { BitsOfNumber }
    ensures below { NumberIsBelow }
{}

/// What the calls on `Bits` do to the number is what they do bit by bit to the list of bits.
pub fn operations_are_bitwise()
    ensures xor { XorIsBitwise }
    ensures and { AndIsBitwise }
    ensures not { NotIsBitwise }
    ensures slice { SliceIsCut }
    ensures join { JoinIsAppended }
{}

/// Sums and XORs over a list of what each party has are those over the party's number.
pub fn sums_are_by_party()
    ensures total { TotalIsSum }
    ensures xor_total { XorTotalIsXor }
{}
