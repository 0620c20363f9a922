ghost use Rattle.std.specs.Prelude.{◌≡◌, ◌<◌, ◌≤◌, ◌+◌, ◌-◌, ◌*◌, ◌/◌, ◌%◌, ◌^◌, ◌↔◌, IsSome, IfSome, bit_and, bit_xor};
ghost use Rattle.mot_base.specs.Limits.{most_width};

use mot_base::MAX_WIDTH;
use std::marker::Model;

/// A vector of `width` bits as the number `word`: bit `i` of the vector is the bit of value `2^i`.
/// A width is 1 to 64, and the number has no bit at or above it.
#[derive(Clone, Copy, Debug, PartialEq, Eq)]
pub struct Bits {
    pub word: u64,
    pub width: u8,
    pub ghost some_width: { 1 ≤ width },
    pub ghost most_width: { width ≤ most_width },
    pub ghost in_width: { word < 2 ^ width },
}

impl Bits {
    /// The vector of that number and width, if there is one.
    pub fn new(word: u64, width: u8) -> Option<Bits>
        ensures found { IsSome result ↔ ((1 ≤ width) × (width ≤ most_width) × (word < 2 ^ width)) }
        ensures word { IfSome result (λ bits. bits.word ≡ word) }
        ensures width { IfSome result (λ bits. bits.width ≡ width) }
    {
        if width < 1 || width > MAX_WIDTH {
            return None;
        }
        if width < MAX_WIDTH && word >> width != 0 {
            return None;
        }
        Some(Bits { word, width })
    }

    /// The vector of a width that has no bit.
    pub fn zeros(width: u8) -> Bits
        requires some { 1 ≤ width }
        requires most { width ≤ most_width }
        ensures word { result.word ≡ 0 }
        ensures width { result.width ≡ width }
    {
        Bits { word: 0, width }
    }

    /// The vector of a width whose bits are all 1.
    pub fn ones(width: u8) -> Bits
        requires some { 1 ≤ width }
        requires most { width ≤ most_width }
        ensures word { result.word ≡ 2 ^ width - 1 }
        ensures width { result.width ≡ width }
    {
        Bits::zeros(width).not()
    }

    /// Bit by bit, 1 where the two differ.
    pub fn xor(self, other: Bits) -> Bits
        requires { other.width ≡ self.width }
        ensures word { result.word ≡ bit_xor self.word other.word }
        ensures width { result.width ≡ self.width }
    {
        Bits {
            word: self.word ^ other.word,
            width: self.width,
        }
    }

    /// Bit by bit, 1 where both are 1.
    pub fn and(self, other: Bits) -> Bits
        requires { other.width ≡ self.width }
        ensures word { result.word ≡ bit_and self.word other.word }
        ensures width { result.width ≡ self.width }
    {
        Bits {
            word: self.word & other.word,
            width: self.width,
        }
    }

    /// Each bit's other value.
    pub fn not(self) -> Bits
        ensures word { result.word ≡ 2 ^ self.width - 1 - self.word }
        ensures width { result.width ≡ self.width }
    {
        Bits {
            word: ones(self.width) - self.word,
            width: self.width,
        }
    }

    /// The `width` bits from bit `at` on.
    pub fn slice(self, at: u8, width: u8) -> Bits
        requires some { 1 ≤ width }
        requires inside { at + width ≤ self.width }
        ensures word { result.word ≡ self.word / 2 ^ at % 2 ^ width }
        ensures width { result.width ≡ width }
    {
        Bits {
            word: (self.word >> at) & ones(width),
            width,
        }
    }

    /// The bits of `self` and behind them, as the high part, those of `high`.
    pub fn join(self, high: Bits) -> Bits
        requires { self.width + high.width ≤ most_width }
        ensures word { result.word ≡ self.word + 2 ^ self.width * high.word }
        ensures width { result.width ≡ self.width + high.width }
    {
        Bits {
            word: (high.word << self.width) | self.word,
            width: self.width + high.width,
        }
    }
}

/// The number whose lowest `width` bits are 1 and no others.
fn ones(width: u8) -> u64
    requires some { 1 ≤ width }
    requires most { width ≤ most_width }
    ensures { result ≡ 2 ^ width - 1 }
{
    u64::MAX >> (MAX_WIDTH - width)
}

/// A list of vectors.
#[derive(Debug, Drop)]
pub struct BitsList {
    list: Vec<Bits>,
}

impl Model for BitsList {
    ghost use Rattle.std.specs.Prelude.{List};
    ghost use Rattle.share_types.specs.declared.bits.Bits.{Bits};

    ghost Value = { List Bits };

    ghost view = { λ list. list.list.items };
}

impl BitsList {
    /// The list of these vectors.
    pub fn new(list: Vec<Bits>) -> BitsList
        ensures { result ≡ list.items }
    {
        BitsList { list }
    }

    /// Its vectors.
    pub fn as_slice(&self) -> &[Bits]
        ensures { result.now ≡ self.entry.now }
    {
        self.list.as_slice()
    }
}
