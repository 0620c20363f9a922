//! Changes of a sharing that a party makes of its own shares: from BMR keys to an XOR of shares, from an XOR to a
//! sum of words, and a word as what a party enters of it bit by bit.
#![tactic(auto)]

ghost use Rattle.std.specs.Prelude.{◌≡◌, ◌<◌, ◌≤◌, ◌^◌, length};
ghost use Rattle.mot_base.specs.Limits.{most_width};
ghost use Rattle.share_types.specs.Bits.{number};
ghost use Rattle.share_types.specs.Sums.{each};
ghost use Rattle.share_convert.specs.Convert.{opened_share, shared_bit_at, covered_share, turned_word, closed_word};

use bmr_keys::{MaskPart, is_set, with_bit};
use mot_base::{MAX_WIDTH, Party};
use share_types::{Bits, Online, SharedBit};

mod laws;

pub use laws::{bits_sum, keys_open};

/// A party's XOR share of the vector of a garbled wire: its share of the mask, which party 0 alone adds to the
/// masked bits.
pub fn y_to_b(me: Party, part: &MaskPart, online: &Online) -> Bits
    requires { online.now.masked.width ≡ part.now.mask.width }
    ensures word { result.word ≡ opened_share me.0 part.now.mask.word online.now.masked.word }
    ensures width { result.width ≡ part.now.mask.width }
{
    if me == Party(0) {
        part.mask.xor(online.masked)
    } else {
        part.mask
    }
}

/// What a party opens of its XOR share before it becomes a share by sum: the share XOR the bits of as many
/// shared bits.
pub fn b_to_a_open(x: Bits, stock: &[SharedBit]) -> Bits
    requires { length stock.now ≡ x.width }
    ensures word { result.word ≡ covered_share x.width x.word (shared_bit_at stock.now) }
    ensures width { result.width ≡ x.width }
{
    x.xor(Bits {
        word: bits_of(stock),
        width: x.width,
    })
}

/// The number of the bits of records.
fn bits_of(stock: &[SharedBit]) -> u64
    requires { length stock.now ≤ most_width }
    ensures number { result ≡ number (each (length stock.now) (λ i. (shared_bit_at stock.now i).bit)) }
    ensures below { result < 2 ^ length stock.now }
{
    let mut word = 0;
    for i in 0..stock.len() {
        word = with_bit(word, i as u8, stock[i].bit);
    }
    word
}

/// A party's share by sum, modulo 2^64, where `v` is the XOR of what all parties opened: each shared bit turned by
/// the opened bit, times the value of its place. Party 0 alone adds the opened vector.
pub fn b_to_a_close(me: Party, stock: &[SharedBit], v: Bits) -> u64
    requires { length stock.now ≡ v.width }
    ensures { result ≡ closed_word me.0 v.width (shared_bit_at stock.now) v.word }
{
    let mut sum = 0u64;
    for i in 0..v.width {
        sum = sum.wrapping_add(turned(stock[usize::from(i)].word, is_set(v.word, i)) << i);
    }
    sum.wrapping_add(if me == Party(0) { v.word } else { 0 })
}

/// A share of a bit by sum, turned by a public bit.
fn turned(word: u64, set: bool) -> u64
    ensures { result ≡ turned_word set word }
{
    if set { 0u64.wrapping_sub(word) } else { word }
}

/// A share by sum as a vector of 64 bits, as it is entered.
pub fn share_as_input(word: u64) -> Bits
    ensures word { result.word ≡ word }
    ensures width { result.width ≡ most_width }
{
    Bits {
        word,
        width: MAX_WIDTH,
    }
}
