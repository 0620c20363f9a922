//! Zero keys and the hiding function, and conversions by hand.
ghost use Rattle.std.specs.Prelude.{◌≡◌, length, IfOk};

use bmr_keys::{MaskPart, prf, zero_key};
use mot_base::{Party, Seed};
use share_convert::{b_to_a_close, b_to_a_open, share_as_input};
use share_types::{Bits, Key, Keys, SharedBit};
use std::alloc::Global;
use std::test::Fail;

// numbers of key records, and their zero keys on the tape of the seed of 32 zero bytes
static ZERO_KEYS: [(u32, u128); 4] = [
    (0, 0x28bd8653e56a5d40903df1a0ade0b876),
    (1, 0xc70d778bccef36a81aed8da0b819d2bc),
    (7, 0x6f4d794b1f0ae1ac45fb0a51281fed30),
    (4294967295, 0x02654b14331df3faa5f7518ea14c5720),
];

/// Whether each record has this zero key.
fn are_zero_keys(rows: &[(u32, u128)]) -> bool {
    rows.iter().all(|(number, key)| zero_key(&Seed([0; 32]), *number) == Key(*key))
}

#[test]
fn keys_are_hidden_and_zero_keys_drawn(rt: HostRuntime) {
    let hidden = prf(Key(1), Key(2), 3, 4, 1, 0);
    assert!(rt; are_zero_keys(&ZERO_KEYS) && hidden == Key(0xce31c313518575d100d9bcaa301e71be));
}

/// A vector of two bits.
fn two_bits(word: u64) -> Bits
    ensures { result.width ≡ 2 }
{
    Bits {
        word: word % 4,
        width: 2,
    }
}

// the shared bits of both parties
const FIRST: [SharedBit; 2] = [
    SharedBit { bit: true, word: 5 },
    SharedBit { bit: true, word: 9 },
];

const SECOND: [SharedBit; 2] = [
    SharedBit {
        bit: false,
        word: 18446744073709551612,
    },
    SharedBit {
        bit: true,
        word: 18446744073709551607,
    },
];

/// Whether shares of 2 by XOR become these shares by sum.
fn bits_sum_to_two() -> bool {
    let opened = b_to_a_open(two_bits(3), &FIRST).xor(b_to_a_open(two_bits(1), &SECOND));
    let first = b_to_a_close(Party(0), &FIRST, opened);
    let second = b_to_a_close(Party(1), &SECOND, opened);
    opened.word == 3
        && first == 18446744073709551596
        && second == 22
        && first.wrapping_add(second) == 2
}

#[test]
fn shares_by_xor_become_shares_by_sum(rt: HostRuntime) {
    assert!(rt; bits_sum_to_two() && share_as_input(18446744073709551615).width == 64);
}

/// A mask of two bits and two owners.
fn mask(alloc: Global) -> Result<MaskPart, Fail>
    ensures width { IfOk result (λ part. part.mask.width ≡ 2) }
    ensures keys { IfOk result (λ part. length part.keys ≡ 2) }
    ensures times { IfOk result (λ part. length part.times ≡ 4) }
{
    let keys = vec![in alloc; Key(10), Key(20)]?;
    let times = vec![in alloc; Key(1), Key(2), Key(4), Key(8)]?;
    Ok(MaskPart {
        mask: two_bits(1),
        keys: Keys::new(keys),
        times: Keys::new(times),
    })
}

/// Whether a flip of the second bit by party 1 keeps the mask share and the keys, and adds the offset at the own place.
fn flip_is_own(part: &MaskPart) -> bool {
    part.mask == two_bits(1)
        && part.keys.as_slice() == [Key(10), Key(20)].as_slice()
        && part.times.as_slice() == [Key(1), Key(2), Key(4), Key(8 ^ 77)].as_slice()
}

#[test]
fn a_flip_adds_the_own_offset(rt: HostRuntime) -> Result<(), Fail> {
    let part = mask(rt.alloc())?;
    let flipped = part.flip(rt.alloc(), Party(1), Key(77), two_bits(2))?;
    assert!(rt; flip_is_own(&flipped));
    Ok(())
}
