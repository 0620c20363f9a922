//! Shares of words, by hand and from the tape of the seed of 32 zero bytes, and counts of correlations.
ghost use Rattle.std.specs.Prelude.{◌<◌};

use arithmetic_gmw::{add, mul_close, mul_const, mul_open, share_out, sub};
use mot_base::{Party, Seed, derive, tape_share};
use share_types::{Kind, MultTriple, Needs, TooFew};
use std::alloc::Global;

const SEED: Seed = Seed([0; 32]);

// the first party's part of a triple and the second's
const FIRST: MultTriple = MultTriple { a: 1, b: 2, c: 5 };

const SECOND: MultTriple = MultTriple { a: 2, b: 2, c: 7 };

fn is_forty_two(d: u64, e: u64) -> bool {
    let own = mul_close(Party(0), FIRST, d, e);
    let other = mul_close(Party(1), SECOND, d, e);
    own == 23 && other == 19 && add(own, other) == 42
}

fn are_words(words: (u64, u64), first: u64, second: u64) -> bool {
    words.0 == first && words.1 == second
}

// whether the parties open 9 and -6 of six, whose sum is 3, and 3 and 0 of seven
fn opens_by_hand() -> bool {
    let first = mul_open(10, 5, FIRST);
    let second = mul_open(18446744073709551612, 2, SECOND);
    are_words(first, 9, 3)
        && are_words(second, 18446744073709551610, 0)
        && add(first.0, second.0) == 3
        && add(first.1, second.1) == 3
}

#[test]
fn six_times_seven_is_forty_two(rt: HostRuntime) {
    assert!(rt; opens_by_hand() && is_forty_two(3, 3));
}

#[test]
fn differences_and_multiples_wrap(rt: HostRuntime) {
    assert!(rt; sub(3, 5) == 18446744073709551614 && mul_const(9223372036854775808, 2) == 0);
}

// the shares of a value that a party makes for two
fn two_shares(alloc: Global, value: u64, seed: &Seed, gate: u32, by: Party) -> (u64, u64)
    requires gate { gate < 2 }
    requires by { by.0 < 2 }
{
    match share_out(alloc, value, seed, 0, gate, by, 2) {
        Ok(shares) => (shares[0], shares[1]),
        Err(_) => (0, 0),
    }
}

fn are_shared(by_first: (u64, u64), by_second: (u64, u64)) -> bool {
    are_words(by_first, 14340404568559226139, 4106339505150325519)
        && are_words(by_second, 14919549667416841381, 3527194406292710277)
}

#[test]
fn a_value_is_shared_among_two(rt: HostRuntime) {
    let by_first = two_shares(rt.alloc(), 42, &SEED, 0, Party(0));
    let by_second = two_shares(rt.alloc(), 42, &SEED, 1, Party(1));
    assert!(rt; are_shared(by_first, by_second));
}

fn sum(shares: &[u64]) -> u64 {
    let mut sum = 0;
    for share in shares {
        sum = add(sum, *share);
    }
    sum
}

// whether a party, if it is not party 3, has the word of the tape
fn is_of_the_tape(to: usize, share: u64) -> bool {
    to == 3 || (to < 8 && share == tape_share(&SEED, 1, 5, Party(to as u8)))
}

fn are_of_the_tape(shares: &[u64]) -> bool {
    for (to, share) in shares.iter().enumerate() {
        if !is_of_the_tape(to, *share) {
            return false;
        }
    }
    true
}

fn are_shares_of_eight(shares: &[u64]) -> bool {
    shares.len() == 8
        && sum(shares) == 42
        && shares[7] == 8037835242136318986
        && are_of_the_tape(shares)
}

#[test]
fn a_value_is_shared_among_eight(rt: HostRuntime) {
    let are_shares = match share_out(rt.alloc(), 42, &SEED, 1, 5, Party(3), 8) {
        Ok(shares) => are_shares_of_eight(&shares),
        Err(_) => false,
    };
    assert!(rt; are_shares);
}

// the triple that the dealer's tape of the seed of 32 zero bytes gives first
const DEALT_FIRST: MultTriple = MultTriple {
    a: 0x99d2379c2e837805,
    b: 0x1c2add9a53828a36,
    c: 0x1b8763727dc0cd49,
};

const DEALT_SECOND: MultTriple = MultTriple {
    a: 0x8b80c6bf81f65fb5,
    b: 0x1f2d56ba401f8689,
    c: 0x376253001c56c67d,
};

fn are_opened(first: (u64, u64), second: (u64, u64)) -> bool {
    are_words(first, 0xc5dbb4e069c6f0cd, 0x30741d53df25567e)
        && are_words(second, 0x14d14cc3e5bf377f, 0x9433ae578d3898ca)
}

fn is_told(first: (u64, u64), second: (u64, u64)) -> bool {
    let (d, e) = (add(first.0, second.0), add(first.1, second.1));
    let own = mul_close(Party(0), DEALT_FIRST, d, e);
    let other = mul_close(Party(1), DEALT_SECOND, d, e);
    own == 0x255183ed892bfb19 && other == 0xdaae7c1276d40511 && add(own, other) == 42
}

// whether the parties open and tell what they have to, with their own shares and those that they are sent
fn is_sent(six: (u64, u64), seven: (u64, u64)) -> bool {
    let first = mul_open(six.0, seven.0, DEALT_FIRST);
    let second = mul_open(six.1, seven.1, DEALT_SECOND);
    six.1 == 0xa052138367b59734
        && seven.0 == 0x4c9efaee32a7e0b4
        && are_opened(first, second)
        && is_told(first, second)
}

#[test]
fn six_times_seven_is_sent_as_recorded(rt: HostRuntime) {
    let six = two_shares(rt.alloc(), 6, &derive(&SEED, 0), 0, Party(0));
    let seven = two_shares(rt.alloc(), 7, &derive(&SEED, 1), 1, Party(1));
    assert!(rt; is_sent(six, seven));
}

const STOCK: Needs = Needs {
    mult: 1,
    bit: 2,
    shared: 3,
    key: 4,
};

// what is needed of each kind, and the first kind of which there are too few, with what was asked and the stock
static NEEDED: [([u32; 4], Option<(Kind, u32, u32)>); 6] = [
    ([0, 0, 0, 0], None),
    ([1, 2, 3, 4], None),
    ([2, 3, 4, 5], Some((Kind::Mult, 2, 1))),
    ([1, 3, 4, 0], Some((Kind::Bit, 3, 2))),
    ([0, 0, 4, 9], Some((Kind::Shared, 4, 3))),
    ([1, 2, 3, 4294967295], Some((Kind::Key, 4294967295, 4))),
];

fn is_first_short(needed: [u32; 4], few: Option<(Kind, u32, u32)>) -> bool {
    let [mult, bit, shared, key] = needed;
    let needs = Needs {
        mult,
        bit,
        shared,
        key,
    };
    match (needs.within(&STOCK), few) {
        (Ok(()), None) => true,
        (Err(seen), Some((kind, asked, stock))) => {
            let before = 0;
            seen == TooFew {
                kind,
                before,
                asked,
                stock,
            }
        }
        _ => false,
    }
}

fn wrong_needs(rows: &[([u32; 4], Option<(Kind, u32, u32)>)]) -> Option<usize> {
    for (at, (needed, few)) in rows.iter().enumerate() {
        if !is_first_short(*needed, *few) {
            return Some(at);
        }
    }
    None
}

#[test]
fn the_first_kind_that_is_short_is_named(rt: HostRuntime) {
    let wrong = wrong_needs(&NEEDED);
    assert!(rt; wrong.is_none(), "row {wrong:?}");
}
