//! Vectors of bits, and shares of them by hand and from the tape of the seed of 32 zero bytes.
ghost use Rattle.std.specs.Prelude.{◌≡◌, ◌<◌, ◌^◌};

use boolean_gmw::{and_close, and_open, share_out, xor, xor_const};
use mot_base::{Party, Seed};
use share_types::{BitTriple, Bits};

fn is_vector(bits: Bits, word: u64, width: u8) -> bool {
    bits.word == word && bits.width == width
}

fn are_bits(found: Option<Bits>, word: u64, width: u8) -> bool {
    match found {
        Some(bits) => is_vector(bits, word, width),
        None => false,
    }
}

// a number, a width, and whether there is such a vector
static VECTORS: [(u64, u8, bool); 13] = [
    (0, 0, false),
    (0, 1, true),
    (1, 1, true),
    (2, 1, false),
    (255, 8, true),
    (256, 8, false),
    (9223372036854775807, 63, true),
    (9223372036854775808, 63, false),
    (9223372036854775808, 64, true),
    (18446744073709551615, 64, true),
    (0, 65, false),
    (0, 128, false),
    (0, 255, false),
];

fn is_told(word: u64, width: u8, is_found: bool) -> bool {
    match Bits::new(word, width) {
        Some(bits) => is_found && is_vector(bits, word, width),
        None => !is_found,
    }
}

// the number of the first row that is otherwise
fn wrong_vector(rows: &[(u64, u8, bool)]) -> Option<usize> {
    for (at, (word, width, is_found)) in rows.iter().enumerate() {
        if !is_told(*word, *width, *is_found) {
            return Some(at);
        }
    }
    None
}

#[test]
fn bits_have_one_to_sixty_four_places(rt: HostRuntime) {
    let wrong = wrong_vector(&VECTORS);
    assert!(rt; wrong.is_none(), "vector {wrong:?}");
}

// a vector and its other values bit by bit
static OTHERS: [(u64, u8, u64); 5] = [
    (0, 1, 1),
    (1, 1, 0),
    (5, 3, 2),
    (0, 64, 18446744073709551615),
    (9223372036854775809, 64, 9223372036854775806),
];

fn turned(word: u64, width: u8) -> Option<Bits> {
    Some(Bits::new(word, width)?.not())
}

fn wrong_other(rows: &[(u64, u8, u64)]) -> Option<usize> {
    for (at, (word, width, other)) in rows.iter().enumerate() {
        if !are_bits(turned(*word, *width), *other, *width) {
            return Some(at);
        }
    }
    None
}

#[test]
fn not_turns_each_bit_of_the_width(rt: HostRuntime) {
    let wrong = wrong_other(&OTHERS);
    assert!(rt; wrong.is_none(), "vector {wrong:?}");
}

// a vector, where a slice begins, its width, and its number
static SLICES: [(u64, u8, u8, u8, u64); 6] = [
    (0b1101, 4, 0, 1, 1),
    (0b1101, 4, 1, 2, 0b10),
    (0b1101, 4, 3, 1, 1),
    (18446744073709551614, 64, 0, 64, 18446744073709551614),
    (9223372036854775808, 64, 63, 1, 1),
    (9223372036854775809, 64, 0, 63, 1),
];

fn slice(word: u64, width: u8, at: u8, count: u8) -> Option<Bits> {
    let bits = Bits::new(word, width)?;
    if count >= 1 && at <= 64 && count <= 64 && at + count <= bits.width {
        Some(bits.slice(at, count))
    } else {
        None
    }
}

fn wrong_slice(rows: &[(u64, u8, u8, u8, u64)]) -> Option<usize> {
    for (row, (word, width, at, count, number)) in rows.iter().enumerate() {
        if !are_bits(slice(*word, *width, *at, *count), *number, *count) {
            return Some(row);
        }
    }
    None
}

#[test]
fn slices_reach_both_ends(rt: HostRuntime) {
    let wrong = wrong_slice(&SLICES);
    assert!(rt; wrong.is_none(), "slice {wrong:?}");
}

// a low part, a high part, and both joined
static JOINS: [((u64, u8), (u64, u8), (u64, u8)); 4] = [
    ((1, 1), (0, 1), (1, 2)),
    ((0, 1), (1, 1), (2, 2)),
    (
        (1, 1),
        (9223372036854775807, 63),
        (18446744073709551615, 64),
    ),
    ((5, 63), (1, 1), (9223372036854775813, 64)),
];

fn joined(low: Bits, high: Bits) -> Option<Bits> {
    if low.width <= 64 && high.width <= 64 && low.width + high.width <= 64 {
        Some(low.join(high))
    } else {
        None
    }
}

fn joined_parts(low: (u64, u8), high: (u64, u8)) -> Option<Bits> {
    joined(Bits::new(low.0, low.1)?, Bits::new(high.0, high.1)?)
}

fn wrong_join(rows: &[((u64, u8), (u64, u8), (u64, u8))]) -> Option<usize> {
    for (at, (low, high, both)) in rows.iter().enumerate() {
        if !are_bits(joined_parts(*low, *high), both.0, both.1) {
            return Some(at);
        }
    }
    None
}

#[test]
fn joins_have_the_first_vector_low(rt: HostRuntime) {
    let wrong = wrong_join(&JOINS);
    assert!(rt; wrong.is_none(), "join {wrong:?}");
}

/// A vector of width 4.
fn four(word: u64) -> Bits
    requires { word < 2 ^ 4 }
    ensures { result.width ≡ 4 }
{
    Bits { word, width: 4 }
}

#[test]
fn xor_and_and_go_bit_by_bit(rt: HostRuntime) {
    let (x, y) = (four(0b1100), four(0b1010));
    assert!(rt; is_vector(x.xor(y), 0b0110, 4) && is_vector(x.and(y), 0b1000, 4));
}

fn first() -> BitTriple
    ensures a { result.a.width ≡ 4 }
    ensures b { result.b.width ≡ 4 }
    ensures c { result.c.width ≡ 4 }
{
    BitTriple {
        a: four(0b0011),
        b: four(0b0001),
        c: four(0b1111),
    }
}

fn second() -> BitTriple
    ensures a { result.a.width ≡ 4 }
    ensures b { result.b.width ≡ 4 }
    ensures c { result.c.width ≡ 4 }
{
    BitTriple {
        a: four(0b0101),
        b: four(0b0010),
        c: four(0b1101),
    }
}

// the sum of what two parties open of twelve and of ten
fn opened() -> (Bits, Bits)
    ensures d { result.0.width ≡ 4 }
    ensures e { result.1.width ≡ 4 }
{
    let by_first = and_open(four(0b1010), four(0b0001), first());
    let by_second = and_open(four(0b0110), four(0b1011), second());
    (xor(by_first.0, by_second.0), xor(by_first.1, by_second.1))
}

// the shares of the product, and their sum
fn closed() -> (Bits, Bits, Bits) {
    let (d, e) = opened();
    let own = and_close(Party(0), first(), d, e);
    let other = and_close(Party(1), second(), d, e);
    (own, other, xor(own, other))
}

#[test]
fn twelve_and_ten_is_eight(rt: HostRuntime) {
    let (d, e) = opened();
    assert!(rt; is_vector(d, 0b1010, 4) && is_vector(e, 0b1001, 4));
    let (own, other, both) = closed();
    let are_shares = is_vector(own, 0b0110, 4) && is_vector(other, 0b1110, 4);
    assert!(rt; are_shares && is_vector(both, 0b1000, 4));
}

#[test]
fn party_0_alone_adds_a_constant(rt: HostRuntime) {
    let (share, constant) = (four(0b1010), four(0b0110));
    let own = xor_const(Party(0), share, constant);
    let other = xor_const(Party(1), share, constant);
    assert!(rt; is_vector(own, 0b1100, 4) && is_vector(other, 0b1010, 4));
}

fn are_shares(shares: &[Bits]) -> bool {
    match shares {
        // the share word is 4106339505150325519
        [own, other] => is_vector(*own, 0b0011, 4) && is_vector(*other, 0b1111, 4),
        _ => false,
    }
}

#[test]
fn a_vector_is_shared_by_low_bits_of_share_words(rt: HostRuntime) {
    let is_shared = match share_out(rt.alloc(), four(0b1100), &Seed([0; 32]), 0, 0, Party(0), 2) {
        Ok(shares) => are_shares(&shares),
        Err(_) => false,
    };
    assert!(rt; is_shared);
}
