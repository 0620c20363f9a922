//! The tape of the seed of 32 zero bytes.
use hex::FromHex;
use mot_base::{Party, Seed, TapeReader, derive, tape_share, tape_shares, tape_word};

const SEED: Seed = Seed([0; 32]);

static DERIVED: [(u8, &str); 5] = [
    (
        0,
        "7f9c9e31ac8256ca2f258583df262dbc7d6f68f2a03043d5c99a4ae5a7396ce9",
    ),
    (
        1,
        "1fd4247443c9440cb3c48c28851937196bc156032d70a96c98e127ecb347e45f",
    ),
    (
        253,
        "0c398517be212a377a0ab7c26042003a04e43c96c0e255f1289a07fcc3606d18",
    ),
    (
        254,
        "4816e0d319305a5d3f6a0d79aab583b707a2abf6e758e406ade91deb2b24fbaa",
    ),
    (
        255,
        "ac30a0ef79cd0b6f9bfafcd3049f3b29dab4e4036224a38f346f462ba56ada4d",
    ),
];

static WORDS: [(u64, u32); 12] = [
    (0, 2917185654),
    (1, 2419978656),
    (15, 2254827186),
    (16, 3202811807),
    (68719476736, 975025213),
    (68719476753, 4056421870),
    (281474976710656, 2775988029),
    (281474976710658, 195261199),
    (285873023221759, 1702167919),
    (1125899906842624, 594223559),
    (2251799813685248, 1514777452),
    (2251799813718015, 1093018928),
];

// session, gate, receiver, share word
static SHARES: [(u32, u32, u8, u64); 4] = [
    (0, 0, 1, 4106339505150325519),
    (0, 1, 0, 14919549667416841381),
    (1, 5, 7, 8037835242136318986),
    (65535, 4194303, 7, 7310755546676279155),
];

fn is_derived(label: u8, text: &str) -> bool {
    match <[u8; 32] as FromHex>::from_hex(text) {
        Ok(seed) => derive(&SEED, label) == Seed(seed),
        Err(_) => false,
    }
}

// the first label whose seed is another one
fn wrong_label(rows: &[(u8, &str)]) -> Option<u8> {
    for (label, text) in rows {
        if !is_derived(*label, text) {
            return Some(*label);
        }
    }
    None
}

#[test]
fn seeds_are_derived_by_sha256(rt: HostRuntime) {
    let wrong = wrong_label(&DERIVED);
    assert!(rt; wrong.is_none(), "label {wrong:?}");
}

// the first place at which another word stands
fn wrong_place(rows: &[(u64, u32)]) -> Option<u64> {
    for (place, word) in rows {
        if tape_word(&SEED, *place) != *word {
            return Some(*place);
        }
    }
    None
}

#[test]
fn words_are_those_of_chacha20(rt: HostRuntime) {
    let wrong = wrong_place(&WORDS);
    assert!(rt; wrong.is_none(), "place {wrong:?}");
}

// the number of a zero key, whose four words stand at four times that place, and its 128 bits but the least
static KEYS: [(u64, u128); 4] = [
    (0, 0x28bd8653e56a5d40903df1a0ade0b876),
    (1, 0xc70d778bccef36a81aed8da0b819d2bc),
    (7, 0x6f4d794b1f0ae1ac45fb0a51281fed30),
    (4294967295, 0x02654b14331df3faa5f7518ea14c5720),
];

fn is_key(number: u64, key: u128) -> bool {
    number < 4294967296 && TapeReader::new(&SEED, 4 * number).key() & !1 == key
}

fn wrong_key(rows: &[(u64, u128)]) -> Option<u64> {
    for (number, key) in rows {
        if !is_key(*number, *key) {
            return Some(*number);
        }
    }
    None
}

#[test]
fn four_words_that_stand_together_make_a_key(rt: HostRuntime) {
    let wrong = wrong_key(&KEYS);
    assert!(rt; wrong.is_none(), "number {wrong:?}");
}

fn first_words() -> (u32, u32) {
    let mut tape = TapeReader::new(&SEED, 0);
    (tape.word(), tape.word())
}

// the share words of the first gate for parties 0 and 1
fn first_shares() -> (u64, u64) {
    let mut tape = TapeReader::new(&SEED, 281474976710656);
    (tape.long_word(), tape.long_word())
}

#[test]
fn a_reader_goes_on_behind_what_it_read(rt: HostRuntime) {
    assert!(rt; first_words() == (2917185654, 2419978656));
    let shares = (tape_share(&SEED, 0, 0, Party(0)), 4106339505150325519);
    assert!(rt; first_shares() == shares);
}

fn is_share(session: u32, gate: u32, to: u8, share: u64) -> bool {
    session < 65536
        && gate < 4194304
        && to < 8
        && tape_share(&SEED, session, gate, Party(to)) == share
        && tape_shares(&SEED, session, gate)[usize::from(to)] == share
}

// the first row whose share is another one
fn wrong_share(rows: &[(u32, u32, u8, u64)]) -> Option<u32> {
    for (session, gate, to, share) in rows {
        if !is_share(*session, *gate, *to, *share) {
            return Some(*gate);
        }
    }
    None
}

#[test]
fn share_words_stand_at_their_places(rt: HostRuntime) {
    let wrong = wrong_share(&SHARES);
    assert!(rt; wrong.is_none(), "gate {wrong:?}");
}
