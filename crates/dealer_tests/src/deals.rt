//! What the dealer draws, against files that another program made.
ghost use Rattle.std.specs.Prelude.{◌≤◌};

use dealer_files::{DealerPart, dealer_len, write_dealer};
use dealer_maker::deal;
use mot_base::{Seed, derive};
use sha2::{Digest, Sha256};
use share_types::Needs;
use std::alloc::Global;

// the dealer's label, under which its seed is derived
const DEALER: u8 = 255;

// both parties' files of one multiplication triple
static ONE_TRIPLE: [&str; 2] = [
    "4d4f54440102007aab31b445921b8a4001d84b79475c5afe724516bdc123490000000100000000000000000000000099d2379c2e8378051c2add9a53828a361b8763727dc0cd49",
    "4d4f54440102017aab31b445921b8a2732711a278f257d9eba5eac117b148f000000010000000000000000000000008b80c6bf81f65fb51f2d56ba401f8689376253001c56c67d",
];

fn needs(mult: u32, bit: u32, key: u32) -> Needs {
    Needs {
        mult,
        bit,
        shared: 0,
        key,
    }
}

/// The parts that are dealt under the seed of zeros.
fn dealt(alloc: Global, parties: u8, counts: &Needs) -> Option<Vec<DealerPart>>
    requires some { 2 ≤ parties }
    requires most { parties ≤ 8 }
{
    deal(alloc, parties, &derive(&Seed([0; 32]), DEALER), counts).ok()
}

/// The file of a part.
fn file_of(alloc: Global, part: &DealerPart) -> Option<Vec<u8>> {
    if dealer_len(part.parties(), &part.counts()) > 67_108_864 {
        return None;
    }
    write_dealer(alloc, part).ok()
}

/// Whether some bytes are those of a text in hexadecimal digits.
fn are_bytes(alloc: Global, bytes: &[u8], text: &str) -> bool {
    match hex::encode(alloc, bytes) {
        Ok(seen) => seen.as_str() == text,
        Err(_) => false,
    }
}

fn has_file(alloc: Global, part: &DealerPart, text: &str) -> bool {
    match file_of(alloc, part) {
        Some(file) => are_bytes(alloc, &file, text),
        None => false,
    }
}

fn have_files(alloc: Global, parts: &[DealerPart], texts: &[&str]) -> bool {
    for (part, text) in parts.iter().zip(texts) {
        if !has_file(alloc, part, text) {
            return false;
        }
    }
    parts.len() == texts.len()
}

#[test]
fn a_triple_for_two_is_dealt(rt: HostRuntime) {
    let is_dealt = match dealt(rt.alloc(), 2, &needs(1, 0, 0)) {
        Some(parts) => have_files(rt.alloc(), &parts, &ONE_TRIPLE),
        None => false,
    };
    assert!(rt; is_dealt);
}

// SHA-256 of the three parties' files of 126 bit triples and 444 key bits
static BITS_AND_KEYS: [&str; 3] = [
    "fcb801f9545c6876b4eb92ee623e595f1cf157980559e692849976075be2842e",
    "dafa8ea609db5ce6a1482604206c3461c1984ccb9fe9939390f1986cd0fbcde2",
    "f504e014f08139a09c8f8f281b1280ff9ab38b186100d95b8340d44782012647",
];

fn has_digest(alloc: Global, part: &DealerPart, text: &str) -> bool {
    match file_of(alloc, part) {
        Some(file) => are_bytes(alloc, Sha256::digest(&file).as_slice(), text),
        None => false,
    }
}

fn have_digests(alloc: Global, parts: &[DealerPart], texts: &[&str]) -> bool {
    for (part, text) in parts.iter().zip(texts) {
        if !has_digest(alloc, part, text) {
            return false;
        }
    }
    parts.len() == texts.len()
}

#[test]
fn bits_and_keys_for_three_are_dealt(rt: HostRuntime) {
    let are_dealt = match dealt(rt.alloc(), 3, &needs(0, 126, 444)) {
        Some(parts) => have_digests(rt.alloc(), &parts, &BITS_AND_KEYS),
        None => false,
    };
    assert!(rt; are_dealt);
}
