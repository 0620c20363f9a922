//! Dealer files: the example of 71 bytes, one with the other kinds of records, and what is refused.
use dealer_files::{DealerError, DealerPart, dealer_len, read_dealer, write_dealer};
use mot_base::Party;
use share_types::{Key, MultTriple, Needs};
use std::alloc::Global;
use std::test::Fail;

// party 0 of 2, deal 7, offset 1, one triple (1, 2, 5)
const ONE_TRIPLE: &str =
    "4d4f544401020000000000000000070000000000000000000000000000000100000001000000000000000000000000000000000000000100000000000000020000000000000005";

// the same party: a bit record 6, the shared bit 1 with the word 5, and the key bit 0 with the keys 9 and 10
const OTHER_KINDS: &str =
    "4d4f5444010200000000000000000700000000000000000000000000000001000000000000000100000001000000010601000000000000000500000000000000000000000000000000090000000000000000000000000000000a";

/// Whether this is wrong with some bytes, or nothing.
fn has_fault(alloc: Global, bytes: &[u8], fault: Option<DealerError>) -> bool {
    match read_dealer(alloc, bytes) {
        Ok(_) => fault.is_none(),
        Err(seen) => fault == Some(seen),
    }
}

/// The bytes of a text in hexadecimal digits where the byte at a place is another.
fn changed(alloc: Global, text: &str, place: usize, byte: u8) -> Option<Vec<u8>> {
    match hex::decode(alloc, text) {
        Ok(mut bytes) => {
            if let Some(there) = bytes.get_mut(place) {
                *there = byte;
            }
            Some(bytes)
        }
        Err(_) => None,
    }
}

fn is_found(alloc: Global, text: &str, place: usize, byte: u8, fault: Option<DealerError>) -> bool {
    match changed(alloc, text, place, byte) {
        Some(bytes) => has_fault(alloc, &bytes, fault),
        None => false,
    }
}

// a text, the place that is changed and its byte, and what is answered
static FAULTS: [(&str, usize, u8, Option<DealerError>); 18] = [
    (ONE_TRIPLE, 0, 0x4d, None),
    (ONE_TRIPLE, 0, 0x45, Some(DealerError::Magic)),
    (ONE_TRIPLE, 3, 0x45, Some(DealerError::Magic)),
    (ONE_TRIPLE, 4, 2, Some(DealerError::Version)),
    (ONE_TRIPLE, 5, 1, Some(DealerError::Party)),
    (ONE_TRIPLE, 5, 9, Some(DealerError::Party)),
    (ONE_TRIPLE, 6, 2, Some(DealerError::Party)),
    (ONE_TRIPLE, 30, 2, Some(DealerError::OffsetEven)),
    (ONE_TRIPLE, 31, 1, Some(DealerError::Counts)),
    (ONE_TRIPLE, 34, 2, Some(DealerError::Short)),
    (ONE_TRIPLE, 34, 0, Some(DealerError::Long)),
    (OTHER_KINDS, 47, 7, None),
    (
        OTHER_KINDS,
        47,
        8,
        Some(DealerError::RecordBits { place: 47 }),
    ),
    (
        OTHER_KINDS,
        48,
        2,
        Some(DealerError::RecordBits { place: 48 }),
    ),
    (OTHER_KINDS, 49, 255, None),
    (OTHER_KINDS, 57, 1, None),
    (
        OTHER_KINDS,
        57,
        255,
        Some(DealerError::RecordBits { place: 57 }),
    ),
    (OTHER_KINDS, 58, 255, None),
];

/// The number of the first row with another answer.
fn wrong_row(alloc: Global, rows: &[(&str, usize, u8, Option<DealerError>)]) -> Option<usize> {
    for (at, (text, place, byte, fault)) in rows.iter().enumerate() {
        if !is_found(alloc, text, *place, *byte, *fault) {
            return Some(at);
        }
    }
    None
}

#[test]
fn the_first_fault_is_found(rt: HostRuntime) {
    let wrong = wrong_row(rt.alloc(), &FAULTS);
    assert!(rt; wrong.is_none(), "row {wrong:?}");
}

/// The first length at which a file that is cut there is not found to be short.
fn wrong_length(alloc: Global, bytes: &[u8]) -> Option<usize> {
    for length in 0..bytes.len() {
        if !has_fault(alloc, &bytes[..length], Some(DealerError::Short)) {
            return Some(length);
        }
    }
    None
}

fn is_long_with_more(alloc: Global, mut bytes: Vec<u8>) -> bool {
    bytes.push(0).is_ok() && has_fault(alloc, &bytes, Some(DealerError::Long))
}

#[test]
fn a_file_that_ends_early_or_late_is_refused(rt: HostRuntime) -> Result<(), Fail> {
    let bytes = hex::decode(rt.alloc(), ONE_TRIPLE)?;
    let wrong = wrong_length(rt.alloc(), &bytes);
    let is_long = is_long_with_more(rt.alloc(), bytes);
    assert!(rt; is_long && wrong.is_none(), "{wrong:?} bytes");
    Ok(())
}

/// The part that a text in hexadecimal digits tells.
fn part_of(alloc: Global, text: &str) -> Option<DealerPart> {
    match hex::decode(alloc, text) {
        Ok(bytes) => read_dealer(alloc, bytes.as_slice()).ok(),
        Err(_) => None,
    }
}

fn counts(mult: u32, bit: u32, shared: u32, key: u32) -> Needs {
    Needs {
        mult,
        bit,
        shared,
        key,
    }
}

fn is_example(part: &DealerPart) -> bool {
    part.parties() == 2
        && part.party() == Party(0)
        && part.id() == 7
        && part.offset() == Key(1)
        && dealer_len(2, &part.counts()) == 71
        && part.counts() == counts(1, 0, 0, 0)
}

fn has_triple(part: &DealerPart) -> bool {
    part.counts().mult == 1 && part.mult(0) == MultTriple { a: 1, b: 2, c: 5 }
}

#[test]
fn the_example_is_read(rt: HostRuntime) {
    let is_read = match part_of(rt.alloc(), ONE_TRIPLE) {
        Some(part) => is_example(&part) && has_triple(&part),
        None => false,
    };
    assert!(rt; is_read);
}

fn is_file_of(alloc: Global, bytes: &[u8], part: &DealerPart) -> bool {
    if dealer_len(part.parties(), &part.counts()) > 100 {
        return false;
    }
    match write_dealer(alloc, part) {
        Ok(written) => written.as_slice() == bytes,
        Err(_) => false,
    }
}

fn is_file_of_copy(alloc: Global, bytes: &[u8], part: &DealerPart) -> bool {
    match part.copy(alloc) {
        Ok(copy) => is_file_of(alloc, bytes, &copy),
        Err(_) => false,
    }
}

/// Whether the part that is read is written as the same bytes, and its copy too.
fn comes_back(alloc: Global, bytes: &[u8]) -> bool {
    match read_dealer(alloc, bytes) {
        Ok(part) => is_file_of(alloc, bytes, &part) && is_file_of_copy(alloc, bytes, &part),
        Err(_) => false,
    }
}

fn text_comes_back(alloc: Global, text: &str) -> bool {
    match hex::decode(alloc, text) {
        Ok(bytes) => comes_back(alloc, &bytes),
        Err(_) => false,
    }
}

#[test]
fn what_is_read_is_written_again(rt: HostRuntime) {
    let is_first_back = text_comes_back(rt.alloc(), ONE_TRIPLE);
    assert!(&rt;
        is_first_back && text_comes_back(rt.alloc(), OTHER_KINDS),
        "{is_first_back}"
    );
}

fn has_bit_triple(part: &DealerPart) -> bool {
    if part.counts().bit != 1 {
        return false;
    }
    let triple = part.bits(0, 1);
    triple.a.word == 0 && triple.b.word == 1 && triple.c.word == 1
}

fn has_shared_bit(part: &DealerPart) -> bool {
    if part.counts().shared != 1 {
        return false;
    }
    for bit in part.shared(0, 1) {
        if !bit.bit || bit.word != 5 {
            return false;
        }
    }
    true
}

fn has_key_bit(part: &DealerPart) -> bool {
    if part.counts().key != 1 {
        return false;
    }
    for key in part.keys(0, 1) {
        if key.times.as_slice() != [Key(9), Key(10)].as_slice() {
            return false;
        }
    }
    true
}

#[test]
fn records_of_the_other_kinds_are_served(rt: HostRuntime) {
    let are_served = match part_of(rt.alloc(), OTHER_KINDS) {
        Some(part) => has_bit_triple(&part)
            && has_shared_bit(&part)
            && has_key_bit(&part)
            && part.counts() == counts(0, 1, 1, 1),
        None => false,
    };
    assert!(rt; are_served);
}
