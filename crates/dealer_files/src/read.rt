ghost use Rattle.std.specs.Prelude.{◌≡◌, ℕ, ◌<◌, ◌≤◌, ◌+◌, ◌*◌, ◌^◌, length, drop, take, slice_index, OnOk, IfOk, IfErr, IfSome, None, All};
ghost use Rattle.std.specs.List.{flat_map};
ghost use Rattle.share_types.specs.Bits.{once};
ghost use Rattle.dealer_files.specs.File.{mult_bytes, shared_bytes, key_bytes, key_bit_bytes, key_bit_size, file_length, bits_start, shared_start, keys_start, IsFile};
ghost use Rattle.dealer_files.specs.Reading.{IsHeadOf, AreFlags};
ghost use Rattle.dealer_files.specs.Checks.{stated_counts, stated_parties, stated_length, head_fault, IsAbove, IsWrongByte, IsFirst, IsRecordsFault, IsFaultOf};
ghost use Rattle.dealer_files.specs.Laws.{MultFits, SharedFits, KeyBitFits, IsOfNumbers};

use crate::head::{HEAD_LENGTH, Head, check_head, dealer_len, read_head};
use crate::numbers::{read_number, read_word};
use crate::{DealerError, DealerPart};
use mot_base::{NoMemory, Party};
use share_types::{Key, KeyBit, Keys, MultTriple, Needs, SharedBit};
use std::alloc::Global;

/// The greatest bit record, and the greatest flag.
const MOST_BITS: u8 = 7;

const MOST_FLAG: u8 = 1;

/// The bytes of a multiplication triple, of a shared bit and of a key.
const MULT_LENGTH: usize = 24;

const SHARED_LENGTH: usize = 9;

const KEY_LENGTH: usize = 16;

/// The part of which the bytes are the file, or else the first fault that they show.
pub fn read_dealer(alloc: Global, bytes: &[u8]) -> Result<DealerPart, DealerError>
    ensures part { IfOk result (λ part. IsFile bytes.now part) }
    ensures numbers { IfOk result (λ part. IsOfNumbers part) }
    ensures fault { IfErr result (λ fault. IsFaultOf bytes.now fault) }
{
    check_head(bytes)?;
    let head = read_head(bytes);
    check_records(bytes, &head)?;
    Ok(read_part(alloc, bytes, &head)?)
}

/// Checks that there are as many bytes as the head says, and the bits among the records.
fn check_records(bytes: &[u8], head: &Head) -> Result<(), DealerError>
    requires parties { head.now.parties ≡ stated_parties bytes.now }
    requires counts { head.now.counts ≡ stated_counts bytes.now }
    ensures length { OnOk result (length bytes.now ≡ stated_length bytes.now) }
    ensures bytes { OnOk result ((place : ℕ) → IsWrongByte bytes.now place → ⊥) }
    ensures fault { IfErr result (λ fault. IsRecordsFault bytes.now fault) }
{
    let length = dealer_len(head.parties, &head.counts);
    let there = bytes.len() as u64;
    if there < length {
        return Err(DealerError::Short);
    }
    if there > length {
        return Err(DealerError::Long);
    }
    match first_wrong(bytes, head) {
        Some(place) => Err(DealerError::RecordBits {
            place: place as u64,
        }),
        None => Ok(()),
    }
}

/// The first place of a bit record or a flag that is too great.
fn first_wrong(bytes: &[u8], head: &Head) -> Option<usize>
    requires parties { head.now.parties ≡ stated_parties bytes.now }
    requires counts { head.now.counts ≡ stated_counts bytes.now }
    requires length { length bytes.now ≡ stated_length bytes.now }
    ensures none { result ≡ None → (place : ℕ) → IsWrongByte bytes.now place → ⊥ }
    ensures some { IfSome result (λ place. IsFirst (IsWrongByte bytes.now) place) }
{
    let counts = &head.counts;
    let (bits, shared, keys) = starts(counts);
    let first = first_above(bytes, MOST_BITS, bits, 1, counts.bit);
    if first.is_some() {
        return first;
    }
    let first = first_above(bytes, MOST_FLAG, shared, SHARED_LENGTH, counts.shared);
    if first.is_some() {
        return first;
    }
    first_above(
        bytes,
        MOST_FLAG,
        keys,
        key_bit_length(head.parties),
        counts.key,
    )
}

/// Where the bit triples, the shared bits and the key bits begin.
fn starts(counts: &Needs) -> (usize, usize, usize)
    ensures bits { result.0 ≡ bits_start counts.now }
    ensures shared { result.1 ≡ shared_start counts.now }
    ensures keys { result.2 ≡ keys_start counts.now }
{
    let bits = HEAD_LENGTH + MULT_LENGTH * counts.mult as usize;
    let shared = bits + counts.bit as usize;
    (
        bits,
        shared,
        shared + SHARED_LENGTH * counts.shared as usize,
    )
}

/// The bytes of a key record.
fn key_bit_length(parties: u8) -> usize
    ensures { result ≡ key_bit_size parties }
{
    1 + KEY_LENGTH * usize::from(parties)
}

/// The first place where one of `count` records of `size` bytes, from `start` on, begins with a byte above
/// `most`.
fn first_above(bytes: &[u8], most: u8, start: usize, size: usize, count: u32) -> Option<usize>
    requires size { 1 ≤ size }
    requires inside { start + size * count ≤ length bytes.now }
    ensures none { result ≡ None → (place : ℕ) → IsAbove bytes.now most start size count place → ⊥ }
    ensures some { IfSome result (λ place. IsFirst (IsAbove bytes.now most start size count) place) }
{
    let mut place = start;
    for _at in 0..count {
        if bytes[place] > most {
            return Some(place);
        }
        place += size;
    }
    None
}

/// The part of which the bytes are the file, where all checks have passed.
fn read_part(alloc: Global, bytes: &[u8], head: &Head) -> Result<DealerPart, NoMemory>
    requires head { IsHeadOf bytes.now head.now.parties head.now.party head.now.id head.now.offset head.now.counts }
    requires length { length bytes.now ≡ stated_length bytes.now }
    requires right { (place : ℕ) → IsWrongByte bytes.now place → ⊥ }
    ensures part { IfOk result (λ part. IsFile bytes.now part) }
    ensures numbers { IfOk result (λ part. IsOfNumbers part) }
{
    let counts = &head.counts;
    let (first, second, third) = starts(counts);
    let mult = read_mults(alloc, &bytes[HEAD_LENGTH..first], counts.mult)?;
    let bits = Vec::from_slice(alloc, &bytes[first..second])?;
    let shared = read_shareds(alloc, &bytes[second..third], counts.shared)?;
    let keys = read_key_bits(alloc, &bytes[third..], counts.key, head.parties)?;
    Ok(DealerPart::new(
        head.parties,
        Party(head.party),
        head.id,
        Key(head.offset),
        mult,
        bits,
        shared,
        keys,
    ))
}

/// So many multiplication triples, which are all of the bytes.
fn read_mults(alloc: Global, bytes: &[u8], count: u32) -> Result<Vec<MultTriple>, NoMemory>
    requires { length bytes.now ≡ 24 * count }
    ensures bytes { IfOk result (λ list. flat_map mult_bytes list.items ≡ bytes.now) }
    ensures count { IfOk result (λ list. length list.items ≡ count) }
    ensures numbers { IfOk result (λ list. All MultFits list.items) }
{
    let mut list = Vec::with_capacity(alloc, count as usize)?;
    let mut rest = bytes;
    for _at in 0..count {
        let (front, after) = rest.split_at(MULT_LENGTH);
        list.push(read_mult(front))?;
        rest = after;
    }
    Ok(list)
}

fn read_mult(bytes: &[u8]) -> MultTriple
    requires { length bytes.now ≡ 24 }
    ensures bytes { mult_bytes result ≡ bytes.now }
    ensures numbers { MultFits result }
{
    MultTriple {
        a: read_word(bytes),
        b: read_word(&bytes[8..]),
        c: read_word(&bytes[16..]),
    }
}

/// So many shared bits, which are all of the bytes.
fn read_shareds(alloc: Global, bytes: &[u8], count: u32) -> Result<Vec<SharedBit>, NoMemory>
    requires length { length bytes.now ≡ 9 * count }
    requires flags { AreFlags bytes.now 9 count }
    ensures bytes { IfOk result (λ list. flat_map shared_bytes list.items ≡ bytes.now) }
    ensures count { IfOk result (λ list. length list.items ≡ count) }
    ensures numbers { IfOk result (λ list. All SharedFits list.items) }
{
    let mut list = Vec::with_capacity(alloc, count as usize)?;
    let mut rest = bytes;
    for _at in 0..count {
        let (front, after) = rest.split_at(SHARED_LENGTH);
        list.push(read_shared(front))?;
        rest = after;
    }
    Ok(list)
}

fn read_shared(bytes: &[u8]) -> SharedBit
    requires length { length bytes.now ≡ 9 }
    requires flag { slice_index bytes.now 0 ≤ 1 }
    ensures bytes { shared_bytes result ≡ bytes.now }
    ensures numbers { SharedFits result }
{
    SharedBit {
        bit: read_flag(bytes),
        word: read_word(&bytes[1..]),
    }
}

fn read_flag(bytes: &[u8]) -> bool
    requires length { 1 ≤ length bytes.now }
    requires flag { slice_index bytes.now 0 ≤ 1 }
    ensures { once result ≡ slice_index bytes.now 0 }
{
    bytes[0] == 1
}

/// So many key bits of so many parties, which are all of the bytes.
fn read_key_bits(
    alloc: Global,
    bytes: &[u8],
    count: u32,
    parties: u8,
) -> Result<Vec<KeyBit>, NoMemory>
    requires length { length bytes.now ≡ key_bit_size parties * count }
    requires flags { AreFlags bytes.now (key_bit_size parties) count }
    ensures bytes { IfOk result (λ list. flat_map key_bit_bytes list.items ≡ bytes.now) }
    ensures count { IfOk result (λ list. length list.items ≡ count) }
    ensures owners { IfOk result (λ list. All (λ k. length k.times ≡ parties) list.items) }
    ensures numbers { IfOk result (λ list. All KeyBitFits list.items) }
{
    let length = key_bit_length(parties);
    let mut list = Vec::with_capacity(alloc, count as usize)?;
    let mut rest = bytes;
    for _at in 0..count {
        let (front, after) = rest.split_at(length);
        list.push(read_key_bit(alloc, front, parties)?)?;
        rest = after;
    }
    Ok(list)
}

fn read_key_bit(alloc: Global, bytes: &[u8], parties: u8) -> Result<KeyBit, NoMemory>
    requires length { length bytes.now ≡ key_bit_size parties }
    requires flag { slice_index bytes.now 0 ≤ 1 }
    ensures bytes { IfOk result (λ k. key_bit_bytes k ≡ bytes.now) }
    ensures owners { IfOk result (λ k. length k.times ≡ parties) }
    ensures numbers { IfOk result (λ k. KeyBitFits k) }
{
    Ok(KeyBit {
        bit: read_flag(bytes),
        times: Keys::new(read_keys(alloc, &bytes[1..], parties)?),
    })
}

/// So many keys, which are all of the bytes.
fn read_keys(alloc: Global, bytes: &[u8], count: u8) -> Result<Vec<Key>, NoMemory>
    requires { length bytes.now ≡ 16 * count }
    ensures bytes { IfOk result (λ list. flat_map key_bytes list.items ≡ bytes.now) }
    ensures count { IfOk result (λ list. length list.items ≡ count) }
    ensures numbers { IfOk result (λ list. All (λ key. key.0 < 2 ^ 128) list.items) }
{
    let mut list = Vec::with_capacity(alloc, usize::from(count))?;
    let mut rest = bytes;
    for _at in 0..count {
        let (front, after) = rest.split_at(KEY_LENGTH);
        list.push(read_key(front))?;
        rest = after;
    }
    Ok(list)
}

fn read_key(bytes: &[u8]) -> Key
    requires { length bytes.now ≡ 16 }
    ensures bytes { key_bytes result ≡ bytes.now }
    ensures number { result.0 < 2 ^ 128 }
{
    Key(read_number(bytes))
}
