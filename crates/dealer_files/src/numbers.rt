//! Numbers as bytes, the highest byte first.

ghost use Rattle.std.specs.Prelude.{◌≡◌, ◌≤◌, ◌++◌, length, take, OnOk};
ghost use Rattle.byteorder.specs.Endian.{big_number};
ghost use Rattle.dealer_files.specs.File.{count_bytes, word_bytes, number_bytes};

use byteorder::{BigEndian, ByteOrder};
use std::alloc::AllocError;

/// The word in the first 8 bytes.
#[tactic(auto, using(crate::proofs::Spelled::word_back))]
pub(crate) fn read_word(bytes: &[u8]) -> u64
    requires { 8 ≤ length bytes.now }
    ensures { word_bytes result ≡ take 8 bytes.now }
{
    BigEndian::read_u64(bytes)
}

/// The number in the first 16 bytes.
#[tactic(auto, using(crate::proofs::Spelled::number_back))]
pub(crate) fn read_number(bytes: &[u8]) -> u128
    requires { 16 ≤ length bytes.now }
    ensures bytes { number_bytes result ≡ take 16 bytes.now }
    ensures number { result ≡ big_number 16 bytes.now }
{
    BigEndian::read_u128(bytes)
}

/// The count in the first 4 bytes.
#[tactic(auto, using(crate::proofs::Spelled::count_back))]
pub(crate) fn read_count(bytes: &[u8]) -> u32
    requires { 4 ≤ length bytes.now }
    ensures bytes { count_bytes result ≡ take 4 bytes.now }
    ensures number { result ≡ big_number 4 bytes.now }
{
    BigEndian::read_u32(bytes)
}

/// Writes a word in 8 bytes.
#[tactic(auto, unfolding(crate::specs::File::word_bytes))]
pub(crate) fn put_word(out: &mut Vec<u8>, word: u64) -> Result<(), AllocError>
    ensures { OnOk result (out.new.items ≡ out.old.items ++ word_bytes word) }
{
    let mut bytes = [0; 8];
    BigEndian::write_u64(&mut bytes, word);
    out.extend_from_slice(&bytes)
}

/// Writes a number in 16 bytes.
#[tactic(auto, unfolding(crate::specs::File::number_bytes))]
pub(crate) fn put_number(out: &mut Vec<u8>, number: u128) -> Result<(), AllocError>
    ensures { OnOk result (out.new.items ≡ out.old.items ++ number_bytes number) }
{
    let mut bytes = [0; 16];
    BigEndian::write_u128(&mut bytes, number);
    out.extend_from_slice(&bytes)
}

/// Writes a count in 4 bytes.
#[tactic(auto, unfolding(crate::specs::File::count_bytes))]
pub(crate) fn put_count(out: &mut Vec<u8>, count: u32) -> Result<(), AllocError>
    ensures { OnOk result (out.new.items ≡ out.old.items ++ count_bytes count) }
{
    let mut bytes = [0; 4];
    BigEndian::write_u32(&mut bytes, count);
    out.extend_from_slice(&bytes)
}
