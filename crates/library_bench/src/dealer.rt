use anyhow::Error;
use dealer_files::{DealerPart, dealer_len, read_dealer, write_dealer};
use dealer_maker::deal;
use mot_base::{MAX_FILE_LENGTH, NoMemory, Seed, TapeReader};
use share_types::Needs;
use std::alloc::Global;

/// Deals that many bit triples and three tenths as many key bits to three parties, and gives the bytes of all
/// their files.
pub(crate) fn deal_to_three(alloc: Global, size: u32) -> Result<u64, NoMemory> {
    let counts = Needs {
        mult: 0,
        bit: size,
        shared: 0,
        key: size / 10 * 3,
    };
    let parts = deal(alloc, 3, &Seed([0; 32]), &counts)?;
    let mut sum = 0u64;
    for part in &parts {
        sum = sum.wrapping_add(written(alloc, part)?);
    }
    Ok(sum)
}

/// What `deal_to_three` cannot do without: draws as many words, and writes each in 4 bytes, which are about as many as
/// all files have.
pub(crate) fn draw_and_write(alloc: Global, size: u32) -> Result<u64, NoMemory> {
    let count = 3 * u64::from(size) + 81 * u64::from(size / 10);
    let mut tape = TapeReader::new(&Seed([0; 32]), 0);
    let mut bytes = Vec::new(alloc);
    for _at in 0..count {
        bytes.extend_from_slice(&tape.word().to_le_bytes())?;
    }
    Ok(bytes.len() as u64)
}

/// The length of the part's file, which is written where it is within the limit.
fn written(alloc: Global, part: &DealerPart) -> Result<u64, NoMemory> {
    if dealer_len(part.parties(), &part.counts()) > MAX_FILE_LENGTH as u64 {
        return Ok(0);
    }
    Ok(write_dealer(alloc, part)?.len() as u64)
}

/// Reads the file of two parties with that many key bits, whose bytes are all 0 but for the head's.
pub(crate) fn read_keys(alloc: Global, size: u32) -> Result<u64, Error> {
    let counts = Needs {
        mult: 0,
        bit: 0,
        shared: 0,
        key: size,
    };
    let head = hex::decode(
        alloc,
        "4d4f5444010200000000000000000700000000000000000000000000000001000000000000000000000000",
    )?;
    let mut bytes = Vec::from_slice(alloc, head.as_slice())?;
    bytes.extend_from_slice(&size.to_be_bytes())?;
    bytes.resize(dealer_len(2, &counts) as usize, 0)?;
    let part = read_dealer(alloc, bytes.as_slice())?;
    Ok(u64::from(part.counts().key))
}
