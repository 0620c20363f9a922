ghost use Rattle.std.specs.Prelude.{◌≡◌, ◌<◌, ◌≤◌, ◌++◌, ◌%◌, length, take, OnOk};
ghost use Rattle.mot_base.specs.Limits.{least_parties, most_parties, most_file_bytes};
ghost use Rattle.dealer_files.specs.File.{counts_bytes, head_bytes, file_length};
ghost use Rattle.dealer_files.specs.Part.{counts_of};
ghost use Rattle.dealer_files.specs.Reading.{IsHeadOf, Passed};
ghost use Rattle.dealer_files.specs.Checks.{stated_counts, stated_parties, stated_length, magic_fault, version_fault, party_fault, offset_fault, counts_fault, head_fault, found};

use crate::numbers::{put_count, put_number, put_word, read_count, read_number, read_word};
use crate::{DealerError, DealerPart};
use mot_base::{MAX_FILE_LENGTH, MAX_PARTIES, MIN_PARTIES};
use share_types::Needs;
use std::alloc::AllocError;

/// What stands before the records of a dealer file.
#[derive(Clone, Copy)]
pub(crate) struct Head {
    pub(crate) parties: u8,
    pub(crate) party: u8,
    pub(crate) id: u64,
    pub(crate) offset: u128,
    pub(crate) counts: Needs,
}

/// How many bytes it takes.
pub(crate) const HEAD_LENGTH: usize = 47;

const MAGIC: [u8; 4] = *b"MOTD";

const VERSION: u8 = 1;

/// The length in bytes of the file of a part with these counts, for so many parties.
pub fn dealer_len(parties: u8, counts: &Needs) -> u64
    ensures { result ≡ file_length parties counts.now }
{
    47 + 24 * u64::from(counts.mult)
        + u64::from(counts.bit)
        + 9 * u64::from(counts.shared)
        + (1 + 16 * u64::from(parties)) * u64::from(counts.key)
}

/// Checks the fields before the records, one after another.
pub(crate) fn check_head(bytes: &[u8]) -> Result<(), DealerError>
    ensures { found result ≡ head_fault bytes.now }
{
    check_magic(bytes)?;
    check_version(bytes)?;
    check_party(bytes)?;
    check_offset(bytes)?;
    check_counts(bytes)
}

#[tactic(auto, unfolding(crate::specs::Checks::magic_fault))]
fn check_magic(bytes: &[u8]) -> Result<(), DealerError>
    ensures { found result ≡ magic_fault bytes.now }
{
    if bytes.len() < 4 {
        return Err(DealerError::Short);
    }
    if bytes[..4] != MAGIC[..] {
        return Err(DealerError::Magic);
    }
    Ok(())
}

#[tactic(auto, unfolding(crate::specs::Checks::version_fault))]
fn check_version(bytes: &[u8]) -> Result<(), DealerError>
    ensures { found result ≡ version_fault bytes.now }
{
    if bytes.len() < 5 {
        return Err(DealerError::Short);
    }
    if bytes[4] != VERSION {
        return Err(DealerError::Version);
    }
    Ok(())
}

#[tactic(auto, unfolding(crate::specs::Checks::party_fault))]
fn check_party(bytes: &[u8]) -> Result<(), DealerError>
    ensures { found result ≡ party_fault bytes.now }
{
    if bytes.len() < 7 {
        return Err(DealerError::Short);
    }
    let (parties, party) = (bytes[5], bytes[6]);
    if parties < MIN_PARTIES || parties > MAX_PARTIES || party >= parties {
        return Err(DealerError::Party);
    }
    Ok(())
}

#[tactic(auto, unfolding(crate::specs::Checks::offset_fault))]
fn check_offset(bytes: &[u8]) -> Result<(), DealerError>
    ensures { found result ≡ offset_fault bytes.now }
{
    if bytes.len() < 31 {
        return Err(DealerError::Short);
    }
    if read_number(&bytes[15..]) % 2 == 0 {
        return Err(DealerError::OffsetEven);
    }
    Ok(())
}

#[tactic(auto, unfolding(crate::specs::Checks::counts_fault))]
fn check_counts(bytes: &[u8]) -> Result<(), DealerError>
    ensures { found result ≡ counts_fault bytes.now }
{
    if bytes.len() < HEAD_LENGTH {
        return Err(DealerError::Short);
    }
    if dealer_len(bytes[5], &read_counts(bytes)) > MAX_FILE_LENGTH as u64 {
        return Err(DealerError::Counts);
    }
    Ok(())
}

/// The counts that a file states.
#[tactic(auto, unfolding(crate::specs::Checks::stated_counts))]
fn read_counts(bytes: &[u8]) -> Needs
    requires { 47 ≤ length bytes.now }
    ensures { result ≡ stated_counts bytes.now }
{
    Needs {
        mult: read_count(&bytes[31..]),
        bit: read_count(&bytes[35..]),
        shared: read_count(&bytes[39..]),
        key: read_count(&bytes[43..]),
    }
}

/// Writes what stands before the records.
pub(crate) fn put_head(out: &mut Vec<u8>, part: &DealerPart) -> Result<(), AllocError>
    ensures { OnOk result (out.new.items ≡ out.old.items ++ head_bytes part.now.parties part.now.party part.now.id part.now.offset (counts_of part.now)) }
{
    out.extend_from_slice(&MAGIC)?;
    out.extend_from_slice(&[VERSION, part.parties(), part.party().0])?;
    put_word(out, part.id())?;
    put_number(out, part.offset().0)?;
    put_counts(out, &part.counts())
}

/// Writes the counts.
fn put_counts(out: &mut Vec<u8>, counts: &Needs) -> Result<(), AllocError>
    ensures { OnOk result (out.new.items ≡ out.old.items ++ counts_bytes counts.now) }
{
    put_count(out, counts.mult)?;
    put_count(out, counts.bit)?;
    put_count(out, counts.shared)?;
    put_count(out, counts.key)
}

/// Reads what stands before the records, where it passes its checks.
pub(crate) fn read_head(bytes: &[u8]) -> Head
    requires { Passed bytes.now }
    ensures { IsHeadOf bytes.now result.parties result.party result.id result.offset result.counts }
{
    Head {
        parties: bytes[5],
        party: bytes[6],
        id: read_word(&bytes[7..]),
        offset: read_number(&bytes[15..]),
        counts: read_counts(bytes),
    }
}
