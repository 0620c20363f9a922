//! What a run cannot do without.

use mot_base::NoMemory;
use sha2::{Digest, Sha256};
use std::alloc::Global;

/// As many bytes as a frame has whose payload opens two words.
const FRAME_LENGTH: usize = 26;

/// Writes that many frames one after another, takes SHA-256 of all, and gives the first byte of it.
pub(crate) fn hash_frames(alloc: Global, count: u32) -> Result<u64, NoMemory> {
    let mut bytes = Vec::new(alloc);
    for _at in 0..count {
        bytes.extend_from_slice(&[7; FRAME_LENGTH])?;
    }
    Ok(u64::from(Sha256::digest(bytes.as_slice())[0]))
}
