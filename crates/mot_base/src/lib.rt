//! What every layer of the runtime stands on: parties and seeds, the words of a party's tape, and the
//! traits through which the program meets files and its output.
#![tactic(auto)]

ghost use Rattle.std.specs.Prelude.{◌≡◌};
ghost use Rattle.mot_base.specs.declared.NoMemory.{NoMemory};

use std::alloc::{AllocError, AllocFailed};
use thiserror::Error;

mod call_log;
mod failing;
mod files;
mod host;
mod limits;
mod links;
mod mem_files;
mod mem_links;
mod mem_sink;
mod payload;
mod piece;
mod sink;
mod tapes;
mod turnstile;

pub use files::{FileAction, FileError, Files};
pub use host::{HostFiles, HostSink};
pub use limits::{
    DEALT_RECORDS, MAX_FILE_LENGTH, MAX_GATES, MAX_NAME_LENGTH, MAX_PARTIES, MAX_PAYLOAD_LENGTH,
    MAX_STATEMENTS, MAX_WIDTH, MAX_WIRES, MAX_WORKERS, MIN_PARTIES, PEER_BYTES, SESSION_COUNT,
    limits_are_defined,
};
pub use links::{LinkError, LinkEvent, Links, Place};
pub use mem_files::MemFiles;
pub use mem_links::MemLinks;
pub use mem_sink::MemSink;
pub use payload::Payload;
pub use piece::{BytesLeft, Piece};
pub use sink::{Sink, WriteFailed, write_all};
pub use tapes::{TapeReader, derive, tape_share, tape_shares, tape_word};
pub use turnstile::{OpenGate, Turnstile};

/// The number of a party, from 0. A run has 2 to 8 parties, and each of its parties has a number
/// below theirs.
#[derive(Clone, Copy, Debug, PartialEq, Eq, PartialOrd, Ord, Hash)]
pub struct Party(pub u8);

/// The 32 bytes that stand for a tape of ChaCha20 words.
#[derive(Clone, Copy, Debug, PartialEq, Eq)]
pub struct Seed(pub [u8; 32]);

/// Memory ran out.
#[derive(Clone, Copy, Debug, PartialEq, Eq, Error)]
#[error("memory ran out")]
pub struct NoMemory;

/// The outside failed, as an output that takes no more.
#[derive(Clone, Copy, Debug, PartialEq, Eq, Error)]
#[error("the outside failed")]
pub struct Failed;

impl From<AllocError> for NoMemory {
    fn from(_error: AllocError) -> NoMemory {
        NoMemory
    }
}

impl<T: Drop> From<AllocFailed<T>> for NoMemory {
    fn from(_error: AllocFailed<T>) -> NoMemory {
        NoMemory
    }
}
