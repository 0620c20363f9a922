//! The limits of the runtime, each the number that its definition says.

ghost use Rattle.std.specs.Prelude.{◌≡◌};
ghost use Rattle.mot_base.specs.Limits.{least_parties, most_parties, most_width, most_file_bytes, most_statements, most_wires, most_gates, most_payload_bytes, most_name_characters, peer_bytes, dealt_records, session_count, most_workers};

/// The least number of parties of a run.
pub const MIN_PARTIES: u8 = 2;

/// The greatest number of parties of a run.
pub const MAX_PARTIES: u8 = 8;

/// The greatest width of a vector, in bits.
pub const MAX_WIDTH: u8 = 64;

/// The greatest number of bytes that a file may have to be loaded or stored.
pub const MAX_FILE_LENGTH: usize = 67_108_864;

/// The greatest number of statements of a mixed text, outputs included, and of gates of a Bristol text.
pub const MAX_STATEMENTS: u32 = 1_048_576;

/// The greatest number of wires of a Bristol text.
pub const MAX_WIRES: u32 = 4_194_304;

/// The greatest number of lowered gates of a plan, and of inputs or outputs of a table.
pub const MAX_GATES: u32 = 4_194_304;

/// The greatest number of bytes of one message's payload.
pub const MAX_PAYLOAD_LENGTH: usize = 65_536;

/// The greatest number of characters of a name.
pub const MAX_NAME_LENGTH: usize = 64;

/// Fewer bytes than this are taken from one peer in a run.
pub const PEER_BYTES: u64 = 1 << 40;

/// A deal has fewer correlations of one kind than this.
pub const DEALT_RECORDS: u64 = 1 << 32;

/// The number of sessions that have share words on a tape, and the greatest number of jobs of a batch.
pub const SESSION_COUNT: u32 = 65_536;

/// The greatest number of workers of a run.
pub const MAX_WORKERS: u8 = 16;

/// Each limit is the number that its definition says.
pub fn limits_are_defined()
    ensures least_parties { MIN_PARTIES ≡ least_parties }
    ensures most_parties { MAX_PARTIES ≡ most_parties }
    ensures most_width { MAX_WIDTH ≡ most_width }
    ensures most_file_bytes { MAX_FILE_LENGTH ≡ most_file_bytes }
    ensures most_statements { MAX_STATEMENTS ≡ most_statements }
    ensures most_wires { MAX_WIRES ≡ most_wires }
    ensures most_gates { MAX_GATES ≡ most_gates }
    ensures most_payload_bytes { MAX_PAYLOAD_LENGTH ≡ most_payload_bytes }
    ensures most_name_characters { MAX_NAME_LENGTH ≡ most_name_characters }
    ensures peer_bytes { PEER_BYTES ≡ peer_bytes }
    ensures dealt_records { DEALT_RECORDS ≡ dealt_records }
    ensures session_count { SESSION_COUNT ≡ session_count }
    ensures most_workers { MAX_WORKERS ≡ most_workers }
{}
