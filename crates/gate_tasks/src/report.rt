//! What a party reports of a run.

use share_types::BitsList;

/// What a party is told by the output gates, in their order, and the digest of all that it sends.
#[derive(Debug, Drop)]
pub struct PartyReport {
    /// Each in the width of its gate.
    pub told: BitsList,
    /// SHA-256 of the frames of the party's messages, sorted by gate, then by round and then by receiver.
    pub digest: [u8; 32],
}
