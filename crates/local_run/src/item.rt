//! Items of the graph of a run, and what the edges between them carry.

use mot_base::Party;

/// A party's stage of a gate.
#[derive(Clone, Copy)]
pub(crate) struct Item {
    pub(crate) gate: u32,
    pub(crate) stage: u8,
    pub(crate) party: Party,
}

/// What an edge carries.
#[derive(Clone, Copy)]
pub(crate) enum Load {
    /// A party's value of a gate.
    Wire {
        gate: u32,
        party: Party,
    },
    /// What a party carries to its stage of a gate that waits for a round.
    Kept {
        gate: u32,
        round: u8,
        party: Party,
    },
    /// The payload of a round of a gate from one party to another.
    Message {
        gate: u32,
        round: u8,
        from: Party,
        to: Party,
    },
}
