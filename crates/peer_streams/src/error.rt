use frames::FrameFault;
use message_demux::{Refused, Slot};
use mot_base::{LinkError, NoMemory, Party};
use share_types::TooFew;
use thiserror::Error;

/// Why one party's part of a run ended. Where one byte shows several causes, it is the first of them
/// in this order.
#[derive(Debug, Drop, Error)]
pub enum PartyError {
    /// The part has fewer records of a kind than the bases and the needs ask for.
    #[error("the part has too few records: {0}")]
    TooFew(TooFew),
    #[error("the first frame of party {} is no Hello", .peer.0)]
    HelloMissing {
        peer: Party,
    },
    /// The first field that differs is 0 version, 1 parties, 2 from, 3 to, 4 deal id or 5 circuit id.
    /// Its values are shown as 32 bytes, with zeros in front.
    #[error("field {field} of a Hello of party {} is another than expected", .peer.0)]
    HelloDiffers {
        peer: Party,
        field: u8,
        ours: [u8; 32],
        theirs: [u8; 32],
    },
    #[error("a frame of party {} is bad: {fault}", .peer.0)]
    Frame {
        peer: Party,
        fault: FrameFault,
    },
    #[error("a message of party {} is refused: {refusal}", .peer.0)]
    Refused {
        peer: Party,
        refusal: Refused,
    },
    /// End came before the messages of the peer, of which this is the first that is lacking.
    #[error("party {} ended before its messages came", .peer.0)]
    EndEarly {
        peer: Party,
        slot: Slot,
    },
    /// 2^40 bytes came, those behind End included.
    #[error("2^40 bytes of party {} came", .peer.0)]
    TooManyBytes {
        peer: Party,
    },
    #[error("party {} closed its link before its End", .peer.0)]
    PeerClosed {
        peer: Party,
    },
    #[error("the links failed")]
    LinkFault,
    #[error("memory ran out")]
    NoMemory,
}

impl From<NoMemory> for PartyError {
    ghost use Rattle.std.specs.Prelude.{◌≡◌};
    ghost use Rattle.peer_streams.specs.declared.error.PartyError.TheVariants.{NoMemory};

    ghost from_gives = { λ _ cause. cause ≡ NoMemory };

    fn from(_error: NoMemory) -> PartyError {
        PartyError::NoMemory
    }
}

impl From<LinkError> for PartyError {
    ghost use Rattle.std.specs.Prelude.{◌≡◌};
    ghost use Rattle.peer_streams.specs.Sending.{link_cause};

    ghost from_gives = { λ error cause. cause ≡ link_cause error };

    fn from(error: LinkError) -> PartyError {
        match error {
            LinkError::Failed => PartyError::LinkFault,
            LinkError::NoMemory => PartyError::NoMemory,
        }
    }
}
