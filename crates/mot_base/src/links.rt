ghost use Rattle.std.specs.Prelude.{◌≡◌, ℕ, ◌<◌, ◌≤◌, Bool, true, false, Option, Some, None, length, take, OnOk, OnErr, IsErrOf};
ghost use Rattle.mot_base.specs.Faults.{Rose};
ghost use Rattle.mot_base.specs.Limits.{least_parties, most_parties};
ghost use Rattle.mot_base.specs.Links.{ByParty, IsPeer, IsOpen, IsKept, IsAppended, IsSame, NamesPeer, Moves, Closes, IsFault};
ghost use Rattle.mot_base.specs.declared.links.Place as the_place;

use crate::Party;
use std::alloc::{AllocError, Global};
use thiserror::Error;

/// Why a call on links did nothing.
#[derive(Clone, Copy, Debug, PartialEq, Eq, Error)]
pub enum LinkError {
    /// The links failed.
    #[error("the links failed")]
    Failed,
    /// Memory ran out.
    #[error("memory ran out")]
    NoMemory,
}

impl From<AllocError> for LinkError {
    ghost use Rattle.std.specs.Prelude.{◌≡◌};
    ghost use Rattle.mot_base.specs.declared.links.LinkError.TheVariants.{NoMemory};

    ghost from_gives = { λ _ error. error ≡ NoMemory };

    fn from(_error: AllocError) -> LinkError {
        LinkError::NoMemory
    }
}

impl From<crate::NoMemory> for LinkError {
    ghost use Rattle.std.specs.Prelude.{◌≡◌};
    ghost use Rattle.mot_base.specs.declared.links.LinkError.TheVariants.{NoMemory};

    ghost from_gives = { λ _ error. error ≡ NoMemory };

    fn from(_error: crate::NoMemory) -> LinkError {
        LinkError::NoMemory
    }
}

/// What comes next of some peer.
#[derive(Clone, Copy, Debug, PartialEq, Eq)]
pub enum LinkEvent {
    /// So many bytes of the peer stand at the front of the buffer.
    Bytes(Party, usize),
    /// The peer sends no more bytes.
    Closed(Party),
    /// The link to the peer failed.
    Failed(Party),
    /// Memory ran out.
    NoMemory,
}

/// For whom links are connected: for the party `me` of so many parties.
#[derive(Clone, Copy, Debug, PartialEq, Eq)]
pub struct Place {
    pub me: Party,
    pub parties: u8,
}

/// The links of one party to all others.
///
/// An implementation may tell which bytes of each party are left, and which were sent to each
/// party. It tells which peers it answered as closed since the last `connect`, whether all that was
/// sent is on its way, and for whom it is connected. It keeps a count of its faults, from 0.
pub trait Links {
    ghost left: { Self → Option ByParty };

    ghost sent: { Self → Option ByParty };

    ghost closed: { Self → ℕ → Bool };

    ghost flushed: { Self → Bool };

    ghost place: { Self → Option the_place.Place };

    ghost faults: { Self → ℕ };

    /// Connects the party `me` to all others of so many parties, at the port and those behind it.
    /// No peer is closed then. After a refusal there are no peers.
    fn connect(&mut self, alloc: Global, me: Party, parties: u8, port: u16) -> Result<(), LinkError>
        requires least { least_parties ≤ parties }
        requires most { parties ≤ most_parties }
        requires me { me.0 < parties }
        ensures placed { OnOk result (place self.new
            ≡ Some (record { me = me; parties = parties })) }
        ensures refused { OnErr result (place self.new ≡ None) }
        ensures left { IsKept (left self.old) (left self.new) }
        ensures sent { IsKept (sent self.old) (sent self.new) }
        ensures closed { (q : ℕ) → closed self.new q ≡ false }
        ensures flushed { flushed self.new ≡ false }
        ensures cause { IsErrOf result LinkError.Failed → Rose (faults self.old) (faults self.new) }
        ensures never_falls { faults self.old ≤ faults self.new };

    /// Waits for what comes next of some peer.
    fn take(&mut self, alloc: Global, into: &mut [u8]) -> LinkEvent
        requires room { 0 < length into.old }
        requires open { IsOpen (place self.old) (closed self.old) }
        ensures peer { NamesPeer (place self.old) result }
        ensures moves { Moves (left self.old) (left self.new) into.new result }
        ensures room { length into.new ≡ length into.old }
        ensures sent { IsKept (sent self.old) (sent self.new) }
        ensures closes { Closes (closed self.old) (closed self.new) result }
        ensures flushed { flushed self.new ≡ flushed self.old }
        ensures place { place self.new ≡ place self.old }
        ensures cause { IsFault result → Rose (faults self.old) (faults self.new) }
        ensures never_falls { faults self.old ≤ faults self.new };

    /// Sends a piece to a peer. A refused call may have sent some first bytes of it.
    fn send(&mut self, alloc: Global, to: Party, from: &[u8]) -> Result<(), LinkError>
        requires peer { IsPeer (place self.old) to.0 }
        ensures all { OnOk result (IsAppended (sent self.old) (sent self.new) to.0 from.now) }
        ensures some { OnErr result ((n : ℕ)
            × IsAppended (sent self.old) (sent self.new) to.0 (take n from.now)) }
        ensures left { IsKept (left self.old) (left self.new) }
        ensures closed { IsSame (closed self.old) (closed self.new) }
        ensures flushed { flushed self.new ≡ false }
        ensures place { place self.new ≡ place self.old }
        ensures cause { IsErrOf result LinkError.Failed → Rose (faults self.old) (faults self.new) }
        ensures never_falls { faults self.old ≤ faults self.new };

    /// Waits until all that was sent is on its way.
    fn finish(&mut self, alloc: Global) -> Result<(), LinkError>
        ensures flushed { OnOk result (flushed self.new ≡ true) }
        ensures unflushed { OnErr result (flushed self.new ≡ flushed self.old) }
        ensures left { IsKept (left self.old) (left self.new) }
        ensures sent { IsKept (sent self.old) (sent self.new) }
        ensures closed { IsSame (closed self.old) (closed self.new) }
        ensures place { place self.new ≡ place self.old }
        ensures cause { IsErrOf result LinkError.Failed → Rose (faults self.old) (faults self.new) }
        ensures never_falls { faults self.old ≤ faults self.new };
}
