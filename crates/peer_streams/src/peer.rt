ghost use Rattle.std.specs.Prelude.{◌≡◌, ◌≢◌, ◌∷◌, ◌++◌, ◌⊎◌, ◌+◌, ◌≤◌, ◌<◌, ◌||◌, ℕ, true, false, List, [], length, Some, None, OnOk, IfErr};
ghost use Rattle.std.specs.FinMap as map;
ghost use Rattle.mot_base.specs.Limits.{peer_bytes};
ghost use Rattle.frames.specs.Reading.{Waiting, fault_of, has_ended};
ghost use Rattle.message_demux.specs.declared.slots.Slot as slot_type;
ghost use Rattle.message_demux.specs.Kept.{InboxContents};
ghost use Rattle.peer_streams.specs.Judging.{is_begun, IsOfPeer};
ghost use Rattle.peer_streams.specs.Runs.{fresh_peer};
ghost use Rattle.peer_streams.specs.Reading.{bytes_cause, KeepsOf, StillKeeps, HasRead, Shows};

use crate::error::PartyError;
use crate::judge::judge_all;
use frames::{Frame, FrameFault, Hello, Reader};
use message_demux::Inbox;
use mot_base::{NoMemory, PEER_BYTES};
use std::alloc::Global;
use std::marker::Model;

/// A peer, how far its bytes were read, and the Hello that is expected of it.
#[derive(Debug, Drop)]
pub struct Peer {
    expected: Hello,
    reader: Reader,
    taken: u64,
    greeted: bool,
}

impl Model for Peer {
    ghost use Rattle.peer_streams.specs.Reading.{PeerRead};

    ghost Value = { PeerRead };

    ghost view = { λ peer. record {
      expected = peer.expected;
      progress = peer.reader;
      taken = peer.taken;
      greeted = peer.greeted;
    } };
}

impl Peer {
    /// A peer of whom nothing was read yet.
    pub fn new(alloc: Global, expected: Hello) -> Peer
        ensures is { result ≡ fresh_peer expected }
        ensures nothing { (inbox : InboxContents) → KeepsOf inbox expected.from [] →
            HasRead inbox [] result }
    {
        Peer {
            expected,
            reader: Reader::new(alloc),
            taken: 0,
            greeted: false,
        }
    }

    /// Whether its End was read.
    pub fn has_ended(&self) -> bool
        ensures { result ≡ has_ended self.now.progress }
    {
        self.reader.has_ended()
    }

    /// How many bytes of it may still be taken before they are too many.
    pub fn room(&self) -> u64
        requires { self.now.taken < peer_bytes }
        ensures { self.now.taken + result ≡ peer_bytes }
    {
        PEER_BYTES - self.taken
    }

    /// Takes the next bytes of the peer, cut in any way, judges the frames that they end, and keeps
    /// their messages. The gates of those that are new are added to `arrived`.
    pub fn receive(
        &mut self,
        alloc: Global,
        inbox: &mut Inbox,
        piece: &[u8],
        arrived: &mut Vec<u32>,
    ) -> Result<(), PartyError>
        requires { self.old.taken + length piece.now ≤ peer_bytes }
        // all bytes so far show no cause, and the inbox keeps their messages
        ensures ok { (bytes : List ℕ) → HasRead inbox.old bytes self.old →
            OnOk result (HasRead inbox.new (bytes ++ piece.now) self.new) }
        // all bytes so far show the cause
        ensures err { (bytes : List ℕ) → HasRead inbox.old bytes self.old →
            IfErr result (λ cause. (cause ≡ PartyError.NoMemory)
            ⊎ Shows self.old.expected inbox.old.slots (bytes ++ piece.now) (Some cause)) }
        ensures kind { IfErr result (IsOfPeer self.old.expected.from) }
        ensures taken { OnOk result (self.new.taken ≡ self.old.taken + length piece.now) }
        ensures room { OnOk result (self.new.taken < peer_bytes) }
        ensures ended { OnOk result
            (has_ended self.old.progress ≡ true → has_ended self.new.progress ≡ true) }
        ensures expected { self.new.expected ≡ self.old.expected }
        ensures slots { inbox.new.slots ≡ inbox.old.slots }
        ensures still { StillKeeps inbox.old inbox.new }
        ensures others { (slot : slot_type.Slot) → slot.from ≢ self.old.expected.from →
            map.get inbox.new.kept slot ≡ map.get inbox.old.kept slot }
    {
        let fed = match self.reader.feed(alloc, piece) {
            Ok(fed) => fed,
            Err(NoMemory) => return Err(PartyError::NoMemory),
        };
        self.taken += piece.len() as u64;
        let greeted = is_greeted(self.greeted, fed.frames.as_slice());
        match judge_all(
            alloc,
            inbox,
            &self.expected,
            self.greeted,
            fed.frames,
            arrived,
        ) {
            Ok(()) => {}
            Err(cause) => return Err(cause),
        }
        self.greeted = greeted;
        self.check(fed.fault)
    }

    /// Whether the bytes so far show neither a bad frame nor that they are too many.
    fn check(&self, fault: Option<FrameFault>) -> Result<(), PartyError>
        requires { fault ≡ fault_of self.now.progress }
        ensures ok { OnOk result
            (bytes_cause self.now.expected.from self.now.progress self.now.taken ≡ None) }
        ensures err { IfErr result (λ cause.
            bytes_cause self.now.expected.from self.now.progress self.now.taken ≡ Some cause) }
        ensures room { OnOk result (self.now.taken < peer_bytes) }
        ensures kind { IfErr result (IsOfPeer self.now.expected.from) }
    {
        let peer = self.expected.from;
        if let Some(fault) = fault {
            return Err(PartyError::Frame { peer, fault });
        }
        if self.taken >= PEER_BYTES {
            return Err(PartyError::TooManyBytes { peer });
        }
        Ok(())
    }
}

/// Whether a peer has greeted after these frames.
fn is_greeted(greeted: bool, frames: &[Frame]) -> bool
    ensures { result ≡ (greeted || is_begun frames.now) }
{
    greeted || !frames.is_empty()
}
