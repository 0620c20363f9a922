ghost use Rattle.std.specs.Prelude.{◌≡◌, ◌≢◌, ℕ, ◌<◌, ◌≤◌, true, false, length, Some, None, OnOk, IfErr, IfSome, IsErrOf, IsNone};
ghost use Rattle.std.specs.List.{slice_get};
ghost use Rattle.mot_base.specs.Faults.{Rose};
ghost use Rattle.mot_base.specs.Limits.{peer_bytes};
ghost use Rattle.mot_base.specs.Links.{ByParty, IsOpen, IsKept};
ghost use Rattle.frames.specs.Reading.{has_ended};
ghost use Rattle.peer_streams.specs.Reading.{PeerRead, StillKeeps, KeepsOthers};
ghost use Rattle.peer_streams.specs.Taking.{ArePeers, HasTaken, IsLeftOf, HaveRead, hellos_of, IsAnswer, NamesPeer, HaveRoom, events_left};

use crate::error::PartyError;
use crate::peer::Peer;
use message_demux::Inbox;
use mot_base::{LinkEvent, Links, Party, Place};
use std::alloc::Global;

/// Takes the next event of the links, and judges what it brings. Nothing is taken behind what shows a
/// cause. The gates of messages that are new are added to `arrived`.
pub fn take_event<L: Links>(
    alloc: Global,
    links: &mut L,
    place: Place,
    inbox: &mut Inbox,
    peers: &mut Vec<Peer>,
    buffer: &mut [u8],
    arrived: &mut Vec<u32>,
) -> Result<(), PartyError>
    requires place { L.place links.old ≡ Some place }
    requires open { IsOpen (Some place) (L.closed links.old) }
    requires peers { ArePeers place (L.closed links.old) peers.old.items }
    requires some { 0 < length buffer.old }
    requires few { HaveRoom peers.old.items (length buffer.old) }
    ensures taken { (before : ByParty) →
        HasTaken before (L.left links.old) place inbox.old peers.old.items →
        OnOk result (HasTaken before (L.left links.new) place inbox.new peers.new.items) }
    ensures read { HaveRead place inbox.old peers.old.items →
        OnOk result (HaveRead place inbox.new peers.new.items) }
    ensures peers { OnOk result (ArePeers place (L.closed links.new) peers.new.items) }
    ensures shown { (before : ByParty) →
        HasTaken before (L.left links.old) place inbox.old peers.old.items →
        IfErr result (IsAnswer before (L.left links.new) (L.closed links.new) place
        (hellos_of peers.old.items) inbox.old.slots) }
    ensures names { IfErr result (NamesPeer (Some place) (L.closed links.new)) }
    ensures fault { IsErrOf result PartyError.LinkFault →
        Rose (L.faults links.old) (L.faults links.new) }
    ensures nearer { OnOk result (events_left place (L.closed links.new) peers.new.items
        < events_left place (L.closed links.old) peers.old.items) }
    ensures hellos { hellos_of peers.new.items ≡ hellos_of peers.old.items }
    ensures slots { inbox.new.slots ≡ inbox.old.slots }
    ensures still { StillKeeps inbox.old inbox.new }
    ensures others { KeepsOthers place inbox.old inbox.new }
    ensures left { IsLeftOf (L.left links.old) (L.left links.new) }
    ensures place { L.place links.new ≡ L.place links.old }
    ensures sent { IsKept (L.sent links.old) (L.sent links.new) }
    ensures flushed { L.flushed links.new ≡ L.flushed links.old }
    ensures never_falls { L.faults links.old ≤ L.faults links.new }
{
    match links.take(alloc, buffer) {
        LinkEvent::Bytes(from, count) => {
            let peer = &mut peers[usize::from(from.0)];
            peer.receive(alloc, inbox, &buffer[..count], arrived)
        }
        LinkEvent::Closed(from) => check_closed(&peers[usize::from(from.0)], from),
        LinkEvent::Failed(_) => Err(PartyError::LinkFault),
        LinkEvent::NoMemory => Err(PartyError::NoMemory),
    }
}

/// Whether a peer that closed has ended.
fn check_closed(peer: &Peer, from: Party) -> Result<(), PartyError>
    ensures ok { OnOk result (has_ended peer.now.progress ≡ true) }
    ensures err { IfErr result (λ cause.
        (cause ≡ PartyError.PeerClosed from) × (has_ended peer.now.progress ≡ false)) }
{
    if peer.has_ended() {
        return Ok(());
    }
    Err(PartyError::PeerClosed { peer: from })
}

/// Takes events until the End of every peer was read, and nothing behind what shows a cause. The
/// buffer is used for the bytes that come.
pub fn read_all<L: Links>(
    alloc: Global,
    links: &mut L,
    place: Place,
    inbox: &mut Inbox,
    peers: &mut Vec<Peer>,
    buffer: &mut [u8],
) -> Result<(), PartyError>
    requires place { L.place links.old ≡ Some place }
    requires peers { ArePeers place (L.closed links.old) peers.old.items }
    requires some { 0 < length buffer.old }
    ensures taken { (before : ByParty) →
        HasTaken before (L.left links.old) place inbox.old peers.old.items →
        OnOk result (HasTaken before (L.left links.new) place inbox.new peers.new.items) }
    ensures peers { OnOk result (ArePeers place (L.closed links.new) peers.new.items) }
    ensures ended { OnOk result ((q : ℕ) (peer : PeerRead) → q ≢ place.me.0 →
        slice_get peers.new.items q ≡ Some peer → has_ended peer.progress ≡ true) }
    ensures shown { (before : ByParty) →
        HasTaken before (L.left links.old) place inbox.old peers.old.items →
        IfErr result (IsAnswer before (L.left links.new) (L.closed links.new) place
        (hellos_of peers.old.items) inbox.old.slots) }
    ensures names { IfErr result (NamesPeer (Some place) (L.closed links.new)) }
    ensures fault { IsErrOf result PartyError.LinkFault →
        Rose (L.faults links.old) (L.faults links.new) }
    ensures hellos { hellos_of peers.new.items ≡ hellos_of peers.old.items }
    ensures slots { inbox.new.slots ≡ inbox.old.slots }
    ensures still { StillKeeps inbox.old inbox.new }
    ensures others { KeepsOthers place inbox.old inbox.new }
    ensures left { IsLeftOf (L.left links.old) (L.left links.new) }
    ensures place { L.place links.new ≡ L.place links.old }
    ensures sent { IsKept (L.sent links.old) (L.sent links.new) }
    ensures flushed { L.flushed links.new ≡ L.flushed links.old }
    ensures never_falls { L.faults links.old ≤ L.faults links.new }
{
    let mut arrived = Vec::new(alloc);
    'events: loop {
        if first_unended(peers, place.me).is_none() {
            return Ok(());
        }
        let room = least_room(peers, buffer.len());
        let front = &mut buffer[..room];
        arrived.clear();
        match take_event(alloc, links, place, inbox, peers, front, &mut arrived) {
            Ok(()) => {}
            Err(cause) => return Err(cause),
        }
    }
}

/// The first peer whose End was not read.
pub fn first_unended(peers: &[Peer], me: Party) -> Option<usize>
    ensures none { IsNone result → (q : ℕ) (peer : PeerRead) → q ≢ me.0 →
        slice_get peers.now q ≡ Some peer → has_ended peer.progress ≡ true }
    ensures some { IfSome result (λ q. (q ≢ me.0) × (peer : PeerRead)
        × (slice_get peers.now q ≡ Some peer) × (has_ended peer.progress ≡ false)) }
{
    for (place, peer) in peers.iter().enumerate() {
        if place != usize::from(me.0) && !peer.has_ended() {
            return Some(place);
        }
    }
    None
}

/// How many bytes of a buffer of this length may be taken of any party.
pub fn least_room(peers: &[Peer], length: usize) -> usize
    requires room { (q : ℕ) (peer : PeerRead) → slice_get peers.now q ≡ Some peer →
        peer.taken < peer_bytes }
    requires some { 0 < length }
    ensures some { 0 < result }
    ensures most { result ≤ length }
    ensures few { HaveRoom peers.now result }
{
    let mut least = length;
    for peer in peers {
        least = least.min(peer.room() as usize);
    }
    least
}
