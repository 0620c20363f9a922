//! What one party does between its Hellos and its Ends: its stages run, and where none is ready it takes what its peers
//! send.

ghost use Rattle.std.specs.Prelude.{◌≡◌, ◌<◌, ◌≤◌, true, false, length, Option, Some, IfOk, OnOk, OnErr, IfErr, IsErrOf};
ghost use Rattle.mot_base.specs.Faults.{Rose};
ghost use Rattle.mot_base.specs.Links.{ByParty, IsOpen, IsKept, IsSame};
ghost use Rattle.peer_streams.specs.Reading.{StillKeeps, KeepsOthers};
ghost use Rattle.peer_streams.specs.Sending.{IsOfLinks};
ghost use Rattle.peer_streams.specs.Taking.{ArePeers, HasTaken, IsLeftOf, HaveRead, hellos_of, IsAnswer, NamesPeer, events_left};
ghost use Rattle.party_stages.specs.Scene.{IsScene, AreAllDone};
ghost use Rattle.party_engine.specs.Saying.{HasSaid, HasBegun, HasSaidSome, IsPlaceOf};

use crate::rest::run_rest;
use crate::turn::run_turns;
use crate::waiting::Waiting;
use message_demux::Inbox;
use mot_base::{Links, NoMemory, Place, Turnstile};
use party_stages::{Brought, Stages};
use peer_streams::{PartyError, Peer, first_unended, least_room, take_event};
use std::alloc::Global;
use std::thread::Threads;

/// How far one party is: what it was sent, how far it has read each peer, and how far its stages are.
#[derive(Debug, Drop)]
pub(crate) struct Talk {
    pub(crate) inbox: Inbox,
    pub(crate) peers: Vec<Peer>,
    pub(crate) stages: Stages,
    pub(crate) waiting: Waiting,
}

/// Runs all stages. It takes what peers send while none is ready. The buffer is used for the bytes that come.
pub(crate) fn speak<L: Links, G: Turnstile + Sync, R: Threads + Sync>(
    rt: &R,
    alloc: Global,
    links: &mut L,
    place: Place,
    brought: &Brought,
    talk: &mut Talk,
    buffer: &mut [u8],
    workers: u8,
    gate: &G,
) -> Result<(), PartyError>
    requires place { L.place links.old ≡ Some place }
    requires here { IsPlaceOf brought.now place }
    requires scene { IsScene brought.now talk.old.inbox talk.old.stages }
    requires peers { ArePeers place (L.closed links.old) talk.old.peers.items }
    requires read { HaveRead place talk.old.inbox talk.old.peers.items }
    requires some { 0 < length buffer.old }
    requires workers { (1 ≤ workers) × (workers ≤ 16) }
    ensures done { OnOk result (AreAllDone brought.now talk.new.stages) }
    ensures scene { OnOk result (IsScene brought.now talk.new.inbox talk.new.stages) }
    ensures peers { OnOk result (ArePeers place (L.closed links.new) talk.new.peers.items) }
    ensures taken { (before : ByParty) →
        HasTaken before (L.left links.old) place talk.old.inbox talk.old.peers.items →
        OnOk result (HasTaken before (L.left links.new) place talk.new.inbox talk.new.peers.items) }
    ensures said { (before : Option ByParty) → HasSaid before (L.sent links.old) talk.old.stages →
        OnOk result (HasSaid before (L.sent links.new) talk.new.stages) }
    ensures begun { (sent : Option ByParty) (before : ByParty) → HasSaid sent (L.sent links.old) talk.old.stages →
        HasTaken before (L.left links.old) place talk.old.inbox talk.old.peers.items →
        OnErr result (HasSaidSome brought.now place before (L.left links.new) sent (L.sent links.new)) }
    ensures shown { (before : ByParty) →
        HasTaken before (L.left links.old) place talk.old.inbox talk.old.peers.items →
        IfErr result (IsAnswer before (L.left links.new) (L.closed links.new) place
        (hellos_of talk.old.peers.items) talk.old.inbox.slots) }
    ensures names { IfErr result (NamesPeer (Some place) (L.closed links.new)) }
    ensures fault { IsErrOf result PartyError.LinkFault →
        Rose (L.faults links.old) (L.faults links.new) }
    ensures hellos { hellos_of talk.new.peers.items ≡ hellos_of talk.old.peers.items }
    ensures slots { talk.new.inbox.slots ≡ talk.old.inbox.slots }
    ensures others { OnOk result (KeepsOthers place talk.old.inbox talk.new.inbox) }
    ensures buffer { length buffer.new ≡ length buffer.old }
    ensures place { L.place links.new ≡ L.place links.old }
    ensures never_falls { L.faults links.old ≤ L.faults links.new }
{
    'events: loop {
        match go_on(
            rt,
            alloc,
            links,
            place,
            brought,
            &talk.inbox,
            &talk.peers,
            &mut talk.stages,
            &mut talk.waiting,
            workers,
            gate,
        ) {
            Ok(true) => return Ok(()),
            Ok(false) => {}
            Err(cause) => return Err(cause),
        }
        match listen(
            alloc,
            links,
            place,
            &mut talk.inbox,
            &mut talk.peers,
            &mut talk.waiting,
            buffer,
        ) {
            Ok(()) => {}
            Err(cause) => return Err(cause),
        }
    }
}

/// Runs what is ready, and all that is left once the End of every peer was read. Whether each gate has its value; where
/// one has none, some peer has not ended.
fn go_on<L: Links, G: Turnstile + Sync, R: Threads + Sync>(
    rt: &R,
    alloc: Global,
    links: &mut L,
    place: Place,
    brought: &Brought,
    inbox: &Inbox,
    peers: &[Peer],
    stages: &mut Stages,
    waiting: &mut Waiting,
    workers: u8,
    gate: &G,
) -> Result<bool, PartyError>
    requires place { L.place links.old ≡ Some place }
    requires here { IsPlaceOf brought.now place }
    requires scene { IsScene brought.now inbox.now stages.old }
    requires peers { ArePeers place (L.closed links.old) peers.now }
    requires read { HaveRead place inbox.now peers.now }
    requires workers { (1 ≤ workers) × (workers ≤ 16) }
    ensures done { IfOk result (λ over. over ≡ true → AreAllDone brought.now stages.new) }
    ensures open { IfOk result (λ over. over ≡ false → IsOpen (Some place) (L.closed links.new)) }
    ensures scene { OnOk result (IsScene brought.now inbox.now stages.new) }
    ensures said { (before : Option ByParty) → HasSaid before (L.sent links.old) stages.old →
        OnOk result (HasSaid before (L.sent links.new) stages.new) }
    ensures begun { (before : Option ByParty) → HasSaid before (L.sent links.old) stages.old →
        OnErr result (HasBegun brought.now inbox.now before (L.sent links.new)) }
    ensures kind { IfErr result IsOfLinks }
    ensures fault { IsErrOf result PartyError.LinkFault →
        Rose (L.faults links.old) (L.faults links.new) }
    ensures left { IsKept (L.left links.old) (L.left links.new) }
    ensures closed { IsSame (L.closed links.old) (L.closed links.new) }
    ensures place { L.place links.new ≡ L.place links.old }
    ensures never_falls { L.faults links.old ≤ L.faults links.new }
{
    match run_turns(
        rt, alloc, links, place, brought, inbox, stages, waiting, workers, gate,
    ) {
        Ok(()) => {}
        Err(cause) => return Err(cause),
    }
    if waiting.is_over() && are_all_done(brought, stages) {
        return Ok(true);
    }
    if first_unended(peers, place.me).is_some() {
        return Ok(false);
    }
    match run_rest(alloc, links, place, brought, inbox, stages, waiting) {
        Ok(()) => Ok(true),
        Err(cause) => Err(cause),
    }
}

/// Whether each gate has its value.
fn are_all_done(brought: &Brought, stages: &Stages) -> bool
    ensures { result ≡ true → AreAllDone brought.now stages.now }
{
    for gate in 0..brought.plan.gates() {
        if stages.is_open(gate) {
            return false;
        }
    }
    true
}

/// Takes what comes next of some peer. The gates of its messages are to be looked at.
fn listen<L: Links>(
    alloc: Global,
    links: &mut L,
    place: Place,
    inbox: &mut Inbox,
    peers: &mut Vec<Peer>,
    waiting: &mut Waiting,
    buffer: &mut [u8],
) -> Result<(), PartyError>
    requires place { L.place links.old ≡ Some place }
    requires open { IsOpen (Some place) (L.closed links.old) }
    requires peers { ArePeers place (L.closed links.old) peers.old.items }
    requires read { HaveRead place inbox.old peers.old.items }
    requires some { 0 < length buffer.old }
    ensures taken { (before : ByParty) →
        HasTaken before (L.left links.old) place inbox.old peers.old.items →
        OnOk result (HasTaken before (L.left links.new) place inbox.new peers.new.items) }
    ensures read { OnOk result (HaveRead place inbox.new peers.new.items) }
    ensures peers { OnOk result (ArePeers place (L.closed links.new) peers.new.items) }
    ensures shown { (before : ByParty) →
        HasTaken before (L.left links.old) place inbox.old peers.old.items →
        IfErr result (IsAnswer before (L.left links.new) (L.closed links.new) place
        (hellos_of peers.old.items) inbox.old.slots) }
    ensures names { IfErr result (NamesPeer (Some place) (L.closed links.new)) }
    ensures fault { IsErrOf result PartyError.LinkFault →
        Rose (L.faults links.old) (L.faults links.new) }
    ensures nearer { OnOk result (events_left place (L.closed links.new) peers.new.items
        < events_left place (L.closed links.old) peers.old.items) }
    ensures hellos { hellos_of peers.new.items ≡ hellos_of peers.old.items }
    ensures slots { inbox.new.slots ≡ inbox.old.slots }
    ensures still { StillKeeps inbox.old inbox.new }
    ensures others { KeepsOthers place inbox.old inbox.new }
    ensures left { IsLeftOf (L.left links.old) (L.left links.new) }
    ensures buffer { length buffer.new ≡ length buffer.old }
    ensures place { L.place links.new ≡ L.place links.old }
    ensures sent { IsKept (L.sent links.old) (L.sent links.new) }
    ensures never_falls { L.faults links.old ≤ L.faults links.new }
{
    let room = least_room(peers, buffer.len());
    let front = &mut buffer[..room];
    let mut arrived = Vec::new(alloc);
    match take_event(alloc, links, place, inbox, peers, front, &mut arrived) {
        Ok(()) => {}
        Err(cause) => return Err(cause),
    }
    match waiting.push_all(&arrived) {
        Ok(()) => Ok(()),
        Err(NoMemory) => Err(PartyError::NoMemory),
    }
}
