ghost use Rattle.std.specs.Prelude.{◌≡◌, ◌<◌, ◌≤◌, true, length, Some, OnOk, OnErr, IfErr, IsErrOf};
ghost use Rattle.mot_base.specs.Faults.{Rose};
ghost use Rattle.mot_base.specs.Limits.{least_parties, most_parties};
ghost use Rattle.mot_base.specs.Links.{ByParty, IsKept, IsSame};
ghost use Rattle.message_demux.specs.Inbox.{empty_inbox};
ghost use Rattle.peer_streams.specs.Runs.{place_in, hellos_to, greets_and_ends, HasHeard};
ghost use Rattle.peer_streams.specs.Sending.{AreSent, AreBegun, IsOfLinks};
ghost use Rattle.peer_streams.specs.Taking.{IsAnswer, NamesPeer};

use crate::error::PartyError;
use crate::run::Run;
use crate::sending::send_each;
use crate::taking::read_all;
use message_demux::Inbox;
use mot_base::{Links, NoMemory, Party, Place};
use std::alloc::Global;

/// Sends Hello and End to each other party.
fn greet_and_end<L: Links>(
    alloc: Global,
    links: &mut L,
    run: &Run,
    me: Party,
) -> Result<(), PartyError>
    requires { L.place links.old ≡ Some (place_in run.now me) }
    ensures all { OnOk result
        (AreSent (L.sent links.old) (L.sent links.new) (greets_and_ends run.now me)) }
    ensures some { OnErr result
        (AreBegun (L.sent links.old) (L.sent links.new) (greets_and_ends run.now me)) }
    ensures kind { IfErr result IsOfLinks }
    ensures fault { IsErrOf result PartyError.LinkFault →
        Rose (L.faults links.old) (L.faults links.new) }
    ensures left { IsKept (L.left links.old) (L.left links.new) }
    ensures closed { IsSame (L.closed links.old) (L.closed links.new) }
    ensures place { L.place links.new ≡ L.place links.old }
    ensures never_falls { L.faults links.old ≤ L.faults links.new }
{
    let place = Place {
        me,
        parties: run.parties,
    };
    let hellos = match run.hellos(alloc, me) {
        Ok(hellos) => hellos,
        Err(NoMemory) => return Err(PartyError::NoMemory),
    };
    let ends = match run.ends(alloc) {
        Ok(ends) => ends,
        Err(NoMemory) => return Err(PartyError::NoMemory),
    };
    match send_each(alloc, links, place, hellos.as_slice()) {
        Ok(()) => {}
        Err(cause) => return Err(cause),
    }
    send_each(alloc, links, place, ends.as_slice())
}

/// One party's part of a run in which it has no messages: connects, sends Hello and End to each other
/// party, reads all of them to their Ends, and waits until all that it sent is on its way. The buffer
/// is used for the bytes that come.
pub fn exchange<L: Links>(
    alloc: Global,
    links: &mut L,
    run: &Run,
    me: Party,
    port: u16,
    inbox: &mut Inbox,
    buffer: &mut [u8],
) -> Result<(), PartyError>
    requires least { least_parties ≤ run.now.parties }
    requires most { run.now.parties ≤ most_parties }
    requires me { me.0 < run.now.parties }
    requires fresh { inbox.old ≡ empty_inbox inbox.old.slots }
    requires some { 0 < length buffer.old }
    // what was taken of each peer ends well, and the inbox keeps its messages
    ensures heard { (before : ByParty) → L.left links.old ≡ Some before →
        OnOk result (HasHeard before (L.left links.new) (place_in run.now me) run.now inbox.new) }
    // what was taken of some peer shows the cause, and of each other one none
    ensures shown { (before : ByParty) → L.left links.old ≡ Some before →
        IfErr result (IsAnswer before (L.left links.new) (L.closed links.new)
        (place_in run.now me) (hellos_to run.now me) inbox.old.slots) }
    ensures names { IfErr result (NamesPeer (Some (place_in run.now me)) (L.closed links.new)) }
    ensures fault { IsErrOf result PartyError.LinkFault →
        Rose (L.faults links.old) (L.faults links.new) }
    ensures sent { OnOk result
        (AreSent (L.sent links.old) (L.sent links.new) (greets_and_ends run.now me)) }
    ensures begun { OnErr result
        (AreBegun (L.sent links.old) (L.sent links.new) (greets_and_ends run.now me)) }
    ensures flushed { OnOk result (L.flushed links.new ≡ true) }
    ensures slots { inbox.new.slots ≡ inbox.old.slots }
    ensures never_falls { L.faults links.old ≤ L.faults links.new }
{
    let place = Place {
        me,
        parties: run.parties,
    };
    let mut peers = match run.peers(alloc, me) {
        Ok(peers) => peers,
        Err(NoMemory) => return Err(PartyError::NoMemory),
    };
    match links.connect(alloc, me, run.parties, port) {
        Ok(()) => {}
        Err(error) => return Err(PartyError::from(error)),
    }
    match greet_and_end(alloc, links, run, me) {
        Ok(()) => {}
        Err(cause) => return Err(cause),
    }
    match read_all(alloc, links, place, inbox, &mut peers, buffer) {
        Ok(()) => {}
        Err(cause) => return Err(cause),
    }
    match links.finish(alloc) {
        Ok(()) => Ok(()),
        Err(error) => Err(PartyError::from(error)),
    }
}
