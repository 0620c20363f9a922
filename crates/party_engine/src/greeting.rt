//! What one party says before its first message and behind its last one.

ghost use Rattle.std.specs.Prelude.{◌≡◌, ◌<◌, ◌≤◌, ℕ, false, Some, OnOk, OnErr, IfErr, IsErrOf};
ghost use Rattle.mot_base.specs.Faults.{Rose};
ghost use Rattle.mot_base.specs.Limits.{least_parties, most_parties};
ghost use Rattle.mot_base.specs.Links.{IsKept, IsSame};
ghost use Rattle.peer_streams.specs.Runs.{place_in, hellos_from, ends_for};
ghost use Rattle.peer_streams.specs.Sending.{AreSent, AreBegun, IsOfLinks, bytes_for};

use mot_base::{Links, NoMemory, Party, Place};
use peer_streams::{PartyError, Run, send_each};
use std::alloc::Global;

/// Connects, and says Hello to each other party.
pub(crate) fn greet<L: Links>(
    alloc: Global,
    links: &mut L,
    run: &Run,
    me: Party,
    port: u16,
) -> Result<(), PartyError>
    requires least { least_parties ≤ run.now.parties }
    requires most { run.now.parties ≤ most_parties }
    requires me { me.0 < run.now.parties }
    ensures all { OnOk result
        (AreSent (L.sent links.old) (L.sent links.new) (bytes_for me.0 (hellos_from run.now me))) }
    ensures some { OnErr result
        (AreBegun (L.sent links.old) (L.sent links.new) (bytes_for me.0 (hellos_from run.now me))) }
    ensures placed { OnOk result (L.place links.new ≡ Some (place_in run.now me)) }
    ensures kind { IfErr result IsOfLinks }
    ensures fault { IsErrOf result PartyError.LinkFault →
        Rose (L.faults links.old) (L.faults links.new) }
    ensures left { IsKept (L.left links.old) (L.left links.new) }
    ensures closed { (q : ℕ) → L.closed links.new q ≡ false }
    ensures never_falls { L.faults links.old ≤ L.faults links.new }
{
    let place = Place {
        me,
        parties: run.parties,
    };
    match links.connect(alloc, me, run.parties, port) {
        Ok(()) => {}
        Err(error) => return Err(PartyError::from(error)),
    }
    let hellos = match run.hellos(alloc, me) {
        Ok(hellos) => hellos,
        Err(NoMemory) => return Err(PartyError::NoMemory),
    };
    send_each(alloc, links, place, hellos.as_slice())
}

/// Says End to each other party.
pub(crate) fn send_ends<L: Links>(
    alloc: Global,
    links: &mut L,
    run: &Run,
    me: Party,
) -> Result<(), PartyError>
    requires place { L.place links.old ≡ Some (place_in run.now me) }
    ensures all { OnOk result
        (AreSent (L.sent links.old) (L.sent links.new) (bytes_for me.0 (ends_for run.now))) }
    ensures some { OnErr result
        (AreBegun (L.sent links.old) (L.sent links.new) (bytes_for me.0 (ends_for run.now))) }
    ensures kind { IfErr result IsOfLinks }
    ensures fault { IsErrOf result PartyError.LinkFault →
        Rose (L.faults links.old) (L.faults links.new) }
    ensures left { IsKept (L.left links.old) (L.left links.new) }
    ensures closed { IsSame (L.closed links.old) (L.closed links.new) }
    ensures place { L.place links.new ≡ L.place links.old }
    ensures never_falls { L.faults links.old ≤ L.faults links.new }
{
    let place = Place {
        me,
        parties: run.parties,
    };
    let ends = match run.ends(alloc) {
        Ok(ends) => ends,
        Err(NoMemory) => return Err(PartyError::NoMemory),
    };
    send_each(alloc, links, place, ends.as_slice())
}
