//! The last pass: once all messages are there, each gate is run to its value, in rising order.

ghost use Rattle.std.specs.Prelude.{◌≡◌, ◌<◌, ◌≤◌, ◌+◌, ℕ, length, Option, None, Some, OnOk, OnErr, IfErr, IsErrOf};
ghost use Rattle.mot_base.specs.Faults.{Rose};
ghost use Rattle.mot_base.specs.Links.{ByParty, IsKept, IsSame};
ghost use Rattle.peer_streams.specs.Sending.{IsOfLinks};
ghost use Rattle.gate_tasks.specs.Wires.{value_held};
ghost use Rattle.party_stages.specs.Scene.{IsScene, AreAllDone};
ghost use Rattle.party_engine.specs.Saying.{HasSaid, HasBegun, IsPlaceOf};
ghost use Rattle.party_engine.specs.Rest.{AreDoneBelow, HasCome, HasRunSo};

use crate::turn::take_next;
use crate::waiting::Waiting;
use message_demux::Inbox;
use mot_base::{Links, NoMemory, Place};
use party_stages::{Brought, Stages, run_one};
use peer_streams::PartyError;
use std::alloc::Global;

/// Runs each gate to its value that has none, once all messages are there.
pub(crate) fn run_rest<L: Links>(
    alloc: Global,
    links: &mut L,
    place: Place,
    brought: &Brought,
    inbox: &Inbox,
    stages: &mut Stages,
    waiting: &mut Waiting,
) -> Result<(), PartyError>
    requires place { L.place links.old ≡ Some place }
    requires here { IsPlaceOf brought.now place }
    requires scene { IsScene brought.now inbox.now stages.old }
    requires come { HasCome brought.now inbox.now }
    ensures done { OnOk result (AreAllDone brought.now stages.new) }
    ensures scene { OnOk result (IsScene brought.now inbox.now stages.new) }
    ensures said { (before : Option ByParty) → HasSaid before (L.sent links.old) stages.old →
        OnOk result (HasSaid before (L.sent links.new) stages.new) }
    ensures begun { (before : Option ByParty) → HasSaid before (L.sent links.old) stages.old →
        OnErr result (HasBegun brought.now inbox.now before (L.sent links.new)) }
    ensures kind { IfErr result IsOfLinks }
    ensures fault { IsErrOf result PartyError.LinkFault →
        Rose (L.faults links.old) (L.faults links.new) }
    ensures left { IsKept (L.left links.old) (L.left links.new) }
    ensures closed { IsSame (L.closed links.old) (L.closed links.new) }
    ensures place { L.place links.new ≡ L.place links.old }
    ensures never_falls { L.faults links.old ≤ L.faults links.new }
{
    for gate in 0..brought.plan.gates() {
        match run_gate(alloc, links, place, brought, inbox, stages, waiting, gate) {
            Ok(()) => {}
            Err(cause) => return Err(cause),
        }
    }
    Ok(())
}

/// Runs a gate to its value, once all messages and the values of all gates before it are there.
fn run_gate<L: Links>(
    alloc: Global,
    links: &mut L,
    place: Place,
    brought: &Brought,
    inbox: &Inbox,
    stages: &mut Stages,
    waiting: &mut Waiting,
    gate: u32,
) -> Result<(), PartyError>
    requires place { L.place links.old ≡ Some place }
    requires here { IsPlaceOf brought.now place }
    requires scene { IsScene brought.now inbox.now stages.old }
    requires come { HasCome brought.now inbox.now }
    requires gate { gate < length brought.now.plan.gates }
    requires below { AreDoneBelow stages.old gate }
    ensures below { OnOk result (AreDoneBelow stages.new (gate + 1)) }
    ensures scene { OnOk result (IsScene brought.now inbox.now stages.new) }
    ensures said { (before : Option ByParty) → HasSaid before (L.sent links.old) stages.old →
        OnOk result (HasSaid before (L.sent links.new) stages.new) }
    ensures begun { (before : Option ByParty) → HasSaid before (L.sent links.old) stages.old →
        OnErr result (HasBegun brought.now inbox.now before (L.sent links.new)) }
    ensures kind { IfErr result IsOfLinks }
    ensures fault { IsErrOf result PartyError.LinkFault →
        Rose (L.faults links.old) (L.faults links.new) }
    ensures left { IsKept (L.left links.old) (L.left links.new) }
    ensures closed { IsSame (L.closed links.old) (L.closed links.new) }
    ensures place { L.place links.new ≡ L.place links.old }
    ensures never_falls { L.faults links.old ≤ L.faults links.new }
{
    for _stage in 0..brought.plan.stages(brought.own.me, gate) {
        if !stages.is_open(gate) {
            return Ok(());
        }
        match run_next(alloc, links, place, brought, inbox, stages, waiting, gate) {
            Ok(()) => {}
            Err(cause) => return Err(cause),
        }
    }
    Ok(())
}

/// Runs the next stage of a gate, once all messages and the values of all gates before it are there.
fn run_next<L: Links>(
    alloc: Global,
    links: &mut L,
    place: Place,
    brought: &Brought,
    inbox: &Inbox,
    stages: &mut Stages,
    waiting: &mut Waiting,
    gate: u32,
) -> Result<(), PartyError>
    requires place { L.place links.old ≡ Some place }
    requires here { IsPlaceOf brought.now place }
    requires scene { IsScene brought.now inbox.now stages.old }
    requires come { HasCome brought.now inbox.now }
    requires gate { gate < length brought.now.plan.gates }
    requires open { value_held stages.old.wires gate ≡ None }
    requires below { AreDoneBelow stages.old gate }
    ensures below { OnOk result (AreDoneBelow stages.new gate) }
    ensures on { (n : ℕ) → HasRunSo stages.old gate n → OnOk result (HasRunSo stages.new gate (n + 1)) }
    ensures scene { OnOk result (IsScene brought.now inbox.now stages.new) }
    ensures said { (before : Option ByParty) → HasSaid before (L.sent links.old) stages.old →
        OnOk result (HasSaid before (L.sent links.new) stages.new) }
    ensures begun { (before : Option ByParty) → HasSaid before (L.sent links.old) stages.old →
        OnErr result (HasBegun brought.now inbox.now before (L.sent links.new)) }
    ensures kind { IfErr result IsOfLinks }
    ensures fault { IsErrOf result PartyError.LinkFault →
        Rose (L.faults links.old) (L.faults links.new) }
    ensures left { IsKept (L.left links.old) (L.left links.new) }
    ensures closed { IsSame (L.closed links.old) (L.closed links.new) }
    ensures place { L.place links.new ≡ L.place links.old }
    ensures never_falls { L.faults links.old ≤ L.faults links.new }
{
    match run_one(alloc, brought, inbox, stages, gate) {
        Ok(ran) => take_next(alloc, links, place, brought, inbox, stages, waiting, ran),
        Err(NoMemory) => Err(PartyError::NoMemory),
    }
}
