//! A turn: the stages that are ready are run, and what they give is sent and kept.

ghost use Rattle.std.specs.Prelude.{◌≡◌, ◌≤◌, length, Option, Some, IfOk, OnOk, OnErr, IfErr, IsErrOf};
ghost use Rattle.std.specs.List.{All};
ghost use Rattle.mot_base.specs.Faults.{Rose};
ghost use Rattle.mot_base.specs.Limits.{most_gates};
ghost use Rattle.mot_base.specs.Links.{ByParty, IsKept, IsSame};
ghost use Rattle.peer_streams.specs.Sending.{IsOfLinks};
ghost use Rattle.message_demux.specs.Kept.{InboxContents};
ghost use Rattle.party_stages.specs.Following.{Side, IsRan, progress_after};
ghost use Rattle.party_stages.specs.Scene.{IsScene, IsReady, IsNext};
ghost use Rattle.party_engine.specs.Saying.{HasSaid, HasBegun, IsPlaceOf};

use crate::saying::send_outs;
use crate::waiting::Waiting;
use message_demux::Inbox;
use mot_base::{Links, NoMemory, Place, Turnstile};
use party_stages::{Brought, Found, Ran, Stages, look, run_ready};
use peer_streams::PartyError;
use std::alloc::Global;
use std::thread::Threads;

/// The gates that are ready among those that are to be looked at.
fn gather(
    alloc: Global,
    brought: &Brought,
    inbox: &Inbox,
    stages: &Stages,
    waiting: &mut Waiting,
) -> Result<Vec<u32>, NoMemory>
    requires { IsScene brought.now inbox.now stages.now }
    ensures ready { IfOk result (λ ready.
        All (IsReady brought.now inbox.now stages.now) ready.items) }
    ensures few { IfOk result (λ ready. length ready.items ≤ most_gates) }
{
    let mut ready = Vec::new(alloc);
    for _look in 0..brought.plan.gates() {
        let Some(gate) = waiting.pop() else {
            break;
        };
        match look(brought, inbox, stages, gate) {
            Found::Ready => ready.push(gate)?,
            Found::Lacks(need) => waiting.wait(gate, need),
            Found::Done => {}
        }
    }
    Ok(ready)
}

/// Keeps what a stage gave.
fn keep(stages: &mut Stages, waiting: &mut Waiting, ran: Ran) -> Result<(), PartyError>
    requires { IsNext stages.old ran }
    ensures after { OnOk result (stages.new ≡ progress_after stages.old ran.gate ran.given) }
    ensures scene { (b : Side) (inbox : InboxContents) → IsScene b inbox stages.old →
        IsRan b inbox ran → OnOk result (IsScene b inbox stages.new) }
    ensures kind { IfErr result (λ cause. cause ≡ PartyError.NoMemory) }
{
    let gate = ran.gate;
    let is_last = ran.given.value.is_some();
    match waiting.ran(gate, is_last) {
        Ok(()) => {}
        Err(NoMemory) => return Err(PartyError::NoMemory),
    }
    match stages.take(ran) {
        Ok(()) => Ok(()),
        Err(NoMemory) => Err(PartyError::NoMemory),
    }
}

/// Sends what the next stage of a gate gave, and keeps it.
pub(crate) fn take_next<L: Links>(
    alloc: Global,
    links: &mut L,
    place: Place,
    brought: &Brought,
    inbox: &Inbox,
    stages: &mut Stages,
    waiting: &mut Waiting,
    ran: Ran,
) -> Result<(), PartyError>
    requires place { L.place links.old ≡ Some place }
    requires here { IsPlaceOf brought.now place }
    requires scene { IsScene brought.now inbox.now stages.old }
    requires ran { IsRan brought.now inbox.now ran }
    requires next { IsNext stages.old ran }
    ensures after { OnOk result (stages.new ≡ progress_after stages.old ran.gate ran.given) }
    ensures scene { OnOk result (IsScene brought.now inbox.now stages.new) }
    ensures said { (before : Option ByParty) → HasSaid before (L.sent links.old) stages.old →
        OnOk result (HasSaid before (L.sent links.new) stages.new) }
    ensures begun { (before : Option ByParty) → HasSaid before (L.sent links.old) stages.old →
        OnErr result (HasBegun brought.now inbox.now before (L.sent links.new)) }
    ensures kind { IfErr result IsOfLinks }
    ensures fault { IsErrOf result PartyError.LinkFault →
        Rose (L.faults links.old) (L.faults links.new) }
    ensures left { IsKept (L.left links.old) (L.left links.new) }
    ensures closed { IsSame (L.closed links.old) (L.closed links.new) }
    ensures place { L.place links.new ≡ L.place links.old }
    ensures never_falls { L.faults links.old ≤ L.faults links.new }
{
    match send_outs(alloc, links, place, ran.given.out.as_slice()) {
        Ok(()) => {}
        Err(cause) => return Err(cause),
    }
    keep(stages, waiting, ran)
}

/// The same of a stage that was run, where it is the next one of its gate. Another one is let go.
fn take_ran<L: Links>(
    alloc: Global,
    links: &mut L,
    place: Place,
    brought: &Brought,
    inbox: &Inbox,
    stages: &mut Stages,
    waiting: &mut Waiting,
    ran: Ran,
) -> Result<(), PartyError>
    requires place { L.place links.old ≡ Some place }
    requires here { IsPlaceOf brought.now place }
    requires scene { IsScene brought.now inbox.now stages.old }
    requires ran { IsRan brought.now inbox.now ran }
    ensures scene { OnOk result (IsScene brought.now inbox.now stages.new) }
    ensures said { (before : Option ByParty) → HasSaid before (L.sent links.old) stages.old →
        OnOk result (HasSaid before (L.sent links.new) stages.new) }
    ensures begun { (before : Option ByParty) → HasSaid before (L.sent links.old) stages.old →
        OnErr result (HasBegun brought.now inbox.now before (L.sent links.new)) }
    ensures kind { IfErr result IsOfLinks }
    ensures fault { IsErrOf result PartyError.LinkFault →
        Rose (L.faults links.old) (L.faults links.new) }
    ensures left { IsKept (L.left links.old) (L.left links.new) }
    ensures closed { IsSame (L.closed links.old) (L.closed links.new) }
    ensures place { L.place links.new ≡ L.place links.old }
    ensures never_falls { L.faults links.old ≤ L.faults links.new }
{
    if !stages.is_next(&ran) {
        return Ok(());
    }
    take_next(alloc, links, place, brought, inbox, stages, waiting, ran)
}

/// Takes what stages gave, one after another.
fn take_all<L: Links>(
    alloc: Global,
    links: &mut L,
    place: Place,
    brought: &Brought,
    inbox: &Inbox,
    stages: &mut Stages,
    waiting: &mut Waiting,
    rans: Vec<Ran>,
) -> Result<(), PartyError>
    requires place { L.place links.old ≡ Some place }
    requires here { IsPlaceOf brought.now place }
    requires scene { IsScene brought.now inbox.now stages.old }
    requires rans { All (IsRan brought.now inbox.now) rans.items }
    ensures scene { OnOk result (IsScene brought.now inbox.now stages.new) }
    ensures said { (before : Option ByParty) → HasSaid before (L.sent links.old) stages.old →
        OnOk result (HasSaid before (L.sent links.new) stages.new) }
    ensures begun { (before : Option ByParty) → HasSaid before (L.sent links.old) stages.old →
        OnErr result (HasBegun brought.now inbox.now before (L.sent links.new)) }
    ensures kind { IfErr result IsOfLinks }
    ensures fault { IsErrOf result PartyError.LinkFault →
        Rose (L.faults links.old) (L.faults links.new) }
    ensures left { IsKept (L.left links.old) (L.left links.new) }
    ensures closed { IsSame (L.closed links.old) (L.closed links.new) }
    ensures place { L.place links.new ≡ L.place links.old }
    ensures never_falls { L.faults links.old ≤ L.faults links.new }
{
    for ran in rans {
        match take_ran(alloc, links, place, brought, inbox, stages, waiting, ran) {
            Ok(()) => {}
            Err(cause) => return Err(cause),
        }
    }
    Ok(())
}

/// Runs what is ready until nothing is, sends what it gives, and keeps it. `workers` run what is ready at a time side by
/// side, and pass the gate with each stage.
pub(crate) fn run_turns<L: Links, G: Turnstile + Sync, R: Threads + Sync>(
    rt: &R,
    alloc: Global,
    links: &mut L,
    place: Place,
    brought: &Brought,
    inbox: &Inbox,
    stages: &mut Stages,
    waiting: &mut Waiting,
    workers: u8,
    gate: &G,
) -> Result<(), PartyError>
    requires place { L.place links.old ≡ Some place }
    requires here { IsPlaceOf brought.now place }
    requires scene { IsScene brought.now inbox.now stages.old }
    requires workers { (1 ≤ workers) × (workers ≤ 16) }
    ensures scene { OnOk result (IsScene brought.now inbox.now stages.new) }
    ensures said { (before : Option ByParty) → HasSaid before (L.sent links.old) stages.old →
        OnOk result (HasSaid before (L.sent links.new) stages.new) }
    ensures begun { (before : Option ByParty) → HasSaid before (L.sent links.old) stages.old →
        OnErr result (HasBegun brought.now inbox.now before (L.sent links.new)) }
    ensures kind { IfErr result IsOfLinks }
    ensures fault { IsErrOf result PartyError.LinkFault →
        Rose (L.faults links.old) (L.faults links.new) }
    ensures left { IsKept (L.left links.old) (L.left links.new) }
    ensures closed { IsSame (L.closed links.old) (L.closed links.new) }
    ensures place { L.place links.new ≡ L.place links.old }
    ensures never_falls { L.faults links.old ≤ L.faults links.new }
{
    for _turn in 0..most_turns(brought) {
        let ready = match gather(alloc, brought, inbox, stages, waiting) {
            Ok(ready) => ready,
            Err(NoMemory) => return Err(PartyError::NoMemory),
        };
        if ready.is_empty() {
            break;
        }
        let rans = match run_ready(rt, alloc, brought, inbox, stages, &ready, workers, gate) {
            Ok(rans) => rans,
            Err(NoMemory) => return Err(PartyError::NoMemory),
        };
        match take_all(alloc, links, place, brought, inbox, stages, waiting, rans) {
            Ok(()) => {}
            Err(cause) => return Err(cause),
        }
    }
    Ok(())
}

/// No more turns than this come, since each runs a stage, of which a gate has at most four.
fn most_turns(brought: &Brought) -> u64 {
    4 * u64::from(brought.plan.gates()) + 1
}
