//! One party's run of a plan.

ghost use Rattle.std.specs.Prelude.{◌≡◌, ◌<◌, ◌≤◌, ◌^◌, List, length, slice_get, true, Option, Some, Err, IfOk, OnOk, OnErr, IfErr, IsErrOf};
ghost use Rattle.mot_base.specs.Faults.{Rose};
ghost use Rattle.mot_base.specs.Limits.{least_parties, most_parties};
ghost use Rattle.mot_base.specs.Links.{ByParty};
ghost use Rattle.share_types.specs.declared.needs.Kind as kind_of;
ghost use Rattle.share_types.specs.declared.needs.TooFew as too_few;
ghost use Rattle.share_types.specs.Needs.{count_of, sum_of_needs};
ghost use Rattle.dealer_files.specs.Part.{counts_of};
ghost use Rattle.message_demux.specs.Inbox.{empty_inbox};
ghost use Rattle.plan_gates.specs.Needs.{all_needs};
ghost use Rattle.plan_gates.specs.Messages.{AreSlotsTo};
ghost use Rattle.joint_run.specs.Joint.{Payloads, IsJoint, column};
ghost use Rattle.joint_run.specs.Party.{Own, party_value};
ghost use Rattle.gate_tasks.specs.Report.{IsReportOf};
ghost use Rattle.gate_tasks.specs.Serving.{ServeParty};
ghost use Rattle.peer_streams.specs.Runs.{place_in, hellos_to, fresh_peers, HasHeard};
ghost use Rattle.peer_streams.specs.Taking.{IsAnswer, NamesPeer};
ghost use Rattle.party_stages.specs.Following.{me_of, own_of, no_progress};
ghost use Rattle.party_stages.specs.Scene.{IsScene, AreAllDone};
ghost use Rattle.party_engine.specs.Run.{IsAsked, IsShort, run_of, IsRunOver, IsRefused, AreHonestPeers, HasSentHonestly, KeepsNone};
ghost use Rattle.party_engine.specs.Saying.{HasTalked, HasTalkedSome};

use crate::greeting::{greet, send_ends};
use crate::report::report;
use crate::speaking::{Talk, speak};
use crate::waiting::Waiting;
use gate_tasks::PartyReport;
use message_demux::Inbox;
use mot_base::{Links, NoMemory, Party, Place, Turnstile};
use party_stages::{Brought, Stages};
use peer_streams::{PartyError, Run, read_all};
use share_types::{Kind, TooFew};
use std::alloc::Global;
use std::thread::Threads;

/// How many bytes are taken at a time.
const BUFFER_LENGTH: usize = 65_536;

/// One party's run of a plan among parties that are linked: it says Hello, runs its stages by 1 to 16 workers, sends what
/// they give and takes what they lack, and says End. What is ready at a time runs side by side, and passes the gate with
/// its place among what is ready. It returns if its calls of links return.
pub fn run_party<L: Links, G: Turnstile + Sync, R: Threads + Sync>(
    rt: &R,
    alloc: Global,
    brought: &Brought,
    circuit: &[u8; 32],
    port: u16,
    links: &mut L,
    workers: u8,
    gate: &G,
) -> Result<PartyReport, PartyError>
    requires asked { IsAsked brought.now }
    requires workers { (1 ≤ workers) × (workers ≤ 16) }
    // one party, any peers
    ensures over { (before : ByParty) → L.left links.old ≡ Some before →
        IfOk result (IsRunOver brought.now (run_of brought.now circuit.now) before (L.left links.new)
        (L.sent links.old) (L.sent links.new)) }
    // one party, honest peers
    ensures honest { (before : ByParty) (owns : List Own) (table : Payloads) → L.left links.old ≡ Some before →
        length owns ≡ brought.now.plan.parties → IsJoint brought.now.plan owns table →
        slice_get owns (me_of brought.now) ≡ Some (own_of brought.now) →
        AreHonestPeers brought.now (run_of brought.now circuit.now) table before →
        IfOk result (IsReportOf brought.now.plan (me_of brought.now)
        (party_value brought.now.plan (me_of brought.now) (own_of brought.now) (column table (me_of brought.now)))
        (λ g round to. table g round (me_of brought.now) to)) }
    // and what it has sent is an honest stream of the same run
    ensures onward { (before sent : ByParty) (owns : List Own) (table : Payloads) → L.left links.old ≡ Some before →
        L.sent links.old ≡ Some sent →
        length owns ≡ brought.now.plan.parties → IsJoint brought.now.plan owns table →
        slice_get owns (me_of brought.now) ≡ Some (own_of brought.now) →
        AreHonestPeers brought.now (run_of brought.now circuit.now) table before →
        OnOk result (HasSentHonestly brought.now (run_of brought.now circuit.now) table sent (L.sent links.new)) }
    ensures refused { (before : ByParty) → L.left links.old ≡ Some before →
        IfErr result (IsRefused brought.now (run_of brought.now circuit.now) before (L.left links.new) (L.closed links.new)) }
    ensures begun { (before : ByParty) → L.left links.old ≡ Some before →
        OnErr result (HasTalkedSome brought.now (run_of brought.now circuit.now) brought.now.own.me before
        (L.left links.new) (L.sent links.old) (L.sent links.new)) }
    ensures few { (few : too_few.TooFew) → IsShort brought.now few → result ≡ Err (PartyError.TooFew few) }
    ensures names { IfErr result
        (NamesPeer (Some (place_in (run_of brought.now circuit.now) brought.now.own.me)) (L.closed links.new)) }
    ensures fault { IsErrOf result PartyError.LinkFault →
        Rose (L.faults links.old) (L.faults links.new) }
    ensures flushed { OnOk result (L.flushed links.new ≡ true) }
    ensures never_falls { L.faults links.old ≤ L.faults links.new }
{
    match ask(brought) {
        Ok(()) => run_served(rt, alloc, brought, circuit, port, links, workers, gate),
        Err(few) => Err(PartyError::TooFew(few)),
    }
}

/// Whether the part has as many records of each kind as the plan needs behind the bases, or else the first kind of which it
/// has fewer, in the order mult, bit, shared, key.
fn ask(brought: &Brought) -> Result<(), TooFew>
    ensures enough { OnOk result ((kind : kind_of.Kind) →
        count_of (sum_of_needs brought.now.own.bases (all_needs brought.now.plan)) kind
        ≤ count_of (counts_of brought.now.part) kind) }
    ensures short { IfErr result (IsShort brought.now) }
{
    ask_kind(brought, Kind::Mult)?;
    ask_kind(brought, Kind::Bit)?;
    ask_kind(brought, Kind::Shared)?;
    ask_kind(brought, Kind::Key)
}

/// The same of one kind.
fn ask_kind(brought: &Brought, kind: Kind) -> Result<(), TooFew>
    ensures enough { OnOk result (count_of (sum_of_needs brought.now.own.bases (all_needs brought.now.plan)) kind
        ≤ count_of (counts_of brought.now.part) kind) }
    ensures short { OnErr result (count_of (counts_of brought.now.part) kind
        < count_of (sum_of_needs brought.now.own.bases (all_needs brought.now.plan)) kind) }
    ensures few { IfErr result (λ few. few ≡ record {
      kind = kind;
      before = count_of brought.now.own.bases kind;
      asked = count_of (all_needs brought.now.plan) kind;
      stock = count_of (counts_of brought.now.part) kind;
    }) }
{
    let before = u64::from(brought.own.bases.count(kind));
    let asked = brought.plan.needs().count(kind);
    let stock = brought.part.counts().count(kind);
    if before + u64::from(asked) > u64::from(stock) {
        return Err(TooFew {
            kind,
            before,
            asked,
            stock,
        });
    }
    Ok(())
}

/// The run of a party whose part has enough records.
fn run_served<L: Links, G: Turnstile + Sync, R: Threads + Sync>(
    rt: &R,
    alloc: Global,
    brought: &Brought,
    circuit: &[u8; 32],
    port: u16,
    links: &mut L,
    workers: u8,
    gate: &G,
) -> Result<PartyReport, PartyError>
    requires asked { IsAsked brought.now }
    requires serves { ServeParty brought.now.plan (me_of brought.now) brought.now.own brought.now.part }
    requires workers { (1 ≤ workers) × (workers ≤ 16) }
    ensures over { (before : ByParty) → L.left links.old ≡ Some before →
        IfOk result (IsRunOver brought.now (run_of brought.now circuit.now) before (L.left links.new)
        (L.sent links.old) (L.sent links.new)) }
    ensures refused { (before : ByParty) → L.left links.old ≡ Some before →
        IfErr result (IsRefused brought.now (run_of brought.now circuit.now) before (L.left links.new) (L.closed links.new)) }
    ensures begun { (before : ByParty) → L.left links.old ≡ Some before →
        OnErr result (HasTalkedSome brought.now (run_of brought.now circuit.now) brought.now.own.me before
        (L.left links.new) (L.sent links.old) (L.sent links.new)) }
    ensures numbers { ((run_of brought.now circuit.now).id < 2 ^ 64) × (length circuit.now ≡ 32) }
    ensures names { IfErr result
        (NamesPeer (Some (place_in (run_of brought.now circuit.now) brought.now.own.me)) (L.closed links.new)) }
    ensures fault { IsErrOf result PartyError.LinkFault →
        Rose (L.faults links.old) (L.faults links.new) }
    ensures flushed { OnOk result (L.flushed links.new ≡ true) }
    ensures never_falls { L.faults links.old ≤ L.faults links.new }
{
    let run = run_of(brought, circuit);
    let mut talk = match begin(alloc, brought, &run) {
        Ok(talk) => talk,
        Err(NoMemory) => return Err(PartyError::NoMemory),
    };
    let mut buffer = match new_buffer(alloc) {
        Ok(buffer) => buffer,
        Err(NoMemory) => return Err(PartyError::NoMemory),
    };
    match converse(
        rt,
        alloc,
        links,
        &run,
        brought,
        brought.own.me,
        port,
        &mut talk,
        &mut buffer,
        workers,
        gate,
    ) {
        Ok(()) => {}
        Err(cause) => return Err(cause),
    }
    match report(alloc, brought, &talk.stages) {
        Ok(report) => Ok(report),
        Err(NoMemory) => Err(PartyError::NoMemory),
    }
}

/// The run, as the parties tell it to each other.
fn run_of(brought: &Brought, circuit: &[u8; 32]) -> Run
    ensures value { result ≡ run_of brought.now circuit.now }
    ensures id { result.id < 2 ^ 64 }
    ensures circuit { length result.circuit ≡ 32 }
{
    Run {
        parties: brought.plan.parties(),
        id: brought.part.id(),
        circuit: *circuit,
    }
}

/// A buffer for the bytes that come.
fn new_buffer(alloc: Global) -> Result<Vec<u8>, NoMemory>
    ensures { IfOk result (λ buffer. 0 < length buffer.items) }
{
    let buffer = vec![in alloc; 0; BUFFER_LENGTH]?;
    Ok(buffer)
}

/// A party that has run nothing and was sent nothing.
fn begin(alloc: Global, brought: &Brought, run: &Run) -> Result<Talk, NoMemory>
    requires asked { IsAsked brought.now }
    requires serves { ServeParty brought.now.plan (me_of brought.now) brought.now.own brought.now.part }
    ensures slots { IfOk result (λ talk. AreSlotsTo brought.now.plan (me_of brought.now) talk.inbox.slots) }
    ensures fresh { IfOk result (λ talk. talk.inbox ≡ empty_inbox talk.inbox.slots) }
    ensures peers { IfOk result (λ talk. talk.peers.items ≡ fresh_peers run.now brought.now.own.me) }
    ensures stages { IfOk result (λ talk. talk.stages ≡ no_progress (length brought.now.plan.gates)) }
    ensures scene { IfOk result (λ talk. IsScene brought.now talk.inbox talk.stages) }
{
    let gates = brought.plan.gates();
    let slots = brought.plan.slots_to(alloc, brought.own.me)?;
    let inbox = Inbox::new(alloc, slots)?;
    let peers = run.peers(alloc, brought.own.me)?;
    let stages = Stages::new(alloc, gates)?;
    let waiting = Waiting::new(alloc, gates)?;
    Ok(Talk {
        inbox,
        peers,
        stages,
        waiting,
    })
}

/// Says Hello, runs all stages, says End, reads all peers to their Ends, and waits until all that was sent is on its way.
fn converse<L: Links, G: Turnstile + Sync, R: Threads + Sync>(
    rt: &R,
    alloc: Global,
    links: &mut L,
    run: &Run,
    brought: &Brought,
    me: Party,
    port: u16,
    talk: &mut Talk,
    buffer: &mut [u8],
    workers: u8,
    gate: &G,
) -> Result<(), PartyError>
    requires least { least_parties ≤ run.now.parties }
    requires most { run.now.parties ≤ most_parties }
    requires inside { me.0 < run.now.parties }
    requires me { me ≡ brought.now.own.me }
    requires parties { run.now.parties ≡ brought.now.plan.parties }
    requires scene { IsScene brought.now talk.old.inbox talk.old.stages }
    requires fresh { talk.old.inbox ≡ empty_inbox talk.old.inbox.slots }
    requires peers { talk.old.peers.items ≡ fresh_peers run.now me }
    requires stages { talk.old.stages ≡ no_progress (length brought.now.plan.gates) }
    requires some { 0 < length buffer.old }
    requires workers { (1 ≤ workers) × (workers ≤ 16) }
    ensures heard { (before : ByParty) → L.left links.old ≡ Some before →
        OnOk result (HasHeard before (L.left links.new) (place_in run.now me) run.now talk.new.inbox) }
    ensures others { OnOk result (KeepsNone (place_in run.now me) talk.new.inbox) }
    ensures done { OnOk result (AreAllDone brought.now talk.new.stages) }
    ensures scene { OnOk result (IsScene brought.now talk.new.inbox talk.new.stages) }
    ensures said { OnOk result
        (HasTalked run.now me (L.sent links.old) (L.sent links.new) talk.new.stages) }
    ensures begun { (before : ByParty) → L.left links.old ≡ Some before →
        OnErr result (HasTalkedSome brought.now run.now me before (L.left links.new) (L.sent links.old) (L.sent links.new)) }
    ensures shown { (before : ByParty) → L.left links.old ≡ Some before →
        IfErr result (IsAnswer before (L.left links.new) (L.closed links.new)
        (place_in run.now me) (hellos_to run.now me) talk.old.inbox.slots) }
    ensures names { IfErr result
        (NamesPeer (Some (place_in run.now me)) (L.closed links.new)) }
    ensures fault { IsErrOf result PartyError.LinkFault →
        Rose (L.faults links.old) (L.faults links.new) }
    ensures flushed { OnOk result (L.flushed links.new ≡ true) }
    ensures never_falls { L.faults links.old ≤ L.faults links.new }
{
    let place = Place {
        me,
        parties: run.parties,
    };
    match greet(alloc, links, run, me, port) {
        Ok(()) => {}
        Err(cause) => return Err(cause),
    }
    match speak(
        rt, alloc, links, place, brought, talk, buffer, workers, gate,
    ) {
        Ok(()) => {}
        Err(cause) => return Err(cause),
    }
    match send_ends(alloc, links, run, me) {
        Ok(()) => {}
        Err(cause) => return Err(cause),
    }
    match read_all(
        alloc,
        links,
        place,
        &mut talk.inbox,
        &mut talk.peers,
        buffer,
    ) {
        Ok(()) => {}
        Err(cause) => return Err(cause),
    }
    match links.finish(alloc) {
        Ok(()) => Ok(()),
        Err(error) => Err(PartyError::from(error)),
    }
}
