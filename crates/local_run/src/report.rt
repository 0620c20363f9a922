//! The reports of the parties of a run.

ghost use Rattle.std.specs.Prelude.{◌≡◌, ◌<◌, ◌≤◌, ◌+◌, ◌++◌, ℕ, List, length, IfOk};
ghost use Rattle.std.specs.List.{All, flat_map};
ghost use Rattle.sha2.specs.Hashers.{Holds256};
ghost use Rattle.sha2.specs.Sha256.{sha256};
ghost use Rattle.frames.specs.Bytes.{IsSendable, joined};
ghost use Rattle.plan_gates.specs.Plan.{IsPlan};
ghost use Rattle.joint_run.specs.Party.{Own};
ghost use Rattle.joint_run.specs.Joint.{Payloads, IsJoint};
ghost use Rattle.local_run.specs.Loads.{reports_loads};
ghost use Rattle.local_run.specs.Meaning.{AreFit, AreMeant};
ghost use Rattle.local_run.specs.Report.{bits_told, frame_of, frames_of, AreReports};

use crate::cargo::Cargo;
use crate::item::Load;
use crate::loads::{push_sent, push_told};
use frames::message_head;
use gate_tasks::{PartyReport, Value};
use mot_base::{NoMemory, Party};
use plan_gates::Plan;
use sha2::{Digest, Sha256};
use share_types::BitsList;
use std::alloc::Global;

/// The reports of all parties, of what came to the end of a run.
pub(crate) fn reports(
    alloc: Global,
    plan: &Plan,
    ends: &[Cargo],
) -> Result<Vec<PartyReport>, NoMemory>
    requires plan { IsPlan plan.now }
    requires fit { AreFit plan.now (reports_loads plan.now plan.now.parties) ends.now }
    ensures { IfOk result (λ reports. (owns : List Own) (table : Payloads) → IsJoint plan.now owns table →
        AreMeant plan.now owns (reports_loads plan.now plan.now.parties) ends.now →
        AreReports plan.now owns table reports.items) }
{
    let mut reports = Vec::with_capacity(alloc, plan.parties() as usize)?;
    let mut rest = ends;
    for party in 0..plan.parties() {
        let mut wires = Vec::new(alloc);
        push_told(plan, Party(party), &mut wires)?;
        let (told, behind) = rest.split_at(wires.len());
        let mut messages = Vec::new(alloc);
        push_sent(plan, Party(party), &mut messages)?;
        let (sent, behind) = behind.split_at(messages.len());
        let report = report(alloc, told, &messages, sent)?;
        reports.push(report)?;
        rest = behind;
    }
    Ok(reports)
}

/// The report of a party that was told this and sent that.
fn report(
    alloc: Global,
    told: &[Cargo],
    loads: &[Load],
    sent: &[Cargo],
) -> Result<PartyReport, NoMemory>
    requires count { length sent.now ≡ length loads.now }
    requires sendable { All IsSendable (frames_of loads.now sent.now) }
    ensures told { IfOk result (λ report. report.told ≡ flat_map bits_told told.now) }
    ensures digest { IfOk result (λ report. report.digest ≡ sha256 (joined (frames_of loads.now sent.now))) }
{
    let told = told_bits(alloc, told)?;
    let digest = digest_of(loads, sent);
    Ok(PartyReport { told, digest })
}

/// The vectors that are told.
fn told_bits(alloc: Global, told: &[Cargo]) -> Result<BitsList, NoMemory>
    ensures { IfOk result (λ list. list ≡ flat_map bits_told told.now) }
{
    let mut list = Vec::with_capacity(alloc, told.len())?;
    for cargo in told {
        let Cargo::Value(Value::Told(Some(bits))) = cargo else {
            continue;
        };
        list.push(*bits)?;
    }
    Ok(BitsList::new(list))
}

/// SHA-256 of the frames of payloads, one after another.
fn digest_of(loads: &[Load], sent: &[Cargo]) -> [u8; 32]
    requires count { length sent.now ≡ length loads.now }
    requires sendable { All IsSendable (frames_of loads.now sent.now) }
    ensures { result ≡ sha256 (joined (frames_of loads.now sent.now)) }
{
    let mut hasher = Sha256::new();
    for (at, load) in loads.iter().enumerate() {
        add_frame(&mut hasher, *load, &sent[at]);
    }
    hasher.finalize()
}

/// Adds the bytes of the frame of a payload, and none where it is no payload.
fn add_frame(hasher: &mut Sha256, load: Load, cargo: &Cargo)
    requires { All IsSendable (frame_of load cargo.now) }
    ensures { (bytes : List ℕ) → Holds256 hasher.old bytes →
        Holds256 hasher.new (bytes ++ joined (frame_of load cargo.now)) }
{
    let Load::Message { gate, round, .. } = load else {
        return;
    };
    let Cargo::Message(payload) = cargo else {
        return;
    };
    let head = message_head(gate, round, payload);
    hasher.update(&head);
    hasher.update(payload.bytes());
}
