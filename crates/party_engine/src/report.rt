//! What a party reports at the end.

ghost use Rattle.std.specs.Prelude.{◌≡◌, ◌<◌, ◌++◌, ℕ, List, length, IfOk};
ghost use Rattle.std.specs.List.{All, flat_map};
ghost use Rattle.std.specs.Option.{option_to_list};
ghost use Rattle.sha2.specs.Hashers.{Holds256};
ghost use Rattle.sha2.specs.Sha256.{sha256};
ghost use Rattle.frames.specs.Bytes.{joined};
ghost use Rattle.plan_gates.specs.Messages.{rounds};
ghost use Rattle.gate_tasks.specs.Report.{told_to};
ghost use Rattle.party_stages.specs.Following.{me_of, said_at};
ghost use Rattle.party_engine.specs.Reporting.{bits_held, told_of, frames_in, frames_at, frames_said, CanFrame};

use frames::message_head;
use gate_tasks::{Out, PartyReport, Value};
use mot_base::NoMemory;
use party_stages::{Brought, Stages};
use sha2::{Digest, Sha256};
use share_types::{Bits, BitsList};
use std::alloc::Global;

/// The report of what a party has run and has said.
pub(crate) fn report(
    alloc: Global,
    brought: &Brought,
    stages: &Stages,
) -> Result<PartyReport, NoMemory>
    requires count { length stages.now.said ≡ length brought.now.plan.gates }
    requires can { (g : ℕ) → All CanFrame (said_at stages.now.said g) }
    ensures told { IfOk result (λ report. report.told
        ≡ flat_map (bits_held stages.now.wires) (told_to brought.now.plan (me_of brought.now))) }
    ensures digest { IfOk result (λ report. report.digest
        ≡ sha256 (joined (frames_said brought.now.plan stages.now.said (length brought.now.plan.gates)))) }
{
    let told = told_bits(alloc, brought, stages)?;
    let digest = digest_of(brought, stages);
    Ok(PartyReport { told, digest })
}

/// The vectors that the party was told.
fn told_bits(alloc: Global, brought: &Brought, stages: &Stages) -> Result<BitsList, NoMemory>
    ensures { IfOk result (λ list. list
        ≡ flat_map (bits_held stages.now.wires) (told_to brought.now.plan (me_of brought.now))) }
{
    let mut list = Vec::new(alloc);
    for gate in 0..brought.plan.gates() {
        if let Some(bits) = told_at(brought, stages, gate) {
            list.push(bits)?;
        }
    }
    Ok(BitsList::new(list))
}

/// The vector that a gate told the party, if it told one.
fn told_at(brought: &Brought, stages: &Stages, gate: u32) -> Option<Bits>
    requires { gate < length brought.now.plan.gates }
    ensures { option_to_list result ≡ told_of brought.now.plan (me_of brought.now) stages.now.wires gate }
{
    if !brought.plan.tells(brought.own.me, gate) {
        return None;
    }
    match stages.wires().get(gate) {
        Some(Value::Told(told)) => *told,
        _ => None,
    }
}

/// SHA-256 of the frames of what the party has said, sorted by gate, then by round and then by receiver.
fn digest_of(brought: &Brought, stages: &Stages) -> [u8; 32]
    requires count { length stages.now.said ≡ length brought.now.plan.gates }
    requires can { (g : ℕ) → All CanFrame (said_at stages.now.said g) }
    ensures { result
        ≡ sha256 (joined (frames_said brought.now.plan stages.now.said (length brought.now.plan.gates))) }
{
    let mut hasher = Sha256::new();
    for gate in 0..brought.plan.gates() {
        let outs = stages.said()[gate as usize].as_slice();
        add_gate(&mut hasher, outs, brought.plan.rounds(gate));
    }
    hasher.finalize()
}

/// Adds the frames of the messages of a gate, round by round.
fn add_gate(hasher: &mut Sha256, outs: &[Out], rounds: u8)
    requires { All CanFrame outs.now }
    ensures { (bytes : List ℕ) → Holds256 hasher.old bytes →
        Holds256 hasher.new (bytes ++ joined (frames_at rounds outs.now)) }
{
    for round in 0..rounds {
        add_round(hasher, outs, round);
    }
}

/// Adds the frames of those of some messages that are of a round.
fn add_round(hasher: &mut Sha256, outs: &[Out], round: u8)
    requires { All CanFrame outs.now }
    ensures { (bytes : List ℕ) → Holds256 hasher.old bytes →
        Holds256 hasher.new (bytes ++ joined (frames_in round outs.now)) }
{
    for out in outs {
        if out.round == round {
            let head = message_head(out.gate, out.round, &out.payload);
            hasher.update(&head);
            hasher.update(out.payload.bytes());
        }
    }
}
