//! What a stage sends.

ghost use Rattle.std.specs.Prelude.{◌≡◌, ◌<◌, ◌++◌, ℕ, true, length, IfOk, OnOk};
ghost use Rattle.plan_gates.specs.Plan.{IsPlan};
ghost use Rattle.gate_tasks.specs.Stage.{Serves, AreOperands, rounds_sent};
ghost use Rattle.gate_tasks.specs.ByValue.{kind_in, stand, is_product, is_conjunction, formed_of, opening, opening_of_bits};
ghost use Rattle.gate_tasks.specs.Sending.{payload_for, HasFor, outs_by, first_payload, round_outs, outs_for, kept_for};

use crate::operand::{bit_triple, mult_triple, vector_at, word_at};
use crate::outgoing::{Out, Outs};
use crate::own::StageEnv;
use crate::value::Value;
use joint_run::{vector_payload, word_payload};
use mot_base::{NoMemory, Party, Payload};
use plan_gates::GateKind;
use share_types::Bits;
use std::alloc::Global;

/// What a party has to send in a round: one payload to all, or to each party its share of an input.
#[derive(Drop)]
pub(crate) enum ToSend {
    Same(Payload),
    Words(Vec<u64>),
    Vectors(Vec<Bits>),
}

impl ToSend {
    /// The payload for a party.
    fn payload(&self, alloc: Global, to: Party) -> Result<Payload, NoMemory>
        requires { HasFor self.now to.0 }
        ensures { IfOk result (λ payload. payload ≡ payload_for self.now to.0) }
    {
        match self {
            ToSend::Same(payload) => payload.copy(alloc),
            ToSend::Words(words) => word_payload(alloc, &[words[usize::from(to.0)]]),
            ToSend::Vectors(vectors) => vector_payload(alloc, &[vectors[usize::from(to.0)]]),
        }
    }
}

/// The messages of all rounds that a party sends in a stage of a gate that is no input of its own. The first payload of
/// each round is added to what is carried.
pub(crate) fn stage_outs(
    alloc: Global,
    env: &StageEnv,
    stage: u8,
    wires: &[Value],
    kept: &mut Vec<Payload>,
) -> Result<Outs, NoMemory>
    requires plan { IsPlan env.now.plan.now }
    requires serves { Serves env.now.plan.now env.now.own.now env.now.part.now env.now.gate }
    requires operands { AreOperands env.now.plan.now env.now.gate wires.now }
    ensures outs { IfOk result (λ outs. outs
        ≡ outs_for env.now (formed_of (kind_in env.now) (stand env.now) wires.now)
        (rounds_sent env.now.plan.now env.now.own.now.me.0 env.now.gate stage)) }
    ensures kept { OnOk result (kept.new.items ≡ kept.old.items
        ++ kept_for env.now (formed_of (kind_in env.now) (stand env.now) wires.now)
        (rounds_sent env.now.plan.now env.now.own.now.me.0 env.now.gate stage)) }
{
    let mut outs = Vec::new(alloc);
    for round in 0..env.plan.rounds(env.gate) {
        if env.plan.sent_in(env.own.me, env.gate, round) != stage {
            continue;
        }
        push_round(alloc, env, round, wires, &mut outs, kept)?;
    }
    Ok(Outs::new(outs))
}

/// Adds the messages of a round of such a gate at the end, and the payload of the first of them to what is carried.
fn push_round(
    alloc: Global,
    env: &StageEnv,
    round: u8,
    wires: &[Value],
    outs: &mut Vec<Out>,
    kept: &mut Vec<Payload>,
) -> Result<(), NoMemory>
    requires plan { IsPlan env.now.plan.now }
    requires serves { Serves env.now.plan.now env.now.own.now env.now.part.now env.now.gate }
    requires operands { AreOperands env.now.plan.now env.now.gate wires.now }
    ensures outs { OnOk result (outs.new.items ≡ outs.old.items
        ++ round_outs env.now (formed_of (kind_in env.now) (stand env.now) wires.now) round) }
    ensures kept { OnOk result (kept.new.items ≡ kept.old.items
        ++ first_payload (round_outs env.now (formed_of (kind_in env.now) (stand env.now) wires.now) round)) }
{
    let payload = formed(alloc, env, round, wires)?;
    let first = outs.len();
    push_outs(alloc, env, round, &ToSend::Same(payload), outs)?;
    keep_first(alloc, &outs[first..], kept)?;
    Ok(())
}

/// Adds the payload of the first of some messages at the end, if there is one.
fn keep_first(alloc: Global, outs: &[Out], kept: &mut Vec<Payload>) -> Result<(), NoMemory>
    ensures { OnOk result (kept.new.items ≡ kept.old.items ++ first_payload outs.now) }
{
    if let Some(out) = outs.first() {
        kept.push(out.payload.copy(alloc)?)?;
    }
    Ok(())
}

/// The payload that a party forms in a round of a gate, and an empty one where it forms none. Of an input it is empty.
fn formed(alloc: Global, env: &StageEnv, round: u8, wires: &[Value]) -> Result<Payload, NoMemory>
    requires plan { IsPlan env.now.plan.now }
    requires serves { Serves env.now.plan.now env.now.own.now env.now.part.now env.now.gate }
    requires operands { AreOperands env.now.plan.now env.now.gate wires.now }
    ensures { IfOk result (λ payload.
        payload ≡ formed_of (kind_in env.now) (stand env.now) wires.now round) }
{
    match round {
        0 => first_formed(alloc, env, wires),
        _ => Ok(Payload::new(Vec::new(alloc))),
    }
}

/// The same in the first round.
fn first_formed(alloc: Global, env: &StageEnv, wires: &[Value]) -> Result<Payload, NoMemory>
    requires plan { IsPlan env.now.plan.now }
    requires serves { Serves env.now.plan.now env.now.own.now env.now.part.now env.now.gate }
    requires operands { AreOperands env.now.plan.now env.now.gate wires.now }
    ensures { IfOk result (λ payload.
        payload ≡ formed_of (kind_in env.now) (stand env.now) wires.now 0) }
{
    match env.plan.gate(env.gate) {
        GateKind::MulA { .. } => opening(alloc, env, wires),
        GateKind::OutA { .. } => word_payload(alloc, &[word_at(env, wires, 0)]),
        GateKind::AndB { .. } => opening_of_bits(alloc, env, wires),
        GateKind::OutB { .. } => vector_payload(alloc, &[vector_at(env, wires, 0)]),
        _ => Ok(Payload::new(Vec::new(alloc))),
    }
}

/// What a party opens of the operands of a product.
fn opening(alloc: Global, env: &StageEnv, wires: &[Value]) -> Result<Payload, NoMemory>
    requires plan { IsPlan env.now.plan.now }
    requires serves { Serves env.now.plan.now env.now.own.now env.now.part.now env.now.gate }
    requires operands { AreOperands env.now.plan.now env.now.gate wires.now }
    requires product { is_product (kind_in env.now) ≡ true }
    ensures { IfOk result (λ payload. payload ≡ opening (stand env.now) wires.now) }
{
    let (left, right) = (word_at(env, wires, 0), word_at(env, wires, 1));
    let (d, e) = arithmetic_gmw::mul_open(left, right, mult_triple(env));
    word_payload(alloc, &[d, e])
}

/// What a party opens of the operands of an AND.
fn opening_of_bits(alloc: Global, env: &StageEnv, wires: &[Value]) -> Result<Payload, NoMemory>
    requires plan { IsPlan env.now.plan.now }
    requires serves { Serves env.now.plan.now env.now.own.now env.now.part.now env.now.gate }
    requires operands { AreOperands env.now.plan.now env.now.gate wires.now }
    requires conjunction { is_conjunction (kind_in env.now) ≡ true }
    ensures { IfOk result (λ payload. payload ≡ opening_of_bits (stand env.now) wires.now) }
{
    let (left, right) = (vector_at(env, wires, 0), vector_at(env, wires, 1));
    let (d, e) = boolean_gmw::and_open(left, right, bit_triple(env));
    vector_payload(alloc, &[d, e])
}

/// The messages of a round alone, as `push_outs` makes them.
pub(crate) fn outs(
    alloc: Global,
    env: &StageEnv,
    round: u8,
    sent: &ToSend,
) -> Result<Outs, NoMemory>
    requires gate { env.now.gate < length env.now.plan.now.gates }
    requires each { (to : ℕ) → to < env.now.plan.now.parties → HasFor sent.now to }
    ensures { IfOk result (λ outs. outs ≡ outs_by env.now round (payload_for sent.now)) }
{
    let mut outs = Vec::new(alloc);
    push_outs(alloc, env, round, sent, &mut outs)?;
    Ok(Outs::new(outs))
}

/// Adds the messages of a round of a gate at the end, one to each party for which the plan has one, in rising order.
fn push_outs(
    alloc: Global,
    env: &StageEnv,
    round: u8,
    sent: &ToSend,
    outs: &mut Vec<Out>,
) -> Result<(), NoMemory>
    requires gate { env.now.gate < length env.now.plan.now.gates }
    requires each { (to : ℕ) → to < env.now.plan.now.parties → HasFor sent.now to }
    ensures { OnOk result
        (outs.new.items ≡ outs.old.items ++ outs_by env.now round (payload_for sent.now)) }
{
    for to in 0..env.plan.parties() {
        if env
            .plan
            .slot(env.own.me, Party(to), env.gate, round)
            .is_some()
        {
            outs.push(Out {
                to: Party(to),
                gate: env.gate,
                round,
                payload: sent.payload(alloc, Party(to))?,
            })?;
        }
    }
    Ok(())
}
