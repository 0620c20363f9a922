//! What a task finds of what its stage is given: values of operands, and payloads of messages.

ghost use Rattle.std.specs.Prelude.{◌≡◌, ◌<◌, ◌++◌, ℕ, length, Some, IfOk, IfSome, OnOk};
ghost use Rattle.message_demux.specs.Fit.{Fits};
ghost use Rattle.std.specs.FinMap as map;
ghost use Rattle.plan_gates.specs.Messages.{awaits};
ghost use Rattle.gate_tasks.specs.Stage.{operands_at};
ghost use Rattle.gate_tasks.specs.Task.{KeptFit, option_list, held_values, payloads_at, gate_lacking, slot_lacking, lacking};

use crate::own::Env;
use crate::step::Need;
use crate::value::Value;
use crate::wires::Wires;
use message_demux::Slot;
use mot_base::{NoMemory, Party, Payload};
use std::alloc::Global;

/// The first thing that a stage lacks.
pub(crate) fn lacking(env: &Env, gate: u32, stage: u8) -> Option<Need>
    requires { gate < length env.now.plan.now.gates }
    ensures { result ≡ lacking env.now gate stage }
{
    if let Some(x) = gate_lacking(env, gate) {
        return Some(Need::Wire(x));
    }
    let round = env.plan.awaits(env.own.me, gate, stage)?;
    let slot = slot_lacking(env, gate, round)?;
    Some(Need::Slot(slot))
}

/// The first operand of a gate that has no value.
fn gate_lacking(env: &Env, gate: u32) -> Option<u32>
    requires { gate < length env.now.plan.now.gates }
    ensures { result ≡ gate_lacking env.now.wires.now (operands_at env.now.plan.now.gates gate) }
{
    let operands = env.plan.gate(gate).operands();
    unless_held(env.wires, operands.first)
        .or(unless_held(env.wires, operands.second))
        .or(unless_held(env.wires, operands.third))
}

/// The gate, if there is one and it has no value.
fn unless_held(wires: &Wires<Value>, gate: Option<u32>) -> Option<u32>
    ensures { result ≡ gate_lacking wires.now (option_list gate) }
{
    let gate = gate?;
    match wires.get(gate) {
        Some(_) => None,
        None => Some(gate),
    }
}

/// The slot of the first message of a round that did not come.
fn slot_lacking(env: &Env, gate: u32, round: u8) -> Option<Slot>
    requires { gate < length env.now.plan.now.gates }
    ensures { result
        ≡ slot_lacking env.now.plan.now env.now.own.now.me.0 env.now.inbox.now gate (Some round) }
{
    for from in 0..env.plan.parties() {
        let from = Party(from);
        if env.plan.slot(from, env.own.me, gate, round).is_none() {
            continue;
        }
        let slot = Slot { from, gate, round };
        if env.inbox.get(slot).is_none() {
            return Some(slot);
        }
    }
    None
}

/// The values that are held of a gate's operands.
pub fn held_values(alloc: Global, env: &Env, gate: u32) -> Result<Vec<Value>, NoMemory>
    requires { gate < length env.now.plan.now.gates }
    ensures { IfOk result (λ values. values.items
        ≡ held_values env.now.wires.now (operands_at env.now.plan.now.gates gate)) }
{
    let operands = env.plan.gate(gate).operands();
    let mut values = Vec::new(alloc);
    push_held(alloc, &mut values, env.wires, operands.first)?;
    push_held(alloc, &mut values, env.wires, operands.second)?;
    push_held(alloc, &mut values, env.wires, operands.third)?;
    Ok(values)
}

/// Adds the value of a gate, if there is one and it has one.
fn push_held(
    alloc: Global,
    values: &mut Vec<Value>,
    wires: &Wires<Value>,
    gate: Option<u32>,
) -> Result<(), NoMemory>
    ensures { OnOk result (values.new.items ≡ values.old.items ++ held_values wires.now (option_list gate)) }
{
    let Some(gate) = gate else {
        return Ok(());
    };
    if let Some(value) = wires.get(gate) {
        values.push(value.copy(alloc)?)?;
    }
    Ok(())
}

/// The payloads that came of those that are sent to the party in a round, by sender, and none without a round.
pub fn kept_payloads(
    alloc: Global,
    env: &Env,
    gate: u32,
    round: Option<u8>,
) -> Result<Vec<Payload>, NoMemory>
    requires { gate < length env.now.plan.now.gates }
    ensures payloads { IfOk result (λ payloads. payloads.items
        ≡ payloads_at env.now.plan.now env.now.own.now.me.0 env.now.inbox.now gate round) }
    ensures fit { IfOk result (λ payloads. (r : ℕ) → round ≡ Some r →
        KeptFit env.now.plan.now env.now.own.now.me.0 env.now.inbox.now gate r env.now.plan.now.parties) }
{
    let mut payloads = Vec::new(alloc);
    let Some(round) = round else {
        return Ok(payloads);
    };
    for from in 0..env.plan.parties() {
        let from = Party(from);
        if env.plan.slot(from, env.own.me, gate, round).is_none() {
            continue;
        }
        push_kept(alloc, &mut payloads, env, Slot { from, gate, round })?;
    }
    Ok(payloads)
}

/// Adds the payload of a slot, if it came.
fn push_kept(
    alloc: Global,
    payloads: &mut Vec<Payload>,
    env: &Env,
    slot: Slot,
) -> Result<(), NoMemory>
    ensures pushed { OnOk result (payloads.new.items
        ≡ payloads.old.items ++ option_list (map.get env.now.inbox.now.kept slot)) }
    ensures fits { OnOk result
        (IfSome (map.get env.now.inbox.now.kept slot) (Fits env.now.inbox.now.slots slot)) }
{
    if let Some(payload) = env.inbox.get(slot) {
        payloads.push(payload.copy(alloc)?)?;
    }
    Ok(())
}
