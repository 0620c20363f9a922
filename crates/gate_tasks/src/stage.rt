//! One stage of a gate at a party, with its inputs by value.

ghost use Rattle.std.specs.Prelude.{◌≡◌, ◌<◌, ◌+◌, true, false, List, [], length, slice_get, Some, None, option_map, IfOk, IfSome};
ghost use Rattle.std.specs.Option.{unwrap_or};
ghost use Rattle.plan_gates.specs.Plan.{IsPlan};
ghost use Rattle.plan_gates.specs.Gate.{Gate};
ghost use Rattle.plan_gates.specs.Messages.{stages, awaits};
ghost use Rattle.joint_run.specs.Party as party;
ghost use Rattle.joint_run.specs.Party.{Rounds, width};
ghost use Rattle.gate_tasks.specs.ByValue.{kind_in, stand, gives_of, IsGiven, is_owned, value_of_stage, given_of};
ghost use Rattle.gate_tasks.specs.Sending.{outs_by};
ghost use Rattle.gate_tasks.specs.Stage.{value_of, hand_in, IsOf, IsStage, Gives, Serves, AreOperands, AreAwaited};

use crate::finish::{heard_value, own_value};
use crate::input::{give_vector, give_word};
use crate::outgoing::{Carried, Outs};
use crate::own::StageEnv;
use crate::sending::stage_outs;
use crate::value::Value;
use mot_base::{NoMemory, Payload};
use plan_gates::GateKind;
use std::alloc::Global;

/// What a stage gives: what is carried to the next one, which is `None` exactly at the last stage; the gate's value, which
/// is there exactly at the last stage; and the messages to send, by round and then by receiver.
#[derive(Debug, Drop)]
pub struct StageOut {
    pub carried: Option<Carried>,
    pub value: Option<Value>,
    pub out: Outs,
}

/// Runs a stage of a gate. `wires` are the values of the gate's operands in order, `carried` is what the stage before gave
/// and `None` at stage 0, and `payloads` are those for which the stage waits, by sender. The seed's tape is read at most
/// once.
pub fn run_stage(
    alloc: Global,
    env: &StageEnv,
    stage: u8,
    wires: &[Value],
    carried: Option<Carried>,
    payloads: &[Payload],
) -> Result<StageOut, NoMemory>
    requires serves { Serves env.now.plan.now env.now.own.now env.now.part.now env.now.gate }
    requires stage { stage < stages env.now.plan.now env.now.own.now.me.0 env.now.gate }
    requires wires { AreOperands env.now.plan.now env.now.gate wires.now }
    requires payloads { let me = env.now.own.now.me.0 in
        AreAwaited env.now.plan.now me env.now.gate
        (awaits env.now.plan.now me env.now.gate stage) payloads.now }
    ensures gives { IfOk result (λ given. (before : List party.Value) (got : Rounds) →
        IsStage (hand_in env.now before) got stage wires.now carried payloads.now →
        Gives (hand_in env.now before) got stage given) }
    ensures typed { IfOk result (λ given. IfSome given.value (λ value. (gate : Gate) →
        slice_get env.now.plan.now.gates env.now.gate ≡ Some gate → IsOf gate value)) }
{
    is_placed(env);
    if owns_input(env) {
        return input_stage(alloc, env);
    }
    let mut kept = payloads_carried(alloc, carried);
    let out = stage_outs(alloc, env, stage, wires, &mut kept)?;
    if env.plan.stages(env.own.me, env.gate) > stage + 1 {
        return Ok(early_stage(kept, out));
    }
    Ok(last_stage(last_value(env, stage, wires, payloads), out))
}

/// That the plan is valid, and the party one of the plan's.
fn is_placed(env: &StageEnv)
    requires { Serves env.now.plan.now env.now.own.now env.now.part.now env.now.gate }
    ensures plan { IsPlan env.now.plan.now }
    ensures me { env.now.own.now.me.0 < env.now.plan.now.parties }
{
    env.part.is_part();
    let _gates = env.plan.gates();
}

/// What a stage gives that is not the last one.
fn early_stage(kept: Vec<Payload>, out: Outs) -> StageOut
    ensures { result ≡ record { carried = Some kept.items; value = None; out = out } }
{
    StageOut {
        carried: Some(Carried::new(kept)),
        value: None,
        out,
    }
}

/// What the last stage gives.
fn last_stage(value: Value, out: Outs) -> StageOut
    ensures { result ≡ record { carried = None; value = Some value; out = out } }
{
    StageOut {
        carried: None,
        value: Some(value),
        out,
    }
}

/// The value that the last stage of a gate gives that is no input of the party's own.
fn last_value(env: &StageEnv, stage: u8, wires: &[Value], payloads: &[Payload]) -> Value
    requires plan { IsPlan env.now.plan.now }
    requires serves { Serves env.now.plan.now env.now.own.now env.now.part.now env.now.gate }
    requires operands { AreOperands env.now.plan.now env.now.gate wires.now }
    requires me { env.now.own.now.me.0 < env.now.plan.now.parties }
    requires others { is_owned (kind_in env.now) env.now.own.now.me.0 ≡ false }
    requires last { stages env.now.plan.now env.now.own.now.me.0 env.now.gate ≡ stage + 1 }
    requires payloads { let me = env.now.own.now.me.0 in
        AreAwaited env.now.plan.now me env.now.gate
        (awaits env.now.plan.now me env.now.gate stage) payloads.now }
    ensures value { value_of result
        ≡ value_of_stage (kind_in env.now) (stand env.now) wires.now payloads.now }
    ensures typed { IsGiven (gives_of (kind_in env.now)) (width (stand env.now)) result }
{
    if stage == 0 {
        own_value(env, wires)
    } else {
        heard_value(env, wires, payloads)
    }
}

/// Whether the gate takes an input of the party's own.
fn owns_input(env: &StageEnv) -> bool
    requires { env.now.gate < length env.now.plan.now.gates }
    ensures { result ≡ is_owned (kind_in env.now) env.now.own.now.me.0 }
{
    match env.plan.gate(env.gate) {
        GateKind::InA { party, .. } | GateKind::InB { party, .. } => party == env.own.me,
        _ => false,
    }
}

/// The one stage of an input at its owner.
fn input_stage(alloc: Global, env: &StageEnv) -> Result<StageOut, NoMemory>
    requires plan { IsPlan env.now.plan.now }
    requires serves { Serves env.now.plan.now env.now.own.now env.now.part.now env.now.gate }
    requires me { env.now.own.now.me.0 < env.now.plan.now.parties }
    requires owned { is_owned (kind_in env.now) env.now.own.now.me.0 ≡ true }
    ensures carried { IfOk result (λ given. given.carried ≡ None) }
    ensures value { IfOk result (λ given. option_map value_of given.value
        ≡ Some (value_of_stage (kind_in env.now) (stand env.now) [] [])) }
    ensures out { IfOk result (λ given. given.out
        ≡ outs_by env.now 0 (given_of (kind_in env.now) (stand env.now))) }
    ensures typed { IfOk result (λ given. IfSome given.value
        (IsGiven (gives_of (kind_in env.now)) (width (stand env.now)))) }
{
    match env.plan.gate(env.gate) {
        GateKind::InA { k, .. } => {
            let (kept, out) = give_word(alloc, env, k)?;
            Ok(last_stage(Value::A(kept), out))
        }
        GateKind::InB { k, at, .. } => {
            let (kept, out) = give_vector(alloc, env, k, at)?;
            Ok(last_stage(Value::B(kept), out))
        }
        _ => unreachable!(),
    }
}

/// The payloads that are carried, if something is.
fn payloads_carried(alloc: Global, carried: Option<Carried>) -> Vec<Payload>
    ensures { result.items ≡ unwrap_or carried [] }
{
    match carried {
        Some(carried) => carried.into_vec(),
        None => Vec::new(alloc),
    }
}
