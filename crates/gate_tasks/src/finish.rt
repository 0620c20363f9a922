//! The value that a party's last stage of a gate gives.

ghost use Rattle.std.specs.Prelude.{◌≡◌, ◌<◌, ◌≤◌, true, false, [], length, Option, Some};
ghost use Rattle.mot_base.specs.Limits.{most_width};
ghost use Rattle.plan_gates.specs.Gate as spec;
ghost use Rattle.plan_gates.specs.Gate.{Given};
ghost use Rattle.plan_gates.specs.Plan.{IsPlan};
ghost use Rattle.joint_run.specs.Party.{WordShare, VectorShare, Told, width};
ghost use Rattle.gate_tasks.specs.Stage.{Serves, AreOperands, AreAwaited, value_of};
ghost use Rattle.gate_tasks.specs.ByValue.{kind_in, stand, gives_of, IsGiven, hears_at, is_owned, is_keyed, is_own_word, is_own_vector, value_of_stage, product_of, conjunction_of, is_product, is_conjunction};

use crate::heard::{opened_vector, opened_word, vector_heard};
use crate::operand::{bit_triple, mult_triple, vector_at, word_at};
use crate::own::StageEnv;
use crate::value::Value;
use arithmetic_gmw::{add, add_const, mul_close, mul_const, mul_open, sub};
use boolean_gmw::{and_close, and_open, xor, xor_const};
use joint_run::word_in;
use mot_base::{MAX_WIDTH, Payload};
use plan_gates::GateKind;
use share_types::Bits;

/// The value of a gate at which the party hears nothing, where it is no input of its own.
pub(crate) fn own_value(env: &StageEnv, wires: &[Value]) -> Value
    requires plan { IsPlan env.now.plan.now }
    requires gate { env.now.gate < length env.now.plan.now.gates }
    requires operands { AreOperands env.now.plan.now env.now.gate wires.now }
    requires silent { hears_at (kind_in env.now) env.now.own.now.me.0 ≡ false }
    requires others { is_owned (kind_in env.now) env.now.own.now.me.0 ≡ false }
    requires unkeyed { is_keyed (kind_in env.now) ≡ false }
    ensures value { value_of result ≡ value_of_stage (kind_in env.now) (stand env.now) wires.now [] }
    ensures typed { IsGiven (gives_of (kind_in env.now)) (width (stand env.now)) result }
{
    match env.plan.gate(env.gate) {
        GateKind::OutA { .. } | GateKind::OutB { .. } => Value::Told(None),
        GateKind::ConstA { .. }
        | GateKind::AddA { .. }
        | GateKind::SubA { .. }
        | GateKind::AddConstA { .. }
        | GateKind::MulConstA { .. } => Value::A(own_word(env, wires)),
        GateKind::ConstB { .. }
        | GateKind::XorB { .. }
        | GateKind::XorConstB { .. }
        | GateKind::SliceB { .. }
        | GateKind::JoinB { .. } => Value::B(own_vector(env, wires)),
        _ => unreachable!(),
    }
}

/// The party's share of a word that it works out alone.
fn own_word(env: &StageEnv, wires: &[Value]) -> u64
    requires plan { IsPlan env.now.plan.now }
    requires gate { env.now.gate < length env.now.plan.now.gates }
    requires operands { AreOperands env.now.plan.now env.now.gate wires.now }
    requires kind { is_own_word (kind_in env.now) ≡ true }
    ensures { WordShare result ≡ value_of_stage (kind_in env.now) (stand env.now) wires.now [] }
{
    let me = env.own.me;
    match env.plan.gate(env.gate) {
        GateKind::ConstA { c } => add_const(me, 0, c),
        GateKind::AddA { .. } => add(word_at(env, wires, 0), word_at(env, wires, 1)),
        GateKind::SubA { .. } => sub(word_at(env, wires, 0), word_at(env, wires, 1)),
        GateKind::AddConstA { c, .. } => add_const(me, word_at(env, wires, 0), c),
        GateKind::MulConstA { c, .. } => mul_const(word_at(env, wires, 0), c),
        _ => unreachable!(),
    }
}

/// The party's share of a vector that it works out alone.
fn own_vector(env: &StageEnv, wires: &[Value]) -> Bits
    requires plan { IsPlan env.now.plan.now }
    requires gate { env.now.gate < length env.now.plan.now.gates }
    requires operands { AreOperands env.now.plan.now env.now.gate wires.now }
    requires kind { is_own_vector (kind_in env.now) ≡ true }
    ensures value { VectorShare result.word ≡ value_of_stage (kind_in env.now) (stand env.now) wires.now [] }
    ensures width { result.width ≡ width (stand env.now) }
{
    let me = env.own.me;
    match env.plan.gate(env.gate) {
        GateKind::ConstB { c } => xor_const(me, Bits::zeros(c.width), c),
        GateKind::XorB { .. } => xor(vector_at(env, wires, 0), vector_at(env, wires, 1)),
        GateKind::XorConstB { c, .. } => xor_const(me, vector_at(env, wires, 0), c),
        GateKind::SliceB { at, width, .. } => vector_at(env, wires, 0).slice(at, width),
        GateKind::JoinB { .. } => vector_at(env, wires, 0).join(vector_at(env, wires, 1)),
        _ => unreachable!(),
    }
}

/// The value of a gate at which the party hears something, from the payloads of the gate's round.
pub(crate) fn heard_value(env: &StageEnv, wires: &[Value], payloads: &[Payload]) -> Value
    requires plan { IsPlan env.now.plan.now }
    requires serves { Serves env.now.plan.now env.now.own.now env.now.part.now env.now.gate }
    requires operands { AreOperands env.now.plan.now env.now.gate wires.now }
    requires me { env.now.own.now.me.0 < env.now.plan.now.parties }
    requires hears { hears_at (kind_in env.now) env.now.own.now.me.0 ≡ true }
    requires payloads { AreAwaited env.now.plan.now env.now.own.now.me.0 env.now.gate (Some 0) payloads.now }
    ensures value { value_of result
        ≡ value_of_stage (kind_in env.now) (stand env.now) wires.now payloads.now }
    ensures typed { IsGiven (gives_of (kind_in env.now)) (width (stand env.now)) result }
{
    match env.plan.gate(env.gate) {
        GateKind::InA { .. } => Value::A(word_in(&payloads[0], 0)),
        GateKind::InB { width, .. } => Value::B(vector_heard(&payloads[0], width, 0)),
        GateKind::MulA { .. } => Value::A(product(env, wires, payloads)),
        GateKind::AndB { .. } => Value::B(conjunction(env, wires, payloads)),
        GateKind::OutA { .. } => told_word(opened_word(word_at(env, wires, 0), payloads, 0)),
        GateKind::OutB { .. } => {
            Value::Told(Some(opened_vector(vector_at(env, wires, 0), payloads, 0)))
        }
        _ => unreachable!(),
    }
}

/// A word that is told.
fn told_word(word: u64) -> Value
    ensures value { value_of result ≡ Told (Some word) }
    ensures typed { (given : Option Given) → given ≡ Some spec.Told → IsGiven given most_width result }
{
    Value::Told(Some(Bits {
        word,
        width: MAX_WIDTH,
    }))
}

/// The party's share of a product, from what the other parties opened.
fn product(env: &StageEnv, wires: &[Value], payloads: &[Payload]) -> u64
    requires plan { IsPlan env.now.plan.now }
    requires serves { Serves env.now.plan.now env.now.own.now env.now.part.now env.now.gate }
    requires operands { AreOperands env.now.plan.now env.now.gate wires.now }
    requires payloads { AreAwaited env.now.plan.now env.now.own.now.me.0 env.now.gate (Some 0) payloads.now }
    requires kind { is_product (kind_in env.now) ≡ true }
    ensures { result ≡ product_of (stand env.now) wires.now payloads.now }
{
    let triple = mult_triple(env);
    let (left, right) = mul_open(word_at(env, wires, 0), word_at(env, wires, 1), triple);
    let d = opened_word(left, payloads, 0);
    let e = opened_word(right, payloads, 1);
    mul_close(env.own.me, triple, d, e)
}

/// The party's share of an AND, from what the other parties opened.
fn conjunction(env: &StageEnv, wires: &[Value], payloads: &[Payload]) -> Bits
    requires plan { IsPlan env.now.plan.now }
    requires serves { Serves env.now.plan.now env.now.own.now env.now.part.now env.now.gate }
    requires operands { AreOperands env.now.plan.now env.now.gate wires.now }
    requires payloads { AreAwaited env.now.plan.now env.now.own.now.me.0 env.now.gate (Some 0) payloads.now }
    requires kind { is_conjunction (kind_in env.now) ≡ true }
    ensures word { result.word ≡ conjunction_of (stand env.now) wires.now payloads.now }
    ensures width { result.width ≡ width (stand env.now) }
{
    let triple = bit_triple(env);
    let (left, right) = and_open(vector_at(env, wires, 0), vector_at(env, wires, 1), triple);
    let d = opened_vector(left, payloads, 0);
    let e = opened_vector(right, payloads, 1);
    and_close(env.own.me, triple, d, e)
}
