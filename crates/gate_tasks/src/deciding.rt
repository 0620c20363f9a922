//! Whether a party has what a stage, a task and a plan ask for.

ghost use Rattle.std.specs.Prelude.{◌≡◌, ◌↔◌, ◌<◌, ◌≤◌, ◌+◌, true, ℕ, length, slice_get, Some, IfSome};
ghost use Rattle.mot_base.specs.Limits.{session_count};
ghost use Rattle.share_types.specs.declared.needs.Kind.{Kind};
ghost use Rattle.share_types.specs.Needs.{count_of, sum_of_needs};
ghost use Rattle.dealer_files.specs.Part.{counts_of};
ghost use Rattle.plan_gates.specs.Gate.{Gate, Word, Vector, Told, kind_of, gives};
ghost use Rattle.plan_gates.specs.Needs.{offset, needs_at};
ghost use Rattle.gate_tasks.specs.Stage.{HasInput, IsOf, Serves};
ghost use Rattle.gate_tasks.specs.Task.{HoldTypes};
ghost use Rattle.gate_tasks.specs.Wires.{value_held};
ghost use Rattle.gate_tasks.specs.Serving.{ServeParty};

use crate::own::{Env, StageEnv};
use crate::value::Value;
use dealer_files::DealerPart;
use joint_run::Own;
use mot_base::{Party, SESSION_COUNT};
use plan_gates::{GateKind, Plan};
use share_types::{Bits, Needs};

impl<'a> StageEnv<'a> {
    /// Whether own data and a part of a deal serve the gate, as `run_stage` asks.
    pub fn serves(&self) -> bool
        ensures { (result ≡ true)
            ↔ Serves self.now.plan.now self.now.own.now self.now.part.now self.now.gate }
    {
        if self.gate >= self.plan.gates() || self.plan.has_keys() {
            return false;
        }
        if !is_part_of(self.plan, self.own.me, self.own, self.part) {
            return false;
        }
        if !has_input(self.plan, self.gate, self.own.me, self.own) {
            return false;
        }
        has_records(self)
    }
}

impl<'a> Env<'a> {
    /// Whether the values that are held of the operands of a gate have their types, as `GateTask::poll` asks.
    pub fn holds_types(&self, gate: u32) -> bool
        ensures { (result ≡ true) ↔ HoldTypes self.now.plan.now gate self.now.wires.now }
    {
        if gate >= self.plan.gates() {
            return true;
        }
        let operands = self.plan.gate(gate).operands();
        if !holds_type(self, operands.first) {
            return false;
        }
        if !holds_type(self, operands.second) {
            return false;
        }
        holds_type(self, operands.third)
    }
}

/// Whether own data and a part of a deal serve a party of a plan, so that they serve each of its gates.
pub fn serves_party(plan: &Plan, party: Party, own: &Own, part: &DealerPart) -> bool
    ensures { (result ≡ true) ↔ ServeParty plan.now party.0 own.now part.now }
{
    if own.me != party {
        return false;
    }
    if !is_part_of(plan, party, own, part) {
        return false;
    }
    if !has_inputs(plan, party, own) {
        return false;
    }
    are_within(own.bases, plan.needs(), part.counts())
}

/// Whether a part is a party's, for the parties of a plan, and the session has share words.
fn is_part_of(plan: &Plan, party: Party, own: &Own, part: &DealerPart) -> bool
    ensures { (result ≡ true) ↔ ((part.now.party ≡ party.0)
        × ((part.now.parties ≡ plan.now.parties) × (own.now.session < session_count))) }
{
    part.party() == party && part.parties() == plan.parties() && own.session < SESSION_COUNT
}

/// Whether all inputs are there that a plan takes from a party.
fn has_inputs(plan: &Plan, party: Party, own: &Own) -> bool
    ensures { (result ≡ true) ↔ ((g : ℕ) (gate : Gate) →
        slice_get plan.now.gates g ≡ Some gate → HasInput gate party.0 own.now.inputs) }
{
    for gate in 0..plan.gates() {
        if !has_input(plan, gate, party, own) {
            return false;
        }
    }
    true
}

/// Whether the input is there that a gate takes from a party, if it takes one.
fn has_input(plan: &Plan, gate: u32, party: Party, own: &Own) -> bool
    requires { gate < length plan.now.gates }
    ensures { (result ≡ true) ↔ ((g : Gate) →
        slice_get plan.now.gates gate ≡ Some g → HasInput g party.0 own.now.inputs) }
{
    match plan.gate(gate) {
        GateKind::InA { party: owner, k } => {
            owner != party || own.inputs.has_bits(k, 0, plan.width(gate))
        }
        GateKind::InB {
            party: owner,
            k,
            at,
            width,
        } => owner != party || own.inputs.has_bits(k, at, width),
        GateKind::InOnline {
            party: owner,
            k,
            at,
            ..
        } => owner != party || own.inputs.has_bits(k, at, plan.width(gate)),
        _ => true,
    }
}

/// Whether there are records of each kind that a gate needs, behind those of the gates before it.
fn has_records(env: &StageEnv) -> bool
    requires { env.now.gate < length env.now.plan.now.gates }
    ensures { (result ≡ true) ↔ ((kind : Kind) → 0 < count_of (needs_at env.now.plan.now env.now.gate) kind →
        count_of (sum_of_needs (sum_of_needs env.now.own.now.bases (offset env.now.plan.now env.now.gate))
        (needs_at env.now.plan.now env.now.gate)) kind
        ≤ count_of (counts_of env.now.part.now) kind) }
{
    let bases = env.own.bases;
    let before = env.plan.offset(env.gate);
    let asked = env.plan.needs_at(env.gate);
    let counts = env.part.counts();
    if !is_behind(bases.mult, before.mult, asked.mult, counts.mult) {
        return false;
    }
    if !is_behind(bases.bit, before.bit, asked.bit, counts.bit) {
        return false;
    }
    if !is_behind(bases.shared, before.shared, asked.shared, counts.shared) {
        return false;
    }
    is_behind(bases.key, before.key, asked.key, counts.key)
}

/// Whether so many records, if they are any, stand behind the ones before.
fn is_behind(base: u32, before: u32, asked: u32, count: u32) -> bool
    ensures { (result ≡ true) ↔ (0 < asked → base + before + asked ≤ count) }
{
    asked == 0 || u64::from(base) + u64::from(before) + u64::from(asked) <= u64::from(count)
}

/// Whether there are as many records of each kind as are needed, from the bases on.
fn are_within(bases: Needs, needs: Needs, counts: Needs) -> bool
    ensures { (result ≡ true) ↔ ((kind : Kind) →
        count_of (sum_of_needs bases needs) kind ≤ count_of counts kind) }
{
    if !is_within(bases.mult, needs.mult, counts.mult) {
        return false;
    }
    if !is_within(bases.bit, needs.bit, counts.bit) {
        return false;
    }
    if !is_within(bases.shared, needs.shared, counts.shared) {
        return false;
    }
    is_within(bases.key, needs.key, counts.key)
}

/// Whether so many records from a base on are among all.
fn is_within(base: u32, needs: u32, count: u32) -> bool
    ensures { (result ≡ true) ↔ (base + needs ≤ count) }
{
    u64::from(base) + u64::from(needs) <= u64::from(count)
}

/// Whether the value that is held of an operand, if there is one, has its type.
fn holds_type(env: &Env, operand: Option<u32>) -> bool
    ensures { (result ≡ true) ↔ ((x : ℕ) (gate : Gate) (value : Value) → operand ≡ Some x →
        slice_get env.now.plan.now.gates x ≡ Some gate → value_held env.now.wires.now x ≡ Some value →
        IsOf gate value) }
{
    let Some(x) = operand else {
        return true;
    };
    if x >= env.plan.gates() {
        return true;
    }
    match env.wires.get(x) {
        Some(value) => is_of(env.plan, x, value),
        None => true,
    }
}

/// Whether a value has the type that a gate gives.
fn is_of(plan: &Plan, gate: u32, value: &Value) -> bool
    requires { gate < length plan.now.gates }
    ensures { (result ≡ true) ↔ ((g : Gate) → slice_get plan.now.gates gate ≡ Some g → IsOf g value.now) }
{
    let kind = plan.gate(gate);
    match value {
        Value::A(_) => gives_word(kind),
        Value::B(vector) => gives_vector(kind) && vector.width == plan.width(gate),
        Value::Told(told) => is_told(kind) && is_wide(*told, plan.width(gate)),
    }
}

/// Whether what was told, if anything was, has a width.
fn is_wide(told: Option<Bits>, width: u8) -> bool
    ensures { (result ≡ true) ↔ IfSome told (λ vector. vector.width ≡ width) }
{
    match told {
        Some(vector) => vector.width == width,
        None => true,
    }
}

/// Whether a gate gives a share of a word.
fn gives_word(kind: GateKind) -> bool
    ensures { (result ≡ true) ↔ (gives (kind_of kind) ≡ Word) }
{
    match kind {
        GateKind::InA { .. }
        | GateKind::ConstA { .. }
        | GateKind::AddA { .. }
        | GateKind::SubA { .. }
        | GateKind::AddConstA { .. }
        | GateKind::MulConstA { .. }
        | GateKind::MulA { .. }
        | GateKind::BToA { .. } => true,
        _ => false,
    }
}

/// Whether a gate gives a share of a vector.
fn gives_vector(kind: GateKind) -> bool
    ensures { (result ≡ true) ↔ (gives (kind_of kind) ≡ Vector) }
{
    match kind {
        GateKind::InB { .. }
        | GateKind::ConstB { .. }
        | GateKind::XorB { .. }
        | GateKind::XorConstB { .. }
        | GateKind::SliceB { .. }
        | GateKind::JoinB { .. }
        | GateKind::AndB { .. }
        | GateKind::YToB { .. } => true,
        _ => false,
    }
}

/// Whether a gate tells its value.
fn is_told(kind: GateKind) -> bool
    ensures { (result ≡ true) ↔ (gives (kind_of kind) ≡ Told) }
{
    match kind {
        GateKind::OutA { .. } | GateKind::OutB { .. } => true,
        _ => false,
    }
}
