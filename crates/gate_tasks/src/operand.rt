//! What a stage takes: the shares of its operands, and the party's parts of the gate's triples.

ghost use Rattle.std.specs.Prelude.{◌≡◌, ℕ, true, slice_get, Some};
ghost use Rattle.plan_gates.specs.Gate.{Word, Vector, width_at};
ghost use Rattle.boolean_gmw.specs.Shares.{triple_of};
ghost use Rattle.plan_gates.specs.Plan.{IsPlan};
ghost use Rattle.joint_run.specs.Party.{triple, bit_triple, width};
ghost use Rattle.gate_tasks.specs.Stage.{Serves, AreOperands, operands_of};
ghost use Rattle.gate_tasks.specs.ByValue.{kind_in, stand, taken_at, keeps_width, is_product, is_conjunction, word_at, vector_at};

use crate::own::StageEnv;
use crate::value::Value;
use share_types::{BitTriple, Bits, MultTriple};

/// The party's share of the word that is the operand at a place.
pub(crate) fn word_at(env: &StageEnv, wires: &[Value], at: usize) -> u64
    requires plan { IsPlan env.now.plan.now }
    requires operands { AreOperands env.now.plan.now env.now.gate wires.now }
    requires word { taken_at (kind_in env.now) at ≡ Some Word }
    ensures { result ≡ word_at wires.now at }
{
    match wires[at] {
        Value::A(word) => word,
        _ => unreachable!(),
    }
}

/// The party's share of the vector that is the operand at a place.
pub(crate) fn vector_at(env: &StageEnv, wires: &[Value], at: usize) -> Bits
    requires plan { IsPlan env.now.plan.now }
    requires operands { AreOperands env.now.plan.now env.now.gate wires.now }
    requires vector { taken_at (kind_in env.now) at ≡ Some Vector }
    ensures share { result.word ≡ vector_at wires.now at }
    ensures width { (x : ℕ) → slice_get (operands_of (kind_in env.now)) at ≡ Some x →
        result.width ≡ width_at env.now.plan.now.gates x }
    ensures same_width { keeps_width (kind_in env.now) ≡ true → result.width ≡ width (stand env.now) }
{
    match wires[at] {
        Value::B(vector) => vector,
        _ => unreachable!(),
    }
}

/// The party's part of the multiplication triple of a product.
pub(crate) fn mult_triple(env: &StageEnv) -> MultTriple
    requires serves { Serves env.now.plan.now env.now.own.now env.now.part.now env.now.gate }
    requires product { is_product (kind_in env.now) ≡ true }
    ensures { result ≡ triple (stand env.now) }
{
    env.part.is_part();
    let first = env.own.bases.mult + env.plan.offset(env.gate).mult;
    env.part.mult(first)
}

/// The party's parts of the bit triples of an AND.
pub(crate) fn bit_triple(env: &StageEnv) -> BitTriple
    requires plan { IsPlan env.now.plan.now }
    requires serves { Serves env.now.plan.now env.now.own.now env.now.part.now env.now.gate }
    requires conjunction { is_conjunction (kind_in env.now) ≡ true }
    ensures triple { triple_of result ≡ bit_triple (stand env.now) }
    ensures width { result.a.width ≡ width (stand env.now) }
{
    env.part.is_part();
    let first = env.own.bases.bit + env.plan.offset(env.gate).bit;
    env.part.bits(first, env.plan.width(env.gate))
}
