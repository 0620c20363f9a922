//! The gates of circuits in Bristol Fashion.

ghost use Rattle.std.specs.Prelude.{◌≡◌, ◌≢◌, ℕ, ◌<◌, ◌≤◌, ◌+◌, ◌*◌, ◌^◌, ◌↔◌, length, slice_get, IfOk, IsErrOf};
ghost use Rattle.mot_base.specs.Limits.{least_parties, most_parties, most_gates};
ghost use Rattle.share_types.specs.declared.sharing.Sharing.TheVariants.{A};
ghost use Rattle.bristol_reader.specs.Built.{IsCircuit};
ghost use Rattle.gate_plan.specs.Bristol.{are_keys, gates_of_kind, gates_of_end, gates_of_gate, bristol_gates_before, all_bristol_gates, bristol_lowered, KeepsBristol};

use crate::error::PlanError;
use crate::expand::lower_wires;
use bristol_reader::{Bristol, BristolKind};
use mot_base::MAX_GATES;
use plan_gates::Plan;
use share_types::Sharing;
use std::alloc::Global;

/// The gates of a circuit in Bristol Fashion. Input value `k` belongs to party `k` mod the number of
/// parties, and each output wire is told to all. `TooManyGates` comes exactly where there are too many.
pub fn lower_bristol(
    alloc: Global,
    circuit: &Bristol,
    parties: u8,
    sharing: Sharing,
) -> Result<Plan, PlanError>
    requires some { least_parties ≤ parties }
    requires most { parties ≤ most_parties }
    requires sharing { sharing ≢ A }
    ensures plan { IfOk result (λ plan. plan ≡ bristol_lowered (are_keys sharing) parties circuit.now) }
    ensures count { IfOk result (λ plan.
        length plan.gates ≡ all_bristol_gates (are_keys sharing) circuit.now) }
    ensures keeps { IfOk result (λ plan. KeepsBristol circuit.now plan) }
    ensures too_many { (gates : ℕ) → IsErrOf result (PlanError.TooManyGates gates) ↔
        ((most_gates < all_bristol_gates (are_keys sharing) circuit.now)
        × (gates ≡ all_bristol_gates (are_keys sharing) circuit.now)) }
{
    let gates = lowered_bristol_gates(circuit, sharing);
    if gates > u64::from(MAX_GATES) {
        return Err(PlanError::TooManyGates { gates });
    }
    let plan = lower_wires(alloc, circuit, parties, are_keys(sharing))?;
    Ok(plan)
}

/// How many gates a circuit in Bristol Fashion has, whose wires are shared by XOR or as keys. It takes no
/// memory.
pub fn lowered_bristol_gates(circuit: &Bristol, sharing: Sharing) -> u64
    requires { sharing ≢ A }
    ensures { result ≡ all_bristol_gates (are_keys sharing) circuit.now }
{
    let keys = are_keys(sharing);
    let ends = gates_of_end(keys);
    let inputs = ends * u64::from(circuit.input_wires());
    let outputs = ends * u64::from(circuit.output_wires());
    inputs + gates_of_gates(circuit, keys) + outputs
}

/// How many gates the gates of a circuit have together.
fn gates_of_gates(circuit: &Bristol, keys: bool) -> u64
    ensures value { result ≡ bristol_gates_before keys circuit.now.gates (length circuit.now.gates) }
    ensures few { result ≤ 2 ^ 56 }
{
    let mut gates = 0;
    for at in 0..circuit.len() {
        gates += gates_of_gate(circuit, at, keys);
    }
    gates
}

/// Whether wires are shared as keys.
fn are_keys(sharing: Sharing) -> bool
    ensures { result ≡ are_keys sharing }
{
    matches!(sharing, Sharing::Y)
}

/// How many gates a wire has for being an input, and how many for being an output.
fn gates_of_end(keys: bool) -> u64
    ensures value { result ≡ gates_of_end keys }
    ensures few { result ≤ 2 }
{
    if keys { 2 } else { 1 }
}

/// How many gates a gate of a circuit has.
fn gates_of_gate(circuit: &Bristol, at: u32, keys: bool) -> u64
    requires at { at < length circuit.now.gates }
    requires circuit { IsCircuit circuit.now }
    ensures value { result ≡ gates_of_gate keys (slice_get circuit.now.gates at) }
    ensures few { result < 2 ^ 24 }
{
    gates_of_kind(circuit.kind(at), circuit.outs(at).len(), keys)
}

/// How many gates a gate of a kind has, which has so many outputs.
fn gates_of_kind(kind: BristolKind, outs: usize, keys: bool) -> u64
    requires { outs < 2 ^ 23 }
    ensures value { result ≡ gates_of_kind keys kind outs }
    ensures few { result ≤ 3 * (outs + 1) }
{
    match kind {
        BristolKind::Eqw => 0,
        BristolKind::Inv => 1,
        BristolKind::And if keys => 3,
        BristolKind::Mand if keys => 3 * outs as u64,
        BristolKind::Mand => outs as u64,
        _ if keys => 2,
        _ => 1,
    }
}
