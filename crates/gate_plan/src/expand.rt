//! The gates of a circuit in Bristol Fashion.

ghost use Rattle.std.specs.Prelude.{◌≡◌, ℕ, ◌<◌, ◌≤◌, ◌+◌, ◌-◌, ◌*◌, ◌^◌, true, nat_lt, length, sum, slice_index, IfOk, OnOk};
ghost use Rattle.std.specs.List.{list_all};
ghost use Rattle.mot_base.specs.Limits.{least_parties, most_parties, most_wires, most_gates};
ghost use Rattle.share_types.specs.Sums.{each};
ghost use Rattle.share_types.specs.declared.receiver.Receiver.TheVariants.{All};
ghost use Rattle.bristol_reader.specs.Kinds.{is_constant};
ghost use Rattle.bristol_reader.specs.Built.{IsCircuit};
ghost use Rattle.plan_gates.specs.Plan.{with_gates};
ghost use Rattle.gate_plan.specs.declared.wire.Wire.{Wire};
ghost use Rattle.gate_plan.specs.Blocks.{wire_among, anded};
ghost use Rattle.gate_plan.specs.Bristol.{all_bristol_gates, gates_of_end, gates_of_and, gates_of_kind, entry_wire, value_gates, input_gates, kind_gates, ands_gates, output_wire, rewired, wired_before, wired_draft, output_gates, bristol_lowered, KeepsBristol};

use crate::block::{push_anded, push_constant, push_entered, push_flipped, push_told, push_xored};
use crate::wire::{Wire, wire_among};
use bristol_reader::{Bristol, BristolKind};
use circuit_tables::Receiver;
use mot_base::{NoMemory, Party};
use plan_gates::{Draft, Plan};
use share_types::Bits;
use std::alloc::Global;

/// The gates of a circuit whose gates are not too many, where its wires are shared as keys or by XOR.
pub fn lower_wires(
    alloc: Global,
    circuit: &Bristol,
    parties: u8,
    keys: bool,
) -> Result<Plan, NoMemory>
    requires some { least_parties ≤ parties }
    requires most { parties ≤ most_parties }
    requires few { all_bristol_gates keys circuit.now ≤ most_gates }
    ensures plan { IfOk result (λ plan. plan ≡ bristol_lowered keys parties circuit.now) }
    ensures count { IfOk result (λ plan. length plan.gates ≡ all_bristol_gates keys circuit.now) }
    ensures keeps { IfOk result (λ plan. KeepsBristol circuit.now plan) }
{
    let mut draft = input_draft(alloc, circuit, parties, keys)?;
    let mut wires = entry_wires(alloc, circuit.wires(), keys)?;
    for at in 0..circuit.len() {
        push_gate(&mut draft, &mut wires, circuit, at, keys)?;
    }
    push_outputs(&mut draft, circuit, &wires, keys)?;
    Plan::of(alloc, draft)
}

/// The gates of a circuit's input wires, value by value.
fn input_draft(alloc: Global, circuit: &Bristol, parties: u8, keys: bool) -> Result<Draft, NoMemory>
    requires some { least_parties ≤ parties }
    requires most { parties ≤ most_parties }
    requires few { gates_of_end keys * sum circuit.now.inputs ≤ most_gates }
    ensures { IfOk result (λ draft.
        draft ≡ record { parties = parties; gates = input_gates keys parties 0 0 circuit.now.inputs }) }
{
    let mut draft = Draft::new(alloc, parties);
    for k in 0..circuit.input_count() {
        let party = Party((k % u32::from(parties)) as u8);
        push_value(&mut draft, party, k, circuit.input_width(k), keys)?;
    }
    Ok(draft)
}

/// Adds the gates of an input value of a party, which has so many wires.
fn push_value(
    draft: &mut Draft,
    party: Party,
    k: u32,
    width: u32,
    keys: bool,
) -> Result<(), NoMemory>
    requires room { length draft.old.gates + gates_of_end keys * width ≤ most_gates }
    ensures { OnOk result (draft.new
        ≡ with_gates draft.old (value_gates keys (length draft.old.gates) party.0 k width)) }
{
    for at in 0..width {
        push_entered(draft, keys, 1, party, k, at)?;
    }
    Ok(())
}

/// The wires of so many input wires, in order.
fn entry_wires(alloc: Global, count: u32, keys: bool) -> Result<Vec<Wire>, NoMemory>
    requires { count ≤ most_wires }
    ensures { IfOk result (λ wires. wires.items ≡ each count (entry_wire keys)) }
{
    let mut wires = Vec::with_capacity(alloc, count as usize)?;
    for wire in 0..count {
        wires.push(entry_wire(wire, keys))?;
    }
    Ok(wires)
}

/// The wire of an input wire with a number.
fn entry_wire(wire: u32, keys: bool) -> Wire
    requires { wire < most_wires }
    ensures { result ≡ entry_wire keys wire }
{
    if keys {
        Wire {
            mask: 2 * wire,
            gate: 2 * wire + 1,
        }
    } else {
        Wire::single(wire)
    }
}

/// Adds the gates of one gate of a circuit, whose outputs are given their wires.
fn push_gate(
    draft: &mut Draft,
    wires: &mut [Wire],
    circuit: &Bristol,
    at: u32,
    keys: bool,
) -> Result<(), NoMemory>
    requires at { at < length circuit.now.gates }
    requires circuit { IsCircuit circuit.now }
    requires few { all_bristol_gates keys circuit.now ≤ most_gates }
    requires before { draft.old ≡ wired_draft keys draft.old.parties circuit.now at }
    requires wires { wires.old ≡ (wired_before keys draft.old.parties circuit.now at).wires }
    ensures next { OnOk result (draft.new ≡ wired_draft keys draft.old.parties circuit.now (at + 1)) }
    ensures given { OnOk result (wires.new
        ≡ (wired_before keys draft.old.parties circuit.now (at + 1)).wires) }
{
    let kind = circuit.kind(at);
    let ins = circuit.ins(at);
    let outs = circuit.outs(at);
    let first = draft.gates();
    let x = input_wire(wires, ins, 0);
    push_kind(draft, wires, kind, ins, outs.len(), keys)?;
    rewire(wires, outs, kind, x, first, keys);
    Ok(())
}

/// The wire of an input of a gate.
fn input_wire(wires: &[Wire], ins: &[u32], k: usize) -> Wire
    ensures { result ≡ wire_among wires.now (slice_index ins.now k) }
{
    wire_among(wires, word_in(ins, k))
}

/// An input of a gate as it stands, and 0 where there is none.
fn word_in(ins: &[u32], k: usize) -> u32
    ensures { result ≡ slice_index ins.now k }
{
    ins.get(k).copied().unwrap_or(0)
}

/// Adds the gates of a gate of a kind that has so many outputs.
fn push_kind(
    draft: &mut Draft,
    wires: &[Wire],
    kind: BristolKind,
    ins: &[u32],
    outs: usize,
    keys: bool,
) -> Result<(), NoMemory>
    requires constant { is_constant kind ≡ true → slice_index ins.now 0 < 2 }
    requires room { length draft.old.gates + gates_of_kind keys kind outs ≤ most_gates }
    ensures { OnOk result (draft.new ≡ with_gates draft.old
        (kind_gates keys kind (λ i. wire_among wires.now (slice_index ins.now i)) (slice_index ins.now 0) outs
        (length draft.old.gates))) }
{
    let x = input_wire(wires, ins, 0);
    let y = input_wire(wires, ins, 1);
    match kind {
        BristolKind::Xor => {
            push_xored(draft, keys, 1, x, y)?;
        }
        BristolKind::And => {
            push_anded(draft, keys, 1, x, y)?;
        }
        BristolKind::Inv => {
            push_flipped(draft, keys, x, bit(1))?;
        }
        BristolKind::Eq => {
            push_constant(draft, keys, bit(word_in(ins, 0)))?;
        }
        BristolKind::Eqw => {}
        BristolKind::Mand => push_ands(draft, wires, ins, outs, keys)?,
    }
    Ok(())
}

/// A vector of one bit.
fn bit(word: u32) -> Bits
    requires { word < 2 }
    ensures word { result.word ≡ word }
    ensures width { result.width ≡ 1 }
{
    Bits {
        word: u64::from(word),
        width: 1,
    }
}

/// Adds so many ANDs, of which the one at place `i` takes input `i` and that which stands so many places
/// behind it.
fn push_ands(
    draft: &mut Draft,
    wires: &[Wire],
    ins: &[u32],
    count: usize,
    keys: bool,
) -> Result<(), NoMemory>
    requires room { length draft.old.gates + gates_of_and keys * count ≤ most_gates }
    ensures { OnOk result (draft.new ≡ with_gates draft.old
        (ands_gates keys (λ i. wire_among wires.now (slice_index ins.now i)) count
        (length draft.old.gates) count)) }
{
    for i in 0..count {
        let x = input_wire(wires, ins, i);
        let y = input_wire(wires, ins, count + i);
        push_anded(draft, keys, 1, x, y)?;
    }
    Ok(())
}

/// Gives the outputs of a gate of a kind their wires, where `x` is the wire of its first input and `first`
/// the number of its first gate.
fn rewire(wires: &mut [Wire], outs: &[u32], kind: BristolKind, x: Wire, first: u32, keys: bool)
    requires range { list_all (λ w. nat_lt w (length wires.old)) outs.now ≡ true }
    requires few { first + 3 * length outs.now + 2 < 2 ^ 32 }
    ensures { wires.new ≡ rewired wires.old outs.now (output_wire keys kind x first) 0 }
{
    let mut place = 0;
    for out in outs {
        wires[*out as usize] = output_wire(kind, x, first, place, keys);
        place += 1;
    }
}

/// The wire of an output of a gate.
fn output_wire(kind: BristolKind, x: Wire, first: u32, place: u32, keys: bool) -> Wire
    requires { first + 3 * place + 2 < 2 ^ 32 }
    ensures { result ≡ output_wire keys kind x first place }
{
    match kind {
        BristolKind::Eqw => x,
        BristolKind::Inv if keys => Wire {
            mask: first,
            gate: x.gate,
        },
        BristolKind::And => and_wire(first, keys),
        BristolKind::Mand if keys => and_wire(first + 3 * place, keys),
        BristolKind::Mand => and_wire(first + place, keys),
        _ if keys => Wire {
            mask: first,
            gate: first + 1,
        },
        _ => Wire::single(first),
    }
}

/// The wire of an AND, whose first gate has a number.
fn and_wire(first: u32, keys: bool) -> Wire
    requires { first + 2 < 2 ^ 32 }
    ensures { (width : ℕ) (x y : Wire) → result ≡ (anded keys first width x y).wire }
{
    if keys {
        Wire {
            mask: first,
            gate: first + 2,
        }
    } else {
        Wire::single(first)
    }
}

/// Adds the gates of each output wire.
fn push_outputs(
    draft: &mut Draft,
    circuit: &Bristol,
    wires: &[Wire],
    keys: bool,
) -> Result<(), NoMemory>
    requires circuit { IsCircuit circuit.now }
    requires room { length draft.old.gates + gates_of_end keys * sum circuit.now.outputs ≤ most_gates }
    ensures { OnOk result (draft.new ≡ with_gates draft.old
        (output_gates keys wires.now (length draft.old.gates) (circuit.now.wires - sum circuit.now.outputs)
        (sum circuit.now.outputs))) }
{
    let first = circuit.wires() - circuit.output_wires();
    for place in 0..circuit.output_wires() {
        let x = wire_among(wires, first + place);
        push_told(draft, keys, 1, x, Receiver::All)?;
    }
    Ok(())
}
