//! The plain evaluation of a circuit: a bit for each wire.

ghost use Rattle.std.specs.Prelude.{◌≡◌, ◌<◌, ◌++◌, ℕ, [], false, true, nat_lt, length, take, sum, slice_index_or, IfOk, OnOk};
ghost use Rattle.std.specs.List.{flat_map, list_all};
ghost use Rattle.bristol_reader.specs.Kinds.{is_arity, output_bit};
ghost use Rattle.bristol_reader.specs.Circuit.{is_among, are_apart};
ghost use Rattle.bristol_reader.specs.Line.{input_bound, is_in_range};
ghost use Rattle.bristol_reader.specs.Table.{HaveInputWidths};
ghost use Rattle.bristol_reader.specs.Eval.{bit_at, input_bit, IsMet, AreWireBits, EachEvaluates, EvaluatesOnce};
ghost use Rattle.bristol_reader.specs.Stored.{a_gate, reads_none_of};

use crate::circuit::Bristol;
use crate::kind::BristolKind;
use circuit_tables::Values;
use mot_base::NoMemory;
use std::alloc::Global;

/// The bits of all wires, from the bits of the input values.
pub(crate) fn wire_bits(
    alloc: Global,
    circuit: &Bristol,
    values: &Values,
) -> Result<Vec<bool>, NoMemory>
    requires { HaveInputWidths circuit.now values.now }
    ensures { IfOk result (λ bits. AreWireBits circuit.now values.now bits.items) }
{
    let mut bits = first_bits(alloc, circuit, values)?;
    for at in 0..circuit.len() {
        set_outs(
            &mut bits,
            circuit.kind(at),
            circuit.ins(at),
            circuit.outs(at),
        );
    }
    Ok(bits)
}

/// The bits of the outputs are the same whatever the bits of the wires that no gate sets.
pub fn evaluates_once()
    ensures { EvaluatesOnce }
{}

/// Each circuit has a plain evaluation on values of its inputs.
pub fn each_circuit_evaluates()
    ensures { EachEvaluates }
{}

/// The bits of the input values on the first wires, and 0 on all others.
fn first_bits(alloc: Global, circuit: &Bristol, values: &Values) -> Result<Vec<bool>, NoMemory>
    requires { HaveInputWidths circuit.now values.now }
    ensures count { IfOk result (λ bits. length bits.items ≡ circuit.now.wires) }
    ensures given { IfOk result (λ bits.
        take (sum circuit.now.inputs) bits.items ≡ flat_map (λ v. v) values.now) }
{
    let mut bits = given_bits(alloc, circuit, values)?;
    bits.resize(circuit.wires() as usize, false)?;
    Ok(bits)
}

/// The bits of the input values, one value after another.
fn given_bits(alloc: Global, circuit: &Bristol, values: &Values) -> Result<Vec<bool>, NoMemory>
    requires { HaveInputWidths circuit.now values.now }
    ensures { IfOk result (λ bits. bits.items ≡ flat_map (λ v. v) values.now) }
{
    let widths = circuit.input_widths();
    let mut bits = Vec::with_capacity(alloc, circuit.wires() as usize)?;
    for input in 0..widths.len() {
        push_value(&mut bits, values, input, widths.width(input))?;
    }
    Ok(bits)
}

/// Adds the bits of an input value at the end.
fn push_value(bits: &mut Vec<bool>, values: &Values, input: u32, width: u32) -> Result<(), NoMemory>
    requires { length (slice_index_or values.now input []) ≡ width }
    ensures { OnOk result (bits.new.items ≡ bits.old.items ++ slice_index_or values.now input []) }
{
    for at in 0..width {
        bits.push(bit_of(values, input, at))?;
    }
    Ok(())
}

/// A bit of an input value.
fn bit_of(values: &Values, input: u32, at: u32) -> bool
    requires { at < length (slice_index_or values.now input []) }
    ensures { result ≡ slice_index_or (slice_index_or values.now input []) at false }
{
    values.bits(input, at, 1).word == 1
}

/// Gives each output wire of a gate the bit that the gate's kind makes of the bits of its inputs.
fn set_outs(bits: &mut [bool], kind: BristolKind, ins: &[u32], outs: &[u32])
    requires arity { is_arity kind (length ins.now) (length outs.now) ≡ true }
    requires range { is_in_range (length bits.old) (a_gate kind ins.now outs.now) ≡ true }
    requires apart { are_apart outs.now ≡ true }
    requires others { reads_none_of (a_gate kind ins.now outs.now) ≡ true }
    ensures met { IsMet bits.new (a_gate kind ins.now outs.now) }
    ensures kept { (w : ℕ) → is_among outs.now w ≡ false → bit_at bits.new w ≡ bit_at bits.old w }
{
    for (i, out) in outs.iter().enumerate() {
        let bit = output_bit(bits, kind, ins, outs.len(), i);
        bits[*out as usize] = bit;
    }
}

/// The bit of an output of a gate that has so many outputs.
fn output_bit(bits: &[bool], kind: BristolKind, ins: &[u32], outs: usize, i: usize) -> bool
    requires arity { is_arity kind (length ins.now) outs ≡ true }
    requires range { list_all (λ x. nat_lt x (input_bound kind (length bits.now))) ins.now ≡ true }
    requires i { i < outs }
    ensures { result ≡ output_bit kind (input_bit bits.now (a_gate kind ins.now [])) outs i }
{
    match kind {
        BristolKind::Xor => bits[ins[0] as usize] != bits[ins[1] as usize],
        BristolKind::And => bits[ins[0] as usize] && bits[ins[1] as usize],
        BristolKind::Inv => !bits[ins[0] as usize],
        BristolKind::Eq => ins[0] == 1,
        BristolKind::Eqw => bits[ins[0] as usize],
        BristolKind::Mand => bits[ins[i] as usize] && bits[ins[outs + i] as usize],
    }
}
