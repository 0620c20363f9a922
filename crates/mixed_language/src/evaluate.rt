//! The plain evaluation of a circuit: the number of each statement's value.

ghost use Rattle.std.specs.Prelude.{◌≡◌, ◌<◌, ◌≤◌, ◌-◌, ◌*◌, ◌/◌, ◌%◌, ◌^◌, [], length, slice_get, slice_index, IfOk, IfSome, bit_xor};
ghost use Rattle.mot_base.specs.Limits.{most_width};
ghost use Rattle.mixed_language.specs.Circuit.{shape_of};
ghost use Rattle.mixed_language.specs.Valid.{AreEarlier};
ghost use Rattle.mixed_language.specs.Table.{inputs_of, owner_of, width_at};
ghost use Rattle.mixed_language.specs.Eval.{number_made, value_made, seen_of, width_given_by, value_of_statement, IsEvaluated, EachEvaluates, EvaluatesOnce, inputs_taken};

use crate::circuit::Mixed;
use crate::form::Form;
use mot_base::{MAX_WIDTH, NoMemory};
use std::alloc::Global;

/// The values of a circuit's statements, from the numbers of its inputs in order.
pub(crate) fn values_of(
    alloc: Global,
    circuit: &Mixed,
    inputs: &[u64],
) -> Result<Vec<u64>, NoMemory>
    ensures { IfOk result (λ values. IsEvaluated circuit.now.statements inputs.now values.items) }
{
    let mut values = Vec::with_capacity(alloc, circuit.len() as usize)?;
    let mut taken = 0;
    for at in 0..circuit.len() {
        let input = number_at(inputs, taken);
        let value = value_of(circuit, at, input, values.as_slice());
        values.push(value)?;
        taken += inputs_taken(circuit.form(at));
    }
    Ok(values)
}

/// No two lists of numbers are the values of the same statements on the same inputs.
pub fn evaluates_once()
    ensures { EvaluatesOnce }
{}

/// Each circuit has a plain evaluation, on whatever values of its inputs.
pub fn each_circuit_evaluates()
    ensures { EachEvaluates }
{}

/// The number at a place, and 0 where there is none.
fn number_at(numbers: &[u64], at: usize) -> u64
    ensures { result ≡ slice_index numbers.now at }
{
    numbers.get(at).copied().unwrap_or(0)
}

/// How many inputs a statement of that form takes: 1 where it is one, else 0.
fn inputs_taken(form: Form) -> usize
    ensures value { result ≡ inputs_taken (shape_of form) }
    ensures most { result ≤ 1 }
{
    match form {
        Form::InputA { .. } | Form::InputB { .. } | Form::InputY { .. } => 1,
        _ => 0,
    }
}

/// The value of the statement at a place, from the number of its input, if it is one, and the values before
/// it.
fn value_of(circuit: &Mixed, at: u32, input: u64, before: &[u64]) -> u64
    requires at { at < length circuit.now.statements }
    requires before { length before.now ≡ at }
    ensures { IfSome (slice_get circuit.now.statements at) (λ s.
        result ≡ value_made s.shape.operation
        (seen_of circuit.now.statements s.shape input before.now (width_given_by s))) }
{
    let form = circuit.form(at);
    let width = width_given(circuit, at);
    low_bits(number_made(circuit, form, input, before, width), width)
}

/// The width of what a statement gives: that of its value. An output gives the number that is told as it is.
fn width_given(circuit: &Mixed, at: u32) -> u8
    requires { at < length circuit.now.statements }
    ensures value { IfSome (slice_get circuit.now.statements at) (λ s. result ≡ width_given_by s) }
    ensures most { result ≤ most_width }
{
    match circuit.wire(at) {
        Some(wire) => wire.width(),
        None => MAX_WIDTH,
    }
}

/// How many bits the value at a place has.
pub(crate) fn width_at(circuit: &Mixed, at: u32) -> u8
    requires { at < length circuit.now.statements }
    ensures value { result ≡ width_at circuit.now.statements at }
    ensures most { result ≤ most_width }
{
    match circuit.wire(at) {
        Some(wire) => wire.width(),
        None => 0,
    }
}

/// The number that an operation makes, modulo 2^64.
fn number_made(circuit: &Mixed, form: Form, input: u64, before: &[u64], width: u8) -> u64
    requires operands { AreEarlier (length before.now) (shape_of form).operands }
    requires before { length before.now ≤ length circuit.now.statements }
    requires width { width ≤ most_width }
    ensures { result ≡ number_made (shape_of form).operation
        (seen_of circuit.now.statements (shape_of form) input before.now width) % 2 ^ 64 }
{
    match form {
        Form::InputA { .. } | Form::InputB { .. } | Form::InputY { .. } => input,
        Form::ConstA { c } => c,
        Form::ConstB { c } | Form::ConstY { c } => c.word,
        Form::AddA { x, y } => before[x as usize].wrapping_add(before[y as usize]),
        Form::SubA { x, y } => before[x as usize].wrapping_sub(before[y as usize]),
        Form::MulA { x, y } => before[x as usize].wrapping_mul(before[y as usize]),
        Form::AddConstA { x, c } => before[x as usize].wrapping_add(c),
        Form::MulConstA { x, c } => before[x as usize].wrapping_mul(c),
        Form::XorB { x, y } | Form::XorY { x, y } => {
            differing(before[x as usize], before[y as usize])
        }
        Form::AndB { x, y } | Form::AndY { x, y } => before[x as usize] & before[y as usize],
        Form::NotB { x } | Form::NotY { x } => flipped(before[x as usize], width),
        Form::SliceB { x, at, .. } | Form::SliceY { x, at, .. } => {
            shifted_down(before[x as usize], at)
        }
        Form::JoinB { x, y } | Form::JoinY { x, y } => {
            let low = width_at(circuit, x);
            before[x as usize].wrapping_add(shifted_up(before[y as usize], low))
        }
        Form::A2Y { x }
        | Form::A2B { x }
        | Form::B2Y { x }
        | Form::Y2B { x }
        | Form::B2A { x }
        | Form::Y2A { x }
        | Form::Output { x, .. } => before[x as usize],
    }
}

/// The bits in which two numbers differ.
fn differing(x: u64, y: u64) -> u64
    ensures { result ≡ bit_xor x y % 2 ^ 64 }
{
    x ^ y
}

/// A number with its lowest bits turned, as many as the width.
fn flipped(x: u64, width: u8) -> u64
    requires { width ≤ most_width }
    ensures { result ≡ bit_xor x (2 ^ width - 1) % 2 ^ 64 }
{
    x ^ ones(width)
}

/// The number whose lowest bits are 1, as many as the width, and no others.
fn ones(width: u8) -> u64
    requires { width ≤ most_width }
    ensures { result ≡ 2 ^ width - 1 }
{
    shifted_down(u64::MAX, MAX_WIDTH - width)
}

/// The lowest bits of a number, as many as the width.
fn low_bits(x: u64, width: u8) -> u64
    requires { width ≤ most_width }
    ensures { result ≡ x % 2 ^ width }
{
    x & ones(width)
}

/// The bits of a number from a place on.
fn shifted_down(x: u64, places: u8) -> u64
    ensures { result ≡ x / 2 ^ places }
{
    x.checked_shr(u32::from(places)).unwrap_or(0)
}

/// The bits of a number, moved up to a place, modulo 2^64.
fn shifted_up(x: u64, places: u8) -> u64
    ensures { result ≡ 2 ^ places * x % 2 ^ 64 }
{
    x.checked_shl(u32::from(places)).unwrap_or(0)
}
