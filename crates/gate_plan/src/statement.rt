//! The gates of a statement.

ghost use Rattle.std.specs.Prelude.{◌≡◌, ◌<◌, ◌≤◌, ◌+◌, ◌-◌, ◌^◌, true, None, length, slice_get, slice_index, Some, IfOk, IfSome, OnOk, if◌then◌else◌};
ghost use Rattle.mot_base.specs.Limits.{least_parties, most_parties, most_width, most_gates};
ghost use Rattle.mixed_language.specs.declared.language.Operation.TheVariants.{ConstBits};
ghost use Rattle.mixed_language.specs.Circuit.{shape_of};
ghost use Rattle.share_types.specs.Wires.{width_of};
ghost use Rattle.mixed_language.specs.Valid.{AreEarlier};
ghost use Rattle.mixed_language.specs.Eval.{inputs_taken, operand_width};
ghost use Rattle.mixed_language.specs.Wide.{IsWide};
ghost use Rattle.plan_gates.specs.Gate.{OutA, OutB, YToB, kind_of, stated_width};
ghost use Rattle.plan_gates.specs.Plan.{with_gates};
ghost use Rattle.gate_plan.specs.Statements.{block_in};
ghost use Rattle.gate_plan.specs.Lowering.{word_bits, number_of_bits, width_handled, handled_by, wire_handled, is_keys, is_word, block_of, operand_wire, source_from};

use crate::block::{
    push_anded, push_constant, push_entered, push_flipped, push_joined, push_sliced, push_told,
    push_xored,
};
use crate::convert::{Parts, push_parts};
use crate::wire::{Wire, push_one, wire_among};
use circuit_tables::Receiver;
use mixed_language::{Form, Mixed};
use mot_base::NoMemory;
use plan_gates::{Draft, GateKind};
use share_types::{Bits, WireType};

/// How the value of a statement is shared, or the value that it tells.
pub fn wire_handled(circuit: &Mixed, at: u32) -> Option<WireType>
    requires { at < length circuit.now.statements }
    ensures value { IfSome (slice_get circuit.now.statements at) (λ s.
        result ≡ wire_handled circuit.now.statements s) }
    ensures wide { IfSome result (λ wire. IsWide wire) }
{
    circuit.wire(place_handled(circuit.form(at), at))
}

/// The place of the value that an output tells, and the statement's own place for all else.
fn place_handled(form: Form, at: u32) -> u32
    requires { AreEarlier at (shape_of form).operands }
    ensures place { result
        ≡ handled_by (shape_of form).operation (slice_index (shape_of form).operands 0) at }
    ensures earlier { result ≤ at }
{
    match form {
        Form::Output { x, .. } => x,
        _ => at,
    }
}

/// How many inputs a statement of that form takes: 1 where it is one, else 0.
pub fn inputs_taken(form: Form) -> u32
    ensures value { result ≡ inputs_taken (shape_of form) }
    ensures most { result ≤ 1 }
{
    match form {
        Form::InputA { .. } | Form::InputB { .. } | Form::InputY { .. } => 1,
        _ => 0,
    }
}

/// The places of the first and the second operand of a statement, where it has them.
pub fn operands_of(form: Form) -> (Option<u32>, Option<u32>)
    ensures first { result.0 ≡ slice_get (shape_of form).operands 0 }
    ensures second { result.1 ≡ slice_get (shape_of form).operands 1 }
{
    match form {
        Form::InputA { .. }
        | Form::InputB { .. }
        | Form::InputY { .. }
        | Form::ConstA { .. }
        | Form::ConstB { .. }
        | Form::ConstY { .. } => (None, None),
        Form::AddA { x, y }
        | Form::SubA { x, y }
        | Form::MulA { x, y }
        | Form::XorB { x, y }
        | Form::XorY { x, y }
        | Form::AndB { x, y }
        | Form::AndY { x, y }
        | Form::JoinB { x, y }
        | Form::JoinY { x, y } => (Some(x), Some(y)),
        Form::AddConstA { x, .. }
        | Form::MulConstA { x, .. }
        | Form::NotB { x }
        | Form::NotY { x }
        | Form::SliceB { x, .. }
        | Form::SliceY { x, .. }
        | Form::A2Y { x }
        | Form::A2B { x }
        | Form::B2Y { x }
        | Form::Y2B { x }
        | Form::B2A { x }
        | Form::Y2A { x }
        | Form::Output { x, .. } => (Some(x), None),
    }
}

/// The wire of the value at the place of an operand, and that of gate 0 where there is none.
pub fn operand_wire(wires: &[Wire], place: Option<u32>) -> Wire
    ensures { result ≡ operand_wire wires.now place }
{
    match place {
        Some(at) => wire_among(wires, at),
        None => Wire::single(0),
    }
}

/// Whether a value is shared as keys.
pub fn is_keys(wire: Option<WireType>) -> bool
    ensures { result ≡ is_keys wire }
{
    matches!(wire, Some(WireType::Y(_)))
}

/// The width of the value at the place of an operand, and 0 without one.
pub fn operand_width(circuit: &Mixed, place: Option<u32>) -> u8
    requires { IfSome place (λ at. at < length circuit.now.statements) }
    ensures { result ≡ operand_width circuit.now.statements place }
{
    match place {
        Some(at) => width_of(circuit.wire(at)),
        None => 0,
    }
}

/// The width of a value, and 0 without one.
fn width_of(wire: Option<WireType>) -> u8
    requires { IfSome wire (λ w. IsWide w) }
    ensures { result ≡ width_handled wire }
{
    match wire {
        Some(wire) => wire.width(),
        None => 0,
    }
}

/// What the gates of a statement are made of beside its form: how many parties there are, the wires of its
/// operands, the number of its input, and the width of its first operand.
#[derive(Clone, Copy, Debug)]
pub struct Setting {
    pub parties: u8,
    pub x: Wire,
    pub y: Wire,
    pub k: u32,
    pub low: u8,
}

/// Adds the gates of a statement, and gives the wire of its value: `wire` is how its value is shared, or the
/// value that it tells.
pub fn push_block(
    draft: &mut Draft,
    form: Form,
    wire: WireType,
    setting: Setting,
) -> Result<Wire, NoMemory>
    requires wide { IsWide wire }
    requires some { least_parties ≤ setting.parties }
    requires most { setting.parties ≤ most_parties }
    requires constant { (shape_of form).operation ≡ ConstBits → (shape_of form).width ≡ width_of wire }
    requires room { length draft.old.gates
        + length (block_in setting form wire (length draft.old.gates)).gates ≤ most_gates }
    ensures next { OnOk result (draft.new ≡ with_gates draft.old
        (block_in setting form wire (length draft.old.gates)).gates) }
    ensures given { IfOk result (λ given. given ≡ (block_in setting form wire (length draft.old.gates)).wire) }
{
    let width = wire.width();
    let keys = is_keys(Some(wire));
    let Setting {
        parties,
        x,
        y,
        k,
        low,
    } = setting;
    match form {
        Form::InputB { party, .. } | Form::InputY { party, .. } => {
            push_entered(draft, keys, width, party, k, 0)
        }
        Form::ConstB { c } | Form::ConstY { c } => push_constant(draft, keys, c),
        Form::XorB { .. } | Form::XorY { .. } => push_xored(draft, keys, width, x, y),
        Form::AndB { .. } | Form::AndY { .. } => push_anded(draft, keys, width, x, y),
        Form::NotB { .. } | Form::NotY { .. } => push_flipped(draft, keys, x, Bits::ones(width)),
        Form::SliceB { at, .. } | Form::SliceY { at, .. } => push_sliced(draft, keys, width, x, at),
        Form::JoinB { .. } | Form::JoinY { .. } => push_joined(draft, keys, width, x, y),
        Form::A2Y { .. } => push_parts(draft, parties, Parts::Word { x: x.gate }),
        Form::A2B { .. } => push_word_bits(draft, parties, x.gate, width),
        Form::B2Y { .. } => push_parts(draft, parties, Parts::Vector { x: x.gate, width }),
        Form::Y2B { .. } => push_one(draft, to_vector(x), width),
        Form::B2A { .. } => push_one(draft, GateKind::BToA { x: x.gate }, width),
        Form::Y2A { .. } => push_number(draft, x, low, width),
        Form::Output { to, .. } if keys => push_told(draft, keys, width, x, to),
        Form::Output { to, .. } => push_one(draft, output(x.gate, to, wire), width),
        Form::InputA { party } => push_one(draft, GateKind::InA { party, k }, width),
        Form::ConstA { c } => push_one(draft, GateKind::ConstA { c }, width),
        Form::AddA { .. } => push_one(
            draft,
            GateKind::AddA {
                x: x.gate,
                y: y.gate,
            },
            width,
        ),
        Form::SubA { .. } => push_one(
            draft,
            GateKind::SubA {
                x: x.gate,
                y: y.gate,
            },
            width,
        ),
        Form::MulA { .. } => push_one(
            draft,
            GateKind::MulA {
                x: x.gate,
                y: y.gate,
            },
            width,
        ),
        Form::AddConstA { c, .. } => push_one(draft, GateKind::AddConstA { x: x.gate, c }, width),
        Form::MulConstA { c, .. } => push_one(draft, GateKind::MulConstA { x: x.gate, c }, width),
    }
}

/// Adds the gates of the bits of the word of a gate.
fn push_word_bits(draft: &mut Draft, parties: u8, x: u32, width: u8) -> Result<Wire, NoMemory>
    requires some { least_parties ≤ parties }
    requires most { parties ≤ most_parties }
    requires room { length draft.old.gates
        + length (word_bits parties x width (length draft.old.gates)).gates ≤ most_gates }
    ensures next { OnOk result (draft.new ≡ with_gates draft.old
        (word_bits parties x width (length draft.old.gates)).gates) }
    ensures given { IfOk result (λ given. given ≡ (word_bits parties x width (length draft.old.gates)).wire) }
{
    let sum = push_parts(draft, parties, Parts::Word { x })?;
    push_one(draft, to_vector(sum), width)
}

/// Adds the gates of the number of a wire of so many bits as a word.
fn push_number(draft: &mut Draft, x: Wire, low: u8, width: u8) -> Result<Wire, NoMemory>
    requires room { length draft.old.gates + 2 ≤ most_gates }
    ensures next { OnOk result (draft.new ≡ with_gates draft.old
        (number_of_bits x low width (length draft.old.gates)).gates) }
    ensures given { IfOk result (λ given. given ≡ (number_of_bits x low width (length draft.old.gates)).wire) }
{
    let bits = push_one(draft, to_vector(x), low)?;
    push_one(draft, GateKind::BToA { x: bits.gate }, width)
}

/// The gate that makes a vector of a wire that is shared as keys.
fn to_vector(x: Wire) -> GateKind
    ensures kind { kind_of result ≡ YToB x.mask x.gate }
    ensures stated { stated_width result ≡ None }
{
    GateKind::YToB {
        m: x.mask,
        o: x.gate,
    }
}

/// The output gate of a value that is shared so.
fn output(x: u32, to: Receiver, wire: WireType) -> GateKind
    ensures kind { kind_of result ≡ (if is_word (Some wire) then OutA x to else OutB x to) }
    ensures stated { stated_width result ≡ None }
{
    match wire {
        WireType::A => GateKind::OutA { x, to },
        WireType::B(_) | WireType::Y(_) => GateKind::OutB { x, to },
    }
}
