ghost use Rattle.std.specs.Prelude.{◌≡◌, ℕ, ◌<◌, ◌≤◌, ◌+◌, ◌^◌, ◌↔◌, true, false, [], ◌∷◌, ◌++◌, length, take, slice_get, option_map, Some, IfOk, IfSome, OnOk, IsErrOf};
ghost use Rattle.mot_base.specs.Limits.{least_parties, most_parties, most_width, most_gates};
ghost use Rattle.mixed_language.specs.Circuit.{shape_of};
ghost use Rattle.mixed_language.specs.Valid.{IsCircuit};
ghost use Rattle.mixed_language.specs.Table.{inputs_of};
ghost use Rattle.gate_plan.specs.Lowering.{gates_of, gates_in, all_gates, lowered_to, draft_to, lowered};
ghost use Rattle.gate_plan.specs.Keeps.{KeepsEvaluation, PartsExist};

use crate::error::PlanError;
use crate::statement::{
    Setting, inputs_taken, is_keys, operand_width, operand_wire, operands_of, push_block,
    wire_handled,
};
use crate::wire::Wire;
use mixed_language::{Form, Mixed};
use mot_base::{MAX_GATES, NoMemory};
use plan_gates::{Draft, Plan};
use std::alloc::Global;

/// The gates of an adder of two words that are shared as keys.
const ADDER_GATES: u64 = 1073;

/// The gates of a circuit. `TooManyGates` comes exactly where it has too many.
pub fn lower_mixed(alloc: Global, circuit: &Mixed) -> Result<Plan, PlanError>
    ensures plan { IfOk result (λ plan. plan ≡ lowered circuit.now) }
    ensures count { IfOk result (λ plan. length plan.gates ≡ all_gates circuit.now) }
    ensures keeps { IfOk result (λ plan. KeepsEvaluation circuit.now plan) }
    ensures too_many { (gates : ℕ) → IsErrOf result (PlanError.TooManyGates gates) ↔
        ((most_gates < all_gates circuit.now) × (gates ≡ all_gates circuit.now)) }
{
    let gates = lowered_gates(circuit);
    if gates > u64::from(MAX_GATES) {
        return Err(PlanError::TooManyGates { gates });
    }
    let plan = lower_few(alloc, circuit)?;
    Ok(plan)
}

/// Every plan has lawful parts of the values that its parties enter, on all inputs.
pub fn parts_exist()
    ensures { PartsExist }
{}

/// How many gates a circuit has, all statements included. It takes no memory.
pub fn lowered_gates(circuit: &Mixed) -> u64
    ensures { result ≡ all_gates circuit.now }
{
    let mut gates = 0;
    for at in 0..circuit.len() {
        gates += gates_in(circuit, at);
    }
    gates
}

/// How many gates a statement has.
fn gates_in(circuit: &Mixed, at: u32) -> u64
    requires { at < length circuit.now.statements }
    ensures value { result
        ≡ gates_in circuit.now.parties circuit.now.statements (slice_get circuit.now.statements at) }
    ensures few { result < 2 ^ 14 }
{
    gates_of(
        circuit.parties(),
        circuit.form(at),
        is_keys(wire_handled(circuit, at)),
    )
}

/// How many gates a statement of that form has among so many parties, where its value or what it tells is
/// shared as keys or not.
fn gates_of(parties: u8, form: Form, keys: bool) -> u64
    requires some { least_parties ≤ parties }
    requires most { parties ≤ most_parties }
    ensures value { result ≡ gates_of parties (shape_of form).operation keys }
    ensures few { result < 2 ^ 14 }
{
    let parties = u64::from(parties);
    match form {
        Form::A2Y { .. } => 2 * parties + ADDER_GATES * (parties - 1),
        Form::A2B { .. } => 2 * parties + ADDER_GATES * (parties - 1) + 1,
        Form::B2Y { .. } => 2 * parties + 2 * (parties - 1),
        Form::Y2A { .. } => 2,
        Form::AndB { .. } | Form::AndY { .. } if keys => 3,
        Form::InputB { .. }
        | Form::InputY { .. }
        | Form::ConstB { .. }
        | Form::ConstY { .. }
        | Form::XorB { .. }
        | Form::XorY { .. }
        | Form::SliceB { .. }
        | Form::SliceY { .. }
        | Form::JoinB { .. }
        | Form::JoinY { .. }
        | Form::Output { .. }
            if keys => { 2 }
        _ => 1,
    }
}

/// The gates of a circuit which are not too many.
fn lower_few(alloc: Global, circuit: &Mixed) -> Result<Plan, NoMemory>
    requires few { all_gates circuit.now ≤ most_gates }
    ensures plan { IfOk result (λ plan. plan ≡ lowered circuit.now) }
    ensures count { IfOk result (λ plan. length plan.gates ≡ all_gates circuit.now) }
    ensures keeps { IfOk result (λ plan. KeepsEvaluation circuit.now plan) }
{
    let mut draft = Draft::new(alloc, circuit.parties());
    let mut wires = Vec::with_capacity(alloc, circuit.len() as usize)?;
    let mut inputs = 0;
    for at in 0..circuit.len() {
        let wire = push_statement(&mut draft, circuit, at, inputs, &wires)?;
        wires.push(wire)?;
        inputs += inputs_taken(circuit.form(at));
    }
    Plan::of(alloc, draft)
}

/// Adds the gates of one statement, and gives the wire of its value, or of what it tells.
fn push_statement(
    draft: &mut Draft,
    circuit: &Mixed,
    at: u32,
    inputs: u32,
    wires: &[Wire],
) -> Result<Wire, NoMemory>
    requires at { at < length circuit.now.statements }
    requires circuit { IsCircuit circuit.now }
    requires few { all_gates circuit.now ≤ most_gates }
    requires before { draft.old ≡ draft_to circuit.now at }
    requires wires { wires.now ≡ (lowered_to circuit.now at).wires }
    requires inputs { inputs ≡ length (inputs_of (take at circuit.now.statements)) }
    ensures next { OnOk result (draft.new ≡ draft_to circuit.now (at + 1)) }
    ensures given { IfOk result (λ wire. wires.now ++ wire ∷ [] ≡ (lowered_to circuit.now (at + 1)).wires) }
{
    let form = circuit.form(at);
    let (first, second) = operands_of(form);
    let setting = Setting {
        parties: circuit.parties(),
        x: operand_wire(wires, first),
        y: operand_wire(wires, second),
        k: inputs,
        low: operand_width(circuit, first),
    };
    match wire_handled(circuit, at) {
        Some(wire) => push_block(draft, form, wire, setting),
        None => unreachable!(),
    }
}
