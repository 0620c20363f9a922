//! The steps that commands have in common: a circuit, its plan and its values are had, or refused.

ghost use Rattle.std.specs.Prelude.{◌≡◌, ◌≤◌, ◌⊎◌, length, true, false, codes, None, option_map, IfOk, IfErr};
ghost use Rattle.mot_base.specs.Limits.{most_file_bytes};
ghost use Rattle.circuit_values.specs.declared.cause.ValuesCause.{ValuesCause};
ghost use Rattle.circuit_values.specs.Values.{ReadsValues};
ghost use Rattle.circuit_tables.specs.Values.{HaveWidths};
ghost use Rattle.circuit_values.specs.Values as values;
ghost use Rattle.local_run.specs.Inputs.{TakesInputs};
ghost use Rattle.command_ends.specs.declared.fault.CircuitFault.{CircuitFault};
ghost use Rattle.any_circuit.specs.Circuits as any;
ghost use Rattle.any_circuit.specs.Circuits.{circuit_of, Reads, FirstFault, inputs_of, plan_of, Keeps};
ghost use Rattle.motion_cli.specs.Commands.{HasTooMany, gates_refused};
ghost use Rattle.command_ends.specs.Outcome.{line, at_line, memory, circuit_refused, values_refused};
ghost use Rattle.command_ends.specs.Refusal.{outcome_of, circuit_cause, values_cause};
ghost use Rattle.command_ends.specs.Steps.{Fault};
ghost use Rattle.cli_words.specs.Request.{bristol_of};

use any_circuit::{Circuit, ReadError, read_circuit};
use circuit_values::{Values, ValuesError, read_values};
use cli_words::BristolWords;
use command_ends::Refusal;
use gate_plan::{Plan, PlanError};
use std::alloc::Global;

/// The plan of a circuit.
pub(crate) fn plan_of<'a>(
    alloc: Global,
    name: &'a str,
    circuit: &Circuit,
) -> Result<Plan, Refusal<'a>>
    ensures plan { IfOk result (λ plan. plan ≡ plan_of (circuit_of circuit.now)) }
    ensures keeps { IfOk result (λ plan. Keeps (circuit_of circuit.now) plan) }
    ensures takes { IfOk result (λ plan. TakesInputs (inputs_of (circuit_of circuit.now)) plan) }
    ensures few { IfOk result (λ plan. ¬ (HasTooMany (circuit_of circuit.now))) }
    ensures err { IfErr result (λ refusal.
        (HasTooMany (circuit_of circuit.now)
        × (outcome_of refusal ≡ gates_refused name.entry.now (circuit_of circuit.now)))
        ⊎ (outcome_of refusal ≡ memory)) }
{
    match circuit.plan(alloc) {
        Ok(plan) => Ok(plan),
        Err(PlanError::TooManyGates { gates }) => Err(Refusal::Gates { name, gates }),
        Err(PlanError::NoMemory) => Err(Refusal::Memory),
    }
}

/// Reads the text of a circuit's file, and drops it.
pub(crate) fn circuit_of<'a>(
    alloc: Global,
    name: &'a str,
    bristol: Option<BristolWords>,
    text: Vec<u8>,
) -> Result<Circuit, Refusal<'a>>
    requires { length text.items ≤ most_file_bytes }
    ensures ok { IfOk result (λ circuit.
        Reads (option_map bristol_of bristol) text.items (circuit_of circuit)) }
    ensures err { IfErr result (λ refusal.
        ((fault : Fault CircuitFault)
        × FirstFault (option_map bristol_of bristol) text.items fault.line fault.cause
        × (outcome_of refusal
        ≡ circuit_refused name.entry.now (at_line fault.line (circuit_cause fault.cause))))
        ⊎ (outcome_of refusal ≡ memory)) }
{
    match read_circuit(alloc, bristol, text.as_slice()) {
        Ok(circuit) => Ok(circuit),
        Err(ReadError::At { line, cause }) => Err(Refusal::Circuit { name, line, cause }),
        Err(ReadError::NoMemory) => Err(Refusal::Memory),
    }
}

/// Reads the text of the file of the values of a circuit's inputs, and drops it.
pub(crate) fn values_of<'a>(
    alloc: Global,
    name: &'a str,
    circuit: &Circuit,
    text: Vec<u8>,
) -> Result<Values, Refusal<'a>>
    requires { length text.items ≤ most_file_bytes }
    ensures ok { IfOk result (λ read. ReadsValues (inputs_of (circuit_of circuit.now)) None text.items read) }
    ensures widths { IfOk result (λ read. HaveWidths None (inputs_of (circuit_of circuit.now)) read) }
    ensures err { IfErr result (λ refusal.
        ((fault : Fault ValuesCause)
        × values.FirstFault (inputs_of (circuit_of circuit.now)) None text.items fault.line fault.cause
        × (outcome_of refusal
        ≡ values_refused name.entry.now (at_line fault.line (values_cause fault.cause))))
        ⊎ (outcome_of refusal ≡ memory)) }
{
    let inputs = circuit.inputs(alloc)?;
    match read_values(alloc, text.as_slice(), &inputs, None) {
        Ok(values) => Ok(values),
        Err(ValuesError::At { line, cause }) => Err(Refusal::Values { name, line, cause }),
        Err(ValuesError::NoMemory) => Err(Refusal::Memory),
    }
}
