//! The command `plain`: the plain evaluation of a circuit.

ghost use Rattle.std.specs.Prelude.{◌≡◌, ◌≤◌, ◌⊎◌, length, None, OnOk, IfOk, IfErr, string_bytes};
ghost use Rattle.mot_base.specs.Faults.{Rose};
ghost use Rattle.mot_base.specs.Limits.{most_file_bytes};
ghost use Rattle.circuit_tables.specs.Values.{HaveWidths};
ghost use Rattle.cli_words.specs.Request.{plain_request};
ghost use Rattle.command_ends.specs.Outcome.{memory, reported};
ghost use Rattle.command_ends.specs.Refusal.{outcome_of, came_to};
ghost use Rattle.any_circuit.specs.Circuits.{circuit_of, notation_of, inputs_of};
ghost use Rattle.motion_cli.specs.Commands.{HasTooMany, gates_refused, PlainReads, PlainEnds, Reports};
ghost use Rattle.motion_cli.specs.Report.{output_lines};

use crate::commands::{circuit_of, values_of};
use crate::report::report_all;
use any_circuit::Circuit;
use circuit_values::Values;
use cli_words::PlainWords;
use command_ends::{Refusal, load_both};
use mot_base::{Files, MAX_GATES, NoMemory};
use std::alloc::Global;

/// The report of `plain`: each output of the plain evaluation.
pub(crate) fn plain_report<'a, F: Files>(
    alloc: Global,
    words: &'a PlainWords,
    files: &mut F,
) -> Result<String, Refusal<'a>>
    ensures came { PlainEnds (F.holds files.old) (Rose (F.faults files.old) (F.faults files.new))
        (plain_request words.entry.now) (came_to result)
        ⊎ (came_to result ≡ memory) }
    ensures same { F.holds files.new ≡ F.holds files.old }
    ensures never_falls { F.faults files.old ≤ F.faults files.new }
{
    let (circuit, values) = load_both(alloc, files, words.circuit.as_str(), words.values.as_str())?;
    plain_of_texts(alloc, words, circuit, values)
}

/// The same, once both files are loaded. Each text is dropped as soon as it is read.
fn plain_of_texts<'a>(
    alloc: Global,
    words: &'a PlainWords,
    circuit: Vec<u8>,
    values: Vec<u8>,
) -> Result<String, Refusal<'a>>
    requires circuit { length circuit.items ≤ most_file_bytes }
    requires values { length values.items ≤ most_file_bytes }
    ensures { PlainReads (plain_request words.entry.now) circuit.items values.items (came_to result)
        ⊎ (came_to result ≡ memory) }
{
    let circuit = circuit_of(alloc, words.circuit.as_str(), words.bristol, circuit)?;
    judge_gates(words.circuit.as_str(), &circuit)?;
    let values = values_of(alloc, words.values.as_str(), &circuit, values)?;
    Ok(evaluate_and_report(alloc, &circuit, &values)?)
}

/// Refuses a circuit that has too many gates.
fn judge_gates<'a>(name: &'a str, circuit: &Circuit) -> Result<(), Refusal<'a>>
    ensures few { OnOk result (¬ (HasTooMany (circuit_of circuit.now))) }
    ensures err { IfErr result (λ refusal. HasTooMany (circuit_of circuit.now)
        × (outcome_of refusal ≡ gates_refused name.entry.now (circuit_of circuit.now))) }
{
    let gates = circuit.gates();
    if gates > u64::from(MAX_GATES) {
        return Err(Refusal::Gates { name, gates });
    }
    Ok(())
}

/// Evaluates a circuit, and reports its outputs.
fn evaluate_and_report(
    alloc: Global,
    circuit: &Circuit,
    values: &Values,
) -> Result<String, NoMemory>
    requires { HaveWidths None (inputs_of (circuit_of circuit.now)) values.now }
    ensures { IfOk result (λ text. Reports (circuit_of circuit.now) values.now
        (output_lines (notation_of (circuit_of circuit.now))) (reported (string_bytes text))) }
{
    let outputs = circuit.evaluate(alloc, values)?;
    report_all(alloc, circuit.notation(), &outputs)
}
