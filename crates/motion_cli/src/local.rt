//! The command `local`: all parties of a circuit in one process.

ghost use Rattle.std.specs.Prelude.{◌≡◌, ◌≤◌, ◌⊎◌, length, map, true, false, codes, None, option_map, OnOk, IfOk, IfErr, string_bytes};
ghost use Rattle.mot_base.specs.Faults.{Rose};
ghost use Rattle.mot_base.specs.Limits.{most_file_bytes};
ghost use Rattle.cli_words.specs.Request.{local_request};
ghost use Rattle.circuit_tables.specs.Values.{HaveWidths};
ghost use Rattle.local_run.specs.Inputs.{TakesInputs};
ghost use Rattle.local_run.specs.OneSeed.{ServeAll};
ghost use Rattle.any_circuit.specs.Circuits as any;
ghost use Rattle.any_circuit.specs.Circuits.{circuit_of, inputs_of, parties_of, IsWhole, Keeps};
ghost use Rattle.motion_cli.specs.Commands.{LocalReads, LocalTexts, LocalEnds, ReportsRun};
ghost use Rattle.motion_cli.specs.Dealer.{part_names};
ghost use Rattle.plan_gates.specs.Plan.{has_keys};
ghost use Rattle.command_ends.specs.Outcome.{line, memory, reported, circuit_refused};
ghost use Rattle.command_ends.specs.Refusal.{outcome_of, came_to};
ghost use Rattle.motion_cli.specs.Run.{AreHonestParts, owns_in};

use crate::commands::{circuit_of, plan_of, values_of};
use crate::report::report_runs;
use crate::run_parts::{load_parts, parts_of};
use crate::workers::run_job;
use any_circuit::Circuit;
use circuit_values::Values;
use cli_words::LocalWords;
use command_ends::{Refusal, load_both};
use dealer_files::DealerPart;
use gate_plan::Plan;
use local_engine::LocalJob;
use mot_base::{Files, NoMemory, Turnstile};
use std::alloc::Global;
use std::thread::Threads;

/// The report of `local`: for each party, the outputs that it is told, and the digest of all that it sent.
pub(crate) fn local_report<'a, R: Threads + Sync, F: Files, G: Turnstile + Sync>(
    rt: &R,
    alloc: Global,
    words: &'a LocalWords,
    files: &mut F,
    gate: &G,
) -> Result<String, Refusal<'a>>
    ensures came { LocalEnds (F.holds files.old) (Rose (F.faults files.old) (F.faults files.new))
        (local_request words.entry.now) (came_to result)
        ⊎ (came_to result ≡ memory) }
    ensures same { F.holds files.new ≡ F.holds files.old }
    ensures never_falls { F.faults files.old ≤ F.faults files.new }
{
    let (circuit, values) = load_both(alloc, files, words.circuit.as_str(), words.values.as_str())?;
    run_texts(rt, alloc, words, files, circuit, values, gate)
}

/// The same, once circuit and values are loaded.
fn run_texts<'a, R: Threads + Sync, F: Files, G: Turnstile + Sync>(
    rt: &R,
    alloc: Global,
    words: &'a LocalWords,
    files: &mut F,
    circuit: Vec<u8>,
    values: Vec<u8>,
    gate: &G,
) -> Result<String, Refusal<'a>>
    requires circuit { length circuit.items ≤ most_file_bytes }
    requires values { length values.items ≤ most_file_bytes }
    ensures came { LocalTexts (F.holds files.old) (Rose (F.faults files.old) (F.faults files.new))
        (local_request words.entry.now) circuit.items values.items (came_to result)
        ⊎ (came_to result ≡ memory) }
    ensures same { F.holds files.new ≡ F.holds files.old }
    ensures never_falls { F.faults files.old ≤ F.faults files.new }
{
    let circuit = circuit_of(alloc, words.circuit.as_str(), words.bristol, circuit)?;
    let parts = load_parts(alloc, files, prefix_of(words), circuit.parties())?;
    run_circuit(rt, alloc, words, &circuit, values, parts, gate)
}

/// What the names of the files of dealer parts begin with, where they are to be loaded.
fn prefix_of(words: &LocalWords) -> Option<&str>
    ensures { option_map (λ text. text.now) result ≡ option_map string_bytes words.now.dealer }
{
    words.dealer.as_ref().map(|prefix| prefix.as_str())
}

/// The same, once all files are loaded and the circuit is read.
fn run_circuit<'a, R: Threads + Sync, G: Turnstile + Sync>(
    rt: &R,
    alloc: Global,
    words: &'a LocalWords,
    circuit: &Circuit,
    values: Vec<u8>,
    parts: Vec<Vec<u8>>,
    gate: &G,
) -> Result<String, Refusal<'a>>
    requires whole { IsWhole (circuit_of circuit.now) }
    requires values { length values.items ≤ most_file_bytes }
    requires parts { length parts.items
        ≡ length (part_names (option_map string_bytes words.now.dealer)
        (parties_of (circuit_of circuit.now))) }
    ensures { LocalReads (local_request words.entry.now) values.items (circuit_of circuit.now)
        (map (λ text. text.items) parts.items) (came_to result)
        ⊎ (came_to result ≡ memory) }
{
    let plan = plan_of(alloc, words.circuit.as_str(), circuit)?;
    judge_keys(words.circuit.as_str(), &plan)?;
    let values = values_of(alloc, words.values.as_str(), circuit, values)?;
    let taken = parts_of(
        alloc,
        prefix_of(words),
        &words.seed,
        &plan,
        parts.as_slice(),
    )?;
    drop(parts);
    Ok(run_and_report(
        rt,
        alloc,
        words,
        circuit,
        plan,
        &values,
        taken.as_slice(),
        gate,
    )?)
}

/// Refuses a plan with gates of keys, which are not run yet.
fn judge_keys<'a>(name: &'a str, plan: &Plan) -> Result<(), Refusal<'a>>
    ensures unkeyed { OnOk result (has_keys plan.now ≡ false) }
    ensures err { IfErr result (λ refusal. (has_keys plan.now ≡ true)
        × (outcome_of refusal ≡ circuit_refused name.entry.now (line (codes "not built")))) }
{
    if plan.has_keys() {
        return Err(Refusal::NotBuilt { name });
    }
    Ok(())
}

/// Runs all parties, and reports what each is told and the digest of what it sent.
fn run_and_report<R: Threads + Sync, G: Turnstile + Sync>(
    rt: &R,
    alloc: Global,
    words: &LocalWords,
    circuit: &Circuit,
    plan: Plan,
    values: &Values,
    parts: &[DealerPart],
    gate: &G,
) -> Result<String, NoMemory>
    requires whole { IsWhole (circuit_of circuit.now) }
    requires plan { plan ≡ any.plan_of (circuit_of circuit.now) }
    requires unkeyed { has_keys plan ≡ false }
    requires keeps { Keeps (circuit_of circuit.now) plan }
    requires takes { TakesInputs (inputs_of (circuit_of circuit.now)) plan }
    requires widths { HaveWidths None (inputs_of (circuit_of circuit.now)) values.now }
    requires serve { ServeAll plan parts.now }
    ensures { IfOk result (λ text. ReportsRun (AreHonestParts parts.now) (circuit_of circuit.now) values.now
        (owns_in (local_request words.now) (circuit_of circuit.now) values.now parts.now)
        (reported (string_bytes text))) }
{
    let _parties = plan.parties();
    let inputs = circuit.inputs(alloc)?;
    let job = LocalJob::of_seed(alloc, plan, &words.seed, &inputs, values)?;
    let reports = run_job(rt, alloc, &job, parts, words.workers, gate)?;
    let outputs = circuit.outputs(alloc)?;
    report_runs(alloc, circuit.notation(), &outputs, reports.as_slice())
}
