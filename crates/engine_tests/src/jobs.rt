//! Runs of circuits that are given as text.

ghost use Rattle.std.specs.Prelude.{◌≤◌, length, IfSome};
ghost use Rattle.mot_base.specs.Limits.{most_file_bytes, least_parties, most_parties};
ghost use Rattle.circuit_tables.specs.Table.{AreNamedApart};
ghost use Rattle.local_run.specs.Job.{IsJob};

use bristol_reader::{Bristol, read_bristol};
use circuit_values::{InputTable, ValuesError, read_values};
use dealer_files::{DealerPart, read_dealer};
use dealer_maker::deal;
use gate_plan::{Plan, lower_bristol, lower_mixed};
use gate_tasks::Own;
use local_engine::LocalJob;
use mixed_circuit::{Mixed, read_mixed};
use mot_base::{MAX_FILE_LENGTH, Party, Seed, derive};
use share_types::{Needs, Sharing};
use std::alloc::Global;

/// The seed of which all seeds of a run are made.
static ZEROS: Seed = Seed([0; 32]);

/// A circuit as text: one over words and vectors, or one in Bristol Fashion for two parties.
pub(crate) enum Circuit {
    Mixed(&'static [u8]),
    Bristol(&'static [u8]),
}

/// The parts of a deal: drawn, with so many multiplication and bit triples, or as files.
pub(crate) enum Parts {
    Drawn(u32, u32),
    Files(&'static str, &'static str),
}

/// Where a run stands among others: its session, and its first multiplication triple.
#[derive(Clone, Copy)]
pub(crate) struct Place {
    pub(crate) session: u32,
    pub(crate) mult: u32,
}

/// The place of a run that is alone.
pub(crate) const ALONE: Place = Place {
    session: 0,
    mult: 0,
};

/// The plan of a circuit, and the table of its inputs.
fn lowered(alloc: Global, circuit: &Circuit) -> Option<(Plan, InputTable)>
    ensures { IfSome result (λ made. AreNamedApart made.1) }
{
    match circuit {
        Circuit::Mixed(text) => lowered_mixed_text(alloc, text),
        Circuit::Bristol(text) => lowered_bristol_text(alloc, text),
    }
}

fn lowered_mixed_text(alloc: Global, text: &[u8]) -> Option<(Plan, InputTable)>
    ensures { IfSome result (λ made. AreNamedApart made.1) }
{
    if text.len() > MAX_FILE_LENGTH {
        return None;
    }
    match read_mixed(alloc, text) {
        Ok(circuit) => lowered_mixed(alloc, &circuit),
        Err(_) => None,
    }
}

fn lowered_mixed(alloc: Global, circuit: &Mixed) -> Option<(Plan, InputTable)>
    ensures { IfSome result (λ made. AreNamedApart made.1) }
{
    match (lower_mixed(alloc, circuit), circuit.inputs(alloc)) {
        (Ok(plan), Ok(inputs)) => Some((plan, inputs)),
        _ => None,
    }
}

fn lowered_bristol_text(alloc: Global, text: &[u8]) -> Option<(Plan, InputTable)>
    ensures { IfSome result (λ made. AreNamedApart made.1) }
{
    if text.len() > MAX_FILE_LENGTH {
        return None;
    }
    match read_bristol(alloc, text) {
        Ok(circuit) => lowered_bristol(alloc, &circuit),
        Err(_) => None,
    }
}

fn lowered_bristol(alloc: Global, circuit: &Bristol) -> Option<(Plan, InputTable)>
    ensures { IfSome result (λ made. AreNamedApart made.1) }
{
    let lowered = lower_bristol(alloc, circuit, 2, Sharing::B);
    match (lowered, circuit.inputs(alloc, 2)) {
        (Ok(plan), Ok(inputs)) => Some((plan, inputs)),
        _ => None,
    }
}

/// The parts of a deal for so many parties.
fn parts_of(alloc: Global, parties: u8, parts: &Parts) -> Option<Vec<DealerPart>>
    requires some { least_parties ≤ parties }
    requires most { parties ≤ most_parties }
{
    match parts {
        Parts::Drawn(mult, bit) => {
            let counts = Needs {
                mult: *mult,
                bit: *bit,
                shared: 0,
                key: 0,
            };
            deal(alloc, parties, &derive(&ZEROS, 255), &counts).ok()
        }
        Parts::Files(first, second) => read_parts(alloc, &[*first, *second]),
    }
}

/// The parts in files, which are given in hexadecimal digits.
fn read_parts(alloc: Global, texts: &[&str]) -> Option<Vec<DealerPart>> {
    let mut parts = Vec::new(alloc);
    for text in texts {
        if !is_part_pushed(alloc, &mut parts, text) {
            return None;
        }
    }
    Some(parts)
}

/// Adds the part in a file, if it is one.
fn is_part_pushed(alloc: Global, parts: &mut Vec<DealerPart>, text: &str) -> bool {
    match hex::decode(alloc, text) {
        Ok(bytes) => match read_dealer(alloc, bytes.as_slice()) {
            Ok(part) => parts.push(part).is_ok(),
            Err(_) => false,
        },
        Err(_) => false,
    }
}

/// A run that has all that its plan asks for, with the parts of a deal.
pub(crate) fn ready(
    alloc: Global,
    circuit: &Circuit,
    values: &[u8],
    parts: &Parts,
    place: Place,
) -> Option<(LocalJob, Vec<DealerPart>)>
    ensures { IfSome result (λ made. IsJob made.0.plan made.0.owns.items made.1.items) }
{
    match lowered(alloc, circuit) {
        Some((plan, inputs)) => ready_plan(alloc, plan, &inputs, values, parts, place),
        None => None,
    }
}

/// The same of a plan, on the values of a text.
fn ready_plan(
    alloc: Global,
    plan: Plan,
    inputs: &InputTable,
    values: &[u8],
    parts: &Parts,
    place: Place,
) -> Option<(LocalJob, Vec<DealerPart>)>
    requires { AreNamedApart inputs.now }
    ensures { IfSome result (λ made. IsJob made.0.plan made.0.owns.items made.1.items) }
{
    let parts = parts_of(alloc, plan.parties(), parts);
    match (job_of(alloc, plan, inputs, values, place), parts) {
        (Some(job), Some(parts)) => ready_job(job, parts),
        _ => None,
    }
}

/// The same of a run and parts, if they have all that its plan asks for.
fn ready_job(job: LocalJob, parts: Vec<DealerPart>) -> Option<(LocalJob, Vec<DealerPart>)>
    ensures { IfSome result (λ made. IsJob made.0.plan made.0.owns.items made.1.items) }
{
    if job.is_job(&parts) {
        Some((job, parts))
    } else {
        None
    }
}

/// The run of a plan on the values of a text.
fn job_of(
    alloc: Global,
    plan: Plan,
    inputs: &InputTable,
    values: &[u8],
    place: Place,
) -> Option<LocalJob>
    requires { AreNamedApart inputs.now }
{
    if values.len() > MAX_FILE_LENGTH {
        return None;
    }
    match owns_of(alloc, plan.parties(), inputs, values, place) {
        Ok(owns) => Some(LocalJob { plan, owns }),
        Err(_) => None,
    }
}

/// What each party brings, of which all know all values.
fn owns_of(
    alloc: Global,
    parties: u8,
    inputs: &InputTable,
    values: &[u8],
    place: Place,
) -> Result<Vec<Own>, ValuesError>
    requires apart { AreNamedApart inputs.now }
    requires size { length values.now ≤ most_file_bytes }
{
    let mut owns = Vec::new(alloc);
    for party in 0..parties {
        let own = own_of(alloc, party, inputs, values, place)?;
        owns.push(own)?;
    }
    Ok(owns)
}

/// What a party brings.
fn own_of(
    alloc: Global,
    party: u8,
    inputs: &InputTable,
    values: &[u8],
    place: Place,
) -> Result<Own, ValuesError>
    requires apart { AreNamedApart inputs.now }
    requires size { length values.now ≤ most_file_bytes }
{
    let inputs = read_values(alloc, values, inputs, None)?;
    Ok(Own {
        me: Party(party),
        seed: derive(&ZEROS, party),
        inputs,
        session: place.session,
        bases: Needs {
            mult: place.mult,
            bit: 0,
            shared: 0,
            key: 0,
        },
    })
}
