//! What flows out of an item.

ghost use Rattle.std.specs.Prelude.{◌≡◌, ℕ, List, [], true, Some, None, slice_get, replicate, IsSome, IfOk, IfSome};
ghost use Rattle.std.specs.List.{AllByRecursion};
ghost use Rattle.task_pool.specs.Meanings.{AreMeanings};
ghost use Rattle.gate_tasks.specs.declared.outgoing.Out.{Out};
ghost use Rattle.local_run.specs.declared.cargo.Cargo.TheVariants as cargo;
ghost use Rattle.local_run.specs.Meaning.{IsTo, Sends, HasCargo, IsCargo, HasCargoAt, IsCargoAt};

use crate::cargo::Cargo;
use crate::item::Load;
use gate_tasks::{Out, StageOut, Value};
use mot_base::{NoMemory, Party};
use std::alloc::Global;

/// What the edges with these numbers carry, of what a stage gave.
pub(crate) fn outputs(
    alloc: Global,
    loads: &[Load],
    edges: &[u32],
    given: StageOut,
) -> Result<Vec<Cargo>, NoMemory>
    requires { AllByRecursion (λ e. HasCargoAt given (slice_get loads.now e)) edges.now }
    ensures { IfOk result (λ outputs.
        AreMeanings (λ e c. IsCargoAt given (slice_get loads.now e) c) edges.now outputs.items) }
{
    match &given.value {
        Some(value) if gives_no_more(&given) => {
            let outputs = copies(alloc, value, edges.len())?;
            Ok(outputs)
        }
        _ => each_output(alloc, loads, edges, given),
    }
}

/// Whether a stage gave nothing beside its value, so that each edge carries that.
fn gives_no_more(given: &StageOut) -> bool
    ensures carried { result ≡ true → given.now.carried ≡ None }
    ensures out { result ≡ true → given.now.out ≡ [] }
{
    given.carried.is_none() && given.out.as_slice().is_empty()
}

/// A value as often as that.
fn copies(alloc: Global, value: &Value, count: usize) -> Result<Vec<Cargo>, NoMemory>
    ensures { IfOk result (λ outputs. outputs.items ≡ replicate count (cargo.Value value.now)) }
{
    let mut outputs = Vec::with_capacity(alloc, count)?;
    for _at in 0..count {
        let copy = value.copy(alloc)?;
        outputs.push(Cargo::Value(copy))?;
    }
    Ok(outputs)
}

/// What the edges with these numbers carry, each by what it is said to carry.
fn each_output(
    alloc: Global,
    loads: &[Load],
    edges: &[u32],
    given: StageOut,
) -> Result<Vec<Cargo>, NoMemory>
    requires { AllByRecursion (λ e. HasCargoAt given (slice_get loads.now e)) edges.now }
    ensures { IfOk result (λ outputs.
        AreMeanings (λ e c. IsCargoAt given (slice_get loads.now e) c) edges.now outputs.items) }
{
    let Some((last, before)) = edges.split_last() else {
        return Ok(Vec::new(alloc));
    };
    let mut outputs = copied(alloc, loads, before, &given, edges.len())?;
    let output = last_cargo(alloc, loads[*last as usize], given)?;
    outputs.push(output)?;
    Ok(outputs)
}

/// The same where all are copied, with room for so many.
fn copied(
    alloc: Global,
    loads: &[Load],
    edges: &[u32],
    given: &StageOut,
    room: usize,
) -> Result<Vec<Cargo>, NoMemory>
    requires { AllByRecursion (λ e. HasCargoAt given.now (slice_get loads.now e)) edges.now }
    ensures { IfOk result (λ outputs.
        AreMeanings (λ e c. IsCargoAt given.now (slice_get loads.now e) c) edges.now outputs.items) }
{
    let mut outputs = Vec::with_capacity(alloc, room)?;
    for edge in edges {
        let output = cargo(alloc, loads[*edge as usize], given)?;
        outputs.push(output)?;
    }
    Ok(outputs)
}

/// What the last edge carries, of what a stage gave. A payload is not copied once more.
fn last_cargo(alloc: Global, load: Load, given: StageOut) -> Result<Cargo, NoMemory>
    requires { HasCargo given load }
    ensures { IfOk result (λ c. IsCargo given load c) }
{
    match load {
        Load::Message { round, to, .. } => Ok(last_message(given.out.into_vec(), round, to)),
        _ => cargo(alloc, load, &given),
    }
}

/// The payload of a round to a party, taken out of the messages.
fn last_message(mut outs: Vec<Out>, round: u8, to: Party) -> Cargo
    requires { (payload : List ℕ) × Sends outs.items round to payload }
    ensures { (payload : List ℕ) × Sends outs.items round to payload × (result ≡ cargo.Message payload) }
{
    let at = place_of(&outs, round, to);
    Cargo::Message(outs.swap_remove(at).payload)
}

/// What an edge carries, of what a stage gave.
fn cargo(alloc: Global, load: Load, given: &StageOut) -> Result<Cargo, NoMemory>
    requires { HasCargo given.now load }
    ensures { IfOk result (λ c. IsCargo given.now load c) }
{
    match load {
        Load::Wire { .. } => value(alloc, given),
        Load::Kept { .. } => kept(alloc, given),
        Load::Message { round, to, .. } => message(alloc, given.out.as_slice(), round, to),
    }
}

/// The value that a stage gave.
fn value(alloc: Global, given: &StageOut) -> Result<Cargo, NoMemory>
    requires { IsSome given.now.value }
    ensures { IfOk result (λ c. IfSome given.now.value (λ v. c ≡ cargo.Value v)) }
{
    let Some(value) = &given.value else {
        unreachable!();
    };
    let copy = value.copy(alloc)?;
    Ok(Cargo::Value(copy))
}

/// What a stage carries on.
fn kept(alloc: Global, given: &StageOut) -> Result<Cargo, NoMemory>
    requires { IsSome given.now.carried }
    ensures { IfOk result (λ c. IfSome given.now.carried (λ kept. c ≡ cargo.Kept kept)) }
{
    let Some(kept) = &given.carried else {
        unreachable!();
    };
    let copy = kept.copy(alloc)?;
    Ok(Cargo::Kept(copy))
}

/// The payload of a round to a party.
fn message(alloc: Global, outs: &[Out], round: u8, to: Party) -> Result<Cargo, NoMemory>
    requires { (payload : List ℕ) × Sends outs.now round to payload }
    ensures { IfOk result (λ c.
        (payload : List ℕ) × Sends outs.now round to payload × (c ≡ cargo.Message payload)) }
{
    let copy = outs[place_of(outs, round, to)].payload.copy(alloc)?;
    Ok(Cargo::Message(copy))
}

/// Where the message of a round to a party stands.
fn place_of(outs: &[Out], round: u8, to: Party) -> usize
    requires { (payload : List ℕ) × Sends outs.now round to payload }
    ensures { (out : Out) × IsTo outs.now round to result out }
{
    for (at, out) in outs.iter().enumerate() {
        if out.to != to || out.round != round {
            continue;
        }
        return at;
    }
    unreachable!()
}
