ghost use Rattle.std.specs.Prelude.{◌≡◌, ℕ, ◌+◌, ◌<◌, ◌≤◌, [], IfOk, OnOk, length};
ghost use Rattle.atomic_table.specs.Table.{rest};
ghost use Rattle.task_pool.specs.Meanings.{AreMeanings};
ghost use Rattle.pool_workers.specs.Sums.{IsForward, times, missing, source_at};
ghost use Rattle.pool_workers.specs.Sums.{incoming_of, outgoing_of};
ghost use Rattle.pool_workers.specs.Words.{all_parts, with_edge};
ghost use Rattle.pool_workers.specs.Steps.{Holding, empties, with_edges, Agree, IsIdle, Tried};
ghost use Rattle.pool_workers.specs.Steps.{MayGive, IsTop};

use crate::hints::Hints;
use crate::table::{Meaning, Pool, Worker, give, take, take_input};
use mot_base::{NoMemory, Turnstile};
use std::alloc::Global;
use task_pool::Work;
use turn_core::Dag;

/// Tells of an item that it is ready, where the edge that was given was the last one.
fn tell<H: Hints>(hints: &mut H, items: u32, target: u32, before: u64)
    requires { items ≤ H.bound hints.old }
    ensures { H.bound hints.new ≡ H.bound hints.old }
{
    if before != 1 || target >= items {
        return;
    }
    hints.put(target);
}

/// Reads the inputs of an item that was taken.
fn read_inputs<E: Drop, M: Meaning<E>>(
    pool: &Pool<E, M>,
    worker: &mut Worker<E>,
    edges: &[u32],
    inputs: &mut Vec<E>,
    item: u32,
) -> Result<(), NoMemory>
    requires table { (worker.old.table_id ≡ pool.now.shared.table_id) ×
        (pool.now.shared.table_id.words ≡ M.items + 1) }
    requires item { item < M.items }
    requires edges { edges.now ≡ incoming_of item M.edges }
    requires took { 1 ≤ times item worker.old.me.0.took }
    requires slots { Holding M.edges M.means item 0 worker.old.me.1 }
    requires empty { inputs.old.items ≡ [] }
    ensures table { (worker.new.table_id ≡ worker.old.table_id) × (worker.new.id ≡ worker.old.id) }
    ensures view { worker.new.me.0 ≡ worker.old.me.0 }
    ensures slots { OnOk result (worker.new.me.1 ≡ empties (outgoing_of item M.edges)) }
    ensures inputs { OnOk result (AreMeanings M.means (incoming_of item M.edges) inputs.new.items) }
{
    for edge in edges {
        let Some(value) = take_input(pool, worker, *edge, item) else {
            unreachable!();
        };
        inputs.push(value)?;
    }
    Ok(())
}

/// Gives the outputs of an item that was run, and tells of those items that they make ready.
fn give_outputs<E: Drop, M: Meaning<E>, H: Hints>(
    dag: &Dag,
    pool: &Pool<E, M>,
    worker: &mut Worker<E>,
    hints: &mut H,
    item: u32,
    edges: &[u32],
    outputs: Vec<E>,
)
    requires dag { (M.items ≡ dag.now.items) × (M.edges ≡ dag.now.edges) × IsForward M.items M.edges }
    requires table { (worker.old.table_id ≡ pool.now.shared.table_id) ×
        (pool.now.shared.table_id.words ≡ M.items + 1) }
    requires item { item < M.items }
    requires edges { edges.now ≡ outgoing_of item M.edges }
    requires hints { M.items ≤ H.bound hints.old }
    requires took { (0 < worker.old.me.0.parts) × (1 ≤ times item worker.old.me.0.took) }
    requires fresh { (e : ℕ) → e < length M.edges → source_at M.edges e ≡ item →
        times e worker.old.me.0.gave ≡ 0 }
    requires slots { worker.old.me.1 ≡ empties (outgoing_of item M.edges) }
    requires outputs { AreMeanings M.means (outgoing_of item M.edges) outputs.items }
    ensures hints { H.bound hints.new ≡ H.bound hints.old }
    ensures table { (worker.new.table_id ≡ worker.old.table_id) × (worker.new.id ≡ worker.old.id) }
    ensures gave { worker.new.me ≡ (with_edges worker.old.me.0 (outgoing_of item M.edges), []) }
{
    let mut at = 0;
    for value in outputs {
        give_one(dag, pool, worker, hints, edges[at], value);
        at += 1;
    }
}

/// Gives one edge, and tells of the item that it makes ready.
fn give_one<E: Drop, M: Meaning<E>, H: Hints>(
    dag: &Dag,
    pool: &Pool<E, M>,
    worker: &mut Worker<E>,
    hints: &mut H,
    edge: u32,
    value: E,
)
    requires dag { (M.items ≡ dag.now.items) × (M.edges ≡ dag.now.edges) }
    requires table { (worker.old.table_id ≡ pool.now.shared.table_id) ×
        (pool.now.shared.table_id.words ≡ M.items + 1) }
    requires hints { M.items ≤ H.bound hints.old }
    requires may { MayGive M.items M.edges worker.old.me.0 edge }
    requires top { IsTop edge worker.old.me.1 }
    requires means { M.means edge value }
    ensures hints { H.bound hints.new ≡ H.bound hints.old }
    ensures table { (worker.new.table_id ≡ worker.old.table_id) × (worker.new.id ≡ worker.old.id) }
    ensures gave { worker.new.me ≡ (with_edge worker.old.me.0 edge, rest worker.old.me.1) }
{
    let target = dag.edges()[edge as usize].target;
    let word = target.min(dag.items());
    let before = give(pool, worker, edge, word, value);
    tell(hints, dag.items(), target, before);
}

/// Runs an item that was taken.
fn run_taken<W: Work, M: Meaning<W::Edge>, G: Turnstile, H: Hints>(
    alloc: Global,
    dag: &Dag,
    pool: &Pool<W::Edge, M>,
    worker: &mut Worker<W::Edge>,
    work: &W,
    gate: &G,
    hints: &mut H,
    inputs: &mut Vec<W::Edge>,
    item: u32,
) -> Result<(), NoMemory>
    requires dag { (M.items ≡ dag.now.items) × (M.edges ≡ dag.now.edges) × IsForward M.items M.edges }
    requires work { ((W.graph work.now).items ≡ M.items) × ((W.graph work.now).edges ≡ M.edges) ×
        Agree M.means (W.means work.now) }
    requires table { (worker.old.table_id ≡ pool.now.shared.table_id) ×
        (pool.now.shared.table_id.words ≡ M.items + 1) }
    requires item { item < M.items }
    requires hints { M.items ≤ H.bound hints.old }
    requires took { (0 < worker.old.me.0.parts) × (1 ≤ times item worker.old.me.0.took) }
    requires fresh { (e : ℕ) → e < length M.edges → source_at M.edges e ≡ item →
        times e worker.old.me.0.gave ≡ 0 }
    requires slots { Holding M.edges M.means item 0 worker.old.me.1 }
    ensures hints { OnOk result (H.bound hints.new ≡ H.bound hints.old) }
    ensures table { (worker.new.table_id ≡ worker.old.table_id) × (worker.new.id ≡ worker.old.id) }
    ensures gave { OnOk result
        (worker.new.me ≡ (with_edges worker.old.me.0 (outgoing_of item M.edges), [])) }
{
    gate.enter(item);
    inputs.clear();
    read_inputs(pool, worker, dag.incoming(item), inputs, item)?;
    let outputs = work.run(alloc, item, inputs)?;
    gate.leave(item);
    give_outputs(dag, pool, worker, hints, item, dag.outgoing(item), outputs);
    Ok(())
}

/// Runs an item, where no edge to it is missing and no one took it. True where it did.
pub(crate) fn try_item<W: Work, M: Meaning<W::Edge>, G: Turnstile, H: Hints>(
    alloc: Global,
    dag: &Dag,
    pool: &Pool<W::Edge, M>,
    worker: &mut Worker<W::Edge>,
    work: &W,
    gate: &G,
    hints: &mut H,
    inputs: &mut Vec<W::Edge>,
    item: u32,
) -> Result<bool, NoMemory>
    requires dag { (M.items ≡ dag.now.items) × (M.edges ≡ dag.now.edges) × IsForward M.items M.edges }
    requires work { ((W.graph work.now).items ≡ M.items) × ((W.graph work.now).edges ≡ M.edges) ×
        Agree M.means (W.means work.now) }
    requires table { (worker.old.table_id ≡ pool.now.shared.table_id) ×
        (pool.now.shared.table_id.words ≡ M.items + 1) }
    requires item { item < M.items }
    requires idle { IsIdle M.edges worker.old.me }
    requires hints { M.items ≤ H.bound hints.old }
    ensures hints { OnOk result (H.bound hints.new ≡ H.bound hints.old) }
    ensures table { (worker.new.table_id ≡ worker.old.table_id) × (worker.new.id ≡ worker.old.id) }
    ensures idle { OnOk result (IsIdle M.edges worker.new.me ×
        (worker.new.me.0.parts ≡ worker.old.me.0.parts)) }
    ensures took { IfOk result (λ b. Tried b item worker.old.me.0 worker.new.me.0) }
    ensures done { OnOk result (worker.old.me.0.parts ≡ all_parts →
        missing item 0 M.edges (λ e. times e worker.old.me.0.gave) ≡ 0 →
        times item worker.new.me.0.took ≡ 1) }
{
    let found = take(pool, worker, item);
    if found != 0 {
        return Ok(false);
    }
    run_taken(alloc, dag, pool, worker, work, gate, hints, inputs, item)?;
    Ok(true)
}
