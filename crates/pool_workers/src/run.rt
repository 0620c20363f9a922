ghost use Rattle.std.specs.Prelude.{◌≡◌, ℕ, ◌+◌, ◌≤◌, [], length, nat_lt, IfOk};
ghost use Rattle.std.specs.List.{All};
ghost use Rattle.task_pool.specs.Meanings.{AreMeanings, HasNoOutside, ends_of};
ghost use Rattle.pool_workers.specs.Sums.{IsForward, once, times_in, incoming_of};
ghost use Rattle.pool_workers.specs.Words.{all_parts};
ghost use Rattle.pool_workers.specs.Steps.{Agree};
ghost use Rattle.pool_workers.specs.Shifts.{IsShift, lists};

use crate::close::collect;
use crate::collected::Collected;
use crate::deque::{Bench, Limit};
use crate::hints::Hints;
use crate::shift::{Shift, hire_all, run_rest, run_shifts, take_in_all};
use crate::start::{
    benches_for, deal_all, leads_forward, ready_at_start, thieves_of, words_at_start,
};
use crate::table::{Meaning, Pool, Worker, open};
use mot_base::{NoMemory, Turnstile};
use std::alloc::Global;
use std::marker::Brand;
use std::thread::Threads;
use task_pool::Work;
use turn_core::Dag;

/// Runs all items of a graph by 1 to 16 workers side by side, and gives the values on the edges that end
/// at no item, in the order of the edges, and what each worker ran. No edge comes from outside. The items
/// that are ready at the start are dealt to the workers' deques in turn. A worker puts what it makes
/// ready into its own deque, runs that empty, then tries to steal from each of the others once, and ends
/// where it finds nothing. Where a thread cannot be started the caller does its work. After the workers
/// have ended the caller runs what is left, in rising order. A worker passes the gate with each item. It
/// waits for nobody but the workers that it started.
pub fn run_pool<W: Work + Sync, G: Turnstile + Sync, R: Threads + Sync>(
    rt: &R,
    alloc: Global,
    dag: &Dag,
    work: &W,
    workers: u8,
    gate: &G,
) -> Result<Collected<W::Edge>, NoMemory>
where
    W::Edge: Send,
    requires graph { W.graph work.now ≡ dag.now }
    requires inside { HasNoOutside dag.now }
    requires workers { (1 ≤ workers) × (workers ≤ 16) }
    ensures ends { IfOk result (λ r. AreMeanings (W.means work.now) (ends_of dag.now) r.ends.items) }
    ensures ran { IfOk result (λ r. (x : ℕ) →
        times_in x (lists r.ran.items) ≡ once (nat_lt x dag.now.items)) }
    ensures lists { IfOk result (λ r. length r.ran.items ≡ workers) }
{
    leads_forward(dag);
    let collected = run_as::<W, Brand, Brand, G, R>(rt, alloc, dag, work, workers, gate)?;
    Ok(collected)
}

/// The same for a meaning and a bound that the caller's proof picks.
fn run_as<
    W: Work + Sync,
    M: Meaning<W::Edge> + Send + Sync,
    L: Limit + Send + Sync,
    G: Turnstile + Sync,
    R: Threads + Sync,
>(
    rt: &R,
    alloc: Global,
    dag: &Dag,
    work: &W,
    workers: u8,
    gate: &G,
) -> Result<Collected<W::Edge>, NoMemory>
where
    W::Edge: Send,
    requires dag { (M.items ≡ dag.now.items) × (M.edges ≡ dag.now.edges) × IsForward M.items M.edges }
    requires work { ((W.graph work.now).items ≡ M.items) × ((W.graph work.now).edges ≡ M.edges) ×
        Agree M.means (W.means work.now) }
    requires limit { L.limit ≡ M.items }
    requires workers { (1 ≤ workers) × (workers ≤ 16) }
    ensures ends { IfOk result (λ r.
        AreMeanings (W.means work.now) (incoming_of 4294967295 M.edges) r.ends.items) }
    ensures ran { IfOk result (λ r. (x : ℕ) → times_in x (lists r.ran.items) ≡ once (nat_lt x M.items)) }
    ensures lists { IfOk result (λ r. length r.ran.items ≡ workers) }
{
    let ready = ready_at_start(alloc, dag)?;
    let owns = deal_all::<L>(alloc, &ready, usize::from(workers))?;
    let thieves = thieves_of(alloc, &owns)?;
    let benches = benches_for(alloc, owns, &thieves)?;
    let (pool, caller, shifts) = begin_run::<W::Edge, M, Bench<'_, L>>(alloc, dag, benches)?;
    let shifts = run_shifts(rt, alloc, dag, &pool, work, gate, shifts)?;
    let collected = end_run(alloc, dag, pool, caller, work, gate, shifts)?;
    Ok(collected)
}

/// The table at the start, the caller, and a worker for each end of what hands out numbers.
pub(crate) fn begin_run<E: Drop, M: Meaning<E>, H: Hints + Drop>(
    alloc: Global,
    dag: &Dag,
    hints: Vec<H>,
) -> Result<(Pool<E, M>, Worker<E>, Vec<Shift<E, H>>), NoMemory>
    requires dag { (M.items ≡ dag.now.items) × (M.edges ≡ dag.now.edges) × IsForward M.items M.edges }
    requires workers { length hints.items ≤ 16 }
    requires bounds { All (λ h. H.bound h ≡ M.items) hints.items }
    ensures table { IfOk result (λ t. (t.1.table_id ≡ t.0.shared.table_id) ×
        (t.0.shared.table_id.words ≡ M.items + 1) × (t.0.shared.table_id.slots ≡ length M.edges)) }
    ensures caller { IfOk result (λ t. (t.1.me.1 ≡ []) ×
        (t.1.me.0.parts + length hints.items ≡ all_parts) × (t.1.me.0.took ≡ []) × (t.1.me.0.gave ≡ [])) }
    ensures shifts { IfOk result (λ t. (length t.2.items ≡ length hints.items) ×
        All (IsShift M.edges t.0.shared.table_id M.items H.bound) t.2.items) }
{
    let words = words_at_start(alloc, dag)?;
    let (pool, mut caller) = open::<E, M>(alloc, words.as_slice(), dag.edges().len())?;
    let shifts = hire_all(alloc, &pool, &mut caller, hints)?;
    Ok((pool, caller, shifts))
}

/// Takes in all workers, runs what is left, and takes the table apart.
pub(crate) fn end_run<W: Work, M: Meaning<W::Edge>, G: Turnstile, H: Hints + Drop>(
    alloc: Global,
    dag: &Dag,
    pool: Pool<W::Edge, M>,
    mut caller: Worker<W::Edge>,
    work: &W,
    gate: &G,
    shifts: Vec<Shift<W::Edge, H>>,
) -> Result<Collected<W::Edge>, NoMemory>
    requires dag { (M.items ≡ dag.now.items) × (M.edges ≡ dag.now.edges) × IsForward M.items M.edges }
    requires work { ((W.graph work.now).items ≡ M.items) × ((W.graph work.now).edges ≡ M.edges) ×
        Agree M.means (W.means work.now) }
    requires table { (caller.table_id ≡ pool.shared.table_id) ×
        (pool.shared.table_id.words ≡ M.items + 1) × (pool.shared.table_id.slots ≡ length M.edges) }
    requires caller { (caller.me.1 ≡ []) × (caller.me.0.parts + length shifts.items ≡ all_parts) ×
        (caller.me.0.took ≡ []) × (caller.me.0.gave ≡ []) }
    requires workers { (1 ≤ length shifts.items) × (length shifts.items ≤ 16) }
    requires worked { All (IsShift M.edges pool.shared.table_id M.items H.bound) shifts.items }
    ensures ends { IfOk result (λ r.
        AreMeanings (W.means work.now) (incoming_of 4294967295 M.edges) r.ends.items) }
    ensures ran { IfOk result (λ r. (x : ℕ) → times_in x (lists r.ran.items) ≡ once (nat_lt x M.items)) }
    ensures lists { IfOk result (λ r. length r.ran.items ≡ length shifts.items) }
{
    let mut ran = take_in_all(alloc, &pool, &mut caller, shifts)?;
    run_rest(alloc, dag, &pool, &mut caller, work, gate, &mut ran)?;
    let ends = collect(alloc, dag, pool, caller)?;
    Ok(Collected { ends, ran })
}
