ghost use Rattle.std.specs.Prelude.{◌≡◌, ℕ, ◌+◌, ◌<◌, ◌≤◌, length, nat_lt, IfOk};
ghost use Rattle.std.specs.List.{All};
ghost use Rattle.task_pool.specs.Meanings.{AreMeanings, HasNoOutside, ends_of};
ghost use Rattle.pool_workers.specs.Sums.{IsForward, once, times_in, incoming_of};
ghost use Rattle.pool_workers.specs.Steps.{Agree};
ghost use Rattle.pool_workers.specs.Shifts.{IsShift, lists};

use crate::collected::Collected;
use crate::deque::Limit;
use crate::hand::Hand;
use crate::run::{begin_run, end_run};
use crate::shift::{Shift, run_shifts};
use crate::start::{leads_forward, ready_at_start};
use crate::table::{Meaning, Pool};
use mot_base::{NoMemory, Turnstile};
use std::alloc::Global;
use std::marker::Brand;
use std::thread::Threads;
use task_pool::Work;
use turn_core::Dag;

/// Runs all items of a graph by 1 to 16 workers in waves, and gives the values on the edges that end at
/// no item, in the order of the edges, and what each worker ran. No edge comes from outside. The ready
/// items are dealt to the workers in turn, which run them side by side; once all have ended, the items
/// that they made ready are the next wave. Where a thread cannot be started the caller does its work.
/// After the last wave the caller runs what is left, in rising order. A worker passes the gate with each
/// item. It waits for nobody but the workers that it started.
pub fn run_waves<W: Work + Sync, G: Turnstile + Sync, R: Threads + Sync>(
    rt: &R,
    alloc: Global,
    dag: &Dag,
    work: &W,
    workers: u8,
    gate: &G,
) -> Result<Collected<W::Edge>, NoMemory>
where
    W::Edge: Send,
    requires graph { W.graph work.now ≡ dag.now }
    requires inside { HasNoOutside dag.now }
    requires workers { (1 ≤ workers) × (workers ≤ 16) }
    ensures ends { IfOk result (λ r. AreMeanings (W.means work.now) (ends_of dag.now) r.ends.items) }
    ensures ran { IfOk result (λ r. (x : ℕ) →
        times_in x (lists r.ran.items) ≡ once (nat_lt x dag.now.items)) }
    ensures lists { IfOk result (λ r. length r.ran.items ≡ workers) }
{
    leads_forward(dag);
    let collected = run_waves_as::<W, Brand, Brand, G, R>(rt, alloc, dag, work, workers, gate)?;
    Ok(collected)
}

/// The same for a meaning and a bound that the caller's proof picks.
fn run_waves_as<
    W: Work + Sync,
    M: Meaning<W::Edge> + Send + Sync,
    L: Limit + Send + Sync,
    G: Turnstile + Sync,
    R: Threads + Sync,
>(
    rt: &R,
    alloc: Global,
    dag: &Dag,
    work: &W,
    workers: u8,
    gate: &G,
) -> Result<Collected<W::Edge>, NoMemory>
where
    W::Edge: Send,
    requires dag { (M.items ≡ dag.now.items) × (M.edges ≡ dag.now.edges) × IsForward M.items M.edges }
    requires work { ((W.graph work.now).items ≡ M.items) × ((W.graph work.now).edges ≡ M.edges) ×
        Agree M.means (W.means work.now) }
    requires limit { L.limit ≡ M.items }
    requires workers { (1 ≤ workers) × (workers ≤ 16) }
    ensures ends { IfOk result (λ r.
        AreMeanings (W.means work.now) (incoming_of 4294967295 M.edges) r.ends.items) }
    ensures ran { IfOk result (λ r. (x : ℕ) → times_in x (lists r.ran.items) ≡ once (nat_lt x M.items)) }
    ensures lists { IfOk result (λ r. length r.ran.items ≡ workers) }
{
    let hands = hands_for::<L>(alloc, workers)?;
    let (pool, caller, shifts) = begin_run::<W::Edge, M, Hand<L>>(alloc, dag, hands)?;
    let shifts = run_each_wave(rt, alloc, dag, &pool, work, gate, shifts)?;
    let collected = end_run(alloc, dag, pool, caller, work, gate, shifts)?;
    Ok(collected)
}

/// An empty hand for each worker.
fn hands_for<L: Limit>(alloc: Global, workers: u8) -> Result<Vec<Hand<L>>, NoMemory>
    ensures { IfOk result (λ hands. length hands.items ≡ workers) }
{
    let mut hands = Vec::with_capacity(alloc, usize::from(workers))?;
    for _worker in 0..workers {
        hands.push(Hand::new(alloc))?;
    }
    Ok(hands)
}

/// Runs one wave after another, until one made no item ready.
fn run_each_wave<
    W: Work + Sync,
    M: Meaning<W::Edge> + Send + Sync,
    L: Limit + Send + Sync,
    G: Turnstile + Sync,
    R: Threads + Sync,
>(
    rt: &R,
    alloc: Global,
    dag: &Dag,
    pool: &Pool<W::Edge, M>,
    work: &W,
    gate: &G,
    mut shifts: Vec<Shift<W::Edge, Hand<L>>>,
) -> Result<Vec<Shift<W::Edge, Hand<L>>>, NoMemory>
where
    W::Edge: Send,
    requires dag { (M.items ≡ dag.now.items) × (M.edges ≡ dag.now.edges) × IsForward M.items M.edges }
    requires work { ((W.graph work.now).items ≡ M.items) × ((W.graph work.now).edges ≡ M.edges) ×
        Agree M.means (W.means work.now) }
    requires table { pool.now.shared.table_id.words ≡ M.items + 1 }
    requires limit { L.limit ≡ M.items }
    requires worked { All (IsShift M.edges pool.now.shared.table_id M.items (λ _. L.limit)) shifts.items }
    ensures many { IfOk result (λ more. length more.items ≡ length shifts.items) }
    ensures worked { IfOk result (λ more.
        All (IsShift M.edges pool.now.shared.table_id M.items (λ _. L.limit)) more.items) }
{
    let mut ready = ready_at_start(alloc, dag)?;
    for _wave in 0..dag.items() {
        if ready.is_empty() {
            break;
        }
        shifts = run_wave(rt, alloc, dag, pool, work, gate, shifts, &ready)?;
        ready = made_ready(alloc, &shifts)?;
    }
    Ok(shifts)
}

/// Runs the items of a wave. A worker that is dealt none of them starts no thread.
fn run_wave<
    W: Work + Sync,
    M: Meaning<W::Edge> + Send + Sync,
    L: Limit + Send + Sync,
    G: Turnstile + Sync,
    R: Threads + Sync,
>(
    rt: &R,
    alloc: Global,
    dag: &Dag,
    pool: &Pool<W::Edge, M>,
    work: &W,
    gate: &G,
    shifts: Vec<Shift<W::Edge, Hand<L>>>,
    items: &[u32],
) -> Result<Vec<Shift<W::Edge, Hand<L>>>, NoMemory>
where
    W::Edge: Send,
    requires dag { (M.items ≡ dag.now.items) × (M.edges ≡ dag.now.edges) × IsForward M.items M.edges }
    requires work { ((W.graph work.now).items ≡ M.items) × ((W.graph work.now).edges ≡ M.edges) ×
        Agree M.means (W.means work.now) }
    requires table { pool.now.shared.table_id.words ≡ M.items + 1 }
    requires below { All (λ item. item < L.limit) items.now }
    requires worked { All (IsShift M.edges pool.now.shared.table_id M.items (λ _. L.limit)) shifts.items }
    ensures many { IfOk result (λ more. length more.items ≡ length shifts.items) }
    ensures worked { IfOk result (λ more.
        All (IsShift M.edges pool.now.shared.table_id M.items (λ _. L.limit)) more.items) }
{
    let Wave { busy, mut idle } = deal_wave(alloc, pool, shifts, items)?;
    let mut busy = run_shifts(rt, alloc, dag, pool, work, gate, busy)?;
    idle.append(&mut busy)?;
    Ok(idle)
}

/// The workers at a wave: those that were dealt items of it, and the others.
#[derive(Drop)]
struct Wave<E, L: Limit> {
    busy: Vec<Shift<E, Hand<L>>>,
    idle: Vec<Shift<E, Hand<L>>>,
}

/// Deals the items of a wave to the workers in turn. The contract alone asks which pool it is.
fn deal_wave<E: Drop, M: Meaning<E>, L: Limit>(
    alloc: Global,
    _pool: &Pool<E, M>,
    mut shifts: Vec<Shift<E, Hand<L>>>,
    items: &[u32],
) -> Result<Wave<E, L>, NoMemory>
    requires below { All (λ item. item < L.limit) items.now }
    requires worked { All (IsShift M.edges _pool.now.shared.table_id M.items (λ _. L.limit)) shifts.items }
    ensures many { IfOk result (λ wave.
        length wave.busy.items + length wave.idle.items ≡ length shifts.items) }
    ensures busy { IfOk result (λ wave.
        All (IsShift M.edges _pool.now.shared.table_id M.items (λ _. L.limit)) wave.busy.items) }
    ensures idle { IfOk result (λ wave.
        All (IsShift M.edges _pool.now.shared.table_id M.items (λ _. L.limit)) wave.idle.items) }
{
    let workers = shifts.len();
    let mut busy = Vec::new(alloc);
    let mut idle = Vec::new(alloc);
    while let Some(shift) = shifts.pop() {
        let me = shifts.len();
        let Shift {
            worker,
            mut hints,
            ran,
        } = shift;
        hints.deal(items, workers, me)?;
        let dealt = Shift { worker, hints, ran };
        if me < items.len() {
            busy.push(dealt)?;
            continue;
        }
        idle.push(dealt)?;
    }
    Ok(Wave { busy, idle })
}

/// The items that the workers made ready.
fn made_ready<E: Drop, L: Limit>(
    alloc: Global,
    shifts: &Vec<Shift<E, Hand<L>>>,
) -> Result<Vec<u32>, NoMemory>
    ensures { IfOk result (λ ready. All (λ item. item < L.limit) ready.items) }
{
    let mut ready = Vec::new(alloc);
    for shift in shifts {
        ready.extend_from_slice(shift.hints.made())?;
    }
    Ok(ready)
}
