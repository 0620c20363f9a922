ghost use Rattle.std.specs.Prelude.{◌≡◌, ◌<◌, length, IfOk};
ghost use Rattle.std.specs.List.{All};
ghost use Rattle.crossbeam_deque.specs.Handles.{worker_flavor};
ghost use Rattle.task_pool.specs.Meanings.{HasNoOutside};
ghost use Rattle.pool_workers.specs.Sums.{IsForward, incoming_of};
ghost use Rattle.pool_workers.specs.Words.{AreAtStart};

use crate::deque::{Bench, Handed, Limit, Own, Thief};
use crossbeam_deque::Worker;
use mot_base::NoMemory;
use std::alloc::Global;
use turn_core::{Dag, TERMINAL};

/// A graph with no edge from outside leads forward, from each item to later ones.
pub(crate) fn leads_forward(dag: &Dag)
    requires { HasNoOutside dag.now }
    ensures { IsForward dag.now.items dag.now.edges }
{
    let _items = dag.items();
}

/// The words of a pool at the start: how many edges end at each item, and how many end at none.
pub(crate) fn words_at_start(alloc: Global, dag: &Dag) -> Result<Vec<u64>, NoMemory>
    ensures { IfOk result (λ words. AreAtStart dag.now.items dag.now.edges words.items) }
{
    let mut words = Vec::with_capacity(alloc, dag.items() as usize + 1)?;
    for item in 0..dag.items() {
        words.push(dag.incoming(item).len() as u64)?;
    }
    words.push(count_ends(dag))?;
    Ok(words)
}

/// How many edges end at no item.
pub(crate) fn count_ends(dag: &Dag) -> u64
    ensures { result ≡ length (incoming_of 4294967295 dag.now.edges) }
{
    let mut count = 0;
    for edge in dag.edges() {
        if edge.target != TERMINAL {
            continue;
        }
        count += 1;
    }
    count
}

/// The items at which no edge ends.
pub(crate) fn ready_at_start(alloc: Global, dag: &Dag) -> Result<Vec<u32>, NoMemory>
    ensures { IfOk result (λ ready. All (λ item. item < dag.now.items) ready.items) }
{
    let mut ready = Vec::new(alloc);
    for item in 0..dag.items() {
        if dag.incoming(item).is_empty() {
            ready.push(item)?;
        }
    }
    Ok(ready)
}

/// A deque for each worker, to which the items are dealt in turn.
pub(crate) fn deal_all<L: Limit>(
    alloc: Global,
    items: &[u32],
    workers: usize,
) -> Result<Vec<Own<L>>, NoMemory>
    requires below { All (λ item. item < L.limit) items.now }
    ensures many { IfOk result (λ owns. length owns.items ≡ workers) }
    ensures fifo { IfOk result (λ owns. All (λ own. worker_flavor own ≡ 0) owns.items) }
{
    let mut owns = Vec::with_capacity(alloc, workers)?;
    for me in 0..workers {
        let own = deal_to(alloc, items, workers, me)?;
        owns.push(own)?;
    }
    Ok(owns)
}

/// One worker's deque, with every item of its turn.
fn deal_to<L: Limit>(
    alloc: Global,
    items: &[u32],
    workers: usize,
    me: usize,
) -> Result<Own<L>, NoMemory>
    requires turn { me < workers }
    requires below { All (λ item. item < L.limit) items.now }
    ensures { IfOk result (λ own. worker_flavor own ≡ 0) }
{
    let mut own = Worker::fifo_as(alloc, items.len() / workers + 1)?;
    for at in (me..items.len()).step_by(workers) {
        if own.push_as::<Handed<L>>(items[at]).is_err() {
            return Err(NoMemory);
        }
    }
    Ok(own)
}

/// What others take from each deque by.
pub(crate) fn thieves_of<L: Limit>(
    alloc: Global,
    owns: &Vec<Own<L>>,
) -> Result<Vec<Thief<L>>, NoMemory> {
    let mut thieves = Vec::with_capacity(alloc, owns.len())?;
    for own in owns {
        thieves.push(own.stealer()?)?;
    }
    Ok(thieves)
}

/// A worker's end of each deque, from the last on.
pub(crate) fn benches_for<'q, L: Limit>(
    alloc: Global,
    mut owns: Vec<Own<L>>,
    thieves: &'q [Thief<L>],
) -> Result<Vec<Bench<'q, L>>, NoMemory>
    requires { All (λ own. worker_flavor own ≡ 0) owns.items }
    ensures { IfOk result (λ benches. length benches.items ≡ length owns.items) }
{
    let mut benches = Vec::with_capacity(alloc, owns.len())?;
    while let Some(own) = owns.pop() {
        let me = owns.len();
        benches.push(Bench::new(own, thieves, me))?;
    }
    Ok(benches)
}
