//! A small work, and what is told of its runs.

ghost use Rattle.std.specs.Prelude.{◌≡◌, true};
ghost use Rattle.task_pool.specs.Meanings.{HasNoOutside};

use mot_base::{NoMemory, Turnstile};
use pool_workers::{Collected, run_pool, run_waves};
use std::alloc::Global;
use std::thread::Threads;
use task_pool::Work;
use turn_core::{Dag, OUTSIDE};

/// An item at which no edge ends sends 4 more than its number along each of its edges, and any other the
/// sum of what came to it.
#[derive(Drop)]
pub(crate) struct Sums {
    pub dag: Dag,
}

impl Work for Sums {
    type Edge = u64;

    ghost graph = { λ w. w.dag };

    ghost means = { λ w e v. Unit {0} };

    fn run(&self, alloc: Global, item: u32, inputs: &mut Vec<u64>) -> Result<Vec<u64>, NoMemory> {
        let sum = sum_at(item, inputs.as_slice());
        let outputs = Vec::from_elem(alloc, sum, self.dag.outgoing(item).len())?;
        Ok(outputs)
    }
}

/// What an item sends.
fn sum_at(item: u32, inputs: &[u64]) -> u64 {
    if inputs.is_empty() {
        return u64::from(item) + 4;
    }
    sum_of(inputs)
}

/// The sum of some numbers modulo 2^64.
pub(crate) fn sum_of(numbers: &[u64]) -> u64 {
    let mut sum: u64 = 0;
    for number in numbers {
        sum = sum.wrapping_add(*number);
    }
    sum
}

/// Whether no edge comes from outside.
fn is_inside(dag: &Dag) -> bool
    ensures { result ≡ true → HasNoOutside dag.now }
{
    for edge in dag.edges() {
        if edge.source == OUTSIDE {
            return false;
        }
    }
    true
}

/// By which call a work is run.
#[derive(Clone, Copy, PartialEq, Eq)]
pub(crate) enum Way {
    Pool,
    Waves,
}

/// What a run of the work gives, where it has no edge from outside and there are 1 to 16 workers.
pub(crate) fn run_by<G: Turnstile + Sync, R: Threads + Sync>(
    rt: &R,
    alloc: Global,
    way: Way,
    work: &Sums,
    workers: u8,
    gate: &G,
) -> Option<Collected<u64>> {
    if workers == 0 || workers > 16 || !is_inside(&work.dag) {
        return None;
    }
    match way {
        Way::Pool => run_pool(rt, alloc, &work.dag, work, workers, gate).ok(),
        Way::Waves => run_waves(rt, alloc, &work.dag, work, workers, gate).ok(),
    }
}

/// Whether the lists have each item once, and no other number.
pub(crate) fn is_each_once(alloc: Global, ran: &[Vec<u32>], items: u32) -> bool {
    let Ok(mut seen) = Vec::from_elem(alloc, false, items as usize) else {
        return false;
    };
    for list in ran {
        if !is_first(&mut seen, list.as_slice()) {
            return false;
        }
    }
    seen.iter().all(|was| *was)
}

/// Whether none of the numbers was seen before, and marks them as seen.
fn is_first(seen: &mut [bool], numbers: &[u32]) -> bool {
    for number in numbers {
        let at = *number as usize;
        if at >= seen.len() || seen[at] {
            return false;
        }
        seen[at] = true;
    }
    true
}
