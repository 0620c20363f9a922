ghost use Rattle.std.specs.Prelude.{◌≡◌, ℕ, ◌<◌, ◌≤◌, [], length, vec_capacity, nat_lt, IfOk, OnOk};
ghost use Rattle.std.specs.Mem.Slots.{slots_items, slots_len, IsFull};
ghost use Rattle.task_pool.specs.Meanings.{AreMeanings};
ghost use Rattle.pool_workers.specs.Sums.{IsForward, once, times, incoming_of};
ghost use Rattle.pool_workers.specs.Words.{all_parts};
ghost use Rattle.pool_workers.specs.Steps.{IsIdle};
ghost use Rattle.pool_workers.specs.Shifts.{AreEnds};

use crate::start::count_ends;
use crate::table::{Meaning, Pool, Worker};
use atomic_table::Closed;
use mot_base::NoMemory;
use std::alloc::Global;
use turn_core::{Dag, Edge, TERMINAL};

/// Takes the table apart, and gives the values on the edges that end at no item, in the order of the edges.
pub(crate) fn collect<E: Drop, M: Meaning<E>>(
    alloc: Global,
    dag: &Dag,
    pool: Pool<E, M>,
    worker: Worker<E>,
) -> Result<Vec<E>, NoMemory>
    requires dag { (M.edges ≡ dag.now.edges) × IsForward M.items M.edges }
    requires table { (worker.table_id ≡ pool.shared.table_id) ×
        (pool.shared.table_id.slots ≡ length M.edges) }
    requires idle { IsIdle M.edges worker.me × (worker.me.0.parts ≡ all_parts) }
    requires all { (x : ℕ) → x < M.items → 1 ≤ times x worker.me.0.took }
    ensures ends { IfOk result (λ ends. AreMeanings M.means (incoming_of 4294967295 M.edges) ends.items) }
    ensures took { OnOk result ((x : ℕ) → times x worker.me.0.took ≡ once (nat_lt x M.items)) }
{
    let ends = Vec::with_capacity(alloc, count_ends(dag) as usize)?;
    let closed = pool.close_with(worker);
    let ends = pick_ends::<E, M>(dag.edges(), closed, ends);
    Ok(ends)
}

/// Empties the slots, and keeps the values on the edges that end at no item.
fn pick_ends<E: Drop, M: Meaning<E>>(
    edges: &[Edge],
    mut closed: Closed<Option<E>, Global>,
    mut ends: Vec<E>,
) -> Vec<E>
    requires edges { edges.now ≡ M.edges }
    requires full { IsFull closed.slots }
    requires many { slots_len closed.slots ≡ length M.edges }
    requires ends { AreEnds M.edges M.means (slots_items closed.slots) }
    requires room { length (incoming_of 4294967295 M.edges) ≤ vec_capacity ends }
    requires empty { ends.items ≡ [] }
    ensures { AreMeanings M.means (incoming_of 4294967295 M.edges) result.items }
{
    for (number, edge) in edges.iter().enumerate() {
        let value = closed.take(number);
        if edge.target != TERMINAL {
            continue;
        }
        let Some(value) = value else {
            unreachable!();
        };
        let Ok(()) = ends.push(value) else {
            unreachable!();
        };
    }
    closed.free();
    ends
}
