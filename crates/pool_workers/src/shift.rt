ghost use Rattle.std.specs.Prelude.{◌≡◌, ℕ, ◌+◌, ◌<◌, ◌≤◌, [], IfOk, OnOk, length};
ghost use Rattle.std.specs.List.{All};
ghost use Rattle.pool_workers.specs.Sums.{IsForward, times, times_in, missing};
ghost use Rattle.pool_workers.specs.Words.{all_parts};
ghost use Rattle.pool_workers.specs.Steps.{Agree, IsIdle};
ghost use Rattle.pool_workers.specs.Shifts.{HasWorked, IsShift, lists};

use crate::hints::{Hints, NoHints};
use crate::item::try_item;
use crate::table::{Meaning, Pool, Worker, hire, take_in};
use mot_base::{NoMemory, Turnstile};
use std::alloc::Global;
use std::thread;
use std::thread::Threads;
use task_pool::Work;
use turn_core::Dag;

/// A worker with its end of what hands out numbers, and what it ran.
#[derive(Drop)]
pub(crate) struct Shift<E, H> {
    pub worker: Worker<E>,
    pub hints: H,
    pub ran: Vec<u32>,
}

/// Tries to run an item, and keeps its number where it ran.
fn try_number<W: Work, M: Meaning<W::Edge>, G: Turnstile, H: Hints>(
    alloc: Global,
    dag: &Dag,
    pool: &Pool<W::Edge, M>,
    worker: &mut Worker<W::Edge>,
    work: &W,
    gate: &G,
    hints: &mut H,
    inputs: &mut Vec<W::Edge>,
    ran: &mut Vec<u32>,
    item: u32,
) -> Result<(), NoMemory>
    requires dag { (M.items ≡ dag.now.items) × (M.edges ≡ dag.now.edges) × IsForward M.items M.edges }
    requires work { ((W.graph work.now).items ≡ M.items) × ((W.graph work.now).edges ≡ M.edges) ×
        Agree M.means (W.means work.now) }
    requires table { (worker.old.table_id ≡ pool.now.shared.table_id) ×
        (pool.now.shared.table_id.words ≡ M.items + 1) }
    requires item { item < M.items }
    requires idle { IsIdle M.edges worker.old.me }
    requires hints { M.items ≤ H.bound hints.old }
    ensures hints { OnOk result (H.bound hints.new ≡ H.bound hints.old) }
    ensures table { (worker.new.table_id ≡ worker.old.table_id) × (worker.new.id ≡ worker.old.id) }
    ensures idle { OnOk result (IsIdle M.edges worker.new.me ×
        (worker.new.me.0.parts ≡ worker.old.me.0.parts)) }
    ensures ran { OnOk result ((x : ℕ) → times x ran.new.items + times x worker.old.me.0.took ≡
        times x ran.old.items + times x worker.new.me.0.took) }
    ensures more { OnOk result ((x : ℕ) → times x worker.old.me.0.took ≤ times x worker.new.me.0.took) }
    ensures done { OnOk result (worker.old.me.0.parts ≡ all_parts →
        missing item 0 M.edges (λ e. times e worker.old.me.0.gave) ≡ 0 →
        times item worker.new.me.0.took ≡ 1) }
{
    let did = try_item(alloc, dag, pool, worker, work, gate, hints, inputs, item)?;
    if did {
        ran.push(item)?;
    }
    Ok(())
}

/// What one worker does: it runs the items that it is told of, until it is told of none.
fn work_shift<W: Work, M: Meaning<W::Edge>, G: Turnstile, H: Hints + Drop>(
    alloc: Global,
    dag: &Dag,
    pool: &Pool<W::Edge, M>,
    work: &W,
    gate: &G,
    shift: Shift<W::Edge, H>,
) -> Result<Shift<W::Edge, H>, NoMemory>
    requires dag { (M.items ≡ dag.now.items) × (M.edges ≡ dag.now.edges) × IsForward M.items M.edges }
    requires work { ((W.graph work.now).items ≡ M.items) × ((W.graph work.now).edges ≡ M.edges) ×
        Agree M.means (W.means work.now) }
    requires table { pool.now.shared.table_id.words ≡ M.items + 1 }
    requires shift { IsShift M.edges pool.now.shared.table_id M.items H.bound shift }
    ensures { IfOk result (IsShift M.edges pool.now.shared.table_id M.items H.bound) }
{
    let Shift {
        mut worker,
        mut hints,
        mut ran,
    } = shift;
    run_hinted(
        alloc,
        dag,
        pool,
        &mut worker,
        work,
        gate,
        &mut hints,
        &mut ran,
    )?;
    Ok(Shift { worker, hints, ran })
}

/// Runs the items that the hints tell of.
fn run_hinted<W: Work, M: Meaning<W::Edge>, G: Turnstile, H: Hints>(
    alloc: Global,
    dag: &Dag,
    pool: &Pool<W::Edge, M>,
    worker: &mut Worker<W::Edge>,
    work: &W,
    gate: &G,
    hints: &mut H,
    ran: &mut Vec<u32>,
) -> Result<(), NoMemory>
    requires dag { (M.items ≡ dag.now.items) × (M.edges ≡ dag.now.edges) × IsForward M.items M.edges }
    requires work { ((W.graph work.now).items ≡ M.items) × ((W.graph work.now).edges ≡ M.edges) ×
        Agree M.means (W.means work.now) }
    requires table { pool.now.shared.table_id.words ≡ M.items + 1 }
    requires hints { H.bound hints.old ≡ M.items }
    requires worked { HasWorked M.edges pool.now.shared.table_id worker.old ran.old.items }
    ensures worked { OnOk result (HasWorked M.edges pool.now.shared.table_id worker.new ran.new.items) }
    ensures hints { OnOk result (H.bound hints.new ≡ M.items) }
{
    let mut inputs = Vec::new(alloc);
    for _turn in 0..u64::MAX {
        let Some(item) = hints.next() else {
            break;
        };
        try_number(
            alloc,
            dag,
            pool,
            worker,
            work,
            gate,
            hints,
            &mut inputs,
            ran,
            item,
        )?;
    }
    Ok(())
}

/// Tries each item in rising order, with every part of the right to know the whole: each is taken then.
fn finish<W: Work, M: Meaning<W::Edge>, G: Turnstile>(
    alloc: Global,
    dag: &Dag,
    pool: &Pool<W::Edge, M>,
    worker: &mut Worker<W::Edge>,
    work: &W,
    gate: &G,
    ran: &mut Vec<u32>,
) -> Result<(), NoMemory>
    requires dag { (M.items ≡ dag.now.items) × (M.edges ≡ dag.now.edges) × IsForward M.items M.edges }
    requires work { ((W.graph work.now).items ≡ M.items) × ((W.graph work.now).edges ≡ M.edges) ×
        Agree M.means (W.means work.now) }
    requires table { (worker.old.table_id ≡ pool.now.shared.table_id) ×
        (pool.now.shared.table_id.words ≡ M.items + 1) }
    requires idle { IsIdle M.edges worker.old.me × (worker.old.me.0.parts ≡ all_parts) }
    ensures table { worker.new.table_id ≡ worker.old.table_id }
    ensures idle { OnOk result (IsIdle M.edges worker.new.me × (worker.new.me.0.parts ≡ all_parts)) }
    ensures all { OnOk result ((x : ℕ) → x < M.items → 1 ≤ times x worker.new.me.0.took) }
    ensures ran { OnOk result ((x : ℕ) → times x ran.new.items + times x worker.old.me.0.took ≡
        times x ran.old.items + times x worker.new.me.0.took) }
{
    let mut inputs = Vec::new(alloc);
    let mut hints = NoHints;
    for item in 0..dag.items() {
        try_number(
            alloc,
            dag,
            pool,
            worker,
            work,
            gate,
            &mut hints,
            &mut inputs,
            ran,
            item,
        )?;
    }
    Ok(())
}

/// A seat for each worker.
pub(crate) fn hire_all<E: Drop, M: Meaning<E>, H: Hints + Drop>(
    alloc: Global,
    pool: &Pool<E, M>,
    caller: &mut Worker<E>,
    mut hints: Vec<H>,
) -> Result<Vec<Shift<E, H>>, NoMemory>
    requires table { (caller.old.table_id ≡ pool.now.shared.table_id) ×
        (pool.now.shared.table_id.words ≡ M.items + 1) }
    requires some_part { length hints.items < caller.old.me.0.parts }
    requires bounds { All (λ h. H.bound h ≡ M.items) hints.items }
    ensures table { (caller.new.table_id ≡ caller.old.table_id) × (caller.new.me.1 ≡ caller.old.me.1) }
    ensures view { OnOk result ((caller.new.me.0.parts + length hints.items ≡ caller.old.me.0.parts) ×
        (caller.new.me.0.took ≡ caller.old.me.0.took) × (caller.new.me.0.gave ≡ caller.old.me.0.gave)) }
    ensures shifts { IfOk result (λ shifts. (length shifts.items ≡ length hints.items) ×
        All (IsShift M.edges pool.now.shared.table_id M.items H.bound) shifts.items) }
{
    let mut shifts = Vec::with_capacity(alloc, hints.len())?;
    while let Some(end) = hints.pop() {
        let worker = hire(pool, caller);
        shifts.push(Shift {
            worker,
            hints: end,
            ran: Vec::new(alloc),
        })?;
    }
    Ok(shifts)
}

/// Takes in the seats of all workers, and keeps what each ran.
pub(crate) fn take_in_all<E: Drop, M: Meaning<E>, H: Hints + Drop>(
    alloc: Global,
    pool: &Pool<E, M>,
    caller: &mut Worker<E>,
    mut shifts: Vec<Shift<E, H>>,
) -> Result<Vec<Vec<u32>>, NoMemory>
    requires table { (caller.old.table_id ≡ pool.now.shared.table_id) ×
        (pool.now.shared.table_id.words ≡ M.items + 1) }
    requires idle { IsIdle M.edges caller.old.me }
    requires none { (caller.old.me.0.took ≡ []) }
    requires worked { All (IsShift M.edges pool.now.shared.table_id M.items H.bound) shifts.items }
    ensures table { OnOk result (caller.new.table_id ≡ caller.old.table_id) }
    ensures idle { OnOk result (IsIdle M.edges caller.new.me ×
        (caller.new.me.0.parts ≡ caller.old.me.0.parts + length shifts.items)) }
    ensures ran { IfOk result (λ ran. (length ran.items ≡ length shifts.items) ×
        ((x : ℕ) → times_in x (lists ran.items) ≡ times x caller.new.me.0.took)) }
{
    let mut rows = Vec::with_capacity(alloc, shifts.len())?;
    while let Some(shift) = shifts.pop() {
        let Shift { worker, ran, .. } = shift;
        take_in(pool, caller, worker);
        rows.push(ran)?;
    }
    Ok(rows)
}

/// Runs the workers side by side, and waits for them.
pub(crate) fn run_shifts<
    W: Work + Sync,
    M: Meaning<W::Edge> + Send + Sync,
    G: Turnstile + Sync,
    H: Hints + Send + Drop,
    R: Threads + Sync,
>(
    rt: &R,
    alloc: Global,
    dag: &Dag,
    pool: &Pool<W::Edge, M>,
    work: &W,
    gate: &G,
    shifts: Vec<Shift<W::Edge, H>>,
) -> Result<Vec<Shift<W::Edge, H>>, NoMemory>
where
    W::Edge: Send,
    requires dag { (M.items ≡ dag.now.items) × (M.edges ≡ dag.now.edges) × IsForward M.items M.edges }
    requires work { ((W.graph work.now).items ≡ M.items) × ((W.graph work.now).edges ≡ M.edges) ×
        Agree M.means (W.means work.now) }
    requires table { pool.now.shared.table_id.words ≡ M.items + 1 }
    requires worked { All (IsShift M.edges pool.now.shared.table_id M.items H.bound) shifts.items }
    ensures many { IfOk result (λ more. length more.items ≡ length shifts.items) }
    ensures worked { IfOk result (λ more.
        All (IsShift M.edges pool.now.shared.table_id M.items H.bound) more.items) }
{
    let results = thread::map_vec(
        rt,
        shifts,
        &|shift: Shift<W::Edge, H>| -> Result<Shift<W::Edge, H>, NoMemory>
            requires { (M.items ≡ dag.now.items) × (M.edges ≡ dag.now.edges) × IsForward M.items M.edges ×
                ((W.graph work.now).items ≡ M.items) × ((W.graph work.now).edges ≡ M.edges) ×
                Agree M.means (W.means work.now) × (pool.now.shared.table_id.words ≡ M.items + 1) ×
                IsShift M.edges pool.now.shared.table_id M.items H.bound shift }
            ensures { IfOk result (IsShift M.edges pool.entry.now.shared.table_id M.items H.bound) }
        { work_shift(alloc, dag, pool, work, gate, shift) },
    )?;
    let shifts = all_well(alloc, pool, results)?;
    Ok(shifts)
}

/// The workers that have ended, where memory was wanting for none. The contract alone asks which pool it is.
fn all_well<E: Drop, M: Meaning<E>, H: Hints + Drop>(
    alloc: Global,
    _pool: &Pool<E, M>,
    mut results: Vec<Result<Shift<E, H>, NoMemory>>,
) -> Result<Vec<Shift<E, H>>, NoMemory>
    requires { All (λ r. IfOk r (IsShift M.edges _pool.now.shared.table_id M.items H.bound)) results.items }
    ensures many { IfOk result (λ shifts. length shifts.items ≡ length results.items) }
    ensures worked { IfOk result (λ shifts.
        All (IsShift M.edges _pool.now.shared.table_id M.items H.bound) shifts.items) }
{
    let mut shifts = Vec::with_capacity(alloc, results.len())?;
    while let Some(result) = results.pop() {
        let shift = result?;
        shifts.push(shift)?;
    }
    Ok(shifts)
}

/// The last pass: what it runs stands in the last list.
pub(crate) fn run_rest<W: Work, M: Meaning<W::Edge>, G: Turnstile>(
    alloc: Global,
    dag: &Dag,
    pool: &Pool<W::Edge, M>,
    worker: &mut Worker<W::Edge>,
    work: &W,
    gate: &G,
    ran: &mut Vec<Vec<u32>>,
) -> Result<(), NoMemory>
    requires dag { (M.items ≡ dag.now.items) × (M.edges ≡ dag.now.edges) × IsForward M.items M.edges }
    requires work { ((W.graph work.now).items ≡ M.items) × ((W.graph work.now).edges ≡ M.edges) ×
        Agree M.means (W.means work.now) }
    requires table { (worker.old.table_id ≡ pool.now.shared.table_id) ×
        (pool.now.shared.table_id.words ≡ M.items + 1) }
    requires idle { IsIdle M.edges worker.old.me × (worker.old.me.0.parts ≡ all_parts) }
    requires some { 1 ≤ length ran.old.items }
    requires ran { (x : ℕ) → times_in x (lists ran.old.items) ≡ times x worker.old.me.0.took }
    ensures table { worker.new.table_id ≡ worker.old.table_id }
    ensures idle { OnOk result (IsIdle M.edges worker.new.me × (worker.new.me.0.parts ≡ all_parts)) }
    ensures all { OnOk result ((x : ℕ) → x < M.items → 1 ≤ times x worker.new.me.0.took) }
    ensures many { OnOk result (length ran.new.items ≡ length ran.old.items) }
    ensures ran { OnOk result ((x : ℕ) →
        times_in x (lists ran.new.items) ≡ times x worker.new.me.0.took) }
{
    let Some(mut last) = ran.pop() else {
        unreachable!();
    };
    finish(alloc, dag, pool, worker, work, gate, &mut last)?;
    ran.push(last)?;
    Ok(())
}
