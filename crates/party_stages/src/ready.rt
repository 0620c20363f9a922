//! The ready stages of a turn, side by side.

ghost use Rattle.std.specs.Prelude.{◌≡◌, ◌≤◌, ◌<◌, length, IfOk};
ghost use Rattle.std.specs.List.{All};
ghost use Rattle.mot_base.specs.Limits.{most_gates};
ghost use Rattle.party_stages.specs.Following.{IsRan};
ghost use Rattle.party_stages.specs.Scene.{IsScene, IsReady, lone_items};

use crate::brought::Brought;
use crate::ran::Ran;
use crate::scene::run_one;
use crate::stages::Stages;
use dealer_files::DealerPart;
use joint_run::Own;
use message_demux::Inbox;
use mot_base::{NoMemory, Turnstile};
use plan_gates::Plan;
use pool_workers::run_waves;
use std::alloc::Global;
use std::marker::Model;
use std::thread::Threads;
use task_pool::Work;
use turn_core::{Dag, DagError, Edge, TERMINAL};

/// The next stages of gates that are ready, as the items of a graph without edges between them.
#[derive(Drop)]
struct ReadyStages<'r> {
    plan: &'r Plan,
    own: &'r Own,
    part: &'r DealerPart,
    inbox: &'r Inbox,
    stages: &'r Stages,
    ready: &'r [u32],
    dag: &'r Dag,
}

impl<'r> Model for ReadyStages<'r> {
    ghost use Rattle.std.specs.Coded.{codes};
    ghost use Rattle.message_demux.specs.Kept.{contents_code};
    ghost use Rattle.party_stages.specs.Scene.{Wave, IsWave};

    ghost Value = { Wave };

    ghost coded = { Prim.hlevel (codes, contents_code) };

    ghost view = { λ w. record {
      side = record { plan = w.plan.now; own = w.own.now; part = w.part.now };
      inbox = w.inbox.now;
      graph = w.dag.now;
    } };

    ghost invariant = { λ w.
        IsWave (record { plan = w.plan.now; own = w.own.now; part = w.part.now }) w.inbox.now w.stages.now w.ready.now w.dag.now };
}

impl<'r> Work for ReadyStages<'r> {
    type Edge = Ran;

    ghost graph = { λ w. w.graph };

    ghost means = { λ w _ ran. IsRan w.side w.inbox ran };

    fn run(&self, alloc: Global, item: u32, _inputs: &mut Vec<Ran>) -> Result<Vec<Ran>, NoMemory> {
        let brought = Brought {
            plan: self.plan,
            own: self.own,
            part: self.part,
        };
        let gate = self.ready[item as usize];
        let ran = run_one(alloc, &brought, self.inbox, self.stages, gate)?;
        let mut outputs = Vec::new(alloc);
        outputs.push(ran)?;
        Ok(outputs)
    }
}

/// Runs the next stages of gates that are ready, by 1 to 16 workers. One stage alone is run at once, and passes no gate.
pub fn run_ready<G: Turnstile + Sync, R: Threads + Sync>(
    rt: &R,
    alloc: Global,
    brought: &Brought,
    inbox: &Inbox,
    stages: &Stages,
    ready: &[u32],
    workers: u8,
    gate: &G,
) -> Result<Vec<Ran>, NoMemory>
    requires scene { IsScene brought.now inbox.now stages.now }
    requires ready { All (IsReady brought.now inbox.now stages.now) ready.now }
    requires few { length ready.now ≤ most_gates }
    requires workers { (1 ≤ workers) × (workers ≤ 16) }
    ensures { IfOk result (λ rans. All (IsRan brought.now inbox.now) rans.items) }
{
    if let [one] = ready {
        return run_alone(alloc, brought, inbox, stages, *one);
    }
    let dag = lone_graph(alloc, ready.len() as u32)?;
    let work = ReadyStages {
        plan: brought.plan,
        own: brought.own,
        part: brought.part,
        inbox,
        stages,
        ready,
        dag: &dag,
    };
    let collected = run_waves(rt, alloc, &dag, &work, workers, gate)?;
    Ok(collected.ends)
}

/// Runs the next stage of a gate, as one of a list.
fn run_alone(
    alloc: Global,
    brought: &Brought,
    inbox: &Inbox,
    stages: &Stages,
    gate: u32,
) -> Result<Vec<Ran>, NoMemory>
    requires scene { IsScene brought.now inbox.now stages.now }
    requires ready { IsReady brought.now inbox.now stages.now gate }
    ensures { IfOk result (λ rans. All (IsRan brought.now inbox.now) rans.items) }
{
    let ran = run_one(alloc, brought, inbox, stages, gate)?;
    let mut rans = Vec::new(alloc);
    rans.push(ran)?;
    Ok(rans)
}

/// The graph of so many items without edges between them.
fn lone_graph(alloc: Global, items: u32) -> Result<Dag, NoMemory>
    requires { items ≤ most_gates }
    ensures { IfOk result (λ dag. dag ≡ lone_items items) }
{
    let mut edges = Vec::with_capacity(alloc, items as usize)?;
    for source in 0..items {
        edges.push(Edge {
            source,
            target: TERMINAL,
        })?;
    }
    match Dag::new(alloc, items, edges) {
        Ok(dag) => Ok(dag),
        Err(DagError::NoMemory) => Err(NoMemory),
        Err(DagError::BadEnd(_)) => unreachable!(),
        Err(DagError::NotForward(_)) => unreachable!(),
    }
}
