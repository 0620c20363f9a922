//! The graph of a run of all parties.

ghost use Rattle.std.specs.Prelude.{◌≡◌, length, IfOk};
ghost use Rattle.plan_gates.specs.Plan.{IsPlan};
ghost use Rattle.local_run.specs.Items.{all_items};
ghost use Rattle.local_run.specs.Loads.{all_loads, all_edges, graph_of};

use crate::edges::Edges;
use crate::item::{Item, Load};
use crate::items::Items;
use mot_base::NoMemory;
use plan_gates::Plan;
use std::alloc::Global;
use turn_core::{Dag, DagError};

/// The items of a run, what its edges carry, and the graph of both.
#[derive(Drop)]
pub(crate) struct RunGraph {
    pub(crate) items: Vec<Item>,
    pub(crate) loads: Vec<Load>,
    pub(crate) dag: Dag,
}

impl RunGraph {
    /// The graph of the runs of a plan.
    pub(crate) fn new(alloc: Global, plan: &Plan) -> Result<RunGraph, NoMemory>
        ensures items { IfOk result (λ run. run.items.items ≡ all_items plan.now) }
        ensures loads { IfOk result (λ run. run.loads.items ≡ all_loads plan.now) }
        ensures dag { IfOk result (λ run. run.dag ≡ graph_of plan.now) }
    {
        let _parties = plan.parties();
        let items = Items::new(alloc, plan)?;
        let Edges { loads, edges } = Edges::new(alloc, plan, &items)?;
        let list = items.list;
        match Dag::new(alloc, list.len() as u32, edges) {
            Ok(dag) => Ok(RunGraph {
                items: list,
                loads,
                dag,
            }),
            Err(DagError::NoMemory) => Err(NoMemory),
            Err(DagError::BadEnd(_)) => unreachable!(),
            Err(DagError::NotForward(_)) => unreachable!(),
        }
    }
}
