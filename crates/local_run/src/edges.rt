//! The edges between items.

ghost use Rattle.std.specs.Prelude.{◌≡◌, ◌<◌, ◌≤◌, ◌+◌, ◌++◌, map, length, IfOk, OnOk};
ghost use Rattle.std.specs.List.{AllByRecursion};
ghost use Rattle.share_types.specs.Sums.{each};
ghost use Rattle.plan_gates.specs.Plan.{IsPlan};
ghost use Rattle.plan_gates.specs.Messages.{sent_in};
ghost use Rattle.local_run.specs.Items.{item, all_items, first_item, IsItem};
ghost use Rattle.local_run.specs.Loads.{all_loads, all_edges, edge_to, giver, IsGiven};

use crate::item::{Item, Load};
use crate::items::Items;
use crate::loads::{push_loads, push_reports};
use mot_base::{NoMemory, Party};
use plan_gates::Plan;
use std::alloc::Global;
use turn_core::{Edge, TERMINAL};

/// The edges by their numbers, and what each carries: first those to the items, one item after another, and then those
/// to the end.
#[derive(Drop)]
pub(crate) struct Edges {
    pub(crate) loads: Vec<Load>,
    pub(crate) edges: Vec<Edge>,
}

impl Edges {
    /// The edges of a plan, whose items these are.
    pub(crate) fn new(alloc: Global, plan: &Plan, items: &Items) -> Result<Edges, NoMemory>
        requires list { items.now.list.items ≡ all_items plan.now }
        requires firsts { items.now.firsts.items ≡ each (length plan.now.gates) (first_item plan.now) }
        requires plan { IsPlan plan.now }
        ensures loads { IfOk result (λ made. made.loads.items ≡ all_loads plan.now) }
        ensures edges { IfOk result (λ made. made.edges.items ≡ all_edges plan.now) }
    {
        let mut loads = Vec::new(alloc);
        let mut edges = Vec::new(alloc);
        for (number, item) in items.list.iter().enumerate() {
            let start = loads.len();
            push_loads(plan, *item, &mut loads)?;
            push_edges(plan, items, &loads[start..], number as u32, &mut edges)?;
        }
        let start = loads.len();
        push_reports(plan, &mut loads)?;
        push_edges(plan, items, &loads[start..], TERMINAL, &mut edges)?;
        Ok(Edges { loads, edges })
    }
}

/// Adds edges to one target that carry this at the end.
fn push_edges(
    plan: &Plan,
    items: &Items,
    loads: &[Load],
    target: u32,
    edges: &mut Vec<Edge>,
) -> Result<(), NoMemory>
    requires firsts { items.now.firsts.items ≡ each (length plan.now.gates) (first_item plan.now) }
    requires plan { IsPlan plan.now }
    requires given { AllByRecursion (IsGiven plan.now) loads.now }
    ensures { OnOk result (edges.new.items ≡ edges.old.items ++ map (edge_to plan.now target) loads.now) }
{
    for load in loads {
        let source = items.number(plan, giver(plan, *load));
        edges.push(Edge { source, target })?;
    }
    Ok(())
}

/// The item that gives what an edge carries.
fn giver(plan: &Plan, load: Load) -> Item
    requires { IsGiven plan.now load }
    ensures giver { result ≡ giver plan.now load }
    ensures item { IsItem plan.now result }
{
    match load {
        Load::Wire { gate, party } => Item {
            gate,
            stage: plan.stages(party, gate) - 1,
            party,
        },
        Load::Kept { gate, round, party } => sender(plan, gate, round, party),
        Load::Message {
            gate,
            round,
            from,
            ..
        } => sender(plan, gate, round, from),
    }
}

/// The item in which a party sends a round of a gate.
fn sender(plan: &Plan, gate: u32, round: u8, party: Party) -> Item
    requires { gate < length plan.now.gates }
    ensures { result ≡ item gate (sent_in plan.now party.0 gate round) party.0 }
{
    Item {
        gate,
        stage: plan.sent_in(party, gate, round),
        party,
    }
}
