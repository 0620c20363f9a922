ghost use Rattle.std.specs.Prelude.{◌≡◌, ◌<◌, ◌≤◌, ◌+◌, ◌*◌, ◌++◌, map, length, IfOk, OnOk};
ghost use Rattle.share_types.specs.Sums.{each};
ghost use Rattle.plan_gates.specs.Plan.{IsPlan};
ghost use Rattle.plan_gates.specs.Messages.{rounds};
ghost use Rattle.local_run.specs.Items.{item, items_before, items_behind, items_waiting, all_items, first_item, listeners, number_of, IsItem};

use crate::item::Item;
use mot_base::{NoMemory, Party};
use plan_gates::Plan;
use std::alloc::Global;

/// All items of a plan by their numbers, and the number of each gate's first one.
#[derive(Drop)]
pub(crate) struct Items {
    pub(crate) list: Vec<Item>,
    pub(crate) firsts: Vec<u32>,
}

impl Items {
    /// The items of a plan.
    pub(crate) fn new(alloc: Global, plan: &Plan) -> Result<Items, NoMemory>
        ensures list { IfOk result (λ items. items.list.items ≡ all_items plan.now) }
        ensures firsts { IfOk result (λ items.
            items.firsts.items ≡ each (length plan.now.gates) (first_item plan.now)) }
    {
        let mut list = Vec::new(alloc);
        let mut firsts = Vec::new(alloc);
        for gate in 0..plan.gates() {
            firsts.push(list.len() as u32)?;
            push_first_stages(plan, gate, &mut list)?;
            push_later_stages(plan, gate, &mut list)?;
        }
        Ok(Items { list, firsts })
    }

    /// The number of an item.
    pub(crate) fn number(&self, plan: &Plan, item: Item) -> u32
        requires firsts { self.now.firsts.items ≡ each (length plan.now.gates) (first_item plan.now) }
        requires plan { IsPlan plan.now }
        requires item { IsItem plan.now item }
        ensures { result ≡ number_of plan.now item }
    {
        let first = self.firsts[item.gate as usize];
        let Some(round) = plan.awaits(item.party, item.gate, item.stage) else {
            return first + u32::from(item.party.0);
        };
        first
            + u32::from(plan.parties())
            + waiting_before(plan, item.gate, round)
            + listeners_below(plan, item.gate, round, item.party.0)
    }
}

/// Adds the first stages of all parties at a gate at the end.
fn push_first_stages(plan: &Plan, gate: u32, items: &mut Vec<Item>) -> Result<(), NoMemory>
    ensures { OnOk result (items.new.items ≡ items.old.items ++ each plan.now.parties (item gate 0)) }
{
    for party in 0..plan.parties() {
        items.push(Item {
            gate,
            stage: 0,
            party: Party(party),
        })?;
    }
    Ok(())
}

/// Adds the stages of a gate that wait for a round at the end, round by round.
fn push_later_stages(plan: &Plan, gate: u32, items: &mut Vec<Item>) -> Result<(), NoMemory>
    requires { gate < length plan.now.gates }
    ensures { OnOk result
        (items.new.items ≡ items.old.items ++ items_behind plan.now gate (rounds plan.now gate)) }
{
    for round in 0..plan.rounds(gate) {
        push_waiting(plan, gate, round, items)?;
    }
    Ok(())
}

/// Adds the stages of a gate that wait for one round at the end, by party.
fn push_waiting(plan: &Plan, gate: u32, round: u8, items: &mut Vec<Item>) -> Result<(), NoMemory>
    requires gate { gate < length plan.now.gates }
    requires round { round < 255 }
    ensures { OnOk result (items.new.items ≡ items.old.items ++ items_waiting plan.now gate round) }
{
    for party in 0..plan.parties() {
        let party = Party(party);
        if !plan.hears(party, gate, round) {
            continue;
        }
        items.push(Item {
            gate,
            stage: plan.sent_in(party, gate, round) + 1,
            party,
        })?;
    }
    Ok(())
}

/// How many stages of a gate wait for a round before this one.
fn waiting_before(plan: &Plan, gate: u32, round: u8) -> u32
    requires { gate < length plan.now.gates }
    ensures value { result ≡ length (items_behind plan.now gate round) }
    ensures few { result ≤ 255 * round }
{
    let mut count = 0;
    for earlier in 0..round {
        count += listeners_below(plan, gate, earlier, plan.parties());
    }
    count
}

/// How many of the first parties receive something in a round of a gate.
fn listeners_below(plan: &Plan, gate: u32, round: u8, parties: u8) -> u32
    requires { gate < length plan.now.gates }
    ensures value { result ≡ length (listeners plan.now gate round parties) }
    ensures few { result ≤ parties }
{
    let mut count = 0;
    for party in 0..parties {
        if !plan.hears(Party(party), gate, round) {
            continue;
        }
        count += 1;
    }
    count
}
