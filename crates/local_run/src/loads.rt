//! What the edges between items carry.

ghost use Rattle.std.specs.Prelude.{◌≡◌, ◌<◌, ◌≤◌, ◌+◌, ◌++◌, ◌∷◌, [], map, length, slice_get, is_some, Some, IfOk, OnOk};
ghost use Rattle.std.specs.Option.{option_to_list};
ghost use Rattle.plan_gates.specs.Messages.{message};
ghost use Rattle.gate_tasks.specs.Report.{told_to};
ghost use Rattle.local_run.specs.declared.item.Load.TheVariants.{Wire};
ghost use Rattle.local_run.specs.Loads.{wires_to, sent_to, loads_to, sent_round, sent_at, sent_before, report_loads, reports_loads};

use crate::item::{Item, Load};
use mot_base::{NoMemory, Party};
use plan_gates::Plan;

/// Adds what flows into an item at the end.
pub(crate) fn push_loads(plan: &Plan, item: Item, loads: &mut Vec<Load>) -> Result<(), NoMemory>
    requires { item.gate < length plan.now.gates }
    ensures { OnOk result (loads.new.items ≡ loads.old.items ++ loads_to plan.now item) }
{
    push_wires(plan, item.gate, item.party, loads)?;
    let Some(round) = plan.awaits(item.party, item.gate, item.stage) else {
        return Ok(());
    };
    loads.push(Load::Kept {
        gate: item.gate,
        round,
        party: item.party,
    })?;
    push_sent_to(plan, item.gate, round, item.party, loads)?;
    Ok(())
}

/// Adds what the reports of all parties need at the end.
pub(crate) fn push_reports(plan: &Plan, loads: &mut Vec<Load>) -> Result<(), NoMemory>
    ensures { OnOk result (loads.new.items ≡ loads.old.items ++ reports_loads plan.now plan.now.parties) }
{
    for party in 0..plan.parties() {
        push_told(plan, Party(party), loads)?;
        push_sent(plan, Party(party), loads)?;
    }
    Ok(())
}

/// Adds the values of a gate's operands at a party at the end.
fn push_wires(plan: &Plan, gate: u32, party: Party, loads: &mut Vec<Load>) -> Result<(), NoMemory>
    requires { gate < length plan.now.gates }
    ensures { OnOk result (loads.new.items ≡ loads.old.items ++ wires_to plan.now gate party) }
{
    let operands = plan.gate(gate).operands();
    push_wire(operands.first, party, loads)?;
    push_wire(operands.second, party, loads)?;
    push_wire(operands.third, party, loads)?;
    Ok(())
}

/// Adds a party's value of a gate at the end, if there is one.
fn push_wire(gate: Option<u32>, party: Party, loads: &mut Vec<Load>) -> Result<(), NoMemory>
    ensures { OnOk result (loads.new.items
        ≡ loads.old.items ++ map (λ x. Wire x party) (option_to_list gate)) }
{
    let Some(gate) = gate else {
        return Ok(());
    };
    loads.push(Load::Wire { gate, party })?;
    Ok(())
}

/// Adds what a party is sent in a round of a gate at the end.
fn push_sent_to(
    plan: &Plan,
    gate: u32,
    round: u8,
    party: Party,
    loads: &mut Vec<Load>,
) -> Result<(), NoMemory>
    requires { gate < length plan.now.gates }
    ensures { OnOk result (loads.new.items ≡ loads.old.items ++ sent_to plan.now gate round party) }
{
    for from in 0..plan.parties() {
        let from = Party(from);
        if !is_sent(plan, gate, round, from, party) {
            continue;
        }
        loads.push(Load::Message {
            gate,
            round,
            from,
            to: party,
        })?;
    }
    Ok(())
}

/// Adds the values that are told to a party at the end.
pub(crate) fn push_told(plan: &Plan, party: Party, loads: &mut Vec<Load>) -> Result<(), NoMemory>
    ensures { OnOk result (loads.new.items
        ≡ loads.old.items ++ map (λ g. Wire g party) (told_to plan.now party.0)) }
{
    for gate in 0..plan.gates() {
        if !plan.tells(party, gate) {
            continue;
        }
        loads.push(Load::Wire { gate, party })?;
    }
    Ok(())
}

/// Adds all that a party sends at the end.
pub(crate) fn push_sent(plan: &Plan, party: Party, loads: &mut Vec<Load>) -> Result<(), NoMemory>
    ensures { OnOk result (loads.new.items
        ≡ loads.old.items ++ sent_before plan.now party (length plan.now.gates)) }
{
    for gate in 0..plan.gates() {
        push_sent_at(plan, gate, party, loads)?;
    }
    Ok(())
}

/// Adds what a party sends at a gate at the end.
fn push_sent_at(plan: &Plan, gate: u32, party: Party, loads: &mut Vec<Load>) -> Result<(), NoMemory>
    requires { gate < length plan.now.gates }
    ensures { OnOk result (loads.new.items ≡ loads.old.items ++ sent_at plan.now party gate) }
{
    for round in 0..plan.rounds(gate) {
        push_sent_round(plan, gate, round, party, loads)?;
    }
    Ok(())
}

/// Adds what a party sends in a round of a gate at the end.
fn push_sent_round(
    plan: &Plan,
    gate: u32,
    round: u8,
    party: Party,
    loads: &mut Vec<Load>,
) -> Result<(), NoMemory>
    requires { gate < length plan.now.gates }
    ensures { OnOk result (loads.new.items ≡ loads.old.items ++ sent_round plan.now party gate round) }
{
    for to in 0..plan.parties() {
        let to = Party(to);
        if !is_sent(plan, gate, round, party, to) {
            continue;
        }
        loads.push(Load::Message {
            gate,
            round,
            from: party,
            to,
        })?;
    }
    Ok(())
}

/// Whether one party sends another something in a round of a gate.
fn is_sent(plan: &Plan, gate: u32, round: u8, from: Party, to: Party) -> bool
    requires { gate < length plan.now.gates }
    ensures { result ≡ is_some (message plan.now from.0 to.0 gate round) }
{
    plan.slot(from, to, gate, round).is_some()
}
