//! Values of which each party enters its part as a wire that is shared as keys, and which are then put together.

ghost use Rattle.std.specs.Prelude.{◌≡◌, ◌<◌, ◌≤◌, ◌+◌, ◌-◌, ◌*◌, None, length, IfOk, OnOk};
ghost use Rattle.mot_base.specs.Limits.{least_parties, most_parties, most_gates};
ghost use Rattle.plan_gates.specs.Gate.{kind_of, stated_width};
ghost use Rattle.plan_gates.specs.Plan.{with_gates};
ghost use Rattle.gate_plan.specs.Blocks.{in_row};
ghost use Rattle.gate_plan.specs.Adder.{pair_at};
ghost use Rattle.gate_plan.specs.Convert.{entry_of, width_of_parts, joiner_of, entries, joined_wire, joint_gates, from_parts, entry_gates};

use crate::adder::push_adder;
use crate::block::{push_two, push_xored};
use crate::wire::Wire;
use mot_base::{NoMemory, Party};
use plan_gates::{Draft, GateKind};

/// A value that the parties enter in parts: the word of a gate, or its vector of a width.
#[derive(Clone, Copy, Debug)]
pub enum Parts {
    Word { x: u32 },
    Vector { x: u32, width: u8 },
}

impl Parts {
    /// The width of the value.
    fn width(self) -> u8
        ensures { result ≡ width_of_parts self }
    {
        match self {
            Parts::Word { .. } => 64,
            Parts::Vector { width, .. } => width,
        }
    }

    /// What a party enters behind a mask.
    fn entry(self, party: Party, m: u32) -> GateKind
        ensures kind { kind_of result ≡ entry_of self party.0 m }
        ensures stated { stated_width result ≡ None }
    {
        match self {
            Parts::Word { x } => GateKind::ShareAOnline { party, x, m },
            Parts::Vector { x, .. } => GateKind::ShareBOnline { party, x, m },
        }
    }
}

/// Adds the gates of a value that so many parties enter in parts, and gives its wire.
pub fn push_parts(draft: &mut Draft, parties: u8, parts: Parts) -> Result<Wire, NoMemory>
    requires some { least_parties ≤ parties }
    requires most { parties ≤ most_parties }
    requires room { length draft.old.gates
        + length (from_parts parts parties (length draft.old.gates)).gates ≤ most_gates }
    ensures next { OnOk result (draft.new ≡ with_gates draft.old
        (from_parts parts parties (length draft.old.gates)).gates) }
    ensures given { IfOk result (λ given. given ≡ (from_parts parts parties (length draft.old.gates)).wire) }
{
    let first = draft.gates();
    push_entries(draft, parties, parts)?;
    push_joints(draft, parties - 1, parts, first)
}

/// Adds a fresh mask and an entry for each party.
fn push_entries(draft: &mut Draft, parties: u8, parts: Parts) -> Result<(), NoMemory>
    requires room { length draft.old.gates + 2 * parties ≤ most_gates }
    ensures { OnOk result (draft.new ≡ with_gates draft.old (entries parts (length draft.old.gates) parties)) }
{
    for party in 0..parties {
        push_entry(draft, Party(party), parts)?;
    }
    Ok(())
}

/// Adds a fresh mask and the entry of a party.
fn push_entry(draft: &mut Draft, party: Party, parts: Parts) -> Result<(), NoMemory>
    requires room { length draft.old.gates + 2 ≤ most_gates }
    ensures { OnOk result (draft.new ≡ with_gates draft.old
        (entry_gates parts (length draft.old.gates) party.0)) }
{
    let m = draft.gates();
    let width = parts.width();
    push_two(
        draft,
        GateKind::KeyMask { width },
        parts.entry(party, m),
        width,
    )?;
    Ok(())
}

/// Puts the entries, of which the first has its mask at `first`, together from the left, so many of them with
/// those before them, and gives the wire of the whole.
fn push_joints(draft: &mut Draft, joints: u8, parts: Parts, first: u32) -> Result<Wire, NoMemory>
    requires first { first ≤ most_gates }
    requires room { length draft.old.gates + (joiner_of parts).size * joints ≤ most_gates }
    ensures next { OnOk result (draft.new ≡ with_gates draft.old
        (in_row joints (joint_gates (joiner_of parts) first (length draft.old.gates)))) }
    ensures given { IfOk result (λ given. given
        ≡ joined_wire (joiner_of parts) first (length draft.old.gates) joints) }
{
    let mut wire = entry_at(first, 0);
    for done in 0..joints {
        let next = entry_at(first, u32::from(done) + 1);
        wire = push_joint(draft, parts, wire, next)?;
    }
    Ok(wire)
}

/// The wire of the entry of a party, where the first has its mask at `first`.
fn entry_at(first: u32, party: u32) -> Wire
    requires first { first ≤ most_gates }
    requires party { party ≤ 256 }
    ensures { result ≡ pair_at (first + 2 * party) }
{
    let mask = first + 2 * party;
    Wire {
        mask,
        gate: mask + 1,
    }
}

/// Puts two wires together: as a sum, or by XOR.
fn push_joint(draft: &mut Draft, parts: Parts, a: Wire, b: Wire) -> Result<Wire, NoMemory>
    requires room { length draft.old.gates + (joiner_of parts).size ≤ most_gates }
    ensures next { OnOk result (draft.new ≡ with_gates draft.old
        ((joiner_of parts).gates (length draft.old.gates) a b)) }
    ensures given { IfOk result (λ given. given ≡ (joiner_of parts).wire (length draft.old.gates)) }
{
    match parts {
        Parts::Word { .. } => push_adder(draft, a, b),
        Parts::Vector { width, .. } => push_xored(draft, true, width, a, b),
    }
}
