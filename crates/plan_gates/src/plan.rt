ghost use Rattle.std.specs.Prelude.{◌≡◌, ◌<◌, ◌≤◌, length, slice_get, option_map, Some, IfOk, IfSome};
ghost use Rattle.plan_gates.specs.Gate.{kind_of, stated_width};
ghost use Rattle.plan_gates.specs.Plan.{IsPlan, has_keys, has_conversions};
ghost use Rattle.plan_gates.specs.Needs.{needs_at, offset, offsets_of, all_needs};

use crate::draft::Draft;
use crate::gate::GateKind;
use crate::needs::needs_of;
use mot_base::NoMemory;
use share_types::Needs;
use std::alloc::Global;
use std::marker::Model;

/// The gates that the parties of a circuit run, of which each stands behind those whose values it uses.
#[derive(Debug, Drop)]
pub struct Plan {
    pub(crate) draft: Draft,
    offsets: Vec<Needs>,
    needs: Needs,
}

impl Model for Plan {
    ghost use Rattle.std.specs.Prelude.{◌≡◌};
    ghost use Rattle.plan_gates.specs.Plan.{Gates, IsPlan};
    ghost use Rattle.plan_gates.specs.Needs.{offsets_of, all_needs};

    ghost Value = { Gates };

    ghost view = { λ p. p.draft };

    ghost invariant = { λ p. IsPlan p.draft × (p.offsets.items ≡ offsets_of p.draft) × (p.needs ≡ all_needs p.draft) };
}

impl Plan {
    /// The plan of gates that are one.
    pub fn of(alloc: Global, draft: Draft) -> Result<Plan, NoMemory>
        requires { IsPlan draft }
        ensures { IfOk result (λ plan. plan ≡ draft) }
    {
        let (offsets, needs) = add_up(alloc, &draft)?;
        Ok(Plan {
            draft,
            offsets,
            needs,
        })
    }

    /// The number of parties, from 2 to 8.
    pub fn parties(&self) -> u8
        ensures value { result ≡ self.now.parties }
        ensures plan { IsPlan self.now }
    {
        self.draft.parties()
    }

    /// The number of gates, at most 4,194,304.
    pub fn gates(&self) -> u32
        ensures value { result ≡ length self.now.gates }
        ensures plan { IsPlan self.now }
    {
        self.draft.gates()
    }

    /// What a gate does.
    pub fn gate(&self, gate: u32) -> GateKind
        requires { gate < length self.now.gates }
        ensures kind { option_map (λ g. g.kind) (slice_get self.now.gates gate) ≡ Some (kind_of result) }
        ensures width { IfSome (stated_width result) (λ width.
            option_map (λ g. g.width) (slice_get self.now.gates gate) ≡ Some width) }
    {
        self.draft.gate(gate)
    }

    /// The width of a gate's value, which is 64 for a word, and that of its operand for an output.
    pub fn width(&self, gate: u32) -> u8
        requires { gate < length self.now.gates }
        ensures { option_map (λ g. g.width) (slice_get self.now.gates gate) ≡ Some result }
    {
        self.draft.width(gate)
    }

    /// Whether some gate is one of those that wires shared as keys have, or that a conversion has. It looks at each gate.
    pub fn has_keys(&self) -> bool
        ensures { result ≡ has_keys self.now }
    {
        for gate in 0..self.gates() {
            if self.gate(gate).is_of_keys() {
                return true;
            }
        }
        false
    }

    /// Whether some gate is one that a conversion has. It looks at each gate.
    pub fn has_conversions(&self) -> bool
        ensures { result ≡ has_conversions self.now }
    {
        for gate in 0..self.gates() {
            if self.gate(gate).is_conversion() {
                return true;
            }
        }
        false
    }

    /// How many correlations all gates need.
    pub fn needs(&self) -> Needs
        ensures { result ≡ all_needs self.now }
    {
        self.needs
    }

    /// How many correlations all gates before this one need.
    pub fn offset(&self, gate: u32) -> Needs
        requires { gate < length self.now.gates }
        ensures { result ≡ offset self.now gate }
    {
        self.offsets[gate as usize]
    }

    /// How many correlations a gate needs.
    pub fn needs_at(&self, gate: u32) -> Needs
        requires { gate < length self.now.gates }
        ensures { result ≡ needs_at self.now gate }
    {
        needs_at(&self.draft, gate)
    }
}

/// What all gates before each one need, and what all gates need.
fn add_up(alloc: Global, draft: &Draft) -> Result<(Vec<Needs>, Needs), NoMemory>
    requires { IsPlan draft.now }
    ensures offsets { IfOk result (λ found. found.0.items ≡ offsets_of draft.now) }
    ensures needs { IfOk result (λ found. found.1 ≡ all_needs draft.now) }
{
    let mut offsets = Vec::with_capacity(alloc, draft.gates() as usize)?;
    let mut needs = Needs::none();
    for gate in 0..draft.gates() {
        offsets.push(needs)?;
        needs = needs.plus(needs_at(draft, gate));
    }
    Ok((offsets, needs))
}

/// What a gate needs.
fn needs_at(draft: &Draft, gate: u32) -> Needs
    requires { gate < length draft.now.gates }
    ensures { result ≡ needs_at draft.now gate }
{
    needs_of(draft.gate(gate), draft.sizes(gate))
}
