//! The wires of values, and the gates that give them.

ghost use Rattle.std.specs.Prelude.{◌≡◌, ◌<◌, length, IfOk, IfSome, OnOk};
ghost use Rattle.mot_base.specs.Limits.{most_gates};
ghost use Rattle.plan_gates.specs.Gate.{kind_of, stated_width};
ghost use Rattle.plan_gates.specs.Plan.{with_gates};
ghost use Rattle.gate_plan.specs.Blocks.{single, wire_among, one};

use mot_base::NoMemory;
use plan_gates::{Draft, GateKind};

/// The two gates of a value: a mask and the masked bits where it is shared as keys, and else its one gate
/// twice.
#[derive(Clone, Copy, Debug)]
pub struct Wire {
    pub mask: u32,
    pub gate: u32,
}

impl Wire {
    /// The wire of a value that has one gate.
    pub fn single(gate: u32) -> Wire
        ensures { result ≡ single gate }
    {
        Wire { mask: gate, gate }
    }
}

/// The wire of the value at a place, and that of gate 0 where there is none.
pub fn wire_among(wires: &[Wire], at: u32) -> Wire
    ensures { result ≡ wire_among wires.now at }
{
    wires.get(at as usize).copied().unwrap_or(Wire::single(0))
}

/// Adds one gate, and gives its wire.
pub fn push_one(draft: &mut Draft, kind: GateKind, width: u8) -> Result<Wire, NoMemory>
    requires stated { IfSome (stated_width kind) (λ stated. stated ≡ width) }
    requires room { length draft.old.gates < most_gates }
    ensures next { OnOk result (draft.new ≡
        with_gates draft.old (one (length draft.old.gates) width (kind_of kind)).gates) }
    ensures given { IfOk result (λ wire. wire ≡ (one (length draft.old.gates) width (kind_of kind)).wire) }
{
    let number = draft.push(kind, width)?;
    Ok(Wire::single(number))
}
