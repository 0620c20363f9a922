//! The gates of operations on bits that are shared as keys or by XOR.

ghost use Rattle.std.specs.Prelude.{◌≡◌, ◌<◌, ◌≤◌, ◌+◌, true, length, IfOk, IfSome, OnOk};
ghost use Rattle.mot_base.specs.Limits.{most_gates};
ghost use Rattle.plan_gates.specs.Gate.{kind_of, stated_width};
ghost use Rattle.plan_gates.specs.Plan.{with_gates};
ghost use Rattle.gate_plan.specs.Blocks.{one, two, entered, constant, xored, anded, flipped, sliced, joined, told};

use crate::wire::{Wire, push_one};
use circuit_tables::Receiver;
use mot_base::{NoMemory, Party};
use plan_gates::{Draft, GateKind};
use share_types::Bits;

/// Adds a mask and masked bits, and gives their wire.
pub fn push_two(
    draft: &mut Draft,
    mask: GateKind,
    online: GateKind,
    width: u8,
) -> Result<Wire, NoMemory>
    requires mask { IfSome (stated_width mask) (λ stated. stated ≡ width) }
    requires online { IfSome (stated_width online) (λ stated. stated ≡ width) }
    requires room { length draft.old.gates + 2 ≤ most_gates }
    ensures next { OnOk result (draft.new ≡ with_gates draft.old
        (two (length draft.old.gates) width (kind_of mask) (kind_of online)).gates) }
    ensures given { IfOk result (λ given. given
        ≡ (two (length draft.old.gates) width (kind_of mask) (kind_of online)).wire) }
{
    let mask = draft.push(mask, width)?;
    let gate = draft.push(online, width)?;
    Ok(Wire { mask, gate })
}

/// Adds the gates of bits of an input of a party.
pub fn push_entered(
    draft: &mut Draft,
    keys: bool,
    width: u8,
    party: Party,
    k: u32,
    at: u32,
) -> Result<Wire, NoMemory>
    requires room { length draft.old.gates
        + length (entered keys (length draft.old.gates) width party.0 k at).gates ≤ most_gates }
    ensures next { OnOk result (draft.new ≡ with_gates draft.old
        (entered keys (length draft.old.gates) width party.0 k at).gates) }
    ensures given { IfOk result (λ given. given
        ≡ (entered keys (length draft.old.gates) width party.0 k at).wire) }
{
    if keys {
        let m = draft.gates();
        push_two(
            draft,
            GateKind::KeyMask { width },
            GateKind::InOnline { party, k, at, m },
            width,
        )
    } else {
        push_one(
            draft,
            GateKind::InB {
                party,
                k,
                at,
                width,
            },
            width,
        )
    }
}

/// Adds the gates of a constant.
pub fn push_constant(draft: &mut Draft, keys: bool, c: Bits) -> Result<Wire, NoMemory>
    requires room { length draft.old.gates
        + length (constant keys (length draft.old.gates) c.width c.word).gates ≤ most_gates }
    ensures next { OnOk result (draft.new ≡ with_gates draft.old
        (constant keys (length draft.old.gates) c.width c.word).gates) }
    ensures given { IfOk result (λ given. given
        ≡ (constant keys (length draft.old.gates) c.width c.word).wire) }
{
    let width = c.width;
    if keys {
        push_two(
            draft,
            GateKind::ConstMask { c },
            GateKind::ZeroOnline { width },
            width,
        )
    } else {
        push_one(draft, GateKind::ConstB { c }, width)
    }
}

/// Adds the gates of an XOR.
pub fn push_xored(
    draft: &mut Draft,
    keys: bool,
    width: u8,
    x: Wire,
    y: Wire,
) -> Result<Wire, NoMemory>
    requires room { length draft.old.gates
        + length (xored keys (length draft.old.gates) width x y).gates ≤ most_gates }
    ensures next { OnOk result (draft.new ≡ with_gates draft.old
        (xored keys (length draft.old.gates) width x y).gates) }
    ensures given { IfOk result (λ given. given ≡ (xored keys (length draft.old.gates) width x y).wire) }
{
    if keys {
        let mask = GateKind::XorMask {
            u: x.mask,
            v: y.mask,
        };
        let online = GateKind::XorOnline {
            u: x.gate,
            v: y.gate,
        };
        push_two(draft, mask, online, width)
    } else {
        let (x, y) = (x.gate, y.gate);
        push_one(draft, GateKind::XorB { x, y }, width)
    }
}

/// Adds the gates of an AND.
pub fn push_anded(
    draft: &mut Draft,
    keys: bool,
    width: u8,
    x: Wire,
    y: Wire,
) -> Result<Wire, NoMemory>
    requires room { length draft.old.gates
        + length (anded keys (length draft.old.gates) width x y).gates ≤ most_gates }
    ensures next { OnOk result (draft.new ≡ with_gates draft.old
        (anded keys (length draft.old.gates) width x y).gates) }
    ensures given { IfOk result (λ given. given ≡ (anded keys (length draft.old.gates) width x y).wire) }
{
    if keys {
        push_table(draft, width, x, y)
    } else {
        let (x, y) = (x.gate, y.gate);
        push_one(draft, GateKind::AndB { x, y }, width)
    }
}

/// Adds a fresh mask, a garbled table and what it is evaluated to.
fn push_table(draft: &mut Draft, width: u8, x: Wire, y: Wire) -> Result<Wire, NoMemory>
    requires room { length draft.old.gates + 3 ≤ most_gates }
    ensures next { OnOk result (draft.new ≡ with_gates draft.old
        (anded true (length draft.old.gates) width x y).gates) }
    ensures given { IfOk result (λ given. given ≡ (anded true (length draft.old.gates) width x y).wire) }
{
    let mask = draft.push(GateKind::KeyMask { width }, width)?;
    let table = GateKind::Garble {
        u: x.mask,
        v: y.mask,
        m: mask,
    };
    let t = draft.push(table, width)?;
    let (u, v) = (x.gate, y.gate);
    let gate = draft.push(GateKind::EvalY { t, u, v }, width)?;
    Ok(Wire { mask, gate })
}

/// Adds the gate that flips the bits of a constant.
pub fn push_flipped(draft: &mut Draft, keys: bool, x: Wire, c: Bits) -> Result<Wire, NoMemory>
    requires room { length draft.old.gates < most_gates }
    ensures next { OnOk result (draft.new ≡ with_gates draft.old
        (flipped keys (length draft.old.gates) c.width x c.word).gates) }
    ensures given { IfOk result (λ given. given
        ≡ (flipped keys (length draft.old.gates) c.width x c.word).wire) }
{
    let width = c.width;
    if keys {
        let mask = draft.push(GateKind::FlipMask { u: x.mask, c }, width)?;
        let gate = x.gate;
        Ok(Wire { mask, gate })
    } else {
        push_one(draft, GateKind::XorConstB { x: x.gate, c }, width)
    }
}

/// Adds the gates that cut out bits from bit `at` on.
pub fn push_sliced(
    draft: &mut Draft,
    keys: bool,
    width: u8,
    x: Wire,
    at: u8,
) -> Result<Wire, NoMemory>
    requires room { length draft.old.gates
        + length (sliced keys (length draft.old.gates) width x at).gates ≤ most_gates }
    ensures next { OnOk result (draft.new ≡ with_gates draft.old
        (sliced keys (length draft.old.gates) width x at).gates) }
    ensures given { IfOk result (λ given. given ≡ (sliced keys (length draft.old.gates) width x at).wire) }
{
    if keys {
        let (u, v) = (x.mask, x.gate);
        let mask = GateKind::SliceMask { u, at, width };
        let online = GateKind::SliceOnline { u: v, at, width };
        push_two(draft, mask, online, width)
    } else {
        let x = x.gate;
        push_one(draft, GateKind::SliceB { x, at, width }, width)
    }
}

/// Adds the gates that put bits together.
pub fn push_joined(
    draft: &mut Draft,
    keys: bool,
    width: u8,
    x: Wire,
    y: Wire,
) -> Result<Wire, NoMemory>
    requires room { length draft.old.gates
        + length (joined keys (length draft.old.gates) width x y).gates ≤ most_gates }
    ensures next { OnOk result (draft.new ≡ with_gates draft.old
        (joined keys (length draft.old.gates) width x y).gates) }
    ensures given { IfOk result (λ given. given ≡ (joined keys (length draft.old.gates) width x y).wire) }
{
    if keys {
        let mask = GateKind::JoinMask {
            u: x.mask,
            v: y.mask,
        };
        let online = GateKind::JoinOnline {
            u: x.gate,
            v: y.gate,
        };
        push_two(draft, mask, online, width)
    } else {
        let (x, y) = (x.gate, y.gate);
        push_one(draft, GateKind::JoinB { x, y }, width)
    }
}

/// Adds the gates that tell bits to a receiver, and gives the wire of what is told.
pub fn push_told(
    draft: &mut Draft,
    keys: bool,
    width: u8,
    x: Wire,
    to: Receiver,
) -> Result<Wire, NoMemory>
    requires room { length draft.old.gates
        + length (told keys (length draft.old.gates) width x to).gates ≤ most_gates }
    ensures next { OnOk result (draft.new ≡ with_gates draft.old
        (told keys (length draft.old.gates) width x to).gates) }
    ensures given { IfOk result (λ given. given ≡ (told keys (length draft.old.gates) width x to).wire) }
{
    if keys {
        let (m, o) = (x.mask, x.gate);
        let x = draft.push(GateKind::YToB { m, o }, width)?;
        let gate = draft.push(GateKind::OutB { x, to }, width)?;
        Ok(Wire::single(gate))
    } else {
        push_one(draft, GateKind::OutB { x: x.gate, to }, width)
    }
}
