//! The adder of two words that are shared as keys.

ghost use Rattle.std.specs.Prelude.{◌≡◌, ◌<◌, ◌≤◌, ◌+◌, length, IfOk, OnOk};
ghost use Rattle.mot_base.specs.Limits.{most_gates};
ghost use Rattle.plan_gates.specs.Plan.{with_gates};
ghost use Rattle.gate_plan.specs.Adder.{first_bit, first_sums, next_bit, next_sums, last_bit, adder, adder_wire, pair_at, AdderAdds, AdderCounts};

use crate::block::{push_anded, push_joined, push_sliced, push_xored};
use crate::wire::Wire;
use mot_base::NoMemory;
use plan_gates::Draft;

/// What an adder has so far: the bits of the sum, and the carry.
#[derive(Clone, Copy, Debug)]
pub struct Sums {
    pub sum: Wire,
    pub carry: Wire,
}

/// The adder of two wires of k bits gives their sum modulo 2^k, for every k from 2 on.
pub fn adder_adds()
    ensures { AdderAdds }
{}

/// The adder of two wires of k bits has k - 1 ANDs, and 17 * k - 15 gates.
pub fn adder_counts()
    ensures { AdderCounts }
{}

/// Adds the adder of two words, which has 1,073 gates, and gives the wire of their sum modulo 2^64.
pub fn push_adder(draft: &mut Draft, a: Wire, b: Wire) -> Result<Wire, NoMemory>
    requires room { length draft.old.gates + 1073 ≤ most_gates }
    ensures next { OnOk result (draft.new ≡ with_gates draft.old (adder (length draft.old.gates) 62 a b)) }
    ensures given { IfOk result (λ sum. sum ≡ adder_wire (length draft.old.gates) 62) }
{
    let mut sums = push_first_bit(draft, a, b)?;
    for done in 0..62u8 {
        sums = push_next_bit(draft, done + 1, a, b, sums)?;
    }
    push_last_bit(draft, 63, a, b, sums)
}

/// Adds the gates of bit 0.
fn push_first_bit(draft: &mut Draft, a: Wire, b: Wire) -> Result<Sums, NoMemory>
    requires room { length draft.old.gates + 9 ≤ most_gates }
    ensures next { OnOk result (draft.new ≡ with_gates draft.old (first_bit (length draft.old.gates) a b)) }
    ensures given { IfOk result (λ sums. sums ≡ first_sums (length draft.old.gates)) }
{
    let x = push_sliced(draft, true, 1, a, 0)?;
    let y = push_sliced(draft, true, 1, b, 0)?;
    let sum = push_xored(draft, true, 1, x, y)?;
    let carry = push_anded(draft, true, 1, x, y)?;
    Ok(Sums { sum, carry })
}

/// Adds the gates of a bit in between, behind the sum and the carry of the bits before it.
fn push_next_bit(
    draft: &mut Draft,
    bit: u8,
    a: Wire,
    b: Wire,
    before: Sums,
) -> Result<Sums, NoMemory>
    requires room { length draft.old.gates + 17 ≤ most_gates }
    requires inside { bit < 63 }
    ensures next { OnOk result (draft.new
        ≡ with_gates draft.old (next_bit (length draft.old.gates) bit a b before)) }
    ensures given { IfOk result (λ sums. sums ≡ next_sums (length draft.old.gates)) }
{
    let x = push_sliced(draft, true, 1, a, bit)?;
    let y = push_sliced(draft, true, 1, b, bit)?;
    let p = push_xored(draft, true, 1, x, before.carry)?;
    let q = push_xored(draft, true, 1, y, before.carry)?;
    let own = push_xored(draft, true, 1, p, y)?;
    let both = push_anded(draft, true, 1, p, q)?;
    let carry = push_xored(draft, true, 1, before.carry, both)?;
    let sum = push_joined(draft, true, bit + 1, before.sum, own)?;
    Ok(Sums { sum, carry })
}

/// Adds the gates of the last bit, and gives the wire of the sum.
fn push_last_bit(
    draft: &mut Draft,
    bit: u8,
    a: Wire,
    b: Wire,
    before: Sums,
) -> Result<Wire, NoMemory>
    requires room { length draft.old.gates + 10 ≤ most_gates }
    requires inside { bit ≤ 63 }
    ensures next { OnOk result (draft.new
        ≡ with_gates draft.old (last_bit (length draft.old.gates) bit a b before)) }
    ensures given { IfOk result (λ sum. sum ≡ pair_at (length draft.old.gates + 8)) }
{
    let x = push_sliced(draft, true, 1, a, bit)?;
    let y = push_sliced(draft, true, 1, b, bit)?;
    let p = push_xored(draft, true, 1, x, before.carry)?;
    let own = push_xored(draft, true, 1, p, y)?;
    push_joined(draft, true, bit + 1, before.sum, own)
}
