//! A mark for each wire: whether it is an input or set.

ghost use Rattle.std.specs.Prelude.{◌≡◌, ◌<◌, ◌≤◌, ℕ, false, true, nat_lt, ◌||◌, length, slice_index_or, IfOk};
ghost use Rattle.std.specs.List.{list_all};
ghost use Rattle.bristol_reader.specs.Circuit.{is_among};
ghost use Rattle.bristol_reader.specs.Marks.{are_new_to, IsMarked};

use std::alloc::{AllocError, Global};

/// Marks for so many wires, of which the first are the inputs.
pub fn marks(alloc: Global, inputs: u32, wires: u32) -> Result<Vec<bool>, AllocError>
    ensures count { IfOk result (λ set. length set.items ≡ wires) }
    ensures marked { IfOk result (λ set. (w : ℕ) → w < wires → slice_index_or set.items w false ≡ nat_lt w inputs) }
{
    let mut set = Vec::with_capacity(alloc, wires as usize)?;
    for wire in 0..wires {
        set.push(wire < inputs)?;
    }
    Ok(set)
}

/// Marks wires, if none of them was marked before or stands twice.
pub fn mark_all(set: &mut [bool], wires: &[u64]) -> bool
    requires { list_all (λ w. nat_lt w (length set.old)) wires.now ≡ true }
    ensures new { result ≡ are_new_to set.old wires.now }
    ensures marked { result ≡ true → IsMarked set.old wires.now set.new }
{
    for wire in wires {
        let wire = *wire as usize;
        if set[wire] {
            return false;
        }
        set[wire] = true;
    }
    true
}
