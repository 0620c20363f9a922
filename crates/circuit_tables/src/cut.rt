//! Told bits, cut into outputs.

ghost use Rattle.std.specs.Prelude.{◌≡◌, ◌==◌, ◌<◌, ◌≤◌, ◌+◌, ◌^◌, ◌++◌, ◌∷◌, [], length, drop, slice_get, OnOk, OnErr, IfOk, IfSome};
ghost use Rattle.std.specs.List.{sum_by};
ghost use Rattle.mot_base.specs.Limits.{most_gates};
ghost use Rattle.circuit_tables.specs.Table.{is_asked, asked, joined_bits, total_width, AreCut};
ghost use Rattle.circuit_tables.specs.Cut.{CutsOnce, told_next, width_next};

use crate::bits::push_bits;
use crate::outputs::OutputTable;
use crate::told::Outputs;
use mot_base::{NoMemory, Party};
use share_types::Bits;
use std::alloc::Global;

/// Bits are cut into the same outputs in one way alone.
pub fn cuts_once()
    ensures { CutsOnce }
{}

impl Outputs {
    /// The outputs of a table in order, with a party only those that it is told, each with the next bits, as
    /// many as its width, of all told vectors joined in order.
    pub fn cut(
        alloc: Global,
        table: &OutputTable,
        party: Option<Party>,
        told: &[Bits],
    ) -> Result<Outputs, NoMemory>
        requires { total_width (asked party table.now) ≡ sum_by (λ v. v.width) told.now }
        ensures { IfOk result (λ outputs. AreCut (asked party table.now) (joined_bits told.now) outputs) }
    {
        let bits = joined(alloc, told)?;
        let mut outputs = Outputs::new(alloc);
        let mut taken = 0;
        for at in 0..table.len() {
            let left = bits_from(&bits, taken);
            taken += push_next(&mut outputs, table, at, party, left)?;
        }
        Ok(outputs)
    }

    /// Whether told vectors have as many bits together as the outputs of a table that are asked for, so that
    /// they can be cut.
    pub fn can_cut(table: &OutputTable, party: Option<Party>, told: &[Bits]) -> bool
        ensures { result ≡ (total_width (asked party table.now) == sum_by (λ v. v.width) told.now) }
    {
        let mut left = asked_width(table, party);
        for vector in told {
            let width = u64::from(vector.width);
            if left < width {
                return false;
            }
            left -= width;
        }
        left == 0
    }
}

/// How many bits the outputs that are asked for have together.
fn asked_width(table: &OutputTable, party: Option<Party>) -> u64
    ensures { result ≡ total_width (asked party table.now) }
{
    let mut sum = 0;
    for at in 0..table.len() {
        sum += width_asked(table, at, party);
    }
    sum
}

/// How many bits the output at a place takes: its width, if it is asked for.
fn width_asked(table: &OutputTable, at: u32, party: Option<Party>) -> u64
    requires { at < length table.now }
    ensures value { IfSome (slice_get table.now at) (λ o. result ≡ width_next party o) }
    ensures most { result < 2 ^ 32 }
{
    if is_asked_for(table, at, party) {
        u64::from(table.width(at))
    } else {
        0
    }
}

/// The bits of several vectors, joined in order.
fn joined(alloc: Global, vectors: &[Bits]) -> Result<Vec<bool>, NoMemory>
    ensures { IfOk result (λ bits. bits.items ≡ joined_bits vectors.now) }
{
    let mut bits = Vec::new(alloc);
    for vector in vectors {
        push_bits(&mut bits, vector.word, vector.width)?;
    }
    Ok(bits)
}

/// The bits from a place on.
fn bits_from(bits: &[bool], at: usize) -> &[bool]
    requires { at ≤ length bits.now }
    ensures { result.now ≡ drop at bits.entry.now }
{
    &bits[at..]
}

/// Adds the output at a place with the first bits that are left, if it is asked for, and gives how many bits
/// it took.
fn push_next(
    outputs: &mut Outputs,
    table: &OutputTable,
    at: u32,
    party: Option<Party>,
    left: &[bool],
) -> Result<usize, NoMemory>
    requires at { at < length table.now }
    requires room { length outputs.old < most_gates }
    requires enough { IfSome (slice_get table.now at) (λ o. width_next party o ≤ length left.now) }
    ensures added { OnOk result (IfSome (slice_get table.now at) (λ o.
        outputs.new ≡ outputs.old ++ told_next party o left.now)) }
    ensures one { OnOk result (length outputs.new ≤ length outputs.old + 1) }
    ensures taken { IfOk result (λ taken. IfSome (slice_get table.now at) (λ o. taken ≡ width_next party o)) }
{
    if !is_asked_for(table, at, party) {
        return Ok(0);
    }
    let width = table.width(at) as usize;
    outputs.push_bits(table.name(at), table.receiver(at), &left[..width])?;
    Ok(width)
}

/// Whether the output at a place is asked for.
fn is_asked_for(table: &OutputTable, at: u32, party: Option<Party>) -> bool
    requires { at < length table.now }
    ensures { IfSome (slice_get table.now at) (λ o. result ≡ is_asked party o) }
{
    match party {
        Some(party) => table.receiver(at).includes(party),
        None => true,
    }
}
