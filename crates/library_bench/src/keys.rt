ghost use Rattle.std.specs.Prelude.{◌≡◌, ◌<◌, length, IfOk};
ghost use Rattle.std.specs.Bool.{OnTrue};
ghost use Rattle.bmr_keys.specs.Mask.{owners_of};
ghost use Rattle.bmr_garble.specs.Table.{HaveShape};
ghost use Rattle.bmr_eval.specs.Active as evaluation;

use bmr_eval::eval_and;
use bmr_garble::{Table, table_share};
use bmr_keys::{MaskPart, prf};
use mot_base::{NoMemory, Party};
use share_types::{Bits, Key, Keys, Online};
use std::alloc::Global;

/// How often three parties hide keys at an AND of one bit: each hides the 12 keys of its share of the table, and then
/// evaluates three keys, each hidden by three.
const HIDDEN: u8 = 3 * 12 + 3 * 9;

/// Hides as many keys as so many garbled ANDs of three parties, each by the one before, and gives the low half of
/// the last.
pub(crate) fn hide(count: u32) -> u64 {
    let mut key = Key(1);
    for gate in 0..count {
        for row in 0..HIDDEN {
            key = prf(key, Key(2), gate, 0, row, 0);
        }
    }
    (key.0 % (1 << 64)) as u64
}

/// Three parties garble so many ANDs of one bit and join and evaluate each of them. Gives how many masked bits of
/// results are 1, over all parties.
pub(crate) fn garble(alloc: Global, count: u32) -> Result<u64, NoMemory> {
    let parts = masks(alloc)?;
    let wire = wire(alloc)?;
    let mut ones = 0u64;
    for gate in 0..count {
        ones = ones.wrapping_add(garbled(alloc, gate, parts.as_slice(), &wire)?);
    }
    Ok(ones)
}

/// Three parties' parts of one mask.
fn masks(alloc: Global) -> Result<Vec<MaskPart>, NoMemory> {
    let mut parts = Vec::with_capacity(alloc, 3)?;
    for me in 0..3 {
        parts.push(MaskPart::constant(alloc, Party(me), offset(me), one_bit(), 3)?)?;
    }
    Ok(parts)
}

/// A party's offset.
fn offset(me: u8) -> Key {
    Key(2 * u128::from(me) + 1)
}

/// A vector of one bit, which is 1.
fn one_bit() -> Bits
    ensures { result.width ≡ 1 }
{
    Bits { word: 1, width: 1 }
}

/// What is seen of a wire of one bit.
fn wire(alloc: Global) -> Result<Online, NoMemory> {
    let keys = vec![in alloc; Key(10), Key(20), Key(30)]?;
    Ok(Online {
        masked: one_bit(),
        keys: Keys::new(keys),
    })
}

/// How often the result's masked bit is 1 where all parties evaluate the table that all garble.
fn garbled(alloc: Global, gate: u32, parts: &[MaskPart], wire: &Online) -> Result<u64, NoMemory> {
    let mut table = Table {
        width: 1,
        parties: 3,
        rows: Keys::new(vec![in alloc; Key(0); 12]?),
    };
    add_all(alloc, &mut table, gate, parts)?;
    let mut ones = 0u64;
    for _ in parts {
        ones = ones.wrapping_add(evaluated(alloc, gate, &table, wire)?);
    }
    Ok(ones)
}

/// Adds all parties' shares of a gate's table.
fn add_all(
    alloc: Global,
    table: &mut Table,
    gate: u32,
    parts: &[MaskPart],
) -> Result<(), NoMemory> {
    for (me, part) in parts.iter().enumerate() {
        add(alloc, table, (me % 3) as u8, gate, part)?;
    }
    Ok(())
}

/// Adds one party's share.
fn add(
    alloc: Global,
    table: &mut Table,
    me: u8,
    gate: u32,
    part: &MaskPart,
) -> Result<(), NoMemory> {
    if !is_fit(part) || usize::from(me) >= part.owners() || part.owners() > 8 {
        return Ok(());
    }
    let times = part.times.as_slice();
    let share = table_share(alloc, Party(me), offset(me), gate, part, part, part, times)?;
    if share.rows.as_slice().len() == table.rows.as_slice().len() {
        table.table_join(&share);
    }
    Ok(())
}

/// Whether a part has one bit and its lists have the lengths of it.
fn is_fit(part: &MaskPart) -> bool
    ensures { OnTrue result (HaveShape (owners_of part.now) part.now.mask.width part.now part.now part.now part.now.times) }
{
    part.mask.width == 1
        && part.keys.as_slice().len() == 1
        && part.times.as_slice().len() == part.owners()
}

/// The result's masked bit as a number, where the table fits the wire.
fn evaluated(alloc: Global, gate: u32, table: &Table, wire: &Online) -> Result<u64, NoMemory> {
    if !does_fit(table, wire) || table.parties > 8 || table.parties < 1 {
        return Ok(0);
    }
    Ok(eval_and(alloc, table, gate, wire, wire)?.masked.word)
}

/// Whether a table and a wire have one bit and the same owners.
fn does_fit(table: &Table, wire: &Online) -> bool
    ensures { OnTrue result (evaluation.HaveShape table.now wire.now wire.now) }
{
    let owners = usize::from(table.parties);
    table.width == 1
        && wire.masked.width == 1
        && wire.keys.as_slice().len() == owners
        && table.rows.as_slice().len() == 4 * owners
}
