//! Lists of keys by bit and owner, and vectors bit by bit.

ghost use Rattle.std.specs.Prelude.{◌≡◌, ℕ, ◌<◌, ◌≤◌, ◌+◌, ◌*◌, ◌^◌, ◌++◌, length, IfOk};
ghost use Rattle.std.specs.List.{flat_map, slice_range};
ghost use Rattle.mot_base.specs.Limits.{most_width};
ghost use Rattle.share_types.specs.Bits.{once};
ghost use Rattle.share_types.specs.Keys.{◌⊕◌, bit, times, key_at, key_of};
ghost use Rattle.bmr_keys.specs.Mask.{own_times};

use mot_base::{NoMemory, Party};
use share_types::{Bits, Key, KeyBit, Keys};
use std::alloc::Global;

/// Whether a bit of a number is set.
pub fn is_set(word: u64, place: u8) -> bool
    requires { place < most_width }
    ensures { result ≡ bit word place }
{
    (word >> place) & 1 == 1
}

/// A number of so many bits with one bit more.
pub fn with_bit(word: u64, width: u8, set: bool) -> u64
    requires width { width < most_width }
    requires word { word < 2 ^ width }
    ensures word { result ≡ word + 2 ^ width * once set }
    ensures below { result < 2 ^ (width + 1) }
{
    if set { word + (1 << width) } else { word }
}

/// A key with the offset added where a bit is set.
pub fn add_offset(key: Key, set: bool, offset: Key) -> Key
    ensures { result.0 ≡ key.0 ⊕ times set offset.0 }
{
    if set { Key(key.0 ^ offset.0) } else { key }
}

/// The key of a bit and an owner.
pub fn key_by(keys: &[Key], owners: usize, i: usize, j: usize) -> Key
    requires { i * owners + j < length keys.now }
    ensures { result.0 ≡ key_of owners keys.now i j }
{
    keys[i * owners + j]
}

/// Adds a party's offset at its own place of each bit that is set in `c`.
pub fn add_own(keys: &mut [Key], owners: usize, me: Party, offset: Key, c: Bits)
    requires me { me.0 < owners }
    requires count { length keys.old ≡ c.width * owners }
    ensures keys { (i j : ℕ) → i < c.width → j < owners →
        key_of owners keys.new i j ≡ key_of owners keys.old i j ⊕ own_times me.0 offset.0 c.word i j }
{
    for i in 0..c.width {
        let place = usize::from(i) * owners + usize::from(me.0);
        keys[place] = add_offset(keys[place], is_set(c.word, i), offset);
    }
}

/// A copy of keys, with a party's offset added at its own place of each bit that is set in `c`.
pub(crate) fn with_own(
    alloc: Global,
    keys: &[Key],
    owners: usize,
    me: Party,
    offset: Key,
    c: Bits,
) -> Result<Keys, NoMemory>
    requires me { me.0 < owners }
    requires count { length keys.now ≡ c.width * owners }
    ensures count { IfOk result (λ copy. length copy ≡ length keys.now) }
    ensures keys { IfOk result (λ copy. (i j : ℕ) → i < c.width → j < owners →
        key_of owners copy i j ≡ key_of owners keys.now i j ⊕ own_times me.0 offset.0 c.word i j) }
{
    let mut copy = Vec::from_slice(alloc, keys)?;
    add_own(&mut copy, owners, me, offset, c);
    Ok(Keys::new(copy))
}

/// The keys of records, record after record.
pub fn records_times(alloc: Global, stock: &[KeyBit]) -> Result<Vec<Key>, NoMemory>
    ensures { IfOk result (λ keys. keys.items ≡ flat_map (λ record_of_bit. record_of_bit.times) stock.now) }
{
    let mut keys = Vec::new(alloc);
    for key_bit in stock {
        keys.extend_from_slice(key_bit.times.as_slice())?;
    }
    Ok(keys)
}

/// The keys at each place of two lists added by XOR.
pub fn xored(alloc: Global, xs: &[Key], ys: &[Key]) -> Result<Keys, NoMemory>
    requires { length ys.now ≡ length xs.now }
    ensures count { IfOk result (λ keys. length keys ≡ length xs.now) }
    ensures keys { IfOk result (λ keys. (k : ℕ) → key_at keys k ≡ key_at xs.now k ⊕ key_at ys.now k) }
{
    let mut keys = Keys::new(Vec::from_slice(alloc, xs)?);
    for (k, key) in ys.iter().enumerate() {
        keys.xor_at(k, *key);
    }
    Ok(keys)
}

/// A copy of keys.
pub(crate) fn copied(alloc: Global, keys: &[Key]) -> Result<Keys, NoMemory>
    ensures { IfOk result (λ copy. copy ≡ keys.now) }
{
    Ok(Keys::new(Vec::from_slice(alloc, keys)?))
}

/// The keys from one place to before another.
pub fn some_keys(alloc: Global, keys: &[Key], from: usize, to: usize) -> Result<Keys, NoMemory>
    requires from { from ≤ to }
    requires to { to ≤ length keys.now }
    ensures { IfOk result (λ some. some ≡ slice_range keys.now from to) }
{
    Ok(Keys::new(Vec::from_slice(alloc, &keys[from..to])?))
}

/// The keys of one list, and behind them those of another.
pub fn joined(alloc: Global, low: &[Key], high: &[Key]) -> Result<Keys, NoMemory>
    ensures { IfOk result (λ keys. keys ≡ low.now ++ high.now) }
{
    let mut keys = Vec::with_capacity(alloc, low.len().saturating_add(high.len()))?;
    keys.extend_from_slice(low)?;
    keys.extend_from_slice(high)?;
    Ok(Keys::new(keys))
}
