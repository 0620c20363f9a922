ghost use Rattle.std.specs.Prelude.{◌≡◌, ℕ, ◌<◌, ◌≤◌, ◌*◌, length, All, IfOk};
ghost use Rattle.share_types.specs.Keys.{◌⊕◌, key_of};
ghost use Rattle.bmr_keys.specs.Mask.{own_times};
ghost use Rattle.bmr_garble.specs.Product.{opened_left, opened_right, product_share, key_bit_at, owners_in, product_times, AreShares};

use bmr_keys::{MaskPart, add_own, records_times};
use mot_base::{NoMemory, Party};
use share_types::{BitTriple, Bits, Key, KeyBit};
use std::alloc::Global;

/// What a party opens before the product of two masks: its shares of both, each XOR its part of the triples
/// (Beaver 1991). All have one width.
pub fn mask_open(u: &MaskPart, v: &MaskPart, t: BitTriple) -> (Bits, Bits)
    requires left { t.a.width ≡ u.now.mask.width }
    requires right { v.now.mask.width ≡ u.now.mask.width }
    ensures left { result.0.word ≡ opened_left u.now.mask.word t }
    ensures right { result.1.word ≡ opened_right v.now.mask.word t }
    ensures left_width { result.0.width ≡ u.now.mask.width }
    ensures right_width { result.1.width ≡ u.now.mask.width }
{
    (u.mask.xor(t.a), v.mask.xor(t.b))
}

/// A party's share of the AND of both masks, where `d` and `e` are the XOR of what all parties opened of the left
/// and of the right one. Party 0 alone adds the AND of `d` and `e`. All have one width.
pub fn mask_close(me: Party, t: BitTriple, d: Bits, e: Bits) -> Bits
    requires d { d.width ≡ t.a.width }
    requires e { e.width ≡ t.a.width }
    ensures word { result.word ≡ product_share me.0 t d.word e.word }
    ensures width { result.width ≡ t.a.width }
{
    let share = t.c.xor(d.and(t.b)).xor(e.and(t.a));
    if me == Party(0) {
        share.xor(d.and(e))
    } else {
        share
    }
}

/// A party's shares of the product of both masks times each owner's offset, that of bit `i` and owner `j` at
/// `i * N + j`, from as many key records, where `f` is the XOR of what all parties opened: of their shares of the
/// product and of the records' bits.
pub fn product_close(
    alloc: Global,
    me: Party,
    offset: Key,
    stock: &[KeyBit],
    f: Bits,
) -> Result<Vec<Key>, NoMemory>
    requires width { length stock.now ≡ f.width }
    requires owners { All (λ key_bit. length key_bit.times ≡ owners_in stock.now) stock.now }
    requires me { me.0 < owners_in stock.now }
    ensures { IfOk result (λ keys. AreShares (owners_in stock.now) f.width
        (product_times f.width me.0 offset.0 (key_bit_at stock.now) f.word) keys.items) }
{
    let owners = owners_of(stock);
    let times = records_times(alloc, stock)?;
    Ok(own_added(times, owners, me, offset, f))
}

/// How many owners the first record has keys for.
fn owners_of(stock: &[KeyBit]) -> usize
    requires { 1 ≤ length stock.now }
    ensures { result ≡ owners_in stock.now }
{
    stock[0].times.as_slice().len()
}

/// The keys with a party's offset added at its own place of each bit that is set in `c`.
fn own_added(keys: Vec<Key>, owners: usize, me: Party, offset: Key, c: Bits) -> Vec<Key>
    requires me { me.0 < owners }
    requires count { length keys.items ≡ c.width * owners }
    ensures count { length result.items ≡ length keys.items }
    ensures keys { (i j : ℕ) → i < c.width → j < owners →
        key_of owners result.items i j ≡ key_of owners keys.items i j ⊕ own_times me.0 offset.0 c.word i j }
{
    let mut keys = keys;
    add_own(&mut keys, owners, me, offset, c);
    keys
}
