ghost use Rattle.std.specs.Prelude.{◌≡◌, ℕ, ◌<◌, ◌≤◌, ◌+◌, ◌*◌, ◌/◌, ◌%◌, ◌==◌, if◌then◌else◌, length, vec_capacity, IfOk};
ghost use Rattle.mot_base.specs.Limits.{most_width, most_parties};
ghost use Rattle.share_types.specs.Keys.{◌⊕◌, bit, times, key_at};
ghost use Rattle.bmr_keys.specs.Mask.{Mask, IsPart, owners_of};
ghost use Rattle.bmr_garble.specs.Product.{AreShares};
ghost use Rattle.bmr_keys.specs.Payload.{key_bytes};
ghost use Rattle.bmr_garble.specs.Table.{Entries, IsTable, HaveShape, share_entry, payload_entry};

use bmr_keys::{MaskPart, add_offset, is_set, key_by, key_in, key_payload, keys_in, prf};
use mot_base::{NoMemory, Party, Payload};
use share_types::{Key, Keys};
use std::alloc::Global;

/// A garbled table, or a party's share of one: for each bit `i`, row `r` and owner `j` a key, at `(4 * i + r) * N + j`
/// with N the number of parties. Row `2 * s + t` serves the masked bits `s` and `t` of the inputs.
#[derive(Debug, Drop)]
pub struct Table {
    pub width: u8,
    pub parties: u8,
    pub rows: Keys,
}

impl Table {
    /// Adds a party's share, by XOR, where the keys lie.
    pub fn table_join(&mut self, share: &Table)
        requires { length share.now.rows ≡ length self.old.rows }
        ensures width { self.new.width ≡ self.old.width }
        ensures parties { self.new.parties ≡ self.old.parties }
        ensures count { length self.new.rows ≡ length self.old.rows }
        ensures rows { (n w : ℕ) (mine others : Entries) → IsTable n w mine self.old → IsTable n w others share.now →
            IsTable n w (λ i r j. mine i r j ⊕ others i r j) self.new }
    {
        for (k, key) in share.rows.as_slice().iter().enumerate() {
            self.rows.xor_at(k, *key);
        }
    }

    /// Adds a party's share, by XOR, from the payload in which it came.
    pub fn join_payload(&mut self, payload: &Payload)
        requires { 16 * length self.old.rows ≤ length payload.now }
        ensures width { self.new.width ≡ self.old.width }
        ensures parties { self.new.parties ≡ self.old.parties }
        ensures count { length self.new.rows ≡ length self.old.rows }
        ensures rows { (n w : ℕ) (mine : Entries) → IsTable n w mine self.old →
            IsTable n w (λ i r j. mine i r j ⊕ payload_entry n payload.now i r j) self.new }
    {
        for k in 0..self.rows.as_slice().len() {
            self.rows.xor_at(k, key_in(payload, k));
        }
    }

    /// The payload of a party's share: its keys in their order.
    pub fn payload(&self, alloc: Global) -> Result<Payload, NoMemory>
        ensures { IfOk result (λ payload. payload ≡ key_bytes self.now.rows) }
    {
        key_payload(alloc, self.rows.as_slice())
    }

    /// The share that a payload holds.
    pub fn from_payload(
        alloc: Global,
        width: u8,
        parties: u8,
        payload: &Payload,
    ) -> Result<Table, NoMemory>
        requires { length payload.now ≡ 16 * (4 * width * parties) }
        ensures { IfOk result (IsTable parties width (payload_entry parties payload.now)) }
    {
        Ok(Table {
            width,
            parties,
            rows: keys_in(alloc, payload)?,
        })
    }
}

/// What one party has at a gate whose table it garbles: the masks of both inputs and of the result, and its shares
/// of the product of the inputs' masks times each owner's offset.
#[derive(Drop)]
pub(crate) struct Garbler<'a> {
    pub me: Party,
    pub offset: Key,
    pub gate: u32,
    pub owners: usize,
    pub u: &'a MaskPart,
    pub v: &'a MaskPart,
    pub w: &'a MaskPart,
    pub product: &'a [Key],
}

impl Garbler<'_> {
    ghost use Rattle.bmr_keys.specs.Mask.{seen};
    ghost use Rattle.share_types.specs.Keys.{key_of};
    ghost use Rattle.share_types.specs.Sums.{each};

    /// The party's shares of all entries, by bit, row and owner. The list is made with room for all of them, and takes
    /// no memory more.
    fn rows(&self, alloc: Global) -> Result<Vec<Key>, NoMemory>
        requires some { 1 ≤ self.now.owners }
        requires most { self.now.owners ≤ most_parties }
        requires shape { HaveShape self.now.owners self.now.u.now.mask.width self.now.u.now self.now.v.now self.now.w.now self.now.product.now }
        ensures rows { let n = self.now.owners in IfOk result (λ rows. rows.items ≡ each (4 * self.now.u.now.mask.width * n) (λ k. record {
          0 =
              share_entry self.now.me.0 self.now.offset.0 self.now.gate (seen n self.now.u.now) (seen n self.now.v.now) (seen n self.now.w.now)
              (key_of n self.now.product.now) (k / n / 4) (k / n % 4) (k % n);
        })) }
        ensures memory { IfOk result (λ rows. vec_capacity rows ≡ 4 * self.now.u.now.mask.width * self.now.owners) }
    {
        let count = 4 * usize::from(self.u.mask.width) * self.owners;
        let mut rows = Vec::with_capacity(alloc, count)?;
        for k in 0..count {
            let line = k / self.owners;
            rows.push_reserved(self.entry(line / 4, (line % 4) as u8, k % self.owners));
        }
        Ok(rows)
    }

    /// The party's share of an entry.
    fn entry(&self, i: usize, r: u8, j: usize) -> Key
        requires most { self.now.owners ≤ most_parties }
        requires shape { HaveShape self.now.owners self.now.u.now.mask.width self.now.u.now self.now.v.now self.now.w.now self.now.product.now }
        requires i { i < self.now.u.now.mask.width }
        requires r { r < 4 }
        requires j { j < self.now.owners }
        ensures { let n = self.now.owners in result.0 ≡ share_entry self.now.me.0 self.now.offset.0 self.now.gate
            (seen n self.now.u.now) (seen n self.now.v.now) (seen n self.now.w.now) (key_of n self.now.product.now) i r j }
    {
        let (s, t) = row_bits(r);
        let x = add_offset(self.u.keys.as_slice()[i], s, self.offset);
        let y = add_offset(self.v.keys.as_slice()[i], t, self.offset);
        let hidden = prf(x, y, self.gate, i as u8, r, j as u8);
        let product = key_by(self.product, self.owners, i, j);
        let left = chosen(t, key_by(self.u.times.as_slice(), self.owners, i, j));
        let right = chosen(s, key_by(self.v.times.as_slice(), self.owners, i, j));
        let result = key_by(self.w.times.as_slice(), self.owners, i, j);
        let own = self.own(i, s && t, j);
        Key(hidden.0 ^ product.0 ^ left.0 ^ right.0 ^ result.0 ^ own.0)
    }

    /// What the party adds of its own to the entry of an owner: where it is the owner, its zero key of the result,
    /// and its offset in the row of two ones.
    fn own(&self, i: usize, ones: bool, j: usize) -> Key
        requires i { i < length self.now.w.now.keys }
        requires j { j < most_parties }
        ensures { result.0 ≡ (if j == self.now.me.0 then key_at self.now.w.now.keys i ⊕ times ones self.now.offset.0 else 0) }
    {
        if j == usize::from(self.me.0) {
            add_offset(self.w.keys.as_slice()[i], ones, self.offset)
        } else {
            Key(0)
        }
    }
}

/// The masked bits that a row serves, those of the left and of the right input.
fn row_bits(r: u8) -> (bool, bool)
    ensures left { result.0 ≡ bit r 1 }
    ensures right { result.1 ≡ bit r 0 }
{
    (is_set(u64::from(r), 1), is_set(u64::from(r), 0))
}

/// A key where a bit is set, and else 0.
fn chosen(set: bool, key: Key) -> Key
    ensures { result.0 ≡ times set key.0 }
{
    if set { key } else { Key(0) }
}

/// A party's share of the garbled table of a gate, from its parts of the masks of both inputs and of the result and
/// from its shares of the product of the inputs' masks times each owner's offset. All have one width and the same
/// owners.
pub fn table_share(
    alloc: Global,
    me: Party,
    offset: Key,
    gate: u32,
    u: &MaskPart,
    v: &MaskPart,
    w: &MaskPart,
    product: &[Key],
) -> Result<Table, NoMemory>
    requires me { me.0 < owners_of u.now }
    requires owners { owners_of u.now ≤ most_parties }
    requires shape { HaveShape (owners_of u.now) u.now.mask.width u.now v.now w.now product.now }
    ensures { (n : ℕ) (left right out : Mask) (shares : ℕ → ℕ → ℕ) → IsPart n u.now.mask.width left u.now →
        IsPart n u.now.mask.width right v.now → IsPart n u.now.mask.width out w.now → AreShares n u.now.mask.width shares product.now →
        IfOk result (IsTable n u.now.mask.width (share_entry me.0 offset.0 gate left right out shares)) }
{
    let garbler = Garbler {
        me,
        offset,
        gate,
        owners: u.owners(),
        u,
        v,
        w,
        product,
    };
    let rows = garbler.rows(alloc)?;
    Ok(Table {
        width: u.mask.width,
        parties: garbler.owners as u8,
        rows: Keys::new(rows),
    })
}
