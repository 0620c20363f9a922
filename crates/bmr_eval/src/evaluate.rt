ghost use Rattle.std.specs.Prelude.{◌≡◌, ℕ, ◌<◌, ◌≤◌, ◌+◌, ◌*◌, ◌/◌, ◌%◌, ◌^◌, Bool, length, IfOk};
ghost use Rattle.mot_base.specs.Limits.{most_parties, most_width};
ghost use Rattle.share_types.specs.Bits.{number};
ghost use Rattle.share_types.specs.Sums.{each};
ghost use Rattle.share_types.specs.Keys.{bit, key_at, key_of};
ghost use Rattle.bmr_keys.specs.Hiding.{hiding_key};
ghost use Rattle.bmr_keys.specs.Wires.{Active, IsOnline};
ghost use Rattle.bmr_garble.specs.Table.{Entries, IsTable};
ghost use Rattle.bmr_eval.specs.Active.{row_of, result_key, and_active, online_seen, entries_in, HaveShape};

use bmr_garble::Table;
use bmr_keys::{is_set, key_by, prf, with_bit};
use mot_base::NoMemory;
use share_types::{Bits, Key, Keys, Online};
use std::alloc::Global;

/// What is seen of the AND of two wires, by the joined table of the gate. All have one width and the same owners.
pub fn eval_and(
    alloc: Global,
    t: &Table,
    gate: u32,
    u: &Online,
    v: &Online,
) -> Result<Online, NoMemory>
    requires some { 1 ≤ t.now.parties }
    requires most { t.now.parties ≤ most_parties }
    requires shape { HaveShape t.now u.now v.now }
    ensures { (entries : Entries) (a b : Active) → IsTable t.now.parties t.now.width entries t.now →
        IsOnline t.now.parties t.now.width a u.now → IsOnline t.now.parties t.now.width b v.now →
        IfOk result (IsOnline t.now.parties t.now.width (and_active t.now.parties t.now.width entries gate a b)) }
{
    let owners = usize::from(t.parties);
    let keys = Evaluator {
        table: t,
        gate,
        u,
        v,
    }
    .keys(alloc)?;
    let word = least_bits(keys.as_slice(), owners, u.masked.width);
    Ok(Online {
        masked: Bits {
            word,
            width: u.masked.width,
        },
        keys: Keys::new(keys),
    })
}

/// What evaluates a gate: its table and what is seen of both inputs.
#[derive(Drop)]
struct Evaluator<'a> {
    table: &'a Table,
    gate: u32,
    u: &'a Online,
    v: &'a Online,
}

impl Evaluator<'_> {
    /// All active keys of the result, by bit and owner.
    fn keys(&self, alloc: Global) -> Result<Vec<Key>, NoMemory>
        requires some { 1 ≤ self.now.table.now.parties }
        requires most { self.now.table.now.parties ≤ most_parties }
        requires shape { HaveShape self.now.table.now self.now.u.now self.now.v.now }
        ensures { let n = self.now.table.now.parties in IfOk result (λ keys. keys.items ≡ each (self.now.u.now.masked.width * n) (λ k. record {
          0 =
              result_key n (entries_in n self.now.table.now) self.now.gate (online_seen n self.now.u.now) (online_seen n self.now.v.now) (k / n) (k % n);
        })) }
    {
        let owners = usize::from(self.table.parties);
        let count = usize::from(self.u.masked.width) * owners;
        let mut keys = Vec::with_capacity(alloc, count)?;
        for k in 0..count {
            keys.push(self.key(k / owners, k % owners))?;
        }
        Ok(keys)
    }

    /// An owner's active key of a bit of the result.
    fn key(&self, i: usize, j: usize) -> Key
        requires most { self.now.table.now.parties ≤ most_parties }
        requires shape { HaveShape self.now.table.now self.now.u.now self.now.v.now }
        requires i { i < self.now.u.now.masked.width }
        requires j { j < self.now.table.now.parties }
        ensures { let n = self.now.table.now.parties in result.0
            ≡ result_key n (entries_in n self.now.table.now) self.now.gate (online_seen n self.now.u.now) (online_seen n self.now.v.now) i j }
    {
        let owners = usize::from(self.table.parties);
        let s = is_set(self.u.masked.word, i as u8);
        let t = is_set(self.v.masked.word, i as u8);
        let r = row(s, t);
        let mut key = key_by(
            self.table.rows.as_slice(),
            owners,
            4 * i + usize::from(r),
            j,
        );
        for q in 0..owners {
            key = Key(key.0 ^ self.hidden(i, r, j, q).0);
        }
        key
    }

    /// What one party's active keys hide of an owner's key.
    fn hidden(&self, i: usize, r: u8, j: usize, q: usize) -> Key
        requires most { self.now.table.now.parties ≤ most_parties }
        requires shape { HaveShape self.now.table.now self.now.u.now self.now.v.now }
        requires i { i < self.now.u.now.masked.width }
        requires j { j < self.now.table.now.parties }
        requires q { q < self.now.table.now.parties }
        ensures { let n = self.now.table.now.parties in result.0
            ≡ hiding_key (key_of n self.now.u.now.keys i q) (key_of n self.now.v.now.keys i q) self.now.gate i r j }
    {
        let owners = usize::from(self.table.parties);
        let x = key_by(self.u.keys.as_slice(), owners, i, q);
        let y = key_by(self.v.keys.as_slice(), owners, i, q);
        prf(x, y, self.gate, i as u8, r, j as u8)
    }
}

/// The row that serves two masked bits.
fn row(s: bool, t: bool) -> u8
    ensures row { result ≡ row_of s t }
    ensures below { result < 4 }
{
    2 * u8::from(s) + u8::from(t)
}

/// The least bits of owner 0's keys, as a number.
fn least_bits(keys: &[Key], owners: usize, width: u8) -> u64
    requires most { width ≤ most_width }
    requires some { 1 ≤ owners }
    requires count { length keys.now ≡ width * owners }
    ensures number { result ≡ number (each width (λ i. bit (key_at keys.now (i * owners)) 0)) }
    ensures below { result < 2 ^ width }
{
    let mut word = 0;
    for i in 0..width {
        word = with_bit(word, i, is_odd(key_by(keys, owners, usize::from(i), 0)));
    }
    word
}

/// Whether the least bit of a key is set.
fn is_odd(key: Key) -> bool
    ensures { result ≡ bit key.0 0 }
{
    key.0 % 2 == 1
}
