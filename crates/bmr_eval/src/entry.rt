ghost use Rattle.std.specs.Prelude.{◌≡◌, ℕ, ◌<◌, ◌≤◌, ◌+◌, ◌*◌, ◌/◌, ◌%◌, length, All, IfOk};
ghost use Rattle.mot_base.specs.Limits.{most_parties, most_width};
ghost use Rattle.share_types.specs.Sums.{each};
ghost use Rattle.bmr_keys.specs.Wires.{IsOnline};
ghost use Rattle.bmr_keys.specs.Mask.{Mask, IsPart};
ghost use Rattle.bmr_eval.specs.Active.{own_active, AreKeys, told_key};

use bmr_keys::{MaskPart, add_offset, is_set, key_in};
use mot_base::{NoMemory, Party, Payload};
use share_types::{Bits, Key, Keys, Online};
use std::alloc::Global;

/// A party's active keys of a wire whose masked bits are told: its zero key of each bit, with its offset added where
/// the masked bit is 1.
pub fn enter(
    alloc: Global,
    part: &MaskPart,
    offset: Key,
    masked: Bits,
) -> Result<Vec<Key>, NoMemory>
    requires width { masked.width ≡ part.now.mask.width }
    requires keys { length part.now.keys ≡ part.now.mask.width }
    ensures { (n : ℕ) (u : Mask) → IsPart n masked.width u part.now →
        IfOk result (λ keys. AreKeys masked.width (own_active u offset.0 masked.word) keys.items) }
{
    let zero_keys = part.keys.as_slice();
    let mut keys = Vec::with_capacity(alloc, zero_keys.len())?;
    for i in 0..masked.width {
        keys.push(add_offset(zero_keys[usize::from(i)], is_set(masked.word, i), offset))?;
    }
    Ok(keys)
}

/// What is seen of a wire that is entered: the masked bits that were told, the own active keys, and those of the other
/// parties in order, each from its payload.
pub fn gathered(
    alloc: Global,
    masked: Bits,
    me: Party,
    own: &[Key],
    payloads: &[Payload],
) -> Result<Online, NoMemory>
    requires me { me.0 ≤ length payloads.now }
    requires most { length payloads.now < most_parties }
    requires own { length own.now ≡ masked.width }
    requires payloads { All (λ payload. length payload ≡ 16 * masked.width) payloads.now }
    ensures { IfOk result (IsOnline (length payloads.now + 1) masked.width
        (record { masked = masked.word; keys = told_key me.0 own.now payloads.now })) }
{
    let keys = told_keys(alloc, me, own, payloads)?;
    Ok(Online {
        masked,
        keys: Keys::new(keys),
    })
}

/// The keys of an entered wire, by bit and owner.
fn told_keys(
    alloc: Global,
    me: Party,
    own: &[Key],
    payloads: &[Payload],
) -> Result<Vec<Key>, NoMemory>
    requires me { me.0 ≤ length payloads.now }
    requires most { length payloads.now < most_parties }
    requires width { length own.now ≤ most_width }
    requires payloads { All (λ payload. length payload ≡ 16 * length own.now) payloads.now }
    ensures { let n = length payloads.now + 1 in IfOk result (λ keys. keys.items
        ≡ each (length own.now * n) (λ k. record { 0 = told_key me.0 own.now payloads.now (k / n) (k % n) })) }
{
    let parties = payloads.len() + 1;
    let count = own.len() * parties;
    let mut keys = Vec::with_capacity(alloc, count)?;
    for k in 0..count {
        keys.push(told(me, own, payloads, k / parties, k % parties))?;
    }
    Ok(keys)
}

/// The active key of a bit and an owner: an own one, or one from the owner's payload.
fn told(me: Party, own: &[Key], payloads: &[Payload], i: usize, j: usize) -> Key
    requires me { me.0 ≤ length payloads.now }
    requires j { j ≤ length payloads.now }
    requires i { i < length own.now }
    requires payloads { All (λ payload. length payload ≡ 16 * length own.now) payloads.now }
    ensures { result.0 ≡ told_key me.0 own.now payloads.now i j }
{
    let mine = usize::from(me.0);
    if j == mine {
        own[i]
    } else if j < mine {
        key_in(&payloads[j], i)
    } else {
        key_in(&payloads[j - 1], i)
    }
}
