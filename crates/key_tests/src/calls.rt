//! That each call on masks, tables and what is seen of wires succeeds with ample memory, by small values by hand.
ghost use Rattle.std.specs.Prelude.{◌≡◌, ◌+◌, length, IfOk};

use bmr_eval::{enter, eval_join, eval_slice, eval_xor, eval_zero, gathered};
use bmr_garble::Table;
use bmr_keys::{MaskPart, key_payload};
use mot_base::Party;
use share_types::{Bits, Key, Keys, Online};
use std::alloc::Global;
use std::test::Fail;

// four keys, and behind them the same with another first
const JOINED: [Key; 8] = [
    Key(1),
    Key(2),
    Key(4),
    Key(8),
    Key(16),
    Key(2),
    Key(4),
    Key(8),
];

/// A vector of two bits.
fn two_bits(word: u64) -> Bits
    ensures { result.width ≡ 2 }
{
    Bits {
        word: word % 4,
        width: 2,
    }
}

/// A part of a mask of two bits and two owners, with this first share.
fn mask(alloc: Global, word: u64, first: u128) -> Result<MaskPart, Fail>
    ensures width { IfOk result (λ part. part.mask.width ≡ 2) }
    ensures keys { IfOk result (λ part. length part.keys ≡ 2) }
    ensures times { IfOk result (λ part. length part.times ≡ 4) }
{
    let keys = vec![in alloc; Key(10), Key(20)]?;
    let times = vec![in alloc; Key(first), Key(2), Key(4), Key(8)]?;
    Ok(MaskPart {
        mask: two_bits(word),
        keys: Keys::new(keys),
        times: Keys::new(times),
    })
}

/// Whether a part has this mask, these keys and these shares.
fn is_part(part: &MaskPart, word: u64, width: u8, keys: &[Key], times: &[Key]) -> bool {
    part.mask.word == word
        && part.mask.width == width
        && part.keys.as_slice() == keys
        && part.times.as_slice() == times
}

/// Whether an XOR, a slice, a join and a constant are as by hand.
fn masks_are_made(alloc: Global) -> Result<bool, Fail> {
    let u = mask(alloc, 1, 1)?;
    let v = mask(alloc, 3, 16)?;
    let sum = u.xor(alloc, &v)?;
    let high = u.slice(alloc, 1, 1)?;
    let both = u.join(alloc, &v)?;
    let public = MaskPart::constant(alloc, Party(1), Key(77), two_bits(2), 2)?;
    let none = Key(0);
    Ok(
        is_part(&sum, 2, 2, &[none, none], &[Key(17), none, none, none])
            && is_part(&high, 0, 1, &[Key(20)], &[Key(4), Key(8)])
            && is_part(&both, 13, 4, &[Key(10), Key(20), Key(10), Key(20)], &JOINED)
            && is_part(&public, 0, 2, &[none, none], &[none, none, none, Key(77)]),
    )
}

#[test]
fn masks_of_two_bits_are_made(rt: HostRuntime) -> Result<(), Fail> {
    let made = masks_are_made(rt.alloc())?;
    assert!(rt; made);
    Ok(())
}

/// What is seen of a wire of two bits and two owners, with this first key.
fn online(alloc: Global, word: u64, first: u128) -> Result<Online, Fail>
    ensures width { IfOk result (λ online. online.masked.width ≡ 2) }
    ensures keys { IfOk result (λ online. length online.keys ≡ 4) }
{
    let keys = vec![in alloc; Key(first), Key(2), Key(4), Key(8)]?;
    Ok(Online {
        masked: two_bits(word),
        keys: Keys::new(keys),
    })
}

/// Whether these masked bits and keys are seen.
fn is_online(online: &Online, word: u64, width: u8, keys: &[Key]) -> bool {
    online.masked.word == word && online.masked.width == width && online.keys.as_slice() == keys
}

/// Whether an XOR, a slice, a join and a public vector are seen as by hand.
fn wires_are_seen(alloc: Global) -> Result<bool, Fail> {
    let a = online(alloc, 1, 1)?;
    let b = online(alloc, 3, 16)?;
    let sum = eval_xor(alloc, &a, &b)?;
    let high = eval_slice(alloc, &a, 1, 1)?;
    let both = eval_join(alloc, &a, &b)?;
    let public = eval_zero(alloc, 1, 2)?;
    let none = Key(0);
    Ok(
        is_online(&sum, 2, 2, &[Key(17), none, none, none])
            && is_online(&high, 0, 1, &[Key(4), Key(8)])
            && is_online(&both, 13, 4, &JOINED)
            && is_online(&public, 0, 1, &[none, none]),
    )
}

#[test]
fn wires_of_two_bits_are_seen(rt: HostRuntime) -> Result<(), Fail> {
    let seen = wires_are_seen(rt.alloc())?;
    assert!(rt; seen);
    Ok(())
}

/// Whether party 1 enters the masked bits 2, and gathers with party 0's keys what is seen.
fn vector_is_entered(alloc: Global) -> Result<bool, Fail> {
    let part = mask(alloc, 1, 1)?;
    let own = enter(alloc, &part, Key(77), two_bits(2))?;
    let told = key_payload(alloc, &[Key(3), Key(5)])?;
    if own.as_slice() != [Key(10), Key(89)].as_slice() || told.bytes().len() != 32 {
        return Ok(false);
    }
    let seen = gathered(alloc, two_bits(2), Party(1), &[Key(10), Key(89)], &[told])?;
    Ok(is_online(&seen, 2, 2, &[Key(3), Key(10), Key(5), Key(89)]))
}

/// Whether a table of one bit and two owners is read from its payload.
fn table_is_read(alloc: Global) -> Result<bool, Fail> {
    let keys = [
        Key(1),
        Key(2),
        Key(3),
        Key(4),
        Key(5),
        Key(6),
        Key(7),
        Key(8),
    ];
    let payload = key_payload(alloc, &keys)?;
    if payload.bytes().len() != 128 {
        return Ok(false);
    }
    let table = Table::from_payload(alloc, 1, 2, &payload)?;
    Ok(table.width == 1 && table.parties == 2 && table.rows.as_slice() == keys.as_slice())
}

#[test]
fn payloads_of_keys_are_taken(rt: HostRuntime) -> Result<(), Fail> {
    let entered = vector_is_entered(rt.alloc())?;
    let read = table_is_read(rt.alloc())?;
    assert!(rt; entered && read);
    Ok(())
}
