//! Keys as the bytes of messages.

ghost use Rattle.std.specs.Prelude.{◌≡◌, ◌≤◌, ◌+◌, ◌*◌, ◌/◌, ◌++◌, length, OnOk, IfOk};
ghost use Rattle.share_types.specs.Sums.{each};
ghost use Rattle.bmr_keys.specs.Payload.{bytes_of_key, key_bytes, key_in};

use byteorder::{BigEndian, ByteOrder};
use mot_base::{NoMemory, Payload};
use share_types::{Key, Keys};
use std::alloc::{AllocError, Global};

/// The payload of keys, each in 16 bytes, the high byte first.
pub fn key_payload(alloc: Global, keys: &[Key]) -> Result<Payload, NoMemory>
    ensures { IfOk result (λ payload. payload ≡ key_bytes keys.now) }
{
    let mut bytes = Vec::with_capacity(alloc, keys.len().saturating_mul(16))?;
    put_keys(&mut bytes, keys)?;
    Ok(Payload::new(bytes))
}

/// The key at a place of a payload of keys.
#[tactic(auto, unfolding(crate::specs::Hiding::first_key))]
pub fn key_in(payload: &Payload, place: usize) -> Key
    requires { 16 * place + 16 ≤ length payload.now }
    ensures { result.0 ≡ key_in payload.now place }
{
    Key(BigEndian::read_u128(&payload.bytes()[16 * place..]))
}

/// The keys of a payload of keys.
pub fn keys_in(alloc: Global, payload: &Payload) -> Result<Keys, NoMemory>
    ensures { IfOk result (λ keys. keys ≡ each (length payload.now / 16) (λ k. record { 0 = key_in payload.now k })) }
{
    let count = payload.bytes().len() / 16;
    let mut keys = Vec::with_capacity(alloc, count)?;
    for k in 0..count {
        keys.push(key_in(payload, k))?;
    }
    Ok(Keys::new(keys))
}

fn put_keys(out: &mut Vec<u8>, keys: &[Key]) -> Result<(), AllocError>
    ensures { OnOk result (out.new.items ≡ out.old.items ++ key_bytes keys.now) }
{
    for key in keys {
        put_key(out, *key)?;
    }
    Ok(())
}

/// Writes a key in 16 bytes.
#[tactic(auto, unfolding(crate::specs::Payload::bytes_of_key))]
fn put_key(out: &mut Vec<u8>, key: Key) -> Result<(), AllocError>
    ensures { OnOk result (out.new.items ≡ out.old.items ++ bytes_of_key key.0) }
{
    let mut bytes = [0; 16];
    BigEndian::write_u128(&mut bytes, key.0);
    out.extend_from_slice(&bytes)
}
