ghost use Rattle.std.specs.Prelude.{◌≡◌, ◌<◌, ◌≤◌, ◌+◌};
ghost use Rattle.mot_base.specs.Tape.{tape_length, key_of_tape};
ghost use Rattle.bmr_keys.specs.Hiding.{hiding_key, even_key, zero_key_of};

use byteorder::{BigEndian, ByteOrder};
use mot_base::{Seed, TapeReader};
use sha2::{Digest, Sha256};
use share_types::Key;

/// What hides a key of a garbled table: the first 16 bytes of SHA-256 (FIPS 180-4) of both keys of a party, the
/// gate, the bit, the row and the owner, 39 bytes in all.
pub fn prf(x: Key, y: Key, gate: u32, bit: u8, row: u8, owner: u8) -> Key
    ensures { result.0 ≡ hiding_key x.0 y.0 gate bit row owner }
{
    let mut hasher = Sha256::new();
    hasher.update(x.0.to_be_bytes().as_slice());
    hasher.update(y.0.to_be_bytes().as_slice());
    hasher.update(gate.to_be_bytes().as_slice());
    hasher.update([bit, row, owner].as_slice());
    let hash = hasher.finalize();
    Key(BigEndian::read_u128(hash.as_slice()))
}

/// The zero key of a key record: four words of the seed's tape, the lowest first, with the least bit cleared.
#[tactic(auto, unfolding(crate::specs::Hiding::zero_key_of))]
pub fn zero_key(seed: &Seed, number: u32) -> Key
    ensures { result.0 ≡ zero_key_of seed.now.0 number }
{
    next_zero_key(&mut TapeReader::new(seed, 4 * u64::from(number)))
}

/// The next four words of the tape as a key with the least bit cleared.
pub(crate) fn next_zero_key(tape: &mut TapeReader) -> Key
    requires { tape.old.place + 4 ≤ tape_length }
    ensures key { result.0 ≡ even_key (key_of_tape tape.old.seed tape.old.place) }
    ensures moved { tape.new ≡ record tape.old { place = tape.old.place + 4 } }
{
    let key = tape.key();
    Key(key - key % 2)
}
