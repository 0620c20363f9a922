ghost use Rattle.std.specs.Prelude.{◌≡◌, ◌<◌, length, slice_set, bit_xor};
ghost use Rattle.share_types.specs.Keys.{key_at};

use crate::Bits;
use std::marker::Model;

/// A wire label or an offset of garbled circuits, or a share of one: 128 bits, of which bit 0 is the least.
#[derive(Clone, Copy, Debug, PartialEq, Eq)]
pub struct Key(pub u128);

/// A list of keys.
#[derive(Debug, Drop)]
pub struct Keys {
    keys: Vec<Key>,
}

impl Model for Keys {
    ghost use Rattle.std.specs.Prelude.{List};
    ghost use Rattle.share_types.specs.declared.keys.Key.{Key};

    ghost Value = { List Key };

    ghost view = { λ list. list.keys.items };
}

impl Keys {
    /// The list of these keys.
    pub fn new(keys: Vec<Key>) -> Keys
        ensures { result ≡ keys.items }
    {
        Keys { keys }
    }

    /// Its keys.
    pub fn as_slice(&self) -> &[Key]
        ensures { result.now ≡ self.entry.now }
    {
        self.keys.as_slice()
    }

    /// Adds a key to the one at a place, by XOR, where it lies.
    pub fn xor_at(&mut self, place: usize, key: Key)
        requires { place < length self.old }
        ensures { self.new ≡ slice_set self.old place (record { 0 = bit_xor (key_at self.old place) key.0 }) }
    {
        let sum = self.keys[place].0 ^ key.0;
        self.keys[place] = Key(sum);
    }
}

/// What all parties see of a garbled wire: the bits of its value masked, and the active keys. The key of bit
/// `i` and owner `j` stands at `i * N + j`, with N the number of parties.
#[derive(Debug, Drop)]
pub struct Online {
    pub masked: Bits,
    pub keys: Keys,
}
