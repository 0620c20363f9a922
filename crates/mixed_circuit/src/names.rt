//! The places of names. They are looked up by a hash whose key is drawn from the text in which the names
//! stand: so a text whose names are to collide would have to be made for a key that it changes itself.

ghost use Rattle.std.specs.Prelude.{◌≡◌, Some, None, IfOk, cond};
ghost use Rattle.std.specs.Str.{bytes_eq};
ghost use Rattle.text_lines.specs.Text.{Text};
ghost use Rattle.std.specs.Hash.DefaultHasher.{initial, write};
ghost use Rattle.mixed_circuit.specs.Names.{key_of, place_in};

use sha2::{Digest, Sha256};
use std::alloc::{AllocError, Global};
use std::collections::HashMap;
use std::hash::{BuildHasher, DefaultHasher, Hasher};
use std::marker::Model;

/// How many bytes the key of a text has.
const KEY_LENGTH: usize = 16;

/// Hashes under a key: by SipHash-1-3 of the key and what is hashed behind it.
#[derive(Clone, Copy)]
struct KeyedHash {
    behind_key: DefaultHasher,
}

impl KeyedHash {
    /// Hashes under the key of a text: the first 16 bytes of its SHA-256 (FIPS 180-4).
    fn of(text: &[u8]) -> KeyedHash
        ensures { result.behind_key ≡ write initial (key_of text.now) }
    {
        let digest = Sha256::digest(text);
        let mut behind_key = DefaultHasher::new();
        behind_key.write(&digest[..KEY_LENGTH]);
        KeyedHash { behind_key }
    }
}

impl BuildHasher for KeyedHash {
    type Hasher = DefaultHasher;

    ghost build_hasher = { λ key. key.behind_key };

    fn build_hasher(&self) -> DefaultHasher {
        self.behind_key
    }
}

/// The places of names: a finite map from names to numbers.
#[derive(Drop)]
pub struct Places<'a> {
    places: HashMap<&'a str, u32, KeyedHash>,
}

impl<'a> Model for Places<'a> {
    ghost use Rattle.std.specs.Prelude.{ℕ, List};
    ghost use Rattle.mixed_circuit.specs.Names.{entries_of};
    ghost use Rattle.text_lines.specs.Text.{Text};

    ghost Value = { List (Text × ℕ) };

    ghost view = { λ p. entries_of p.places };
}

impl<'a> Places<'a> {
    /// No place of any name. The names are to stand in that text, which is hashed for the key, and in no
    /// other way looked at.
    pub fn none(alloc: Global, text: &[u8]) -> Places<'a>
        ensures { (name : Text) → place_in result name ≡ None }
    {
        Places {
            places: HashMap::with_hasher(alloc, KeyedHash::of(text)),
        }
    }

    /// The place of a name, if it has one.
    pub fn get(&self, name: &str) -> Option<u32>
        ensures { result ≡ place_in self.now name.now }
    {
        let places = &self.places;
        places.get(name).copied()
    }

    /// The same, where a name has this place.
    pub fn with(self, name: &'a str, place: u32) -> Result<Places<'a>, AllocError>
        ensures { IfOk result (λ places. (other : Text)
            → place_in places other
            ≡ cond (bytes_eq name.now other) (Some place) (place_in self.entry other)) }
    {
        let Places { mut places } = self;
        places.insert(name, place)?;
        Ok(Places { places })
    }
}
