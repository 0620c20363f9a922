ghost use Rattle.std.specs.Prelude.{◌≡◌, ◌<◌, ◌≤◌, ◌+◌, ◌*◌, IfOk, Some, length, take, drop, slice_get, ◌^◌};
ghost use Rattle.std.specs.Int.{bit_at};
ghost use Rattle.mot_base.specs.Limits.{most_width};
ghost use Rattle.dealer_files.specs.Part.{IsPart, counts_of};
ghost use Rattle.dealer_files.specs.Records.{vector_of};

use mot_base::{NoMemory, Party};
use share_types::{BitTriple, Bits, Key, KeyBit, Keys, MultTriple, Needs, SharedBit};
use std::alloc::Global;
use std::marker::Model;

/// What the dealer gives one party: the party's offset, and its parts of the records of each kind. A bit
/// triple's record is one byte, of which bits 0, 1 and 2 are the party's bits of `a`, `b` and `c`.
#[derive(Debug, Drop)]
pub struct DealerPart {
    parties: u8,
    party: Party,
    id: u64,
    offset: Key,
    mult: Vec<MultTriple>,
    bits: Vec<u8>,
    shared: Vec<SharedBit>,
    keys: Vec<KeyBit>,
}

impl Model for DealerPart {
    ghost use Rattle.dealer_files.specs.Part.{Part, IsPart};

    ghost Value = { Part };

    ghost view = { λ p. record {
      parties = p.parties;
      party = p.party.0;
      id = p.id;
      offset = p.offset.0;
      mult = p.mult.items;
      bits = p.bits.items;
      shared = p.shared.items;
      keys = p.keys.items;
    } };

    ghost invariant = { λ p. IsPart (record {
      parties = p.parties;
      party = p.party.0;
      id = p.id;
      offset = p.offset.0;
      mult = p.mult.items;
      bits = p.bits.items;
      shared = p.shared.items;
      keys = p.keys.items;
    }) };
}

impl DealerPart {
    /// The part of these records.
    pub fn new(
        parties: u8,
        party: Party,
        id: u64,
        offset: Key,
        mult: Vec<MultTriple>,
        bits: Vec<u8>,
        shared: Vec<SharedBit>,
        keys: Vec<KeyBit>,
    ) -> DealerPart
        requires { IsPart (record {
          parties = parties;
          party = party.0;
          id = id;
          offset = offset.0;
          mult = mult.items;
          bits = bits.items;
          shared = shared.items;
          keys = keys.items;
        }) }
        ensures { result ≡ record {
          parties = parties;
          party = party.0;
          id = id;
          offset = offset.0;
          mult = mult.items;
          bits = bits.items;
          shared = shared.items;
          keys = keys.items;
        } }
    {
        DealerPart {
            parties,
            party,
            id,
            offset,
            mult,
            bits,
            shared,
            keys,
        }
    }

    /// Another part that is the same.
    pub fn copy(&self, alloc: Global) -> Result<DealerPart, NoMemory>
        ensures { IfOk result (λ copy. copy ≡ self.now) }
    {
        Ok(DealerPart {
            parties: self.parties,
            party: self.party,
            id: self.id,
            offset: self.offset,
            mult: Vec::from_slice(alloc, self.mult.as_slice())?,
            bits: Vec::from_slice(alloc, self.bits.as_slice())?,
            shared: Vec::from_slice(alloc, self.shared.as_slice())?,
            keys: copy_keys(alloc, self.keys.as_slice())?,
        })
    }

    /// That each part meets the conditions of `new`.
    pub fn is_part(&self)
        ensures { IsPart self.now }
    {
        let _parties = self.parties;
    }

    /// How many parties the deal is for, 2 to 8.
    pub fn parties(&self) -> u8
        ensures { result ≡ self.now.parties }
    {
        self.parties
    }

    /// The party whose part this is.
    pub fn party(&self) -> Party
        ensures { result.0 ≡ self.now.party }
    {
        self.party
    }

    /// The number of the deal.
    pub fn id(&self) -> u64
        ensures { result ≡ self.now.id }
    {
        self.id
    }

    /// The party's offset, which is odd.
    pub fn offset(&self) -> Key
        ensures { result.0 ≡ self.now.offset }
    {
        self.offset
    }

    /// How many records of each kind there are.
    pub fn counts(&self) -> Needs
        ensures { result ≡ counts_of self.now }
    {
        Needs {
            mult: self.mult.len() as u32,
            bit: self.bits.len() as u32,
            shared: self.shared.len() as u32,
            key: self.keys.len() as u32,
        }
    }

    /// The part of the multiplication triple at a place, from 0.
    pub fn mult(&self, at: u32) -> MultTriple
        requires { at < length self.now.mult }
        ensures { slice_get self.now.mult at ≡ Some result }
    {
        self.mult[at as usize]
    }

    /// The parts of `width` bit triples from a place on, as three vectors: bit `i` of each comes from the record
    /// at `at + i`.
    pub fn bits(&self, at: u32, width: u8) -> BitTriple
        requires some { 1 ≤ width }
        requires most { width ≤ most_width }
        requires inside { at + width ≤ length self.now.bits }
        ensures a { result.a.word ≡ vector_of 0 (take width (drop at self.now.bits)) }
        ensures b { result.b.word ≡ vector_of 1 (take width (drop at self.now.bits)) }
        ensures c { result.c.word ≡ vector_of 2 (take width (drop at self.now.bits)) }
        ensures width { result.a.width ≡ width }
    {
        let from = at as usize;
        let records = &self.bits[from..from + usize::from(width)];
        BitTriple {
            a: vector(records, 0),
            b: vector(records, 1),
            c: vector(records, 2),
        }
    }

    /// The parts of `count` shared bits from a place on.
    pub fn shared(&self, at: u32, count: u32) -> &[SharedBit]
        requires { at + count ≤ length self.now.shared }
        ensures { result.now ≡ take count (drop at self.entry.now.shared) }
    {
        let from = at as usize;
        &self.shared[from..from + count as usize]
    }

    /// The parts of `count` key bits from a place on.
    pub fn keys(&self, at: u32, count: u32) -> &[KeyBit]
        requires { at + count ≤ length self.now.keys }
        ensures { result.now ≡ take count (drop at self.entry.now.keys) }
    {
        let from = at as usize;
        &self.keys[from..from + count as usize]
    }

    /// All its multiplication triples, bit triples, shared bits and key bits.
    pub(crate) fn records(&self) -> (&[MultTriple], &[u8], &[SharedBit], &[KeyBit])
        ensures mult { result.0.now ≡ self.entry.now.mult }
        ensures bits { result.1.now ≡ self.entry.now.bits }
        ensures shared { result.2.now ≡ self.entry.now.shared }
        ensures keys { result.3.now ≡ self.entry.now.keys }
    {
        (
            self.mult.as_slice(),
            self.bits.as_slice(),
            self.shared.as_slice(),
            self.keys.as_slice(),
        )
    }
}

/// The vector that has at each place the bit of that number of the record there.
fn vector(records: &[u8], bit: u8) -> Bits
    requires some { 1 ≤ length records.now }
    requires most { length records.now ≤ most_width }
    requires bit { bit < 8 }
    ensures word { result.word ≡ vector_of bit records.now }
    ensures width { result.width ≡ length records.now }
{
    Bits {
        word: packed(records, bit),
        width: records.len() as u8,
    }
}

/// The number of that vector.
fn packed(records: &[u8], bit: u8) -> u64
    requires most { length records.now ≤ most_width }
    requires bit { bit < 8 }
    ensures word { result ≡ vector_of bit records.now }
    ensures below { result < 2 ^ length records.now }
{
    let mut word = 0u64;
    for at in 0..records.len() {
        let one = bit_of(records[records.len() - 1 - at], bit);
        word = 2 * word + one;
    }
    word
}

/// The bit of that number of a record.
#[tactic(auto, using(std::proofs::lemmas::Nat::Bits::shr_and_one))]
fn bit_of(triple: u8, bit: u8) -> u64
    requires { bit < 8 }
    ensures bit { result ≡ bit_at triple bit }
    ensures small { result < 2 }
{
    u64::from((triple >> bit) & 1)
}

/// Other records that are the same.
fn copy_keys(alloc: Global, keys: &[KeyBit]) -> Result<Vec<KeyBit>, NoMemory>
    ensures { IfOk result (λ copy. copy.items ≡ keys.now) }
{
    let mut copy = Vec::with_capacity(alloc, keys.len())?;
    for key in keys {
        let times = Vec::from_slice(alloc, key.times.as_slice())?;
        copy.push(KeyBit {
            bit: key.bit,
            times: Keys::new(times),
        })?;
    }
    Ok(copy)
}
