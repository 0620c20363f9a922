ghost use Rattle.std.specs.Prelude.{◌≡◌, ℕ, ◌<◌, ◌≤◌, ◌+◌, ◌*◌, ◌^◌, length, All, get_or, false, [], IfOk};
ghost use Rattle.mot_base.specs.Limits.{most_width, most_parties, dealt_records};
ghost use Rattle.share_types.specs.Bits.{number};
ghost use Rattle.share_types.specs.Sums.{each, part_of_public};
ghost use Rattle.bmr_keys.specs.Hiding.{zero_key_of};

use crate::hiding::next_zero_key;
use crate::lists::{add_own, copied, joined, records_times, some_keys, with_bit, with_own, xored};
use mot_base::{NoMemory, Party, Seed, TapeReader};
use share_types::{Bits, Key, KeyBit, Keys};
use std::alloc::Global;

/// A party's part of the mask of a wire with N owners: its share of the mask, its own zero key of each bit, and its
/// share of each bit of the mask times each owner's offset, that of bit `i` and owner `j` at `i * N + j`.
#[derive(Debug, Drop)]
pub struct MaskPart {
    pub mask: Bits,
    pub keys: Keys,
    pub times: Keys,
}

impl MaskPart {
    ghost use Rattle.bmr_keys.specs.Mask.{Mask, IsPart, HasShape, owners_of, fresh_mask, constant_mask, xor_mask, flip_mask, slice_mask, join_mask};

    /// A fresh mask of as many bits as key records are given, of which the first has the number `first` in the deal.
    /// The zero keys are those of the same numbers on the party's tape.
    pub fn from_stock(
        alloc: Global,
        part: &[KeyBit],
        seed: &Seed,
        first: u32,
        parties: u8,
    ) -> Result<MaskPart, NoMemory>
        requires some { 1 ≤ length part.now }
        requires most { length part.now ≤ most_width }
        requires numbers { first + length part.now ≤ dealt_records }
        requires owners { All (λ key_bit. length key_bit.times ≡ parties) part.now }
        ensures { IfOk result (IsPart parties (length part.now) (fresh_mask (length part.now)
            (λ i. get_or part.now i (record { bit = false; times = [] })) (λ i. zero_key_of seed.now.0 (first + i)))) }
    {
        let keys = zero_keys(alloc, seed, first, part.len())?;
        let times = records_times(alloc, part)?;
        Ok(MaskPart {
            mask: Bits {
                word: bits_of(part),
                width: part.len() as u8,
            },
            keys: Keys::new(keys),
            times: Keys::new(times),
        })
    }

    /// The mask of a public vector, of which party 0 alone has a share that is not 0.
    pub fn constant(
        alloc: Global,
        me: Party,
        offset: Key,
        c: Bits,
        parties: u8,
    ) -> Result<MaskPart, NoMemory>
        requires { me.0 < parties }
        ensures { IfOk result (IsPart parties c.width (constant_mask me.0 offset.0 c.word)) }
    {
        let width = usize::from(c.width);
        let owners = usize::from(parties);
        let keys = vec![in alloc; Key(0); width]?;
        let mut times = vec![in alloc; Key(0); width * owners]?;
        add_own(&mut times, owners, me, offset, c);
        Ok(MaskPart {
            mask: public_part(me, c),
            keys: Keys::new(keys),
            times: Keys::new(times),
        })
    }

    /// The mask of the XOR of two wires.
    pub fn xor(&self, alloc: Global, other: &MaskPart) -> Result<MaskPart, NoMemory>
        requires width { other.now.mask.width ≡ self.now.mask.width }
        requires keys { length other.now.keys ≡ length self.now.keys }
        requires times { length other.now.times ≡ length self.now.times }
        ensures { (n : ℕ) (u v : Mask) → IsPart n self.now.mask.width u self.now → IsPart n self.now.mask.width v other.now →
            IfOk result (IsPart n self.now.mask.width (xor_mask u v)) }
    {
        let keys = xored(alloc, self.keys.as_slice(), other.keys.as_slice())?;
        let times = xored(alloc, self.times.as_slice(), other.times.as_slice())?;
        Ok(MaskPart {
            mask: self.mask.xor(other.mask),
            keys,
            times,
        })
    }

    /// The mask of a wire of which the bits of `c` are flipped.
    pub fn flip(&self, alloc: Global, me: Party, offset: Key, c: Bits) -> Result<MaskPart, NoMemory>
        requires width { c.width ≡ self.now.mask.width }
        requires shape { HasShape self.now }
        requires me { me.0 < owners_of self.now }
        ensures { (n : ℕ) (u : Mask) → IsPart n self.now.mask.width u self.now →
            IfOk result (IsPart n self.now.mask.width (flip_mask me.0 offset.0 u c.word)) }
    {
        let owners = self.owners();
        let keys = copied(alloc, self.keys.as_slice())?;
        let times = with_own(alloc, self.times.as_slice(), owners, me, offset, c)?;
        Ok(MaskPart {
            mask: self.mask.xor(public_part(me, c)),
            keys,
            times,
        })
    }

    /// The mask of some bits of a wire.
    pub fn slice(&self, alloc: Global, at: u8, width: u8) -> Result<MaskPart, NoMemory>
        requires some { 1 ≤ width }
        requires inside { at + width ≤ self.now.mask.width }
        requires shape { HasShape self.now }
        ensures { (n : ℕ) (u : Mask) → IsPart n self.now.mask.width u self.now →
            IfOk result (IsPart n width (slice_mask at width u)) }
    {
        let owners = self.owners();
        let from = usize::from(at);
        let to = from + usize::from(width);
        let keys = some_keys(alloc, self.keys.as_slice(), from, to)?;
        let times = some_keys(alloc, self.times.as_slice(), from * owners, to * owners)?;
        Ok(MaskPart {
            mask: self.mask.slice(at, width),
            keys,
            times,
        })
    }

    /// The mask of the bits of this wire and behind them those of another.
    pub fn join(&self, alloc: Global, high: &MaskPart) -> Result<MaskPart, NoMemory>
        requires { self.now.mask.width + high.now.mask.width ≤ most_width }
        ensures { (n : ℕ) (u v : Mask) → IsPart n self.now.mask.width u self.now → IsPart n high.now.mask.width v high.now →
            IfOk result (IsPart n (self.now.mask.width + high.now.mask.width) (join_mask self.now.mask.width u v)) }
    {
        let keys = joined(alloc, self.keys.as_slice(), high.keys.as_slice())?;
        let times = joined(alloc, self.times.as_slice(), high.times.as_slice())?;
        Ok(MaskPart {
            mask: self.mask.join(high.mask),
            keys,
            times,
        })
    }

    /// How many owners the part has shares for.
    pub fn owners(&self) -> usize
        ensures { result ≡ owners_of self.now }
    {
        self.times.as_slice().len() / usize::from(self.mask.width)
    }
}

/// The zero keys of as many records from one on. They stand together on the tape, so that all cost one seek.
fn zero_keys(alloc: Global, seed: &Seed, first: u32, count: usize) -> Result<Vec<Key>, NoMemory>
    requires { first + count ≤ dealt_records }
    ensures { IfOk result (λ keys. keys.items ≡ each count (λ i. record { 0 = zero_key_of seed.now.0 (first + i) })) }
{
    let mut tape = TapeReader::new(seed, 4 * u64::from(first));
    let mut keys = Vec::with_capacity(alloc, count)?;
    for i in 0..count {
        keys.push(next_zero_key(&mut tape))?;
    }
    Ok(keys)
}

/// The number of the bits of records.
fn bits_of(part: &[KeyBit]) -> u64
    requires { length part.now ≤ most_width }
    ensures number { result ≡ number (each (length part.now) (λ i. (get_or part.now i (record { bit = false; times = [] })).bit)) }
    ensures below { result < 2 ^ length part.now }
{
    let mut word = 0;
    for i in 0..part.len() {
        word = with_bit(word, i as u8, part[i].bit);
    }
    word
}

/// What a party has of a public vector: party 0 all of it, the others 0.
fn public_part(me: Party, c: Bits) -> Bits
    ensures word { result.word ≡ part_of_public me.0 c.word }
    ensures width { result.width ≡ c.width }
{
    if me == Party(0) { c } else { c.xor(c) }
}
