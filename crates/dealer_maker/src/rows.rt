ghost use Rattle.std.specs.Prelude.{◌≡◌, ◌<◌, ◌≤◌, ◌+◌, ◌-◌, ◌*◌, IfOk, map, bit_and, bit_xor};
ghost use Rattle.mot_base.specs.Limits.{least_parties, most_parties};
ghost use Rattle.std.specs.Int.{bit_at};
ghost use Rattle.std.specs.List.{range_with_len};
ghost use Rattle.dealer_maker.specs.Draws.{mult_words, shared_words, key_words, mult_drawn, bit_drawn, shared_drawn, share_drawn, key_drawn, owner_begin, rows};

use crate::draws::Draws;
use mot_base::NoMemory;
use share_types::{Key, KeyBit, Keys, MultTriple, SharedBit};
use std::alloc::Global;

/// One party's part of what is drawn for so many parties.
#[derive(Clone, Copy)]
pub(crate) struct Seat {
    pub(crate) parties: u8,
    pub(crate) party: u8,
    pub ghost some: { least_parties ≤ parties },
    pub ghost most: { parties ≤ most_parties },
    pub ghost inside: { party < parties },
}

impl Seat {
    /// The party's part of the multiplication triple that is drawn from a place on.
    #[tactic(auto, unfolding(crate::specs::Draws::mult_drawn))]
    pub(crate) fn mult(&self, draws: &Draws, from: usize) -> MultTriple
        requires { from + mult_words self.now.parties ≤ draws.now.count }
        ensures { result ≡ mult_drawn draws.now.seed self.now.parties self.now.party from }
    {
        let _count = draws.count();
        let parties = usize::from(self.parties);
        let own = from + 4 * usize::from(self.party);
        let last = from + 4 * parties;
        let c = if self.party == 0 {
            let a = draws.total(from, 4, self.parties);
            let b = draws.total(from + 2, 4, self.parties);
            a.wrapping_mul(b)
                .wrapping_sub(draws.total(last, 2, self.parties - 1))
        } else {
            draws.long_word(last + 2 * usize::from(self.party - 1))
        };
        MultTriple {
            a: draws.long_word(own),
            b: draws.long_word(own + 2),
            c,
        }
    }

    /// The party's record of the bit triple that is drawn from a place on.
    #[tactic(auto, unfolding(crate::specs::Draws::bit_drawn))]
    pub(crate) fn bit(&self, draws: &Draws, from: usize) -> u8
        requires { from + self.now.parties ≤ draws.now.count }
        ensures { result ≡ bit_drawn draws.now.seed self.now.parties self.now.party from }
    {
        let _count = draws.count();
        if self.party == 0 {
            let all = draws.xor(from, self.parties);
            let others = draws.xor(from + 1, self.parties - 1);
            let c = left_bit(bit_of(all, 0), bit_of(all, 1), bit_of(others, 2));
            return (draws.word(from) % 4 + 4 * c) as u8;
        }
        (draws.word(from + usize::from(self.party)) % 8) as u8
    }

    /// The party's part of the shared bit that is drawn from a place on.
    #[tactic(auto, unfolding(crate::specs::Draws::shared_drawn))]
    pub(crate) fn shared(&self, draws: &Draws, from: usize) -> SharedBit
        requires { from + shared_words self.now.parties ≤ draws.now.count }
        ensures { result ≡ shared_drawn draws.now.seed self.now.parties self.now.party from }
    {
        let _count = draws.count();
        let sums = from + usize::from(self.parties);
        let word = if self.party == 0 {
            let bit = bit_of(draws.xor(from, self.parties), 0);
            u64::from(bit).wrapping_sub(draws.total(sums, 2, self.parties - 1))
        } else {
            draws.long_word(sums + 2 * usize::from(self.party - 1))
        };
        let own = draws.word(from + usize::from(self.party));
        SharedBit {
            bit: bit_of(own, 0) == 1,
            word,
        }
    }

    /// The party's share of an owner's offset times the bit that is drawn from a place on. The shares for the
    /// owner stand from `place` on.
    #[tactic(auto, unfolding(crate::specs::Draws::share_drawn))]
    fn share(&self, draws: &Draws, from: usize, place: usize, owner: u8) -> Key
        requires owner { owner < self.now.parties }
        requires offset { 6 + 4 * owner ≤ draws.now.count }
        requires place { place ≡ owner_begin self.now.parties from owner }
        requires bits { from + self.now.parties ≤ draws.now.count }
        requires inside { place + 4 * (self.now.parties - 1) ≤ draws.now.count }
        ensures { result ≡ share_drawn draws.now.seed self.now.parties self.now.party from owner }
    {
        let _count = draws.count();
        if self.party == 0 {
            let bit = bit_of(draws.xor(from, self.parties), 0);
            let offset = if bit == 0 { 0 } else { draws.offset(owner) };
            return Key(offset ^ draws.key_xor(place, self.parties - 1));
        }
        Key(draws.key(place + 4 * usize::from(self.party - 1)))
    }

    /// The party's part of the key bit that is drawn from a place on.
    #[tactic(auto, unfolding(crate::specs::Draws::key_drawn))]
    pub(crate) fn key(&self, alloc: Global, draws: &Draws, from: usize) -> Result<KeyBit, NoMemory>
        requires offsets { 2 + 4 * self.now.parties ≤ draws.now.count }
        requires inside { from + key_words self.now.parties ≤ draws.now.count }
        ensures { IfOk result (λ key. key ≡ key_drawn draws.now.seed self.now.parties self.now.party from) }
    {
        let _count = draws.count();
        let own = draws.word(from + usize::from(self.party));
        Ok(KeyBit {
            bit: bit_of(own, 0) == 1,
            times: Keys::new(self.shares(alloc, draws, from)?),
        })
    }

    /// Its shares for all owners.
    fn shares(&self, alloc: Global, draws: &Draws, from: usize) -> Result<Vec<Key>, NoMemory>
        requires offsets { 2 + 4 * self.now.parties ≤ draws.now.count }
        requires inside { from + key_words self.now.parties ≤ draws.now.count }
        ensures { IfOk result (λ keys. keys.items ≡ map (share_drawn draws.now.seed self.now.parties self.now.party from) (range_with_len 0 self.now.parties)) }
    {
        let _count = draws.count();
        let step = 4 * usize::from(self.parties - 1);
        let mut place = from + usize::from(self.parties);
        let mut keys = Vec::with_capacity(alloc, usize::from(self.parties))?;
        for owner in 0..self.parties {
            keys.push(self.share(draws, from, place, owner))?;
            place += step;
        }
        Ok(keys)
    }
}

/// The bit of that number of a word.
#[tactic(auto, using(std::proofs::lemmas::Nat::Bits::shr_and_one))]
fn bit_of(word: u32, bit: u8) -> u32
    requires { bit < 32 }
    ensures bit { result ≡ bit_at word bit }
    ensures small { result < 2 }
{
    (word >> bit) & 1
}

/// What the others' `c` leave of the AND of `a` and `b`.
#[tactic(auto, using(crate::proofs::Drawing::left_small))]
fn left_bit(a: u32, b: u32, c: u32) -> u32
    requires a { a < 2 }
    requires b { b < 2 }
    requires c { c < 2 }
    ensures left { result ≡ bit_xor (bit_and a b) c }
    ensures small { result < 2 }
{
    (a & b) ^ c
}
