ghost use Rattle.std.specs.Prelude.{◌≡◌, ◌<◌, ◌≤◌, ◌+◌, ◌*◌, IfOk};
ghost use Rattle.mot_base.specs.Tape.{word_of_tape, long_word_of_tape, key_of_tape};
ghost use Rattle.dealer_maker.specs.Draws.{word_total, word_xor, key_xor, offset_drawn};

use mot_base::{NoMemory, Seed, TapeReader};
use std::alloc::Global;
use std::marker::Model;

/// The first words of a seed's tape, drawn one after another.
#[derive(Drop)]
pub(crate) struct Draws {
    seed: Seed,
    words: Vec<u32>,
}

impl Model for Draws {
    ghost use Rattle.std.specs.Prelude.{◌≡◌, length, map};
    ghost use Rattle.std.specs.List.{range_with_len};
    ghost use Rattle.mot_base.specs.Tape.{word_of_tape};
    ghost use Rattle.dealer_maker.specs.Draws.{Drawn};

    ghost Value = { Drawn };

    ghost view = { λ d. record { seed = d.seed.0; count = length d.words.items } };

    ghost invariant = { λ d. d.words.items ≡ map (word_of_tape d.seed.0) (range_with_len 0 (length d.words.items)) };
}

impl Draws {
    /// So many words of the seed's tape, from place 0 on.
    pub(crate) fn new(alloc: Global, seed: &Seed, count: u64) -> Result<Draws, NoMemory>
        ensures { IfOk result (λ draws. draws ≡ record { seed = seed.now.0; count = count }) }
    {
        let mut tape = TapeReader::new(seed, 0);
        let mut words = Vec::with_capacity(alloc, count as usize)?;
        for _at in 0..count {
            words.push(tape.word())?;
        }
        Ok(Draws { seed: *seed, words })
    }

    /// How many words there are.
    pub(crate) fn count(&self) -> usize
        ensures { result ≡ self.now.count }
    {
        self.words.len()
    }

    /// The word at a place.
    pub(crate) fn word(&self, place: usize) -> u32
        requires { place < self.now.count }
        ensures { result ≡ word_of_tape self.now.seed place }
    {
        let words = self.words.as_slice();
        words[place]
    }

    /// The word of 64 bits at a place.
    pub(crate) fn long_word(&self, place: usize) -> u64
        requires { place + 2 ≤ self.now.count }
        ensures { result ≡ long_word_of_tape self.now.seed place }
    {
        let _count = self.count();
        u64::from(self.word(place)) + (u64::from(self.word(place + 1)) << 32)
    }

    /// The key at a place.
    pub(crate) fn key(&self, place: usize) -> u128
        requires { place + 4 ≤ self.now.count }
        ensures { result ≡ key_of_tape self.now.seed place }
    {
        let _count = self.count();
        u128::from(self.long_word(place)) + (u128::from(self.long_word(place + 2)) << 64)
    }

    /// The offset of a party.
    #[tactic(auto, unfolding(crate::specs::Draws::offset_drawn))]
    pub(crate) fn offset(&self, party: u8) -> u128
        requires { 6 + 4 * party ≤ self.now.count }
        ensures { result ≡ offset_drawn self.now.seed party }
    {
        let _count = self.count();
        (self.key(2 + 4 * usize::from(party)) & !1) + 1
    }

    /// The sum of words of 64 bits that stand at every `step` words.
    pub(crate) fn total(&self, from: usize, step: usize, count: u8) -> u64
        requires step { 2 ≤ step }
        requires inside { from + step * count ≤ self.now.count }
        ensures { result ≡ word_total self.now.seed from step count }
    {
        let _count = self.count();
        let mut sum = 0u64;
        let mut place = from;
        for _at in 0..count {
            sum = sum.wrapping_add(self.long_word(place));
            place += step;
        }
        sum
    }

    /// The XOR of words that stand one after another.
    pub(crate) fn xor(&self, from: usize, count: u8) -> u32
        requires { from + count ≤ self.now.count }
        ensures { result ≡ word_xor self.now.seed from count }
    {
        let _count = self.count();
        let mut xor = 0u32;
        for at in 0..count {
            xor ^= self.word(from + usize::from(at));
        }
        xor
    }

    /// The XOR of keys that stand one after another.
    pub(crate) fn key_xor(&self, from: usize, count: u8) -> u128
        requires { from + 4 * count ≤ self.now.count }
        ensures { result ≡ key_xor self.now.seed from count }
    {
        let _count = self.count();
        let mut xor = 0u128;
        for at in 0..count {
            xor ^= self.key(from + 4 * usize::from(at));
        }
        xor
    }
}
