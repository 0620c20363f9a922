ghost use Rattle.std.specs.Prelude.{◌≡◌, ℕ, ◌<◌, ◌≤◌, ◌+◌, ◌^◌};
ghost use Rattle.mot_base.specs.Limits.{most_parties, most_gates, session_count};
ghost use Rattle.mot_base.specs.Tape.{derived_seed, word_of_tape, long_word_of_tape, key_of_tape, tape_length, share_place, share_of_tape, shares_of_tape};

use crate::{MAX_PARTIES, Party, Seed};
use rand_chacha::ChaCha20Rng;
use rand_core::SeedableRng;
use rand_core::utils::NextWord;
use sha2::{Digest, Sha256};
use std::marker::Model;

/// The seed that belongs to a label under `seed`: SHA-256 (FIPS 180-4) of the 32 bytes of the seed
/// followed by the label.
pub fn derive(seed: &Seed, label: u8) -> Seed
    ensures { result.0 ≡ derived_seed seed.now.0 label }
{
    let mut hasher = Sha256::new();
    hasher.update(seed.0.as_slice());
    hasher.update([label].as_slice());
    Seed(hasher.finalize())
}

/// A seed's tape, read on from a place: stream 0 of ChaCha20 under the seed, in Bernstein's form with a
/// 64-bit block counter. Words that stand together cost one seek.
#[derive(Drop)]
pub struct TapeReader {
    seed: Seed,
    words: ChaCha20Rng,
}

impl Model for TapeReader {
    ghost use Rattle.std.specs.Prelude.{◌≡◌};
    ghost use Rattle.rand_chacha.specs.ChaCha.{key_of};
    ghost use Rattle.mot_base.specs.Tape.{TapeAt};

    ghost Value = { TapeAt };

    ghost view = { λ tape. record { seed = tape.seed.0; place = tape.words.word_pos } };

    ghost invariant = { λ tape. (tape.words.key ≡ key_of tape.seed.0) × (tape.words.stream ≡ 0) };
}

impl TapeReader {
    /// The seed's tape, of which the word at `place` is read next.
    pub fn new(seed: &Seed, place: u64) -> TapeReader
        ensures { result ≡ record { seed = seed.now.0; place = place } }
    {
        let mut words = ChaCha20Rng::from_seed(seed.0);
        words.set_word_pos(u128::from(place));
        TapeReader { seed: *seed, words }
    }

    /// The next word, of 32 bits.
    #[tactic(auto, unfolding(crate::specs::Tape::word_of_tape))]
    pub fn word(&mut self) -> u32
        requires { self.old.place < tape_length }
        ensures word { result ≡ word_of_tape self.old.seed self.old.place }
        ensures moved { self.new ≡ record self.old { place = self.old.place + 1 } }
    {
        self.words.next_word()
    }

    /// The next two words as a number of 64 bits, the low one first.
    pub fn long_word(&mut self) -> u64
        requires { self.old.place + 2 ≤ tape_length }
        ensures word { result ≡ long_word_of_tape self.old.seed self.old.place }
        ensures moved { self.new ≡ record self.old { place = self.old.place + 2 } }
    {
        let low = self.word();
        let high = self.word();
        u64::from(low) + (u64::from(high) << 32)
    }

    /// The next four words as a number of 128 bits, the lowest first.
    pub fn key(&mut self) -> u128
        requires { self.old.place + 4 ≤ tape_length }
        ensures key { result ≡ key_of_tape self.old.seed self.old.place }
        ensures moved { self.new ≡ record self.old { place = self.old.place + 4 } }
    {
        let low = self.long_word();
        let high = self.long_word();
        u128::from(low) + (u128::from(high) << 64)
    }
}

/// The word of 32 bits at a place of the seed's tape.
pub fn tape_word(seed: &Seed, place: u64) -> u32
    ensures { result ≡ word_of_tape seed.now.0 place }
{
    TapeReader::new(seed, place).word()
}

/// The share word, modulo 2^64, that a party's tape holds for the party `to` at a gate of a session:
/// two words of the tape, the low one first.
pub fn tape_share(seed: &Seed, session: u32, gate: u32, to: Party) -> u64
    requires session { session < session_count }
    requires gate { gate < most_gates }
    requires to { to.0 < most_parties }
    ensures { result ≡ share_of_tape seed.now.0 session gate to.0 }
{
    let place = gate_place(session, gate) + 2 * u64::from(to.0);
    TapeReader::new(seed, place).long_word()
}

/// The share words for all parties in order that a party's tape holds at a gate of a session. They stand
/// together on the tape, so that all of them cost one seek.
pub fn tape_shares(seed: &Seed, session: u32, gate: u32) -> [u64; MAX_PARTIES as usize]
    requires session { session < session_count }
    requires gate { gate < most_gates }
    ensures { result ≡ shares_of_tape seed.now.0 session gate }
{
    let mut tape = TapeReader::new(seed, gate_place(session, gate));
    let mut shares = [0; MAX_PARTIES as usize];
    for to in 0..MAX_PARTIES {
        shares[usize::from(to)] = tape.long_word();
    }
    shares
}

/// The place of the first share word of a gate of a session.
fn gate_place(session: u32, gate: u32) -> u64
    requires session { session < session_count }
    requires gate { gate < most_gates }
    ensures { result ≡ share_place session gate 0 }
{
    SHARE_WORDS + (u64::from(session) << 26) + 16 * u64::from(gate)
}

/// The place of the first share word on a tape. The places before it are kept for zero keys.
const SHARE_WORDS: u64 = 1 << 48;
