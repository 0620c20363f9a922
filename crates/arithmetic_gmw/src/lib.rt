//! Arithmetic GMW: what a party makes of its shares of words modulo 2^64, where the shares of all
//! parties sum to the word.
#![tactic(auto)]

ghost use Rattle.std.specs.Prelude.{◌≡◌, ◌≢◌, ℕ, ◌<◌, ◌≤◌, IfOk, vec_len, slice_get, remove, nat_eq, if◌then◌else◌};
ghost use Rattle.mot_base.specs.Tape.{share_of_tape};
ghost use Rattle.mot_base.specs.Limits.{most_parties, most_gates, session_count};
ghost use Rattle.share_types.specs.Sums.{word_sum, word_difference, word_product, total, Recombines, part_of_public};
ghost use Rattle.arithmetic_gmw.specs.Sharing.{word_of, words_of};
ghost use Rattle.arithmetic_gmw.specs.Shares.{raised_share, opened_left, opened_right, closed_share};

use mot_base::{NoMemory, Party, Seed, tape_shares};
use share_types::MultTriple;
use std::alloc::Global;

mod laws;

pub use laws::{
    difference_recombines, product_recombines, raised_recombines, scaled_recombines, sum_recombines,
};

/// The shares of `x` that party `me` gives out at a gate of a session, one for each party in order: the
/// others' are words of the seed's tape, and its own is what they leave of the value.
#[tactic(auto, using(crate::proofs::Sharing::count_given, crate::proofs::Sharing::others_given, crate::proofs::Sharing::own_given, crate::proofs::Sharing::recombine_given))]
pub fn share_out(
    alloc: Global,
    x: u64,
    seed: &Seed,
    session: u32,
    gate: u32,
    me: Party,
    parties: u8,
) -> Result<Vec<u64>, NoMemory>
    requires session { session < session_count }
    requires gate { gate < most_gates }
    requires parties { parties ≤ most_parties }
    requires me { me.0 < parties }
    ensures count { IfOk result (λ shares. vec_len shares ≡ parties) }
    ensures others { IfOk result (λ shares. (to : ℕ) → to < parties → to ≢ me.0 →
        slice_get shares.items to ≡ Some (share_of_tape seed.now.0 session gate to)) }
    ensures own { IfOk result (λ shares.
        slice_get shares.items me.0 ≡ Some (word_difference x (total (remove shares.items me.0)))) }
    ensures recombines { IfOk result (λ shares. Recombines shares.items x) }
{
    let mut shares = words_for(alloc, seed, session, gate, me, parties)?;
    let own = less(x, &shares);
    shares[usize::from(me.0)] = own;
    Ok(shares)
}

/// The share words for the first parties in order, with 0 in the place of `me`.
fn words_for(
    alloc: Global,
    seed: &Seed,
    session: u32,
    gate: u32,
    me: Party,
    parties: u8,
) -> Result<Vec<u64>, NoMemory>
    requires session { session < session_count }
    requires gate { gate < most_gates }
    requires parties { parties ≤ most_parties }
    ensures { IfOk result (λ words. words.items ≡ words_of seed.now.0 session gate me.0 parties) }
{
    let tape = tape_shares(seed, session, gate);
    let mut words = Vec::with_capacity(alloc, usize::from(parties))?;
    for to in 0..parties {
        let word = tape[usize::from(to)];
        words.push(unless_own(me, Party(to), word))?;
    }
    Ok(words)
}

/// The word for the party `to`, and 0 where this is `me`.
fn unless_own(me: Party, to: Party, word: u64) -> u64
    ensures { result ≡ (if nat_eq to.0 me.0 then 0 else word) }
{
    if to == me { 0 } else { word }
}

/// The value less all the words.
fn less(x: u64, words: &[u64]) -> u64
    ensures { result ≡ word_difference x (total words.now) }
{
    let mut rest = x;
    for word in words {
        rest = rest.wrapping_sub(*word);
    }
    rest
}

/// A party's share of the sum of two shared words.
pub fn add(x: u64, y: u64) -> u64
    ensures { result ≡ word_sum x y }
{
    x.wrapping_add(y)
}

/// A party's share of the difference of two shared words.
pub fn sub(x: u64, y: u64) -> u64
    ensures { result ≡ word_difference x y }
{
    x.wrapping_sub(y)
}

/// A party's share of a shared word times a public constant.
pub fn mul_const(x: u64, c: u64) -> u64
    ensures { result ≡ word_product x c }
{
    x.wrapping_mul(c)
}

/// A party's share of a shared word plus a public constant, which party 0 alone adds.
pub fn add_const(me: Party, x: u64, c: u64) -> u64
    ensures { result ≡ raised_share me.0 x c }
{
    x.wrapping_add(public_part(me, c))
}

/// What a party opens before a multiplication: its shares of the operands, each less its part of the
/// triple (Beaver 1991).
pub fn mul_open(x: u64, y: u64, t: MultTriple) -> (u64, u64)
    ensures left { result.0 ≡ opened_left x t }
    ensures right { result.1 ≡ opened_right y t }
{
    (x.wrapping_sub(t.a), y.wrapping_sub(t.b))
}

/// A party's share of the product, where `d` and `e` are the sums of what all parties opened of the
/// left and of the right operand. Party 0 alone adds `d * e`.
pub fn mul_close(me: Party, t: MultTriple, d: u64, e: u64) -> u64
    ensures { result ≡ closed_share me.0 t d e }
{
    let d_times_b = d.wrapping_mul(t.b);
    let e_times_a = e.wrapping_mul(t.a);
    let d_times_e = public_part(me, d.wrapping_mul(e));
    t.c.wrapping_add(d_times_b)
        .wrapping_add(e_times_a)
        .wrapping_add(d_times_e)
}

/// What a party adds to its share for a public number: party 0 the number, and the others nothing.
fn public_part(me: Party, number: u64) -> u64
    ensures { result ≡ part_of_public me.0 number }
{
    if me == Party(0) { number } else { 0 }
}
