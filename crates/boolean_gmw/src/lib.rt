//! Boolean GMW: what a party makes of its shares of vectors of bits, where the shares of all parties XOR to
//! the vector.
#![tactic(auto)]

ghost use Rattle.std.specs.Prelude.{◌≡◌, ◌<◌, ◌≤◌, ◌%◌, ◌^◌, IfOk, map, nat_eq, if◌then◌else◌, bit_xor};
ghost use Rattle.mot_base.specs.Limits.{most_parties, most_width, most_gates, session_count};
ghost use Rattle.mot_base.specs.Tape.{shares_of_tape};
ghost use Rattle.share_types.specs.Sums.{RecombinesByXor, each, xor_to};
ghost use Rattle.boolean_gmw.specs.Shares.{triple_of, flipped_share, opened_left, opened_right, closed_share};
ghost use Rattle.boolean_gmw.specs.Sharing.{low_word, given_word, own_word, share_given};

use mot_base::{MAX_PARTIES, MAX_WIDTH, NoMemory, Party, Seed, tape_shares};
use share_types::{BitTriple, Bits};
use std::alloc::Global;

mod laws;

pub use laws::{
    and_recombines, flipped_recombines, join_recombines, slice_recombines, xor_recombines,
};

/// The shares of `x` that party `me` gives out at a gate of a session, one for each party in order: another's
/// is the low bits of its share word on the seed's tape, and the own one is what they leave of the value.
pub fn share_out(
    alloc: Global,
    x: Bits,
    seed: &Seed,
    session: u32,
    gate: u32,
    me: Party,
    parties: u8,
) -> Result<Vec<Bits>, NoMemory>
    requires session { session < session_count }
    requires gate { gate < most_gates }
    requires parties { parties ≤ most_parties }
    requires me { me.0 < parties }
    ensures words { IfOk result (λ shares. map (λ share. share.word) shares.items
        ≡ each parties (share_given x (shares_of_tape seed.now.0 session gate) me.0 parties)) }
    ensures widths { IfOk result (λ shares. map (λ share. share.width) shares.items ≡ each parties (λ to. x.width)) }
    ensures recombines { IfOk result (λ shares. RecombinesByXor (map (λ share. share.word) shares.items) x.word) }
{
    let tape = tape_shares(seed, session, gate);
    let own = own_share(x, &tape, me, parties);
    let mut shares = Vec::with_capacity(alloc, usize::from(parties))?;
    for to in 0..parties {
        shares.push(share_for(own, &tape, me, Party(to)))?;
    }
    Ok(shares)
}

/// What the shares of the other parties leave of the value.
fn own_share(x: Bits, tape: &[u64; MAX_PARTIES as usize], me: Party, parties: u8) -> Bits
    requires { parties ≤ most_parties }
    ensures word { result.word ≡ own_word x tape.now me.0 parties }
    ensures width { result.width ≡ x.width }
{
    let mut own = x;
    for to in 0..parties {
        own = less(own, tape, me, Party(to));
    }
    own
}

/// What the share of one more party leaves, which is all where that party is `me`.
fn less(left: Bits, tape: &[u64; MAX_PARTIES as usize], me: Party, to: Party) -> Bits
    requires { to.0 < most_parties }
    ensures word { result.word ≡ bit_xor left.word (given_word left.width tape.now me.0 to.0) }
    ensures width { result.width ≡ left.width }
{
    if to == me {
        left
    } else {
        left.xor(low(tape[usize::from(to.0)], left.width))
    }
}

/// The share for a party: the own one for `me`, else the low bits of the party's share word.
fn share_for(own: Bits, tape: &[u64; MAX_PARTIES as usize], me: Party, to: Party) -> Bits
    requires { to.0 < most_parties }
    ensures word { result.word ≡ (if nat_eq to.0 me.0 then own.word else low_word own.width tape.now to.0) }
    ensures width { result.width ≡ own.width }
{
    if to == me {
        own
    } else {
        low(tape[usize::from(to.0)], own.width)
    }
}

/// The low bits of a word.
fn low(word: u64, width: u8) -> Bits
    requires some { 1 ≤ width }
    requires most { width ≤ most_width }
    ensures word { result.word ≡ word % 2 ^ width }
    ensures width { result.width ≡ width }
{
    Bits {
        word,
        width: MAX_WIDTH,
    }
    .slice(0, width)
}

/// A party's share of the XOR of two shared vectors of one width.
pub fn xor(x: Bits, y: Bits) -> Bits
    requires { y.width ≡ x.width }
    ensures word { result.word ≡ bit_xor x.word y.word }
    ensures width { result.width ≡ x.width }
{
    x.xor(y)
}

/// A party's share of the XOR of a shared vector and a public one of its width, which party 0 alone adds.
pub fn xor_const(me: Party, x: Bits, c: Bits) -> Bits
    requires { c.width ≡ x.width }
    ensures word { result.word ≡ flipped_share me.0 x.word c.word }
    ensures width { result.width ≡ x.width }
{
    if me == Party(0) { x.xor(c) } else { x }
}

/// What a party opens before an AND: its shares of the operands, each XOR its part of the triples (Beaver
/// 1991). All have one width.
pub fn and_open(x: Bits, y: Bits, t: BitTriple) -> (Bits, Bits)
    requires left { t.a.width ≡ x.width }
    requires right { y.width ≡ x.width }
    ensures left { result.0.word ≡ opened_left x.word (triple_of t) }
    ensures right { result.1.word ≡ opened_right y.word (triple_of t) }
    ensures left_width { result.0.width ≡ x.width }
    ensures right_width { result.1.width ≡ x.width }
{
    (x.xor(t.a), y.xor(t.b))
}

/// A party's share of the AND, where `d` and `e` are the XOR of what all parties opened of the left and of
/// the right operand. Party 0 alone adds the AND of `d` and `e`. All have one width.
pub fn and_close(me: Party, t: BitTriple, d: Bits, e: Bits) -> Bits
    requires d { d.width ≡ t.a.width }
    requires e { e.width ≡ t.a.width }
    ensures word { result.word ≡ closed_share me.0 (triple_of t) d.word e.word }
    ensures width { result.width ≡ t.a.width }
{
    let share = t.c.xor(d.and(t.b)).xor(e.and(t.a));
    xor_const(me, share, d.and(e))
}
