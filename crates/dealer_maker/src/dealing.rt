ghost use Rattle.std.specs.Prelude.{◌≡◌, ◌≤◌, ◌<◌, ◌+◌, ◌*◌, IfOk};
ghost use Rattle.mot_base.specs.Limits.{least_parties, most_parties};
ghost use Rattle.mot_base.specs.Tape.{long_word_of_tape};
ghost use Rattle.dealer_files.specs.Honest.{HonestTogether};
ghost use Rattle.dealer_maker.specs.Draws.{mult_words, shared_words, key_words, mult_begin, bit_begin, shared_begin, key_begin, draws_end, mult_drawn, bit_drawn, shared_drawn, key_drawn, rows, part_drawn, parts_drawn};

use crate::draws::Draws;
use crate::rows::Seat;
use dealer_files::DealerPart;
use mot_base::{NoMemory, Party, Seed};
use share_types::{Key, KeyBit, MultTriple, Needs, SharedBit};
use std::alloc::Global;

/// The parts of all parties, in their order, with so many records of each kind: what the words of the seed's tape
/// make, drawn one after another.
pub fn deal(
    alloc: Global,
    parties: u8,
    seed: &Seed,
    counts: &Needs,
) -> Result<Vec<DealerPart>, NoMemory>
    requires some { least_parties ≤ parties }
    requires most { parties ≤ most_parties }
    ensures drawn { IfOk result (λ parts. parts.items ≡ parts_drawn seed.now.0 parties counts.now) }
    ensures honest { IfOk result (λ parts.
        HonestTogether parts.items parties (long_word_of_tape seed.now.0 0) counts.now) }
{
    let draws = Draws::new(alloc, seed, draw_count(parties, counts))?;
    let mut parts = Vec::with_capacity(alloc, usize::from(parties))?;
    for party in 0..parties {
        let seat = Seat { parties, party };
        parts.push(part(alloc, &seat, &draws, counts)?)?;
    }
    Ok(parts)
}

/// How many words are drawn.
fn draw_count(parties: u8, counts: &Needs) -> u64
    requires some { least_parties ≤ parties }
    requires most { parties ≤ most_parties }
    ensures { result ≡ draws_end parties counts.now }
{
    let n = u64::from(parties);
    2 + 4 * n
        + (4 * n + 2 * (n - 1)) * u64::from(counts.mult)
        + n * u64::from(counts.bit)
        + (n + 2 * (n - 1)) * u64::from(counts.shared)
        + (n + 4 * (n - 1) * n) * u64::from(counts.key)
}

/// One party's part.
#[tactic(auto, unfolding(crate::specs::Draws::part_drawn))]
fn part(alloc: Global, seat: &Seat, draws: &Draws, counts: &Needs) -> Result<DealerPart, NoMemory>
    requires { draws.now.count ≡ draws_end seat.now.parties counts.now }
    ensures { IfOk result (λ part. part ≡ part_drawn draws.now.seed seat.now.parties counts.now seat.now.party) }
{
    let _count = draws.count();
    let n = usize::from(seat.parties);
    let mults = 2 + 4 * n;
    let bits = mults + (4 * n + 2 * (n - 1)) * counts.mult as usize;
    let shareds = bits + n * counts.bit as usize;
    let keys = shareds + (n + 2 * (n - 1)) * counts.shared as usize;
    let mult = draw_mults(alloc, seat, draws, mults, counts.mult)?;
    let bit = draw_bits(alloc, seat, draws, bits, counts.bit)?;
    let shared = draw_shareds(alloc, seat, draws, shareds, counts.shared)?;
    let key = draw_keys(alloc, seat, draws, keys, counts.key)?;
    Ok(DealerPart::new(
        seat.parties,
        Party(seat.party),
        draws.long_word(0),
        Key(draws.offset(seat.party)),
        mult,
        bit,
        shared,
        key,
    ))
}

/// So many records of one kind, from a place on.
fn draw_mults(
    alloc: Global,
    seat: &Seat,
    draws: &Draws,
    from: usize,
    count: u32,
) -> Result<Vec<MultTriple>, NoMemory>
    requires inside { from + mult_words seat.now.parties * count ≤ draws.now.count }
    ensures { IfOk result (λ list. list.items ≡ rows (mult_drawn draws.now.seed seat.now.parties seat.now.party) from (mult_words seat.now.parties) count) }
{
    let _count = draws.count();
    let n = usize::from(seat.parties);
    let size = 4 * n + 2 * (n - 1);
    let mut place = from;
    let mut list = Vec::with_capacity(alloc, count as usize)?;
    for _at in 0..count {
        list.push(seat.mult(draws, place))?;
        place += size;
    }
    Ok(list)
}

/// So many records of one kind, from a place on.
fn draw_bits(
    alloc: Global,
    seat: &Seat,
    draws: &Draws,
    from: usize,
    count: u32,
) -> Result<Vec<u8>, NoMemory>
    requires inside { from + seat.now.parties * count ≤ draws.now.count }
    ensures { IfOk result (λ list. list.items ≡ rows (bit_drawn draws.now.seed seat.now.parties seat.now.party) from (seat.now.parties) count) }
{
    let _count = draws.count();
    let n = usize::from(seat.parties);
    let size = n;
    let mut place = from;
    let mut list = Vec::with_capacity(alloc, count as usize)?;
    for _at in 0..count {
        list.push(seat.bit(draws, place))?;
        place += size;
    }
    Ok(list)
}

/// So many records of one kind, from a place on.
fn draw_shareds(
    alloc: Global,
    seat: &Seat,
    draws: &Draws,
    from: usize,
    count: u32,
) -> Result<Vec<SharedBit>, NoMemory>
    requires inside { from + shared_words seat.now.parties * count ≤ draws.now.count }
    ensures { IfOk result (λ list. list.items ≡ rows (shared_drawn draws.now.seed seat.now.parties seat.now.party) from (shared_words seat.now.parties) count) }
{
    let _count = draws.count();
    let n = usize::from(seat.parties);
    let size = n + 2 * (n - 1);
    let mut place = from;
    let mut list = Vec::with_capacity(alloc, count as usize)?;
    for _at in 0..count {
        list.push(seat.shared(draws, place))?;
        place += size;
    }
    Ok(list)
}

/// So many records of one kind, from a place on.
fn draw_keys(
    alloc: Global,
    seat: &Seat,
    draws: &Draws,
    from: usize,
    count: u32,
) -> Result<Vec<KeyBit>, NoMemory>
    requires inside { from + key_words seat.now.parties * count ≤ draws.now.count }
    requires offsets { 2 + 4 * seat.now.parties ≤ draws.now.count }
    ensures { IfOk result (λ list. list.items ≡ rows (key_drawn draws.now.seed seat.now.parties seat.now.party) from (key_words seat.now.parties) count) }
{
    let _count = draws.count();
    let n = usize::from(seat.parties);
    let size = n + 4 * (n - 1) * n;
    let mut place = from;
    let mut list = Vec::with_capacity(alloc, count as usize)?;
    for _at in 0..count {
        list.push(seat.key(alloc, draws, place)?)?;
        place += size;
    }
    Ok(list)
}
