use mot_base::{Seed, TapeReader};

/// Reads that many words of a tape, and gives their sum modulo 2^64.
pub(crate) fn read_words(count: u32) -> u64 {
    let mut tape = TapeReader::new(&Seed([0; 32]), 0);
    let mut sum = 0u64;
    for _at in 0..count {
        sum = sum.wrapping_add(u64::from(tape.word()));
    }
    sum
}
