ghost use Rattle.std.specs.Prelude.{◌≡◌, map, option_map, IfOk};
ghost use Rattle.bristol_reader.specs.Line.{decimal_of, numbers_of};
ghost use Rattle.bristol_reader.specs.Stored.{capped};

use std::alloc::{AllocError, Global};
use text_lines::{is_numeral, number};

/// The number that a word of decimal digits spells, or the greatest of 64 bits in place of a greater one.
fn decimal(word: &[u8]) -> Option<u64>
    ensures { result ≡ option_map capped (decimal_of word.now) }
{
    if is_numeral(word, 10) {
        Some(number(word).unwrap_or(u64::MAX))
    } else {
        None
    }
}

/// The numbers that words spell, if each spells one, with the greatest of 64 bits in place of each greater one.
pub fn numbers(alloc: Global, words: &[&[u8]]) -> Result<Option<Vec<u64>>, AllocError>
    ensures { IfOk result (λ found. option_map (λ ns. ns.items) found
        ≡ option_map (map capped) (numbers_of (map (λ word. word.now) words.now))) }
{
    let mut found = Vec::with_capacity(alloc, words.len())?;
    for word in words {
        let Some(n) = decimal(word) else {
            return Ok(None);
        };
        found.push(n)?;
    }
    Ok(Some(found))
}
