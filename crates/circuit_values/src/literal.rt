ghost use Rattle.std.specs.Prelude.{◌≡◌, true, false, is_some, IfOk, IfSome};
ghost use Rattle.share_types.specs.Bits as vector;
ghost use Rattle.text_lines.specs.Word.{are_digits, begins_hexadecimal};
ghost use Rattle.circuit_values.specs.Values.{is_literal, literal_number, literal_fits};

use crate::bits::{fit_bits, hexadecimal_bits};
use circuit_tables::push_bits;
use mot_base::MAX_WIDTH;
use std::alloc::{AllocError, Global};
use text_lines::{is_numeral, number};

/// Whether a word is one decimal digit or more, or `0x` and one hexadecimal digit or more.
pub fn is_literal_word(word: &[u8]) -> bool
    ensures { result ≡ is_literal word.now }
{
    match word {
        [b'0', b'x', digits @ ..] => is_numeral(digits, 16),
        _ => is_numeral(word, 10),
    }
}

/// The bits of a literal, as many as a width; none where its number has a bit at or above that, or is
/// decimal and from 2^64 on.
pub fn literal_bits(
    alloc: Global,
    literal: &[u8],
    width: u32,
) -> Result<Option<Vec<bool>>, AllocError>
    requires { is_literal literal.now ≡ true }
    ensures fits { IfOk result (λ found. is_some found ≡ literal_fits literal.now width) }
    ensures value { IfOk result (λ found. IfSome found (λ bits. bits.items
        ≡ vector.bits width (literal_number literal.now))) }
{
    match literal {
        [b'0', b'x', digits @ ..] => {
            let bits = hexadecimal_bits(alloc, digits)?;
            fit_bits(bits, width)
        }
        _ => decimal_bits(alloc, literal, width),
    }
}

fn decimal_bits(alloc: Global, literal: &[u8], width: u32) -> Result<Option<Vec<bool>>, AllocError>
    requires digits { are_digits 10 literal.now ≡ true }
    requires decimal { begins_hexadecimal literal.now ≡ false }
    ensures fits { IfOk result (λ found. is_some found ≡ literal_fits literal.now width) }
    ensures value { IfOk result (λ found. IfSome found (λ bits. bits.items
        ≡ vector.bits width (literal_number literal.now))) }
{
    let Some(word) = number(literal) else {
        return Ok(None);
    };
    let mut bits = Vec::new(alloc);
    push_bits(&mut bits, word, MAX_WIDTH)?;
    fit_bits(bits, width)
}
