ghost use Rattle.std.specs.Prelude.{◌≡◌, ◌<◌, ◌≤◌, ◌^◌, ◌++◌, true, nat_lt, is_some, length, drop, OnOk, IfOk, IfSome, IfNone};
ghost use Rattle.std.specs.List.{list_any};
ghost use Rattle.std.specs.Char.{is_digit, digit_value};
ghost use Rattle.std.specs.Str.Parse.{digits_value};
ghost use Rattle.share_types.specs.Bits as vector;
ghost use Rattle.text_lines.specs.Word.{are_digits};

use circuit_tables::push_bits;
use std::alloc::{AllocError, Global};

/// The bits of the number that hexadecimal digits spell, four for each digit.
pub fn hexadecimal_bits(alloc: Global, digits: &[u8]) -> Result<Vec<bool>, AllocError>
    requires { are_digits 16 digits.now ≡ true }
    ensures value { IfOk result (λ found. vector.number found.items ≡ digits_value 16 digits.now) }
{
    let mut out = Vec::new(alloc);
    let count = digits.len();
    for i in 0..count {
        let digit = hexadecimal_digit(digits[count - 1 - i]);
        push_bits(&mut out, digit, 4)?;
    }
    Ok(out)
}

/// The value of a hexadecimal digit of either case.
fn hexadecimal_digit(byte: u8) -> u64
    requires { is_digit byte 16 ≡ true }
    ensures value { result ≡ digit_value byte }
    ensures below { result < 16 }
{
    match byte {
        b'0'..=b'9' => u64::from(byte - b'0'),
        b'a'..=b'f' => u64::from(byte - b'a') + 10,
        b'A'..=b'F' => u64::from(byte - b'A') + 10,
        _ => unreachable!(),
    }
}

/// Bits without those at or above a width, which are then zero, or with zeros up to it; none where one of
/// them is not.
pub fn fit_bits(bits: Vec<bool>, width: u32) -> Result<Option<Vec<bool>>, AllocError>
    ensures none { IfOk result (λ found. is_some found ≡ nat_lt (vector.number bits.items) (2 ^ width)) }
    ensures value { IfOk result (λ found. IfSome found (λ fitted. fitted.items
        ≡ vector.bits width (vector.number bits.items))) }
{
    let Some(bits) = cut_bits(bits, width as usize) else {
        return Ok(None);
    };
    let bits = pad_bits(bits, width as usize)?;
    Ok(Some(bits))
}

/// Bits without those at or above a width; none where one of them is not zero.
fn cut_bits(mut bits: Vec<bool>, width: usize) -> Option<Vec<bool>>
    ensures some { IfSome result (λ cut. vector.number cut.items ≡ vector.number bits.items) }
    ensures short { IfSome result (λ cut. length cut.items ≤ width) }
    ensures none { IfNone result (2 ^ width ≤ vector.number bits.items) }
{
    if has_one_from(&bits, width) {
        return None;
    }
    bits.truncate(width);
    Some(bits)
}

/// Whether one of some bits from a place on is not zero.
fn has_one_from(bits: &[bool], at: usize) -> bool
    ensures { result ≡ list_any (λ bit. bit) (drop at bits.now) }
{
    bits.iter().skip(at).any(|bit| *bit)
}

/// Bits with zeros up to a width.
fn pad_bits(mut bits: Vec<bool>, width: usize) -> Result<Vec<bool>, AllocError>
    requires { length bits.items ≤ width }
    ensures { IfOk result (λ padded. padded.items ≡ vector.bits width (vector.number bits.items)) }
{
    while bits.len() < width {
        bits.push(false)?;
    }
    Ok(bits)
}
