ghost use Rattle.std.specs.Prelude.{◌≡◌, ◌≤◌, ◌||◌, IfSome, IsSome, true};
ghost use Rattle.std.specs.Str.{IsAscii};
ghost use Rattle.std.specs.Char.{is_digit};
ghost use Rattle.std.specs.List.{list_all};
ghost use Rattle.text_lines.specs.Word.{are_digits, number_in, begins_hexadecimal, number_of};
ghost use Rattle.mot_base.specs.Names.{is_letter, is_name};

use mot_base::MAX_NAME_LENGTH;

/// Whether a word is a name.
pub fn is_name_word(word: &[u8]) -> bool
    ensures { result ≡ is_name word.now }
{
    match word {
        [] => false,
        [first, more @ ..] => is_letter_byte(*first)
            && are_name_bytes(more)
            && more.len() < MAX_NAME_LENGTH,
    }
}

fn are_name_bytes(bytes: &[u8]) -> bool
    ensures { result ≡ list_all (λ b. is_letter b || is_digit b 10) bytes.now }
{
    bytes
        .iter()
        .all(|byte| is_letter_byte(*byte) || byte.is_ascii_digit())
}

/// Whether a byte is a letter of ASCII or `_`.
fn is_letter_byte(byte: u8) -> bool
    ensures { result ≡ is_letter byte }
{
    matches!(byte, b'A'..=b'Z' | b'a'..=b'z' | b'_')
}

/// The number that a word spells: decimal digits, or `0x` and hexadecimal digits of either case. None
/// where it spells no number or one from 2^64 on.
pub fn number(word: &[u8]) -> Option<u64>
    ensures { result ≡ number_of word.now }
{
    match word {
        [b'0', b'x', digits @ ..] => number_in_base(digits, 16),
        _ => number_in_base(word, 10),
    }
}

fn number_in_base(digits: &[u8], base: u32) -> Option<u64>
    requires low { 2 ≤ base }
    requires high { base ≤ 36 }
    ensures { result ≡ number_in base digits.now }
{
    if !is_numeral(digits, base) {
        return None;
    }
    let text = text_of(digits)?;
    u64::from_str_radix(text, base).ok()
}

/// Whether a word is one digit or more in a base.
pub fn is_numeral(word: &[u8], base: u32) -> bool
    requires low { 2 ≤ base }
    requires high { base ≤ 36 }
    ensures { result ≡ are_digits base word.now }
{
    !word.is_empty() && are_all_digits(word, base)
}

fn are_all_digits(bytes: &[u8], base: u32) -> bool
    requires low { 2 ≤ base }
    requires high { base ≤ 36 }
    ensures { result ≡ list_all (λ b. is_digit b base) bytes.now }
{
    bytes.iter().all(|byte| char::from(*byte).is_digit(base))
}

/// A word as text, where its bytes are ASCII.
pub fn text_of(word: &[u8]) -> Option<&str>
    ensures value { IfSome result (λ text. text.now ≡ word.now) }
    ensures found { IsAscii word.now → IsSome result }
{
    std::str::from_utf8(word).ok()
}

/// A name as text.
pub fn name_text(name: &[u8]) -> &str
    requires { is_name name.now ≡ true }
    ensures { result.now ≡ name.entry.now }
{
    let Some(text) = text_of(name) else {
        unreachable!()
    };
    text
}
