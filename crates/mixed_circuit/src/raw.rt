ghost use Rattle.std.specs.Prelude.{◌≡◌, ◌≤◌, ◌^◌, nat_lt, map, IfSome};
ghost use Rattle.text_lines.specs.Word.{number_of};
ghost use Rattle.mixed_circuit.specs.declared.cause.CircuitCause.TheVariants.{BadNumber};
ghost use Rattle.mixed_language.specs.declared.language.Slot.TheVariants.{Operand};
ghost use Rattle.text_lines.specs.Gives.{Gives};
ghost use Rattle.mixed_circuit.specs.Line.{letter_of, is_letter_of, is_spelled, each_spelled, are_spelled, operation_of, no_parts, number_within, with_word, with_words, parts_of};
ghost use Rattle.text_lines.specs.Chain.{or_cause, unless};
ghost use Rattle.mixed_circuit.specs.Stated.{stated};

use crate::cause::CircuitCause;
use mixed_language::{Operation, Slot};
use mot_base::MAX_WIDTH;
use share_types::Sharing;
use std::alloc::Global;
use text_lines::{LineError, check, is_name_word, number};

/// What the words of a line state: names, a letter, and numbers.
#[derive(Drop)]
pub struct Raw<'a> {
    pub operation: Operation,
    pub name: Option<&'a [u8]>,
    pub letter: Option<Sharing>,
    pub operands: Vec<&'a [u8]>,
    pub party: Option<u64>,
    pub width: u8,
    pub place: u8,
    pub constant: u64,
}

/// What the words of a line state.
#[tactic(auto, unfolding(crate::specs::Line::parts_of))]
pub fn raw_of<'a>(alloc: Global, words: &[&'a [u8]]) -> Result<Raw<'a>, LineError<CircuitCause>>
    ensures { Gives stated result (parts_of (map (λ word. word.now) words.entry.now)) }
{
    let operation = operation_said(words).ok_or(CircuitCause::Word)?;
    let raw = with_all(no_raw(alloc, operation), operation.slots(), words)?;
    check(
        is_below_power(raw.constant, raw.width),
        CircuitCause::BadNumber,
    )?;
    Ok(raw)
}

/// A line that states nothing.
fn no_raw<'a>(alloc: Global, operation: Operation) -> Raw<'a>
    ensures { stated result ≡ no_parts operation }
{
    Raw {
        operation,
        name: None,
        letter: None,
        operands: Vec::new(alloc),
        party: None,
        width: MAX_WIDTH,
        place: 0,
        constant: 0,
    }
}

/// Whether a number is below a power of 2.
fn is_below_power(number: u64, exponent: u8) -> bool
    ensures { result ≡ nat_lt number (2 ^ exponent) }
{
    exponent >= MAX_WIDTH || number >> exponent == 0
}

/// The operation that a line says.
#[tactic(auto, unfolding(crate::specs::Line::operation_of))]
fn operation_said(words: &[&[u8]]) -> Option<Operation>
    ensures { result ≡ operation_of (map (λ word. word.now) words.now) }
{
    Operation::all()
        .iter()
        .copied()
        .find(|operation| is_line_of(*operation, words))
}

/// Whether words are as many as the slots of an operation, and each is spelled as its slot wants.
fn is_line_of(operation: Operation, words: &[&[u8]]) -> bool
    ensures { result ≡ are_spelled operation (map (λ word. word.now) words.now) }
{
    let slots = operation.slots();
    slots.len() == words.len() && is_each_spelled(operation, slots, words)
}

fn is_each_spelled(operation: Operation, slots: &[Slot], words: &[&[u8]]) -> bool
    ensures { result ≡ each_spelled operation slots.now (map (λ word. word.now) words.now) }
{
    let [slot, slots @ ..] = slots else {
        return true;
    };
    let [word, words @ ..] = words else {
        return true;
    };
    is_word_of(operation, *slot, word) && is_each_spelled(operation, slots, words)
}

/// Whether a word is spelled as its slot wants. Whether it is a number is no matter of spelling.
fn is_word_of(operation: Operation, slot: Slot, word: &[u8]) -> bool
    ensures { result ≡ is_spelled operation slot word.now }
{
    match slot {
        Slot::Name | Slot::Operand => is_name_word(word),
        Slot::Equals => word == b"=".as_slice(),
        Slot::Keyword => word == operation.word(),
        Slot::Letter => is_letter_word(operation, word),
        Slot::Owner | Slot::Width | Slot::Place | Slot::Constant | Slot::Told => true,
    }
}

/// Whether a word is the letter of a sharing that an operation takes.
fn is_letter_word(operation: Operation, word: &[u8]) -> bool
    ensures { result ≡ is_letter_of operation (letter_of word.now) }
{
    match letter(word) {
        Some(sharing) => operation.domain().has(sharing),
        None => false,
    }
}

/// The sharing of a letter.
fn letter(word: &[u8]) -> Option<Sharing>
    ensures { result ≡ letter_of word.now }
{
    match word {
        b"A" => Some(Sharing::A),
        b"B" => Some(Sharing::B),
        b"Y" => Some(Sharing::Y),
        _ => None,
    }
}

/// What words state in their slots, beside what is stated already.
fn with_all<'a>(
    raw: Raw<'a>,
    slots: &[Slot],
    words: &[&'a [u8]],
) -> Result<Raw<'a>, LineError<CircuitCause>>
    ensures { Gives stated result (or_cause BadNumber (with_words (stated raw.entry) slots.now (map (λ
        word. word.now) words.entry.now))) }
{
    let [slot, slots @ ..] = slots else {
        return Ok(raw);
    };
    let [word, words @ ..] = words else {
        return Ok(raw);
    };
    let raw = with_one(raw, *slot, word)?;
    with_all(raw, slots, words)
}

/// What a word states in its slot, beside what is stated already.
#[tactic(auto, unfolding(crate::specs::Line::with_word))]
fn with_one<'a>(
    raw: Raw<'a>,
    slot: Slot,
    word: &'a [u8],
) -> Result<Raw<'a>, LineError<CircuitCause>>
    ensures { Gives stated result (or_cause BadNumber (with_word (stated raw.entry) slot word.entry.now)) }
{
    match slot {
        Slot::Equals | Slot::Keyword => Ok(raw),
        Slot::Name => Ok(Raw {
            name: Some(word),
            ..raw
        }),
        Slot::Letter => Ok(Raw {
            letter: letter(word),
            ..raw
        }),
        Slot::Operand => with_operand(raw, word),
        Slot::Told if word == b"all".as_slice() => Ok(raw),
        Slot::Owner | Slot::Told => {
            let party = Some(number(word).ok_or(CircuitCause::BadNumber)?);
            Ok(Raw { party, ..raw })
        }
        Slot::Width => {
            let width = number_from_to(1, MAX_WIDTH, word).ok_or(CircuitCause::BadNumber)?;
            Ok(Raw { width, ..raw })
        }
        Slot::Place => {
            let place = number_from_to(0, MAX_WIDTH - 1, word).ok_or(CircuitCause::BadNumber)?;
            Ok(Raw { place, ..raw })
        }
        Slot::Constant => {
            let constant = number(word).ok_or(CircuitCause::BadNumber)?;
            Ok(Raw { constant, ..raw })
        }
    }
}

/// What a word states as the name of an operand, beside what is stated already.
#[tactic(auto, unfolding(crate::specs::Line::with_word))]
fn with_operand<'a>(mut raw: Raw<'a>, word: &'a [u8]) -> Result<Raw<'a>, LineError<CircuitCause>>
    ensures { Gives stated result (or_cause BadNumber (with_word (stated raw.entry) Operand word.entry.now)) }
{
    raw.operands.push(word)?;
    Ok(raw)
}

/// The number that a word spells, where it is one from the least to the most.
pub fn number_from_to(least: u8, most: u8, word: &[u8]) -> Option<u8>
    ensures value { result ≡ number_within least most word.now }
    ensures least { IfSome result (λ n. least ≤ n) }
    ensures most { IfSome result (λ n. n ≤ most) }
{
    let n = number(word)?;
    if u64::from(least) <= n && n <= u64::from(most) {
        Some(n as u8)
    } else {
        None
    }
}
