ghost use Rattle.std.specs.Prelude.{◌≡◌, ◌≤◌, ◌+◌, length, map, IfOk, IfErr, IfSome};
ghost use Rattle.mot_base.specs.Limits.{least_parties, most_parties, most_file_bytes};
ghost use Rattle.mixed_circuit.specs.Grammar.{is_title, parties_of, behind_words, behind_content, behind, whole, Reads, IsFirstFault, EachReadsOrFaults};
ghost use Rattle.text_lines.specs.Gives.{Gives, GivesAt};
ghost use Rattle.mixed_circuit.specs.Says.{ReadsWhatIsSaid};
ghost use Rattle.mixed_circuit.specs.Line.{OneOperation};

use crate::builder::Builder;
use crate::cause::{CircuitCause, CircuitError};
use crate::line::with_line;
use crate::raw::number_from_to;
use mixed_language::Mixed;
use mot_base::{MAX_PARTIES, MIN_PARTIES};
use std::alloc::Global;
use text_lines::{LineError, Lines, are_allowed, check, line_words_of};

/// How far a circuit's text was read.
#[derive(Drop)]
pub enum Stage<'a> {
    /// Neither header line stands yet.
    Start,
    /// The first header line stands.
    Titled,
    /// Both stand, and the circuit of the statements so far.
    Body(Builder<'a>),
}

/// Reads a circuit in mixed text.
pub fn read_mixed(alloc: Global, bytes: &[u8]) -> Result<Mixed, CircuitError>
    requires { length bytes.now ≤ most_file_bytes }
    ensures ok { IfOk result (λ c. Reads bytes.now c) }
    ensures at { IfErr result (λ error. IsFirstFault bytes.now error) }
{
    let mut lines = Lines::of(bytes);
    let mut stage = Stage::Start;
    let mut number: u32 = 0;
    while let Some(line) = lines.next_line() {
        stage = behind_next(alloc, bytes, stage, line, &mut number)?;
    }
    circuit_of(stage, number)
}

/// Of every text exactly one is the case: it reads as one circuit, or one line and cause are its first fault.
pub fn each_text_reads_or_faults()
    ensures { EachReadsOrFaults }
{}

/// What is read of a line is what it says.
pub fn reads_what_is_said()
    ensures { ReadsWhatIsSaid }
{}

/// A line that is spelled as an operation wants is a line of that operation, whatever the order of the
/// operations.
pub fn one_operation()
    ensures { OneOperation }
{}

/// The circuit behind the last line, whose number is given.
fn circuit_of(stage: Stage, last: u32) -> Result<Mixed, CircuitError>
    ensures { GivesAt (λ c. c) last result (whole stage.entry) }
{
    match stage {
        Stage::Body(builder) => Ok(builder.finish()),
        Stage::Start | Stage::Titled => Err(CircuitError::At {
            line: last,
            cause: CircuitCause::Header,
        }),
    }
}

/// The stage behind the next line of a text, whose number is one more than that of the line before.
fn behind_next<'a>(
    alloc: Global,
    text: &'a [u8],
    stage: Stage<'a>,
    line: &'a [u8],
    number: &mut u32,
) -> Result<Stage<'a>, CircuitError>
    requires { number.old ≤ most_file_bytes }
    ensures counted { number.new ≡ number.old + 1 }
    ensures read { GivesAt (λ s. s) (number.old + 1) result (behind stage.entry line.entry.now) }
{
    *number += 1;
    match behind_line(alloc, text, stage, line) {
        Ok(next) => Ok(next),
        Err(error) => Err(error.at(*number)),
    }
}

/// The stage behind a line of a text.
#[tactic(auto, unfolding(crate::specs::Grammar::behind))]
fn behind_line<'a>(
    alloc: Global,
    text: &'a [u8],
    stage: Stage<'a>,
    line: &'a [u8],
) -> Result<Stage<'a>, LineError<CircuitCause>>
    ensures { Gives (λ s. s) result (behind stage.entry line.entry.now) }
{
    check(are_allowed(line), CircuitCause::NotText)?;
    let words = line_words_of(alloc, line)?;
    behind_words_of(alloc, text, stage, &words)
}

/// The stage behind the words of a line of a text, if there are any.
fn behind_words_of<'a>(
    alloc: Global,
    text: &'a [u8],
    stage: Stage<'a>,
    words: &[&'a [u8]],
) -> Result<Stage<'a>, LineError<CircuitCause>>
    ensures { Gives (λ s. s) result (behind_content stage.entry (map (λ word. word.now) words.entry.now)) }
{
    if words.is_empty() {
        Ok(stage)
    } else {
        behind_some_words(alloc, text, stage, words)
    }
}

/// The stage behind the words of a line of a text, of which there are some.
#[tactic(auto, unfolding(crate::specs::Grammar::behind_words))]
fn behind_some_words<'a>(
    alloc: Global,
    text: &'a [u8],
    stage: Stage<'a>,
    words: &[&'a [u8]],
) -> Result<Stage<'a>, LineError<CircuitCause>>
    ensures { Gives (λ s. s) result (behind_words stage.entry (map (λ word. word.now) words.entry.now)) }
{
    match stage {
        Stage::Start => {
            check(is_title_line(words), CircuitCause::Header)?;
            Ok(Stage::Titled)
        }
        Stage::Titled => {
            let parties = parties_stated(words).ok_or(CircuitCause::Header)?;
            Ok(Stage::Body(Builder::new(alloc, text, parties)))
        }
        Stage::Body(builder) => {
            let next = with_line(alloc, builder, words)?;
            Ok(Stage::Body(next))
        }
    }
}

/// Whether the words are `mixed 1`.
fn is_title_line(words: &[&[u8]]) -> bool
    ensures { result ≡ is_title (map (λ word. word.now) words.now) }
{
    match words {
        [b"mixed", b"1"] => true,
        _ => false,
    }
}

/// The number of parties, where the words are `parties` and such a number.
fn parties_stated(words: &[&[u8]]) -> Option<u8>
    ensures value { result ≡ parties_of (map (λ word. word.now) words.now) }
    ensures some { IfSome result (λ parties. least_parties ≤ parties) }
    ensures most { IfSome result (λ parties. parties ≤ most_parties) }
{
    match words {
        [first, second] => {
            if *first == b"parties".as_slice() {
                number_from_to(MIN_PARTIES, MAX_PARTIES, second)
            } else {
                None
            }
        }
        _ => None,
    }
}
