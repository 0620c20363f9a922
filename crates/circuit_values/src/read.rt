ghost use Rattle.std.specs.Prelude.{◌≡◌, ◌<◌, ◌≤◌, ◌&&◌, true, length, slice_get, map, is_none, option_map, IfOk, IfErr, IfSome};
ghost use Rattle.mot_base.specs.Limits.{most_file_bytes};
ghost use Rattle.text_lines.specs.Chain.{or_cause, unless};
ghost use Rattle.circuit_values.specs.declared.cause.ValuesCause.TheVariants.{Missing};
ghost use Rattle.circuit_tables.specs.Table.{AreNamedApart};
ghost use Rattle.circuit_values.specs.Values.{is_free, is_literal, assignment_of, behind_words, behind, values_of, ReadsValues, IsFirstFault, EachReadsOrFaults};
ghost use Rattle.circuit_tables.specs.Values.{is_owned, HaveWidths};
ghost use Rattle.text_lines.specs.Gives.{Gives, GivesAt};

use crate::asked::Asked;
use crate::cause::{ValuesCause, ValuesError};
use crate::given::Given;
use crate::literal::{is_literal_word, literal_bits};
use circuit_tables::{InputTable, Values};
use mot_base::Party;
use std::alloc::Global;
use text_lines::{LineError, Lines, are_allowed, check, line_words_of};

/// Reads a values text for the inputs of a table: for those of an owner, or for all where there is none.
pub fn read_values(
    alloc: Global,
    bytes: &[u8],
    inputs: &InputTable,
    owner: Option<Party>,
) -> Result<Values, ValuesError>
    requires size { length bytes.now ≤ most_file_bytes }
    requires apart { AreNamedApart inputs.now }
    ensures ok { IfOk result (λ v. ReadsValues inputs.now owner bytes.now v) }
    ensures widths { IfOk result (λ v. HaveWidths owner inputs.now v) }
    ensures at { IfErr result (λ error. IsFirstFault inputs.now owner bytes.now error) }
{
    read_for(alloc, bytes, inputs, owner)
}

fn read_for(
    alloc: Global,
    bytes: &[u8],
    inputs: &InputTable,
    owner: Option<Party>,
) -> Result<Values, ValuesError>
    requires size { length bytes.now ≤ most_file_bytes }
    requires apart { AreNamedApart inputs.now }
    ensures ok { IfOk result (λ v. ReadsValues inputs.now owner bytes.now v) }
    ensures at { IfErr result (λ error. IsFirstFault inputs.now owner bytes.now error) }
{
    let asked = Asked::of(alloc, inputs, owner)?;
    read_asked(alloc, bytes, &asked)
}

/// Reads a values text for the inputs that are asked for.
fn read_asked(alloc: Global, bytes: &[u8], asked: &Asked) -> Result<Values, ValuesError>
    requires { length bytes.now ≤ most_file_bytes }
    ensures ok { IfOk result (λ v. ReadsValues asked.now.inputs asked.now.owner bytes.now v) }
    ensures at { IfErr result (λ error. IsFirstFault asked.now.inputs asked.now.owner bytes.now error) }
{
    let mut lines = Lines::of(bytes);
    let mut given = Given::none(alloc, asked.len())?;
    let mut number: u32 = 0;
    while let Some(line) = lines.next_line() {
        number += 1;
        given = behind_numbered(alloc, asked, given, line, number)?;
    }
    values_behind(alloc, asked, given, number)
}

/// Of every text exactly one is the case: it reads as one list of values, or one line and cause are its
/// first fault.
pub fn each_text_reads_or_faults()
    ensures { EachReadsOrFaults }
{}

/// The values behind the last line, whose number is given.
fn values_behind(
    alloc: Global,
    asked: &Asked,
    given: Given,
    last: u32,
) -> Result<Values, ValuesError>
    requires { length given ≡ length asked.now.inputs }
    ensures { GivesAt (λ v. v) last result (or_cause Missing (values_of asked.now.owner asked.now.inputs
        given)) }
{
    if is_one_missing(asked, &given) {
        return Err(ValuesError::At {
            line: last,
            cause: ValuesCause::Missing,
        });
    }
    let values = given.all(alloc)?;
    Ok(Values::of(values))
}

/// Whether an input that is asked for has no bits.
fn is_one_missing(asked: &Asked, given: &Given) -> bool
    requires { length given.now ≡ length asked.now.inputs }
    ensures { result ≡ is_none (values_of asked.now.owner asked.now.inputs given.now) }
{
    for at in 0..asked.len() {
        if is_missing_at(asked, given, at) {
            return true;
        }
    }
    false
}

/// Whether an input is asked for and has no bits.
fn is_missing_at(asked: &Asked, given: &Given, at: u32) -> bool
    requires at { at < length asked.now.inputs }
    requires count { length given.now ≡ length asked.now.inputs }
    ensures { IfSome (slice_get asked.now.inputs at) (λ x.
        result ≡ (is_free given.now at && is_owned asked.now.owner x.party)) }
{
    given.is_free(at) && asked.is_asked(at)
}

/// The bits that inputs have behind a line, whose number is given.
fn behind_numbered(
    alloc: Global,
    asked: &Asked,
    given: Given,
    line: &[u8],
    number: u32,
) -> Result<Given, ValuesError>
    requires { length given ≡ length asked.now.inputs }
    ensures value { GivesAt (λ g. g) number result (behind asked.now.inputs asked.now.owner given line.now) }
    ensures count { IfOk result (λ g. length g ≡ length asked.now.inputs) }
{
    match behind_line(alloc, asked, given, line) {
        Ok(next) => Ok(next),
        Err(error) => Err(error.at(number)),
    }
}

/// The bits that inputs have behind a line.
#[tactic(auto, unfolding(crate::specs::Values::behind))]
fn behind_line(
    alloc: Global,
    asked: &Asked,
    given: Given,
    line: &[u8],
) -> Result<Given, LineError<ValuesCause>>
    requires { length given ≡ length asked.now.inputs }
    ensures value { Gives (λ g. g) result (behind asked.now.inputs asked.now.owner given line.now) }
    ensures count { IfOk result (λ g. length g ≡ length asked.now.inputs) }
{
    check(are_allowed(line), ValuesCause::Word)?;
    let words = line_words_of(alloc, line)?;
    if words.is_empty() {
        Ok(given)
    } else {
        behind_some_words(alloc, asked, given, &words)
    }
}

/// The bits that inputs have behind what some words assign.
#[tactic(auto, unfolding(crate::specs::Values::behind_words))]
fn behind_some_words(
    alloc: Global,
    asked: &Asked,
    given: Given,
    words: &[&[u8]],
) -> Result<Given, LineError<ValuesCause>>
    requires { length given ≡ length asked.now.inputs }
    ensures value { Gives (λ g. g) result (behind_words asked.now.inputs asked.now.owner given (map (λ
        word. word.now) words.now)) }
    ensures count { IfOk result (λ g. length g ≡ length asked.now.inputs) }
{
    let (name, literal) = assigned(words).ok_or(ValuesCause::Word)?;
    let at = asked.place(name).ok_or(ValuesCause::NameUnknown)?;
    check(given.is_free(at), ValuesCause::Twice)?;
    let bits = literal_bits(alloc, literal, asked.width(at))?.ok_or(ValuesCause::TooWide)?;
    Ok(given.with(at, bits))
}

/// What words assign, where they are a name, `=` and a literal: the name and the literal.
fn assigned<'a>(words: &[&'a [u8]]) -> Option<(&'a [u8], &'a [u8])>
    ensures value { option_map (λ a.
        record { name = a.0.now; literal = a.1.now }) result
        ≡ assignment_of (map (λ word. word.now) words.entry.now) }
    ensures literal { IfSome result (λ a. is_literal a.1.now ≡ true) }
{
    match words {
        [name, sign, literal] => {
            if *sign == b"=".as_slice() && is_literal_word(literal) {
                Some((*name, *literal))
            } else {
                None
            }
        }
        _ => None,
    }
}
