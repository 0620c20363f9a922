//! What the words of a line say, each by its kind.

ghost use Rattle.std.specs.Prelude.{◌≡◌, ◌≤◌, ◌⊎◌, ◌-◌, ◌^◌, Some, None, map, true, option_map, option_and_then, ◌++◌, OnOk, IfSome, IfOk, IfErr, IsErrOf};
ghost use Rattle.std.specs.Option.{option_copied};
ghost use Rattle.mot_base.specs.Limits.{least_parties, most_parties, most_workers};
ghost use Rattle.clap.specs.Words.{found_of, first_value};
ghost use Rattle.cli_words.specs.Table.{row, row_words, meaning_of, number_between, seed_of, sharing_of};
ghost use Rattle.cli_words.specs.Filled.{meaning_in, said_in, chosen, kept, words_found, option_found, AreFound, IsOneWrong};
ghost use Rattle.cli_words.specs.Request.{word_as, option_as, as_name, as_seed, as_sharing, as_parties, as_workers, as_number};

use crate::WordsError;
use crate::table::{Command, Kind, OptionName};
use crate::words::{PartyCount, WireSharing, WorkerCount};
use clap::ArgMatches;
use hex::FromHex;
use mot_base::{MAX_PARTIES, MAX_WORKERS, MIN_PARTIES, NoMemory, Seed};
use share_types::Sharing;
use std::alloc::Global;
use text_lines::is_numeral;

/// What a word says.
#[derive(Clone, Copy, Debug)]
pub(crate) enum Value<'a> {
    Name(&'a str),
    Seed(Seed),
    Sharing(WireSharing),
    Parties(PartyCount),
    Workers(WorkerCount),
    Number(u32),
}

/// An option that is there, and what its value says.
#[derive(Clone, Copy, Debug)]
pub(crate) struct Chosen<'a> {
    pub option: OptionName,
    pub value: Value<'a>,
}

/// What a line says: its words in order, and the options that are there.
#[derive(Debug, Drop)]
pub(crate) struct Filled<'a> {
    pub words: Vec<Value<'a>>,
    pub options: Vec<Chosen<'a>>,
}

/// What a word says as one of this kind.
fn value_of<'a>(kind: Kind, text: &'a str) -> Option<Value<'a>>
    ensures { option_map meaning_in result ≡ meaning_of kind text.now }
{
    match kind {
        Kind::Name => Some(Value::Name(text)),
        Kind::Seed => Some(Value::Seed(seed(text)?)),
        Kind::Sharing => Some(Value::Sharing(sharing(text)?)),
        Kind::Parties => Some(Value::Parties(party_count(text)?)),
        Kind::Workers => Some(Value::Workers(worker_count(text)?)),
        Kind::Number(least, most) => Some(Value::Number(number(text, least, most)?)),
    }
}

/// The bytes that 64 hexadecimal digits of either case spell.
fn seed(text: &str) -> Option<Seed>
    ensures { option_map (λ seed. seed.0) result ≡ seed_of text.now }
{
    match <[u8; 32] as FromHex>::from_hex(text) {
        Ok(bytes) => Some(Seed(bytes)),
        Err(_) => None,
    }
}

fn sharing(text: &str) -> Option<WireSharing>
    ensures { option_map (λ way. way.sharing) result ≡ sharing_of text.now }
{
    match text {
        "B" => Some(WireSharing {
            sharing: Sharing::B,
        }),
        "Y" => Some(WireSharing {
            sharing: Sharing::Y,
        }),
        _ => None,
    }
}

fn party_count(text: &str) -> Option<PartyCount>
    ensures { option_map (λ n. n.count) result ≡ number_between least_parties most_parties text.now }
{
    let n = number(text, u32::from(MIN_PARTIES), u32::from(MAX_PARTIES))?;
    Some(PartyCount { count: n as u8 })
}

fn worker_count(text: &str) -> Option<WorkerCount>
    ensures { option_map (λ n. n.count) result ≡ number_between 1 most_workers text.now }
{
    let n = number(text, 1, u32::from(MAX_WORKERS))?;
    Some(WorkerCount { count: n as u8 })
}

/// A number of decimal digits from `least` to `most`.
fn number(text: &str, least: u32, most: u32) -> Option<u32>
    ensures value { result ≡ number_between least most text.now }
    ensures range { IfSome result (λ n. (least ≤ n) × (n ≤ most)) }
{
    match decimal(text) {
        Some(n) if least <= n && n <= most => Some(n),
        _ => None,
    }
}

/// The number below 2^32 that decimal digits spell.
fn decimal(text: &str) -> Option<u32>
    ensures { result ≡ number_between 0 (2 ^ 32 - 1) text.now }
{
    if !is_numeral(text.as_bytes(), 10) {
        return None;
    }
    text.parse::<u32>().ok()
}

/// What the values that `clap` found say, by the row of the command.
pub(crate) fn line_found<'a>(
    alloc: Global,
    command: Command,
    matches: &ArgMatches<'a>,
) -> Result<Filled<'a>, WordsError>
    ensures words { IfOk result (λ filled.
        words_found (first_value (found_of matches.entry.now)) (row command).words
        ≡ Some (said_in filled).words) }
    ensures options { IfOk result (λ filled.
        AreFound (first_value (found_of matches.entry.now)) (row command).options (said_in filled).option) }
    ensures err { IsErrOf result WordsError.Usage →
        (words_found (first_value (found_of matches.entry.now)) (row command).words ≡ None)
        ⊎ IsOneWrong (first_value (found_of matches.entry.now)) (row command).options }
{
    let row = command.row();
    let words = words_found(alloc, matches, row.words)?;
    let options = options_found(alloc, matches, row.options)?;
    Ok(Filled { words, options })
}

/// The words of a row, each by the value that `clap` found for what it is called.
fn words_found<'a>(
    alloc: Global,
    matches: &ArgMatches<'a>,
    row: &[(&'static str, Kind)],
) -> Result<Vec<Value<'a>>, WordsError>
    ensures ok { IfOk result (λ values.
        words_found (first_value (found_of matches.entry.now)) (row_words row.entry.now)
        ≡ Some (map meaning_in values.items)) }
    ensures err { IsErrOf result WordsError.Usage →
        words_found (first_value (found_of matches.entry.now)) (row_words row.entry.now)
        ≡ None }
{
    let mut values = Vec::new(alloc);
    for (id, kind) in row {
        let Some(value) = word_found(matches, id, *kind) else {
            return Err(WordsError::Usage);
        };
        values.push(value)?;
    }
    Ok(values)
}

/// What a word says, by the value that `clap` found for what it is called.
fn word_found<'a>(matches: &ArgMatches<'a>, id: &str, kind: Kind) -> Option<Value<'a>>
    ensures { option_map meaning_in result
        ≡ option_and_then (meaning_of kind) (first_value (found_of matches.entry.now) id.entry.now) }
{
    let text = matches.get_str(id)?;
    value_of(kind, text)
}

/// The options of a row that are there, each by the value that `clap` found for its name.
fn options_found<'a>(
    alloc: Global,
    matches: &ArgMatches<'a>,
    row: &[OptionName],
) -> Result<Vec<Chosen<'a>>, WordsError>
    ensures ok { IfOk result (λ options.
        AreFound (first_value (found_of matches.entry.now)) row.entry.now (chosen options.items)) }
    ensures err { IsErrOf result WordsError.Usage →
        IsOneWrong (first_value (found_of matches.entry.now)) row.entry.now }
{
    let mut options = Vec::new(alloc);
    for option in row {
        let value = option_found(matches, *option)?;
        keep(&mut options, *option, value)?;
    }
    Ok(options)
}

/// Puts an option that is there behind the options.
fn keep<'a>(
    options: &mut Vec<Chosen<'a>>,
    option: OptionName,
    value: Option<Value<'a>>,
) -> Result<(), NoMemory>
    ensures { OnOk result (options.new.items ≡ options.old.items ++ kept option value.entry) }
{
    if let Some(value) = value {
        options.push(Chosen { option, value })?;
    }
    Ok(())
}

/// What an option says, by the value that `clap` found for its name. The empty value says nothing.
fn option_found<'a>(
    matches: &ArgMatches<'a>,
    option: OptionName,
) -> Result<Option<Value<'a>>, WordsError>
    ensures ok { IfOk result (λ value.
        option_found (first_value (found_of matches.entry.now)) option ≡ Some (option_map meaning_in value)) }
    ensures err { IfErr result (λ error. (error ≡ WordsError.Usage)
        × (option_found (first_value (found_of matches.entry.now)) option ≡ None)) }
{
    let row = option.row();
    match matches.get_str(row.name) {
        Some(text) if !text.is_empty() => match value_of(row.kind, text) {
            Some(value) => Ok(Some(value)),
            None => Err(WordsError::Usage),
        },
        _ => Ok(None),
    }
}

impl<'a> Filled<'a> {
    /// The word at this place as a name.
    pub(crate) fn name(&self, at: usize) -> Result<&'a str, WordsError>
        ensures ok { IfOk result (λ text. word_as as_name (said_in self.now) at ≡ Some text.now) }
        ensures err { IfErr result (λ error. (error ≡ WordsError.Usage)
            × (word_as as_name (said_in self.now) at ≡ None)) }
    {
        match self.words.get(at) {
            Some(Value::Name(text)) => Ok(*text),
            _ => Err(WordsError::Usage),
        }
    }

    /// The word at this place as a seed.
    pub(crate) fn seed(&self, at: usize) -> Result<Seed, WordsError>
        ensures ok { IfOk result (λ seed. word_as as_seed (said_in self.now) at ≡ Some seed.0) }
        ensures err { IfErr result (λ error. (error ≡ WordsError.Usage)
            × (word_as as_seed (said_in self.now) at ≡ None)) }
    {
        match self.words.get(at) {
            Some(Value::Seed(seed)) => Ok(*seed),
            _ => Err(WordsError::Usage),
        }
    }

    /// The word at this place as a number of parties.
    pub(crate) fn parties(&self, at: usize) -> Result<PartyCount, WordsError>
        ensures ok { IfOk result (λ n. word_as as_parties (said_in self.now) at ≡ Some n.count) }
        ensures err { IfErr result (λ error. (error ≡ WordsError.Usage)
            × (word_as as_parties (said_in self.now) at ≡ None)) }
    {
        match self.words.get(at) {
            Some(Value::Parties(n)) => Ok(*n),
            _ => Err(WordsError::Usage),
        }
    }

    /// The word at this place as a number.
    pub(crate) fn number(&self, at: usize) -> Result<u32, WordsError>
        ensures ok { IfOk result (λ n. word_as as_number (said_in self.now) at ≡ Some n) }
        ensures err { IfErr result (λ error. (error ≡ WordsError.Usage)
            × (word_as as_number (said_in self.now) at ≡ None)) }
    {
        match self.words.get(at) {
            Some(Value::Number(n)) => Ok(*n),
            _ => Err(WordsError::Usage),
        }
    }

    /// What an option says that is there.
    fn option(&self, option: OptionName) -> Option<Value<'a>>
        ensures { option_map meaning_in result ≡ (said_in self.now).option option }
    {
        for chosen in &self.options {
            if option.is(chosen.option) {
                return Some(chosen.value);
            }
        }
        None
    }

    /// The value of an option as a name, where it is there.
    pub(crate) fn name_of(&self, option: OptionName) -> Result<Option<&'a str>, WordsError>
        ensures ok { IfOk result (λ text.
            option_as as_name ((said_in self.now).option option) ≡ Some (option_copied text)) }
        ensures err { IfErr result (λ error. (error ≡ WordsError.Usage)
            × (option_as as_name ((said_in self.now).option option) ≡ None)) }
    {
        match self.option(option) {
            None => Ok(None),
            Some(Value::Name(text)) => Ok(Some(text)),
            Some(_) => Err(WordsError::Usage),
        }
    }

    /// The value of an option as a way to share wires, where it is there.
    pub(crate) fn sharing_of(&self, option: OptionName) -> Result<Option<WireSharing>, WordsError>
        ensures ok { IfOk result (λ way. option_as as_sharing ((said_in self.now).option option)
            ≡ Some (option_map (λ w. w.sharing) way)) }
        ensures err { IfErr result (λ error. (error ≡ WordsError.Usage)
            × (option_as as_sharing ((said_in self.now).option option) ≡ None)) }
    {
        match self.option(option) {
            None => Ok(None),
            Some(Value::Sharing(way)) => Ok(Some(way)),
            Some(_) => Err(WordsError::Usage),
        }
    }

    /// The value of an option as a number of parties, where it is there.
    pub(crate) fn parties_of(&self, option: OptionName) -> Result<Option<PartyCount>, WordsError>
        ensures ok { IfOk result (λ n. option_as as_parties ((said_in self.now).option option)
            ≡ Some (option_map (λ p. p.count) n)) }
        ensures err { IfErr result (λ error. (error ≡ WordsError.Usage)
            × (option_as as_parties ((said_in self.now).option option) ≡ None)) }
    {
        match self.option(option) {
            None => Ok(None),
            Some(Value::Parties(n)) => Ok(Some(n)),
            Some(_) => Err(WordsError::Usage),
        }
    }

    /// The value of an option as a number of workers, where it is there.
    pub(crate) fn workers_of(&self, option: OptionName) -> Result<Option<WorkerCount>, WordsError>
        ensures ok { IfOk result (λ n. option_as as_workers ((said_in self.now).option option)
            ≡ Some (option_map (λ w. w.count) n)) }
        ensures err { IfErr result (λ error. (error ≡ WordsError.Usage)
            × (option_as as_workers ((said_in self.now).option option) ≡ None)) }
    {
        match self.option(option) {
            None => Ok(None),
            Some(Value::Workers(n)) => Ok(Some(n)),
            Some(_) => Err(WordsError::Usage),
        }
    }
}
