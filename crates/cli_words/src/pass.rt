//! The pass over the words, which decides whether they are in the grammar.

ghost use Rattle.std.specs.Prelude.{◌≡◌, ◌++◌, ◌∷◌, [], length, OnOk, Some, None, option_map, IfOk, IfErr, IsErrOf};
ghost use Rattle.std.specs.Option.{option_copied};
ghost use Rattle.cli_words.specs.Grammar.{texts, given, words_of};
ghost use Rattle.cli_words.specs.Pass.{rest_after, rest_spelling, spelling, spelling_of, step, first_step, option_step, options_step, next_of, begun, cut, pieces_of, piece_of, is_allowed, are_allowed, is_taken, value_given, is_plain, referents};

use crate::WordsError;
use crate::table::{Command, Offer, OptionName, takes_option};
use mot_base::NoMemory;
use std::alloc::Global;

/// A part of a line of words.
#[derive(Clone, Copy)]
pub(crate) enum Piece<'a> {
    /// An option with its value.
    Option(OptionName, &'a str),
    /// A positional word.
    Word(&'a str),
}

/// Where the pass stands between two words.
#[derive(Clone, Copy)]
pub(crate) enum State {
    Between,
    /// The next word is the value of this option.
    Awaiting(OptionName),
    /// All words that are left are positional.
    Behind,
}

/// What one word comes to: the piece that it ends, and where the pass stands then.
#[derive(Clone, Copy)]
struct Stepped<'a> {
    piece: Option<Piece<'a>>,
    state: State,
}

/// How a word spells an option.
#[derive(Clone, Copy)]
enum Spelt<'a> {
    /// By its name alone: the next word is its value.
    Flag,
    /// With this value behind `=`.
    Joined(&'a str),
}

/// Whether a word is not empty, and taken neither for an option nor for `--`.
fn is_plain(word: &str) -> bool
    ensures { result ≡ is_plain word.now }
{
    match word.as_bytes() {
        [] => false,
        [b'-', _, ..] => false,
        _ => true,
    }
}

/// How a word spells this option, if it does.
fn spelling<'a>(option: OptionName, word: &'a str) -> Option<Spelt<'a>>
    ensures { option_map spelling_of result ≡ spelling option word.now }
{
    match rest_after(option.row().flag, word) {
        Some(rest) => rest_spelling(rest),
        None => None,
    }
}

/// What follows a beginning of a word.
fn rest_after<'a>(beginning: &str, word: &'a str) -> Option<&'a str>
    ensures { option_copied result ≡ rest_after beginning.now word.now }
{
    word.strip_prefix(beginning)
}

/// How a word that begins as an option spells it: alone, or with a value behind `=`.
fn rest_spelling<'a>(rest: &'a str) -> Option<Spelt<'a>>
    ensures { option_map spelling_of result ≡ rest_spelling rest.now }
{
    if rest.is_empty() {
        return Some(Spelt::Flag);
    }
    let Some(value) = rest.strip_prefix('=') else {
        return None;
    };
    if value.is_empty() {
        return None;
    }
    Some(Spelt::Joined(value))
}

/// What a word comes to that spells this option, if it does.
fn option_step<'a>(option: OptionName, word: &'a str) -> Option<Stepped<'a>>
    ensures { option_map next_of result ≡ option_step option word.now }
{
    match spelling(option, word)? {
        Spelt::Flag => Some(Stepped {
            piece: None,
            state: State::Awaiting(option),
        }),
        Spelt::Joined(value) => Some(Stepped {
            piece: Some(Piece::Option(option, value)),
            state: State::Between,
        }),
    }
}

/// What a word comes to that begins a piece.
fn first_step<'a>(word: &'a str) -> Option<Stepped<'a>>
    ensures { option_map next_of result ≡ first_step word.now }
{
    if is_plain(word) {
        return Some(Stepped {
            piece: Some(Piece::Word(word)),
            state: State::Between,
        });
    }
    if word == "--" {
        return Some(Stepped {
            piece: None,
            state: State::Behind,
        });
    }
    options_step(OptionName::all(), word)
}

/// What a word comes to that spells one of these options.
fn options_step<'a>(options: &[OptionName], word: &'a str) -> Option<Stepped<'a>>
    ensures { option_map next_of result ≡ options_step options.now word.now }
{
    for option in options {
        if let Some(next) = option_step(*option, word) {
            return Some(next);
        }
    }
    None
}

/// What the next word comes to. There is none where no line goes on with it.
fn step<'a>(state: State, word: &'a str) -> Option<Stepped<'a>>
    ensures { option_map next_of result ≡ step state word.now }
{
    match state {
        State::Between => first_step(word),
        State::Awaiting(option) if is_plain(word) => Some(Stepped {
            piece: Some(Piece::Option(option, word)),
            state: State::Between,
        }),
        State::Behind if !word.is_empty() => Some(Stepped {
            piece: Some(Piece::Word(word)),
            state: State::Behind,
        }),
        _ => None,
    }
}

/// The pieces that the words spell.
pub(crate) fn cut<'a>(alloc: Global, words: &'a [String]) -> Result<Vec<Piece<'a>>, WordsError>
    ensures ok { IfOk result (λ pieces.
        cut State.Between (texts words.entry.now) ≡ Some (pieces_of pieces.items)) }
    ensures err { IsErrOf result WordsError.Usage → cut State.Between (texts words.entry.now) ≡ None }
{
    let mut pieces = Vec::new(alloc);
    let mut state = State::Between;
    for word in words {
        let Some(next) = step(state, word.as_str()) else {
            return Err(WordsError::Usage);
        };
        keep(&mut pieces, next.piece)?;
        state = next.state;
    }
    match state {
        State::Between | State::Behind => Ok(pieces),
        State::Awaiting(_) => Err(WordsError::Usage),
    }
}

/// Puts a piece that there is behind the pieces.
fn keep<'a>(pieces: &mut Vec<Piece<'a>>, piece: Option<Piece<'a>>) -> Result<(), WordsError>
    ensures ok { OnOk result
        (pieces_of pieces.new.items
        ≡ pieces_of pieces.old.items ++ begun (option_map piece_of piece.entry) []) }
    ensures err { IfErr result (λ error. error ≡ WordsError.NoMemory) }
{
    if let Some(piece) = piece {
        pieces.push(piece)?;
    }
    Ok(())
}

/// Whether an option is not there, or is there once, where it is taken.
fn is_allowed(pieces: &[Piece<'_>], option: OptionName, takes: bool) -> bool
    ensures { result ≡ is_allowed takes (given option (pieces_of pieces.now)) }
{
    let mut found = false;
    for piece in pieces {
        if let Piece::Option(name, _) = piece
            && option.is(*name)
        {
            if !takes || found {
                return false;
            }
            found = true;
        }
    }
    true
}

/// The value that is given to an option.
pub(crate) fn value_given<'a>(pieces: &[Piece<'a>], option: OptionName) -> Option<&'a str>
    ensures { option_copied result ≡ value_given option (pieces_of pieces.now) }
{
    for piece in pieces {
        if let Piece::Option(name, value) = piece
            && option.is(*name)
        {
            return Some(*value);
        }
    }
    None
}

/// The positional words.
pub(crate) fn words_of<'a>(alloc: Global, pieces: &[Piece<'a>]) -> Result<Vec<&'a str>, NoMemory>
    ensures { IfOk result (λ words. referents words.items ≡ words_of (pieces_of pieces.entry.now)) }
{
    let mut words = Vec::new(alloc);
    for piece in pieces {
        keep_word(&mut words, *piece)?;
    }
    Ok(words)
}

/// Puts a positional word behind the words, where the piece is one.
fn keep_word<'a>(words: &mut Vec<&'a str>, piece: Piece<'a>) -> Result<(), NoMemory>
    ensures { OnOk result
        (referents words.new.items ≡ referents words.old.items ++ words_of (piece_of piece.entry ∷ [])) }
{
    if let Piece::Word(word) = piece {
        words.push(word)?;
    }
    Ok(())
}

/// How many positional words there are.
fn count_words(pieces: &[Piece<'_>]) -> usize
    ensures { result ≡ length (words_of (pieces_of pieces.now)) }
{
    let mut count = 0;
    for piece in pieces {
        if let Piece::Word(_) = piece {
            count += 1;
        }
    }
    count
}

/// Whether the command takes the pieces: each option at most once, and only where it is taken, and as many words
/// as its row has.
pub(crate) fn is_taken(offers: &[Offer], command: Command, pieces: &[Piece<'_>]) -> bool
    ensures { result ≡ is_taken offers.now command (pieces_of pieces.now) }
{
    are_allowed(offers, command, pieces) && count_words(pieces) == command.row().words.len()
}

fn are_allowed(offers: &[Offer], command: Command, pieces: &[Piece<'_>]) -> bool
    ensures { result ≡ are_allowed offers.now command (pieces_of pieces.now) }
{
    OptionName::all().iter().all(|option| is_allowed(
        pieces,
        *option,
        takes_option(offers, command, *option),
    ))
}
