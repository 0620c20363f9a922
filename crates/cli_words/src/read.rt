//! The reading of words.

ghost use Rattle.std.specs.Prelude.{◌≡◌, true, IfOk, IsErrOf, List};
ghost use Rattle.cli_words.specs.Canon.{canonical, Fits};
ghost use Rattle.cli_words.specs.Filled.{said_in};
ghost use Rattle.cli_words.specs.Grammar.{Piece, Say, Asks, AsksAs, IsNamed, is_offered, texts};
ghost use Rattle.cli_words.specs.Laws.{AsksForOne, IsReadOrRefused, AsksOfItsCommand, IsAbsentUnlessRun};
ghost use Rattle.cli_words.specs.Pass.{IsLine, Means};
ghost use Rattle.cli_words.specs.Request.{Request, Said, request_of};

use crate::canon::{canonical, through_clap};
use crate::fill::{Filled, line_found};
use crate::pass::{cut, is_taken};
use crate::request::request;
use crate::table::{Command, Offer, is_offered};
use crate::words::CommandWords;
use mot_base::NoMemory;
use std::alloc::{AllocError, AllocFailed, Global};
use thiserror::Error;

/// Why words were not read.
#[derive(Clone, Copy, Debug, PartialEq, Eq, Error)]
pub enum WordsError {
    /// They are not in the grammar of the commands and options that are run.
    #[error("the words are not in the grammar")]
    Usage,
    /// Memory ran out.
    #[error("memory ran out")]
    NoMemory,
}

impl From<AllocError> for WordsError {
    ghost use Rattle.std.specs.Prelude.{◌≡◌};
    ghost use Rattle.cli_words.specs.declared.read.WordsError.TheVariants.{NoMemory};

    ghost from_gives = { λ _ error. error ≡ NoMemory };

    fn from(_error: AllocError) -> WordsError {
        WordsError::NoMemory
    }
}

impl<T: Drop> From<AllocFailed<T>> for WordsError {
    ghost use Rattle.std.specs.Prelude.{◌≡◌};
    ghost use Rattle.cli_words.specs.declared.read.WordsError.TheVariants.{NoMemory};

    ghost from_gives = { λ _ error. error ≡ NoMemory };

    fn from(_error: AllocFailed<T>) -> WordsError {
        WordsError::NoMemory
    }
}

impl From<NoMemory> for WordsError {
    ghost use Rattle.std.specs.Prelude.{◌≡◌};
    ghost use Rattle.cli_words.specs.declared.read.WordsError.TheVariants.{NoMemory};

    ghost from_gives = { λ _ error. error ≡ NoMemory };

    fn from(_error: NoMemory) -> WordsError {
        WordsError::NoMemory
    }
}

/// Reads the words after the program's name, over the commands and options that the caller runs.
///
/// `Usage` comes exactly where they ask for nothing, want of memory aside; and memory is taken only where the
/// first word is the name of a command that is run.
pub fn read_words(
    alloc: Global,
    offers: &[Offer],
    words: &[String],
) -> Result<CommandWords, WordsError>
    ensures read { IfOk result (λ request. Asks offers.now (texts words.now) (request_of request)) }
    ensures refused { IsErrOf result WordsError.Usage →
        (request : Request) → ¬ (Asks offers.now (texts words.now) request) }
    ensures no_memory { IsErrOf result WordsError.NoMemory → IsNamed offers.now (texts words.now) }
{
    let Some((name, rest)) = words.split_first() else {
        return Err(WordsError::Usage);
    };
    let Some(command) = Command::named(name.as_str()) else {
        return Err(WordsError::Usage);
    };
    read_behind(alloc, offers, command, rest)
}

/// Reads the words after a command's name, as `read_words` does with that name in front of them.
pub fn read_behind(
    alloc: Global,
    offers: &[Offer],
    command: Command,
    words: &[String],
) -> Result<CommandWords, WordsError>
    ensures read { IfOk result (λ request.
        AsksAs offers.now command (texts words.now) (request_of request)) }
    ensures refused { IsErrOf result WordsError.Usage →
        (request : Request) → ¬ (AsksAs offers.now command (texts words.now) request) }
    ensures no_memory { IsErrOf result WordsError.NoMemory → is_offered offers.now command ≡ true }
{
    let list = canonical_line(alloc, offers, command, words)?;
    let line = said(alloc, command, list.as_slice())?;
    request(alloc, command, &line)
}

/// The canonical list of the words after the name of a command.
fn canonical_line(
    alloc: Global,
    offers: &[Offer],
    command: Command,
    words: &[String],
) -> Result<Vec<String>, WordsError>
    ensures ok { IfOk result (λ list. (pieces : List Piece)
        × IsLine offers.now command (texts words.now) pieces × (texts list.items ≡ canonical command pieces)) }
    ensures refused { IsErrOf result WordsError.Usage →
        (said : Said) → ¬ (Say offers.now command (texts words.now) said) }
    ensures no_memory { IsErrOf result WordsError.NoMemory → is_offered offers.now command ≡ true }
{
    if !is_offered(offers, command) {
        return Err(WordsError::Usage);
    }
    let pieces = cut(alloc, words)?;
    if !is_taken(offers, command, pieces.as_slice()) {
        return Err(WordsError::Usage);
    }
    Ok(canonical(alloc, command, pieces.as_slice())?)
}

/// What the canonical list of a line says.
fn said<'a>(alloc: Global, command: Command, list: &'a [String]) -> Result<Filled<'a>, WordsError>
    requires { (pieces : List Piece) × Fits command pieces × (texts list.now ≡ canonical command pieces) }
    ensures ok { IfOk result (λ line. (pieces : List Piece) → Fits command pieces →
        texts list.entry.now ≡ canonical command pieces → Means command pieces (said_in line)) }
    ensures refused { IsErrOf result WordsError.Usage → (pieces : List Piece) → Fits command pieces →
        texts list.entry.now ≡ canonical command pieces → (said : Said) → ¬ (Means command pieces said) }
{
    let matches = through_clap(alloc, command, list)?;
    line_found(alloc, command, &matches)
}

/// Words ask for one request at most.
pub fn words_ask_for_one_request()
    ensures { AsksForOne }
{}

/// Words ask for something or they do not.
pub fn words_are_read_or_refused()
    ensures { IsReadOrRefused }
{}

/// The words behind the name of a command ask for a request of it.
pub fn words_behind_a_name_ask_of_its_command()
    ensures { AsksOfItsCommand }
{}

/// An option that is not run with the command says nothing.
pub fn options_are_absent_unless_run()
    ensures { IsAbsentUnlessRun }
{}
