//! Words that the pass has accepted go through one simple `clap` command.

ghost use Rattle.std.specs.Prelude.{◌≡◌, ◌++◌, List, string_bytes, IfOk, OnOk};
ghost use Rattle.std.specs.Option.{option_copied};
ghost use Rattle.clap.specs.Words.{app_of, with_rule, HasMatchesOf};
ghost use Rattle.cli_words.specs.Table.{called, row_words};
ghost use Rattle.cli_words.specs.Grammar as grammar;
ghost use Rattle.cli_words.specs.Grammar.{texts};
ghost use Rattle.cli_words.specs.Canon.{app_for, bare_app, option_rule, word_rule, with_options, with_words, option_word, option_words, canonical, Fits};
ghost use Rattle.cli_words.specs.Pass.{pieces_of, referents};

use crate::pass::{Piece, value_given, words_of};
use crate::table::{Command, Kind, OptionName};
use clap::error::ErrorKind;
use clap::{Arg, ArgMatches};
use mot_base::NoMemory;
use std::alloc::{AllocError, Global};

/// A command with no arguments, no help and no version.
fn bare_command<'a>(alloc: Global) -> clap::Command<'a>
    ensures { app_of result ≡ bare_app }
{
    clap::Command::new(alloc, "motion")
        .no_binary_name(true)
        .disable_help_flag(true)
        .disable_version_flag(true)
}

fn with_option<'a>(
    alloc: Global,
    command: clap::Command<'a>,
    name: &'a str,
) -> Result<clap::Command<'a>, AllocError>
    ensures { IfOk result (λ r. app_of r ≡ with_rule (app_of command.entry) (option_rule name.entry.now)) }
{
    let arg = Arg::new(alloc, name).long(name);
    let more = command.arg(arg)?;
    Ok(more)
}

fn with_word<'a>(
    alloc: Global,
    command: clap::Command<'a>,
    id: &'a str,
) -> Result<clap::Command<'a>, AllocError>
    ensures { IfOk result (λ r. app_of r ≡ with_rule (app_of command.entry) (word_rule id.entry.now)) }
{
    let arg = Arg::new(alloc, id).required(true);
    let more = command.arg(arg)?;
    Ok(more)
}

fn with_options<'a>(
    alloc: Global,
    command: clap::Command<'a>,
    options: &[OptionName],
) -> Result<clap::Command<'a>, AllocError>
    ensures { IfOk result (λ r. app_of r ≡ with_options (app_of command.entry) options.entry.now) }
{
    let mut command = command;
    for option in options {
        command = with_option(alloc, command, option.row().name)?;
    }
    Ok(command)
}

fn with_words<'a>(
    alloc: Global,
    command: clap::Command<'a>,
    words: &[(&'static str, Kind)],
) -> Result<clap::Command<'a>, AllocError>
    ensures { IfOk result (λ r. app_of r
        ≡ with_words (app_of command.entry) (called (row_words words.entry.now))) }
{
    let mut command = command;
    for word in words {
        command = with_word(alloc, command, word.0)?;
    }
    Ok(command)
}

/// The `clap` command of a row of the table.
fn command_for<'a>(alloc: Global, command: Command) -> Result<clap::Command<'a>, AllocError>
    ensures { IfOk result (λ r. app_of r ≡ app_for command) }
{
    let row = command.row();
    let bare = bare_command(alloc);
    let with_all_options = with_options(alloc, bare, row.options)?;
    let whole = with_words(alloc, with_all_options, row.words)?;
    Ok(whole)
}

/// An option with its value, or with the empty one.
fn option_word(alloc: Global, option: OptionName, value: Option<&str>) -> Result<String, NoMemory>
    ensures { IfOk result (λ word. string_bytes word ≡ option_word option (option_copied value.entry)) }
{
    let flag = option.row().flag;
    let value = value.unwrap_or("");
    Ok(format!(in alloc; "{flag}={value}")?)
}

/// Puts these options behind the words.
fn push_options(
    alloc: Global,
    words: &mut Vec<String>,
    options: &[OptionName],
    pieces: &[Piece<'_>],
) -> Result<(), NoMemory>
    ensures { OnOk result (texts words.new.items
        ≡ texts words.old.items ++ option_words options.entry.now (pieces_of pieces.entry.now)) }
{
    for option in options {
        words.push(option_word(alloc, *option, value_given(pieces, *option))?)?;
    }
    Ok(())
}

/// Puts more words behind the words.
fn push_words(alloc: Global, words: &mut Vec<String>, more: &[&str]) -> Result<(), NoMemory>
    ensures { OnOk result (texts words.new.items ≡ texts words.old.items ++ referents more.entry.now) }
{
    for word in more {
        words.push(String::from_str(alloc, word)?)?;
    }
    Ok(())
}

/// The pieces of a line as a canonical list: each option of the command as `--name=value`, `--`, and the
/// positional words.
pub(crate) fn canonical(
    alloc: Global,
    command: Command,
    pieces: &[Piece<'_>],
) -> Result<Vec<String>, NoMemory>
    ensures { IfOk result (λ words. texts words.items ≡ canonical command (pieces_of pieces.entry.now)) }
{
    let mut words = Vec::new(alloc);
    push_options(alloc, &mut words, command.row().options, pieces)?;
    words.push(String::from_str(alloc, "--")?)?;
    let positional = words_of(alloc, pieces)?;
    push_words(alloc, &mut words, positional.as_slice())?;
    Ok(words)
}

/// What `clap` makes of the canonical list of a line. It refuses it for want of memory alone.
pub(crate) fn through_clap<'a>(
    alloc: Global,
    command: Command,
    words: &'a [String],
) -> Result<ArgMatches<'a>, NoMemory>
    requires { (pieces : List grammar.Piece) × Fits command pieces × (texts words.now ≡ canonical command pieces) }
    ensures { IfOk result (λ matches. HasMatchesOf (app_for command) (texts words.entry.now) matches) }
{
    match command_for(alloc, command)?.try_get_matches_from(words) {
        Ok(matches) => Ok(matches),
        Err(error) => match error.kind() {
            ErrorKind::OutOfMemory => Err(NoMemory),
            _ => unreachable!(),
        },
    }
}
