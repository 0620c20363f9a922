//! What the words after the program's name ask for, by one grammar for all commands.
//!
//! The caller says which commands it runs, and which of their options. A pass over the words decides whether
//! they are in the grammar of these. The line that it found then goes through one simple `clap` command as
//! a canonical list, which `clap` refuses for want of memory alone, and the values are taken from its
//! matches, each by its kind. Commands, words and options are rows of a table.
#![tactic(auto)]

mod canon;
mod fill;
mod pass;
mod read;
mod request;
mod table;
mod words;

pub use read::{
    WordsError, options_are_absent_unless_run, read_behind, read_words, words_are_read_or_refused,
    words_ask_for_one_request, words_behind_a_name_ask_of_its_command,
};
pub use table::{Command, Offer, OptionName};
pub use words::{BristolWords, CommandWords, DealWords, LocalWords, NeedsWords, PlainWords};
