//! Texts as lines and words: what the readers of circuits and of values have in common.
#![tactic(auto)]

mod cause;
mod line;
mod word;
mod written;

pub use cause::{LineError, TextError, check};
pub use line::{Lines, are_allowed, line_words_of, words_of};
pub use word::{is_name_word, is_numeral, name_text, number, text_of};
pub use written::{push_number, push_text};
