//! Tests of the grammar of all words.
#![tactic(auto)]

#[cfg(test)]
mod words;
