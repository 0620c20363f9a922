//! Tests of keys, garbled tables, their evaluation and of conversions: worked examples, and values that another
//! program made.
#![tactic(auto)]

#[cfg(test)]
mod by_hand;
#[cfg(test)]
mod calls;
#[cfg(test)]
mod garbled;
#[cfg(test)]
mod wide;
