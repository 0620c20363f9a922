//! Tests of dealer files and of the dealer: values that other programs made, and what is refused.
#![tactic(auto)]

#[cfg(test)]
mod dealer;
#[cfg(test)]
mod deals;
