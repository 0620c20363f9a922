//! Tests of claims: what one seat is answered in turn, and what eight threads are granted.
#![tactic(auto)]

#[cfg(test)]
mod alone;
#[cfg(test)]
mod threads;
