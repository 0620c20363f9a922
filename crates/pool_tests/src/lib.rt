//! Tests of works that several workers run, by a pool and in waves.
#![tactic(auto)]

#[cfg(test)]
mod held;
#[cfg(test)]
mod lattice;
#[cfg(test)]
mod sums;
#[cfg(test)]
mod three;
