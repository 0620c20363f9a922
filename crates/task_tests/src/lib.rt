//! Tests of the tasks of one party: what a gate sends, waits for and gives.
#![tactic(auto)]

#[cfg(test)]
mod tasks;
