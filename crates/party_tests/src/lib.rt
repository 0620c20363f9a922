//! Tests of one party's run over links in memory: what its peers' bytes lead to.
#![tactic(auto)]

#[cfg(test)]
mod answers;
#[cfg(test)]
mod running;
#[cfg(test)]
mod streams;
