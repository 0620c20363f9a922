//! Tests of runs of all parties: by the engine, by hand, and stage by stage.
#![tactic(auto)]

#[cfg(test)]
mod by_hand;
#[cfg(test)]
mod jobs;
#[cfg(test)]
mod seat;
#[cfg(test)]
mod stages;
#[cfg(test)]
mod sums;
#[cfg(test)]
mod turns;
