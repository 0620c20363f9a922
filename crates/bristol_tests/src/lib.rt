//! Tests of circuits in Bristol Fashion: texts at the edges of the language, and what circuits compute.
#![tactic(auto)]

#[cfg(test)]
mod evaluation;
#[cfg(test)]
mod refusals;
