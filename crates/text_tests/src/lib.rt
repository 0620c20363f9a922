//! Tests of the readers of texts: texts at the edges of each language, and what they read as.
#![tactic(auto)]

#[cfg(test)]
mod circuits;
#[cfg(test)]
mod cuts;
#[cfg(test)]
mod plain;
#[cfg(test)]
mod values;
