//! Tests of the program over files and an output in memory: what it prints, and with what status it ends.
#![tactic(auto)]

#[cfg(test)]
mod bristol;
#[cfg(test)]
mod deals;
#[cfg(test)]
mod machine;
#[cfg(test)]
mod needs;
#[cfg(test)]
mod output;
#[cfg(test)]
mod parts;
#[cfg(test)]
mod refusals;
#[cfg(test)]
mod reports;
