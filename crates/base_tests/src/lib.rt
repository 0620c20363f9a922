//! Tests of the lowest libraries: what no contract says by itself, as values of public standards and
//! that the calls succeed.
#![tactic(auto)]

#[cfg(test)]
mod bits;
#[cfg(test)]
mod framing;
#[cfg(test)]
mod inbox;
#[cfg(test)]
mod links;
#[cfg(test)]
mod outside;
#[cfg(test)]
mod shares;
#[cfg(test)]
mod tapes;
#[cfg(test)]
mod turns;
