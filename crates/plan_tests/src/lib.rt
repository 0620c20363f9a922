//! Tests of plans: the gates of circuits, what they need, and their messages.
#![tactic(auto)]

#[cfg(test)]
mod bristol;
#[cfg(test)]
mod conversions;
#[cfg(test)]
mod keys;
#[cfg(test)]
mod plans;
