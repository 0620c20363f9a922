//! The messages that a party expects, and the inbox that keeps one payload for each of them.
#![tactic(auto)]

mod inbox;
mod laws;
mod slots;

pub use inbox::{Delivered, Inbox, Refused};
pub use laws::{keeps_the_messages, none_is_refused, order_is_nothing};
pub use slots::{Shape, Slot, SlotSpec};
