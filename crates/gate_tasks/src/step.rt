//! How a task answers.

use crate::outgoing::Outs;
use crate::value::Value;
use message_demux::Slot;

/// What a task lacks: the value of a gate, or a message.
#[derive(Clone, Copy, Debug, PartialEq, Eq)]
pub enum Need {
    Wire(u32),
    Slot(Slot),
}

/// How a task answers when it is polled.
#[derive(Debug, Drop)]
pub enum Step {
    /// Nothing was done, since this is lacking.
    NotYet(Need),
    /// A stage was run that is not the last one: it has these messages to send.
    Sent(Outs),
    /// The last stage was run: it gave the gate's value, and has these messages to send.
    Done(Value, Outs),
}
