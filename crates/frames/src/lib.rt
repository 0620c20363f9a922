//! The frames of a link: their bytes, the reader that takes them from pieces of any cutting, and the
//! digest of messages.
#![tactic(auto)]

mod cut;
mod frame;
mod laws;
mod reader;

pub use frame::{
    END_LENGTH, Frame, FrameFault, HELLO_LENGTH, Hello, LEAST_MESSAGE_LENGTH, MAX_LENGTH,
    MESSAGE_HEAD, digest, message_head, write_frame,
};
pub use laws::one_reading;
pub use reader::{Fed, Reader};
