//! Streams of messages: written, read in pieces, and delivered.
ghost use Rattle.std.specs.Prelude.{◌<◌, IfOk};
ghost use Rattle.message_demux.specs.Slots.{IsSlotList};

use frames::{Fed, Frame, Reader, write_frame};
use message_demux::{Inbox, Refused, Shape, SlotSpec};
use mot_base::{NoMemory, Party, Payload};
use std::alloc::Global;

/// Feeds a stream of that many messages in pieces of a size, and gives how many frames came of them.
pub(crate) fn read_in_pieces(alloc: Global, count: u32, size: usize) -> Result<u64, NoMemory>
    requires { 0 < size }
{
    let stream = write_messages(alloc, count)?;
    let mut reader = Reader::new(alloc);
    let mut came = 0u64;
    for piece in stream.chunks(size) {
        let fed = reader.feed(alloc, piece)?;
        came = came.wrapping_add(fed.frames.len() as u64);
    }
    Ok(came)
}

/// Writes that many messages of 16 bytes, feeds them in pieces of 4,096 bytes and delivers them, and
/// gives how many bytes are kept.
pub(crate) fn deliver_all(alloc: Global, count: u32) -> Result<u64, Refused> {
    let stream = write_messages(alloc, count)?;
    let mut inbox = Inbox::new(alloc, expected(alloc, count)?)?;
    let mut reader = Reader::new(alloc);
    for piece in stream.chunks(4096) {
        let Fed { frames, fault: _ } = reader.feed(alloc, piece)?;
        for frame in frames {
            deliver(alloc, &mut inbox, frame)?;
        }
    }
    Ok(inbox.kept())
}

fn deliver(alloc: Global, inbox: &mut Inbox, frame: Frame) -> Result<(), Refused> {
    if let Frame::Message {
        gate,
        round,
        payload,
    } = frame
    {
        inbox.deliver(alloc, Party(1), gate, round, payload)?;
    }
    Ok(())
}

/// The bytes of that many messages, one for each gate.
fn write_messages(alloc: Global, count: u32) -> Result<Vec<u8>, NoMemory> {
    let mut stream = Vec::new(alloc);
    for gate in 0..count {
        let payload = Vec::from_slice(alloc, &[7; 16])?;
        let message = Frame::Message {
            gate,
            round: 0,
            payload: Payload::new(payload),
        };
        stream.extend_from_slice(&write_frame(alloc, &message)?)?;
    }
    Ok(stream)
}

/// The same messages, as they are expected.
fn expected(alloc: Global, count: u32) -> Result<Vec<SlotSpec>, NoMemory>
    ensures { IfOk result (λ slots. IsSlotList slots.items) }
{
    let mut slots = Vec::with_capacity(alloc, count as usize)?;
    for gate in 0..count {
        slots.push(SlotSpec {
            from: Party(1),
            gate,
            round: 0,
            len: 16,
            shape: Shape::Words,
        })?;
    }
    Ok(slots)
}
