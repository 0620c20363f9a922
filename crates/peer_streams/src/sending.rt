ghost use Rattle.std.specs.Prelude.{◌≡◌, ℕ, ◌≤◌, length, take, Some, IfOk, OnOk, OnErr, IfErr, IsErrOf};
ghost use Rattle.std.specs.List.{All};
ghost use Rattle.mot_base.specs.Faults.{Rose};
ghost use Rattle.mot_base.specs.Links.{IsPeer, IsKept, IsAppended, IsSame};
ghost use Rattle.frames.specs.Bytes.{canonical, IsPayload, IsSendable};
ghost use Rattle.peer_streams.specs.Sending.{AreSent, AreBegun, bytes_for, IsOfLinks};

use crate::error::PartyError;
use frames::{Frame, message_head, write_frame};
use mot_base::{Links, NoMemory, Party, Payload, Place};
use std::alloc::Global;

/// Sends a frame to a peer. A refused call may have sent some first bytes of it.
pub fn send_frame<L: Links>(
    alloc: Global,
    links: &mut L,
    to: Party,
    frame: &Frame,
) -> Result<(), PartyError>
    requires peer { IsPeer (L.place links.old) to.0 }
    requires can { IsSendable frame.now }
    ensures all { OnOk result
        (IsAppended (L.sent links.old) (L.sent links.new) to.0 (canonical frame.now)) }
    ensures some { OnErr result ((n : ℕ)
        × IsAppended (L.sent links.old) (L.sent links.new) to.0 (take n (canonical frame.now))) }
    ensures kind { IfErr result IsOfLinks }
    ensures fault { IsErrOf result PartyError.LinkFault →
        Rose (L.faults links.old) (L.faults links.new) }
    ensures left { IsKept (L.left links.old) (L.left links.new) }
    ensures closed { IsSame (L.closed links.old) (L.closed links.new) }
    ensures place { L.place links.new ≡ L.place links.old }
    ensures never_falls { L.faults links.old ≤ L.faults links.new }
{
    let bytes = match write_frame(alloc, frame) {
        Ok(bytes) => bytes,
        Err(NoMemory) => return Err(PartyError::NoMemory),
    };
    match links.send(alloc, to, bytes.as_slice()) {
        Ok(()) => Ok(()),
        Err(error) => Err(PartyError::from(error)),
    }
}

/// Sends a message to a peer. A refused call may have sent some first bytes of it.
pub fn send_message<L: Links>(
    alloc: Global,
    links: &mut L,
    to: Party,
    gate: u32,
    round: u8,
    payload: &Payload,
) -> Result<(), PartyError>
    requires peer { IsPeer (L.place links.old) to.0 }
    requires can { IsPayload payload.now }
    ensures all { OnOk result (IsAppended (L.sent links.old) (L.sent links.new) to.0
        (canonical (Frame.Message gate round payload.now))) }
    ensures some { OnErr result ((n : ℕ) × IsAppended (L.sent links.old) (L.sent links.new) to.0
        (take n (canonical (Frame.Message gate round payload.now)))) }
    ensures kind { IfErr result IsOfLinks }
    ensures fault { IsErrOf result PartyError.LinkFault →
        Rose (L.faults links.old) (L.faults links.new) }
    ensures left { IsKept (L.left links.old) (L.left links.new) }
    ensures closed { IsSame (L.closed links.old) (L.closed links.new) }
    ensures place { L.place links.new ≡ L.place links.old }
    ensures never_falls { L.faults links.old ≤ L.faults links.new }
{
    let bytes = match message_bytes(alloc, gate, round, payload) {
        Ok(bytes) => bytes,
        Err(NoMemory) => return Err(PartyError::NoMemory),
    };
    match links.send(alloc, to, bytes.as_slice()) {
        Ok(()) => Ok(()),
        Err(error) => Err(PartyError::from(error)),
    }
}

/// The canonical bytes of a message.
fn message_bytes(
    alloc: Global,
    gate: u32,
    round: u8,
    payload: &Payload,
) -> Result<Vec<u8>, NoMemory>
    requires { IsPayload payload.now }
    ensures { IfOk result (λ bytes.
        bytes.items ≡ canonical (Frame.Message gate round payload.now)) }
{
    let head = message_head(gate, round, payload);
    let mut bytes = Vec::with_capacity(alloc, head.len() + payload.bytes().len())?;
    bytes.extend_from_slice(&head)?;
    bytes.extend_from_slice(payload.bytes())?;
    Ok(bytes)
}

/// Sends to each other party the frame at its place.
pub fn send_each<L: Links>(
    alloc: Global,
    links: &mut L,
    place: Place,
    frames: &[Frame],
) -> Result<(), PartyError>
    requires place { L.place links.old ≡ Some place }
    requires count { length frames.now ≡ place.parties }
    requires can { All IsSendable frames.now }
    ensures all { OnOk result
        (AreSent (L.sent links.old) (L.sent links.new) (bytes_for place.me.0 frames.now)) }
    ensures some { OnErr result
        (AreBegun (L.sent links.old) (L.sent links.new) (bytes_for place.me.0 frames.now)) }
    ensures kind { IfErr result IsOfLinks }
    ensures fault { IsErrOf result PartyError.LinkFault →
        Rose (L.faults links.old) (L.faults links.new) }
    ensures left { IsKept (L.left links.old) (L.left links.new) }
    ensures closed { IsSame (L.closed links.old) (L.closed links.new) }
    ensures place { L.place links.new ≡ L.place links.old }
    ensures never_falls { L.faults links.old ≤ L.faults links.new }
{
    for to in 0..place.parties {
        if to == place.me.0 {
            continue;
        }
        match send_frame(alloc, links, Party(to), &frames[usize::from(to)]) {
            Ok(()) => {}
            Err(cause) => return Err(cause),
        }
    }
    Ok(())
}
