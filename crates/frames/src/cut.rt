ghost use Rattle.std.specs.Prelude.{◌≡◌, ℕ, ◌<◌, ◌≤◌, ◌^◌, None, length, slice_index, IfOk};
ghost use Rattle.frames.specs.Bytes.{body};
ghost use Rattle.frames.specs.Reading.{stated_length, fault_of_length, fault_of_kind, fault_at, frame_length};
ghost use Rattle.frames.specs.Steps.{IsBodyOf, IsFrontOf, GoesOn, IsLeft, left_progress};

use crate::frame::{
    END_LENGTH, Frame, FrameFault, HELLO_LENGTH, Hello, LEAST_MESSAGE_LENGTH, MAX_LENGTH,
};
use byteorder::{BigEndian, ByteOrder};
use mot_base::{NoMemory, Party, Payload};
use std::alloc::Global;

/// What stands at the front of bytes.
#[derive(Drop)]
pub enum Front {
    /// A frame of which bytes are lacking.
    Partial,
    Bad(FrameFault),
    /// A whole frame other than End.
    Whole(Frame),
    End,
}

/// What ended the reading of bytes.
#[derive(Drop)]
pub enum Left<'a> {
    /// Of the frame that begins here bytes are lacking.
    Partial(&'a [u8]),
    Bad(FrameFault),
    Ended,
}

/// Takes the whole frames off the front of the bytes, up to the first fault or End.
pub fn cut<'a>(
    alloc: Global,
    bytes: &'a [u8],
    frames: &mut Vec<Frame>,
) -> Result<Left<'a>, NoMemory>
    ensures reads { IfOk result (λ left.
        GoesOn frames.old.items bytes.entry.now frames.new.items (left_progress left)) }
    ensures left { IfOk result IsLeft }
{
    let mut rest = bytes;
    'cuts: loop {
        match look(alloc, rest)? {
            Front::Partial => return Ok(Left::Partial(rest)),
            Front::Bad(fault) => return Ok(Left::Bad(fault)),
            Front::Whole(frame) => frames.push(frame)?,
            Front::End => {
                frames.push(Frame::End)?;
                return Ok(Left::Ended);
            }
        }
        rest = &rest[frame_length(rest)..];
    }
}

/// What stands at the front of the bytes.
pub fn look(alloc: Global, bytes: &[u8]) -> Result<Front, NoMemory>
    ensures { IfOk result (IsFrontOf bytes.now) }
{
    if let Some(fault) = fault_at(bytes) {
        return Ok(Front::Bad(fault));
    }
    let length = frame_length(bytes);
    if bytes.len() < length {
        return Ok(Front::Partial);
    }
    match frame_of(alloc, &bytes[4..length])? {
        Frame::End => Ok(Front::End),
        frame => Ok(Front::Whole(frame)),
    }
}

/// The fault of the frame at the front.
#[tactic(auto, unfolding(crate::specs::Reading::fault_at))]
pub fn fault_at(bytes: &[u8]) -> Option<FrameFault>
    ensures { result ≡ fault_at bytes.now }
{
    if bytes.len() < 4 {
        return None;
    }
    let length = stated_length(bytes);
    let fault = fault_of_length(length);
    if fault.is_some() || bytes.len() < 5 {
        return fault;
    }
    fault_of_kind(bytes[4], length)
}

fn fault_of_length(length: usize) -> Option<FrameFault>
    ensures { result ≡ fault_of_length length }
{
    if length == 0 || length > MAX_LENGTH {
        return Some(FrameFault::Length);
    }
    None
}

fn fault_of_kind(kind: u8, length: usize) -> Option<FrameFault>
    ensures { result ≡ fault_of_kind kind length }
{
    let fits = match kind {
        1 => length == HELLO_LENGTH,
        2 => length >= LEAST_MESSAGE_LENGTH,
        3 => length == END_LENGTH,
        _ => return Some(FrameFault::Kind),
    };
    if fits { None } else { Some(FrameFault::Fields) }
}

/// How many bytes the frame at the front has, as far as they tell.
#[tactic(auto, unfolding(crate::specs::Reading::frame_length))]
pub fn frame_length(bytes: &[u8]) -> usize
    ensures is { result ≡ frame_length bytes.now }
    ensures some { 4 ≤ result }
    ensures small { result < 2 ^ 33 }
{
    if bytes.len() < 4 {
        return 4;
    }
    4 + stated_length(bytes)
}

#[tactic(auto, unfolding(crate::specs::Reading::stated_length))]
fn stated_length(bytes: &[u8]) -> usize
    requires { 4 ≤ length bytes.now }
    ensures is { result ≡ stated_length bytes.now }
    ensures small { result < 2 ^ 32 }
{
    BigEndian::read_u32(bytes) as usize
}

/// The frame whose bytes stand behind the length.
fn frame_of(alloc: Global, body: &[u8]) -> Result<Frame, NoMemory>
    requires some { 0 < length body.now }
    requires most { length body.now ≤ MAX_LENGTH }
    requires kind { fault_of_kind (slice_index body.now 0) (length body.now) ≡ None }
    ensures { IfOk result (λ frame. IsBodyOf frame body.now) }
{
    match body[0] {
        1 => Ok(Frame::Hello(hello_of(body))),
        2 => message_of(alloc, body),
        _ => Ok(Frame::End),
    }
}

fn hello_of(body: &[u8]) -> Hello
    requires length { length body.now ≡ HELLO_LENGTH }
    requires kind { slice_index body.now 0 ≡ 1 }
    ensures { IsBodyOf (Frame.Hello result) body.now }
{
    Hello {
        version: body[1],
        parties: body[2],
        from: Party(body[3]),
        to: Party(body[4]),
        id: BigEndian::read_u64(&body[5..]),
        circuit: id_of(&body[13..]),
    }
}

fn id_of(bytes: &[u8]) -> [u8; 32]
    requires { length bytes.now ≡ 32 }
    ensures { result ≡ bytes.now }
{
    let mut id = [0; 32];
    id.copy_from_slice(bytes);
    id
}

fn message_of(alloc: Global, body: &[u8]) -> Result<Frame, NoMemory>
    requires least { LEAST_MESSAGE_LENGTH ≤ length body.now }
    requires most { length body.now ≤ MAX_LENGTH }
    requires kind { slice_index body.now 0 ≡ 2 }
    ensures { IfOk result (λ frame. IsBodyOf frame body.now) }
{
    let payload = Vec::from_slice(alloc, &body[6..])?;
    Ok(Frame::Message {
        gate: BigEndian::read_u32(&body[1..]),
        round: body[5],
        payload: Payload::new(payload),
    })
}
