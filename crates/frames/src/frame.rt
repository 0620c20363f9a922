ghost use Rattle.std.specs.Prelude.{◌≡◌, ◌≤◌, ◌∷◌, ◌++◌, length, IfOk, OnOk};
ghost use Rattle.std.specs.List.{All};
ghost use Rattle.sha2.specs.Sha256.{sha256};
ghost use Rattle.frames.specs.Bytes.{u32_bytes, u64_bytes, body, canonical, joined, IsPayload, IsSendable};

use byteorder::{BigEndian, ByteOrder};
use mot_base::{NoMemory, Party, Payload};
use sha2::{Digest, Sha256};
use std::alloc::{AllocError, Global};
use thiserror::Error;

/// The length of Hello: its bytes behind the four bytes of the length.
pub const HELLO_LENGTH: usize = 45;

/// The least length of a message.
pub const LEAST_MESSAGE_LENGTH: usize = 7;

/// The greatest length of a frame, that of a message with the greatest payload.
pub const MAX_LENGTH: usize = 65_542;

/// The length of End.
pub const END_LENGTH: usize = 1;

/// How many bytes the frame of a message has before its payload.
pub const MESSAGE_HEAD: usize = 10;

/// What a party says of itself and of the run before its messages.
#[derive(Clone, Copy, Debug, PartialEq, Eq)]
pub struct Hello {
    /// The version of these frames, 1.
    pub version: u8,
    /// The number of parties.
    pub parties: u8,
    pub from: Party,
    pub to: Party,
    /// The number of the deal that the party's part comes from.
    pub id: u64,
    /// SHA-256 of the canonical text of the circuit.
    pub circuit: [u8; 32],
}

/// What one frame says.
#[derive(Debug, Drop)]
pub enum Frame {
    Hello(Hello),
    /// The payload of a gate's round.
    Message {
        gate: u32,
        round: u8,
        payload: Payload,
    },
    /// Nothing more comes.
    End,
}

/// Why bytes are no frame.
#[derive(Clone, Copy, Debug, PartialEq, Eq, Error)]
pub enum FrameFault {
    #[error("the length of the frame is 0 or above 65542")]
    Length,
    #[error("the frame is of no known kind")]
    Kind,
    #[error("the length of the frame is none of its kind")]
    Fields,
}

/// The canonical bytes of a frame: a length of four bytes, which counts the bytes behind it, a byte of
/// kind, and the fields, with all numbers big-endian. A payload has 1 to 65,536 bytes.
#[tactic(auto, unfolding(crate::specs::Bytes::canonical))]
pub fn write_frame(alloc: Global, f: &Frame) -> Result<Vec<u8>, NoMemory>
    requires { IsSendable f.now }
    ensures { IfOk result (λ bytes. bytes.items ≡ canonical f.now) }
{
    let length = body_length(f);
    let mut bytes = Vec::with_capacity(alloc, 4 + length)?;
    put_u32(&mut bytes, length as u32)?;
    put_body(&mut bytes, f)?;
    Ok(bytes)
}

/// What stands before the payload in the canonical bytes of a message. A payload has 1 to 65,536 bytes.
#[tactic(auto, using(crate::proofs::Canonical::message_length), unfolding(crate::specs::Bytes::canonical, crate::specs::Bytes::body))]
pub fn message_head(gate: u32, round: u8, payload: &Payload) -> [u8; MESSAGE_HEAD]
    requires { IsPayload payload.now }
    ensures { result ++ payload.now ≡ canonical (Frame.Message gate round payload.now) }
{
    let length = 6 + payload.bytes().len();
    let [a, b, c, d] = four_bytes(length as u32);
    let [e, f, g, h] = four_bytes(gate);
    [a, b, c, d, 2, e, f, g, h, round]
}

/// SHA-256 of the canonical bytes of the frames, one after another.
pub fn digest(alloc: Global, messages: &[Frame]) -> Result<[u8; 32], NoMemory>
    requires { All IsSendable messages.now }
    ensures { IfOk result (λ digest. digest ≡ sha256 (joined messages.now)) }
{
    let mut hasher = Sha256::new();
    for message in messages {
        let bytes = write_frame(alloc, message)?;
        hasher.update(bytes.as_slice());
    }
    Ok(hasher.finalize())
}

/// How many bytes stand behind the length.
#[tactic(auto, using(crate::proofs::Canonical::hello_length, crate::proofs::Canonical::message_length), unfolding(crate::specs::Bytes::body))]
fn body_length(f: &Frame) -> usize
    requires { IsSendable f.now }
    ensures length { result ≡ length (body f.now) }
    ensures most { result ≤ MAX_LENGTH }
{
    match f {
        Frame::Hello(hello) => 13 + id_length(&hello.circuit),
        Frame::Message {
            gate: _,
            round: _,
            payload,
        } => 6 + payload.bytes().len(),
        Frame::End => END_LENGTH,
    }
}

/// The length of the id of a circuit.
fn id_length(id: &[u8; 32]) -> usize
    ensures length { result ≡ length id.now }
    ensures is { result ≡ 32 }
{
    id.len()
}

#[tactic(auto, unfolding(crate::specs::Bytes::body))]
fn put_body(out: &mut Vec<u8>, f: &Frame) -> Result<(), AllocError>
    ensures { OnOk result (out.new.items ≡ out.old.items ++ body f.now) }
{
    match f {
        Frame::Hello(hello) => put_hello(out, hello),
        Frame::Message {
            gate,
            round,
            payload,
        } => put_message(out, *gate, *round, payload.bytes()),
        Frame::End => Ok(out.push(3)?),
    }
}

#[tactic(auto, unfolding(crate::specs::Bytes::body))]
fn put_hello(out: &mut Vec<u8>, hello: &Hello) -> Result<(), AllocError>
    ensures { OnOk result (out.new.items ≡ out.old.items ++ body (Frame.Hello hello.now)) }
{
    let parties = [1, hello.version, hello.parties, hello.from.0, hello.to.0];
    out.extend_from_slice(&parties)?;
    put_u64(out, hello.id)?;
    out.extend_from_slice(&hello.circuit)
}

#[tactic(auto, unfolding(crate::specs::Bytes::body))]
fn put_message(out: &mut Vec<u8>, gate: u32, round: u8, payload: &[u8]) -> Result<(), AllocError>
    ensures { OnOk result (out.new.items ≡ out.old.items ++ 2 ∷ (u32_bytes gate ++ round ∷ payload.now)) }
{
    out.push(2)?;
    put_u32(out, gate)?;
    out.push(round)?;
    out.extend_from_slice(payload)
}

#[tactic(auto, unfolding(crate::specs::Bytes::u32_bytes))]
fn put_u32(out: &mut Vec<u8>, n: u32) -> Result<(), AllocError>
    ensures { OnOk result (out.new.items ≡ out.old.items ++ u32_bytes n) }
{
    out.extend_from_slice(&four_bytes(n))
}

/// A number in four bytes.
#[tactic(auto, unfolding(crate::specs::Bytes::u32_bytes))]
fn four_bytes(n: u32) -> [u8; 4]
    ensures { result ≡ u32_bytes n }
{
    let mut bytes = [0; 4];
    BigEndian::write_u32(&mut bytes, n);
    bytes
}

#[tactic(auto, unfolding(crate::specs::Bytes::u64_bytes))]
fn put_u64(out: &mut Vec<u8>, n: u64) -> Result<(), AllocError>
    ensures { OnOk result (out.new.items ≡ out.old.items ++ u64_bytes n) }
{
    let mut bytes = [0; 8];
    BigEndian::write_u64(&mut bytes, n);
    out.extend_from_slice(&bytes)
}
